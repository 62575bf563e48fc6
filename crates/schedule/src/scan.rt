// The largest start of an overfull span that ends at a given slot: attempts are counted from the latest start down,
// block by block, until they are more than the slots.
ghost use Rattle.std.specs.Prelude.{◌<◌};
ghost use Rattle.schedule.specs.Rests.{OverAt};
ghost use Rattle.schedule.specs.Scan.{Latest, LastStart};

use crate::rest::Rest;

// A lane with a block left, and where the window of its last block starts.
#[derive(Clone, Copy)]
struct Top {
    head: usize,
    low: u32,
}

// The largest start of an overfull span that ends at `h`.
pub(crate) fn last_start(slot: u32, h: u32, work: &[Rest; 8]) -> u32
    requires { (h < 2000000) × (OverAt slot h work.now) }
    ensures { LastStart slot h work.now result }
{
    // In place: the array that `map` makes is cleared by C's memset first, which an archive for C would need.
    let mut lanes = *work;
    for lane in lanes.iter_mut() {
        *lane = lane.cut(h);
    }
    let mut counted = 0;
    loop {
        let top = latest(slot, h, &lanes).unwrap();
        let lane = lanes[top.head];
        counted += lane.last_owed();
        if counted > h - top.low {
            return top.low;
        }
        lanes[top.head] = lane.shorten(lane.blocks - 1);
    }
}

// The lane whose last block starts latest, if a lane has a block left.
fn latest(slot: u32, h: u32, lanes: &[Rest; 8]) -> Option<Top>
    ensures { Latest slot h lanes.now 8 result }
{
    let mut top: Option<Top> = None;
    // No chain of `filter` and `max_by_key`: what it finds was not proved, neither by the chain's lemmas nor without.
    for (head, lane) in lanes.iter().enumerate() {
        if lane.next < lane.blocks {
            let low = lane.last_start(slot, h);
            if top.is_none_or(|t| t.low < low) {
                top = Some(Top { head, low });
            }
        }
    }
    top
}
