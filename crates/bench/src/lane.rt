// What happens to a lane.
ghost use Rattle.std.specs.Prelude.{◌≡◌, ◌^◌, ◌<◌};
ghost use Rattle.history.specs.Calls.{happens};

use history::{Event, Lane, Stage};

// One event changes a live lane in place, and leaves an ended one as it is. A closure for each event would not show state and
// event side by side.
pub(crate) fn step(lane: &mut Lane, event: Event)
    requires { (lane.old.next < 2 ^ 31) × (lane.old.failed < 2 ^ 31) }
    ensures { lane.new ≡ happens lane.old event }
{
    match (&mut lane.stage, event) {
        (stage @ Stage::Live, Event::FailedAttempt(fault)) => {
            if lane.failed >= lane.order.timing.spare {
                *stage = Stage::Faulted(fault);
            }
            lane.failed += 1;
        }
        (Stage::Live, Event::BlockRead) => {
            lane.next += 1;
            lane.failed = 0;
        }
        (stage @ Stage::Live, Event::BurnEnd { held, last }) => {
            if held {
                *stage = Stage::Held;
            } else if last {
                *stage = Stage::Finished;
            }
        }
        (stage @ Stage::Live, Event::Close) => *stage = Stage::Closed,
        _ => {}
    }
}
