// When orders fit: what is left of up to eight lanes is charged attempts with windows of slots, and an order fits
// exactly when each of them can have a slot of its own. It knows nothing of benches, disks or leases.
#![tactic(auto)]

ghost use Rattle.std.specs.Prelude.{◌≡◌, ◌≤◌, length, Decides};
ghost use Rattle.schedule.specs.Answers.{BoundsExactlyOutsideLimits, FirstOverfullOrNone, NoneExactlyWhenAssigned};
ghost use Rattle.schedule.specs.Choice.{OneChoice};
ghost use Rattle.schedule.specs.Examples.{ExamplesHold};
ghost use Rattle.schedule.specs.Orders.{WithinLimits, Proper, deadline, release, charged};
ghost use Rattle.schedule.specs.Rests.{RestsOf};

mod replay;
mod rest;
mod scan;
mod ticket;

use refusal::{Refusal, Span};
use replay::first_end;
use rest::Rest;
use scan::last_start;

// The numbers of an order that say when its blocks are read: block i of `count` burns for `period` slots from
// `start` + i·`period` on, through `depth` buffers in turn, and may fail `spare` times. Laid out as in C, for programs
// that are held against this one.
#[derive(Clone, Copy, PartialEq, Eq, Default, Debug)]
#[repr(C)]
pub struct Timing {
    pub count: u32,
    pub start: u32,
    pub period: u32,
    pub depth: u32,
    pub spare: u32,
}

// What is left of a lane, which was admitted at slot `admitted`: its blocks from `next`, the lowest unread one, on.
// `failed` attempts were made on that block; it means nothing once `next` is the count.
#[derive(Clone, Copy, PartialEq, Eq, Default, Debug)]
#[repr(C)]
pub struct Work {
    pub timing: Timing,
    pub admitted: u32,
    pub next: u32,
    pub failed: u32,
}

// The last slot.
const LAST: u32 = 1_000_000;

// The overfull span of smallest h, and of those the one of largest l, among the attempts that the lanes of `work`
// charge at `slot`; none exactly when an assignment gives each of them a slot of its own. It refuses a slot past the
// last, more than eight lanes, and what cannot be left of a lane.
pub fn overfull(slot: u32, work: &[Work]) -> Result<Option<Span>, Refusal>
    ensures bounds { BoundsExactlyOutsideLimits slot work.now result }
    ensures span { FirstOverfullOrNone (charged slot work.now) result }
    ensures assigned { NoneExactlyWhenAssigned (charged slot work.now) result }
{
    if slot > LAST || work.len() > 8 {
        return Err(Refusal::Bounds);
    }
    let lanes = rests(work)?;
    Ok(first_end(slot, &lanes).map(|h| Span {
        l: last_start(slot, h, &lanes),
        h,
    }))
}

impl Timing {
    // True if and only if the numbers are within the limits of an order.
    pub fn within_limits(&self) -> bool
        ensures { Decides result (WithinLimits self.now) }
    {
        (1..=4096).contains(&self.count)
            && self.start <= LAST
            && (1..=10_000).contains(&self.period)
            && (2..=8).contains(&self.depth)
            && self.spare <= 15
            && self.deadline(self.count) <= LAST as u64
    }

    // The slot by which `block` must be read: its burn begins.
    pub fn deadline(&self, block: u32) -> u64
        ensures { result ≡ deadline self.now block }
    {
        self.start as u64 + block as u64 * self.period as u64
    }

    // The first slot at which `block` may be read: the burn that its buffer held before has ended.
    pub fn release(&self, admitted: u32, block: u32) -> u64
        ensures { result ≡ release self.now admitted block }
    {
        if block < self.depth {
            return admitted as u64;
        }
        self.start as u64 + ((block - self.depth) as u64 + 1) * self.period as u64
    }
}

impl Work {
    // True if and only if this can be left of a lane: its order is within the limits, it was admitted by its start, and
    // its lowest unread block and the failed attempts on it are possible.
    pub fn is_proper(&self) -> bool
        ensures { Decides result (Proper self.now) }
    {
        self.timing.within_limits()
            && self.admitted <= self.timing.start
            && self.next <= self.timing.count
            && self.failed <= self.timing.spare
    }
}

// The rule leaves no choice, and the worked examples come out as docs/RULES.md has them. It does nothing: its contract
// has them proved.
pub fn laws_of_schedule()
    ensures choice { OneChoice }
    ensures examples { ExamplesHold }
{}

// What is left of each lane, and lanes with nothing left up to eight; it refuses work that is not proper.
fn rests(work: &[Work]) -> Result<[Rest; 8], Refusal>
    requires { length work.now ≤ 8 }
    ensures { RestsOf work.now result }
{
    let mut out = [Rest::DONE; 8];
    for (k, w) in work.iter().enumerate() {
        out[k] = Rest::try_from(w)?;
    }
    Ok(out)
}
