// The theory of a bench: what each of its calls does, what a history of calls tells, and what holds after every
// history. The bench itself, in a crate above, keeps these types and is proved to do what the definitions here say.
#![tactic(auto)]

ghost use Rattle.std.specs.Prelude.{ℕ, List};
ghost use Rattle.disk.specs.Meaning.{Block};
ghost use Rattle.history.specs.Bench.{Valid};
ghost use Rattle.history.specs.Laws.{BenchLaws, Start};
ghost use Rattle.history.specs.Trials.{JobDone, TrialsHold, job};

use refusal::Fault;
use schedule::Timing;

// The numbers of an order: `timing.count` blocks of the disk from `first` on, for one head.
#[derive(Clone, Copy, PartialEq, Eq, Debug)]
pub struct Asked {
    pub head: u32,
    pub first: u32,
    pub timing: Timing,
}

// The lane of an order, from its admission until it is closed.
#[derive(Clone, Copy, PartialEq, Eq, Debug)]
pub struct Lane {
    pub order: Asked,
    // The slot of admission.
    pub admitted: u32,
    // The lowest unread block, counted from the order's first; the count once every block is read.
    pub next: u32,
    // The failed attempts on that block; 0 once every block is read.
    pub failed: u32,
    pub stage: Stage,
    // The first `order.timing.depth` are the lane's, by rising number, while it is live; block i uses the one at
    // place i mod depth. The others mean nothing: their number is the order's own, and needs no length beside it.
    pub buffers: [u8; 8],
}

// A lane is live until it ends; what ended it.
#[derive(Clone, Copy, PartialEq, Eq, Debug)]
pub enum Stage {
    Live,
    // The burn of its last block ended.
    Finished,
    // A block failed more often than its order had attempts to spare.
    Faulted(Fault),
    // A lease taken in the lane was still out when its block's burn ended.
    Held,
    // It was closed while it was live. No head has such a lane: only a report tells of it.
    Closed,
}

// What happens to a lane.
#[derive(Clone, Copy, PartialEq, Eq, Debug)]
pub enum Event {
    FailedAttempt(Fault),
    BlockRead,
    // A slot passed. `held` if the burn of a block ended on which a lease taken in the lane is out, and `last` if that
    // of the last block ended.
    BurnEnd { held: bool, last: bool },
    Close,
}

// A block lent to a party.
#[derive(Clone, Copy, PartialEq, Eq, Debug)]
pub struct Lease {
    pub party: u32,
    // The lane in which it was taken, by its head and its slot of admission. The lane may have ended since.
    pub head: u32,
    pub admitted: u32,
    // The block, counted from the order's first, and as the disk counts.
    pub index: u32,
    pub block: u32,
    // Where its bytes lie.
    pub buffer: u8,
    // Shown and given by its slip alone.
    pub slip: bool,
}

// What the disk did in a slot. Blocks are counted from their order's first.
#[derive(Clone, Copy, PartialEq, Eq, Debug)]
pub enum Ticked {
    Idle,
    Read {
        head: u32,
        block: u32,
    },
    // `attempt` counts from 1, on each block anew.
    Failed {
        head: u32,
        block: u32,
        attempt: u32,
        fault: Fault,
    },
}

// What a slot came to.
#[derive(Clone, Copy, PartialEq, Eq, Debug)]
pub struct Tick {
    pub did: Ticked,
    // By head: how its lane ended with this slot, if it did.
    pub ended: [Option<Cause>; 8],
}

// What is told of a lane.
#[derive(Clone, Copy, PartialEq, Eq, Debug)]
pub struct Report {
    pub stage: Stage,
    // The lowest unread block, and the count if there is none.
    pub next: u32,
    // The failed attempts on it, 0 if there is none.
    pub failed: u32,
}

// A stage without its fault: a byte, since every tick answers eight of them. In the order of the numbers by which a log
// tells them, from 0.
#[derive(Clone, Copy, PartialEq, Eq, Debug)]
pub enum Cause {
    Live,
    Finished,
    Faulted,
    Held,
    Closed,
}

// The laws over every history of calls on a new bench, of any number over any disk and pool, and the worked examples. It
// does nothing: its contract has them proved.
fn laws_hold()
    ensures laws { (number : ℕ) (disk : List Block) (pool : List ℕ) → Start disk pool → BenchLaws number disk pool }
    ensures trials { TrialsHold }
    ensures example { (v : Valid job) → JobDone v }
{}
