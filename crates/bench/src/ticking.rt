// One slot of a bench: the read of the earliest deadline, and the burns that end.
ghost use Rattle.std.specs.Prelude.{◌≡◌, ℕ, ◌<◌, ◌≤◌, true, false, List, [], length, IfOk, Some, MatchOption};
ghost use Rattle.queue.specs.Held.{held, room};
ghost use Rattle.std.specs.List.{position};
ghost use Rattle.history.specs.Bench.{any, some_and, is_live, lane_in, lane_at};
ghost use Rattle.history.specs.Calls.{answered, ticked, tick, served, due, choice, next_block, holds_up, changed, aged, all_aged, ends, how_ended};
ghost use Rattle.history.specs.Requests.{Requested};
ghost use Rattle.bench.specs.Model.{world};
ghost use Rattle.bench.specs.Quiet.{settled};
ghost use Rattle.bench.specs.Sound.{every, lane_ok, live_ok};
ghost use Rattle.bench.specs.Ticks.{deadline_of, head_of, RequestOf, Offered, chosen_by, may_end, Alive, EndedSince, fault_in, tick_fault, failures_in, FaultAt, ToldBy, TickToldFrom, Attempted};

use crate::lane::step;
use crate::quiet::{any_live, is_live, lent_until, next_lapse, quiet_until};
use crate::state::Bench;
use disk::Disk;
use history::{Cause, Event, Lane, Lease, Stage, Tick, Ticked};
use queue::Queue;
use queue::request::ReadRequest;
use refusal::Refusal;
use schedule::Timing;
use std::array;

impl<D: Disk> Bench<D> {
    // One slot: at most one read, and then the burns that end; what the disk did, and which lanes the slot ended.
    pub fn tick(&mut self, pool: &mut [u8]) -> Result<Tick, Refusal>
        ensures answer { answered (λ t. ticked t.did) result ≡ (tick (world D.Disk.meaning pool.old self.entry.now) (tick_fault result)).1 }
        ensures bench { world D.Disk.meaning pool.new self.exit.now ≡ (tick (world D.Disk.meaning pool.old self.entry.now) (tick_fault result)).0 }
        ensures ended { IfOk result (λ t. t.ended ≡ ends self.entry.now.lanes self.exit.now.lanes) }
        ensures origin { TickToldFrom (D.Disk.faults self.entry.now.disk) self.entry.now.lanes result }
    {
        let Some(pool) = pool.as_mut_array::<2048>() else {
            return Err(Refusal::WrongSize);
        };
        if self.now == 1_000_000 {
            return Err(Refusal::LastSlot);
        }
        if ((self.now + 1) as u64) < self.quiet {
            self.now += 1;
            return Ok(Tick {
                did: Ticked::Idle,
                ended: [None; 8],
            });
        }
        let was = live_heads(&self.lanes);
        let did = self.pass(pool);
        let ended = ended_since(&was, &self.lanes);
        Ok(Tick { did, ended })
    }

    // A slot in which something may happen.
    fn pass(&mut self, pool: &mut [u8; 2048]) -> Ticked
        requires { self.now.now < 1000000 }
        ensures answer { ticked result ≡ (served (world D.Disk.meaning pool.old self.entry.now) (fault_in result) (choice self.entry.now.now self.entry.now.lanes)).1 }
        ensures bench { world D.Disk.meaning pool.new self.exit.now ≡ (served (world D.Disk.meaning pool.old self.entry.now) (fault_in result) (choice self.entry.now.now self.entry.now.lanes)).0 }
        ensures origin { ToldBy (D.Disk.faults self.entry.now.disk) self.entry.now.lanes result }
    {
        match self.choose() {
            None => {
                self.now += 1;
                self.quiet = 0;
                self.settle();
                Ticked::Idle
            }
            Some(request) => self.serve(request.head as u32, pool),
        }
    }

    // The read to make now: the earliest deadline among the lanes that are due, ties to the lower head.
    fn choose(&self) -> Option<ReadRequest>
        ensures { chosen_by result ≡ choice self.entry.now.now self.entry.now.lanes }
    {
        // An idle slot needs no queue.
        let Some(first) = first_due(self.now, &self.lanes) else {
            return None;
        };
        let none = ReadRequest {
            deadline: 0,
            head: 0,
            block: 0,
        };
        let mut memory = [none; 8];
        let mut queue = Queue::new(&mut memory);
        for (head, lane) in self.lanes.iter().enumerate() {
            if head < first {
                continue;
            }
            offer(&mut queue, self.now, head as u8, lane);
        }
        queue.first()
    }

    // A slot with a read for the lane of a head, which is due.
    fn serve(&mut self, head: u32, pool: &mut [u8; 2048]) -> Ticked
        requires { (head < 8) × (due self.now.now (lane_at self.now.lanes head) ≡ true) × (self.now.now < 1000000) }
        ensures answer { ticked result ≡ (served (world D.Disk.meaning pool.old self.entry.now) (fault_in result) (Some (head, 0))).1 }
        ensures bench { world D.Disk.meaning pool.new self.exit.now ≡ (served (world D.Disk.meaning pool.old self.entry.now) (fault_in result) (Some (head, 0))).0 }
        ensures origin { FaultAt head (D.Disk.faults self.entry.now.disk (next_block (lane_at self.entry.now.lanes head))) result }
    {
        let Some(lane) = &mut self.lanes[head as usize] else {
            unreachable()
        };
        let told = attempt(&mut self.disk, lane, head, pool);
        self.attempts += 1;
        self.failures += failures_in(&told);
        self.now += 1;
        self.quiet = 0;
        self.live = any_live(&self.lanes);
        self.settle();
        told
    }

    // The burns that end as the bench comes to the slot that it is at.
    fn settle(&mut self)
        ensures { (pool : List ℕ) → world D.Disk.meaning pool self.exit.now ≡ settled (world D.Disk.meaning pool self.entry.now) }
    {
        if (self.now as u64) < self.lapse {
            // No burn of a block that is lent ends.
            age_all(self.now, &[], &mut self.lanes);
        } else {
            age_all(self.now, &self.leases, &mut self.lanes);
            self.lapse = next_lapse(self.now, &self.lanes, &self.leases);
        }
        self.quiet = quiet_until(self.lapse, &self.lanes);
        self.live = any_live(&self.lanes);
    }
}

// One read of the lane's lowest unread block into that block's buffer.
fn attempt<D: Disk>(disk: &mut D, lane: &mut Lane, head: u32, pool: &mut [u8; 2048]) -> Ticked
    requires { (live_ok lane.old ≡ true) × (lane.old.next < lane.old.order.timing.count) }
    ensures outcome { Attempted (D.Disk.meaning disk.old) lane.old head pool.old result (D.Disk.meaning disk.new) lane.new pool.new }
    ensures origin { FaultAt head (D.Disk.faults disk.old (next_block lane.old)) result }
{
    let index = lane.next;
    let attempt = lane.failed + 1;
    let block = (lane.order.first + index) as usize;
    let place = 64 * lane.buffers[(index % lane.order.timing.depth) as usize] as usize;
    match disk.read(block, &mut pool[place..place + 64]) {
        Ok(()) => {
            step(lane, Event::BlockRead);
            Ticked::Read { head, block: index }
        }
        Err(refusal) => {
            let Refusal::Faulted(fault) = refusal else {
                unreachable()
            };
            step(lane, Event::FailedAttempt(fault));
            Ticked::Failed {
                head,
                block: index,
                attempt,
                fault,
            }
        }
    }
}

// Which heads have a live lane.
fn live_heads(lanes: &[Option<Lane>; 8]) -> [bool; 8]
    ensures { Alive lanes.now result }
{
    array::from_fn(|head| is_live(&lanes[head]))
}

// By head: how a lane that was live has ended, if it has.
fn ended_since(was: &[bool; 8], lanes: &[Option<Lane>; 8]) -> [Option<Cause>; 8]
    ensures { EndedSince was.now lanes.now result }
{
    array::from_fn(|head| how_ended(was[head], &lanes[head]))
}

fn how_ended(was: bool, lane: &Option<Lane>) -> Option<Cause>
    ensures { result ≡ how_ended was lane.now }
{
    if !was {
        return None;
    }
    let Some(lane) = lane else {
        return None;
    };
    match lane.stage {
        Stage::Live => None,
        Stage::Finished => Some(Cause::Finished),
        Stage::Faulted(_) => Some(Cause::Faulted),
        Stage::Held => Some(Cause::Held),
        Stage::Closed => Some(Cause::Closed),
    }
}

// The failed attempts that it tells, one or none.
fn failures_in(told: &Ticked) -> u32
    ensures { result ≡ failures_in told.now }
{
    matches!(told, Ticked::Failed { .. }) as u32
}

// The first head whose lane is due.
fn first_due(slot: u32, lanes: &[Option<Lane>]) -> Option<usize>
    ensures { result ≡ position (some_and (due slot)) lanes.now }
{
    lanes.iter().position(|lane| has_due(slot, lane))
}

fn has_due(slot: u32, lane: &Option<Lane>) -> bool
    ensures { result ≡ some_and (due slot) lane.now }
{
    lane.as_ref().is_some_and(|lane| is_due(slot, lane))
}

// Whether the lane is live and its lowest unread block is released.
fn is_due(slot: u32, lane: &Lane) -> bool
    ensures { result ≡ due slot lane.now }
{
    let Stage::Live = lane.stage else {
        return false;
    };
    let timing = &lane.order.timing;
    lane.next < timing.count && timing.release(lane.admitted, lane.next) <= slot as u64
}

// Puts the request of a head's lane, if it is due.
fn offer(queue: &mut Queue<ReadRequest>, slot: u32, head: u8, lane: &Option<Lane>)
    requires { (lane_ok (lane_in lane.now) ≡ true) × (length (held queue.old) < room queue.old) }
    ensures { Offered slot head lane.now queue.old queue.new }
{
    let Some(item) = request(slot, head, lane) else {
        return;
    };
    let _ = queue.put(item);
}

// The read request of a head's lane, if its lowest unread block is released.
fn request(slot: u32, head: u8, lane: &Option<Lane>) -> Option<ReadRequest>
    requires { lane_ok (lane_in lane.now) ≡ true }
    ensures { MatchOption result (due slot (lane_in lane.now) ≡ false) (RequestOf slot head (lane_in lane.now)) }
{
    let Some(lane) = lane else {
        return None;
    };
    if !is_due(slot, lane) {
        return None;
    }
    Some(ReadRequest {
        deadline: lane.order.timing.deadline(lane.next) as u32,
        head,
        block: lane.next as u16,
    })
}

// Every live lane whose burn ends at `slot`, as it is then.
fn age_all(slot: u32, leases: &[Option<Lease>], lanes: &mut [Option<Lane>])
    requires { every lane_ok lanes.old ≡ true }
    ensures { lanes.new ≡ all_aged slot leases.now lanes.old }
{
    for lane in lanes.iter_mut() {
        age(slot, leases, lane);
    }
}

fn age(slot: u32, leases: &[Option<Lease>], lane: &mut Option<Lane>)
    requires { lane_ok (lane_in lane.old) ≡ true }
    ensures { lane.new ≡ changed (aged slot leases.now) lane.old }
{
    let Some(lane) = lane else {
        return;
    };
    let Stage::Live = lane.stage else {
        return;
    };
    if !may_end(slot, &lane.order.timing) {
        return;
    }
    let held = is_held(slot, lane, leases);
    let last = lane.order.timing.deadline(lane.order.timing.count) == slot as u64;
    step(lane, Event::BurnEnd { held, last });
}

// Whether `slot` is a whole number of periods after the start. A burn ends at no other slot, so that most slots pass
// without a look at the leases.
fn may_end(slot: u32, timing: &Timing) -> bool
    requires { 1 ≤ timing.now.period }
    ensures { result ≡ may_end slot timing.now }
{
    slot >= timing.start && (slot - timing.start) % timing.period == 0
}

// Whether a lease taken in this lane is out on a block whose burn ends at `slot`.
fn is_held(slot: u32, lane: &Lane, leases: &[Option<Lease>]) -> bool
    ensures { result ≡ any (holds_up slot lane.now) leases.now }
{
    leases.iter().any(|lease| is_holding(slot, lane, lease))
}

fn is_holding(slot: u32, lane: &Lane, lease: &Option<Lease>) -> bool
    ensures { result ≡ some_and (holds_up slot lane.now) lease.now }
{
    lease
        .as_ref()
        .is_some_and(|lease| lent_until(lane, lease) == Some(slot as u64))
}
