// Admitting an order: the checks, and the lane that it begins.
ghost use Rattle.std.specs.Prelude.{◌≡◌, ℕ, ◌≤◌, List, [], ◌∷◌, length, take, Ok};
ghost use Rattle.bench.specs.Admits.{lane_uses, lease_uses, LowestOrTooFew, CanBeTried};
ghost use Rattle.bench.specs.Orders.{OrderedExactlyWithinLimits};
ghost use Rattle.history.specs.Bench.{any, some_and, has, in_use, free, works};
ghost use Rattle.history.specs.Calls.{answered, done, admit, charged_with, new_work};
ghost use Rattle.bench.specs.Model.{world};
ghost use Rattle.schedule.specs.Answers.{FirstOverfullOrNone};

use crate::order::Order;
use crate::quiet::lane_lapse;
use crate::state::Bench;
use arrayvec::ArrayVec;
use disk::Disk;
use history::{Asked, Lane, Lease, Stage};
use refusal::{Refusal, Span};
use schedule::{Work, overfull};

impl<D: Disk> Bench<D> {
    // Admits an order: its head has a live lane from now on, with the lowest buffers that are free.
    pub fn admit(&mut self, order: Order) -> Result<(), Refusal>
        ensures answer { (pool : List ℕ) → answered (λ _. done) result ≡ (admit (world D.Disk.meaning pool self.entry.now) order.asked).1 }
        ensures bench { (pool : List ℕ) → world D.Disk.meaning pool self.exit.now ≡ (admit (world D.Disk.meaning pool self.entry.now) order.asked).0 }
    {
        let asked = order.asked;
        let None = self.lanes[asked.head as usize] else {
            return Err(Refusal::HeadTaken);
        };
        if asked.timing.start < self.now {
            return Err(Refusal::Past);
        }
        if (asked.first + asked.timing.count) as usize > self.disk.size() {
            return Err(Refusal::OffDisk);
        }
        let depth = asked.timing.depth as usize;
        let Some(buffers) = lowest_free(&self.lanes, &self.leases, depth) else {
            return Err(Refusal::PoolShort);
        };
        if let Some(span) = crowding(self.now, &asked, &self.lanes) {
            return Err(Refusal::Crowded(span));
        }
        let lane = Lane {
            order: asked,
            admitted: self.now,
            next: 0,
            failed: 0,
            stage: Stage::Live,
            buffers,
        };
        self.lapse = self.lapse.min(lane_lapse(self.now, &lane, &self.leases));
        // The next tick works it out anew.
        self.quiet = 0;
        self.live = true;
        self.lanes[asked.head as usize] = Some(lane);
        Ok(())
    }
}

impl Order {
    // What is asked, where its numbers are within the limits of every order.
    pub fn new(asked: Asked) -> Result<Order, Refusal>
        ensures { OrderedExactlyWithinLimits asked result }
    {
        if asked.head > 7 || asked.first > 4095 || !asked.timing.within_limits() {
            return Err(Refusal::Bounds);
        }
        Ok(Order { asked })
    }
}

// The overfull span of smallest h, and of those the one of largest l, where the order is admitted at `slot`; none if it
// fits.
fn crowding(slot: u32, asked: &Asked, lanes: &[Option<Lane>]) -> Option<Span>
    requires { CanBeTried slot asked.now lanes.now }
    ensures { FirstOverfullOrNone (charged_with slot lanes.now asked.now) (Ok result) }
{
    let mut works = ArrayVec::new();
    works_with(slot, asked, lanes, &mut works);
    match overfull(slot, works.as_slice()) {
        Ok(span) => span,
        Err(_) => unreachable(),
    }
}

// Puts into `all`, which is empty, what is left of the order that is to be admitted, all of it, and then of each live lane
// by rising head. It is filled where it lies: answered by value it would be copied twice.
fn works_with(slot: u32, asked: &Asked, lanes: &[Option<Lane>], all: &mut ArrayVec<Work, 8>)
    requires few { length (works lanes.now) ≤ 7 }
    requires empty { all.old.items ≡ [] }
    ensures { all.new.items ≡ new_work slot asked.now ∷ works lanes.now }
{
    all.push(Work {
        timing: asked.timing,
        admitted: slot,
        next: 0,
        failed: 0,
    });
    for lane in lanes {
        let Some(lane) = lane else {
            continue;
        };
        let Stage::Live = lane.stage else {
            continue;
        };
        all.push(Work {
            timing: lane.order.timing,
            admitted: lane.admitted,
            next: lane.next,
            failed: lane.failed,
        });
    }
}

// The `depth` lowest buffers that are free, in rising order, and zeros after them.
fn lowest_free(lanes: &[Option<Lane>], leases: &[Option<Lease>], depth: usize) -> Option<[u8; 8]>
    requires { depth ≤ 8 }
    ensures { LowestOrTooFew (free lanes.now leases.now) depth result }
{
    let free = free_buffers(lanes, leases, depth);
    let lowest = free.as_slice().get(..depth)?;
    let mut buffers = [0; 8];
    buffers[..depth].copy_from_slice(lowest);
    Some(buffers)
}

// The `depth` lowest buffers that are free, or all that are where there are fewer: those above them are not tested.
fn free_buffers(lanes: &[Option<Lane>], leases: &[Option<Lease>], depth: usize) -> ArrayVec<u8, 8>
    requires { depth ≤ 8 }
    ensures { result.items ≡ take depth (free lanes.now leases.now) }
{
    let mut free = ArrayVec::new();
    for buffer in 0..32 {
        if free.len() == depth {
            return free;
        }
        if !is_in_use(lanes, leases, buffer) {
            free.push(buffer);
        }
    }
    free
}

// Whether a live lane has the buffer, or a lease is out on it.
fn is_in_use(lanes: &[Option<Lane>], leases: &[Option<Lease>], buffer: u8) -> bool
    ensures { result ≡ in_use lanes.now leases.now buffer }
{
    lanes_use(lanes, buffer) || leases_use(leases, buffer)
}

// These two by themselves, so that a must-fail edit can take one for the other.
fn lanes_use(lanes: &[Option<Lane>], buffer: u8) -> bool
    ensures { result ≡ any (lane_uses buffer) lanes.now }
{
    lanes.iter().any(|lane| lane_uses(lane, buffer))
}

fn leases_use(leases: &[Option<Lease>], buffer: u8) -> bool
    ensures { result ≡ any (lease_uses buffer) leases.now }
{
    leases.iter().any(|lease| lease_uses(lease, buffer))
}

fn lane_uses(lane: &Option<Lane>, buffer: u8) -> bool
    ensures { result ≡ some_and (lane_uses buffer) lane.now }
{
    let Some(lane) = lane else {
        return false;
    };
    let Stage::Live = lane.stage else {
        return false;
    };
    has_buffer(&lane.buffers, lane.order.timing.depth as usize, buffer)
}

// Whether the buffer is one of the first `depth`.
fn has_buffer(buffers: &[u8], depth: usize, buffer: u8) -> bool
    ensures { result ≡ has buffer (take depth buffers.now) }
{
    buffers[..depth.min(buffers.len())]
        .iter()
        .any(|own| buffer == *own)
}

fn lease_uses(lease: &Option<Lease>, buffer: u8) -> bool
    ensures { result ≡ some_and (lease_uses buffer) lease.now }
{
    lease.as_ref().is_some_and(|lease| buffer == lease.buffer)
}
