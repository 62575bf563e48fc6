// Until when nothing happens: what lets a bench pass a quiet slot at once.
ghost use Rattle.std.specs.Prelude.{◌≡◌, ℕ, ◌≤◌, true, Some, None, slice_index_or};
ghost use Rattle.std.specs.Fn.{FnReturnsAt};
ghost use Rattle.history.specs.Bench.{is_live, running, some_and};
ghost use Rattle.bench.specs.Sound.{every};
ghost use Rattle.bench.specs.Quiet.{rests, later, all_later, lent_until, quiet_of, lapse_of};

use history::{Lane, Lease, Stage};

// A slot after every other. It is a number, since what is never must come after every slot, and None comes before.
pub(crate) const NEVER: u64 = u64::MAX;

// A slot, at most `lapse`, such that none that ends before it makes a read or is a lane's last.
pub(crate) fn quiet_until(lapse: u64, lanes: &[Option<Lane>]) -> u64
    ensures most { result ≤ lapse }
    ensures rests { every (rests result) lanes.now ≡ true }
{
    lapse.min(least(lanes, |lane| quiet_of(lane)))
}

// A slot before which, from `slot` on, no burn ends of a block that is lent in the lane it was taken in.
pub(crate) fn next_lapse(slot: u32, lanes: &[Option<Lane>], leases: &[Option<Lease>]) -> u64
    ensures { all_later slot result lanes.now leases.now ≡ true }
{
    least(lanes, |lane| lane_lapse(slot, lane, leases))
}

// The same of one lane.
pub(crate) fn lane_lapse(slot: u32, lane: &Lane, leases: &[Option<Lease>]) -> u64
    ensures { every (later slot result lane.now) leases.now ≡ true }
{
    least(leases, |lease| lapse_of(slot, lane, lease))
}

// The least of the slots that `of` gives of those that are there.
fn least<T, F: Fn(&T) -> u64>(all: &[Option<T>], of: F) -> u64
    requires { F.IsAlwaysCallable of }
    ensures { (k : ℕ) (t : T) → slice_index_or all.now k None ≡ Some t → (r : ℕ) × FnReturnsAt F.Fn of t r × (result ≤ r) }
{
    let mut least = NEVER;
    for item in all {
        if let Some(item) = item {
            least = least.min(of(item));
        }
    }
    least
}

fn quiet_of(lane: &Lane) -> u64
    ensures { result ≡ quiet_of NEVER lane.now }
{
    let Stage::Live = lane.stage else {
        return NEVER;
    };
    let end = lane.order.timing.deadline(lane.order.timing.count);
    if lane.next >= lane.order.timing.count {
        return end;
    }
    end.min(lane.order.timing.release(lane.admitted, lane.next) + 1)
}

fn lapse_of(slot: u32, lane: &Lane, lease: &Lease) -> u64
    ensures { result ≡ lapse_of NEVER slot lane.now lease.now }
{
    let Stage::Live = lane.stage else {
        return NEVER;
    };
    match lent_until(lane, lease) {
        Some(end) if end >= slot as u64 => end,
        _ => NEVER,
    }
}

// The slot at which the burn of a lease's block has ended, if it was taken in this lane.
pub(crate) fn lent_until(lane: &Lane, lease: &Lease) -> Option<u64>
    ensures { result ≡ lent_until lane.now lease.now }
{
    if lease.head != lane.order.head || lease.admitted != lane.admitted {
        return None;
    }
    let blocks = lease.index as u64 + 1;
    Some(lane.order.timing.start as u64 + blocks * lane.order.timing.period as u64)
}

// Whether some lane is live.
pub(crate) fn any_live(lanes: &[Option<Lane>]) -> bool
    ensures { result ≡ running lanes.now }
{
    lanes.iter().any(|lane| is_live(lane))
}

pub(crate) fn is_live(lane: &Option<Lane>) -> bool
    ensures { result ≡ some_and (λ l. is_live l.stage) lane.now }
{
    matches!(
        lane,
        Some(Lane {
            stage: Stage::Live,
            ..
        })
    )
}
