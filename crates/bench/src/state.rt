// The state of a bench.

ghost use Rattle.std.specs.Prelude.{◌≡◌, ◌≤◌, true};
ghost use Rattle.history.specs.Bench.{running};
ghost use Rattle.bench.specs.Sound.{every, lane_ok, lease_ok};
ghost use Rattle.bench.specs.Quiet.{rests, all_later, placed};

use history::{Lane, Lease};

#[derive(Drop)]
pub struct Bench<D> {
    pub(crate) disk: D,
    // The bench's own number, by which it knows its slips.
    pub(crate) number: u16,
    pub(crate) now: u32,
    pub(crate) lanes: [Option<Lane>; 8],
    pub(crate) leases: [Option<Lease>; 16],
    // A slot that ends before this one makes no read and ends no lane.
    pub(crate) quiet: u64,
    // No burn of a block that is lent ends before this slot.
    pub(crate) lapse: u64,
    // Whether some lane is live.
    pub(crate) live: bool,
    // Read calls made, and those that failed: at most one a slot.
    pub(crate) attempts: u32,
    pub(crate) failures: u32,
    ghost time: { now ≤ 1000000 },
    ghost calls: { attempts ≤ now },
    ghost failed: { failures ≤ attempts },
    ghost safe: { every lane_ok lanes ≡ true },
    ghost lent: { every lease_ok leases ≡ true },
    ghost heads: { placed 0 lanes ≡ true },
    ghost resting: { every (rests quiet) lanes ≡ true },
    ghost unheld: { all_later now lapse lanes leases ≡ true },
    ghost sooner: { quiet ≤ lapse },
    ghost alive: { live ≡ running lanes },
}
