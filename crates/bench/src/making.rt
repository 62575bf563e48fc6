// A new bench, and what it tells of itself.
ghost use Rattle.std.specs.Prelude.{◌≡◌, ℕ, List};
ghost use Rattle.history.specs.Bench.{running};
ghost use Rattle.history.specs.Calls.{new};
ghost use Rattle.bench.specs.Model.{world};

use crate::quiet::NEVER;
use crate::state::Bench;
use disk::Disk;

impl<D: Disk> Bench<D> {
    // A new bench over a disk: slot 0, no lane, no lease, tallies 0. Its maker gives each bench of a program a number of
    // its own.
    pub fn new(number: u16, disk: D) -> Bench<D>
        ensures { (pool : List ℕ) → world D.Disk.meaning pool result ≡ new number (D.Disk.meaning disk) pool }
    {
        Bench {
            disk,
            number,
            now: 0,
            lanes: [None; 8],
            leases: [None; 16],
            quiet: 0,
            lapse: NEVER,
            live: false,
            attempts: 0,
            failures: 0,
        }
    }

    // The slot that the bench is at.
    pub fn slot(&self) -> u32
        ensures { (pool : List ℕ) → result ≡ (world D.Disk.meaning pool self.entry.now).now }
    {
        self.now
    }

    // True if and only if some lane is live.
    pub fn is_running(&self) -> bool
        ensures { result ≡ running self.entry.now.lanes }
    {
        self.live
    }

    // The tally of attempts: the ticks that made a read call.
    pub fn attempts(&self) -> u32
        ensures { (pool : List ℕ) → result ≡ (world D.Disk.meaning pool self.entry.now).attempts }
    {
        self.attempts
    }

    // The tally of those that failed.
    pub fn failures(&self) -> u32
        ensures { (pool : List ℕ) → result ≡ (world D.Disk.meaning pool self.entry.now).failures }
    {
        self.failures
    }
}
