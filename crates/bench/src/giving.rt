// Showing a lease and giving it back, by party and number.
ghost use Rattle.std.specs.Prelude.{◌≡◌, ℕ, ◌<◌, true, false, List, length, nat_eq, MatchResult};
ghost use Rattle.history.specs.Bench.{bytes_in};
ghost use Rattle.history.specs.Calls.{answered, done, shown, give, show};
ghost use Rattle.bench.specs.Model.{world, OutOrNotHeld};

use crate::state::Bench;
use disk::Disk;
use history::Lease;
use refusal::Refusal;

impl<D: Disk> Bench<D> {
    // Takes a lease back from its party.
    pub fn give(&mut self, party: u32, lease: u32) -> Result<(), Refusal>
        ensures answer { (pool : List ℕ) → answered (λ _. done) result ≡ (give (world D.Disk.meaning pool self.entry.now) party lease).1 }
        ensures bench { (pool : List ℕ) → world D.Disk.meaning pool self.exit.now ≡ (give (world D.Disk.meaning pool self.entry.now) party lease).0 }
    {
        if party > 3 || lease > 15 {
            return Err(Refusal::Bounds);
        }
        let _ = self.out(party, lease, false)?;
        self.leases[lease as usize] = None;
        Ok(())
    }

    // The bytes of a lease that is out to a party, as a part of the pool.
    pub fn show<'a>(&self, party: u32, lease: u32, pool: &'a [u8]) -> Result<&'a [u8], Refusal>
        ensures { answered (λ part. shown part.now) result ≡ (show (world D.Disk.meaning pool.now self.entry.now) party lease).1 }
    {
        if party > 3 || lease > 15 {
            return Err(Refusal::Bounds);
        }
        let pool = whole(pool)?;
        let held = self.out(party, lease, false)?;
        Ok(part(pool, held.buffer))
    }

    // The lease of that number, if it is out to that party, by slip or by number.
    pub(crate) fn out(&self, party: u32, lease: u32, slip: bool) -> Result<Lease, Refusal>
        ensures { OutOrNotHeld self.entry.now.leases party lease slip result }
    {
        let Some(Some(held)) = self.leases.get(lease as usize) else {
            return Err(Refusal::NotHeld);
        };
        if held.party == party && held.slip == slip {
            Ok(*held)
        } else {
            Err(Refusal::NotHeld)
        }
    }
}

// The pool, which has 32 buffers of 64 bytes.
pub(crate) fn whole(pool: &[u8]) -> Result<&[u8; 2048], Refusal>
    ensures { MatchResult result (λ p. (nat_eq (length pool.now) 2048 ≡ true) × (p.now ≡ pool.now)) (λ e. (nat_eq (length pool.now) 2048 ≡ false) × (e ≡ Refusal.WrongSize)) }
{
    pool.try_into().map_err(|_| Refusal::WrongSize)
}

// The bytes of a buffer.
pub(crate) fn part(pool: &[u8; 2048], buffer: u8) -> &[u8]
    requires { buffer < 32 }
    ensures { result.now ≡ bytes_in pool.now buffer }
{
    let at = 64 * buffer as usize;
    &pool[at..at + 64]
}
