// Taking, showing and giving back by slip.
ghost use Rattle.std.specs.Prelude.{◌≡◌, ℕ, true, false, ◌||◌, List, is_ok, IfOk};
ghost use Rattle.refusal.specs.Told.{answer_number};
ghost use Rattle.history.specs.Calls.{answered, done, shown, slipped, take_block, give_slip, show_slip};
ghost use Rattle.bench.specs.Model.{world, named, of_numbers, honoured, HonouredOrNotHeld};

use crate::giving::{part, whole};
use crate::slip::{Slip, SlipNumbers};
use crate::state::Bench;
use disk::Disk;
use history::Lease;
use refusal::Refusal;

impl<D: Disk> Bench<D> {
    // Lends a block of a head's lane to a party, by slip.
    pub fn take_slip(&mut self, head: u32, block: u32, party: u32) -> Result<Slip, Refusal>
        ensures answer { (pool : List ℕ) → answered (λ s. slipped (named s)) result ≡ (take_block (world D.Disk.meaning pool self.entry.now) head block party true).1 }
        ensures bench { (pool : List ℕ) → world D.Disk.meaning pool self.exit.now ≡ (take_block (world D.Disk.meaning pool self.entry.now) head block party true).0 }
        ensures owed { IfOk result (λ s. s.spent ≡ false) }
        ensures honoured { IfOk result (λ s. honoured self.exit.now s ≡ true) }
    {
        let bench = self.number;
        let lease = self.lend(head, block, party, true)?;
        Ok(Slip {
            numbers: SlipNumbers {
                lease: lease as u32,
                bench,
                party,
            },
            spent: false,
        })
    }

    // Takes a slip's lease back, and spends the slip; a slip of another bench, or one that is spent, is Not held, and
    // stays as it is.
    pub fn give_slip(&mut self, slip: &mut Slip) -> Result<(), Refusal>
        ensures answer { slip.old.spent ≡ false → (pool : List ℕ) → answered (λ _. done) result ≡ (give_slip (world D.Disk.meaning pool self.entry.now) (named slip.old)).1 }
        ensures bench { slip.old.spent ≡ false → (pool : List ℕ) → world D.Disk.meaning pool self.exit.now ≡ (give_slip (world D.Disk.meaning pool self.entry.now) (named slip.old)).0 }
        ensures slip { (named slip.new ≡ named slip.old) × (slip.new.spent ≡ (slip.old.spent || is_ok result)) }
        ensures back { slip.old.spent ≡ false → honoured self.entry.now slip.old ≡ true → is_ok result ≡ true }
        ensures spent { slip.old.spent ≡ true → (answer_number result ≡ 11) × ((pool : List ℕ) → world D.Disk.meaning pool self.exit.now ≡ world D.Disk.meaning pool self.entry.now) }
    {
        if slip.spent {
            return Err(Refusal::NotHeld);
        }
        let numbers = slip.numbers;
        self.give_named(&numbers)?;
        slip.spent = true;
        Ok(())
    }

    // Takes back the lease of the slip of those numbers.
    pub(crate) fn give_named(&mut self, numbers: &SlipNumbers) -> Result<(), Refusal>
        ensures answer { (pool : List ℕ) → answered (λ _. done) result ≡ (give_slip (world D.Disk.meaning pool self.entry.now) (of_numbers numbers.now)).1 }
        ensures bench { (pool : List ℕ) → world D.Disk.meaning pool self.exit.now ≡ (give_slip (world D.Disk.meaning pool self.entry.now) (of_numbers numbers.now)).0 }
    {
        let _ = self.honoured(numbers)?;
        self.leases[numbers.lease as usize] = None;
        Ok(())
    }

    // The bytes of a slip's lease, as a part of the pool.
    pub fn show_slip<'a>(&self, slip: &Slip, pool: &'a [u8]) -> Result<&'a [u8], Refusal>
        requires { slip.now.spent ≡ false }
        ensures { answered (λ part. shown part.now) result ≡ (show_slip (world D.Disk.meaning pool.now self.entry.now) (named slip.now)).1 }
    {
        let pool = whole(pool)?;
        let held = self.honoured(&slip.numbers)?;
        Ok(part(pool, held.buffer))
    }

    // The lease of the slip of those numbers, if the slip is this bench's and its lease is out by slip to its party.
    fn honoured(&self, numbers: &SlipNumbers) -> Result<Lease, Refusal>
        ensures { HonouredOrNotHeld self.entry.now numbers.now result }
    {
        if numbers.bench != self.number {
            return Err(Refusal::NotHeld);
        }
        self.out(numbers.party, numbers.lease, true)
    }
}
