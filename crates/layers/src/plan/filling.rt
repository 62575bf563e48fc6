// The entries of a plan: how they are filled, and how a read uses them up.
ghost use Rattle.std.specs.Prelude.{◌≡◌, ℕ, not, [], if◌then◌else◌, OnOk, ◌==◌, nat_eq};
ghost use Rattle.std.specs.List.{position};
ghost use Rattle.refusal.specs.Told.{answer_number};
ghost use Rattle.disk.specs.Meaning.{none_coming};
ghost use Rattle.layers.specs.Entries.{listed, planned, planned_times, add_number, add_after, UsedUp};

use crate::plan::{Entries, Entry, Left};
use refusal::Refusal;

impl Entries {
    pub fn new() -> Entries
        ensures { listed result ≡ [] }
    {
        Entries {
            table: [Entry {
                block: 0,
                left: Left::Times(0),
            }; 16],
            len: 0,
        }
    }

    // Plans `count` failures of a block, 1 to 200, or with 0 that it is dead. Bad entry where the block is above 4,095
    // or has an entry, the count is above 200, or there are 16 entries.
    pub fn add(&mut self, block: usize, count: usize) -> Result<(), Refusal>
        ensures answer { answer_number result ≡ add_number (listed self.old) block count }
        ensures after { listed self.new ≡ add_after (listed self.old) block count }
        ensures planned { OnOk result ((y : ℕ) → planned (listed self.new) y ≡ (if nat_eq block y then planned_times count else planned (listed self.old) y)) }
    {
        let len = self.len;
        let taken = place(&self.table[..len], block).is_some();
        if block > 4095 || count > 200 || len == 16 || taken {
            return Err(Refusal::BadEntry);
        }
        let left = match count {
            0 => Left::Dead,
            _ => Left::Times(count as u8),
        };
        self.table[len] = Entry { block, left };
        self.len = len + 1;
        Ok(())
    }

    // Whether a failure is planned for the block, which is then used up.
    pub(super) fn fails(&mut self, block: usize) -> bool
        ensures answer { result ≡ not (none_coming (planned (listed self.old) block)) }
        ensures after { UsedUp (planned (listed self.old)) block (planned (listed self.new)) }
    {
        let len = self.len;
        use_up(&mut self.table[0..len], block)
    }
}

// The place of the entry for a block.
fn place(entries: &[Entry], block: usize) -> Option<usize>
    ensures { result ≡ position (λ e. e.block == block) entries.now }
{
    entries.iter().position(|entry| entry.block == block)
}

fn use_up(entries: &mut [Entry], block: usize) -> bool
    ensures answer { result ≡ not (none_coming (planned entries.old block)) }
    ensures after { UsedUp (planned entries.old) block (planned entries.new) }
{
    let Some(i) = place(entries, block) else {
        return false;
    };
    match entries[i].left {
        Left::Dead => true,
        Left::Times(0) => false,
        Left::Times(n) => {
            entries[i].left = Left::Times(n - 1);
            true
        }
    }
}
