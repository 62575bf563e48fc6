// The disk that a plan and the disk below make together.
ghost use Rattle.std.specs.Prelude.{◌≡◌, length, MatchBool, nat_lt};
ghost use Rattle.disk.specs.Meaning.{none_coming};
ghost use Rattle.disk.specs.Origin.{Arose};
ghost use Rattle.layers.specs.Entries.{listed, planned};
ghost use Rattle.layers.specs.Layers.{SameBytes};
ghost use Rattle.layers.specs.Plans.{plan_meaning};

use crate::plan::{Entries, Plan};
use disk::{Disk, check_read};
use refusal::{Fault, FaultKind, Refusal};

// The tag of a plan's own faults.
pub const TAG: u8 = 3;

impl<D: Disk> Plan<D> {
    // A plan with the entries given, which are none at `Entries::new()`.
    pub fn new(below: D, entries: Entries) -> Plan<D>
        ensures below { result.below ≡ below }
        ensures entries { result.entries ≡ entries }
        ensures over { SameBytes (D.Disk.meaning below) (plan_meaning (planned (listed entries)) (D.Disk.meaning below)) }
    {
        Plan { below, entries }
    }
}

impl<D: Disk> Disk for Plan<D> {
    // Bytes and size are those below; the failures to come are those planned and those below.
    ghost meaning = { λ s. plan_meaning (planned (listed s.entries)) (D.Disk.meaning s.below) };

    // While its entry is not used up a read of the disk's own blocks fails here, and after that below.
    ghost faults = { λ s b f. MatchBool (nat_lt b (length (D.Disk.meaning s.below)))
        (MatchBool (none_coming (planned (listed s.entries) b)) (D.Disk.faults s.below b f) (Arose 3 b f))
        (Arose 3 b f) };

    fn size(&self) -> usize {
        self.below.size()
    }

    fn read(&mut self, block: usize, memory: &mut [u8]) -> Result<(), Refusal> {
        check_read(TAG, self.below.size(), block, memory.len())?;
        if self.entries.fails(block) {
            return Err(Refusal::Faulted(Fault {
                kind: FaultKind::ReadFailed,
                tag: TAG,
                block,
            }));
        }
        self.below.read(block, memory)
    }
}
