// What a disk is to all that reads it: blocks of 64 bytes, each of which may have failures to come.
#![tactic(auto)]

ghost use Rattle.std.specs.Prelude.{◌≡◌, ℕ, ◌<◌, List, length, MatchResult};
ghost use Rattle.refusal.specs.Told.{answer_number};
ghost use Rattle.refusal.specs.declared.Fault.{Fault};
ghost use Rattle.disk.specs.Meaning.{Block, Reads};
ghost use Rattle.disk.specs.Origin.{ComesFrom, Unreadable};

use refusal::{Fault, FaultKind, Refusal};

pub mod strip;
pub mod survey;

pub trait Disk {
    // The disk's blocks in order: the bytes and the failures to come of each.
    ghost meaning: { Self → List Block };

    // The faults that a read of a block may answer. Which disk of a pile a fault arises at is each disk's own to say.
    ghost faults: { Self → ℕ → Fault → Type 0 };

    // How many blocks the disk has.
    fn size(&self) -> usize
        ensures { result ≡ length (meaning self.now) };

    // Fills the memory with a block's bytes, or fails and writes nothing. It checks the memory's length, then the
    // block, then the failures to come, of which a failed read uses one up.
    fn read(&mut self, block: usize, memory: &mut [u8]) -> Result<(), Refusal>
        ensures outcome { Reads (meaning self.old) block memory.old (answer_number result) memory.new (meaning self.new) }
        ensures origin { ComesFrom (faults self.old block) result };
}

// What a disk of `size` blocks, whose faults have that tag, checks before it reads a block into `room` bytes.
pub fn check_read(tag: u8, size: usize, block: usize, room: usize) -> Result<(), Refusal>
    ensures answer { MatchResult result (λ _. (room ≡ 64) × (block < size)) (Unreadable tag size block room) }
{
    if room != 64 {
        return Err(Refusal::WrongSize);
    }
    if block >= size {
        return Err(Refusal::Faulted(Fault {
            kind: FaultKind::Beyond,
            tag,
            block,
        }));
    }
    Ok(())
}
