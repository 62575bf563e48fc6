// The disk that a retry and the disk below make together.
ghost use Rattle.std.specs.Prelude.{◌≡◌, length, MatchBool, MatchResult, nat_lt};
ghost use Rattle.refusal.specs.Told.{refusal_number, answer_number};
ghost use Rattle.disk.specs.Meaning.{Reads};
ghost use Rattle.disk.specs.Origin.{Arose, ComesFrom};
ghost use Rattle.layers.specs.Layers.{SameBytes};
ghost use Rattle.layers.specs.Retries.{TriesFit, retry_meaning};

use crate::retry::{Retry, Tries};
use disk::{Disk, check_read};
use refusal::Refusal;

// The tag of a retry's own faults.
pub const TAG: u8 = 4;

impl Tries {
    // Bounds where the count is not 1 to 4.
    pub fn new(count: usize) -> Result<Tries, Refusal>
        ensures answer { MatchResult result (λ t. TriesFit count × (t.count ≡ count)) (λ e. (TriesFit count → ⊥) × (refusal_number e ≡ 1)) }
    {
        if count < 1 || count > 4 {
            return Err(Refusal::Bounds);
        }
        Ok(Tries { count })
    }
}

impl<D: Disk> Retry<D> {
    pub fn new(below: D, tries: Tries) -> Retry<D>
        ensures below { result.below ≡ below }
        ensures tries { result.tries ≡ tries }
        ensures over { SameBytes (D.Disk.meaning below) (retry_meaning tries.count (D.Disk.meaning below)) }
    {
        Retry { below, tries }
    }
}

impl<D: Disk> Disk for Retry<D> {
    // Bytes and size are those below; as many failures below as it makes calls are one here.
    ghost meaning = { λ s. retry_meaning s.tries.count (D.Disk.meaning s.below) };

    // A fault of the disk's own blocks is one that the disk below answered.
    ghost faults = { λ s b f. MatchBool (nat_lt b (length (D.Disk.meaning s.below))) ((t : D) × D.Disk.faults t b f) (Arose 4 b f) };

    fn size(&self) -> usize {
        self.below.size()
    }

    fn read(&mut self, block: usize, memory: &mut [u8]) -> Result<(), Refusal> {
        check_read(TAG, self.below.size(), block, memory.len())?;
        for _failed in 0..self.tries.count - 1 {
            if self.below.read(block, memory).is_ok() {
                return Ok(());
            }
        }
        // The last call: its fault is passed on unaltered.
        self.below.read(block, memory)
    }
}
