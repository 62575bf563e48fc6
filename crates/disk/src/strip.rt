// A disk that lies in memory, 64 bytes a block: for trials, and for drawings that were never written to an image.
ghost use Rattle.std.specs.Prelude.{◌≡◌, length, MatchResult};
ghost use Rattle.refusal.specs.Told.{refusal_number};
ghost use Rattle.disk.specs.Meaning.{Proper};
ghost use Rattle.disk.specs.Origin.{Arose};
ghost use Rattle.disk.specs.Strips.{StripFits, strip_meaning};

use crate::{Disk, check_read};
use refusal::Refusal;

// Block y lies at byte 64·y.
#[derive(Drop)]
pub struct Strip<'a> {
    bytes: &'a [u8],
    ghost fits: { StripFits (length bytes.now) },
}

impl<'a> Strip<'a> {
    // The tag of a strip's own faults.
    pub const TAG: u8 = 2;

    // A strip over memory of 1 to 4,096 blocks; Wrong size where it is no such length.
    pub fn new(bytes: &'a [u8]) -> Result<Strip<'a>, Refusal>
        ensures answer { MatchResult result
            (λ s. StripFits (length bytes.now) × (s.bytes.now ≡ bytes.now) × Proper (strip_meaning bytes.now))
            (λ e. (StripFits (length bytes.now) → ⊥) × (refusal_number e ≡ 7)) }
    {
        if bytes.len() % 64 != 0 || bytes.len() < 64 || bytes.len() > 64 * 4096 {
            return Err(Refusal::WrongSize);
        }
        Ok(Strip { bytes })
    }
}

impl<'a> Disk for Strip<'a> {
    ghost meaning = { λ s. strip_meaning s.bytes.now };

    ghost faults = { λ _ b f. Arose 2 b f };

    fn size(&self) -> usize {
        self.bytes.len() / 64
    }

    fn read(&mut self, block: usize, memory: &mut [u8]) -> Result<(), Refusal> {
        check_read(Self::TAG, self.bytes.len() / 64, block, memory.len())?;
        let at = 64 * block;
        memory.copy_from_slice(&self.bytes[at..at + 64]);
        Ok(())
    }
}
