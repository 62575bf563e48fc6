// A bed image: a drawing's rows as records of 70 bytes, each with a check, and the disk that they are.
#![tactic(auto)]

ghost use Rattle.std.specs.Prelude.{◌≡◌, length, MatchResult};
ghost use Rattle.refusal.specs.Told.{refusal_number};
ghost use Rattle.disk.specs.Meaning.{Proper};
ghost use Rattle.disk.specs.Origin.{Arose};
ghost use Rattle.image.specs.Images.{ImageFits, image_meaning};

use crate::record::read_record;
use disk::{Disk, check_read};
use refusal::{Fault, FaultKind, Refusal};

pub mod bed;
pub mod record;
pub mod sum;

// A disk over an image's bytes. Record i lies at byte 70·i; a record that is not whole is a dead block of zeros.
#[derive(Drop)]
pub struct Image<'a> {
    bytes: &'a [u8],
    ghost fits: { ImageFits (length bytes.now) },
}

impl<'a> Image<'a> {
    // The tag of an image's own faults.
    pub const TAG: u8 = 1;

    // Bad image where the bytes are not 1 to 4,096 records long.
    pub fn new(bytes: &'a [u8]) -> Result<Image<'a>, Refusal>
        ensures answer { MatchResult result
            (λ s. ImageFits (length bytes.now) × (s.bytes.now ≡ bytes.now) × Proper (image_meaning bytes.now))
            (λ e. (ImageFits (length bytes.now) → ⊥) × (refusal_number e ≡ 15)) }
    {
        if bytes.len() % 70 != 0 || bytes.len() < 70 || bytes.len() > 70 * 4096 {
            return Err(Refusal::BadImage);
        }
        Ok(Image { bytes })
    }
}

impl<'a> Disk for Image<'a> {
    ghost meaning = { λ s. image_meaning s.bytes.now };

    ghost faults = { λ _ b f. Arose 1 b f };

    fn size(&self) -> usize {
        self.bytes.len() / 70
    }

    fn read(&mut self, block: usize, memory: &mut [u8]) -> Result<(), Refusal> {
        check_read(Self::TAG, self.bytes.len() / 70, block, memory.len())?;
        let at = 70 * block;
        let Some(data) = read_record(&self.bytes[at..at + 70], block) else {
            return Err(Refusal::Faulted(Fault {
                kind: FaultKind::ReadFailed,
                tag: Self::TAG,
                block,
            }));
        };
        memory.copy_from_slice(data);
        Ok(())
    }
}
