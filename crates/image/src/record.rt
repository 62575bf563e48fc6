// One record of an image: the mark, the block's number, its 64 bytes and their check; numbers are big-endian.
ghost use Rattle.std.specs.Prelude.{◌≡◌, ◌+◌, ◌*◌, ◌/◌, ◌%◌, ◌<◌, ◌≤◌, length, if◌then◌else◌, MatchOption, OnOk, nat_eq, slice_set};
ghost use Rattle.refusal.specs.Told.{answer_number};
ghost use Rattle.image.specs.Records.{Whole, data_of, record_of, write_number};

use crate::sum::{sum, word};
use refusal::Refusal;

// The two bytes that every record begins with.
const MARK: u16 = 0x4C52;

// The 64 bytes of a record that is whole as record `number`, or nothing.
pub fn read_record(record: &[u8], number: usize) -> Option<&[u8]>
    ensures answer { MatchOption result (Whole «record».now number → ⊥) (λ d. Whole «record».now number × (d.now ≡ data_of «record».now)) }
{
    if record.len() != 70 || word(record, 0) != MARK || usize::from(word(record, 1)) != number {
        return None;
    }
    if u32::from(word(record, 34)) != 65535 - sum(&record[2..68]) {
        return None;
    }
    Some(&record[4..68])
}

// Writes 64 bytes as record `number` of an image. Bounds where the number is above 4,095, then Wrong size where the
// bytes are not 64 or the place is not 70. What is written is whole, and reads back as the same bytes.
pub fn write_record(number: usize, bytes: &[u8], place: &mut [u8]) -> Result<(), Refusal>
    ensures answer { answer_number result ≡ write_number number (length bytes.now) (length place.old) }
    ensures memory { place.new ≡ (if nat_eq (answer_number result) 0 then record_of number bytes.now else place.old) }
    ensures law { OnOk result (Whole place.new number × (data_of place.new ≡ bytes.now)) }
{
    if number > 4095 {
        return Err(Refusal::Bounds);
    }
    if bytes.len() != 64 || place.len() != 70 {
        return Err(Refusal::WrongSize);
    }
    put_word(place, 0, MARK);
    put_word(place, 1, number as u16);
    place[4..68].copy_from_slice(bytes);
    let check = 65535 - sum(&place[2..68]);
    put_word(place, 34, check as u16);
    Ok(())
}

// Writes word k.
fn put_word(place: &mut [u8], k: usize, value: u16)
    requires { 2 * k + 1 < length place.old }
    ensures { place.new ≡ slice_set (slice_set place.old (2 * k) (value / 256)) (2 * k + 1) (value % 256) }
{
    [place[2 * k], place[2 * k + 1]] = value.to_be_bytes();
}
