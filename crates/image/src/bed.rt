// A bed image made of a drawing's raw rows.
ghost use Rattle.std.specs.Prelude.{◌≡◌, ◌≤◌, length, IfOk, MatchResult};
ghost use Rattle.refusal.specs.Told.{refusal_number};
ghost use Rattle.image.specs.Beds.{RowsFit, filled, bed_of, MeansItsRows};
ghost use Rattle.image.specs.Records.{record_of};

use crate::record::write_record;
use refusal::Refusal;
use std::alloc::{AllocError, Global};

// The image of rows of 64 bytes, the last filled with zeros where it is short; Bad image where there are not 1 to
// 4,096 rows. As a disk, the image has the rows as its blocks, with no failures to come.
// A refusal within the answer of memory, as std's `String::from_utf16` has it: callers hand on the one by `?` and match the other.
pub fn bed(heap: Global, rows: &[u8]) -> Result<Result<Vec<u8>, Refusal>, AllocError>
    ensures answer { IfOk result (λ a. MatchResult a
        (λ v. RowsFit (length rows.now) × (v.items ≡ bed_of rows.now) × MeansItsRows rows.now)
        (λ e. (RowsFit (length rows.now) → ⊥) × (refusal_number e ≡ 15))) }
{
    if rows.is_empty() || rows.len() > 64 * 4096 {
        return Ok(Err(Refusal::BadImage));
    }
    let mut image = Vec::new(heap);
    for (y, row) in rows.chunks(64).enumerate() {
        image.extend_from_slice(&row_record(y, row))?;
    }
    Ok(Ok(image))
}

// Record y, of a row that may be short.
fn row_record(y: usize, row: &[u8]) -> [u8; 70]
    requires { (length row.now ≤ 64) × (y ≤ 4095) }
    ensures { result ≡ record_of y (filled row.now) }
{
    let mut written = [0; 70];
    let _ = write_record(y, &whole_row(row), &mut written);
    written
}

// The row, and zeros after it where it is short.
fn whole_row(row: &[u8]) -> [u8; 64]
    requires { length row.now ≤ 64 }
    ensures { result ≡ filled row.now }
{
    let mut whole = [0; 64];
    whole[0..row.len()].copy_from_slice(row);
    whole
}
