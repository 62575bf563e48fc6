// Every block of a disk read once, to tell before a job which blocks will not come.
ghost use Rattle.std.specs.Prelude.{◌≡◌, ◌<◌, length, is_some, IfSome, IfOk, slice_set};
ghost use Rattle.refusal.specs.declared.FaultKind.TheVariants.{ReadFailed};
ghost use Rattle.disk.specs.Meaning.{block_at, worn, ReadsUseUpOneFailureEach};
ghost use Rattle.disk.specs.Surveys.{fails_at, Surveyed};

use crate::Disk;
use refusal::{Fault, Refusal};
use std::alloc::{AllocError, Global};

// A block that did not read, and the fault that its read answered.
#[derive(Clone, Copy, PartialEq, Eq, Debug)]
pub struct Unread {
    pub block: usize,
    pub fault: Fault,
}

// Reads each block once, by rising number: the blocks that did not read.
pub fn survey<D: Disk>(heap: Global, disk: &mut D) -> Result<Vec<Unread>, AllocError>
    ensures answer { IfOk result (λ v. Surveyed (λ b f. (t : D) × D.Disk.faults t b f) (D.Disk.meaning disk.old) v.items (D.Disk.meaning disk.new)) }
    ensures law { ReadsUseUpOneFailureEach }
{
    let mut unread = Vec::new(heap);
    for block in 0..disk.size() {
        if let Some(fault) = attempt(disk, block) {
            unread.push(Unread { block, fault })?;
        }
    }
    Ok(unread)
}

// One read of a block of the disk: the fault, if it fails.
fn attempt<D: Disk>(disk: &mut D, block: usize) -> Option<Fault>
    requires { block < length (D.Disk.meaning disk.old) }
    ensures answer { is_some result ≡ fails_at (D.Disk.meaning disk.old) block }
    ensures fault { IfSome result (λ f. D.Disk.faults disk.old block f × (f.kind ≡ ReadFailed)) }
    ensures disk { D.Disk.meaning disk.new ≡ slice_set (D.Disk.meaning disk.old) block (worn (block_at (D.Disk.meaning disk.old) block)) }
{
    let mut memory = [0; 64];
    let Err(Refusal::Faulted(fault)) = disk.read(block, &mut memory) else {
        return None;
    };
    Some(fault)
}
