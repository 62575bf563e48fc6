// The cues of a slot, by slot and line.
ghost use Rattle.std.specs.Prelude.{◌≡◌, ℕ, List, IfOk};
ghost use Rattle.queue.specs.Held.{held};
ghost use Rattle.queue.specs.Order.{in_order};
ghost use Rattle.bench.specs.Model.{world};
ghost use Rattle.cuelists.specs.Dues.{due_before};
ghost use Rattle.jobs.specs.Run.{CuesRun, come, first_slot};

use crate::calling::call;
use crate::writing::add;
use bench::Bench;
use cuelists::due::Due;
use disk::Disk;
use queue::Queue;
use std::alloc::AllocError;

// Runs the cues whose slot has come and answers the slot of the first that is left. `next` is that of the first that
// waits, so that a slot without cues costs one comparison.
pub(crate) fn run_due<D: Disk>(
    next: Option<u32>,
    bench: &mut Bench<D>,
    queue: &mut Queue<Due>,
    log: &mut Vec<u8>,
) -> Result<Option<u32>, AllocError>
    requires { next ≡ first_slot (in_order due_before (held queue.old)) }
    ensures { IfOk result (λ n. (pool : List ℕ) → CuesRun (world D.Disk.meaning pool bench.old) (in_order due_before (held queue.old)) log.old.items n (world D.Disk.meaning pool bench.new) (in_order due_before (held queue.new)) log.new.items) }
{
    if !has_come(next, bench.slot()) {
        return Ok(next);
    }
    run_cues(bench, queue, log)
}

fn has_come(next: Option<u32>, slot: u32) -> bool
    ensures { result ≡ come next slot }
{
    next.is_some_and(|at| at <= slot)
}

fn run_cues<D: Disk>(
    bench: &mut Bench<D>,
    queue: &mut Queue<Due>,
    log: &mut Vec<u8>,
) -> Result<Option<u32>, AllocError>
    ensures { IfOk result (λ n. (pool : List ℕ) → CuesRun (world D.Disk.meaning pool bench.old) (in_order due_before (held queue.old)) log.old.items n (world D.Disk.meaning pool bench.new) (in_order due_before (held queue.new)) log.new.items) }
{
    while let Some(due) = queue.first() {
        if due.slot > bench.slot() {
            return Ok(Some(due.slot));
        }
        let _ = queue.pop();
        let line = call(bench, &due.call);
        add(log, &line)?;
    }
    Ok(None)
}
