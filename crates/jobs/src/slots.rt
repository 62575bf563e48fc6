// The slots of a job: the cues of each, then one tick, until nothing is left to do.
ghost use Rattle.std.specs.Prelude.{◌≡◌, ℕ, List, replicate, IfOk};
ghost use Rattle.queue.specs.Held.{held};
ghost use Rattle.queue.specs.Order.{in_order};
ghost use Rattle.refusal.specs.declared.Fault.{Fault};
ghost use Rattle.history.specs.Calls.{new};
ghost use Rattle.bench.specs.Model.{world};
ghost use Rattle.cuelists.specs.Dues.{due_before};
ghost use Rattle.loglines.specs.Text.{log_line};
ghost use Rattle.jobs.specs.Run.{CuesRun, end_text, ends_at, first_slot, slots_run};

use crate::cueing::run_due;
use crate::ticking::tick;
use crate::writing::add;
use bench::Bench;
use cuelists::due::Due;
use disk::Disk;
use loglines::LogLine;
use queue::Queue;
use std::alloc::{AllocError, Global};

// No slot comes after this one.
const LAST: u32 = 1_000_000;

// Runs the cues that wait on a new bench over a disk, and answers the log. Bench, queue, pool and log go to each part by
// themselves: of one struct each contract would also have to say what its part leaves alone.
pub(crate) fn run_slots<D: Disk + Drop>(
    disk: D,
    queue: &mut Queue<Due>,
    heap: Global,
) -> Result<Vec<u8>, AllocError>
    ensures { IfOk result (λ log. (told : ℕ → Fault) → log.items ≡ slots_run told 1000000 (new 0 (D.Disk.meaning disk) (replicate 2048 0)) (in_order due_before (held queue.old))) }
{
    let mut bench = Bench::new(0, disk);
    let mut pool = [0; 2048];
    let mut log = Vec::new(heap);
    let mut next = slot_of_first(queue);
    'slots: loop {
        next = run_due(next, &mut bench, queue, &mut log)?;
        if is_over(&bench, next) {
            break;
        }
        tick(&mut bench, &mut pool, &mut log)?;
    }
    add(&mut log, &last_line(&bench))?;
    Ok(log)
}

fn slot_of_first(queue: &Queue<Due>) -> Option<u32>
    ensures { result ≡ first_slot (in_order due_before (held queue.now)) }
{
    queue.first().map(|due| due.slot)
}

// Whether the run ends, once the cues of the slot have run: no cue and no live lane is left, or no slot.
fn is_over<D: Disk>(bench: &Bench<D>, next: Option<u32>) -> bool
    ensures { result ≡ ends_at bench.entry.now.now next bench.entry.now.lanes }
{
    bench.slot() == LAST || next.is_none() && !bench.is_running()
}

fn last_line<D: Disk>(bench: &Bench<D>) -> LogLine
    ensures { (pool : List ℕ) → log_line result ≡ end_text (world D.Disk.meaning pool bench.entry.now) }
{
    LogLine::Done {
        slot: bench.slot(),
        attempts: bench.attempts(),
        failed: bench.failures(),
    }
}
