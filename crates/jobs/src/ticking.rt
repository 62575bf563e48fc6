// One tick's lines.
ghost use Rattle.std.specs.Prelude.{◌≡◌, ◌<◌, true, ◌++◌, length, OnOk};
ghost use Rattle.std.specs.List.{list_all};
ghost use Rattle.std.specs.Option.{is_none};
ghost use Rattle.bench.specs.Model.{world};
ghost use Rattle.jobs.specs.Lines.{did_line, ended_line, ended_lines};
ghost use Rattle.jobs.specs.Run.{SlotPassed};

use crate::writing::add;
use bench::Bench;
use disk::Disk;
use history::{Cause, Ticked};
use loglines::LogLine;
use std::alloc::AllocError;

// One slot passes: a line for what the disk did, and one for each lane that ended, by head, at the new slot.
pub(crate) fn tick<D: Disk>(
    bench: &mut Bench<D>,
    pool: &mut [u8],
    log: &mut Vec<u8>,
) -> Result<(), AllocError>
    requires { (length pool.old ≡ 2048) × (bench.old.now < 1000000) }
    ensures { OnOk result (SlotPassed (world D.Disk.meaning pool.old bench.old) log.old.items (world D.Disk.meaning pool.new bench.new) log.new.items) }
{
    let slot = bench.slot();
    let Ok(tick) = bench.tick(pool) else {
        unreachable()
    };
    add_did(log, slot, &tick.did)?;
    add_ended(log, bench.slot(), &tick.ended)
}

fn add_did(log: &mut Vec<u8>, slot: u32, did: &Ticked) -> Result<(), AllocError>
    ensures { OnOk result (log.new.items ≡ log.old.items ++ did_line slot did.now) }
{
    match *did {
        Ticked::Idle => Ok(()),
        Ticked::Read { head, block } => add(log, &LogLine::Read { slot, head, block }),
        Ticked::Failed {
            head,
            block,
            attempt,
            ..
        } => add(
            log,
            &LogLine::Failed {
                slot,
                head,
                block,
                attempt,
            },
        ),
    }
}

fn add_ended(log: &mut Vec<u8>, slot: u32, ended: &[Option<Cause>; 8]) -> Result<(), AllocError>
    ensures { OnOk result (log.new.items ≡ log.old.items ++ ended_lines slot 0 ended.now) }
{
    if is_none_ended(ended) {
        return Ok(());
    }
    for (head, end) in ended.iter().enumerate() {
        add_end(log, slot, head as u32, *end)?;
    }
    Ok(())
}

// Whether no lane ended, as in nearly every slot: so such a slot has no further look at the heads. All are looked at, with
// no branch, which is faster than to stop at the first that ended.
fn is_none_ended(ended: &[Option<Cause>; 8]) -> bool
    ensures { result ≡ list_all is_none ended.now }
{
    let mut none = true;
    for end in ended {
        none &= end.is_none();
    }
    none
}

fn add_end(log: &mut Vec<u8>, slot: u32, head: u32, end: Option<Cause>) -> Result<(), AllocError>
    ensures { OnOk result (log.new.items ≡ log.old.items ++ ended_line slot head end) }
{
    match end {
        None => Ok(()),
        Some(cause) => {
            let cause = cause as u8;
            add(log, &LogLine::Ended { slot, head, cause })
        }
    }
}
