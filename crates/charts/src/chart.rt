// The chart of a log: heads as rows, slots from left to right.
ghost use Rattle.std.specs.Prelude.{◌≡◌, ◌++◌, IfOk, string_bytes, OnOk};
ghost use Rattle.charts.specs.Charts.{rows_lines, chart_text, log_chart};
ghost use Rattle.charts.specs.Covers.{ChartLaws};

use crate::axis::Scale;
use crate::bands::Band;
use crate::entry::Entry;
use crate::frame::{HEAD, LEGEND};
use crate::lines::add_marks;
use crate::log::read_log;
use std::alloc::{AllocError, Global};

// The text for a log: its chart, or number, line and place of its first wrong word. Memory may run out.
pub fn chart_log(heap: Global, input: &[u8]) -> Result<String, AllocError>
    ensures { IfOk result (λ text. string_bytes text ≡ log_chart input.now) }
{
    match read_log(heap, input)? {
        Ok(entries) => chart(heap, entries.as_slice()),
        Err(fault) => format!(in heap; "{fault}\n"),
    }
}

// The chart of a log's lines. A dot of a head's row is in one of its bars exactly where one of its reads falls on it.
#[tactic(auto, using(crate::proofs::Covered::chart_laws))]
pub fn chart(heap: Global, entries: &[Entry]) -> Result<String, AllocError>
    ensures text { IfOk result (λ text. string_bytes text ≡ chart_text entries.now) }
    ensures laws { ChartLaws }
{
    let scale = Scale::of(entries);
    let mut text = String::from_str(heap, HEAD)?;
    scale.add_ticks(&mut text)?;
    add_rows(&mut text, entries, scale)?;
    add_marks(&mut text, entries, scale)?;
    text.push_str(LEGEND)?;
    Ok(text)
}

// Adds the bars of each head's row.
fn add_rows(text: &mut String, entries: &[Entry], scale: Scale) -> Result<(), AllocError>
    ensures { OnOk result (string_bytes text.new ≡ string_bytes text.old ++ rows_lines scale.last entries.now) }
{
    for head in 0..8 {
        Band::Reads.add(text, entries, scale, head)?;
        Band::Failures.add(text, entries, scale, head)?;
    }
    Ok(())
}
