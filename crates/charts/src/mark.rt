// The marks of a chart, each an element of its SVG. A place on the chart is an x and a y in dots: two fields and no struct,
// since the texts of the marks name them.
ghost use Rattle.std.specs.Prelude.{◌≡◌, ◌++◌, Some, string_bytes, OnOk};
ghost use Rattle.charts.specs.Marks.{mark_text, mark_line};

use std::alloc::AllocError;
use std::fmt;

#[derive(Clone, Copy, PartialEq, Eq, Debug)]
pub enum Mark {
    // Reads of a head, one after another, from x on.
    Reads {
        x: u64,
        y: u64,
        width: u64,
    },
    // Failed attempts, likewise.
    Failures {
        x: u64,
        y: u64,
        width: u64,
    },
    // A lease, from its take to its give.
    Lease {
        x: u64,
        y: u64,
        width: u64,
    },
    // A granted order.
    Order {
        x: u64,
        y: u64,
    },
    // A granted close.
    Close {
        x: u64,
        y: u64,
    },
    // A refused call.
    Refusal {
        x: u64,
        y: u64,
    },
    // The end of a lane, by its cause.
    End {
        cause: u32,
        x: u64,
        y: u64,
    },
    // A slot that is marked on the axis.
    Tick {
        slot: u64,
        x: u64,
    },
    // What the last line tells: the last slot, the attempts, the failed ones.
    Tallies {
        slot: u32,
        attempts: u32,
        failed: u32,
    },
    // Why the job did not run.
    NotRun {
        number: u32,
        line: u32,
        place: u32,
    },
}

// Adds a mark to a chart, on a line of its own.
pub(crate) fn add(text: &mut String, mark: Mark) -> Result<(), AllocError>
    ensures { OnOk result (string_bytes text.new ≡ string_bytes text.old ++ mark_line mark) }
{
    writeln!(text, "{mark}")
}

impl fmt::Display for Mark {
    ghost output = { λ mark. Some (mark_text mark) };

    fn fmt<W: fmt::Write>(&self, f: &mut fmt::Formatter<W>) -> fmt::Result {
        match self {
            Mark::Reads { x, y, width } => write!(f, "<path class='r' d='M{x} {y}h{width}'/>"),
            Mark::Failures { x, y, width } => write!(f, "<path class='f' d='M{x} {y}h{width}'/>"),
            Mark::Lease { x, y, width } => write!(f, "<path class='l' d='M{x} {y}h{width}'/>"),
            Mark::Order { x, y } => write!(f, "<use href='#o' x='{x}' y='{y}'/>"),
            Mark::Close { x, y } => write!(f, "<use href='#c' x='{x}' y='{y}'/>"),
            Mark::Refusal { x, y } => write!(f, "<use href='#x' x='{x}' y='{y}'/>"),
            Mark::End { cause, x, y } => write!(f, "<use href='#e{cause}' x='{x}' y='{y}'/>"),
            Mark::Tick { slot, x } => write!(
                f,
                "<path class='a' d='M{x} 44V482'/><text class='n' x='{x}' y='38'>{slot}</text>"
            ),
            Mark::Tallies {
                slot,
                attempts,
                failed,
            } => write!(
                f,
                "<text class='t' x='100' y='508'>Last slot {slot}: {attempts} attempts, {failed} of them failed.</text>"
            ),
            Mark::NotRun {
                number,
                line,
                place,
            } => write!(
                f,
                "<text class='t' x='100' y='508'>The job did not run: refused with number {number}, line {line}, place {place}.</text>"
            ),
        }
    }
}
