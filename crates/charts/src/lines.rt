// The mark that a line of the log has by itself: calls, lane ends and the tallies. Reads and failed attempts have bars.
ghost use Rattle.std.specs.Prelude.{◌≡◌, ◌^◌, ◌≤◌, ◌++◌, string_bytes, OnOk};
ghost use Rattle.charts.specs.Lines.{ends_lease, lease_end, lease_bar, call_mark, end_mark, mark_of, marks_lines};

use crate::axis::Scale;
use crate::bands::y_of;
use crate::entry::Entry;
use crate::mark::{Mark, add};
use std::alloc::AllocError;

// Adds the mark of each line.
pub(crate) fn add_marks(
    text: &mut String,
    entries: &[Entry],
    scale: Scale,
) -> Result<(), AllocError>
    ensures { OnOk result (string_bytes text.new ≡ string_bytes text.old ++ marks_lines scale.last entries.now) }
{
    let mut rest = entries;
    while let Some((entry, after)) = rest.split_first() {
        if let Some(mark) = mark_of(entry, after, scale) {
            add(text, mark)?;
        }
        rest = after;
    }
    Ok(())
}

// The mark of a line, before the lines `after`.
fn mark_of(entry: &Entry, after: &[Entry], scale: Scale) -> Option<Mark>
    ensures { result ≡ mark_of scale.last entry.now after.now }
{
    let x = scale.x_of(entry.slot() as u64);
    match entry {
        Entry::Order { head, answer, .. } => {
            let y = y_of(*head);
            Some(call_mark(*answer, Mark::Order { x, y }, x, y))
        }
        Entry::Close { head, answer, .. } => {
            let y = y_of(*head);
            Some(call_mark(*answer, Mark::Close { x, y }, x, y))
        }
        Entry::Take {
            head,
            answer,
            lease,
            ..
        } => {
            if *answer != 0 {
                return Some(Mark::Refusal { x, y: y_of(*head) });
            }
            if *lease > 15 {
                return None;
            }
            let end = scale.x_of(lease_end(after, *lease, scale));
            Some(lease_bar(x, end, *head, *lease))
        }
        Entry::Give { answer: 0, .. } => None,
        Entry::Give { .. } => Some(Mark::Refusal { x, y: y_of(8) }),
        Entry::Read { .. } | Entry::Failed { .. } => None,
        Entry::Ended { .. } | Entry::Done { .. } | Entry::Refused { .. } => end_mark(entry, x),
    }
}

// The mark of a lane's end, or of the log's.
fn end_mark(entry: &Entry, x: u64) -> Option<Mark>
    ensures { result ≡ end_mark x entry.now }
{
    match entry {
        Entry::Ended { head, cause, .. } => Some(Mark::End {
            cause: *cause,
            x,
            y: y_of(*head),
        }),
        Entry::Done {
            slot,
            attempts,
            failed,
        } => Some(Mark::Tallies {
            slot: *slot,
            attempts: *attempts,
            failed: *failed,
        }),
        Entry::Refused {
            number,
            line,
            place,
        } => Some(Mark::NotRun {
            number: *number,
            line: *line,
            place: *place,
        }),
        _ => None,
    }
}

// The mark of a call, as it was granted or refused.
fn call_mark(answer: u32, granted: Mark, x: u64, y: u64) -> Mark
    ensures { result ≡ call_mark answer granted x y }
{
    if answer == 0 {
        granted
    } else {
        Mark::Refusal { x, y }
    }
}

// A lease from x to `end`, at least one dot wide. Four leases of a head lie one below the other.
fn lease_bar(x: u64, end: u64, head: u32, lease: u32) -> Mark
    ensures { result ≡ lease_bar x end head lease }
{
    Mark::Lease {
        x,
        y: y_of(head) + 36 + 3 * (lease % 4) as u64,
        width: end.saturating_sub(x).max(1),
    }
}

// The slot in which a lease ends: where it is given back or, at the latest, taken again, or else after the last.
fn lease_end(after: &[Entry], lease: u32, scale: Scale) -> u64
    ensures value { result ≡ lease_end scale.last lease after.now }
    ensures bound { result ≤ 2 ^ 32 }
{
    match after.iter().find(|entry| ends_lease(entry, lease)) {
        Some(entry) => entry.slot() as u64,
        None => scale.last as u64 + 1,
    }
}

fn ends_lease(entry: &Entry, shown: u32) -> bool
    ensures { result ≡ ends_lease shown entry.now }
{
    match entry {
        Entry::Give { lease, answer, .. } | Entry::Take { lease, answer, .. } => {
            *answer == 0 && *lease == shown
        }
        _ => false,
    }
}
