// Reads and failed attempts as bars: those of a head that fall on the same dots, or on dots side by side, are one bar.
ghost use Rattle.std.specs.Prelude.{◌≡◌, ◌≤◌, ◌++◌, IfOk, string_bytes, OnOk};
ghost use Rattle.charts.specs.Bands.{y_of, slot_in, touching, joint, closed, opened, bar, bar_lines, band_lines};

use crate::axis::Scale;
use crate::entry::Entry;
use crate::mark::{Mark, add};
use std::alloc::AllocError;

// The part of a head's row that shows its reads, and the part that shows its failed attempts.
#[derive(Clone, Copy, PartialEq, Eq, Debug)]
pub(crate) enum Band {
    Reads,
    Failures,
}

impl Band {
    // Adds the bars of this band of a head's row.
    pub fn add(
        self,
        text: &mut String,
        entries: &[Entry],
        scale: Scale,
        head: u32,
    ) -> Result<(), AllocError>
        ensures { OnOk result (string_bytes text.new ≡ string_bytes text.old ++ band_lines scale.last self head entries.now) }
    {
        let mut pending = None;
        for entry in entries {
            if let Some(slot) = self.slot_in(entry, head) {
                let span = scale.span_of(slot);
                let next = self.add_span(text, pending, span, head)?;
                pending = Some(next);
            }
        }
        match pending {
            Some(span) => add(text, self.bar(head, span)),
            None => Ok(()),
        }
    }

    // Goes on with the bar that is open where the span touches it; else adds that bar, and the span is the open one.
    fn add_span(
        self,
        text: &mut String,
        pending: Option<Span>,
        span: Span,
        head: u32,
    ) -> Result<Span, AllocError>
        ensures { IfOk result (λ next. (string_bytes text.new ≡ string_bytes text.old ++ bar_lines self head (closed pending span)) × (next ≡ opened pending span)) }
    {
        let Some(before) = pending else {
            return Ok(span);
        };
        if before.touches(span) {
            return Ok(before.join(span));
        }
        add(text, self.bar(head, before))?;
        Ok(span)
    }

    // The slot of an entry that this band of a head shows.
    fn slot_in(self, entry: &Entry, shown: u32) -> Option<u32>
        ensures { result ≡ slot_in self shown entry.now }
    {
        match (self, entry) {
            (Band::Reads, Entry::Read { slot, head, .. })
            | (Band::Failures, Entry::Failed { slot, head, .. })
                if *head == shown => { Some(*slot) }
            _ => None,
        }
    }

    fn bar(self, head: u32, span: Span) -> Mark
        ensures { result ≡ bar self head span }
    {
        let y = y_of(head);
        let x = span.from;
        let width = span.to.saturating_sub(x);
        match self {
            Band::Reads => Mark::Reads {
                x,
                y: y + 21,
                width,
            },
            Band::Failures => Mark::Failures {
                x,
                y: y + 30,
                width,
            },
        }
    }
}

// The dots of a row from `from` on, up to but not with `to`.
#[derive(Clone, Copy, PartialEq, Eq, Debug)]
pub(crate) struct Span {
    pub from: u64,
    pub to: u64,
}

impl Span {
    // Whether no dot lies between the two.
    fn touches(self, other: Span) -> bool
        ensures { result ≡ touching self other }
    {
        self.from <= other.to && other.from <= self.to
    }

    fn join(self, other: Span) -> Span
        ensures { result ≡ joint self other }
    {
        Span {
            from: self.from.min(other.from),
            to: self.to.max(other.to),
        }
    }
}

// Where a head's row begins. Heads above 7 have none, and share the row below.
pub(crate) fn y_of(head: u32) -> u64
    ensures value { result ≡ y_of head }
    ensures bound { result ≤ 434 }
{
    50 + 48 * head.min(8) as u64
}
