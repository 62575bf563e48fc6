// The axis of a chart, and the slots that are marked on it: 0 and the multiples of a round number, at most eleven of
// them in a job.
ghost use Rattle.std.specs.Prelude.{◌≡◌, ◌^◌, ◌<◌, ◌≤◌, ◌++◌, string_bytes, OnOk};
ghost use Rattle.charts.specs.Axis.{decade, step_of, ticks_lines};
ghost use Rattle.charts.specs.Bands.{x_of, span_of};
ghost use Rattle.charts.specs.Charts.{last_slot};

use crate::bands::Span;
use crate::entry::Entry;
use crate::mark::{Mark, add};
use std::alloc::AllocError;

// The slots up to the last share 1,000 dots.
#[derive(Clone, Copy, PartialEq, Eq, Debug)]
pub(crate) struct Scale {
    pub last: u32,
}

impl Scale {
    // The scale on which each of the entries has its place.
    pub fn of(entries: &[Entry]) -> Scale
        ensures { result.last ≡ last_slot entries.now }
    {
        let last = entries.iter().fold(0, |last, entry| entry.slot().max(last));
        Scale { last }
    }

    // Where a slot begins.
    pub fn x_of(self, slot: u64) -> u64
        requires { slot ≤ 2 ^ 32 }
        ensures value { result ≡ x_of self.last slot }
        ensures bound { result ≤ 2 ^ 43 }
    {
        100 + slot * 1000 / (self.last as u64 + 1)
    }

    // The dots of a slot: at least one; of a slot that has several, all but the last, so that its neighbour stands
    // apart.
    pub fn span_of(self, slot: u32) -> Span
        ensures { result ≡ span_of self.last slot }
    {
        let from = self.x_of(slot as u64);
        let next = self.x_of(slot as u64 + 1);
        Span {
            from,
            to: next.saturating_sub(1).max(from + 1),
        }
    }

    pub fn add_ticks(self, text: &mut String) -> Result<(), AllocError>
        ensures { OnOk result (string_bytes text.new ≡ string_bytes text.old ++ ticks_lines self.last) }
    {
        let step = step_of(self.last) as u64;
        let count = self.last as u64 / step + 1;
        for k in 0..count {
            let slot = k * step;
            let x = self.x_of(slot);
            add(text, Mark::Tick { slot, x })?;
        }
        Ok(())
    }
}

// 1, 2 or 5 times a power of ten, so that the last slot is at most ten steps away.
fn step_of(last: u32) -> u32
    ensures value { result ≡ step_of last }
    ensures some { 0 < result }
{
    let ten = decade_of(last);
    if last <= 10 * ten {
        ten
    } else if last <= 20 * ten {
        2 * ten
    } else if last <= 50 * ten {
        5 * ten
    } else {
        10 * ten
    }
}

fn decade_of(last: u32) -> u32
    ensures value { result ≡ decade last }
    ensures some { 0 < result }
    ensures bound { result ≤ 100000 }
{
    match last {
        ..=100 => 1,
        ..=1_000 => 10,
        ..=10_000 => 100,
        ..=100_000 => 1_000,
        ..=1_000_000 => 10_000,
        _ => 100_000,
    }
}
