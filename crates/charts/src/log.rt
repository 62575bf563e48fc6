// A whole log read back, line by line, up to the first wrong line.
ghost use Rattle.std.specs.Prelude.{◌≡◌, Some, IfOk, vec_items};
ghost use Rattle.charts.specs.Back.{LogsReadBack};
ghost use Rattle.charts.specs.Logs.{Says, is_end, is_misplaced, line_read, log_read};

use crate::entry::{Entry, read_entry};
use cues::lines::Lines;
use refusal::{Place, Refusal};
use std::alloc::{AllocError, Global};
use std::fmt;

// The first wrong line of a log, from 1, and the place of its first wrong word.
#[derive(Clone, Copy, PartialEq, Eq, Debug)]
pub struct LogFault {
    pub line: usize,
    pub place: usize,
}

// Number, line and place, as of a bad cue.
impl fmt::Display for LogFault {
    ghost use Rattle.charts.specs.Charts.{fault_words};

    ghost output = { λ fault. Some (fault_words fault) };

    fn fmt<W: fmt::Write>(&self, f: &mut fmt::Formatter<W>) -> fmt::Result {
        let line = self.line;
        let place = self.place;
        let number = Refusal::BadCue(Place { line, byte: place }).number();
        write!(f, "{number} {line} {place}")
    }
}

// Reads a log, or answers its first wrong line: one that is no line of a log, one after the last, or one that tells why
// a job did not run and does not stand alone. The log that a job wrote reads as what its lines tell. Memory may run out:
// that is no answer about the log, and no fault of its lines, so it has a `Result` of its own, which `?` passes on.
#[tactic(auto, using(crate::proofs::Whole::logs_read_back))]
pub fn read_log(heap: Global, input: &[u8]) -> Result<Result<Vec<Entry>, LogFault>, AllocError>
    ensures value { IfOk result (λ answer. Says vec_items answer (log_read input.now)) }
    ensures back { LogsReadBack }
{
    let mut entries = Vec::new(heap);
    let mut over = false;
    for (before, text) in (Lines { rest: input }).enumerate() {
        let entry = match next_entry(text, before + 1, over) {
            Ok(entry) => entry,
            Err(fault) => return Ok(Err(fault)),
        };
        over = is_end(&entry);
        entries.push(entry)?;
    }
    Ok(Ok(entries))
}

// Reads one line, where `over` tells whether the log had its last.
fn next_entry(text: &[u8], line: usize, over: bool) -> Result<Entry, LogFault>
    ensures { result ≡ line_read line over text.now }
{
    let entry = read_entry(text).map_err(|place| LogFault { line, place })?;
    if over || is_misplaced(&entry, line) {
        return Err(LogFault { line, place: 0 });
    }
    Ok(entry)
}

// Whether the log ends with this line.
fn is_end(entry: &Entry) -> bool
    ensures { result ≡ is_end entry.now }
{
    matches!(entry, Entry::Done { .. } | Entry::Refused { .. })
}

// Whether the line tells that the job did not run, after others that tell what it did.
fn is_misplaced(entry: &Entry, line: usize) -> bool
    ensures { result ≡ is_misplaced entry.now line }
{
    line > 1 && matches!(entry, Entry::Refused { .. })
}
