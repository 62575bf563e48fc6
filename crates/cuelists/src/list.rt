// How a list is read: line by line, up to the first fault.
ghost use Rattle.std.specs.Prelude.{◌≡◌, true, false, Some, ◌∷◌, length, if◌then◌else◌, Ok, Err, MatchResult, nat_eq, nat_lt};
ghost use Rattle.std.specs.List.Sorted.{IsPermutation};
ghost use Rattle.refusal.specs.Told.{told};
ghost use Rattle.layers.specs.Entries.{listed, add_number, add_after};
ghost use Rattle.queue.specs.Held.{held, room};
ghost use Rattle.cues.specs.Forms.{line_cue};
ghost use Rattle.cuelists.specs.Laws.{WellFormedListsAreRead};
ghost use Rattle.cuelists.specs.Lists.{reason_number, fault_told, fault_place, fault_words, fault, most, sofar, cue_read, list_read, Took, Reads};
ghost use Rattle.cuelists.specs.declared.list.Reason.TheVariants.{BadEntry, Full};

use crate::due::Due;
use cues::Cue;
use cues::lines::Lines;
use cues::reading::read_cue;
use layers::plan::Entries;
use queue::Queue;
use refusal::{Place, Refusal};
use std::fmt;

// A list has at most so many calls, and at most so many bytes.
pub const MOST_CALLS: usize = 512;

pub const MOST_BYTES: usize = 65_536;

// Why a list was not read to its end, and at which line, from 1; an input that is too long has line 0.
#[derive(Clone, Copy, PartialEq, Eq, Debug)]
pub struct ListFault {
    pub reason: Reason,
    pub line: usize,
}

#[derive(Clone, Copy, PartialEq, Eq, Debug)]
pub enum Reason {
    BadEntry,
    // The byte of the line, from 0, at which the wrong word begins.
    BadCue { place: usize },
    Full,
}

// The fault as a refusal; a bad cue's tells where.
impl From<ListFault> for Refusal {
    ghost from_gives = { λ fault refusal. told refusal ≡ fault_told fault };

    fn from(fault: ListFault) -> Refusal {
        match fault.reason {
            Reason::BadEntry => Refusal::BadEntry,
            Reason::BadCue { place } => Refusal::BadCue(Place {
                line: fault.line,
                byte: place,
            }),
            Reason::Full => Refusal::Full,
        }
    }
}

impl ListFault {
    pub fn refusal(&self) -> Refusal
        ensures { told result ≡ fault_told self.now }
    {
        Refusal::from(*self)
    }

    // The refusal's number, by which the operator knows it.
    pub fn number(&self) -> u8
        ensures { result ≡ reason_number self.now.reason }
    {
        self.refusal().number()
    }

    // The byte of the line at which a bad cue's wrong word begins; 0 for another fault.
    pub fn place(&self) -> usize
        ensures { result ≡ fault_place self.now }
    {
        match self.reason {
            Reason::BadCue { place } => place,
            Reason::BadEntry | Reason::Full => 0,
        }
    }
}

// Number, line and place.
impl fmt::Display for ListFault {
    ghost output = { λ fault. Some (fault_words fault) };

    fn fmt<W: fmt::Write>(&self, f: &mut fmt::Formatter<W>) -> fmt::Result {
        let number = self.number();
        let line = self.line;
        let place = self.place();
        write!(f, "{number} {line} {place}")
    }
}

// Reads a list into a plan's entries and a queue, up to its first fault, which is the answer; what the lines before it
// said stays. A list of well-formed lines in the right order and number has no fault.
pub fn read_list(
    input: &[u8],
    entries: &mut Entries,
    queue: &mut Queue<Due>,
) -> Result<(), ListFault>
    ensures reads { Reads (list_read (room queue.old) (listed entries.old) (held queue.old) input.now) result (listed entries.new) (held queue.new) }
    ensures room { room queue.new ≡ room queue.old }
    ensures always { WellFormedListsAreRead }
{
    if input.len() > MOST_BYTES {
        return Err(ListFault {
            reason: Reason::Full,
            line: 0,
        });
    }
    let mut begun = false;
    for (before, text) in (Lines { rest: input }).enumerate() {
        begun = read_line(text, before + 1, begun, entries, queue)?;
    }
    Ok(())
}

// Reads one line, number `line` of the list, and answers whether a call has come.
fn read_line(
    text: &[u8],
    line: usize,
    begun: bool,
    entries: &mut Entries,
    queue: &mut Queue<Due>,
) -> Result<bool, ListFault>
    ensures took { Took (sofar (listed entries.old) (held queue.old) begun) (cue_read (most (room queue.old)) line (line_cue begun text.now) (sofar (listed entries.old) (held queue.old) begun)) result (listed entries.new) (held queue.new) }
    ensures room { room queue.new ≡ room queue.old }
{
    let cue = read_cue(text, begun).map_err(|place| ListFault {
        reason: Reason::BadCue { place },
        line,
    })?;
    match cue {
        Cue::Plan { block, count } => plan(block, count, line, entries),
        Cue::At { slot, call } => put(Due { slot, line, call }, queue),
    }
}

// Takes a plan's entry in.
fn plan(block: u32, count: u32, line: usize, entries: &mut Entries) -> Result<bool, ListFault>
    ensures answer { result ≡ (if nat_eq (add_number (listed entries.old) block count) 0 then Ok false else Err (fault BadEntry line)) }
    ensures after { listed entries.new ≡ add_after (listed entries.old) block count }
{
    let added = entries.add(block as usize, count as usize);
    added.map(|()| false).map_err(|_| ListFault {
        reason: Reason::BadEntry,
        line,
    })
}

// Takes a call in.
fn put(due: Due, queue: &mut Queue<Due>) -> Result<bool, ListFault>
    ensures answer { result ≡ (if nat_lt (length (held queue.old)) (most (room queue.old)) then Ok true else Err (fault Full due.line)) }
    ensures held { MatchResult result (λ _. IsPermutation (due ∷ held queue.old) (held queue.new)) (λ _. held queue.new ≡ held queue.old) }
    ensures room { room queue.new ≡ room queue.old }
{
    let full = ListFault {
        reason: Reason::Full,
        line: due.line,
    };
    if queue.len() >= MOST_CALLS {
        return Err(full);
    }
    queue.put(due).map(|()| true).map_err(|_| full)
}
