// A line of a job's log, read back into a value. Its numbers stand as they are written, 1 to 7 digits each, also those of
// answers and causes: a log may have a number that is none of theirs.
ghost use Rattle.std.specs.Prelude.{◌≡◌, ◌≤◌, length};
ghost use Rattle.cues.specs.Reading.{left, end, words_from, place_after};
ghost use Rattle.charts.specs.Back.{WrittenLinesReadBack};
ghost use Rattle.charts.specs.Entries.{begins_done, letter_kind, wanted, entry_from, numbered, after_number, line_entry};
ghost use Rattle.charts.specs.Lines.{slot_of};
ghost use Rattle.charts.specs.declared.entry.Kind.TheVariants.{Done as done};

use cues::reading::Words;
use cues::token::Token;

#[derive(Clone, Copy, PartialEq, Eq, Debug)]
pub enum Entry {
    // `S o H R`: an order; the answer is 0 or the refusal's number. The span l to h follows where it is 6.
    Order {
        slot: u32,
        head: u32,
        answer: u32,
        l: u32,
        h: u32,
    },
    // `S t H I Q R`: a take. The lease follows where the answer is 0.
    Take {
        slot: u32,
        head: u32,
        block: u32,
        party: u32,
        answer: u32,
        lease: u32,
    },
    // `S g Q E R`: a give.
    Give {
        slot: u32,
        party: u32,
        lease: u32,
        answer: u32,
    },
    // `S c H R`: a close.
    Close {
        slot: u32,
        head: u32,
        answer: u32,
    },
    // `S r H I`: a read.
    Read {
        slot: u32,
        head: u32,
        block: u32,
    },
    // `S f H I A`: a failed attempt.
    Failed {
        slot: u32,
        head: u32,
        block: u32,
        attempt: u32,
    },
    // `S e H cause`: the end of a lane.
    Ended {
        slot: u32,
        head: u32,
        cause: u32,
    },
    // `done N A F`: the end of the job.
    Done {
        slot: u32,
        attempts: u32,
        failed: u32,
    },
    // `number line place`: why the job did not run.
    Refused {
        number: u32,
        line: u32,
        place: u32,
    },
}

impl Entry {
    // The slot of the line; 0 where the job did not run.
    pub(crate) fn slot(&self) -> u32
        ensures { result ≡ slot_of self.now }
    {
        match self {
            Entry::Order { slot, .. }
            | Entry::Take { slot, .. }
            | Entry::Give { slot, .. }
            | Entry::Close { slot, .. }
            | Entry::Read { slot, .. }
            | Entry::Failed { slot, .. }
            | Entry::Ended { slot, .. }
            | Entry::Done { slot, .. } => *slot,
            Entry::Refused { .. } => 0,
        }
    }
}

// Reads a line of the log, without its end; or answers the place of its first wrong word: the line's length where a
// word is missing. A line that a job wrote reads as what it tells.
#[tactic(auto, using(crate::proofs::Back::written_lines_read_back))]
pub fn read_entry(line: &[u8]) -> Result<Entry, usize>
    ensures value { result ≡ line_entry line.now }
    ensures back { WrittenLinesReadBack }
{
    if is_done(line) {
        return after_done(line);
    }
    let mut words = Words { line, at: Some(0) };
    let first = words.number()?;
    after_first(&mut words, first)
}

// Whether the first word is `done`.
fn is_done(line: &[u8]) -> bool
    ensures { result ≡ begins_done line.now }
{
    matches!(
        line,
        [b'd', b'o', b'n', b'e'] | [b'd', b'o', b'n', b'e', b' ', ..]
    )
}

// The line after the word `done`.
fn after_done(line: &[u8]) -> Result<Entry, usize>
    requires { 4 ≤ length line.now }
    ensures { result ≡ numbered done 0 (length line.now) (words_from line.now (place_after line.now 4)) }
{
    let at = (line.len() > 4).then_some(5);
    let mut words = Words { line, at };
    read_numbers(&mut words, Kind::Done, 0)
}

// The line after its first number.
fn after_first(words: &mut Words, first: u32) -> Result<Entry, usize>
    ensures { result ≡ after_number first (end words.old) (left words.old) }
{
    let mut here = *words;
    match words.next()? {
        Token::Number { .. } => read_numbers(&mut here, Kind::Refused, first),
        Token::Letter { letter, place, .. } => {
            let kind = Kind::of(letter).ok_or(place)?;
            read_numbers(words, kind, first)
        }
    }
}

// The numbers of a line of that kind, after which the line ends, as its entry.
fn read_numbers(words: &mut Words, kind: Kind, first: u32) -> Result<Entry, usize>
    ensures { result ≡ numbered kind first (end words.old) (left words.old) }
{
    let mut n = [0; 5];
    // How many numbers there are is known only once they are read, so no `for` counts them.
    let mut i = 0;
    while i < kind.wanted(&n) {
        n[i] = words.number()?;
        i += 1;
    }
    match words.at {
        None => Ok(kind.entry(first, &n)),
        Some(place) => Err(place),
    }
}

// Which line it is; how many numbers follow, and what they are. One reader serves all: a number that was read may decide
// how many follow, which a match with a reader for each kind would tell nine times.
#[derive(Clone, Copy, PartialEq, Eq, Debug)]
enum Kind {
    Order,
    Take,
    Give,
    Close,
    Read,
    Failed,
    Ended,
    Done,
    Refused,
}

impl Kind {
    // The kind of line that a letter stands for.
    fn of(letter: char) -> Option<Kind>
        ensures { result ≡ letter_kind letter }
    {
        match letter {
            'o' => Some(Kind::Order),
            't' => Some(Kind::Take),
            'g' => Some(Kind::Give),
            'c' => Some(Kind::Close),
            'r' => Some(Kind::Read),
            'f' => Some(Kind::Failed),
            'e' => Some(Kind::Ended),
            _ => None,
        }
    }

    // How many numbers a line has, those that are not yet read being 0.
    fn wanted(self, n: &[u32; 5]) -> usize
        ensures value { result ≡ wanted self n.now }
        ensures few { result ≤ 5 }
    {
        match self {
            Kind::Take if n[3] == 0 => 5,
            Kind::Order if n[1] == 6 => 4,
            Kind::Take => 4,
            Kind::Give | Kind::Failed | Kind::Done => 3,
            Kind::Order | Kind::Close | Kind::Read | Kind::Ended | Kind::Refused => 2,
        }
    }

    fn entry(self, slot: u32, n: &[u32; 5]) -> Entry
        ensures { result ≡ entry_from self slot n.now }
    {
        match self {
            Kind::Order => Entry::Order {
                slot,
                head: n[0],
                answer: n[1],
                l: n[2],
                h: n[3],
            },
            Kind::Take => Entry::Take {
                slot,
                head: n[0],
                block: n[1],
                party: n[2],
                answer: n[3],
                lease: n[4],
            },
            Kind::Give => Entry::Give {
                slot,
                party: n[0],
                lease: n[1],
                answer: n[2],
            },
            Kind::Close => Entry::Close {
                slot,
                head: n[0],
                answer: n[1],
            },
            Kind::Read => Entry::Read {
                slot,
                head: n[0],
                block: n[1],
            },
            Kind::Failed => Entry::Failed {
                slot,
                head: n[0],
                block: n[1],
                attempt: n[2],
            },
            Kind::Ended => Entry::Ended {
                slot,
                head: n[0],
                cause: n[1],
            },
            Kind::Done => Entry::Done {
                slot: n[0],
                attempts: n[1],
                failed: n[2],
            },
            Kind::Refused => Entry::Refused {
                number: slot,
                line: n[0],
                place: n[1],
            },
        }
    }
}
