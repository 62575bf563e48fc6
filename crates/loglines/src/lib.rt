// The log of a job: each kind of line as a value, and its text written into the caller's memory.
#![tactic(auto)]

ghost use Rattle.std.specs.Prelude.{◌≡◌, ◌+◌, ◌*◌, ◌<◌, ◌≤◌, [], ◌∷◌, ◌++◌, length, IfOk, if◌then◌else◌, decimal, MatchResult, nat_lt};
ghost use Rattle.refusal.specs.Told.{answer_number};
ghost use Rattle.loglines.specs.Memory.{put, Wrote};
ghost use Rattle.loglines.specs.Text.{opening, spaced, order_told, take_told, log_text, log_line};

use refusal::Refusal;

// No line has more bytes, its last one, byte 10, among them.
pub const ROOM: usize = 64;

// What one line of the log says. A slot, and each number that a cue brought, stands as it was given.
#[derive(Clone, Copy, PartialEq, Eq, Debug)]
pub enum LogLine {
    // `S o H R`: an order for head H; where it is crowded, the span follows.
    Order {
        slot: u32,
        head: u32,
        answer: Result<(), Refusal>,
    },
    // `S t H I Q R`: block I of head H taken by party Q; where it is granted, the lease follows.
    Take {
        slot: u32,
        head: u32,
        block: u32,
        party: u32,
        answer: Result<u8, Refusal>,
    },
    // `S g Q E R`: lease E given back by party Q.
    Give {
        slot: u32,
        party: u32,
        lease: u32,
        answer: Result<(), Refusal>,
    },
    // `S c H R`: head H closed.
    Close {
        slot: u32,
        head: u32,
        answer: Result<(), Refusal>,
    },
    // `S r H I`: block I read for head H.
    Read {
        slot: u32,
        head: u32,
        block: u32,
    },
    // `S f H I A`: attempt A on block I, for head H, failed.
    Failed {
        slot: u32,
        head: u32,
        block: u32,
        attempt: u32,
    },
    // `S e H cause`: the lane of head H ended; the cause is the number by which a report tells it. A caller may have any
    // number here and in a fault's: the fields are public, and an enum would ask more of it.
    Ended {
        slot: u32,
        head: u32,
        cause: u8,
    },
    // `done` with the last slot, the attempts and the failed ones.
    Done {
        slot: u32,
        attempts: u32,
        failed: u32,
    },
    // The first fault of a cue list: the refusal's number, the line and the place.
    BadList {
        number: u8,
        line: usize,
        place: usize,
    },
}

impl LogLine {
    // Writes the line at the start of `out` and answers how many bytes it has, never more than 64; refuses with Short
    // output where `out` is shorter than that.
    pub fn write(&self, out: &mut [u8]) -> Result<usize, Refusal>
        ensures answer { answer_number result ≡ (if nat_lt (length out.old) 64 then 19 else 0) }
        ensures value { MatchResult result (λ n. n ≡ length (log_line self.now)) (λ _. length out.old < 64) }
        ensures memory { out.new ≡ (if nat_lt (length out.old) 64 then out.old else put out.old 0 (log_line self.now)) }
        ensures short { IfOk result (λ n. n ≤ 64) }
    {
        if out.len() < ROOM {
            return Err(Refusal::ShortOutput);
        }
        let mut text = Text { out, len: 0 };
        self.write_text(&mut text);
        text.byte(b'\n');
        Ok(text.len)
    }

    // The line without its end.
    fn write_text(&self, text: &mut Text)
        requires { (text.old.len ≡ 0) × (64 ≤ length text.old.out.now) }
        ensures same_memory { text.new.out.ghost_name ≡ text.old.out.ghost_name }
        ensures wrote { Wrote text.old.out.now 0 (log_text self.now) text.new.len text.new.out.now }
        ensures short { text.new.len < 64 }
    {
        match self {
            LogLine::Order { slot, head, answer } => {
                text.opening(*slot, b'o');
                text.order_answer(*head, answer);
            }
            LogLine::Take {
                slot,
                head,
                block,
                party,
                answer,
            } => {
                text.opening(*slot, b't');
                text.numbers(&[*head, *block, *party]);
                text.take_answer(answer);
            }
            LogLine::Give {
                slot,
                party,
                lease,
                answer,
            } => {
                text.opening(*slot, b'g');
                text.numbers(&[*party, *lease, number_of(answer)]);
            }
            LogLine::Close { slot, head, answer } => {
                text.opening(*slot, b'c');
                text.numbers(&[*head, number_of(answer)]);
            }
            LogLine::Read { slot, head, block } => {
                text.opening(*slot, b'r');
                text.numbers(&[*head, *block]);
            }
            LogLine::Failed {
                slot,
                head,
                block,
                attempt,
            } => {
                text.opening(*slot, b'f');
                text.numbers(&[*head, *block, *attempt]);
            }
            LogLine::Ended { slot, head, cause } => {
                text.opening(*slot, b'e');
                text.numbers(&[*head, u32::from(*cause)]);
            }
            LogLine::Done {
                slot,
                attempts,
                failed,
            } => {
                text.done();
                text.numbers(&[*slot, *attempts, *failed]);
            }
            LogLine::BadList {
                number,
                line,
                place,
            } => {
                text.number(u64::from(*number));
                text.spaced(*line as u64);
                text.spaced(*place as u64);
            }
        }
    }
}

// A line as it is put together, in the caller's memory: its bytes so far are the first `len`. No `impl Display` does it:
// as far as a contract knows, `write!` may fail, and `LogLine::write` cannot; and no ArrayVec, with numbers by `itoa`: a
// line takes 2.2 times as long so.
#[derive(Drop)]
struct Text<'a> {
    out: &'a mut [u8],
    len: usize,
}

impl Text<'_> {
    // The slot and the letter with which most lines begin.
    fn opening(&mut self, slot: u32, letter: u8)
        requires { self.old.len + 12 ≤ length self.old.out.now }
        ensures same_memory { self.new.out.ghost_name ≡ self.old.out.ghost_name }
        ensures wrote { Wrote self.old.out.now self.old.len (opening slot letter) self.new.len self.new.out.now }
        ensures short { self.new.len ≤ self.old.len + 12 }
    {
        self.number(u64::from(slot));
        self.pair(b' ', letter);
    }

    // The word with which the last line begins.
    fn done(&mut self)
        requires { self.old.len + 4 ≤ length self.old.out.now }
        ensures same_memory { self.new.out.ghost_name ≡ self.old.out.ghost_name }
        ensures wrote { Wrote self.old.out.now self.old.len (100 ∷ 111 ∷ 110 ∷ 101 ∷ []) self.new.len self.new.out.now }
    {
        self.pair(b'd', b'o');
        self.pair(b'n', b'e');
    }

    // An order's head and answer: the answer's number, and the span where it is crowded.
    fn order_answer(&mut self, head: u32, answer: &Result<(), Refusal>)
        requires { self.old.len + 44 ≤ length self.old.out.now }
        ensures same_memory { self.new.out.ghost_name ≡ self.old.out.ghost_name }
        ensures wrote { Wrote self.old.out.now self.old.len (spaced (head ∷ order_told answer.now)) self.new.len self.new.out.now }
        ensures short { self.new.len ≤ self.old.len + 44 }
    {
        match answer {
            Ok(()) => self.numbers(&[head, 0]),
            Err(Refusal::Crowded(span)) => self.numbers(&[head, number_of(answer), span.l, span.h]),
            Err(refusal) => self.numbers(&[head, u32::from(refusal.number())]),
        }
    }

    // A take's answer: its number, and the lease where it is granted.
    fn take_answer(&mut self, answer: &Result<u8, Refusal>)
        requires { self.old.len + 8 ≤ length self.old.out.now }
        ensures same_memory { self.new.out.ghost_name ≡ self.old.out.ghost_name }
        ensures wrote { Wrote self.old.out.now self.old.len (spaced (take_told answer.now)) self.new.len self.new.out.now }
        ensures short { self.new.len ≤ self.old.len + 8 }
    {
        match answer {
            Ok(lease) => {
                self.pair(b' ', b'0');
                self.spaced(u64::from(*lease));
            }
            Err(refusal) => self.spaced(u64::from(refusal.number())),
        }
    }

    // Each number after a space.
    fn numbers(&mut self, numbers: &[u32])
        requires { self.old.len + 11 * length numbers.now ≤ length self.old.out.now }
        ensures same_memory { self.new.out.ghost_name ≡ self.old.out.ghost_name }
        ensures wrote { Wrote self.old.out.now self.old.len (spaced numbers.now) self.new.len self.new.out.now }
        ensures short { self.new.len ≤ self.old.len + 11 * length numbers.now }
    {
        for number in numbers {
            self.spaced(u64::from(*number));
        }
    }

    // A number after a space.
    fn spaced(&mut self, number: u64)
        requires { self.old.len + 1 + length (decimal number) ≤ length self.old.out.now }
        ensures same_memory { self.new.out.ghost_name ≡ self.old.out.ghost_name }
        ensures wrote { Wrote self.old.out.now self.old.len (32 ∷ decimal number) self.new.len self.new.out.now }
    {
        self.byte(b' ');
        self.number(number);
    }

    // The digits of a number.
    fn number(&mut self, number: u64)
        requires { self.old.len + length (decimal number) ≤ length self.old.out.now }
        ensures same_memory { self.new.out.ghost_name ≡ self.old.out.ghost_name }
        ensures wrote { Wrote self.old.out.now self.old.len (decimal number) self.new.len self.new.out.now }
    {
        if number < 10 {
            self.byte(b'0' + number as u8);
            return;
        }
        self.number(number / 10);
        self.byte(b'0' + (number % 10) as u8);
    }

    // Two bytes, the second at the place after the first: `len` is read and written once.
    fn pair(&mut self, first: u8, second: u8)
        requires { self.old.len + 2 ≤ length self.old.out.now }
        ensures same_memory { self.new.out.ghost_name ≡ self.old.out.ghost_name }
        ensures wrote { Wrote self.old.out.now self.old.len (first ∷ second ∷ []) self.new.len self.new.out.now }
    {
        let at = self.len;
        self.out[at] = first;
        self.out[at + 1] = second;
        self.len = at + 2;
    }

    fn byte(&mut self, byte: u8)
        requires { self.old.len < length self.old.out.now }
        ensures same_memory { self.new.out.ghost_name ≡ self.old.out.ghost_name }
        ensures wrote { Wrote self.old.out.now self.old.len (byte ∷ []) self.new.len self.new.out.now }
    {
        self.out[self.len] = byte;
        self.len += 1;
    }
}

// 0 where the answer is granted, else the refusal's number.
fn number_of(answer: &Result<(), Refusal>) -> u32
    ensures value { result ≡ answer_number answer.now }
{
    match answer {
        Ok(()) => 0,
        Err(refusal) => u32::from(refusal.number()),
    }
}
