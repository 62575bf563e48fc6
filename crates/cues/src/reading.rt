// How a line is read: word by word, each as its form asks.
ghost use Rattle.std.specs.Prelude.{◌≡◌, Ok, Err};
ghost use Rattle.cues.specs.Forms.{numbers, then_number, after_slot, line_cue};
ghost use Rattle.cues.specs.Reading.{left, end, Next, NextNumber};

use crate::token::{Token, token_at};
use crate::{Call, Cue};

// The last slot of a job.
const LAST_SLOT: u32 = 1_000_000;

// Reads a line as a cue, or answers the place of its first wrong word: the line's length where a word is missing. Once
// a call has come before it, `begun`, no line may plan a failure any more.
pub fn read_cue(line: &[u8], begun: bool) -> Result<Cue, usize>
    ensures { result ≡ line_cue begun line.now }
{
    let mut words = Words { line, at: Some(0) };
    match words.next()? {
        Token::Letter { letter: 'p', .. } if !begun => {
            let [block, count] = words.numbers::<2>()?;
            Ok(Cue::Plan { block, count })
        }
        Token::Number { value, .. } if value <= LAST_SLOT => words.call(value),
        Token::Letter { place, .. } | Token::Number { place, .. } => Err(place),
    }
}

// The words of a line that are still to be read. `next` is no `Iterator`'s: where no word is left it tells the place.
#[derive(Clone, Copy, PartialEq, Eq, Debug)]
pub struct Words<'a> {
    pub line: &'a [u8],
    // Where the next one begins; nothing after the last.
    pub at: Option<usize>,
}

impl<'a> Words<'a> {
    // The next word, or the place of the fault where there is none or it is neither a number nor a letter.
    pub fn next(&mut self) -> Result<Token<'a>, usize>
        ensures next { Next (left self.old) (end self.old) result (left self.new) }
        ensures line { self.new.line ≡ self.old.line }
    {
        let line = self.line;
        let from = self.at.ok_or(line.len())?;
        let token = token_at(line, from)?;
        let end = from + token.width();
        self.at = (end < line.len()).then(|| end + 1);
        Ok(token)
    }

    // The call that follows its slot: a letter, which decides how many numbers follow.
    fn call(&mut self, slot: u32) -> Result<Cue, usize>
        ensures { result ≡ after_slot (end self.old) slot (left self.old) }
    {
        let call = match self.next()? {
            Token::Letter { letter: 'o', .. } => {
                let [head, first, count, start, period, depth, spare] = self.numbers::<7>()?;
                Call::Order {
                    head,
                    first,
                    count,
                    start,
                    period,
                    depth,
                    spare,
                }
            }
            Token::Letter { letter: 't', .. } => {
                let [head, block, party] = self.numbers::<3>()?;
                Call::Take { head, block, party }
            }
            Token::Letter { letter: 'g', .. } => {
                let [party, lease] = self.numbers::<2>()?;
                Call::Give { party, lease }
            }
            Token::Letter { letter: 'c', .. } => {
                let [head] = self.numbers::<1>()?;
                Call::Close { head }
            }
            Token::Letter { place, .. } | Token::Number { place, .. } => return Err(place),
        };
        Ok(Cue::At { slot, call })
    }

    // The next word, which is a number; or the place of the fault.
    pub fn number(&mut self) -> Result<u32, usize>
        ensures number { NextNumber (left self.old) (end self.old) result (left self.new) }
        ensures line { self.new.line ≡ self.old.line }
    {
        match self.next()? {
            Token::Number { value, .. } => Ok(value),
            Token::Letter { place, .. } => Err(place),
        }
    }

    // The numbers that follow, after which the line ends; or the place of the fault.
    fn numbers<const N: usize>(&mut self) -> Result<[u32; N], usize>
        ensures { result ≡ numbers N (end self.old) (left self.old) }
    {
        let mut numbers = [0; N];
        for number in numbers.iter_mut() {
            *number = self.number()?;
        }
        match self.at {
            None => Ok(numbers),
            Some(place) => Err(place),
        }
    }
}
