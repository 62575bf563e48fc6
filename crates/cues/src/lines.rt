// The lines of a list, each ended by byte 10 or, with bytes left, by the input's end.
ghost use Rattle.std.specs.Iterator.{YieldsFirstBy, item_count};

use crate::token::front;

// The lines that are still to be read, without the bytes that end them.
#[derive(Clone, Copy, PartialEq, Eq, Debug)]
pub struct Lines<'a> {
    pub rest: &'a [u8],
}

impl<'a> Iterator for Lines<'a> {
    ghost use Rattle.cues.specs.Reading.{lines_left};

    type Item = &'a [u8];

    ghost next_gives = { YieldsFirstBy (λ line. line.now) lines_left };

    ghost remaining = { item_count lines_left };

    fn next(&mut self) -> Option<&'a [u8]> {
        if self.rest.is_empty() {
            return None;
        }
        let line = front(self.rest, b'\n');
        let end = self.rest.len().min(line.len() + 1);
        self.rest = &self.rest[end..];
        Some(line)
    }
}
