// The words of a line, which single spaces part. A token borrows its word from the line and knows its place there, the
// offset of the word's first byte.
ghost use Rattle.std.specs.Prelude.{◌≡◌, false, true, length, drop, MatchOption};
ghost use Rattle.cues.specs.Tokens.{Reads, Tells, token_word};
ghost use Rattle.cues.specs.Words.{front, is_number, number_value, word_of, neither};

#[derive(Clone, Copy, PartialEq, Eq, Debug)]
pub enum Token<'a> {
    // 1 to 7 digits with no leading zero, but for 0 itself.
    Number {
        word: &'a [u8],
        place: usize,
        value: u32,
    },
    // One letter, a to z.
    Letter {
        word: &'a [u8],
        place: usize,
        letter: char,
    },
}

impl Token<'_> {
    // How many bytes of the line the token has.
    pub(crate) fn width(&self) -> usize
        ensures { result ≡ length (token_word self.now) }
    {
        match self {
            Token::Number { word, .. } | Token::Letter { word, .. } => word.len(),
        }
    }
}

// The word of the line that begins at `from`; where it is neither a number nor a letter, its place.
pub fn token_at<'a>(line: &'a [u8], from: usize) -> Result<Token<'a>, usize>
    ensures { Reads line.now from result }
{
    let rest = line.get(from..).ok_or(from)?;
    token_of(front(rest, b' '), from).ok_or(from)
}

// What a word says, where it is a number or a letter.
fn token_of<'a>(word: &'a [u8], place: usize) -> Option<Token<'a>>
    ensures { MatchOption result (word_of word.now ≡ neither) (λ token. Tells place word.now token) }
{
    match word {
        [letter] if letter.is_ascii_alphabetic() => Some(Token::Letter {
            word,
            place,
            letter: char::from(*letter),
        }),
        _ => {
            let value = number(word)?;
            Some(Token::Number { word, place, value })
        }
    }
}

// The bytes before the first `mark`.
pub(crate) fn front(bytes: &[u8], mark: u8) -> &[u8]
    ensures { result.now ≡ front mark bytes.now }
{
    match bytes.iter().position(|byte| *byte == mark) {
        Some(end) => &bytes[..end],
        None => bytes,
    }
}

// The number that a word writes. One loop tests its digits and sums them: by `from_utf8` and `parse` a cue takes eight
// times as long to read.
fn number(word: &[u8]) -> Option<u32>
    ensures { MatchOption result (is_number word.now ≡ false) (λ n. (is_number word.now ≡ true) × (n ≡ number_value word.now)) }
{
    if word.is_empty() || word.len() > 7 {
        return None;
    }
    if word[0] == b'0' && word.len() > 1 {
        return None;
    }
    let mut value: u32 = 0;
    for digit in word {
        if !digit.is_ascii_digit() {
            return None;
        }
        value = value * 10 + (*digit - b'0') as u32;
    }
    Some(value)
}
