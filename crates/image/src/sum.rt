// The Internet checksum's sum (RFC 1071), as records use it.
ghost use Rattle.std.specs.Prelude.{◌≡◌, ◌+◌, ◌*◌, ◌<◌, length};
ghost use Rattle.image.specs.Sums.{word_at, carried, sum_of, total_of, ones_complement};

// The sum of the bytes as words of 16 bits, the high byte first; a last byte alone has a zero after it.
pub fn sum(bytes: &[u8]) -> u32
    ensures value { result ≡ sum_of bytes.now }
    ensures bound { result < 65536 }
    ensures law { result ≡ ones_complement (total_of bytes.now) }
{
    let mut total = 0;
    let pairs = bytes.chunks_exact(2);
    let last = pairs.remainder();
    for pair in pairs {
        total = carry(total + u32::from(pair_word(pair)));
    }
    carry(total + u32::from(pair_word(last)))
}

// The word of two bytes, of one, or of none.
fn pair_word(pair: &[u8]) -> u16
    ensures { result ≡ word_at pair.now 0 }
{
    match *pair {
        [high, low, ..] => u16::from_be_bytes([high, low]),
        [high] => u16::from_be_bytes([high, 0]),
        [] => 0,
    }
}

// Word k of the bytes.
pub(crate) fn word(bytes: &[u8], k: usize) -> u16
    requires { 2 * k + 1 < length bytes.now }
    ensures { result ≡ word_at bytes.now k }
{
    u16::from_be_bytes([bytes[2 * k], bytes[2 * k + 1]])
}

// A word taken in: where the total reaches 65,536, 65,535 is subtracted.
fn carry(total: u32) -> u32
    ensures { result ≡ carried total }
{
    if total < 65536 { total } else { total - 65535 }
}
