// Texts of bytes, parted.
ghost use Rattle.std.specs.Prelude.{◌≡◌};
ghost use Rattle.script.specs.Bytes.{before, after, count as counts, ended};

pub const LF: u8 = b'\n';

pub const SPACE: u8 = b' ';

// What stands before the first `b`, and what stands after it: all and nothing where there is none.
pub fn cut(text: &[u8], b: u8) -> (&[u8], &[u8])
    ensures front { result.0.now ≡ before b text.now }
    ensures back { result.1.now ≡ after b text.now }
{
    match text.iter().position(|x| *x == b) {
        Some(i) => (&text[..i], &text[i + 1..]),
        None => (text, &[]),
    }
}

// How often `b` comes. A `for`: `filter` and `count` took three fifths more instructions, and each byte of a script is counted twice.
pub fn count(text: &[u8], b: u8) -> usize
    ensures { result ≡ counts b text.now }
{
    let mut n = 0;
    for x in text {
        if *x == b {
            n += 1;
        }
    }
    n
}

// Whether the last byte is a line feed.
pub fn is_ended(text: &[u8]) -> bool
    ensures { result ≡ ended text.now }
{
    text.last() == Some(&LF)
}
