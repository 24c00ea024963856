// The fields of a line, each read off the front of what is left of it.
ghost use Rattle.std.specs.Prelude.{◌≡◌};
ghost use Rattle.script.specs.Bytes.{before, after, space};
ghost use Rattle.script.specs.Fields.{field_of, numeral, field};

use super::bytes;
use std::str;

#[derive(Clone, Copy, PartialEq, Eq, Debug)]
pub enum Field<'a> {
    Name(&'a [u8]),
    Number(u64),
    Dash,
}

// The number that the digits write, without sign or leading zero, if it fits 64 bits.
fn number(digits: &[u8]) -> Option<u64>
    ensures { result ≡ numeral digits.now }
{
    match digits {
        [b'0'] | [b'1'..=b'9', ..] => str::from_utf8(digits).ok()?.parse().ok(),
        _ => None,
    }
}

// The field that the whole text is.
impl<'a> From<&'a [u8]> for Field<'a> {
    ghost from_gives = { λ text made. field_of made ≡ field text.now };

    // Into `read`, which is wanted four times a line: without, a line took a sixth more instructions.
    #[inline(always)]
    fn from(text: &'a [u8]) -> Field<'a> {
        match text {
            [b'-'] => Field::Dash,
            _ => match number(text) {
                Some(n) => Field::Number(n),
                None => Field::Name(text),
            },
        }
    }
}

impl<'a> Field<'a> {
    // The field at the front of a line, up to a space or the end, and the rest of the line. Inlined, for the same reason.
    #[inline(always)]
    pub fn read(line: &'a [u8]) -> (Field<'a>, &'a [u8])
        ensures first { field_of result.0 ≡ field (before space line.now) }
        ensures rest { result.1.now ≡ after space line.now }
    {
        let (text, rest) = bytes::cut(line, bytes::SPACE);
        (Field::from(text), rest)
    }
}
