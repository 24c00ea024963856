// The lines of a script, one after another.
ghost use Rattle.std.specs.Prelude.{◌≡◌, ◌≤◌, length, is_some, IfSome};
ghost use Rattle.std.specs.Iterator.{YieldsFirstRef, item_count};
ghost use Rattle.script.specs.Bytes.{lines, Whole};
ghost use Rattle.script.specs.Runs.{fits as fitting};

use super::bytes;

// The most bytes that a script may have.
pub const LONGEST: usize = 65_536;

// The most bytes that an answer takes.
pub const LINE_ROOM: usize = 36;

// What is left of a script: whole lines.
// No `split` of std: it gives a piece after the last line feed too, its type holds a closure, and a function that is
// handed it would have to say in its clause what it will give.
// No `impl Model` with the lines as its value: that they are few, by which their numbers fit, would be hidden.
#[derive(Drop)]
pub struct Lines<'a> {
    rest: &'a [u8],
    ghost short: { length rest.now ≤ 65536 },
    ghost whole: { Whole rest.now },
}

// Whether the script is short enough and whole, and all that may be answered to its lines fits into the room.
fn fits(script: &[u8], room: usize) -> bool
    ensures { result ≡ fitting script.now room }
{
    if script.len() > LONGEST || !bytes::is_ended(script) {
        return false;
    }
    LINE_ROOM * bytes::count(script, bytes::LF) <= room
}

impl<'a> Lines<'a> {
    // The lines of a script, if it is short enough and whole, and all that may be answered to them fits into the room.
    pub fn fitting(script: &'a [u8], room: usize) -> Option<Lines<'a>>
        ensures fits { is_some result ≡ fitting script.now room }
        ensures lines { IfSome result (λ l. l.rest.now ≡ script.now) }
    {
        if !fits(script, room) {
            return None;
        }
        Some(Lines { rest: script })
    }
}

impl<'a> Iterator for Lines<'a> {
    type Item = &'a [u8];

    ghost next_gives = { YieldsFirstRef (λ l. lines l.rest.now) };

    ghost remaining = { item_count (λ l. lines l.rest.now) };

    #[tactic(auto, using(crate::proofs::LineCuts::lines_cut))]
    fn next(&mut self) -> Option<&'a [u8]> {
        if self.rest.is_empty() {
            return None;
        }
        let (line, rest) = bytes::cut(self.rest, bytes::LF);
        self.rest = rest;
        Some(line)
    }
}
