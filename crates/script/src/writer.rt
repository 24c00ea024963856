// Answer lines, each written where the one before ended.
ghost use Rattle.std.specs.Prelude.{◌≡◌, ◌^◌, ◌<◌, ◌≤◌, length, decimal};
ghost use Rattle.script.specs.Writers.{Room, Appends};
ghost use Rattle.script.specs.Written.{heading, value_text, answer_line, told, fault_line};

use super::fault::Fault;
use itoa::Buffer;
use station::Answer;

// The length stands beside the buffer, since it is the caller's, across C, and no list of our own.
// `Room` is asked of each method, since each piece wants another room.
#[derive(Drop)]
pub struct Writer<'a> {
    pub out: &'a mut [u8],
    pub len: usize,
}

impl Writer<'_> {
    // Writes the text at the end.
    fn put(&mut self, text: &[u8])
        requires { Room (length text.now) self.old }
        ensures { Appends text.now self.old self.new }
    {
        let end = self.len + text.len();
        self.out[self.len..end].copy_from_slice(text);
        self.len = end;
    }

    // `write!` would not promise that nothing fails where there is room.
    fn number(&mut self, n: u64)
        requires { Room (length (decimal n)) self.old }
        ensures { Appends (decimal n) self.old self.new }
    {
        self.put(Buffer::new().format(n).as_bytes());
    }

    fn value(&mut self, value: Option<u64>)
        requires { Room (length (value_text value)) self.old }
        ensures { Appends (value_text value) self.old self.new }
    {
        match value {
            Some(n) => self.number(n),
            None => self.put(b"-"),
        }
    }

    fn line(&mut self, line: u64, word: &[u8], value: Option<u64>)
        requires { Room (length (answer_line line word.now value)) self.old }
        ensures { Appends (answer_line line word.now value) self.old self.new }
    {
        self.number(line);
        self.put(b" ");
        self.put(word);
        self.put(b" ");
        self.value(value);
        self.put(b"\n");
    }

    // The line above the answers.
    pub fn heading(&mut self)
        requires { Room (length heading) self.old }
        ensures { Appends heading self.old self.new }
    {
        self.put(b"line answer value\n");
    }

    pub fn fault(&mut self, line: u64, fault: Fault)
        requires { Room (length (fault_line line fault)) self.old }
        ensures { Appends (fault_line line fault) self.old self.new }
    {
        self.line(line, b"fault", Some(u64::from(fault)));
    }

    // An answer takes at most 36 bytes, as long as the lines have six digits at most.
    // Inlined, so that the compiler sees which words come: a host in C is asked for no `memmove` then.
    #[inline(always)]
    pub fn answer(&mut self, line: u64, answer: Answer)
        requires room { Room 36 self.old }
        requires few { line < 10 ^ 6 }
        ensures text { Appends (told line answer) self.old self.new }
        ensures within { length (told line answer) ≤ 36 }
    {
        self.line(line, answer.word(), answer.value());
    }
}
