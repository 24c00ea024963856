// A script on standard input, its answers on standard output.
#![tactic(auto)]

ghost use Rattle.std.specs.Prelude.{◌≤◌, length, IfOk};

use bells::Bell;
use script::LONGEST;
use std::io;
use std::io::Read;

// What the answers to a script may take.
const OUT: usize = 65_536;

// Reads until the input ends or the buffer is full, and tells how many bytes were read.
// No heap: std's `read_to_end` fills a `Vec`.
pub fn read_all<R: Read>(input: &mut R, buffer: &mut [u8]) -> io::Result<usize>
    ensures { IfOk result (λ n. n ≤ length buffer.old) }
{
    let mut len = 0;
    // Each turn reads a byte or more, so there are no more turns than bytes.
    for _ in 0..buffer.len() {
        let n = input.read(&mut buffer[len..])?;
        if n == 0 {
            break;
        }
        len += n;
    }
    Ok(len)
}

// Runs the script and prints the answers.
pub fn serve<B: Bell + Drop>(rt: &HostRuntime) -> io::Result<()> {
    // Fixed memory: both buffers stand here, with how much of each is used beside it.
    // One byte more than a script may have tells that it is too long.
    let mut script = [0; LONGEST + 1];
    let mut out = [0; OUT];
    let len = read_all(&mut rt.stdin(), &mut script)?;
    let written = script::report::<B>(&script[0..len], &mut out);
    rt.write_all(&out[0..written])
}
