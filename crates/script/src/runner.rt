// The run of a script: its calls made on a station, one after another, and each answer written.
ghost use Rattle.std.specs.Prelude.{◌≡◌, ◌*◌, ◌≤◌, ◌<◌, ◌++◌, length};
ghost use Rattle.station.specs.Parts.{station_of};
ghost use Rattle.script.specs.Requests.{request};
ghost use Rattle.script.specs.Runs.{call_of, opening, opened_of, reply as replies, answers as telling, calls as calling, body as playing, ran, reported};
ghost use Rattle.script.specs.Left.{left};
ghost use Rattle.script.specs.Written.{heading, fault_line};
ghost use Rattle.script.specs.Writers.{Room, Appends};

use super::fault::Fault;
use super::lines::{LINE_ROOM, Lines};
use super::name::Name;
use super::request::Request;
use super::writer::Writer;
use bells::Bell;
use station::{Answer, Call, Station};

const FIRST_LINE: &[u8] = b"call place task value";

// The call that is asked for, unless it is to open a station. No `TryFrom`: a line that opens is no error.
fn call(request: Request) -> Option<Call>
    ensures { result ≡ call_of request }
{
    match request.name {
        Name::Open => None,
        Name::Close => Some(Call::Close),
        Name::Phase => Some(Call::Phase),
        Name::IsClosed => Some(Call::IsClosed),
        Name::Registered => Some(Call::Registered),
        Name::Arrived => Some(Call::Arrived),
        Name::Unarrived => Some(Call::Unarrived),
        Name::Generation => Some(Call::Generation),
        Name::Tally => Some(Call::Tally),
    }
}

// Makes the call that a line asks for.
fn reply<B: Bell>(station: &mut Station<B>, line: &[u8]) -> Result<Answer, Fault>
    ensures { (result, station_of B.meaning station.new) ≡ replies B.KNOWN line.now (station_of B.meaning station.old) }
{
    let request = Request::try_from(line)?;
    let call = call(request).ok_or(Fault::OpenOrder)?;
    Ok(station.perform(call))
}

// Answers the lines that are left, the third of the script and those after it, until one is at fault.
// The room stays a `requires`, and no fact of a struct: between a line that is taken and its answer it is another.
fn answers<B: Bell>(station: &mut Station<B>, script: Lines, writer: &mut Writer)
    requires { Room (36 * length (left script)) writer.old }
    ensures { Appends (telling B.KNOWN 3 (station_of B.meaning station.old) (left script.entry)) writer.old writer.new }
{
    for (i, line) in script.enumerate() {
        // `as`, since there is no `From<usize>` for `u64`.
        let number = i as u64 + 3;
        match reply(station, line) {
            Ok(answer) => writer.answer(number, answer),
            Err(fault) => {
                writer.fault(number, fault);
                return;
            }
        }
    }
}

// The station that the second line of a script opens.
fn open<B: Bell>(line: &[u8]) -> Result<Station<B>, Fault>
    ensures { opened_of B.meaning result ≡ opening (request line.now) }
{
    let request = Request::try_from(line)?;
    if request.name != Name::Open {
        return Err(Fault::OpenOrder);
    }
    // `as`, since the reading has tested that the number fits.
    Ok(Station::open(request.place as u32, request.value, 0))
}

// Answers the lines that are left, the second of the script and those after it.
fn calls<B: Bell + Drop>(mut script: Lines, writer: &mut Writer)
    requires { Room (36 * length (left script)) writer.old }
    ensures { Appends (calling B.KNOWN (left script.entry)) writer.old writer.new }
{
    let Some(line) = script.next() else {
        return;
    };
    match open::<B>(line) {
        Ok(mut station) => {
            writer.answer(2, Answer::Ok);
            answers(&mut station, script, writer);
        }
        Err(fault) => writer.fault(2, fault),
    }
}

// Answers the lines of a script, of which there is one at least.
fn play<B: Bell + Drop>(mut script: Lines, writer: &mut Writer)
    requires some { 0 < length (left script) }
    requires room { Room (36 * length (left script)) writer.old }
    ensures { Appends (heading ++ playing B.KNOWN (left script.entry)) writer.old writer.new }
{
    writer.heading();
    if script.next() == Some(FIRST_LINE) {
        calls::<B>(script, writer);
    } else {
        writer.fault(1, Fault::FirstLine);
    }
}

// Runs a script on a station with a new bell, writes the answers to the front of the buffer, and tells how many bytes
// they take: none, and nothing is written, where the script or the buffer does not fit.
// 0 and no Option then, since hosts in C are told so.
pub fn run<B: Bell + Drop>(script: &[u8], out: &mut [u8]) -> usize
    ensures text { (result, out.new) ≡ ran B.KNOWN script.now out.old }
    ensures within { result ≤ length out.old }
{
    let Some(lines) = Lines::fitting(script, out.len()) else {
        return 0;
    };
    let mut writer = Writer { out, len: 0 };
    play::<B>(lines, &mut writer);
    writer.len
}

// Tells that a script is not run.
fn refuse(writer: &mut Writer)
    requires { Room 36 writer.old }
    ensures { Appends (heading ++ fault_line 0 Fault.Unfit) writer.old writer.new }
{
    writer.heading();
    writer.fault(0, Fault::Unfit);
}

// What a program prints for a script: its answers, or where it is not run the heading and fault 14 of line 0. A buffer
// too small for that stays as it is, and 0 tells so, as of `run`.
pub fn report<B: Bell + Drop>(script: &[u8], out: &mut [u8]) -> usize
    ensures text { (result, out.new) ≡ reported B.KNOWN script.now out.old }
    ensures within { result ≤ length out.old }
{
    let room = out.len();
    let mut writer = Writer { out, len: 0 };
    match Lines::fitting(script, room) {
        Some(lines) => play::<B>(lines, &mut writer),
        None if room < LINE_ROOM => {}
        None => refuse(&mut writer),
    }
    writer.len
}
