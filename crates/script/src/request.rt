// What a line asks for.
ghost use Rattle.std.specs.Prelude.{◌≡◌, IfErr};
ghost use Rattle.std.specs.Result.{result_ok};
ghost use Rattle.script.specs.Fields.{field_of};
ghost use Rattle.script.specs.Requests.{taken_from, named_by, request};

use super::bytes;
use super::fault::Fault;
use super::field::Field;
use super::name::Name;

// A call with its numbers, 0 in the fields that it does not use.
// 0 and no Option, so that each call is one row of what it wants, and the reader has no code of its own for any.
#[derive(Clone, Copy, PartialEq, Eq, Debug)]
pub struct Request {
    pub name: Name,
    pub place: u64,
    pub task: u64,
    pub value: u64,
}

// The number in a field that is to hold one of at most `most`, or 0 for the dash in one that is not used.
fn taken(field: Field, most: Option<u64>) -> Result<u64, Fault>
    ensures { result ≡ taken_from most (field_of field.entry) }
{
    match (field, most) {
        (Field::Dash, None) => Ok(0),
        (Field::Number(n), Some(most)) if n <= most => Ok(n),
        _ => Err(Fault::Malformed),
    }
}

// The call that the first field names.
fn named(field: Field) -> Result<Name, Fault>
    ensures name { result_ok result ≡ named_by (field_of field.entry) }
    ensures fault { IfErr result (λ f. f ≡ Fault.UnknownCall) }
{
    match field {
        Field::Name(text) => Name::try_from(text),
        _ => Err(Fault::UnknownCall),
    }
}

impl TryFrom<&[u8]> for Request {
    type Error = Fault;

    ghost try_from_gives = { λ line made. made ≡ request line.now };

    fn try_from(line: &[u8]) -> Result<Request, Fault> {
        if bytes::count(line, bytes::SPACE) != 3 {
            return Err(Fault::Malformed);
        }
        // No `split` of std: each of its pieces comes as an Option, though the count has told that there are four.
        let (first, rest) = Field::read(line);
        let (place, rest) = Field::read(rest);
        let (task, rest) = Field::read(rest);
        let (value, _) = Field::read(rest);
        let name = named(first)?;
        let wants = name.wants();
        Ok(Request {
            name,
            place: taken(place, wants.place)?,
            task: taken(task, wants.task)?,
            value: taken(value, wants.value)?,
        })
    }
}
