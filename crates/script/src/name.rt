// The names of calls, and what each call wants of its other fields.
ghost use Rattle.std.specs.Prelude.{◌≡◌, ok_or};
ghost use Rattle.script.specs.declared.fault.Fault.TheVariants as fault;
ghost use Rattle.script.specs.Names.{text_of, called, wants_of};

use super::fault::Fault;

// Names are no calls: calls to come take numbers from the other fields.
#[derive(Clone, Copy, PartialEq, Eq, Debug)]
pub enum Name {
    Open,
    Close,
    Phase,
    IsClosed,
    Registered,
    Arrived,
    Unarrived,
    Generation,
    Tally,
}

// A list, and no match on byte strings, which is proved way by way: some hundred ways for a dozen names.
const NAMES: [Name; 9] = [
    Name::Open,
    Name::Close,
    Name::Phase,
    Name::IsClosed,
    Name::Registered,
    Name::Arrived,
    Name::Unarrived,
    Name::Generation,
    Name::Tally,
];

// The largest number that a field may hold, or none where the call does not use the field.
#[derive(Clone, Copy, Default, PartialEq, Eq, Debug)]
pub struct Wants {
    pub place: Option<u64>,
    pub task: Option<u64>,
    pub value: Option<u64>,
}

impl Name {
    // No `Display`, which promises nothing of what it writes: clauses name these texts.
    pub fn text(self) -> &'static [u8]
        ensures { result.now ≡ text_of self }
    {
        match self {
            Name::Open => b"open",
            Name::Close => b"close",
            Name::Phase => b"phase",
            Name::IsClosed => b"is_closed",
            Name::Registered => b"registered",
            Name::Arrived => b"arrived",
            Name::Unarrived => b"unarrived",
            Name::Generation => b"generation",
            Name::Tally => b"tally",
        }
    }

    pub fn wants(self) -> Wants
        ensures { result ≡ wants_of self }
    {
        match self {
            Name::Open => Wants {
                place: Some(0xffff_ffff),
                value: Some(u64::MAX),
                ..Wants::default()
            },
            _ => Wants::default(),
        }
    }
}

// The call that is named so, if one is.
// A function of its own: with `ok_or` behind it, the look-up did not prove.
fn find(text: &[u8]) -> Option<Name>
    ensures { result ≡ called text.now }
{
    NAMES.iter().copied().find(|name| name.text() == text)
}

impl TryFrom<&[u8]> for Name {
    type Error = Fault;

    ghost try_from_gives = { λ text made. made ≡ ok_or (called text.now) fault.UnknownCall };

    fn try_from(text: &[u8]) -> Result<Name, Fault> {
        find(text).ok_or(Fault::UnknownCall)
    }
}
