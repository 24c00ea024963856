// The calls of a recorded run.
use std::fmt;
use std::str::FromStr;

#[derive(Clone, Copy)]
pub enum Call {
    Insert(usize),
    Get(usize),
    Remove(usize),
    TakeAll,
}

// Why a line is no call.
#[derive(Clone, Copy, PartialEq, Eq, Debug)]
pub enum CallError {
    // It begins with none of their names.
    Unknown,
    // The number behind the name is missing, or is none.
    Number,
}

fn number(word: Option<&str>) -> Result<usize, CallError> {
    word.ok_or(CallError::Number)?
        .parse()
        .map_err(|_| CallError::Number)
}

// The call that a line records. The answer behind it is not read, so that it cannot leak into the replay.
impl FromStr for Call {
    type Err = CallError;

    fn from_str(line: &str) -> Result<Call, CallError> {
        let mut words = line.split_whitespace();
        match words.next().ok_or(CallError::Unknown)? {
            "insert" => Ok(Call::Insert(number(words.next())?)),
            "get" => Ok(Call::Get(number(words.next())?)),
            "remove" => Ok(Call::Remove(number(words.next())?)),
            "take_all" => Ok(Call::TakeAll),
            _ => Err(CallError::Unknown),
        }
    }
}

// The call as a line records it, with no answer.
impl fmt::Display for Call {
    fn fmt<W: fmt::Write>(&self, f: &mut fmt::Formatter<W>) -> fmt::Result {
        match self {
            Call::Insert(value) => write!(f, "insert {value}"),
            Call::Get(place) => write!(f, "get {place}"),
            Call::Remove(place) => write!(f, "remove {place}"),
            Call::TakeAll => write!(f, "take_all"),
        }
    }
}
