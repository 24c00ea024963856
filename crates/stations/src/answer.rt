// What a call answers.
ghost use Rattle.std.specs.Prelude.{◌≡◌};
ghost use Rattle.stations.specs.Answers.{word_of, value_of, Below64};

use bells::Refusal;

// Each case is a word with a value or none; to the outside it is known by these.
#[derive(Clone, Copy, PartialEq, Eq, Debug)]
pub enum Answer {
    // Accepted, with nothing to tell.
    Ok,
    // Accepted: the place of what was made, or the number that was asked for.
    Place(usize),
    Number(u64),
    // The observed phase is over: the present phase.
    Ready(u64),
    // The wait is parked; a barrier's new follower also learns its place.
    Parked,
    ParkedAt(usize),
    // The phaser is closed.
    Closed,
    // Nothing remains of the batch.
    None,
    // This meeting completed the generation.
    Leader,
    // The follower's generation is complete.
    Done,
    Yes,
    No,
    Refused(Refusal),
}

impl Answer {
    // No `Display`: the word is one of three fields of a line, copied into the caller's buffer, and `write!` promises no
    // success there.
    pub fn word(self) -> &'static [u8]
        ensures { result.now ≡ word_of self }
    {
        match self {
            Answer::Ok | Answer::Place(_) | Answer::Number(_) => b"ok",
            Answer::Ready(_) => b"ready",
            Answer::Parked | Answer::ParkedAt(_) => b"parked",
            Answer::Closed => b"closed",
            Answer::None => b"none",
            Answer::Leader => b"leader",
            Answer::Done => b"done",
            Answer::Yes => b"yes",
            Answer::No => b"no",
            Answer::Refused(_) => b"refused",
        }
    }

    // No `From`: a word and a value are one answer in two parts. `as`, since there is no `From<usize>` for `u64`.
    pub fn value(self) -> Option<u64>
        ensures value { result ≡ value_of self }
        ensures fits { Below64 result }
    {
        match self {
            Answer::Place(place) | Answer::ParkedAt(place) => Some(place as u64),
            Answer::Number(number) | Answer::Ready(number) => Some(number),
            Answer::Refused(refusal) => Some(u64::from(refusal)),
            _ => None,
        }
    }
}
