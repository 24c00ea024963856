// What each call of a part returns, as an answer. Places are `usize`, and numbers `u64`.
ghost use Rattle.std.specs.Prelude.{◌≡◌, MatchResult};
ghost use Rattle.stations.specs.declared.answer.Answer.TheVariants.{Place, Number, Refused};
ghost use Rattle.stations.specs.Steps.{no_value, place_or_none, polling, departing, meeting, attending, yes_or_no};

use super::answer::Answer;
use bells::Refusal;
use phaser::{Attended, Departed, Met, Polled};

// A refusal, or what the accepted call tells.
impl<T: Into<Answer>> From<Result<T, Refusal>> for Answer {
    ghost from_gives = { λ outcome answer. MatchResult outcome (λ value. T.converts value answer) (λ refusal. answer ≡ Refused refusal) };

    fn from(outcome: Result<T, Refusal>) -> Answer {
        match outcome {
            Ok(value) => value.into(),
            Err(refusal) => Answer::Refused(refusal),
        }
    }
}

impl From<Refusal> for Answer {
    ghost from_gives = { λ refusal answer. answer ≡ Refused refusal };

    fn from(refusal: Refusal) -> Answer {
        Answer::Refused(refusal)
    }
}

// Nothing to tell.
impl From<()> for Answer {
    ghost from_gives = { λ nothing answer. answer ≡ no_value nothing };

    fn from(_nothing: ()) -> Answer {
        Answer::Ok
    }
}

// A new place.
impl From<usize> for Answer {
    ghost from_gives = { λ place answer. answer ≡ Place place };

    fn from(place: usize) -> Answer {
        Answer::Place(place)
    }
}

// The number that was asked for, or the phase arrived in.
impl From<u64> for Answer {
    ghost from_gives = { λ number answer. answer ≡ Number number };

    fn from(number: u64) -> Answer {
        Answer::Number(number)
    }
}

// What was asked with yes or no.
impl From<bool> for Answer {
    ghost from_gives = { λ yes answer. answer ≡ yes_or_no yes };

    fn from(yes: bool) -> Answer {
        if yes { Answer::Yes } else { Answer::No }
    }
}

// The place of the batch's next member, if one remained.
impl From<Option<usize>> for Answer {
    ghost from_gives = { λ next answer. answer ≡ place_or_none next };

    fn from(next: Option<usize>) -> Answer {
        next.map_or(Answer::None, Answer::Place)
    }
}

// How a wait for a phase stands.
impl From<Polled> for Answer {
    ghost from_gives = { λ polled answer. answer ≡ polling polled };

    fn from(polled: Polled) -> Answer {
        match polled {
            Polled::Ready(phase) => Answer::Ready(phase),
            Polled::Closed => Answer::Closed,
            Polled::Parked => Answer::Parked,
        }
    }
}

// The phase that was left, if open.
impl From<Departed> for Answer {
    ghost from_gives = { λ departed answer. answer ≡ departing departed };

    fn from(departed: Departed) -> Answer {
        match departed {
            Departed::Left(phase) => Answer::Number(phase),
            Departed::Closed => Answer::Closed,
        }
    }
}

// Whether this meeting leads.
impl From<Met> for Answer {
    ghost from_gives = { λ met answer. answer ≡ meeting met };

    fn from(met: Met) -> Answer {
        match met {
            Met::Leader => Answer::Leader,
            Met::Parked(place) => Answer::ParkedAt(place),
        }
    }
}

// How a wait for the others stands.
impl From<Attended> for Answer {
    ghost from_gives = { λ attended answer. answer ≡ attending attended };

    fn from(attended: Attended) -> Answer {
        match attended {
            Attended::Done => Answer::Done,
            Attended::Parked => Answer::Parked,
        }
    }
}
