// How a call ended, where it was not refused.
ghost use Rattle.std.specs.Prelude.{◌≡◌};
ghost use Rattle.phaser.specs.Members.{told, member_after};

use super::member::Member;

// Enums of their own, and no `Option`, `Poll` or `bool`: a station makes its answer of each by its type,
// and `next` answers an `Option` already, `is_closed` a `bool`.

// The completion rule: the observed phase is over, or the phaser is closed, or the wait is parked in a slot.
#[derive(Clone, Copy, PartialEq, Eq, Debug)]
pub enum Outcome {
    Ready(u64),
    Closed,
    Parked(usize),
}

// What a poll or a look answers; the slot is nobody else's to know.
#[derive(Clone, Copy, PartialEq, Eq, Debug)]
pub enum Polled {
    Ready(u64),
    Closed,
    Parked,
}

// What a deregistration answers: the phase that was left, or that the phaser is closed.
#[derive(Clone, Copy, PartialEq, Eq, Debug)]
pub enum Departed {
    Left(u64),
    Closed,
}

// What a meeting answers; a follower learns its place.
#[derive(Clone, Copy, PartialEq, Eq, Debug)]
pub enum Met {
    Leader,
    Parked(usize),
}

#[derive(Clone, Copy, PartialEq, Eq, Debug)]
pub enum Attended {
    Done,
    Parked,
}

impl From<Outcome> for Polled {
    ghost from_gives = { λ outcome polled. polled ≡ told outcome };

    fn from(outcome: Outcome) -> Polled {
        match outcome {
            Outcome::Ready(phase) => Polled::Ready(phase),
            Outcome::Closed => Polled::Closed,
            Outcome::Parked(_) => Polled::Parked,
        }
    }
}

impl Outcome {
    // The member after a poll for a phase: ready clears what was pending, and closed leaves it.
    pub fn member_after(self, before: Member, phase: u64) -> Member
        ensures { result ≡ member_after before phase self }
    {
        match self {
            Outcome::Ready(_) => Member::Idle,
            Outcome::Closed => before,
            Outcome::Parked(slot) => Member::InFlight(phase, slot),
        }
    }
}
