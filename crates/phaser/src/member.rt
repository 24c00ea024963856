// Members of a phaser, and batches of them that are still to come.
ghost use Rattle.std.specs.Prelude.{◌≡◌};
ghost use Rattle.phaser.specs.Members.{is_arrived};

// The three states that the rules name.
#[derive(Clone, Copy, PartialEq, Eq, Debug)]
pub enum Member {
    // With nothing pending.
    Idle,
    // Arrived in a phase, of which no poll has told it yet that it is over.
    Pending(u64),
    // Likewise, and in flight: parked by a poll, with the slot that the wait remembers.
    InFlight(u64, usize),
}

impl Member {
    // Whether the member counts as arrived in the phase.
    pub(crate) fn is_arrived(self, phase: u64) -> bool
        ensures { result ≡ is_arrived phase self }
    {
        match self {
            Member::Idle => false,
            Member::Pending(pending) | Member::InFlight(pending, _) => pending == phase,
        }
    }
}

// Counted as members already; `next` makes them one by one.
#[derive(Clone, Copy, PartialEq, Eq, Debug)]
pub struct Batch {
    pub remaining: u64,
}
