// Why a call is refused.
ghost use Rattle.std.specs.Prelude.{◌≡◌};
ghost use Rattle.bells.specs.Refusals.{number_of};

// Each case is one reason, known to the outside by its number.
#[derive(Clone, Copy, PartialEq, Eq, Debug)]
pub enum Refusal {
    // The phaser is closed.
    Closed,
    // A count would exceed 2^64 - 1.
    CountOverflow,
    // All places of the table are occupied.
    TableFull,
    // The place is vacant or outside the table.
    Vacant,
    // The bell does not know the task, or a waker was to be made outside its ranges.
    UnknownTask,
    // The member is in flight.
    InFlight,
    // The wait would have to park, is not parked, and no slot is free.
    NoSlot,
    // The counts would break.
    Miscounted,
    // The last generation would complete.
    LastGeneration,
    // A size is outside the limits of opening.
    SizeOutside,
}

impl From<Refusal> for u64 {
    ghost from_gives = { λ refusal number. number ≡ number_of refusal };

    fn from(refusal: Refusal) -> u64 {
        match refusal {
            Refusal::Closed => 1,
            Refusal::CountOverflow => 2,
            Refusal::TableFull => 3,
            Refusal::Vacant => 4,
            Refusal::UnknownTask => 5,
            Refusal::InFlight => 6,
            Refusal::NoSlot => 7,
            Refusal::Miscounted => 8,
            Refusal::LastGeneration => 9,
            Refusal::SizeOutside => 10,
        }
    }
}
