// What ends the run of a script.
ghost use Rattle.std.specs.Prelude.{◌≡◌};
ghost use Rattle.script.specs.Faults.{fault_number};

// Each case is known to the outside by its number.
#[derive(Clone, Copy, PartialEq, Eq, Debug)]
pub enum Fault {
    // The first line is not the heading of a script.
    FirstLine,
    // The line names no call.
    UnknownCall,
    // The line has not four fields, or a field is not what the call wants.
    Malformed,
    // The script is too long, does not end with a line feed, or its answers might not fit.
    Unfit,
    // The first call is not `open`, or a later one is.
    OpenOrder,
}

impl From<Fault> for u64 {
    ghost from_gives = { λ fault number. number ≡ fault_number fault };

    fn from(fault: Fault) -> u64 {
        match fault {
            Fault::FirstLine => 11,
            Fault::UnknownCall => 12,
            Fault::Malformed => 13,
            Fault::Unfit => 14,
            Fault::OpenOrder => 15,
        }
    }
}
