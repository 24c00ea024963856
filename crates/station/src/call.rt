// The calls that a station performs.

#[derive(Clone, Copy, PartialEq, Eq, Debug)]
pub enum Call {
    Close,
    Phase,
    IsClosed,
    Registered,
    Arrived,
    Unarrived,
    Generation,
    Tally,
}
