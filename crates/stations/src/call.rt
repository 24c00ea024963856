// The calls that a station performs.

#[derive(Clone, Copy, PartialEq, Eq, Debug)]
pub enum Call<W> {
    // The members' calls, with a place where they act on one.
    RegisterOne,
    Register(u64),
    Next(usize),
    Shed(usize),
    Arrive(usize),
    Poll(usize, W),
    Cancel(usize),
    Deregister(usize),
    Drop(usize),
    Close,
    // The watchers' calls, the questions among them.
    Watch(u64),
    Look(usize, W),
    Unwatch(usize),
    Collect(usize),
    Phase,
    IsClosed,
    Registered,
    Arrived,
    Unarrived,
    Generation,
    Tally,
    // The barrier calls.
    Meet(W),
    Attend(usize, W),
}
