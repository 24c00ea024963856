// Waits, and the entries of a waker set.

// The tables that waits stand in.
#[derive(Clone, Copy, PartialEq, Eq, Debug)]
pub enum WaitTable {
    Members,
    Watchers,
    Followers,
}

// A wait, known by its table and its place in that.
#[derive(Clone, Copy, PartialEq, Eq, Debug)]
pub struct Wait {
    pub table: WaitTable,
    pub place: usize,
}

// An entry of a set: whom to wake, and whose it is.
#[derive(Clone, Copy, PartialEq, Eq, Debug)]
pub struct Entry<W> {
    pub waker: W,
    pub owner: Wait,
}
