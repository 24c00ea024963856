// Followers of a barrier: they have met in a generation, and wait for it to be complete.
// A type beside `Watcher`, so that a table of the one is not handed for the other.

#[derive(Clone, Copy, PartialEq, Eq, Debug)]
pub struct Follower {
    pub generation: u64,
    // Always there; an `Option`, since registering takes what a wait remembers as one.
    pub slot: Option<usize>,
}
