// Watchers of a phaser: they wait for a phase to be over, and are counted nowhere.
// A type beside `Follower`, so that a table of the one is not handed for the other.

#[derive(Clone, Copy, PartialEq, Eq, Debug)]
pub struct Watcher {
    pub observed: u64,
    pub slot: Option<usize>,
}
