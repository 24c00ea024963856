// What a station is opened with: its sizes, and the slots for its tables.
ghost use Rattle.std.specs.Prelude.{◌≡◌, ◌≤◌};
ghost use Rattle.arena.specs.Table.{fresh};
ghost use Rattle.stations.specs.Openings.{tables_fit, fits as fitting};

use arena::{Arena, Entry, Slot, WakerSet};
use bells::Waker;
use phaser::{Batch, Follower, Member, Watcher};

// The most places of each table, and the most slots of each set.
pub(crate) const MEMBERS: usize = 512;

pub(crate) const BATCHES: usize = 64;

pub(crate) const WATCHERS: usize = 512;

pub(crate) const FOLLOWERS: usize = 512;

pub(crate) const SLOTS: usize = 1024;

// How many hosts meet at the barrier, where both counters begin, and how many places each table and slots each set has.
#[derive(Clone, Copy, PartialEq, Eq, Debug)]
pub struct Opening {
    pub n: u32,
    pub phase: u64,
    pub generation: u64,
    pub members: usize,
    pub batches: usize,
    pub watchers: usize,
    pub followers: usize,
    pub phaser_slots: usize,
    pub barrier_slots: usize,
}

// As many slots for each table as the sizes allow at most; what they hold does not matter.
#[derive(Drop)]
pub struct Slots {
    pub members: [Slot<Member>; MEMBERS],
    pub batches: [Slot<Batch>; BATCHES],
    pub watchers: [Slot<Watcher>; WATCHERS],
    pub followers: [Slot<Follower>; FOLLOWERS],
}

impl Opening {
    fn tables_fit(self) -> bool
        ensures { result ≡ tables_fit self }
    {
        (1..=MEMBERS).contains(&self.members)
            && (1..=BATCHES).contains(&self.batches)
            && (1..=WATCHERS).contains(&self.watchers)
            && (1..=FOLLOWERS).contains(&self.followers)
    }

    // Whether the sizes are within the limits, and the sets have a slot for each wait.
    pub fn fits(self) -> bool
        ensures { result ≡ fitting self }
    {
        if !self.tables_fit() {
            return false;
        }
        let waits = self.members + self.watchers;
        (waits..=SLOTS).contains(&self.phaser_slots)
            && (self.followers..=SLOTS).contains(&self.barrier_slots)
    }
}

// A table of that many vacant places.
pub(crate) fn table<T: Drop + Copy, const N: usize>(
    slots: [Slot<T>; N],
    capacity: usize,
) -> Arena<T, N>
    requires { capacity ≤ N }
    ensures { result ≡ fresh capacity }
{
    Arena::new(slots, capacity).unwrap()
}

// A set of that many free slots.
pub(crate) fn waiters<W: Waker + Drop + Copy>(
    slots: [Slot<Entry<W>>; SLOTS],
    capacity: usize,
) -> WakerSet<W>
    requires { capacity ≤ 1024 }
    ensures { result ≡ fresh capacity }
{
    WakerSet::new(table(slots, capacity))
}
