// Waker sets: an entry for each parked wait.
ghost use Rattle.std.specs.Prelude.{◌≡◌, ◌≤◌, length};
ghost use Rattle.arena.specs.Table.{occupied};
ghost use Rattle.arena.specs.Sound.{Sound, Complete};
ghost use Rattle.arena.specs.Wakers.{own as owns, register as registers, unregister as unregisters, wake_all as wakes_all, Parked, Left, Woken};

use super::arena::Arena;
use super::batch::{SPILL, WakerBatch};
use super::wait::{Entry, Wait};
use bells::{Bell, Refusal, Waker};
use std::marker::Model;

// As many waits are parked at once, at most.
const ENTRIES: usize = 1024;

#[derive(Drop)]
pub struct WakerSet<W> {
    entries: Arena<Entry<W>, ENTRIES>,
    // The batch means nothing between calls, and is held here to be at hand for a wake.
    batch: WakerBatch<W, SPILL>,
}

impl<W> Model for WakerSet<W> {
    ghost use Rattle.arena.specs.Table.{Table};
    ghost use Rattle.arena.specs.declared.wait.Entry.{Entry};

    ghost Value = { Table (Entry W) };

    ghost view = { λ s. s.entries };
}

// The slot that the wait is to remember, and the waker that its new one replaced.
#[derive(Clone, Copy, PartialEq, Eq, Debug)]
pub struct Registered<W> {
    pub slot: usize,
    pub replaced: Option<W>,
}

impl<W: Waker + Drop + Copy> WakerSet<W> {
    // A set with the arena's entries and slots.
    pub fn new(entries: Arena<Entry<W>, ENTRIES>) -> WakerSet<W>
        ensures { result ≡ entries }
    {
        WakerSet {
            entries,
            batch: WakerBatch::new([None; SPILL]),
        }
    }

    // How many waits are parked.
    pub fn len(&self) -> usize
        ensures count { result ≡ occupied self.now.cells }
        ensures fits { length self.now.cells ≤ 1024 }
        ensures sound { Sound self.now }
        ensures complete { Complete self.now }
    {
        self.entries.len()
    }

    // The waker of the wait, if it is parked. The slot that it remembers stands in its own table, and so comes beside whose it is.
    pub fn own(&self, remembered: Option<usize>, owner: Wait) -> Option<W>
        ensures { result ≡ owns remembered owner self.now }
    {
        let entry = self.entries.get(remembered?)?;
        (entry.owner == owner).then_some(entry.waker)
    }

    // Parks the wait, or renews the waker of one that is parked and answers the one before.
    // Where the two wake the same task, the one that stands stays.
    pub fn register(
        &mut self,
        remembered: Option<usize>,
        owner: Wait,
        waker: W,
    ) -> Result<Registered<W>, Refusal>
        ensures step { (result, self.new) ≡ registers W.waking.wakes remembered owner waker self.old }
        ensures law { Parked W.waking.target remembered owner waker self.old result self.new }
    {
        let (Some(slot), Some(old)) = (remembered, self.own(remembered, owner)) else {
            // It is not parked yet.
            let slot = self
                .entries
                .insert(Entry { waker, owner })
                .map_err(|_| Refusal::NoSlot)?;
            return Ok(Registered {
                slot,
                replaced: None,
            });
        };
        let replaced = if old.will_wake(&waker) {
            None
        } else {
            let _ = self.entries.replace(slot, Entry { waker, owner });
            Some(old)
        };
        Ok(Registered { slot, replaced })
    }

    // Takes a parked wait's entry out, and answers its waker.
    pub fn unregister(&mut self, remembered: Option<usize>, owner: Wait) -> Option<W>
        ensures step { (result, self.new) ≡ unregisters remembered owner self.old }
        ensures law { Left remembered owner self.old result self.new }
    {
        let slot = remembered?;
        let old = self.own(Some(slot), owner)?;
        let _ = self.entries.remove(slot);
        Some(old)
    }

    // Takes all entries out and rings their tasks by rising slot, a batch at a time. An empty set stays as it is.
    pub fn wake_all<B: Bell>(&mut self, bell: &mut B)
        ensures step { (B.meaning bell.new, self.new) ≡ wakes_all W.waking.target B.KNOWN (B.meaning bell.old) self.old }
        ensures woken { Woken W.waking.target B.KNOWN (B.meaning bell.old) self.old (B.meaning bell.new) }
    {
        if self.len() == 0 {
            return;
        }
        self.batch.clear();
        self.batch.add_all(&self.entries, bell);
        self.batch.wake_all(bell);
        self.entries.clear();
    }
}
