// What a phaser tells of itself.
ghost use Rattle.std.specs.Prelude.{◌≡◌, ◌-◌, ◌<◌, ◌≤◌, false, length};
ghost use Rattle.arena.specs.Table.{occupied};
ghost use Rattle.arena.specs.Sound.{Sound, Complete};

use super::Phaser;
use bells::Waker;

impl<W: Waker + Drop + Copy> Phaser<W> {
    pub fn phase(&self) -> u64
        ensures { result ≡ self.now.tally.phase }
    {
        self.counts.phase
    }

    pub fn is_closed(&self) -> bool
        ensures { result ≡ self.now.tally.closed }
    {
        self.counts.closed
    }

    pub fn registered(&self) -> u64
        ensures { result ≡ self.now.tally.registered }
    {
        self.counts.registered
    }

    // Of those registered, how many have arrived in the present phase.
    pub fn arrived(&self) -> u64
        ensures count { result ≡ self.now.tally.registered - self.now.tally.unarrived }
        ensures within { self.now.tally.unarrived ≤ self.now.tally.registered }
    {
        let counts = self.counts;
        counts.registered - counts.unarrived
    }

    // Open with members, somebody is still to arrive.
    pub fn unarrived(&self) -> u64
        ensures count { result ≡ self.now.tally.unarrived }
        ensures awaited { self.now.tally.closed ≡ false → 0 < self.now.tally.registered → 0 < self.now.tally.unarrived }
    {
        self.counts.unarrived
    }

    // How many wait for the phase to be over, and what the set of their wakers keeps.
    pub fn waiting(&self) -> usize
        ensures count { result ≡ occupied self.now.waiting.cells }
        ensures fits { length self.now.waiting.cells ≤ 1024 }
        ensures sound { Sound self.now.waiting }
        ensures complete { Complete self.now.waiting }
    {
        self.waiters.len()
    }
}
