// What a barrier tells of itself.
ghost use Rattle.std.specs.Prelude.{◌≡◌, ◌<◌, ◌≤◌, length, max};
ghost use Rattle.arena.specs.Table.{occupied};
ghost use Rattle.arena.specs.Sound.{Sound, Complete};

use super::Barrier;
use bells::Waker;

impl<W: Waker + Drop + Copy> Barrier<W> {
    // Of those who make up a generation, one at least is still to meet.
    pub fn generation(&self) -> u64
        ensures is { result ≡ self.now.generation }
        ensures to_come { self.now.arrived < max self.now.n 1 }
    {
        self.generation
    }

    // How many wait for the others, and what the set of their wakers keeps.
    pub fn waiting(&self) -> usize
        ensures count { result ≡ occupied self.now.waiting.cells }
        ensures fits { length self.now.waiting.cells ≤ 1024 }
        ensures sound { Sound self.now.waiting }
        ensures complete { Complete self.now.waiting }
    {
        self.waiters.len()
    }
}
