// The calls of a barrier.
ghost use Rattle.std.specs.Prelude.{◌≡◌, false};
ghost use Rattle.bells.specs.Due.{Due};
ghost use Rattle.bells.specs.Kind.{kind_of};
ghost use Rattle.arena.specs.Table.{vacancy};
ghost use Rattle.phaser.specs.Barriers.{new_barrier, leads as leading, follow as follows, meet as meets, attend as attends};

use super::super::follower::Follower;
use super::super::outcome::{Attended, Met};
use super::Barrier;
use arena::{Arena, Wait, WaitTable, WakerSet};
use bells::{Bell, Refusal, Waker};

impl<W: Waker + Drop + Copy> Barrier<W> {
    // A barrier of n hosts at which none has met.
    pub fn new(n: u32, generation: u64, waiters: WakerSet<W>) -> Barrier<W>
        ensures { result ≡ new_barrier n generation waiters }
    {
        Barrier {
            n,
            generation,
            arrived: 0,
            waiters,
        }
    }

    // Whether one more makes the group complete; a group of nobody is one of one.
    fn leads(&self) -> bool
        ensures { result ≡ leading self.now }
    {
        let size = self.n.max(1);
        self.arrived + 1 == size
    }

    // Meets the others: the last one leads, and the others follow. The guard on the task is written out here as in `attend`,
    // `poll` and `look`: one function with `?` was tried, and left five goals open that the check finds alone so.
    pub fn meet<const M: usize, B: Bell>(
        &mut self,
        followers: &mut Arena<Follower, M>,
        bell: &mut B,
        waker: W,
    ) -> Result<Met, Refusal>
        ensures { (result, (self.new, followers.new, B.meaning bell.new)) ≡ meets (kind_of B.KNOWN W.waking) waker (self.old, followers.old, B.meaning bell.old) }
    {
        if !B::knows(waker.target()) {
            return Err(Refusal::UnknownTask);
        }
        if self.leads() {
            if self.generation == u64::MAX {
                return Err(Refusal::LastGeneration);
            }
            self.generation += 1;
            self.arrived = 0;
            self.waiters.wake_all(bell);
            return Ok(Met::Leader);
        }
        self.follow(followers, waker)
    }

    // Parks a follower of this generation.
    fn follow<const M: usize>(
        &mut self,
        followers: &mut Arena<Follower, M>,
        waker: W,
    ) -> Result<Met, Refusal>
        requires { leading self.old ≡ false }
        ensures { (due : Due) → (result, (self.new, followers.new, due)) ≡ follows W.waking.wakes waker (vacancy followers.old) (self.old, followers.old, due) }
    {
        let place = followers.vacancy().ok_or(Refusal::TableFull)?;
        let owner = Wait {
            table: WaitTable::Followers,
            place,
        };
        let registered = self.waiters.register(None, owner, waker)?;
        let _ = followers.insert(Follower {
            generation: self.generation,
            slot: Some(registered.slot),
        });
        self.arrived += 1;
        Ok(Met::Parked(place))
    }

    // Waits until the follower's generation is complete, and then lets it go. The bell is taken for its kind alone, which says
    // whether the task is known.
    pub fn attend<const M: usize, B: Bell>(
        &mut self,
        followers: &mut Arena<Follower, M>,
        _bell: &B,
        place: usize,
        waker: W,
    ) -> Result<Attended, Refusal>
        ensures { (result, (self.new, followers.new)) ≡ attends (kind_of B.KNOWN W.waking) place waker (self.old, followers.old) }
    {
        let Follower { generation, slot } = followers.get(place).ok_or(Refusal::Vacant)?;
        if !B::knows(waker.target()) {
            return Err(Refusal::UnknownTask);
        }
        if generation < self.generation {
            let _ = followers.remove(place);
            return Ok(Attended::Done);
        }
        let owner = Wait {
            table: WaitTable::Followers,
            place,
        };
        let registered = self.waiters.register(slot, owner, waker)?;
        let slot = Some(registered.slot);
        let _ = followers.replace(place, Follower { generation, slot });
        Ok(Attended::Parked)
    }
}
