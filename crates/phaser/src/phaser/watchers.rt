// How watchers wait for a phase to be over.
ghost use Rattle.std.specs.Prelude.{◌≡◌};
ghost use Rattle.bells.specs.Kind.{kind_of};
ghost use Rattle.phaser.specs.Watchers.{watch as watches, table_after, look as looks, unwatch as unwatches};

use super::super::outcome::{Outcome, Polled};
use super::super::watcher::Watcher;
use super::Phaser;
use arena::{Arena, Wait, WaitTable};
use bells::{Bell, Refusal, Waker};

impl Watcher {
    // A new watcher of a phase.
    pub fn watch<const M: usize>(
        watchers: &mut Arena<Watcher, M>,
        observed: u64,
    ) -> Result<usize, Refusal>
        ensures { (result, watchers.new) ≡ watches observed watchers.old }
    {
        watchers.insert(Watcher {
            observed,
            slot: None,
        })
    }

    // The table after a look: a watcher that need not wait is gone, and one that parked remembers its slot.
    fn after<const M: usize>(
        watchers: &mut Arena<Watcher, M>,
        place: usize,
        observed: u64,
        outcome: Outcome,
    )
        ensures { watchers.new ≡ table_after place observed outcome watchers.old }
    {
        match outcome {
            Outcome::Ready(_) | Outcome::Closed => {
                let _ = watchers.remove(place);
            }
            Outcome::Parked(slot) => {
                let slot = Some(slot);
                let _ = watchers.replace(place, Watcher { observed, slot });
            }
        }
    }
}

impl<W: Waker + Drop + Copy> Phaser<W> {
    // Waits until the observed phase is over; a watcher that need not wait is let go. The bell is taken for its kind alone,
    // which says whether the task is known.
    pub fn look<const M: usize, B: Bell>(
        &mut self,
        watchers: &mut Arena<Watcher, M>,
        _bell: &B,
        place: usize,
        waker: W,
    ) -> Result<Polled, Refusal>
        ensures { (result, (self.new, watchers.new)) ≡ looks (kind_of B.KNOWN W.waking) place waker (self.old, watchers.old) }
    {
        let watcher = watchers.get(place).ok_or(Refusal::Vacant)?;
        if !B::knows(waker.target()) {
            return Err(Refusal::UnknownTask);
        }
        let owner = Wait {
            table: WaitTable::Watchers,
            place,
        };
        let outcome = self.complete(watcher.observed, watcher.slot, owner, waker)?;
        Watcher::after(watchers, place, watcher.observed, outcome);
        Ok(Polled::from(outcome))
    }

    // Lets a watcher go.
    pub fn unwatch<const M: usize>(
        &mut self,
        watchers: &mut Arena<Watcher, M>,
        place: usize,
    ) -> Result<(), Refusal>
        ensures { (result, (self.new, watchers.new)) ≡ unwatches place (self.old, watchers.old) }
    {
        let watcher = watchers.get(place).ok_or(Refusal::Vacant)?;
        let owner = Wait {
            table: WaitTable::Watchers,
            place,
        };
        let _ = self.waiters.unregister(watcher.slot, owner);
        let _ = watchers.remove(place);
        Ok(())
    }
}
