// How a station comes to be.
ghost use Rattle.std.specs.Prelude.{◌≡◌};
ghost use Rattle.stations.specs.Openings.{opened_of, opening as opens};

use super::super::opening::{Opening, SLOTS, Slots, table, waiters};
use super::Station;
use arena::{Entry, Slot};
use bells::{Bell, Refusal, Waker};
use phaser::{Barrier, Phaser};

impl<B: Bell, W: Waker + Drop + Copy> Station<B, W> {
    // Opens a station with nobody in it and nothing due, unless a size is outside the limits. The sets' slots come beside the tables':
    // an array over a type parameter, inside a struct that is handed on, owes a fact about its size.
    pub fn open(
        opening: Opening,
        slots: Slots,
        phaser_entries: [Slot<Entry<W>>; SLOTS],
        barrier_entries: [Slot<Entry<W>>; SLOTS],
    ) -> Result<Station<B, W>, Refusal>
        ensures { opened_of B.meaning result ≡ opens opening }
    {
        if !opening.fits() {
            return Err(Refusal::SizeOutside);
        }
        let phaser = Phaser::new(opening.phase, waiters(phaser_entries, opening.phaser_slots));
        let barrier = Barrier::new(
            opening.n,
            opening.generation,
            waiters(barrier_entries, opening.barrier_slots),
        );
        Ok(Station {
            phaser,
            barrier,
            members: table(slots.members, opening.members),
            batches: table(slots.batches, opening.batches),
            watchers: table(slots.watchers, opening.watchers),
            followers: table(slots.followers, opening.followers),
            bell: B::new(),
        })
    }
}
