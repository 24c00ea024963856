// What every station keeps.
ghost use Rattle.std.specs.Prelude.{◌≡◌};
ghost use Rattle.arena.specs.Table.{occupied};
ghost use Rattle.stations.specs.Kept.{Kept};
ghost use Rattle.stations.specs.Model.{station_of};

use super::Station;
use bells::{Bell, Waker};

impl<B: Bell, W: Waker + Drop + Copy> Station<B, W> {
    // How many members have places. Whoever holds a station sees the models of its parts alone, and learns here what these keep: each part
    // is asked for it.
    pub fn members(&self) -> usize
        ensures count { result ≡ occupied (station_of B.meaning self.now).members.cells }
        ensures kept { Kept (station_of B.meaning self.now) }
    {
        let _ = (self.phaser.arrived(), self.phaser.unarrived());
        let _ = self.barrier.generation();
        let _ = (self.phaser.waiting(), self.barrier.waiting());
        let _ = (self.batches.len(), self.watchers.len());
        let _ = self.followers.len();
        self.members.len()
    }
}
