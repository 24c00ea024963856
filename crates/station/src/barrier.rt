// The barrier: how many hosts meet, the generation that they make up, and how many have met in it.
// Beside the one of the crate `phaser`, which holds a set of waiters, for which the small station has no slots.
ghost use Rattle.std.specs.Prelude.{◌≡◌};
ghost use Rattle.station.specs.Model as model;
ghost use Rattle.station.specs.Rules.{new_barrier};

use std::marker::Model;

#[derive(Drop)]
pub struct Barrier {
    n: u32,
    generation: u64,
    arrived: u32,
}

impl Model for Barrier {
    ghost Value = { model.Barrier };

    ghost view = { λ b. record { n = b.n; generation = b.generation; arrived = b.arrived } };
}

impl Barrier {
    // A barrier of n hosts at which none has met.
    pub fn new(n: u32, generation: u64) -> Barrier
        ensures { result ≡ new_barrier n generation }
    {
        Barrier {
            n,
            generation,
            arrived: 0,
        }
    }

    pub fn generation(&self) -> u64
        ensures { result ≡ self.now.generation }
    {
        self.generation
    }
}
