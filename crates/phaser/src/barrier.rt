// The barrier: how many hosts meet, the generation that they make up, how many have met in it, and those who wait.

use arena::WakerSet;
use std::marker::Model;

mod calls;
mod questions;

#[derive(Drop)]
pub struct Barrier<W> {
    n: u32,
    generation: u64,
    arrived: u32,
    waiters: WakerSet<W>,
}

impl<W> Model for Barrier<W> {
    ghost use Rattle.std.specs.Prelude.{◌<◌, max};
    ghost use Rattle.phaser.specs.Model.{Barrier};

    ghost Value = { Barrier W };

    ghost view = { λ b. record { n = b.n; generation = b.generation; arrived = b.arrived; waiting = b.waiters } };

    // The last to meet begins the next generation.
    ghost invariant = { λ b. b.arrived < max b.n 1 };
}
