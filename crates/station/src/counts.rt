// The phaser: its phase, how many members it has, and how many of them have not arrived in this phase.
// Named so, since a module may not have the name of a crate that is used.
ghost use Rattle.std.specs.Prelude.{◌≤◌};
ghost use Rattle.station.specs.Model as model;

mod calls;
mod questions;

use std::marker::Model;

#[derive(Drop)]
pub struct Phaser {
    phase: u64,
    closed: bool,
    registered: u64,
    unarrived: u64,
}

impl Model for Phaser {
    ghost Value = { model.Phaser };

    ghost view = { λ p. record { phase = p.phase; closed = p.closed; registered = p.registered; unarrived = p.unarrived } };

    ghost invariant = { λ p. p.unarrived ≤ p.registered };
}
