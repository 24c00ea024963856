// The phaser: its counts, and the set of those who wait for its phase to move on.
ghost use Rattle.std.specs.Prelude.{◌≡◌, ◌-◌, ◌≤◌};
ghost use Rattle.bells.specs.Kind.{kind_of};
ghost use Rattle.phaser.specs.Rules.{new_phaser, counted, settle as settles, complete as completes, close as closes};

use super::counts::Counts;
use super::outcome::Outcome;
use arena::{Wait, WakerSet};
use bells::{Bell, Refusal, Waker};
use std::marker::Model;

mod arrivals;
mod joins;
mod leaves;
mod questions;
mod watchers;

#[derive(Drop)]
pub struct Phaser<W> {
    counts: Counts,
    waiters: WakerSet<W>,
}

impl<W> Model for Phaser<W> {
    ghost use Rattle.phaser.specs.Model.{Phaser, tally_of};

    ghost Value = { Phaser W };

    ghost view = { λ p. record { tally = tally_of p.counts; waiting = p.waiters } };
}

impl<W: Waker + Drop + Copy> Phaser<W> {
    // An open phaser with no members, at a phase.
    pub fn new(phase: u64, waiters: WakerSet<W>) -> Phaser<W>
        ensures { result ≡ new_phaser phase waiters }
    {
        let counts = Counts {
            phase,
            closed: false,
            registered: 0,
            unarrived: 0,
        };
        Phaser { counts, waiters }
    }

    // Sets the counts, and applies the advance rule.
    fn settle<B: Bell>(&mut self, bell: &mut B, registered: u64, unarrived: u64)
        requires { unarrived ≤ registered }
        ensures { (self.new, B.meaning bell.new) ≡ settles (kind_of B.KNOWN W.waking) (counted registered unarrived self.old) (B.meaning bell.old) }
    {
        let counts = &mut self.counts;
        counts.registered = registered;
        counts.unarrived = unarrived;
        if !counts.closed && unarrived == 0 {
            counts.phase = counts.phase.wrapping_add(1);
            counts.unarrived = registered;
            self.waiters.wake_all(bell);
        }
    }

    // Ready where the phase is another than the one observed, else closed where it is closed, else parked.
    fn complete(
        &mut self,
        observed: u64,
        remembered: Option<usize>,
        owner: Wait,
        waker: W,
    ) -> Result<Outcome, Refusal>
        ensures { (result, self.new) ≡ completes W.waking.wakes observed remembered owner waker self.old }
    {
        if self.counts.phase != observed {
            return Ok(Outcome::Ready(self.counts.phase));
        }
        if self.counts.closed {
            return Ok(Outcome::Closed);
        }
        let registered = self.waiters.register(remembered, owner, waker)?;
        Ok(Outcome::Parked(registered.slot))
    }

    // Closes, and wakes those who wait; a second time does nothing.
    pub fn close<B: Bell>(&mut self, bell: &mut B)
        ensures { (self.new, B.meaning bell.new) ≡ closes (kind_of B.KNOWN W.waking) self.old (B.meaning bell.old) }
    {
        if self.counts.closed {
            return;
        }
        self.counts.closed = true;
        self.waiters.wake_all(bell);
    }
}
