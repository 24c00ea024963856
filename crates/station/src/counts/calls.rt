// The calls of a phaser, and what its counts come to.
ghost use Rattle.std.specs.Prelude.{◌≡◌, ◌≤◌};
ghost use Rattle.station.specs.Rules.{new_phaser, closes, has_arrived};

use super::Phaser;

impl Phaser {
    // An open phaser with no members.
    pub fn new(phase: u64) -> Phaser
        ensures { result ≡ new_phaser phase }
    {
        Phaser {
            phase,
            closed: false,
            registered: 0,
            unarrived: 0,
        }
    }

    // Closes the phaser; a second time does nothing.
    pub fn close(&mut self)
        ensures { self.new ≡ closes self.old }
    {
        self.closed = true;
    }

    // The members that have arrived in this phase.
    pub fn arrived(&self) -> u64
        ensures count { result ≡ has_arrived self.now }
        ensures within { self.now.unarrived ≤ self.now.registered }
    {
        self.registered - self.unarrived
    }
}
