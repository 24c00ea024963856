// What a phaser tells of itself.
ghost use Rattle.std.specs.Prelude.{◌≡◌};

use super::Phaser;

impl Phaser {
    pub fn phase(&self) -> u64
        ensures { result ≡ self.now.phase }
    {
        self.phase
    }

    pub fn is_closed(&self) -> bool
        ensures { result ≡ self.now.closed }
    {
        self.closed
    }

    pub fn registered(&self) -> u64
        ensures { result ≡ self.now.registered }
    {
        self.registered
    }

    pub fn unarrived(&self) -> u64
        ensures { result ≡ self.now.unarrived }
    {
        self.unarrived
    }
}
