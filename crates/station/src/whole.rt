// The parts of one station together, and every call on them.
ghost use Rattle.std.specs.Prelude.{◌≡◌, ◌≤◌};
ghost use Rattle.station.specs.Parts.{station_of};
ghost use Rattle.station.specs.Rules.{opened, has_arrived};
ghost use Rattle.station.specs.Steps.{step};

use super::barrier::Barrier;
use super::call::Call;
use super::counts::Phaser;
use bells::Bell;
use stations::Answer;

// No `impl Model`: its value would hold a function, the bell's meaning, which has no code.
#[derive(Drop)]
pub struct Station<B> {
    phaser: Phaser,
    barrier: Barrier,
    bell: B,
}

impl<B: Bell> Station<B> {
    // A station with a barrier of n hosts, at a phase and a generation, and a new bell.
    pub fn open(n: u32, phase: u64, generation: u64) -> Station<B>
        ensures { station_of B.meaning result ≡ opened n phase generation }
    {
        Station {
            phaser: Phaser::new(phase),
            barrier: Barrier::new(n, generation),
            bell: B::new(),
        }
    }

    // Of those registered, how many have arrived: no more than there are, as of every station.
    pub fn arrived(&self) -> u64
        ensures count { result ≡ has_arrived (station_of B.meaning self.now).phaser }
        ensures within { (station_of B.meaning self.now).phaser.unarrived ≤ (station_of B.meaning self.now).phaser.registered }
    {
        self.phaser.arrived()
    }

    pub fn perform(&mut self, call: Call) -> Answer
        ensures { (result, station_of B.meaning self.new) ≡ step B.KNOWN call (station_of B.meaning self.old) }
    {
        match call {
            Call::Close => Answer::from(self.phaser.close()),
            Call::Phase => Answer::from(self.phaser.phase()),
            Call::IsClosed => Answer::from(self.phaser.is_closed()),
            Call::Registered => Answer::from(self.phaser.registered()),
            Call::Arrived => Answer::from(self.phaser.arrived()),
            Call::Unarrived => Answer::from(self.phaser.unarrived()),
            Call::Generation => Answer::from(self.barrier.generation()),
            // `as`, since there is no `From<usize>` for `u64`.
            Call::Tally => Answer::Number(self.bell.tally() as u64),
        }
    }
}
