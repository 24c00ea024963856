// How members go.
ghost use Rattle.std.specs.Prelude.{◌≡◌};
ghost use Rattle.bells.specs.Kind.{kind_of};
ghost use Rattle.phaser.specs.Members.{shed as sheds, departure, deregister as deregisters, leave as leaves};

use super::super::member::{Batch, Member};
use super::super::outcome::Departed;
use super::Phaser;
use arena::Arena;
use bells::{Bell, Refusal, Waker};

impl<W: Waker + Drop + Copy> Phaser<W> {
    // Withdraws all that remain of a batch.
    pub fn shed<const M: usize, B: Bell>(
        &mut self,
        batches: &mut Arena<Batch, M>,
        bell: &mut B,
        place: usize,
    ) -> Result<(), Refusal>
        ensures { (result, (self.new, batches.new, B.meaning bell.new)) ≡ sheds (kind_of B.KNOWN W.waking) place (self.old, batches.old, B.meaning bell.old) }
    {
        let Batch { remaining } = batches.get(place).ok_or(Refusal::Vacant)?;
        if remaining == 0 {
            let _ = batches.remove(place);
            return Ok(());
        }
        let counts = self.counts;
        if counts.unarrived < remaining {
            return Err(Refusal::Miscounted);
        }
        let _ = batches.remove(place);
        self.settle(
            bell,
            counts.registered - remaining,
            counts.unarrived - remaining,
        );
        Ok(())
    }

    // Withdraws a member, and frees its place. Begins as `arrive` does, and goes on otherwise: two lines, and no function of their own.
    pub fn leave<const M: usize, B: Bell>(
        &mut self,
        members: &mut Arena<Member, M>,
        bell: &mut B,
        place: usize,
    ) -> Result<(), Refusal>
        ensures { (result, (self.new, members.new, B.meaning bell.new)) ≡ leaves (kind_of B.KNOWN W.waking) place (self.old, members.old, B.meaning bell.old) }
    {
        let member = members.get(place).ok_or(Refusal::Vacant)?;
        if let Member::InFlight(_, _) = member {
            return Err(Refusal::InFlight);
        }
        let unarrived = self.counts.unarrived_after(member)?;
        let registered = self.counts.registered - 1;
        if registered < unarrived {
            return Err(Refusal::Miscounted);
        }
        let _ = members.remove(place);
        self.settle(bell, registered, unarrived);
        Ok(())
    }

    // The same, and answers the phase that was left, or that the phaser is closed.
    pub fn deregister<const M: usize, B: Bell>(
        &mut self,
        members: &mut Arena<Member, M>,
        bell: &mut B,
        place: usize,
    ) -> Result<Departed, Refusal>
        ensures { (result, (self.new, members.new, B.meaning bell.new)) ≡ deregisters (kind_of B.KNOWN W.waking) place (self.old, members.old, B.meaning bell.old) }
    {
        let departed = self.departure();
        self.leave(members, bell, place)?;
        Ok(departed)
    }

    fn departure(&self) -> Departed
        ensures { result ≡ departure self.now.tally }
    {
        if self.counts.closed {
            Departed::Closed
        } else {
            Departed::Left(self.counts.phase)
        }
    }
}
