// How members arrive, and wait for the others.
ghost use Rattle.std.specs.Prelude.{◌≡◌};
ghost use Rattle.bells.specs.Due.{Due};
ghost use Rattle.bells.specs.Kind.{kind_of};
ghost use Rattle.phaser.specs.Members.{arrive as arrives, first_poll as polls_first, polled_by, beside, poll as polls, cancel as cancels};
ghost use Rattle.phaser.specs.Rules.{wait_of, complete as completes};

use super::super::member::Member;
use super::super::outcome::{Outcome, Polled};
use super::Phaser;
use arena::{Arena, Wait, WaitTable};
use bells::{Bell, Refusal, Waker};

impl<W: Waker + Drop + Copy> Phaser<W> {
    // Arrives in the present phase, and answers it.
    pub fn arrive<const M: usize, B: Bell>(
        &mut self,
        members: &mut Arena<Member, M>,
        bell: &mut B,
        place: usize,
    ) -> Result<u64, Refusal>
        ensures { (result, (self.new, members.new, B.meaning bell.new)) ≡ arrives (kind_of B.KNOWN W.waking) place (self.old, members.old, B.meaning bell.old) }
    {
        let member = members.get(place).ok_or(Refusal::Vacant)?;
        if let Member::InFlight(_, _) = member {
            return Err(Refusal::InFlight);
        }
        let counts = self.counts;
        if counts.closed {
            return Err(Refusal::Closed);
        }
        let unarrived = counts.unarrived_after(member)?;
        let _ = members.replace(place, Member::Pending(counts.phase));
        self.settle(bell, counts.registered, unarrived);
        Ok(counts.phase)
    }

    // The poll of a member with nothing pending: it arrives, and then waits. Whoever would have to park and finds no slot has
    // not arrived.
    fn first_poll<B: Bell>(
        &mut self,
        bell: &mut B,
        place: usize,
        waker: W,
    ) -> Result<Outcome, Refusal>
        ensures { (result, (self.new, B.meaning bell.new)) ≡ polls_first (kind_of B.KNOWN W.waking) place waker (self.old, B.meaning bell.old) }
    {
        let counts = self.counts;
        if counts.closed {
            return Ok(Outcome::Closed);
        }
        if counts.unarrived == 0 {
            return Err(Refusal::Miscounted);
        }
        if counts.unarrived == 1 {
            self.settle(bell, counts.registered, 0);
            return Ok(Outcome::Ready(self.phase()));
        }
        let owner = Wait {
            table: WaitTable::Members,
            place,
        };
        let registered = self.waiters.register(None, owner, waker)?;
        self.counts.unarrived = counts.unarrived - 1;
        Ok(Outcome::Parked(registered.slot))
    }

    // The poll of a member that has arrived: it waits until that phase is over.
    fn poll_again<const M: usize>(
        &mut self,
        members: &mut Arena<Member, M>,
        place: usize,
        arrived: u64,
        remembered: Option<usize>,
        waker: W,
    ) -> Result<Polled, Refusal>
        ensures { (due : Due) → (result, (self.new, members.new, due)) ≡ polled_by place (Member.Pending arrived) arrived (self.old, members.old, due) (beside due (completes W.waking.wakes arrived remembered (wait_of WaitTable.Members place) waker self.old)) }
    {
        let owner = Wait {
            table: WaitTable::Members,
            place,
        };
        let outcome = self.complete(arrived, remembered, owner, waker)?;
        let after = outcome.member_after(Member::Pending(arrived), arrived);
        let _ = members.replace(place, after);
        Ok(Polled::from(outcome))
    }

    // Arrives if nothing is pending, and waits until the phase is over.
    pub fn poll<const M: usize, B: Bell>(
        &mut self,
        members: &mut Arena<Member, M>,
        bell: &mut B,
        place: usize,
        waker: W,
    ) -> Result<Polled, Refusal>
        ensures { (result, (self.new, members.new, B.meaning bell.new)) ≡ polls (kind_of B.KNOWN W.waking) place waker (self.old, members.old, B.meaning bell.old) }
    {
        let member = members.get(place).ok_or(Refusal::Vacant)?;
        if !B::knows(waker.target()) {
            return Err(Refusal::UnknownTask);
        }
        match member {
            Member::Idle => {
                let phase = self.counts.phase;
                let outcome = self.first_poll(bell, place, waker)?;
                let _ = members.replace(place, outcome.member_after(Member::Idle, phase));
                Ok(Polled::from(outcome))
            }
            Member::Pending(phase) => self.poll_again(members, place, phase, None, waker),
            Member::InFlight(phase, slot) => {
                self.poll_again(members, place, phase, Some(slot), waker)
            }
        }
    }

    // Ends a member's flight; what is pending stays.
    pub fn cancel<const M: usize>(
        &mut self,
        members: &mut Arena<Member, M>,
        place: usize,
    ) -> Result<(), Refusal>
        ensures { (result, (self.new, members.new)) ≡ cancels place (self.old, members.old) }
    {
        let member = members.get(place).ok_or(Refusal::Vacant)?;
        if let Member::InFlight(phase, slot) = member {
            let owner = Wait {
                table: WaitTable::Members,
                place,
            };
            let _ = self.waiters.unregister(Some(slot), owner);
            let _ = members.replace(place, Member::Pending(phase));
        }
        Ok(())
    }
}
