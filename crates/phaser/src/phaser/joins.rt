// How members come: one at a time, or as a batch that is taken apart later.
ghost use Rattle.std.specs.Prelude.{◌≡◌};
ghost use Rattle.phaser.specs.Members.{admit as admits, register_one, register as registers, next as nexts};

use super::super::member::{Batch, Member};
use super::Phaser;
use arena::Arena;
use bells::{Refusal, Waker};

impl<W: Waker + Drop + Copy> Phaser<W> {
    // Puts a value into its table, and counts so many members more.
    fn admit<T: Drop + Copy, const M: usize>(
        &mut self,
        table: &mut Arena<T, M>,
        value: T,
        parties: u64,
    ) -> Result<usize, Refusal>
        ensures { (result, (self.new, table.new)) ≡ admits parties value (self.old, table.old) }
    {
        let counts = &mut self.counts;
        if counts.closed {
            return Err(Refusal::Closed);
        }
        let registered = counts
            .registered
            .checked_add(parties)
            .ok_or(Refusal::CountOverflow)?;
        let place = table.insert(value)?;
        counts.registered = registered;
        counts.unarrived += parties;
        Ok(place)
    }

    // One member more, with nothing pending.
    pub fn register_one<const M: usize>(
        &mut self,
        members: &mut Arena<Member, M>,
    ) -> Result<usize, Refusal>
        ensures { (result, (self.new, members.new)) ≡ register_one (self.old, members.old) }
    {
        self.admit(members, Member::Idle, 1)
    }

    // So many members more, as a batch.
    pub fn register<const M: usize>(
        &mut self,
        batches: &mut Arena<Batch, M>,
        parties: u64,
    ) -> Result<usize, Refusal>
        ensures { (result, (self.new, batches.new)) ≡ registers parties (self.old, batches.old) }
    {
        self.admit(batches, Batch { remaining: parties }, parties)
    }
}

impl Batch {
    // Makes a member of one that remains; the phaser has counted it already.
    pub fn next<const N: usize, const M: usize>(
        batches: &mut Arena<Batch, N>,
        members: &mut Arena<Member, M>,
        place: usize,
    ) -> Result<Option<usize>, Refusal>
        ensures { (result, (batches.new, members.new)) ≡ nexts place (batches.old, members.old) }
    {
        let batch = batches.get(place).ok_or(Refusal::Vacant)?;
        if batch.remaining == 0 {
            return Ok(None);
        }
        let member = members.insert(Member::Idle)?;
        let remaining = batch.remaining - 1;
        let _ = batches.replace(place, Batch { remaining });
        Ok(Some(member))
    }
}
