// The station: a phaser and a barrier with the tables of those who use them, and a bell.
ghost use Rattle.std.specs.Prelude.{◌≡◌};
ghost use Rattle.bells.specs.Kind.{kind_of};
ghost use Rattle.stations.specs.Model.{station_of};
ghost use Rattle.stations.specs.Steps.{step};

use super::answer::Answer;
use super::call::Call;
use super::opening::{BATCHES, FOLLOWERS, MEMBERS, WATCHERS};
use arena::Arena;
use bells::{Bell, Refusal, Waker};
use phaser::{Barrier, Batch, Follower, Member, Phaser, Watcher};

mod kept;
mod opened;

// No `impl Model`: a clause speaks of which tasks are due, a function of tasks, and a model's value holds no function.
#[derive(Drop)]
pub struct Station<B, W> {
    phaser: Phaser<W>,
    barrier: Barrier<W>,
    members: Arena<Member, MEMBERS>,
    batches: Arena<Batch, BATCHES>,
    watchers: Arena<Watcher, WATCHERS>,
    followers: Arena<Follower, FOLLOWERS>,
    bell: B,
}

impl<B: Bell, W: Waker + Drop + Copy> Station<B, W> {
    // Performs the call on the parts of this station, and answers it.
    pub fn perform(&mut self, call: Call<W>) -> Answer
        ensures { (result, station_of B.meaning self.new) ≡ step (kind_of B.KNOWN W.waking) call (station_of B.meaning self.old) }
    {
        let Station {
            phaser,
            barrier,
            members,
            batches,
            watchers,
            followers,
            bell,
        } = self;
        match call {
            Call::RegisterOne => phaser.register_one(members).into(),
            Call::Register(parties) => phaser.register(batches, parties).into(),
            Call::Next(place) => Batch::next(batches, members, place).into(),
            Call::Shed(place) => phaser.shed(batches, bell, place).into(),
            Call::Arrive(place) => phaser.arrive(members, bell, place).into(),
            Call::Poll(place, waker) => phaser.poll(members, bell, place, waker).into(),
            Call::Cancel(place) => phaser.cancel(members, place).into(),
            Call::Deregister(place) => phaser.deregister(members, bell, place).into(),
            Call::Drop(place) => phaser.leave(members, bell, place).into(),
            Call::Close => {
                phaser.close(bell);
                Answer::Ok
            }
            Call::Watch(observed) => Watcher::watch(watchers, observed).into(),
            Call::Look(place, waker) => phaser.look(watchers, bell, place, waker).into(),
            Call::Unwatch(place) => phaser.unwatch(watchers, place).into(),
            Call::Collect(task) if !B::knows(task) => Refusal::UnknownTask.into(),
            Call::Collect(task) => bell.collect(task).into(),
            Call::Phase => phaser.phase().into(),
            Call::IsClosed => phaser.is_closed().into(),
            Call::Registered => phaser.registered().into(),
            Call::Arrived => phaser.arrived().into(),
            Call::Unarrived => phaser.unarrived().into(),
            Call::Generation => barrier.generation().into(),
            // `as`, since there is no `From<usize>` for `u64`; and a tally is no place.
            Call::Tally => Answer::Number(bell.tally() as u64),
            Call::Meet(waker) => barrier.meet(followers, bell, waker).into(),
            Call::Attend(place, waker) => barrier.attend(followers, bell, place, waker).into(),
        }
    }
}
