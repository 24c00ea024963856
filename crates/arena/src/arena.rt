// The arena: a table of values in slots that its maker provides.
ghost use Rattle.std.specs.Prelude.{◌≡◌, ◌<◌, slice_index_or, slice_set};

use super::slot::Slot;
use std::marker::Model;
use std::mem;

mod calls;
mod reads;

// The slots stand in a struct of their own: tried with the array of enums in `Arena` itself, which has a model, and the check gave no proof
// of the calls that name no slot.
#[derive(Drop)]
struct Slots<T, const N: usize> {
    all: [Slot<T>; N],
}

impl<T: Drop + Copy, const N: usize> Slots<T, N> {
    fn at(&self, place: usize) -> Slot<T>
        requires { place < N }
        ensures { result ≡ slice_index_or self.now.all place result }
    {
        self.all[place]
    }

    // Puts a slot into the place of another, and answers that.
    fn replace(&mut self, place: usize, slot: Slot<T>) -> Slot<T>
        requires { place < N }
        ensures value { result ≡ slice_index_or self.old.all place result }
        ensures after { self.new.all ≡ slice_set self.old.all place slot }
    {
        mem::replace(&mut self.all[place], slot)
    }
}

// Places are the slots below the capacity. From `head`, the place freed last, links lead through all vacant places below `used`;
// the slots from `used` on were not touched since the last emptying, so that emptying need not walk them.
// The slots and `used` are no `ArrayVec`: its `clear` walks over all slots.
#[derive(Drop)]
pub struct Arena<T, const N: usize> {
    slots: Slots<T, N>,
    capacity: usize,
    head: Option<usize>,
    used: usize,
    len: usize,
}

impl<T, const N: usize> Model for Arena<T, N> {
    ghost use Rattle.arena.specs.Table.{Table};

    ghost Value = { Table T };

    ghost use Rattle.arena.specs.Arenas.{table_of, Whole};

    ghost view = { table_of };

    ghost invariant = { Whole };
}
