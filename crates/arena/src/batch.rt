// A batch of wakers, in slots that its maker provides.
ghost use Rattle.std.specs.Prelude.{◌≡◌, ◌<◌, Some, slice_set};

use std::marker::Model;

mod calls;

// From so many wakers on, a batch is to be rung.
pub(crate) const SPILL: usize = 32;

// In a struct of its own, for the reason that stands at an arena's slots. A waker has no default value to stand in a slot that holds none, so
// they are options.
#[derive(Drop)]
struct Slots<W, const M: usize> {
    all: [Option<W>; M],
}

impl<W: Drop + Copy, const M: usize> Slots<W, M> {
    // Puts a waker into a slot.
    fn put(&mut self, place: usize, waker: W)
        requires { place < M }
        ensures { self.new.all ≡ slice_set self.old.all place (Some waker) }
    {
        self.all[place] = Some(waker);
    }
}

// The first `len` slots hold the wakers. They and `len` are no `ArrayVec`: its `clear` walks over all that it holds.
#[derive(Drop)]
pub struct WakerBatch<W, const M: usize> {
    slots: Slots<W, M>,
    len: usize,
}

impl<W, const M: usize> Model for WakerBatch<W, M> {
    ghost use Rattle.std.specs.Prelude.{◌≡◌, ◌≤◌, List, length, take};
    ghost use Rattle.arena.specs.Table.{values};

    ghost Value = { List W };

    ghost view = { λ b. values (take b.len b.slots.all) };

    ghost invariant = { λ b. (b.len ≤ M) × (length b.slots.all ≡ M) × (length (values (take b.len b.slots.all)) ≡ b.len) };
}
