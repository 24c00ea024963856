// What an arena tells.
ghost use Rattle.std.specs.Prelude.{◌≡◌, ◌≤◌, length, filter_map};
ghost use Rattle.arena.specs.Cells.{content};
ghost use Rattle.arena.specs.Table.{get as gets, values, occupied, vacancy};
ghost use Rattle.arena.specs.Sound.{Sound, Complete};

use super::super::slot::Slot;
use super::Arena;

impl<T: Drop + Copy, const N: usize> Arena<T, N> {
    // How many places are occupied. There are no more places than slots.
    pub fn len(&self) -> usize
        ensures count { result ≡ occupied self.now.cells }
        ensures fits { length self.now.cells ≤ N }
        ensures sound { Sound self.now }
        ensures complete { Complete self.now }
    {
        self.len
    }

    // The places that were used since the last emptying are those below this.
    pub fn used(&self) -> usize
        ensures is { result ≡ self.now.used }
        ensures within { result ≤ length self.now.cells }
    {
        self.used
    }

    // The slots of those places.
    pub(crate) fn touched(&self) -> &[Slot<T>]
        ensures { filter_map content result.now ≡ values self.now.cells }
    {
        &self.slots.all[..self.used]
    }

    // The value at the place, if that is occupied.
    pub fn get(&self, place: usize) -> Option<T>
        ensures { result ≡ gets place self.now }
    {
        self.slots.all[..self.used].get(place)?.value()
    }

    // The place that the next value takes, unless all are occupied. A `match`: with `or` and `then_some` an insertion took up to three
    // quarters more instructions.
    pub fn vacancy(&self) -> Option<usize>
        ensures { result ≡ vacancy self.now }
    {
        match self.head {
            Some(place) => Some(place),
            None if self.used < self.capacity => Some(self.used),
            None => None,
        }
    }
}
