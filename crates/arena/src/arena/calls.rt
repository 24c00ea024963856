// The calls that make and change an arena.
ghost use Rattle.std.specs.Prelude.{◌≡◌, ◌≤◌, length};
ghost use Rattle.arena.specs.Table.{opened, insert as inserts, remove as removes, replace as replaces, take_all as takes_all, emptied, filled, values, occupied};
ghost use Rattle.arena.specs.Sound.{Inserted, Replaced, Removed, Taken};

use super::super::slot::Slot;
use super::{Arena, Slots};
use bells::Refusal;

impl<T: Drop + Copy, const N: usize> Arena<T, N> {
    // An arena of that many vacant places in the slots, whatever these hold, unless there are fewer slots.
    pub fn new(slots: [Slot<T>; N], capacity: usize) -> Result<Arena<T, N>, Refusal>
        ensures { result ≡ opened N capacity }
    {
        if capacity > N {
            return Err(Refusal::SizeOutside);
        }
        Ok(Arena {
            slots: Slots { all: slots },
            capacity,
            head: None,
            used: 0,
            len: 0,
        })
    }

    // Puts the value into the place freed last, else into the lowest one unused since the last emptying, and answers the place.
    pub fn insert(&mut self, value: T) -> Result<usize, Refusal>
        ensures step { (result, self.new) ≡ inserts value self.old }
        ensures law { Inserted value self.old result self.new }
    {
        let place = self.vacancy().ok_or(Refusal::TableFull)?;
        match self.head {
            Some(_) => self.head = self.slots.at(place).next(),
            None => self.used += 1,
        }
        let _ = self.slots.replace(place, Slot::Occupied(value));
        self.len += 1;
        Ok(place)
    }

    // Replaces the value at an occupied place, and answers the old one.
    pub fn replace(&mut self, place: usize, new: T) -> Result<T, Refusal>
        ensures step { (result, self.new) ≡ replaces place new self.old }
        ensures law { Replaced place new self.old result self.new }
    {
        let old = self.get(place).ok_or(Refusal::Vacant)?;
        let _ = self.slots.replace(place, Slot::Occupied(new));
        Ok(old)
    }

    // Frees an occupied place, and answers its value.
    pub fn remove(&mut self, place: usize) -> Result<T, Refusal>
        ensures step { (result, self.new) ≡ removes place self.old }
        ensures law { Removed place self.old result self.new }
    {
        let old = self.get(place).ok_or(Refusal::Vacant)?;
        let _ = self.slots.replace(place, Slot::Vacant(self.head));
        self.head = Some(place);
        self.len -= 1;
        Ok(old)
    }

    // Vacates all places, in constant time.
    pub fn clear(&mut self)
        ensures { self.new ≡ emptied self.old }
    {
        self.head = None;
        self.used = 0;
        self.len = 0;
    }

    // Writes the values by rising place to the front of `into`. The count stays: tried with `zip` and `enumerate` over `filter_map`,
    // and a loop over a chain with a closure on `T` gets no proof.
    fn copy_out(&self, into: &mut [Option<T>])
        requires { occupied self.now.cells ≤ length into.old }
        ensures { into.new ≡ filled (values self.now.cells) into.old }
    {
        let mut count = 0;
        for slot in self.touched() {
            if let Some(value) = slot.value() {
                into[count] = Some(value);
                count += 1;
            }
        }
    }

    // Hands out the values by rising place into the front of `into`, answers how many they are, and vacates all places.
    // Refused where `into` is too short for them.
    pub fn take_all(&mut self, into: &mut [Option<T>]) -> Result<usize, Refusal>
        ensures step { (result, into.new, self.new) ≡ takes_all into.old self.old }
        ensures law { Taken self.old result self.new }
    {
        let count = self.len;
        if into.len() < count {
            return Err(Refusal::TableFull);
        }
        self.copy_out(into);
        self.clear();
        Ok(count)
    }
}
