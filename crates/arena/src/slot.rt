// A slot of an arena: a value, or a link to the vacant slot freed before it.
ghost use Rattle.std.specs.Prelude.{◌≡◌};
ghost use Rattle.arena.specs.Cells.{content, link};

// A link is the number of a place: all memory is fixed, so there is nothing to point to.
#[derive(Clone, Copy, PartialEq, Eq, Debug)]
pub enum Slot<T> {
    Occupied(T),
    Vacant(Option<usize>),
}

impl<T: Copy> Slot<T> {
    // The value in the slot.
    pub(crate) fn value(&self) -> Option<T>
        ensures { result ≡ content self.now }
    {
        match self {
            Slot::Occupied(value) => Some(*value),
            Slot::Vacant(_) => None,
        }
    }

    // The link in the slot.
    pub(crate) fn next(&self) -> Option<usize>
        ensures { result ≡ link self.now }
    {
        match self {
            Slot::Occupied(_) => None,
            Slot::Vacant(next) => *next,
        }
    }
}
