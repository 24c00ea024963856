// A bell that keeps a flag for each of N tasks.
ghost use Rattle.std.specs.Prelude.{◌≡◌, length};
ghost use Rattle.bells.specs.Due.{flagged};
ghost use Rattle.bells.specs.Flags.{flagged_within};

use super::bell::Bell;
use std::mem;

// No `impl Model`: the trait's law would then speak of every list of flags, of whatever length.
#[derive(Drop)]
pub struct Flags<const N: usize> {
    raised: [bool; N],
    ghost sized: { length raised ≡ N },
}

impl<const N: usize> Bell for Flags<N> {
    const KNOWN: usize = N;

    ghost KNOWN = { N };

    ghost meaning = { λ f. flagged f.raised };

    ghost within = { λ f t due. flagged_within f.raised N t f.sized due };

    fn new() -> Flags<N> {
        Flags { raised: [false; N] }
    }

    // The trait's own would owe that N flags fit into memory.
    fn knows(task: usize) -> bool {
        task < N
    }

    fn ring(&mut self, task: usize) -> bool {
        if !Self::knows(task) {
            return false;
        }
        self.raised[task] = true;
        true
    }

    fn due(&self, task: usize) -> bool {
        Self::knows(task) && self.raised[task]
    }

    // A `for`, which becomes vector code: `filter` and `count` took five times as many instructions.
    fn tally(&self) -> usize {
        let mut count = 0;
        for raised in &self.raised {
            if *raised {
                count += 1;
            }
        }
        count
    }

    fn collect(&mut self, task: usize) -> bool {
        if !Self::knows(task) {
            return false;
        }
        mem::replace(&mut self.raised[task], false)
    }
}
