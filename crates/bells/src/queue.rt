// The queue: a bell that keeps the due ones of 1,024 tasks in the order in which they were rung.
ghost use Rattle.std.specs.Prelude.{◌≡◌, ℕ, true, [], length, nat_lt};
ghost use Rattle.bells.specs.Due.{is_due, none_due, rung, collected, how_many, flagged};
ghost use Rattle.bells.specs.Orders.{among, once, queued, without};
ghost use Rattle.bells.specs.Flags.{flagged_within};

use super::bell::Bell;
use super::flags::Flags;
use arrayvec::ArrayVec;

const TASKS: usize = 1024;

// The line holds the due tasks; the flags tell at once who stands in it. No `impl Model`, as for the flags.
#[derive(Drop)]
pub struct Queue {
    flags: Flags<TASKS>,
    line: ArrayVec<usize, TASKS>,
    // A flag is raised exactly if its task stands in line, and none stands there twice.
    ghost matched: { (t : ℕ) → is_due (flagged flags.raised) t ≡ among line.items t },
    ghost single: { once line.items ≡ true },
    // So there is room for each task whose flag is down.
    ghost counted: { how_many 1024 (flagged flags.raised) ≡ length line.items },
}

// Takes a task that stands once in a line out of it, and the others keep their order. No `retain`, which moves them one by one.
fn take_out(line: &mut ArrayVec<usize, TASKS>, task: usize)
    requires single { once line.old.items ≡ true }
    requires stands { among line.old.items task ≡ true }
    ensures { line.new.items ≡ without task line.old.items }
{
    if let Some(place) = line.as_slice().iter().position(|other| *other == task) {
        line.remove(place);
    }
}

impl Queue {
    // The due tasks, the first rung first.
    pub fn in_order(&self) -> &[usize]
        ensures { result.now ≡ self.now.line.items }
    {
        self.line.as_slice()
    }
}

impl Bell for Queue {
    const KNOWN: usize = TASKS;

    ghost KNOWN = { 1024 };

    ghost meaning = { λ q. flagged q.flags.raised };

    ghost within = { λ q t due. flagged_within q.flags.raised 1024 t q.flags.sized due };

    fn new() -> Queue
        ensures none { flagged result.flags.raised ≡ none_due }
        ensures order { result.line.items ≡ [] }
    {
        Queue {
            flags: Flags::new(),
            line: ArrayVec::new(),
        }
    }

    // A task that was not due comes last in line.
    fn ring(&mut self, task: usize) -> bool
        ensures answer { result ≡ nat_lt task 1024 }
        ensures after { flagged self.new.flags.raised ≡ rung 1024 task (flagged self.old.flags.raised) }
        ensures order { self.new.line.items ≡ queued 1024 task self.old.line.items }
    {
        if !Self::knows(task) {
            return false;
        }
        if !self.flags.due(task) {
            self.flags.ring(task);
            self.line.push(task);
        }
        true
    }

    fn due(&self, task: usize) -> bool {
        self.flags.due(task)
    }

    fn tally(&self) -> usize {
        self.line.len()
    }

    // The others keep their order.
    fn collect(&mut self, task: usize) -> bool
        ensures answer { result ≡ is_due (flagged self.old.flags.raised) task }
        ensures after { flagged self.new.flags.raised ≡ collected task (flagged self.old.flags.raised) }
        ensures order { self.new.line.items ≡ without task self.old.line.items }
    {
        let was = self.flags.collect(task);
        if was {
            take_out(&mut self.line, task);
        }
        was
    }
}
