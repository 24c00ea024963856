// Bells: which tasks are due.
ghost use Rattle.std.specs.Prelude.{◌≡◌, ℕ, ◌<◌, true, nat_lt};
ghost use Rattle.bells.specs.Due.{Due, is_due, none_due, rung, collected, how_many};

// A task is a number from 0, and a kind of bell knows the tasks below a number of its own.
// Ringing makes a known task due until it is collected.
pub trait Bell: Sized {
    // How many tasks the kind knows.
    const KNOWN: usize;

    // The same, for clauses.
    ghost KNOWN: { ℕ };

    // The tasks that are due.
    ghost meaning: { Self → Due };

    // A bell with nothing due.
    fn new() -> Self
        ensures { meaning result ≡ none_due };

    // Whether the kind knows the task.
    fn knows(task: usize) -> bool
        ensures { result ≡ nat_lt task KNOWN }
    {
        task < Self::KNOWN
    }

    // Makes the task due and answers yes, if it is known; else changes nothing and answers no.
    fn ring(&mut self, task: usize) -> bool
        ensures answer { result ≡ nat_lt task KNOWN }
        ensures after { meaning self.new ≡ rung KNOWN task (meaning self.old) };

    // Whether the task is due.
    fn due(&self, task: usize) -> bool
        ensures { result ≡ is_due (meaning self.now) task };

    // How many tasks are due.
    fn tally(&self) -> usize
        ensures { result ≡ how_many KNOWN (meaning self.now) };

    // Takes the task alone out, and answers whether it was due.
    fn collect(&mut self, task: usize) -> bool
        ensures answer { result ≡ is_due (meaning self.old) task }
        ensures after { meaning self.new ≡ collected task (meaning self.old) };

    // Only known tasks are due.
    ghost within: { (b : Self) (t : ℕ) → is_due (meaning b) t ≡ true → t < KNOWN };
}
