// Wakers: which task to ring for whom.
ghost use Rattle.std.specs.Prelude.{◌≡◌};
ghost use Rattle.bells.specs.Kind.{Waking};

// A waker names one task, the same each time and in every copy.
pub trait Waker {
    // The task that it names, and what `will_wake` answers: yes only where both name one task, and no may be said there too.
    ghost waking: { Waking Self };

    // The task that it names.
    fn target(&self) -> usize
        ensures { result ≡ waking.target self.now };

    // Whether to wake the other is to wake this one. Each kind says it for itself, most by `==`: it may say no where it could say yes.
    fn will_wake(&self, other: &Self) -> bool
        ensures { result ≡ waking.wakes self.now other.now };
}
