// A waker that holds a task below 256: like the task waker, but made outside the crate of the trait, to try its laws there.
ghost use Rattle.bells_model.specs.Bytes.{byte_waking};

use bells::Waker;

#[derive(Clone, Copy, PartialEq, Eq, Debug)]
pub struct ByteWaker {
    pub task: u8,
}

impl Waker for ByteWaker {
    ghost waking = { byte_waking };

    fn target(&self) -> usize {
        usize::from(self.task)
    }

    fn will_wake(&self, other: &ByteWaker) -> bool {
        self == other
    }
}
