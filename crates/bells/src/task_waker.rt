// A waker that holds its task.
ghost use Rattle.std.specs.Prelude.{◌≡◌};
ghost use Rattle.bells.specs.WakerLaws.{task_waking};
ghost use Rattle.bells.specs.Wakers.{made_task};

use super::refusal::Refusal;
use super::waker::Waker;

#[derive(Clone, Copy, PartialEq, Eq, Debug)]
pub struct TaskWaker {
    task: u16,
}

// A waker of the task, unless it is above 65,535.
impl TryFrom<usize> for TaskWaker {
    type Error = Refusal;

    ghost try_from_gives = { λ task made. made ≡ made_task task };

    fn try_from(task: usize) -> Result<TaskWaker, Refusal> {
        let task = u16::try_from(task).map_err(|_| Refusal::UnknownTask)?;
        Ok(TaskWaker { task })
    }
}

impl Waker for TaskWaker {
    ghost waking = { task_waking };

    fn target(&self) -> usize {
        usize::from(self.task)
    }

    fn will_wake(&self, other: &TaskWaker) -> bool {
        self == other
    }
}
