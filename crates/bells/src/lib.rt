// Bells, wakers and refusals: what the tables and calls of a station rest on.
#![tactic(auto)]

mod bell;
mod board;
mod flags;
mod queue;
mod refusal;
mod task_waker;
mod vcpu_waker;
mod waker;

pub use bell::Bell;
pub use board::Board;
pub use flags::Flags;
pub use queue::Queue;
pub use refusal::Refusal;
pub use task_waker::TaskWaker;
pub use vcpu_waker::VcpuWaker;
pub use waker::Waker;
