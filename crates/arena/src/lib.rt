// An arena over provided slots, and the batch and set of wakers that are built on it.
#![tactic(auto)]

mod arena;
mod batch;
mod set;
mod slot;
mod wait;

pub use arena::Arena;
pub use batch::WakerBatch;
pub use set::{Registered, WakerSet};
pub use slot::Slot;
pub use wait::{Entry, Wait, WaitTable};
