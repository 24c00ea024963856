// A further kind of bell and of waker, outside the crate that has the traits, and the runs of all kinds beside a plain list.
#![tactic(auto)]

mod byte_waker;
mod lamp;
#[cfg(test)]
mod tests;

pub use byte_waker::ByteWaker;
pub use lamp::Lamp;
