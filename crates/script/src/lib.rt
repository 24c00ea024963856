// Scripts: a call on each line, read field by field; and the answer to each, written as a line.
#![tactic(auto)]

mod bytes;
mod fault;
mod field;
mod lines;
mod name;
mod request;
mod runner;
mod writer;

pub use fault::Fault;
pub use field::Field;
pub use lines::LONGEST;
pub use name::{Name, Wants};
pub use request::Request;
pub use runner::{report, run};
