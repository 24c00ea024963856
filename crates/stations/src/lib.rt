// Stations: a phaser, a barrier, their tables and a bell as one value, which performs calls.
#![tactic(auto)]

mod answer;
mod call;
mod opening;
mod tell;
mod whole;

pub use answer::Answer;
pub use call::Call;
pub use opening::{Opening, Slots};
pub use whole::Station;
