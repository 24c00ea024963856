// A station: one phaser, one barrier and one bell.
// Beside `stations`, since scripts open no tables yet: it goes once they run on the whole station.
#![tactic(auto)]

mod barrier;
mod call;
mod counts;
mod whole;

pub use barrier::Barrier;
pub use call::Call;
pub use counts::Phaser;
pub use stations::Answer;
pub use whole::Station;
