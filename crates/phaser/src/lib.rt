// The phaser and the barrier: functions on the parts that they are handed, which may belong to different stations.
#![tactic(auto)]

mod barrier;
mod counts;
mod follower;
mod member;
mod outcome;
mod phaser;
mod watcher;

pub use barrier::Barrier;
pub use follower::Follower;
pub use member::{Batch, Member};
pub use outcome::{Attended, Departed, Met, Polled};
pub use phaser::Phaser;
pub use watcher::Watcher;
