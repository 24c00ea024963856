// The board: a bell that keeps a flag for each of 4,096 tasks.

use super::flags::Flags;

pub type Board = Flags<4096>;
