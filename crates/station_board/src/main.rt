// Runs a script on a station whose bell is a board: a program for each bell, since `main` takes no type.
#![tactic(auto)]

use bells::Board;
use std::io;

fn main(rt: HostRuntime) -> io::Result<()> {
    console::serve::<Board>(&rt)
}
