// Runs a script on a station whose bell is a queue: a program for each bell, since `main` takes no type.
#![tactic(auto)]

use bells::Queue;
use std::io;

fn main(rt: HostRuntime) -> io::Result<()> {
    console::serve::<Queue>(&rt)
}
