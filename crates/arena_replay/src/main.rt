// Replays a recorded run of an arena. Each line of standard input is a call with its recorded answer; it is printed with this
// arena's answer in the recorded one's place, so a run that agrees is printed unchanged.
#![tactic(auto)]

mod answer;
mod call;

use answer::answer_call;
use arena::{Arena, Slot};
use call::Call;
use std::io;

const SLOTS: usize = 64;

// Below the number of slots, so that the capacity, and not the slots, bounds the places.
const CAPACITY: usize = 48;

fn replay(rt: &HostRuntime, arena: &mut Arena<usize, SLOTS>) -> io::Result<()> {
    for line in rt.lines(rt.alloc()) {
        let line = line?;
        match line.parse::<Call>() {
            Ok(call) => answer_call(rt, arena, call)?,
            Err(_) => println!(rt; "? {line}")?,
        }
    }
    Ok(())
}

fn main(rt: HostRuntime) -> io::Result<()> {
    match Arena::new([Slot::Vacant(None); SLOTS], CAPACITY) {
        Ok(mut arena) => replay(&rt, &mut arena),
        Err(_) => println!(rt; "no arena"),
    }
}
