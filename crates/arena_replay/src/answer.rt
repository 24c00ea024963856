// Calls on the arena, each printed with its answer.
use super::SLOTS;
use super::call::Call;
use arena::Arena;
use bells::Refusal;
use std::io;

fn print_answer(rt: &HostRuntime, call: Call, answer: Result<usize, Refusal>) -> io::Result<()> {
    match answer {
        Ok(number) => println!(rt; "{call} {number}"),
        Err(_) => println!(rt; "{call} refused"),
    }
}

fn take_all(rt: &HostRuntime, arena: &mut Arena<usize, SLOTS>, call: Call) -> io::Result<()> {
    let mut values = [None; SLOTS];
    if arena.take_all(&mut values).is_err() {
        return println!(rt; "{call} refused");
    }
    print!(rt; "{call}")?;
    for value in values.iter().flatten() {
        print!(rt; " {value}")?;
    }
    println!(rt; "")
}

pub fn answer_call(
    rt: &HostRuntime,
    arena: &mut Arena<usize, SLOTS>,
    call: Call,
) -> io::Result<()> {
    match call {
        Call::Insert(value) => print_answer(rt, call, arena.insert(value)),
        Call::Remove(place) => print_answer(rt, call, arena.remove(place)),
        Call::Get(place) => match arena.get(place) {
            Some(value) => println!(rt; "{call} {value}"),
            None => println!(rt; "{call} none"),
        },
        Call::TakeAll => take_all(rt, arena, call),
    }
}
