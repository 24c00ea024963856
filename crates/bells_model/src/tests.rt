// Each kind at work: the bells beside a plain list of due tasks, the wakers at the limits of their ranges.
ghost use Rattle.std.specs.Prelude.{◌<◌, length, IfSome};

use super::{ByteWaker, Lamp};
use bells::{Bell, Board, Queue, Refusal, TaskWaker, VcpuWaker, Waker};
use std::alloc::Global;
use std::process::Abort;
use std::test::Fail;

const STEPS: usize = 400;

// Tasks on both sides of what each kind knows.
const TASKS: [usize; 16] = [
    0,
    1,
    2,
    3,
    511,
    1021,
    1022,
    1023,
    1024,
    1025,
    4094,
    4095,
    4096,
    4097,
    65_535,
    usize::MAX,
];

// The next of a row of numbers that looks random.
fn stirred(seed: u64) -> u64 {
    seed.wrapping_mul(6364136223846793005)
        .wrapping_add(1442695040888963407)
}

fn position(due: &[usize], task: usize) -> Option<usize>
    ensures { IfSome result (λ i. i < length due.now) }
{
    due.iter().position(|other| *other == task)
}

// One ring of the bell and of the list.
fn ring<B: Bell>(
    rt: &impl Abort,
    bell: &mut B,
    due: &mut Vec<usize>,
    task: usize,
) -> Result<(), Fail> {
    let known = task < B::KNOWN;
    assert!(rt; bell.ring(task) == known);
    if known && position(due.as_slice(), task).is_none() {
        due.push(task)?;
    }
    Ok(())
}

// One collection from the bell and from the list.
fn collect<B: Bell>(
    rt: &impl Abort,
    bell: &mut B,
    due: &mut Vec<usize>,
    task: usize,
) -> Result<(), Fail> {
    let place = position(due.as_slice(), task);
    if let Some(i) = place {
        due.remove(i);
    }
    assert!(rt; bell.collect(task) == place.is_some());
    Ok(())
}

fn same<B: Bell>(rt: &impl Abort, bell: &B, due: &[usize]) {
    assert!(rt; bell.tally() == due.len());
    for task in TASKS {
        assert!(rt; bell.due(task) == position(due, task).is_some());
    }
}

// Rings and collects as chance has it, and compares all that can be asked after each.
fn keeps_up<B: Bell + Drop>(rt: &impl Abort, heap: Global) -> Result<(), Fail> {
    let mut bell = B::new();
    let mut due = Vec::new(heap);
    let mut seed = 1;
    for _ in 0..STEPS {
        seed = stirred(seed);
        let task = TASKS[(seed >> 33) as usize % TASKS.len()];
        if (seed >> 40) % 3 == 0 {
            collect(rt, &mut bell, &mut due, task)?;
        } else {
            ring(rt, &mut bell, &mut due, task)?;
        }
        same(rt, &bell, due.as_slice());
    }
    Ok(())
}

#[test]
fn bells_keep_up_with_a_list(rt: HostRuntime) -> Result<(), Fail> {
    keeps_up::<Board>(&rt, rt.alloc())?;
    keeps_up::<Queue>(&rt, rt.alloc())?;
    keeps_up::<Lamp>(&rt, rt.alloc())
}

#[test]
fn kinds_know_their_tasks(rt: HostRuntime) {
    assert!(rt; Board::knows(4095) && !Board::knows(4096) && Board::KNOWN == 4096);
    assert!(rt; Queue::knows(1023) && !Queue::knows(1024) && Queue::KNOWN == 1024);
}

#[test]
fn a_queue_keeps_the_ring_order(rt: HostRuntime) {
    let mut queue = Queue::new();
    for task in [5, 3, 9, 5, 1024, 3] {
        queue.ring(task);
    }
    assert!(rt; queue.in_order() == [5, 3, 9].as_slice());
    queue.collect(3);
    assert!(rt; queue.in_order() == [5, 9].as_slice());
    queue.ring(3);
    assert!(rt; queue.in_order() == [5, 9, 3].as_slice());
}

#[test]
fn every_task_may_be_due_at_once(rt: HostRuntime) {
    let mut queue = Queue::new();
    let mut board = Board::new();
    for task in 0..4096 {
        assert!(rt; queue.ring(task) == Queue::knows(task) && board.ring(task));
    }
    assert!(rt; queue.tally() == 1024 && board.tally() == 4096);
}

// Whether a waker was refused as of an unknown task.
fn unknown<W: Waker + Drop>(made: Result<W, Refusal>) -> bool {
    made.err().map(u64::from) == Some(5)
}

// The target of a waker that was made.
fn target<W: Waker + Drop>(made: Result<W, Refusal>) -> Option<usize> {
    made.ok().map(|waker| waker.target())
}

#[test]
fn wakers_stay_in_their_ranges(rt: HostRuntime) {
    assert!(rt;
        target(TaskWaker::try_from(65_535)) == Some(65_535) && unknown(TaskWaker::try_from(65_536))
    );
    assert!(rt; target(VcpuWaker::new(511, 7, u32::MAX)) == Some(4095));
    assert!(rt; target(VcpuWaker::new(3, 2, 0)) == Some(26));
    assert!(rt; unknown(VcpuWaker::new(512, 0, 0)) && unknown(VcpuWaker::new(0, 8, 0)));
}

#[test]
fn wakers_tell_each_other_apart(rt: HostRuntime) -> Result<(), Fail> {
    let (Ok(a), Ok(b)) = (TaskWaker::try_from(7), TaskWaker::try_from(8)) else {
        return Err(Fail::new("a task waker was refused"));
    };
    assert!(rt; a.will_wake(&a) && !a.will_wake(&b));
    let (Ok(c), Ok(d)) = (VcpuWaker::new(0, 7, 1), VcpuWaker::new(0, 7, 2)) else {
        return Err(Fail::new("a vCPU waker was refused"));
    };
    assert!(rt; c.will_wake(&c) && !c.will_wake(&d) && c.target() == d.target());
    let e = ByteWaker { task: 255 };
    assert!(rt; e.will_wake(&e) && e.target() == 255);
    Ok(())
}
