//! Tests of the workers, of what no contract says: that they work beside each other, and steal.

ghost use Rattle.std.specs.Prelude.{◌≡◌, ◌*◌, ◌^◌};

use crate::{Job, run_tasks};
use apsp_io::{OpenGate, PairGate, TASK};
use apsp_model::Memory;
use std::sync::atomic::Ordering::SeqCst;
use std::sync::atomic::{AtomicBool, AtomicU64};
use std::test::Fail;

/// How often a held task looks at most.
const TURNS: u64 = 100_000_000;

/// The answer to a task is its square.
#[derive(Drop)]
struct Squares;

impl Job for Squares {
    type Out = u64;

    ghost count = { λ _. 2 ^ 31 };

    ghost gives = { λ _ task out. out ≡ task * task };

    fn run(&self, task: u32) -> Result<u64, Memory> {
        Ok(task as u64 * task as u64)
    }
}

#[test]
fn answers_stand_in_order(rt: HostRuntime) -> Result<(), Fail> {
    for workers in [1, 4, 64] {
        let five = run_tasks(&rt, rt.alloc(), workers, 5, &Squares, &OpenGate)?;
        assert_eq!(rt;
            five.answers(),
            [0, 1, 4, 9, 16].as_slice(),
            "{workers} workers"
        );
        let none = run_tasks(&rt, rt.alloc(), workers, 0, &Squares, &OpenGate)?;
        assert_eq!(rt; none.answers().len(), 0, "{workers} workers");
    }
    Ok(())
}

/// Two workers are inside a task at once, and one alone is not.
#[test]
fn two_workers_meet(rt: HostRuntime) -> Result<(), Fail> {
    for (workers, turns, meet) in [(2, TURNS, true), (1, 1000, false)] {
        let gate = PairGate::new(TASK, turns);
        let two = run_tasks(&rt, rt.alloc(), workers, 2, &Squares, &gate)?;
        assert_eq!(rt; two.answers(), [0, 1].as_slice(), "{workers} workers");
        assert_eq!(rt; gate.met(), meet, "{workers} workers");
    }
    Ok(())
}

/// Four tasks of two workers. One task holds its worker until so many of the tasks that are told are
/// answered. The first task of the other worker looks first until the held one has begun, so that
/// nothing of it is stolen before.
#[derive(Drop)]
struct Holding {
    held: u32,
    other: u32,
    told: [bool; 4],
    wanted: u64,
    begun: AtomicBool,
    answered: AtomicU64,
    seen: AtomicBool,
}

impl Holding {
    fn new(held: u32, other: u32, told: [bool; 4], wanted: u64) -> Holding {
        Holding {
            held,
            other,
            told,
            wanted,
            begun: AtomicBool::new(false),
            answered: AtomicU64::new(0),
            seen: AtomicBool::new(false),
        }
    }

    fn hold(&self) {
        self.begun.store(true, SeqCst);
        for _ in 0..TURNS {
            if self.answered.load(SeqCst) == self.wanted {
                self.seen.store(true, SeqCst);
                break;
            }
        }
    }

    fn await_begin(&self) {
        for _ in 0..TURNS {
            if self.begun.load(SeqCst) {
                break;
            }
        }
    }
}

impl Job for Holding {
    type Out = u32;

    ghost count = { λ _. 4 };

    ghost gives = { λ _ task out. out ≡ task };

    fn run(&self, task: u32) -> Result<u32, Memory> {
        if task == self.held {
            self.hold();
        }
        if task == self.other {
            self.await_begin();
        }
        if self.told[task as usize] {
            self.answered.fetch_add(1, SeqCst);
        }
        Ok(task)
    }
}

/// A worker owns tasks 0 and 1 and is held in task 0 until the three others are answered, task 1 by
/// a thief. Workers that never steal fail this test, and no other.
#[test]
fn held_worker_is_robbed(rt: HostRuntime) -> Result<(), Fail> {
    let job = Holding::new(0, 2, [false, true, true, true], 3);
    let four = run_tasks(&rt, rt.alloc(), 2, 4, &job, &OpenGate)?;
    assert_eq!(rt; four.answers(), [0, 1, 2, 3].as_slice());
    assert!(rt; job.seen.load(SeqCst));
    Ok(())
}

/// The owner of tasks 2 and 3 is held in task 2 until tasks 0 and 1 are answered, which nobody can
/// do then but their owner. One that ends with a task left fails this test.
#[test]
fn an_owner_answers_its_tasks_to_the_last(rt: HostRuntime) -> Result<(), Fail> {
    let job = Holding::new(2, 0, [true, true, false, false], 2);
    let four = run_tasks(&rt, rt.alloc(), 2, 4, &job, &OpenGate)?;
    assert_eq!(rt; four.answers(), [0, 1, 2, 3].as_slice());
    assert!(rt; job.seen.load(SeqCst));
    Ok(())
}
