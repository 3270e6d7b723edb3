//! Which worker takes which task.

ghost use Rattle.std.specs.Prelude.{◌≡◌, ◌<◌};

use crate::passes::{CountingGate, Passed, comes_to};
use apsp_model::Memory;
use std::alloc::Global;
use std::marker::Sync;
use std::sync::atomic::Ordering::SeqCst;
use std::sync::atomic::{AtomicBool, AtomicU64};
use std::test::Fail;
use std::thread::Threads;
use task_pool::{Job, run_tasks};

/// Five tasks of a few workers. The first task of each worker looks until as many tasks have begun
/// as there are workers, so that these are the first to begin. One of them holds its worker until
/// all others are answered.
#[derive(Drop)]
struct Holding {
    workers: u64,
    tasks: u64,
    first: [bool; 5],
    held: u32,
    begun: AtomicU64,
    places: [AtomicU64; 5],
    answered: AtomicU64,
    seen: AtomicBool,
}

impl Holding {
    fn new(workers: u64, tasks: u64, first: [bool; 5], held: u32) -> Holding {
        Holding {
            workers,
            tasks,
            first,
            held,
            begun: AtomicU64::new(0),
            places: [
                AtomicU64::new(0),
                AtomicU64::new(0),
                AtomicU64::new(0),
                AtomicU64::new(0),
                AtomicU64::new(0),
            ],
            answered: AtomicU64::new(0),
            seen: AtomicBool::new(false),
        }
    }

    /// How many tasks had begun before this one, and 0 for those that began before all workers had.
    fn place(&self, task: usize) -> u64
        requires { task < 5 }
    {
        let place = self.places[task].load(SeqCst);
        if place < self.workers { 0 } else { place }
    }
}

impl Job for Holding {
    type Out = u32;

    ghost count = { λ _. 5 };

    ghost gives = { λ _ task out. out ≡ task };

    fn run(&self, task: u32) -> Result<u32, Memory> {
        let place = self.begun.fetch_add(1, SeqCst);
        self.places[task as usize].store(place, SeqCst);
        if self.first[task as usize] {
            comes_to(&self.begun, self.workers);
        }
        if task == self.held {
            let others = self.tasks.saturating_sub(1);
            self.seen.store(comes_to(&self.answered, others), SeqCst);
        }
        self.answered.fetch_add(1, SeqCst);
        Ok(task)
    }
}

/// What was seen of five tasks.
#[derive(Clone, Copy, PartialEq, Eq, Debug)]
struct Seen {
    robbed: bool,
    places: [u64; 5],
    passed: Passed,
}

/// Runs the tasks of two workers, one of whom is held in its first task, and tells what was seen.
fn run_holding<R: Threads + Sync>(rt: &R, alloc: Global, held: u32) -> Result<Seen, Fail> {
    let job = Holding::new(2, 5, [true, false, true, false, false], held);
    let gate = CountingGate::new(1);
    run_tasks(rt, alloc, 2, 5, &job, &gate)?;
    Ok(Seen {
        robbed: job.seen.load(SeqCst),
        places: [
            job.place(0),
            job.place(1),
            job.place(2),
            job.place(3),
            job.place(4),
        ],
        passed: gate.passed(),
    })
}

/// Of five tasks the first worker has 0 and 1, and the other 2, 3 and 4. While one is held in its
/// first task, the other answers its own, and then takes over those of the held one, each in rising
/// order. Workers that never steal, other shares and the last task first fail this test.
#[test]
fn held_worker_is_robbed(rt: HostRuntime) -> Result<(), Fail> {
    for (held, places, tasks) in [
        (0, [0, 4, 0, 2, 3], [1, 4, 0]),
        (2, [0, 2, 0, 3, 4], [4, 1, 0]),
    ] {
        let wanted = Seen {
            robbed: true,
            places,
            passed: Passed {
                tasks,
                workers: 2,
                else_passed: 0,
            },
        };
        assert_eq!(rt;
            run_holding(&rt, rt.alloc(), held)?,
            wanted,
            "held in {held}"
        );
    }
    Ok(())
}
