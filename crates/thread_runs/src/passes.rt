//! A gate that counts who passes it.

use apsp_io::{Gate, TASK};
use std::sync::atomic::AtomicU64;
use std::sync::atomic::Ordering::SeqCst;

/// How often a pass or a task looks at most.
pub(crate) const TURNS: u64 = 100_000_000;

/// Whether the count comes to this number within so many looks.
pub(crate) fn comes_to(count: &AtomicU64, number: u64) -> bool {
    for _ in 0..TURNS {
        if count.load(SeqCst) >= number {
            return true;
        }
    }
    false
}

/// What passed a gate: how often each of the first workers did before a task, how many of them did,
/// and how often anything else passed.
#[derive(Clone, Copy, PartialEq, Eq, Debug)]
pub(crate) struct Passed {
    pub tasks: [u64; 3],
    pub workers: u64,
    pub else_passed: u64,
}

impl Passed {
    /// How many passes were made before a task.
    pub(crate) fn count(&self) -> u64 {
        let mut count = 0u64;
        for tasks in self.tasks {
            count = count.saturating_add(tasks);
        }
        count
    }
}

/// A gate that counts the passes of up to three workers before their tasks. The first pass of each
/// looks until so many of them have passed, so that none answers all tasks before another begins.
#[derive(Drop)]
pub(crate) struct CountingGate {
    wanted: u64,
    tasks: [AtomicU64; 3],
    workers: AtomicU64,
    else_passed: AtomicU64,
}

impl CountingGate {
    pub(crate) fn new(wanted: u64) -> CountingGate {
        CountingGate {
            wanted,
            tasks: [AtomicU64::new(0), AtomicU64::new(0), AtomicU64::new(0)],
            workers: AtomicU64::new(0),
            else_passed: AtomicU64::new(0),
        }
    }

    pub(crate) fn passed(&self) -> Passed {
        Passed {
            tasks: [
                self.tasks[0].load(SeqCst),
                self.tasks[1].load(SeqCst),
                self.tasks[2].load(SeqCst),
            ],
            workers: self.workers.load(SeqCst),
            else_passed: self.else_passed.load(SeqCst),
        }
    }
}

impl Gate for CountingGate {
    fn pass(&self, who: u32, what: u32) {
        if what != TASK || who >= 3 {
            self.else_passed.fetch_add(1, SeqCst);
            return;
        }
        if self.tasks[who as usize].fetch_add(1, SeqCst) == 0 {
            self.workers.fetch_add(1, SeqCst);
            comes_to(&self.workers, self.wanted);
        }
    }
}
