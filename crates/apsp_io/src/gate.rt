use std::marker::Sync;
use std::sync::atomic::Ordering::SeqCst;
use std::sync::atomic::{AtomicBool, AtomicU64};

/// Passed before a task of a worker.
pub const TASK: u32 = 1;

/// Passed after a reader took hold of a version.
pub const HELD: u32 = 2;

/// Passed after a version was published.
pub const PUBLISHED: u32 = 3;

/// A place that workers, readers and a publisher pass. It changes nothing that a contract speaks
/// of, and lets tests see who is at work at the same time.
pub trait Gate: Sync {
    /// `who` is the number of the worker or the reader, and 0 for the publisher; `what` is one of
    /// `TASK`, `HELD` and `PUBLISHED`. It returns.
    fn pass(&self, who: u32, what: u32);
}

/// A gate that keeps nobody.
#[derive(Clone, Copy, Debug)]
pub struct OpenGate;

impl Gate for OpenGate {
    fn pass(&self, _who: u32, _what: u32) {}
}

/// A gate that shows whether two passes of one kind were ever under way at once. The first of two
/// waits for the second for a bounded number of turns, so that a pass returns in any case.
#[derive(Drop, Debug)]
pub struct PairGate {
    what: u32,
    turns: u64,
    inside: AtomicU64,
    met: AtomicBool,
}

impl PairGate {
    /// A gate that heeds the passes with the given `what` and lets each look for at most `turns`
    /// turns. Takes no memory.
    pub fn new(what: u32, turns: u64) -> PairGate {
        PairGate {
            what,
            turns,
            inside: AtomicU64::new(0),
            met: AtomicBool::new(false),
        }
    }

    /// Whether two passes were ever seen inside at once. A single thread never leaves it true.
    pub fn met(&self) -> bool {
        self.met.load(SeqCst)
    }
}

impl Gate for PairGate {
    fn pass(&self, _who: u32, what: u32) {
        if what != self.what {
            return;
        }
        self.inside.fetch_add(1, SeqCst);
        for _ in 0..self.turns {
            // One of two that met may have gone by the time that the other looks.
            if self.met() || self.inside.load(SeqCst) >= 2 {
                self.met.store(true, SeqCst);
                break;
            }
        }
        self.inside.fetch_sub(1, SeqCst);
    }
}
