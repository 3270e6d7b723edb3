//! The deques and their passes: made, lent and taken back.

ghost use Rattle.std.specs.Prelude.{◌≡◌, ℕ, ◌+◌, ◌-◌, ◌*◌, ◌^◌, ◌<◌, ◌≤◌, [], length, map, IfOk, OnOk, All, vec_len, slice_index_or};
ghost use Rattle.apsp_model.specs.Limits.{IsWorkerCount};
ghost use Rattle.apsp_model.specs.declared.TheConstants.{MOST_WORKERS};
ghost use Rattle.crossbeam_deque.specs.Handles.{view, worker_view, worker_flavor, worker_deque, stealer_deque, stealer_flavor};
ghost use Rattle.apsp_model.specs.Totals.{total};
ghost use Rattle.task_pool.specs.Lists.{times, once_below};
ghost use Rattle.task_pool.specs.Shares.{ALL_PARTS};
ghost use Rattle.task_pool.specs.States.{AreFitting, IsRow, took_in, took_at, took_all, pushed_at, did_at, IsState, AreStates, IsFresh, OwnerAlone, OwnsAll};

use crate::deque::{Account, Thief, filled, pass_of, take_in};
use crate::work::WorkerState;
use apsp_model::Memory;
use crossbeam_deque::Pass;
use std::alloc::Global;
use std::mem;

/// A state for each worker, whose deque holds its range of the tasks.
pub(crate) fn states<T: Drop>(
    alloc: Global,
    workers: u32,
    tasks: u32,
) -> Result<Vec<WorkerState<T>>, Memory>
    requires { IsWorkerCount workers }
    ensures len { IfOk result (λ v. vec_len v ≡ workers) }
    ensures own { IfOk result (λ v. All OwnsAll v.items) }
    ensures fresh { IfOk result (λ v. All IsFresh v.items) }
    ensures pushed { IfOk result (λ v. (x : ℕ) → total (pushed_at x) v.items ≡ once_below x tasks) }
{
    let Ok(mut all) = Vec::with_capacity(alloc, workers as usize) else {
        return Err(Memory);
    };
    let mut from = 0;
    for who in 0..workers {
        let until = ((who as u64 + 1) * tasks as u64 / workers as u64) as u32;
        let Ok(owner) = filled(alloc, from, until - from) else {
            return Err(Memory);
        };
        let Ok(()) = all.push(WorkerState {
            owner,
            passes: Vec::new(alloc),
            done: Vec::new(alloc),
            short: false,
        }) else {
            return Err(Memory);
        };
        from = until;
    }
    Ok(all)
}

/// A stealer for each deque.
pub(crate) fn thieves<T: Drop>(
    alloc: Global,
    states: &[WorkerState<T>],
) -> Result<Vec<Thief>, Memory>
    requires { All OwnsAll states.now }
    ensures states { IfOk result (λ v. AreStates ALL_PARTS v.items states.now) }
    ensures fifo { IfOk result (λ v. All (λ t. stealer_flavor t ≡ 0) v.items) }
{
    let Ok(mut all) = Vec::with_capacity(alloc, states.len()) else {
        return Err(Memory);
    };
    for at in 0..states.len() {
        let Ok(thief) = states[at].owner.stealer() else {
            return Err(Memory);
        };
        let Ok(()) = all.push(thief) else {
            return Err(Memory);
        };
    }
    Ok(all)
}

/// A pass of each deque.
fn row<T: Drop>(
    alloc: Global,
    thieves: &[Thief],
    parts: u64,
    states: &mut Vec<WorkerState<T>>,
) -> Result<Vec<Pass<u32, Account>>, Memory>
    requires some { 0 < parts }
    requires states { AreStates (parts + 1) thieves.now states.old.items }
    ensures row { IfOk result (λ v. IsRow thieves.now v.items × ((x : ℕ) → took_in x v.items ≡ 0)) }
    ensures states { OnOk result (AreStates parts thieves.now states.new.items) }
    ensures same { (j : ℕ) (d : WorkerState T) → j < vec_len states.old
        → OwnerAlone (slice_index_or states.old.items j d) (slice_index_or states.new.items j d) }
    ensures took { (j : ℕ) (d : WorkerState T) → j < vec_len states.old
        → (worker_view (slice_index_or states.new.items j d).owner).took
        ≡ (worker_view (slice_index_or states.old.items j d).owner).took }
{
    let Ok(mut all) = Vec::with_capacity(alloc, states.len()) else {
        return Err(Memory);
    };
    for at in 0..states.len() {
        let pass = pass_of(&mut states[at].owner);
        let Ok(()) = all.push(pass) else {
            return Err(Memory);
        };
    }
    Ok(all)
}

/// Gives each worker a pass of each deque.
pub(crate) fn lend<T: Drop>(
    alloc: Global,
    thieves: &[Thief],
    states: &mut Vec<WorkerState<T>>,
) -> Result<(), Memory>
    requires workers { length thieves.now ≤ MOST_WORKERS }
    requires states { AreStates ALL_PARTS thieves.now states.old.items }
    requires fresh { All IsFresh states.old.items }
    ensures states { OnOk result (AreStates (ALL_PARTS - length thieves.now) thieves.now states.new.items) }
    ensures rows { OnOk result (All (λ d. IsRow thieves.now d.passes.items) states.new.items) }
    ensures fresh { OnOk result (All IsFresh states.new.items) }
    ensures pushed { OnOk result ((x : ℕ) → total (pushed_at x) states.new.items
        ≡ total (pushed_at x) states.old.items) }
{
    for who in 0..states.len() {
        let passes = row(alloc, thieves, 1023 - who as u64, states)?;
        states[who].passes = passes;
    }
    Ok(())
}

/// Takes in a pass of each deque.
fn take_row<T: Drop>(
    thieves: &[Thief],
    parts: u64,
    states: &mut Vec<WorkerState<T>>,
    mut passes: Vec<Pass<u32, Account>>,
)
    requires some { 0 < parts }
    requires states { AreStates parts thieves.now states.old.items }
    requires row { IsRow thieves.now passes.items }
    ensures states { AreStates (parts + 1) thieves.now states.new.items }
    ensures same { (j : ℕ) (d : WorkerState T) → j < vec_len states.old
        → OwnerAlone (slice_index_or states.old.items j d) (slice_index_or states.new.items j d) }
    ensures took { (x : ℕ) → total (took_at x) states.new.items
        ≡ total (took_at x) states.old.items + took_in x passes.items }
{
    while let Some(pass) = passes.pop() {
        let at = passes.len();
        take_in(&mut states[at].owner, pass);
    }
}

/// Takes all passes back.
pub(crate) fn take_all<T: Drop>(alloc: Global, thieves: &[Thief], states: &mut Vec<WorkerState<T>>)
    requires workers { length thieves.now ≤ MOST_WORKERS }
    requires states { AreStates (ALL_PARTS - length thieves.now) thieves.now states.old.items }
    requires rows { All (λ d. IsRow thieves.now d.passes.items) states.old.items }
    ensures states { AreStates ALL_PARTS thieves.now states.new.items }
    ensures done { (j : ℕ) (d : WorkerState T) → j < vec_len states.old
        → (slice_index_or states.new.items j d).done ≡ (slice_index_or states.old.items j d).done }
    ensures took { (x : ℕ) → total (took_at x) states.new.items ≡ total (took_all x) states.old.items }
    ensures pushed { (x : ℕ) → total (pushed_at x) states.new.items ≡ total (pushed_at x) states.old.items }
{
    let base = 1024 - states.len() as u64;
    for who in 0..states.len() {
        let passes = mem::replace(&mut states[who].passes, Vec::new(alloc));
        take_row(thieves, base + who as u64, states, passes);
    }
}
