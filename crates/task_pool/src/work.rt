//! One worker.

ghost use Rattle.std.specs.Prelude.{◌≡◌, ℕ, ◌+◌, ◌-◌, ◌*◌, ◌^◌, ◌<◌, ◌≤◌, [], length, map, IfOk, vec_len};
ghost use Rattle.std.specs.Prelude.{All, OnOk, slice_index_or};
ghost use Rattle.apsp_model.specs.declared.TheConstants.{MOST_WORKERS};
ghost use Rattle.crossbeam_deque.specs.Handles.{view, worker_view, worker_flavor, worker_deque, stealer_deque, stealer_flavor};
ghost use Rattle.task_pool.specs.Lists.{times, is_at};
ghost use Rattle.task_pool.specs.States.{AreFitting, IsRow, took_in, tasks_of, IsRight, IsState, HasWorked, SameOwner, times_some};

use crate::Job;
use crate::deque::{Account, Owner, Thief, next, stolen};
use apsp_io::{Gate, TASK};
use apsp_model::Memory;
use crossbeam_deque::Pass;
use std::alloc::Global;

/// The answer to a task.
#[derive(Drop)]
pub(crate) struct Done<T> {
    pub task: u32,
    pub out: T,
}

/// What a worker has: its deque, a pass for each deque, and what it did.
#[derive(Drop)]
pub(crate) struct WorkerState<T> {
    pub owner: Owner,
    pub passes: Vec<Pass<u32, Account>>,
    pub done: Vec<Done<T>>,
    pub short: bool,
}

/// Answers a task. Each number in a deque is that of a task; where a thief finds it no proof says
/// so, and the comparison stands in its place.
fn answer<J: Job, G: Gate>(
    who: u32,
    task: u32,
    tasks: u32,
    done: &mut Vec<Done<J::Out>>,
    job: &J,
    gate: &G,
) -> Result<(), Memory>
    requires tasks { tasks ≤ J.count job.now }
    requires right { All (IsRight (J.gives job.now) tasks) done.old.items }
    ensures right { All (IsRight (J.gives job.now) tasks) done.new.items }
    ensures more { OnOk result ((x : ℕ) → x < tasks → times x (tasks_of done.new.items)
        ≡ times x (tasks_of done.old.items) + is_at x task) }
{
    if task >= tasks {
        return Ok(());
    }
    gate.pass(who, TASK);
    let out = job.run(task)?;
    let Ok(()) = done.push(Done { task, out }) else {
        return Err(Memory);
    };
    Ok(())
}

/// Tries one of the other deques.
fn tried(thieves: &[Thief], at: usize, passes: &mut Vec<Pass<u32, Account>>) -> Option<u32>
    requires at { at < length thieves.now }
    requires fifo { All (λ t. stealer_flavor t ≡ 0) thieves.now }
    requires row { IsRow thieves.now passes.old.items }
    ensures row { IsRow thieves.now passes.new.items }
    ensures took { (x : ℕ) → took_in x passes.new.items ≡ took_in x passes.old.items + times_some x result }
{
    stolen(&thieves[at], &mut passes[at])
}

/// Goes once round the other deques, and takes one task at most.
fn robbed(thieves: &[Thief], who: usize, passes: &mut Vec<Pass<u32, Account>>) -> Option<u32>
    requires who { who < length thieves.now }
    requires fifo { All (λ t. stealer_flavor t ≡ 0) thieves.now }
    requires row { IsRow thieves.now passes.old.items }
    ensures row { IsRow thieves.now passes.new.items }
    ensures took { (x : ℕ) → took_in x passes.new.items ≡ took_in x passes.old.items + times_some x result }
{
    for step in 1..thieves.len() {
        let at = if step < thieves.len() - who {
            who + step
        } else {
            step - (thieves.len() - who)
        };
        if let Some(task) = tried(thieves, at, passes) {
            return Some(task);
        }
    }
    None
}

/// One task of the worker's own, where there is one.
fn own_task<J: Job, G: Gate>(
    who: u32,
    state: &mut WorkerState<J::Out>,
    tasks: u32,
    job: &J,
    gate: &G,
) -> Result<bool, Memory>
    requires tasks { tasks ≤ J.count job.now }
    requires own { (worker_flavor state.old.owner ≡ 0) × (0 < (worker_view state.old.owner).parts) }
    requires worked { HasWorked (J.gives job.now) tasks state.old }
    ensures own { SameOwner state.old state.new }
    ensures passes { state.new.passes ≡ state.old.passes }
    ensures worked { OnOk result (HasWorked (J.gives job.now) tasks state.new) }
{
    match next(&mut state.owner) {
        None => Ok(false),
        Some(task) => {
            answer(who, task, tasks, &mut state.done, job, gate)?;
            Ok(true)
        }
    }
}

/// The worker's own tasks, until its deque was empty at one moment.
fn own_tasks<J: Job, G: Gate>(
    who: u32,
    state: &mut WorkerState<J::Out>,
    tasks: u32,
    job: &J,
    gate: &G,
) -> Result<(), Memory>
    requires tasks { tasks ≤ J.count job.now }
    requires own { (worker_flavor state.old.owner ≡ 0) × (0 < (worker_view state.old.owner).parts) }
    requires worked { HasWorked (J.gives job.now) tasks state.old }
    ensures own { SameOwner state.old state.new }
    ensures passes { state.new.passes ≡ state.old.passes }
    ensures worked { OnOk result (HasWorked (J.gives job.now) tasks state.new) }
{
    for _ in 0..=tasks {
        if !own_task(who as u32, state, tasks, job, gate)? {
            break;
        }
    }
    Ok(())
}

/// One worker's tasks.
pub(crate) fn work<J: Job, G: Gate>(
    thieves: &[Thief],
    who: usize,
    state: &mut WorkerState<J::Out>,
    tasks: u32,
    job: &J,
    gate: &G,
) -> Result<(), Memory>
    requires tasks { tasks ≤ J.count job.now }
    requires who { (who < length thieves.now) × (length thieves.now ≤ MOST_WORKERS) }
    requires fifo { All (λ t. stealer_flavor t ≡ 0) thieves.now }
    requires own { (worker_flavor state.old.owner ≡ 0) × (0 < (worker_view state.old.owner).parts) }
    requires row { IsRow thieves.now state.old.passes.items }
    requires worked { HasWorked (J.gives job.now) tasks state.old }
    ensures own { SameOwner state.old state.new }
    ensures row { IsRow thieves.now state.new.passes.items }
    ensures worked { OnOk result (HasWorked (J.gives job.now) tasks state.new) }
{
    own_tasks(who as u32, state, tasks, job, gate)?;
    for _ in 0..=tasks {
        let Some(task) = robbed(thieves, who, &mut state.passes) else {
            break;
        };
        answer(who as u32, task, tasks, &mut state.done, job, gate)?;
    }
    Ok(())
}

/// Answers the tasks of a list.
pub(crate) fn answer_all<J: Job, G: Gate>(
    mut left: Vec<u32>,
    tasks: u32,
    done: &mut Vec<Done<J::Out>>,
    job: &J,
    gate: &G,
) -> Result<(), Memory>
    requires tasks { tasks ≤ J.count job.now }
    requires right { All (IsRight (J.gives job.now) tasks) done.old.items }
    ensures right { All (IsRight (J.gives job.now) tasks) done.new.items }
    ensures more { OnOk result ((x : ℕ) → x < tasks → times x (tasks_of done.new.items)
        ≡ times x (tasks_of done.old.items) + times x left.items) }
{
    while let Some(task) = left.pop() {
        answer(0, task, tasks, done, job, gate)?;
    }
    Ok(())
}
