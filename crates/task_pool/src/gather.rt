//! The workers together.

ghost use Rattle.std.specs.Prelude.{false, ◌≡◌, ℕ, ◌-◌, ◌<◌, ◌≤◌, length, IfOk, OnOk, All, vec_len, slice_index_or};
ghost use Rattle.apsp_model.specs.Limits.{IsWorkerCount};
ghost use Rattle.apsp_model.specs.declared.TheConstants.{MOST_WORKERS};
ghost use Rattle.crossbeam_deque.specs.Handles.{view, worker_view, worker_flavor, worker_deque, stealer_deque, stealer_flavor};
ghost use Rattle.apsp_model.specs.Totals.{total};
ghost use Rattle.task_pool.specs.Lists.{times, once_below};
ghost use Rattle.task_pool.specs.Shares.{ALL_PARTS};
ghost use Rattle.task_pool.specs.States.{IsRow, tasks_of, IsRight, pushed_at, took_all, AreStates, HasWorked, SameOwner, AreBack};

use crate::Job;
use crate::deal::{lend, states, take_all, thieves};
use crate::deque::{Thief, rest};
use crate::placing::{placed, unwrapped};
use crate::work::{Done, WorkerState, answer_all, work};
use apsp_io::{Gate, TASK};
use apsp_model::Memory;
use std::alloc::Global;
use std::marker::Model;
use std::thread;
use std::thread::Threads;

/// The answers of the tasks, in their order. Contracts see them as that list.
#[derive(Drop)]
pub struct Answered<T> {
    answers: Vec<T>,
}

impl<T> Model for Answered<T> {
    ghost use Rattle.std.specs.Prelude.{List};

    ghost Value = { List T };

    ghost view = { λ a. a.answers.items };
}

impl<T> Answered<T> {
    /// The answers.
    pub fn answers(&self) -> &[T]
        ensures { result.now ≡ self.now }
    {
        self.answers.as_slice()
    }
}

/// One worker, in the caller's thread.
fn alone<J: Job, G: Gate>(
    alloc: Global,
    tasks: u32,
    job: &J,
    gate: &G,
) -> Result<Vec<J::Out>, Memory>
    requires { tasks ≤ J.count job.now }
    ensures len { IfOk result (λ v. vec_len v ≡ tasks) }
    ensures each { IfOk result (λ v. (k : ℕ) (d : J.Out) → k < tasks → J.gives job.now k (slice_index_or v.items k d)) }
{
    let Ok(mut answers) = Vec::with_capacity(alloc, tasks as usize) else {
        return Err(Memory);
    };
    for task in 0..tasks {
        gate.pass(0, TASK);
        let out = job.run(task)?;
        let Ok(()) = answers.push(out) else {
            return Err(Memory);
        };
    }
    Ok(answers)
}

/// Runs the workers, each in a thread of its own where one can be made, and otherwise behind another.
fn spread<J: Job, G: Gate, R: Threads + Sync>(
    rt: &R,
    thieves: &[Thief],
    states: &mut [WorkerState<J::Out>],
    tasks: u32,
    job: &J,
    gate: &G,
)
    requires tasks { tasks ≤ J.count job.now }
    requires workers { IsWorkerCount (length thieves.now) }
    requires fifo { All (λ t. stealer_flavor t ≡ 0) thieves.now }
    requires states { AreStates (ALL_PARTS - length thieves.now) thieves.now states.old }
    requires rows { All (λ d. IsRow thieves.now d.passes.items) states.old }
    requires worked { All (HasWorked (J.gives job.now) tasks) states.old }
    ensures own { (j : ℕ) (d : WorkerState J.Out) → j < length states.old
        → SameOwner (slice_index_or states.old j d) (slice_index_or states.new j d) }
    ensures rows { All (λ d. IsRow thieves.now d.passes.items) states.new }
    ensures worked { All (λ d. d.short ≡ false → HasWorked (J.gives job.now) tasks d) states.new }
{
    let run = |who: usize, state: &mut WorkerState<J::Out>|
        requires tasks { tasks ≤ J.count job.now }
        requires who { (who < length thieves.now) × (length thieves.now ≤ MOST_WORKERS) }
        requires fifo { All (λ t. stealer_flavor t ≡ 0) thieves.now }
        requires own { (worker_flavor state.old.owner ≡ 0) × (0 < (worker_view state.old.owner).parts) }
        requires row { IsRow thieves.now state.old.passes.items }
        requires worked { HasWorked (J.gives job.now) tasks state.old }
        ensures own { SameOwner state.old state.new }
        ensures row { IsRow thieves.entry.now state.new.passes.items }
        ensures worked { state.new.short ≡ false → HasWorked (J.gives job.entry.now) tasks state.new }
    {
        state.short = work(thieves, who, state, tasks, job, gate).is_err();
    };
    let workers = states.len();
    thread::for_each_mut(rt, states, workers, &run);
}

/// Whether a worker ran out of memory.
fn any_short<T: Drop>(states: &[WorkerState<T>]) -> bool
    ensures { result ≡ false → All (λ d. d.short ≡ false) states.now }
{
    for at in 0..states.len() {
        if states[at].short {
            return true;
        }
    }
    false
}

/// Runs the workers of a list.
fn spread_all<J: Job, G: Gate, R: Threads + Sync>(
    rt: &R,
    thieves: &[Thief],
    states: &mut Vec<WorkerState<J::Out>>,
    tasks: u32,
    job: &J,
    gate: &G,
)
    requires tasks { tasks ≤ J.count job.now }
    requires workers { IsWorkerCount (length thieves.now) }
    requires fifo { All (λ t. stealer_flavor t ≡ 0) thieves.now }
    requires states { AreStates (ALL_PARTS - length thieves.now) thieves.now states.old.items }
    requires rows { All (λ d. IsRow thieves.now d.passes.items) states.old.items }
    requires worked { All (HasWorked (J.gives job.now) tasks) states.old.items }
    ensures states { AreStates (ALL_PARTS - length thieves.now) thieves.now states.new.items }
    ensures rows { All (λ d. IsRow thieves.now d.passes.items) states.new.items }
    ensures worked { All (λ d. d.short ≡ false → HasWorked (J.gives job.now) tasks d) states.new.items }
    ensures pushed { (x : ℕ) → total (pushed_at x) states.new.items ≡ total (pushed_at x) states.old.items }
{
    spread(rt, thieves, states.as_mut_slice(), tasks, job, gate);
}

/// Takes all passes back, where no worker ran out of memory.
fn bring_back<J: Job>(
    alloc: Global,
    thieves: &[Thief],
    states: &mut Vec<WorkerState<J::Out>>,
    tasks: u32,
    job: &J,
) -> Result<(), Memory>
    requires workers { length thieves.now ≤ MOST_WORKERS }
    requires states { AreStates (ALL_PARTS - length thieves.now) thieves.now states.old.items }
    requires rows { All (λ d. IsRow thieves.now d.passes.items) states.old.items }
    requires worked { All (λ d. d.short ≡ false → HasWorked (J.gives job.now) tasks d) states.old.items }
    requires pushed { (x : ℕ) → total (pushed_at x) states.old.items ≡ once_below x tasks }
    ensures { OnOk result (AreBack (J.gives job.now) tasks states.new.items) }
{
    if any_short(states.as_slice()) {
        return Err(Memory);
    }
    take_all(alloc, thieves, states);
    Ok(())
}

/// What the workers did. The deques are empty by now, but no proof of a thread says so: what they
/// still held would be answered here.
fn gathered<J: Job, G: Gate>(
    alloc: Global,
    mut states: Vec<WorkerState<J::Out>>,
    tasks: u32,
    job: &J,
    gate: &G,
) -> Result<Vec<Done<J::Out>>, Memory>
    requires tasks { tasks ≤ J.count job.now }
    requires back { AreBack (J.gives job.now) tasks states.items }
    ensures right { IfOk result (λ v. All (IsRight (J.gives job.entry.now) tasks) v.items) }
    ensures covers { IfOk result (λ v. (x : ℕ) → x < tasks → times x (tasks_of v.items) ≡ 1) }
{
    let mut done = Vec::new(alloc);
    while let Some(state) = states.pop() {
        let WorkerState {
            mut owner,
            passes: _,
            done: mut more,
            short: _,
        } = state;
        let Ok(left) = rest(&mut owner, alloc) else {
            return Err(Memory);
        };
        let Ok(()) = done.append(&mut more) else {
            return Err(Memory);
        };
        answer_all(left, tasks, &mut done, job, gate)?;
    }
    Ok(done)
}

/// Several workers, each with a deque of its own.
fn together<J: Job, G: Gate, R: Threads + Sync>(
    rt: &R,
    alloc: Global,
    workers: u32,
    tasks: u32,
    job: &J,
    gate: &G,
) -> Result<Vec<J::Out>, Memory>
    requires workers { IsWorkerCount workers }
    requires tasks { tasks ≤ J.count job.now }
    ensures len { IfOk result (λ v. vec_len v ≡ tasks) }
    ensures each { IfOk result (λ v. (k : ℕ) (d : J.Out) → k < tasks → J.gives job.now k (slice_index_or v.items k d)) }
{
    let mut states = states(alloc, workers, tasks)?;
    let thieves = thieves(alloc, states.as_slice())?;
    let thieves = thieves.as_slice();
    lend(alloc, thieves, &mut states)?;
    spread_all(rt, thieves, &mut states, tasks, job, gate);
    bring_back(alloc, thieves, &mut states, tasks, job)?;
    let done = gathered(alloc, states, tasks, job, gate)?;
    let places = placed(alloc, tasks, done)?;
    unwrapped(alloc, places)
}

/// Answers the tasks from 0 on, each once, and gives their answers in the order of the tasks.
///
/// There are as many workers as the lesser of `workers` and `tasks`. One alone works in the caller's
/// thread. Of several each has the next equal share of the tasks, answers its own from the first on,
/// and then goes round the others and takes over one task a time, until a round gives none. A worker
/// whose thread cannot be made works behind another. Before each task the gate is passed with `TASK`
/// and the worker's number. `Memory` comes where a task gives it, or of the call's own need.
///
/// Cost: that of the tasks; beside it, for W > 1 workers, W threads, W * W passes of a few words, and
/// time and room in proportion to the tasks.
pub fn run_tasks<J: Job, G: Gate, R: Threads + Sync>(
    rt: &R,
    alloc: Global,
    workers: u32,
    tasks: u32,
    job: &J,
    gate: &G,
) -> Result<Answered<J::Out>, Memory>
    requires workers { IsWorkerCount workers }
    requires tasks { tasks ≤ J.count job.now }
    ensures len { IfOk result (λ a. length a ≡ tasks) }
    ensures each { IfOk result (λ a. (k : ℕ) (d : J.Out) → k < tasks → J.gives job.now k (slice_index_or a k d)) }
{
    let workers = workers.min(tasks);
    let answers = if workers <= 1 {
        alone(alloc, tasks, job, gate)?
    } else {
        together(rt, alloc, workers, tasks, job, gate)?
    };
    Ok(Answered { answers })
}
