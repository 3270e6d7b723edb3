//! The answers, put into the order of the tasks.

ghost use Rattle.std.specs.Prelude.{◌≡◌, ℕ, ◌<◌, ◌≤◌, All, IfOk, IsSome, Some, None, vec_len, slice_set, replicate, map};
ghost use Rattle.task_pool.specs.Lists.{times};
ghost use Rattle.task_pool.specs.States.{tasks_of};
ghost use Rattle.task_pool.specs.Worked.{AnswersStandAtTheirTasks};

use crate::work::Done;
use apsp_model::Memory;
use std::alloc::Global;

/// An empty place for each task.
fn places<T: Drop>(alloc: Global, tasks: u32) -> Result<Vec<Option<T>>, Memory>
    ensures { IfOk result (λ v. v.items ≡ replicate tasks None) }
{
    let Ok(mut all) = Vec::with_capacity(alloc, tasks as usize) else {
        return Err(Memory);
    };
    for _ in 0..tasks {
        let Ok(()) = all.push(None) else {
            return Err(Memory);
        };
    }
    Ok(all)
}

/// Puts an answer into the place of its task.
fn put<T: Drop>(places: &mut Vec<Option<T>>, answer: Done<T>)
    requires { answer.task < vec_len places.old }
    ensures { places.new.items ≡ slice_set places.old.items answer.task (Some answer.out) }
{
    let Done { task, out } = answer;
    places[task as usize] = Some(out);
}

/// Puts each answer into the place of its task.
pub(crate) fn placed<T: Drop>(
    alloc: Global,
    tasks: u32,
    mut done: Vec<Done<T>>,
) -> Result<Vec<Option<T>>, Memory>
    requires below { All (λ d. d.task < tasks) done.items }
    requires covers { (x : ℕ) → x < tasks → 1 ≤ times x (tasks_of done.items) }
    ensures { IfOk result (λ v. AnswersStandAtTheirTasks tasks done.items v.items) }
{
    let mut all = places(alloc, tasks)?;
    while let Some(answer) = done.pop() {
        put(&mut all, answer);
    }
    Ok(all)
}

/// The answers, in the order of their places.
pub(crate) fn unwrapped<T: Drop>(alloc: Global, places: Vec<Option<T>>) -> Result<Vec<T>, Memory>
    requires { All IsSome places.items }
    ensures { IfOk result (λ v. map Some v.items ≡ places.items) }
{
    let Ok(mut answers) = Vec::with_capacity(alloc, places.len()) else {
        return Err(Memory);
    };
    for place in places {
        let Some(out) = place else { unreachable!() };
        let Ok(()) = answers.push(out) else {
            return Err(Memory);
        };
    }
    Ok(answers)
}
