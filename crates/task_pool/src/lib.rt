//! Runs numbered tasks by several workers, each with a deque of its own from which idle workers
//! steal, and gives one answer a task, in the order of the tasks.
#![tactic(auto)]

mod deal;
mod deque;
mod gather;
mod job;
mod placing;
mod work;

pub use gather::{Answered, run_tasks};
pub use job::Job;

#[cfg(test)]
mod tests;
