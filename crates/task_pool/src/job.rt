//! What a task is.

ghost use Rattle.std.specs.Prelude.{ℕ, ◌<◌, IfOk};

use apsp_model::Memory;

/// Numbered tasks, which any worker may answer, in any order.
pub trait Job: Sync {
    /// The answer to a task.
    type Out: Send + Drop;

    /// The number of tasks that there are.
    ghost count: { Self → ℕ };

    /// The answers that a task may have.
    ghost gives: { Self → ℕ → Self.Out → Type 0 };

    /// Answers a task.
    fn run(&self, task: u32) -> Result<Self::Out, Memory>
        requires { task < count self.now }
        ensures { IfOk result (gives self.now task) };
}
