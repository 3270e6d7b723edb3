//! The graph as a table of weights, the star of a vertex as two rows of it, and plans of updates.
#![tactic(auto)]

mod graph;
mod plan;
mod star;
#[cfg(test)]
mod tests;

pub use graph::{Graph, MakeError};
pub use plan::Plan;
pub use star::{Star, StarError};
