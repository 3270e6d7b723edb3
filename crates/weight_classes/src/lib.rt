//! Classes of path records by weight and then by number of edges: the ids of the least weight that have
//! the fewest edges are taken at once, with one winner for each pair of vertices.
#![tactic(auto)]

mod buckets;
mod choice;
mod classes;
mod ids;
pub mod laws;
#[cfg(test)]
mod tests;
mod turns;

pub use classes::{Class, Classes};
