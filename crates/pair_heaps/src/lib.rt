//! The paths of each pair of vertices, of which the least is found.
#![tactic(auto)]

mod entries;
mod heaps;
pub mod laws;
mod pair;
mod sift;
mod tall;
#[cfg(test)]
mod tests;

pub use heaps::{Heaps, Room};
