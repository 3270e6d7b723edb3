//! Slots that each hold a version of a plan: many readers pin a slot and read its version where it
//! stands, and one publisher claims a slot that nobody reads and puts another version into it. No
//! call waits, and none but `Cells::new` takes memory.
#![tactic(auto)]

mod cells;
mod tally;

pub use cells::{Cells, Claimed};
pub use tally::{Pin, Tally};

#[cfg(test)]
mod tests;
