//! The engine of locally shortest paths: a graph that changes one star at a time, with its least walks
//! and the simple walks all of whose proper parts are least walks. It keeps no history.
#![tactic(auto)]

mod answers;
mod demotion;
mod engine;
mod search;
mod update;

pub use engine::{LocalChange, LocalEngine, LocalError};
