//! Where bytes come from and where they go: a source, a sink and a gate, each as a trait with a
//! written meaning, with makings in memory for tests and over the streams of the standard library.
#![tactic(auto)]

mod gate;
mod memory;
mod sink;
mod source;
mod standard;

pub use gate::{Gate, HELD, OpenGate, PUBLISHED, PairGate, TASK};
pub use memory::{Cutoff, MemorySink, MemorySource};
pub use sink::{GiveError, Sink};
pub use source::{Failed, Source};
pub use standard::{StdSink, StdSource};

#[cfg(test)]
mod tests;
