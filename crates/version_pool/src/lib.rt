//! The pool of versions: a publisher puts versions into slots and announces them, and readers hold
//! them meanwhile. No call waits, and none but `Pool::new` takes memory.
#![tactic(auto)]

pub mod laws;
mod pool;
mod publisher;
mod reader;
mod word;

pub use pool::{Pool, PoolParts};
pub use publisher::{AllHeld, Note, Publisher};
pub use reader::{Held, Missed, Reader};
pub use word::Mark;

#[cfg(test)]
mod tests;
