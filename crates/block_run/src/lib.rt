//! A block: an engine takes the updates of a plan, and readers answer questions from the versions
//! that it publishes meanwhile.
#![tactic(auto)]

mod answers;
mod asks;
pub mod laws;
mod live;
mod order;
mod publish;
mod read;

pub use answers::{Answer, BlockAnswers, VertexList};
pub use apsp_model::MOST_READERS;
pub use asks::{Ask, Asks};
pub use live::live_block;
