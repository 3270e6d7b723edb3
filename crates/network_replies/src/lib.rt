//! The network of a session, with a call for each command, which puts its reply behind a text; the block that
//! is open; and who makes updates and runs blocks.
#![tactic(auto)]

mod block;
mod blocks;
mod executor;
mod network;
mod replies;
mod stop;

pub use block::OpenBlock;
pub use block_run::{Answer, Asks, BlockAnswers};
pub use blocks::{Blocks, LiveBlocks, NoBlocks};
pub use executor::{Executor, WorkerCount};
pub use network::Network;
pub use replies::{put_answer, put_error};
pub use stop::Stop;
