//! The words of the command line: which mode they give.
#![tactic(auto)]

mod words;

pub use apsp_model::{LEAST_SLOTS, MOST_READERS, MOST_SLOTS, MOST_WORKERS};
pub use words::{LEAST_DRAWN, MOST_DRAWN, Mode, READERS, SLOTS, WORKERS, read_words};
