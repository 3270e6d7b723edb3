//! Sessions: the lines of an input are answered one by one, and the call `top` does all that the
//! program does.
#![tactic(auto)]

mod check;
mod entry;
pub mod laws;
mod load;
mod run;
mod session;
mod terms;

pub use command_line::{Mode, read_words};
pub use entry::{script, top};
pub use run::MOST_INPUT;
