//! Lists of updates, grows and mends on small networks, by calls of the engine. These are tests alone, and nothing
//! stands on them: here they are proved without what they call.
#![tactic(auto)]

#[cfg(test)]
mod calls;
#[cfg(test)]
mod commands;
#[cfg(test)]
mod rows;
