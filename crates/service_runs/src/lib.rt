//! Whole runs over streams in memory, and each call of a network. These are tests alone, and nothing stands on
//! them: here they are proved without what they call.
#![tactic(auto)]

#[cfg(test)]
mod network;
#[cfg(test)]
mod runs;
