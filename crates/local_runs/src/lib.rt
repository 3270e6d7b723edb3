//! Runs of the engine of locally shortest paths, alone and beside the engine of locally historical ones. These are
//! tests alone, and nothing stands on them.
#![tactic(auto)]

#[cfg(test)]
mod beside;
#[cfg(test)]
mod calls;
#[cfg(test)]
mod networks;
