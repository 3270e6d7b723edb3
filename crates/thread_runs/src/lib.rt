//! What no contract says of threads: who passes the gate and how often, who takes which task, that a slot is read by
//! several at once, and how many slots a block has. These are tests alone, and nothing stands on them.
#![tactic(auto)]

#[cfg(test)]
mod answers;
#[cfg(test)]
mod blocks;
#[cfg(test)]
mod passes;
#[cfg(test)]
mod slots;
#[cfg(test)]
mod steps;
#[cfg(test)]
mod tasks;
