//! Tests of texts, of the parts of a node and of tasks by their public calls: worked rows, vectors
//! from outside, happy paths. They are above the crates, so that each crate is proved once.
#![tactic(auto)]

#[cfg(test)]
mod acceptor;
#[cfg(test)]
mod base;
#[cfg(test)]
mod codec;
#[cfg(test)]
mod compare;
#[cfg(test)]
mod log;
#[cfg(test)]
mod proposer;
#[cfg(test)]
mod tasks;
#[cfg(test)]
mod values;
