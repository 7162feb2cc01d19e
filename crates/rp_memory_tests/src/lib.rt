//! Tests that continue when memory runs out, and check that a call that was refused changed
//! nothing. The gate also runs them with each one of their requests for memory refused
//! (tools/memory).
#![tactic(auto)]

#[cfg(test)]
mod compare;
#[cfg(test)]
mod failing;
#[cfg(test)]
mod learner;
#[cfg(test)]
mod replica;
#[cfg(test)]
mod store;
#[cfg(test)]
mod world;
