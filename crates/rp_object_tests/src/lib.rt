//! Tests of objects and machines by their public calls: what no deck can ask for, since a deck says
//! what it calls by names; and of the examples. They are above the crates, so that each crate is
//! proved once.
#![tactic(auto)]

#[cfg(test)]
mod building;
#[cfg(test)]
mod entry;
#[cfg(test)]
mod examples;
#[cfg(test)]
mod machine;
#[cfg(test)]
mod object;
