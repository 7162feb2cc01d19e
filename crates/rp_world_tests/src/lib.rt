//! Tests of nodes and clusters by events. Each helper is generic in the machine and the device, so
//! that it is proved once, from their contracts alone.
#![tactic(auto)]

#[cfg(test)]
mod compare;
#[cfg(test)]
mod damaged;
#[cfg(test)]
mod failing;
#[cfg(test)]
mod replica;
#[cfg(test)]
mod runs;
#[cfg(test)]
mod world;
