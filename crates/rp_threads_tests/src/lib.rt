//! Tests of seats and of their turns through their public calls. Each helper is generic in the
//! machine and the device, so that it is proved once, from their contracts alone.
#![tactic(auto)]

#[cfg(test)]
mod audit;
#[cfg(test)]
mod running;
#[cfg(test)]
mod seats;
#[cfg(test)]
mod setup;
#[cfg(test)]
mod turns;
