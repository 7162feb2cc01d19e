//! A node as an acceptor: what it has promised and voted for at each position, and what it answers
//! to a `Prepare` and an `Accept` (Lamport, "Paxos Made Simple", section 2.2).
//!
//! In reading order:
//! - `acceptor`: the acceptor's questions and notes
//! - `range`: its questions for a range of positions
//! - `comparison`: how a ballot compares with the bounds at positions
//! - `slot`: what an acceptor keeps for a position
//! - `levels`: the ballots that it promised for ranges
//! - `page`: what it keeps for single positions, in pages, each made when a position of it is first
//!   reserved
//! - `places`: what it keeps for the positions of a range
#![tactic(auto)]

mod acceptor;
mod comparison;
mod levels;
mod page;
mod places;
mod range;
mod slot;

pub use acceptor::Acceptor;
pub use comparison::Comparison;
pub use rp_base::{AcceptAnswer, PrepareAnswer};
