//! One server: all roles of the algorithm and the machine, in memory (Lamport, "Paxos Made Simple",
//! section 3: each server plays all the roles in each instance of the algorithm).
//!
//! In reading order:
//! - `server`: the server, and what it may be asked
//! - `restart`: a server that begins by the records of a node
//! - `acceptor`: what it promised and voted, and how a promise or a vote is written
//! - `proposer`, `own_action`: the proposals that it leads, the positions at which it may lead, and
//!   the action that a proposal takes as its own
//! - `free_items`: the pending items for which it has something to do
//! - `learner`: votes that are heard
//! - `learn`, `apply`, `window`, `pending`: an action that is learned, applied in order and
//!   answered; the learner's window, which follows the log; the items that wait to be proposed
//! - `report`: what is applied, for a report
//! - `heard`: the votes that were heard, which memory does not hold
//! - `laws`: what follows from the definition of the least free position
#![tactic(auto)]

mod acceptor;
mod apply;
mod free_items;
mod heard;
mod laws;
mod learn;
mod learner;
mod own_action;
mod pending;
mod proposer;
mod report;
mod restart;
mod server;
mod window;

pub use acceptor::record_in_range;
pub use laws::the_least_free_position_is_least;
pub use learn::Decision;
pub use server::Roles;
