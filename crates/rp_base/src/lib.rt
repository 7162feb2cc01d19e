//! The types that all other crates use: nodes, tasks, positions, ballots, actions, records and
//! faults.
//!
//! In reading order:
//! - `number`: the numbers that name nodes, tasks and positions of the log
//! - `ballot`: ballots, which order the proposals for a position
//! - `majorities`: how many nodes are a majority
//! - `action`: what the log holds: calls, interrupts and ticks
//! - `reply`: the reply to a call
//! - `fixed_list`: a list that takes no memory
//! - `answers`: the answers of one action
//! - `range`: ranges of positions
//! - `record`: what a node writes before it sends
//! - `records`: what one more record changes, and what the last vote is
//! - `placed`: votes with their positions
//! - `proposal`: the two phases of a proposal
//! - `voting`: the answers of an acceptor
//! - `senders`: a set of nodes, such as those that sent a promise or a vote
//! - `history`: a list for contracts alone
//! - `config`: the size of a cluster
//! - `fault`: why a call was refused
#![tactic(auto)]

mod action;
mod answers;
mod ballot;
mod config;
mod fault;
mod fixed_list;
mod history;
mod majorities;
mod number;
mod placed;
mod proposal;
mod range;
mod record;
mod records;
mod reply;
mod senders;
mod voting;

pub use action::{Action, MOST_ENTRIES, MOST_OBJECTS, MOST_OPERATIONS, MOST_SOURCES, Operation};
pub use answers::Answers;
pub use ballot::Ballot;
pub use config::Config;
pub use fault::{DeckReason, Fault, PacketReason, WriteFault};
pub use fixed_list::FixedList;
pub use history::History;
pub use majorities::{majorities_intersect, majority};
pub use number::{Id, MOST_NODES, MOST_TASKS, NodeId, Position, TaskId, WINDOW};
pub use placed::{PlacedVote, RangeVotes};
pub use proposal::Phase;
pub use range::{MOST_COVERED, PositionRange};
pub use record::{Rec, Vote};
pub use records::{last_votes_lie_below, one_more_record, range_votes_are_reported};
pub use reply::{Answer, Reply};
pub use senders::Senders;
pub use voting::{AcceptAnswer, PrepareAnswer, RangeAnswer};
