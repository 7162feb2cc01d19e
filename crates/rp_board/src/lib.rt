//! The table of a cluster in threads, the boxes of packets on it, and a seat at it.
//!
//! In reading order:
//! - `board`: the table that all seats share
//! - `laws`: the facts about agreement that the rule of the table uses
//! - `events`: the atomic step that counts an event of an actor
//! - `spares`: buffers that a seat keeps for later packets
//! - `boxes`: the steps at a box: its sender fills it, its receiver empties it
//! - `actors`: who sits at the table, and the numbers of the actors there
//! - `looks`: a look at the table: what follows from a seat's knowledge about all that happened
//! - `seat`: a seat at the table, and what every seat does with its boxes: it fetches packets, and
//!   puts packets
//! - `joins`: places are joined and split: two seats look at the table together
#![tactic(auto)]

mod actors;
mod board;
mod boxes;
mod events;
mod joins;
mod laws;
mod looks;
mod seat;
mod spares;

pub use actors::Sits;
pub use board::{Board, Known, Law, Place, Setup, Slots};
pub use events::Fact;
pub use joins::{split, take_in};
pub use laws::order_laws;
pub use looks::look;
pub use seat::{AuditSeat, Fetch, Put, Seat};
pub use spares::spare_room;
