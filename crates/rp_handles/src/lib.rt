//! Nodes and tasks by handle: a handle keeps a node of a deck or a task, which answers requests in
//! bytes until it is closed.
//!
//! In reading order:
//! - `actor`: a node or a task, which answers requests
//! - `deck_nodes`: opens a node of a deck over a caller's bytes
//! - `loose`: a box as its pointer
//! - `handle`: the handle by which a caller keeps an actor
//! - `calls`: opens, calls and closes an actor by its handle
//! - `declared`: the part of a deck's text that declares
//! - `device`: the header of a device, which says whose it is
//! - `next`: the deck with which a station goes on once the log of its node has ended
//! - `shown_values`: what an image shows of a component, and of the clock
//! - `next_lines`: the lines of a deck, each component with what an image shows as its first value
//! - `next_text`: the next deck, which starts as the image says
#![tactic(auto)]

mod actor;
mod calls;
mod deck_nodes;
mod declared;
mod device;
mod handle;
mod loose;
mod next;
mod next_lines;
mod next_text;
mod shown_values;

pub use actor::{Actor, ActorKind, LastStep};
pub use calls::{
    Found, advise, call, close, last_step, open_node, open_task, open_task_after, receive,
};
pub use device::{HEADER_BYTES, device_header, open_device};
pub use handle::Handle;
pub use next::{NoNextDeck, next_deck_of};
pub use next_text::next_deck;
