//! The packets that a node sends: their texts in one run of bytes, in the order in which they are
//! sent.
#![tactic(auto)]

mod outbox;

pub use outbox::Outbox;
