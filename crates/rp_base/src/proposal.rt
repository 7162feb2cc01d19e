//! The two phases of a proposal.

/// The two phases of a proposal (Lamport, "Paxos Made Simple", section 2.2).
#[derive(Clone, Copy, Debug, PartialEq, Eq)]
pub enum Phase {
    /// The node asked for promises, and counts them.
    Preparing,
    /// A majority promised, and the node asked for votes.
    Offering,
}
