//! The result of an event, as a step returns it.

use rp_base::Answer;

/// What a node did not take.
#[derive(Clone, Copy, Debug, PartialEq, Eq)]
pub enum Dropped {
    /// Nothing was dropped.
    No,
    /// A pending item, since 32 are pending.
    Full,
    /// A packet that is for another node, from a node or for a position beyond the configuration,
    /// or in a ballot that its sender does not own.
    Foreign,
}

/// The result of an event.
#[derive(Clone, Copy)]
pub struct Effect {
    /// The number of the first message that was sent, or would have been.
    pub first: u64,
    /// How many messages were sent: 4,294,967,295 if there were more.
    pub sent: u32,
    pub dropped: Dropped,
    /// The reply that a task took.
    pub taken: Option<Answer>,
    /// How many records and how many torn bytes a node that starts again found.
    pub opened: Option<(u64, u64)>,
}
