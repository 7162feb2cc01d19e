//! What gives a reply.

/// An order, by its place, and then an action that may happen, by its index, both from 0.
#[derive(Clone, Copy)]
pub struct Giver {
    pub place: usize,
    pub action: usize,
}
