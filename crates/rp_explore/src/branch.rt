//! How an order goes on from an earlier one.

/// One order more: an earlier one, by its place, and then an action, by its index.
#[derive(Clone, Copy)]
pub struct Branch {
    pub before: usize,
    pub action: usize,
}
