//! The gate decides which turns a node makes, and may slow the threads down.

ghost use Rattle.std.specs.Prelude.{◌≡◌, true};

use rp_base::NodeId;

/// Decides which turns a node makes, by whatever it knows, and is notified of those that were made.
/// The turns of a node are counted from 1.
pub trait Gate {
    ghost use Rattle.std.specs.Prelude.{ℕ, Bool};

    /// What holds once the gate answered whether the node of the first number makes the turn of the
    /// second number.
    ghost lets: { ℕ → ℕ → Bool → Type 0 };

    /// What holds once the gate was notified that the node of the first number made the turn of the
    /// second number and sent n packets in it.
    ghost heard: { ℕ → ℕ → ℕ → Type 0 };

    /// Whether the node is to make this turn; if not, the turn is skipped.
    fn before(&self, node: NodeId, turn: u64) -> bool
        ensures { lets node turn result };

    /// The node made this turn and sent n packets in it, 0 if it was refused to lead.
    fn after(&self, node: NodeId, turn: u64, sent: usize)
        ensures { heard node turn sent };
}

/// Lets each node make each of its turns, and never blocks.
#[derive(Clone, Copy, Debug)]
pub struct Open;

impl Gate for Open {
    ghost use Rattle.std.specs.Prelude.{◌≡◌, true};

    ghost lets = { λ node turn passes. passes ≡ true };

    ghost heard = { λ node turn sent. Unit {0} };

    fn before(&self, _node: NodeId, _turn: u64) -> bool {
        true
    }

    fn after(&self, _node: NodeId, _turn: u64, _sent: usize) {}
}
