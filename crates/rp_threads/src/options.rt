//! What the loops of a run share.

ghost use Rattle.std.specs.Prelude.{⊤, ◌≡◌};

use std::alloc::{AllocError, Global};

/// How the loops of a run make their turns.
pub struct LoopOptions<'a, G, E> {
    /// The allocator that they use.
    pub alloc: Global,
    /// Decides which turns a node makes.
    pub gate: &'a G,
    /// Decides when the run is over: `NeverOver` if each loop is to make all its turns.
    pub ending: &'a E,
    /// How many turns each loop makes at most.
    pub turns: u64,
}

impl<'a, G, E> Copy for LoopOptions<'a, G, E> {}

impl<'a, G, E> Clone for LoopOptions<'a, G, E> {
    ghost is_clone = { λ options copy. copy ≡ options };

    ghost is_infallible = { λ _. ⊤ };

    fn clone(&self) -> Result<Self, AllocError> {
        Ok(*self)
    }
}
