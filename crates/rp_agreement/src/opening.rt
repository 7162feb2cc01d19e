//! The invariant holds where nothing has happened.

ghost use Rattle.std.specs.Prelude.{ℕ};
ghost use Rattle.rp_model.specs.World.{opening_world};
ghost use Rattle.rp_agreement.specs.Worlds.{IsSoundWorld};

/// The opening world of n nodes satisfies the invariant.
pub fn the_opening_is_sound()
    ensures { (nodes : ℕ) → IsSoundWorld nodes (opening_world nodes) }
{}
