//! A look at the table: what follows from a seat's knowledge about all that happened.

ghost use Rattle.std.specs.Prelude.{◌≡◌, ℕ};
ghost use Rattle.rp_board.specs.Looks.{IsWorldOf};
ghost use Rattle.rp_board.specs.Parts.{Part, part_in};
ghost use Rattle.rp_board.specs.Plays.{IsSized};
ghost use Rattle.rp_board.specs.Seats.{table_setting};

use crate::board::{Known, Place, Slots};
use crate::events::Fact;
use atomic_table::Play;
use rp_machine::Machine;
use std::marker::PhantomData;

/// Nothing changes, and the fact `J` holds of the first part that the seat knows.
struct Looks<J> {
    of: PhantomData<J>,
}

impl<J: Fact> Play<Option<Vec<u8>>, Known> for Looks<J> {
    ghost use Rattle.std.specs.Prelude.{◌≡◌};
    ghost use Rattle.rp_board.specs.Parts.{part_in};

    ghost then = { λ step old found new. (new ≡ old) × J.says (part_in old.0) };
}

/// Looks at the table. The fact that the caller chose must follow from each world that contains the
/// seat's view; then it holds of the first part that the seat knows.
pub fn look<M: Machine, J: Fact>(slots: &Slots<M>, place: &mut Place)
    requires table { place.old.table_id ≡ slots.now.table_id }
    requires sized { IsSized slots.now.table_id }
    requires follows { (parts : ℕ → Part)
        → IsWorldOf (table_setting M.Machine slots.now.key) place.old.me.0 parts
        → J.says (part_in place.old.me.0) }
    ensures table { place.new.table_id ≡ place.old.table_id }
    ensures place { place.new.me ≡ place.old.me }
    ensures picked { J.says (part_in place.old.me.0) }
{
    slots.load::<Looks<J>>(place, 0);
}
