//! Places are joined and split, and the audit's seat looks at the table with the seat of a task.

ghost use Rattle.std.specs.Prelude.{◌≡◌, ◌+◌, ◌++◌, ◌∷◌, ℕ, []};
ghost use Rattle.rp_board.specs.Looks.{HasWorld};
ghost use Rattle.rp_board.specs.Parts.{Part, View, actor_in, first_in, others_in, part_in};
ghost use Rattle.rp_board.specs.Plays.{IsSized, alone};
ghost use Rattle.rp_board.specs.Seats.{setting_at, table_setting};

use crate::board::{Known, Place, Slots};
use crate::looks::look;
use crate::seat::{AuditSeat, Seat};
use atomic_table::{Join, Split};
use rp_base::TaskId;
use rp_machine::Machine;
use std::marker::Brand;

/// Joins two places: one place then knows what both knew.
struct Both;

impl Join<Known> for Both {
    ghost use Rattle.std.specs.Prelude.{◌++◌, []};

    ghost both = { λ one other. one ++ other };

    ghost spent = { [] };
}

/// Joins the place of one actor to another place.
pub fn take_in<M: Machine>(slots: &Slots<M>, all: &mut Place, other: Place)
    requires table { (all.old.table_id ≡ slots.now.table_id)
        × (other.table_id ≡ slots.now.table_id) }
    requires sized { IsSized slots.now.table_id }
    requires other { other.me ≡ alone (actor_in other.me.0) (part_in other.me.0) }
    ensures table { all.new.table_id ≡ all.old.table_id }
    ensures both { all.new.me ≡ (all.old.me.0 ++ other.me.0, all.old.me.1) }
{
    slots.join_seat::<Both>(all, other);
}

/// Splits a place: the first actor that it knows gets a place of its own.
struct First;

impl Split<Known> for First {
    ghost use Rattle.rp_board.specs.Parts.{first_in, others_in};

    ghost left = { others_in };

    ghost right = { first_in };
}

/// Splits off the first actor that this place knows, and returns the place of that actor.
pub fn split<M: Machine>(slots: &Slots<M>, place: &mut Place) -> Place
    requires table { place.old.table_id ≡ slots.now.table_id }
    requires sized { IsSized slots.now.table_id }
    requires some { (first : ℕ × Part) × (others : View) × (place.old.me.0 ≡ first ∷ others) }
    ensures same { (place.new.table_id ≡ place.old.table_id)
        × (result.table_id ≡ place.old.table_id) }
    ensures others { place.new.me ≡ (others_in place.old.me.0, place.old.me.1) }
    ensures first { result.me ≡ (first_in place.old.me.0, []) }
{
    slots.split_seat::<First>(place)
}

/// Joins two places of one actor each, looks at the table, and splits them again.
fn look_together<M: Machine>(slots: &Slots<M>, one: Place, other: Place) -> (Place, Place)
    requires table { (one.table_id ≡ slots.now.table_id) × (other.table_id ≡ slots.now.table_id) }
    requires sized { IsSized slots.now.table_id }
    requires one { one.me ≡ alone (actor_in one.me.0) (part_in one.me.0) }
    requires other { other.me ≡ alone (actor_in other.me.0) (part_in other.me.0) }
    ensures same { (result.0.table_id ≡ one.table_id) × (result.1.table_id ≡ one.table_id) }
    ensures places { (result.0.me ≡ one.me) × (result.1.me ≡ other.me) }
    ensures world { HasWorld (table_setting M.Machine slots.now.key) (one.me.0 ++ other.me.0) }
{
    let mut both = one;
    slots.join_seat::<Both>(&mut both, other);
    look::<M, Brand>(slots, &mut both);
    let first = split::<M>(slots, &mut both);
    (first, both)
}

impl<M: Machine> Seat<M, ()> {
    /// Looks at the table together with the seat of a task.
    pub fn look_with_seat(self, seat: Seat<M, TaskId>) -> (AuditSeat<M>, Seat<M, TaskId>)
        requires { self.setup.table ≡ seat.setup.table }
        ensures same { (result.0 ≡ self) × (result.1 ≡ seat) }
        ensures world { HasWorld (setting_at M.next M.answers M.begin seat)
            ((7 + seat.setup.number, seat.part) ∷ (0, self.part) ∷ []) }
    {
        let Seat {
            number: none,
            place: own_place,
            board: own_board,
            spares: own_spares,
        } = self;
        let Seat {
            number,
            place,
            board,
            spares,
        } = seat;
        let (place, own_place) = look_together::<M>(&board.shared, place, own_place);
        let audit = Seat {
            number: none,
            place: own_place,
            board: own_board,
            spares: own_spares,
        };
        let seat = Seat {
            number,
            place,
            board,
            spares,
        };
        (audit, seat)
    }
}
