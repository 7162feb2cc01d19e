//! All seats look at the table together, for the last time.

ghost use Rattle.std.specs.Prelude.{◌≡◌, ◌+◌, ◌++◌, ◌∷◌, ℕ, All, map};
ghost use Rattle.rp_board.specs.Looks.{HasWorld};
ghost use Rattle.rp_board.specs.Plays.{IsSized, alone};
ghost use Rattle.rp_board.specs.Seats.{setting_at, table_setting};
ghost use Rattle.rp_boxes.specs.Together.{AreTogether, of_node, of_task};

use crate::audit::Audit;
use crate::node_seat::NodeSeat;
use crate::task_seat::TaskSeat;
use rp_agreement::{applied_lists_are_prefixes, reports_follow_the_order};
use rp_board::{AuditSeat, Place, Seat, Sits, Slots, look, order_laws, take_in};
use rp_machine::Machine;
use rp_store::Device;
use std::marker::Brand;

/// A seat that ends and hands over the place of its actor.
trait Leaves: Drop {
    ghost use Rattle.std.specs.Prelude.{ℕ};
    ghost use Rattle.atomic_table.specs.Seated.{TableId};
    ghost use Rattle.rp_board.specs.Parts.{Part};

    ghost at: { Self → TableId };

    ghost known: { Self → ℕ × Part };

    fn into_place(self) -> Place
        ensures table { result.table_id ≡ at self }
        ensures knows { result.me ≡ alone (known self).0 (known self).1 };
}

impl<M: Machine, S: Sits> Leaves for Seat<M, S> {
    ghost use Rattle.rp_board.specs.Parts.{actor_of};

    ghost at = { λ seat. seat.setup.table };

    ghost known = { λ seat. (actor_of (S.party seat.setup.number), seat.part) };

    fn into_place(self) -> Place {
        self.place
    }
}

impl<M: Machine, D: Device> Leaves for NodeSeat<M, D> {
    ghost use Rattle.rp_boxes.specs.Together.{of_node};

    ghost at = { λ seat. seat.setup.table };

    ghost known = { of_node };

    fn into_place(self) -> Place {
        self.seat.into_place()
    }
}

impl<M: Machine> Leaves for TaskSeat<M> {
    ghost use Rattle.rp_boxes.specs.Together.{of_task};

    ghost at = { λ seat. seat.setup.table };

    ghost known = { of_task };

    fn into_place(self) -> Place {
        self.seat.into_place()
    }
}

/// Joins the places of seats that end to another place.
fn take_seats<M: Machine, S: Leaves>(slots: &Slots<M>, all: &mut Place, seats: Vec<S>)
    requires table { all.old.table_id ≡ slots.now.table_id }
    requires sized { IsSized slots.now.table_id }
    requires seats { All (λ seat. S.at seat ≡ slots.now.table_id) seats.items }
    ensures table { all.new.table_id ≡ all.old.table_id }
    ensures all { all.new.me ≡ (all.old.me.0 ++ map S.known seats.items, all.old.me.1) }
{
    for seat in seats {
        take_in(slots, all, seat.into_place());
    }
}

/// Joins the places of nodes and tasks to another place, and looks at the table.
fn look_as_one<M: Machine, D: Device>(
    slots: &Slots<M>,
    place: Place,
    nodes: Vec<NodeSeat<M, D>>,
    tasks: Vec<TaskSeat<M>>,
)
    requires table { place.table_id ≡ slots.now.table_id }
    requires sized { IsSized slots.now.table_id }
    requires nodes { All (λ seat. seat.setup.table ≡ slots.now.table_id) nodes.items }
    requires tasks { All (λ seat. seat.setup.table ≡ slots.now.table_id) tasks.items }
    ensures { HasWorld (table_setting M.Machine slots.now.key)
        ((place.me.0 ++ map of_node nodes.items) ++ map of_task tasks.items) }
{
    let mut all = place;
    take_seats(slots, &mut all, nodes);
    take_seats(slots, &mut all, tasks);
    look::<M, Brand>(slots, &mut all);
}

/// The audit looks at the table together with nodes and tasks of the same table: one world contains
/// what all of them know.
fn look_with<M: Machine, D: Device>(
    audit: AuditSeat<M>,
    nodes: Vec<NodeSeat<M, D>>,
    tasks: Vec<TaskSeat<M>>,
)
    requires nodes { All (λ seat. seat.setup.table ≡ audit.setup.table) nodes.items }
    requires tasks { All (λ seat. seat.setup.table ≡ audit.setup.table) tasks.items }
    ensures { HasWorld (setting_at M.next M.answers M.begin audit)
        (((0, audit.part) ∷ map of_node nodes.items) ++ map of_task tasks.items) }
{
    let Seat {
        number: _none,
        place,
        board,
        spares: _spares,
    } = audit;
    look_as_one(&board.shared, place, nodes, tasks);
}

impl<M: Machine> Audit<M> {
    /// The audit, nodes and tasks of one table look at it together, and their seats end. There is
    /// one order of decided actions: what the audit knows of each node is a prefix of it, what each
    /// of the nodes has applied is a prefix of it, and it answers the calls of all of the tasks.
    /// What the audit knows of one of the nodes is what that node has reported. Each of them has
    /// got what the others put for it, except for packets that are still in their boxes.
    pub fn look_together<D: Device>(self, nodes: Vec<NodeSeat<M, D>>, tasks: Vec<TaskSeat<M>>)
        requires nodes { All (λ seat. seat.setup.table ≡ self.seat.setup.table) nodes.items }
        requires tasks { All (λ seat. seat.setup.table ≡ self.seat.setup.table) tasks.items }
        // claim (result): All seats of one table together have one order, in a world that contains
        //   their parts: its action at each position is decided there, no call takes effect in it
        //   that no task of that world made, and none at two places. What the audit knows of each
        //   node and what each node has applied is a prefix of it; each action known of a node was
        //   reported by that node's own seat; each reply of each task is the answer there, at one
        //   place, and the task's calls that count are its own
        // claim (result): Of any two of the actors of one table that look together, the packets
        //   that one got from the other are those that the other put for it, in order: all of
        //   them, or all but the last, so no box loses, repeats, reorders or changes a packet
        ensures { AreTogether M.next M.answers M.begin self nodes.items tasks.items }
    {
        reports_follow_the_order();
        applied_lists_are_prefixes();
        order_laws::<M>();
        let Audit {
            seat,
            known: _known,
        } = self;
        look_with(seat, nodes, tasks);
    }
}
