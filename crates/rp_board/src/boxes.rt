//! The steps at a box: its sender fills it, its receiver empties it.

ghost use Rattle.std.specs.Prelude.{◌≡◌, ◌≢◌, ◌<◌, ℕ, ◌∷◌, [], Some, None, Vec, true, false, slice_index, IfOk, IfErr, IfSome, IfNone, OnOk};
ghost use Rattle.std.specs.declared.alloc.Global.{Global};
ghost use mathlib.Core.Option.{some};
ghost use lib.ListN.{get_elem?};
ghost use Rattle.atomic_table.specs.Table.{State};
ghost use Rattle.rp_base.specs.Sets.{Has};
ghost use Rattle.rp_codec.specs.Message.{Message};
ghost use Rattle.rp_board.specs.Looks.{HasWorld};
ghost use Rattle.rp_board.specs.Moments.{IsMoment, MayClaim, WasFull, WasWord};
ghost use Rattle.rp_board.specs.Parts.{View, box_of, emptying, filled, filling, part_in, with_got};
ghost use Rattle.rp_board.specs.Plays.{IsPutBy, IsSized, alone, holding};
ghost use Rattle.rp_board.specs.Rule.{IsCarried, IsVacant, Slot};
ghost use Rattle.rp_board.specs.Seats.{table_setting};

use crate::board::{Known, Place, Slots};
use crate::events::Fact;
use crate::looks::look;
use crate::spares::spare;
use atomic_table::Play;
use rp_machine::Machine;
use std::marker::{Brand, PhantomData};

/// The box holds no packet. It may hold a buffer that its receiver left there for the sender.
const EMPTY: u64 = 0;
/// Its sender is putting a packet into it.
const FILLING: u64 = 1;
/// It holds a packet.
const FULL: u64 = 2;
/// Its receiver is taking the packet out.
const EMPTYING: u64 = 3;

/// The sender claims an empty box. If it is not empty, the fact `J` holds of the sender's part.
struct Claim<J> {
    of: PhantomData<J>,
}

impl<J: Fact> Play<Option<Vec<u8>>, Known> for Claim<J> {
    ghost use Rattle.std.specs.Prelude.{◌≢◌};
    ghost use Rattle.rp_board.specs.Parts.{part_in};
    ghost use Rattle.rp_board.specs.Plays.{Claimed};

    ghost then = { λ step old found new. Claimed step.word old found new
        × (found ≢ 0 → J.says (part_in old.0)) };
}

/// The sender releases a box that it has filled, and the fact `J` holds of the sender's part.
struct Publish<J> {
    of: PhantomData<J>,
}

impl<J: Fact> Play<Option<Vec<u8>>, Known> for Publish<J> {
    ghost use Rattle.rp_board.specs.Parts.{actor_in};
    ghost use Rattle.rp_board.specs.Plays.{IsPublished};

    ghost then = { λ step old found new. IsPublished J.says (actor_in old.0) old new };
}

/// The receiver claims a full box. If it is not full, the fact `J` holds of the receiver's part.
struct Take<J> {
    of: PhantomData<J>,
}

impl<J: Fact> Play<Option<Vec<u8>>, Known> for Take<J> {
    ghost use Rattle.std.specs.Prelude.{◌≢◌};
    ghost use Rattle.rp_board.specs.Parts.{part_in};
    ghost use Rattle.rp_board.specs.Plays.{Took};

    ghost then = { λ step old found new. Took step.word old found new
        × (found ≢ 2 → J.says (part_in old.0)) };
}

/// The receiver releases a box that it has emptied.
struct Clear;

impl Play<Option<Vec<u8>>, Known> for Clear {
    ghost use Rattle.rp_board.specs.Plays.{Cleared};

    ghost then = { λ step old found new. Cleared old new };
}

/// Claims the box to another actor if it is empty, and returns whether it was. If it was not, the
/// fact that the caller chose holds of the actor's part.
fn claim_empty<M: Machine, J: Fact>(
    slots: &Slots<M>,
    place: &mut Place,
    from: usize,
    to: usize,
) -> bool
    requires { MayClaim (table_setting M.Machine slots.now.key) slots.now.table_id
        place.old.table_id from from to place.old.me (λ part. part.fills) 0 J.says }
    ensures table { place.new.table_id ≡ place.old.table_id }
    ensures hit { result ≡ true → (slot : Slot) × IsVacant slot × (place.new.me ≡ holding from
        (filling (box_of from to) (part_in place.old.me.0)) (box_of from to) slot) }
    ensures miss { result ≡ false → (place.new.me ≡ place.old.me)
        × J.says (part_in place.old.me.0) }
{
    slots.compare_exchange::<Claim<J>>(place, 16 * from + to, EMPTY, FILLING) == EMPTY
}

/// Puts a packet that the actor sent into the box that it claimed, and releases the box. Returns
/// the buffer that was in the box, if there was one. The fact that the caller chose then holds of
/// the actor's part, in which that packet is put.
fn deliver<M: Machine, J: Fact>(
    slots: &Slots<M>,
    place: &mut Place,
    from: usize,
    to: usize,
    packet: Vec<u8>,
) -> Option<Vec<u8>>
    requires table { place.old.table_id ≡ slots.now.table_id }
    requires sized { IsSized slots.now.table_id }
    requires from { from < 16 }
    requires to { to < 16 }
    requires place { (slot : Slot) × IsVacant slot
        × (place.old.me ≡ holding from (part_in place.old.me.0) (box_of from to) slot) }
    requires fills { (part_in place.old.me.0).fills ≡ box_of from to ∷ [] }
    requires packet { (m : Message) × Has m (part_in place.old.me.0).sent
        × IsCarried from to packet.items m
        × ((table : State Slot View)
        → IsMoment (table_setting M.Machine slots.now.key)
        ((from, filled m (part_in place.old.me.0)) ∷ []) table
        → slice_index table.words (box_of from to) ≡ 2
        → get_elem? table.homes (box_of from to) ≡ some (some (Some packet))
        → J.says (filled m (part_in place.old.me.0))) }
    ensures table { place.new.table_id ≡ place.old.table_id }
    ensures place { place.new.me ≡ alone from (part_in place.new.me.0) }
    ensures picked { J.says (part_in place.new.me.0) }
    ensures vacant { IsVacant result }
{
    let at = 16 * from + to;
    let left = slots.exchange(place, at, Some(packet));
    slots.store::<Publish<J>>(place, at, FULL);
    left
}

/// Puts a packet that the actor sent into its box to another actor, if that box is empty, and
/// returns the empty buffer that was in it, if there was one. Otherwise gives the packet back.
pub(crate) fn fill<M: Machine>(
    slots: &Slots<M>,
    place: &mut Place,
    from: usize,
    to: usize,
    packet: Vec<u8>,
) -> Result<Option<Vec<u8>>, Vec<u8>>
    requires table { place.old.table_id ≡ slots.now.table_id }
    requires sized { IsSized slots.now.table_id }
    requires from { from < 16 }
    requires to { to < 16 }
    requires place { place.old.me ≡ alone from (part_in place.old.me.0) }
    requires free { (part_in place.old.me.0).fills ≡ [] }
    requires packet { (m : Message) × Has m (part_in place.old.me.0).sent
        × IsCarried from to packet.items m }
    ensures table { place.new.table_id ≡ place.old.table_id }
    ensures place { place.new.me ≡ alone from (part_in place.new.me.0) }
    ensures put { OnOk result (IsPutBy from to packet.items (part_in place.old.me.0)
        (part_in place.new.me.0)) }
    ensures full { OnOk result (WasFull (table_setting M.Machine slots.now.key) place.new.me.0
        (box_of from to) packet.items) }
    ensures vacant { IfOk result IsVacant }
    ensures back { IfErr result (λ back. back ≡ packet) }
    ensures unchanged { IfErr result (λ back. place.new.me ≡ place.old.me) }
    ensures used { IfErr result
        (λ back. WasWord (table_setting M.Machine slots.now.key) place.new.me.0 (box_of from to)
        (λ word. word ≢ 0)) }
{
    if !claim_empty::<M, Brand>(slots, place, from, to) {
        return Err(packet);
    }
    Ok(deliver::<M, Brand>(slots, place, from, to, packet))
}

/// Claims the box from another actor if it is full, and returns whether it was. If it was not, the
/// fact that the caller chose holds of the actor's part.
fn claim_full<M: Machine, J: Fact>(
    slots: &Slots<M>,
    place: &mut Place,
    from: usize,
    to: usize,
) -> bool
    requires { MayClaim (table_setting M.Machine slots.now.key) slots.now.table_id
        place.old.table_id to from to place.old.me (λ part. part.takes) 2 J.says }
    ensures table { place.new.table_id ≡ place.old.table_id }
    ensures hit { result ≡ true → (m : Message) × (text : Vec ℕ Global)
        × IsCarried from to text.items m × (place.new.me ≡ holding to
        (emptying (box_of from to) m (part_in place.old.me.0)) (box_of from to) (Some text)) }
    ensures miss { result ≡ false → (place.new.me ≡ place.old.me)
        × J.says (part_in place.old.me.0) }
{
    slots.compare_exchange::<Take<J>>(place, 16 * from + to, FULL, EMPTYING) == FULL
}

/// Takes the packet out of the box from another actor to this one, if the box is full, and looks at
/// the table: there is a world in which the other actor has sent the packet. One of these buffers,
/// if there is one, is left in the box for the sender.
pub(crate) fn empty<M: Machine>(
    slots: &Slots<M>,
    place: &mut Place,
    from: usize,
    to: usize,
    spares: &mut Vec<Vec<u8>>,
) -> Option<Vec<u8>>
    requires table { place.old.table_id ≡ slots.now.table_id }
    requires sized { IsSized slots.now.table_id }
    requires from { from < 16 }
    requires to { to < 16 }
    requires place { place.old.me ≡ alone to (part_in place.old.me.0) }
    requires free { (part_in place.old.me.0).takes ≡ [] }
    ensures table { place.new.table_id ≡ place.old.table_id }
    ensures none { IfNone result (place.new.me ≡ place.old.me) }
    ensures missed { IfNone result
        (WasWord (table_setting M.Machine slots.now.key) place.new.me.0 (box_of from to)
        (λ word. word ≢ 2)) }
    ensures some { IfSome result (λ text. (m : Message) × IsCarried from to text.items m
        × (place.new.me ≡ alone to (with_got m (part_in place.old.me.0)))) }
    ensures world { IfSome result (λ text. HasWorld (table_setting M.Machine slots.now.key)
        place.new.me.0) }
{
    if !claim_full::<M, Brand>(slots, place, from, to) {
        return None;
    }
    let at = 16 * from + to;
    let left = spare(spares);
    let packet = slots.exchange(place, at, left);
    slots.store::<Clear>(place, at, EMPTY);
    look::<M, Brand>(slots, place);
    packet
}
