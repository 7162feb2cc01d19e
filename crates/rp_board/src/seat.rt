//! A seat at the table, and what every seat does with its boxes: it fetches the packets of those to
//! it, and puts packets into those from it.

ghost use Rattle.std.specs.Prelude.{◌≡◌, ◌∷◌, [], IfErr, IfSome, IfNone, OnOk};
ghost use Rattle.rp_board.specs.Looks.{HasWorld, WasSent};
ghost use Rattle.rp_board.specs.Moments.{WasInUse, WasNotFull, WasPut};
ghost use Rattle.rp_board.specs.Parts.{actor_of};
ghost use Rattle.rp_board.specs.Rule.{HasOwnPackets};
ghost use Rattle.rp_board.specs.Seats.{IsFetched, IsNoted, IsPut, IsSentText, setting_at};
ghost use Rattle.rp_board.specs.Steps.{HasEvent};

use crate::actors::{Sits, actor_of, receiver};
use crate::board::{Board, Place};
use crate::boxes::{empty, fill};
use crate::events::{Fact, Turns};
use crate::laws::events_keep;
use crate::looks::look;
use crate::spares::{keep, keep_left, spare_buffer};
use rp_codec::Party;
use rp_machine::Machine;
use std::alloc::Global;
use std::marker::{Brand, Model};
use std::sync::Arc;

/// A seat, which fetches the packets that are sent to its party.
pub trait Fetch<M: Machine> {
    ghost use Rattle.std.specs.Prelude.{ℕ};
    ghost use Rattle.rp_codec.specs.declared.packet.Party.{Party};
    ghost use Rattle.rp_board.specs.Seats.{SeatState};

    /// The state of the seat.
    ghost state: { Self → SeatState M.Program };

    /// Who sits there, by its number.
    ghost party: { ℕ → Party };

    /// Takes the packet out of the box from that party to this seat, and returns its text, or
    /// `None` if the box is not full. That party has sent it. If the seat keeps a buffer, it leaves
    /// one in the box for that party's next packet.
    fn fetch(&mut self, from: Party) -> Option<Vec<u8>>
        // claim: A packet that a seat fetches is to this party and from the one asked, which has
        //   sent it in a world that keeps the rule and has this seat's view; the seat has then got
        //   it. `None` only if the box was not full
        ensures some { IfSome result (λ text. IsFetched from (party (state self.old).setup.number)
            text.items (state self.old) (state self.new)) }
        ensures sent { IfSome result (λ text. WasSent M.next M.answers M.begin from
            (party (state self.new).setup.number) text.items (state self.new)) }
        ensures none { IfNone result (self.new ≡ self.old) }
        ensures missed { IfNone result (WasNotFull M.next M.answers M.begin from
            (party (state self.new).setup.number) (state self.new)) };
}

/// A seat whose party sends packets.
pub trait Put<M: Machine> {
    ghost use Rattle.std.specs.Prelude.{ℕ};
    ghost use Rattle.rp_codec.specs.declared.packet.Party.{Party};
    ghost use Rattle.rp_board.specs.Seats.{SeatState};

    /// The state of the seat.
    ghost state: { Self → SeatState M.Program };

    /// Who sits there, by its number.
    ghost party: { ℕ → Party };

    /// Puts a packet that an event of this seat sent, given as its text, into the box to its
    /// receiver. If that box is not empty, the packet is given back. The seat keeps the buffer that
    /// the receiver left there.
    fn put(&mut self, packet: Vec<u8>) -> Result<(), Vec<u8>>
        requires sent { IsSentText (state self.old).part packet.items }
        // claim (put, full, back, unchanged, used): At Ok the packet is put: it went into the box
        //   to its receiver, which holds it until the receiver takes it. Else it is given back
        //   unchanged, the seat does not change, and the box was in use at a moment
        ensures put { OnOk result (IsPut packet.items (state self.old) (state self.new)) }
        ensures full { OnOk result (WasPut M.next M.answers M.begin
            (party (state self.new).setup.number) packet.items (state self.new)) }
        ensures back { IfErr result (λ back. back ≡ packet) }
        ensures unchanged { IfErr result (λ back. self.new ≡ self.old) }
        ensures used { IfErr result (λ back. WasInUse M.next M.answers M.begin
            (party (state self.new).setup.number) packet.items (state self.new)) };

    /// Gives the seat a buffer for later packets, so that these need no new memory. The contents of
    /// the buffer are discarded. A seat keeps at most eight buffers.
    fn lend(&mut self, buffer: Vec<u8>)
        ensures { self.new ≡ self.old };

    /// An empty buffer: one that the seat keeps, or else a new one that has no memory yet.
    fn buffer(&mut self, alloc: Global) -> Vec<u8>
        ensures empty { result.items ≡ [] }
        ensures unchanged { self.new ≡ self.old };
}

/// A seat at the table that all seats share: who sits there, its place, and buffers for later
/// packets. The seats of nodes and of tasks are made of one.
#[derive(Drop)]
pub struct Seat<M: Machine, S: Sits> {
    pub number: S,
    pub place: Place,
    pub board: Arc<Board<M>, Global>,
    /// Buffers for later packets.
    pub spares: Vec<Vec<u8>>,
}

/// The seat of the audit. It may be moved to another thread, and none of its calls blocks.
pub type AuditSeat<M> = Seat<M, ()>;

impl<M: Machine, S: Sits> Model for Seat<M, S> {
    ghost use Rattle.std.specs.Arc.{arc_value};
    ghost use Rattle.rp_board.specs.Parts.{actor_of, part_in};
    ghost use Rattle.rp_board.specs.Seats.{SeatState, IsAtTable};

    ghost Value = { SeatState M.Program };

    ghost view = { λ s. record {
      setup = record {
        table = s.place.table_id;
        config = (arc_value s.board).shared.key.config;
        program = (arc_value s.board).shared.key.program.value;
        number = S.number s.number;
      };
      failures = 0;
      part = part_in s.place.me.0;
    } };

    ghost invariant = { λ s. IsAtTable (arc_value s.board).shared.table_id s.place.table_id
        (actor_of (S.party (S.number s.number))) s.place.me };
}

impl<M: Machine, S: Sits> Seat<M, S> {
    /// The number of who sits there.
    pub fn number(&self) -> S
        ensures { S.number result ≡ self.now.setup.number }
    {
        self.number
    }

    /// The packets that the seat sent are valid and from its party, those that it got are valid and
    /// to it. It does nothing: its contract is for the callers' proofs.
    pub fn packets_are_right(&self)
        ensures { HasOwnPackets (actor_of (S.party self.now.setup.number)) self.now.part }
    {
        let _ = &self.place;
    }

    /// Counts an event of the seat's party. The caller chooses a fact that holds of the part after
    /// the event. The fact may name what the call is given, so the caller gives what the event was,
    /// and what made it, though no code reads them.
    pub fn note<E, J: Fact>(&mut self, event: &E)
        requires { HasEvent (setting_at M.next M.answers M.begin self.old)
            (actor_of (S.party self.old.setup.number)) self.old.part J.says }
        ensures { IsNoted J.says self.old self.new }
    {
        events_keep::<M>();
        let word = 256 + actor_of(self.number.sitting());
        let table = &self.board.shared;
        table.fetch_add::<Turns<J>>(&mut self.place, word, 1);
    }

    /// Looks at the table: there is a world that satisfies the rule and contains what the seat
    /// knows.
    pub fn look(&mut self)
        ensures unchanged { self.new ≡ self.old }
        ensures world { HasWorld (setting_at M.next M.answers M.begin self.old)
            ((actor_of (S.party self.old.setup.number), self.old.part) ∷ []) }
    {
        look::<M, Brand>(&self.board.shared, &mut self.place);
    }
}

impl<M: Machine, S: Sits> Fetch<M> for Seat<M, S> {
    ghost state = { λ seat. seat };

    ghost party = { S.party };

    fn fetch(&mut self, from: Party) -> Option<Vec<u8>> {
        let from = actor_of(from);
        let to = actor_of(self.number.sitting());
        empty(
            &self.board.shared,
            &mut self.place,
            from,
            to,
            &mut self.spares,
        )
    }
}

impl<M: Machine, S: Sits> Put<M> for Seat<M, S> {
    ghost state = { λ seat. seat };

    ghost party = { S.party };

    fn put(&mut self, packet: Vec<u8>) -> Result<(), Vec<u8>> {
        let to = receiver(packet.as_slice());
        let from = actor_of(self.number.sitting());
        let left = fill(&self.board.shared, &mut self.place, from, to, packet)?;
        keep_left(&mut self.spares, left);
        Ok(())
    }

    fn lend(&mut self, buffer: Vec<u8>) {
        keep(&mut self.spares, buffer);
    }

    fn buffer(&mut self, alloc: Global) -> Vec<u8> {
        spare_buffer(&mut self.spares, alloc)
    }
}
