//! An action that is learned (Lamport, "Paxos Made Simple", section 2.3).

ghost use Rattle.std.specs.Prelude.{◌≡◌, ◌+◌, ◌*◌, ◌≤◌, ◌++◌, ◌∷◌, [], length, drop, OnOk, OnErr, IfErr, false};
ghost use Rattle.rp_base.specs.Action.{IsRight};
ghost use Rattle.rp_base.specs.declared.action.Action.{Action};
ghost use Rattle.rp_base.specs.declared.record.Rec.TheVariants.{Learned};
ghost use Rattle.rp_base.specs.WriteFaults.{fault_of};
ghost use Rattle.rp_model.specs.rp_codec.specs.Record.{record_text, HasRecordRanges};
ghost use Rattle.rp_model.specs.rp_codec.specs.declared.packet.Body.TheVariants.{Decided};
ghost use Rattle.rp_model.specs.Learner.{missing_position};
ghost use Rattle.rp_model.specs.Says.{says_to_others};
ghost use Rattle.rp_outbox.specs.Packets.{longest_text};
ghost use Rattle.rp_store.specs.Stored.{IsPut, IsNotPut};
ghost use Rattle.rp_server.specs.Applying.{IsTail, learns_alone, decided_packets};
ghost use Rattle.rp_server.specs.State.{server_after};

use crate::acceptor::{write, write_text};
use crate::apply::apply_and_reply;
use crate::server::Roles;
use crate::window::follow;
use rp_acceptor::Acceptor;
use rp_base::{Action, NodeId, Position, Rec, WriteFault};
use rp_codec::{DecisionTail, SentDecision, learned_by};
use rp_machine::Machine;
use rp_outbox::Outbox;
use rp_store::{Device, Store};

/// An action that is decided at a position, and whether this node informs the others.
#[derive(Clone, Copy)]
pub struct Decision {
    pub position: Position,
    pub action: Action,
    pub announces: bool,
    /// How the text of the decision ends, where the caller has it.
    pub tail: Option<DecisionTail>,
}

impl<M: Machine> Roles<M> {
    /// Learns an action at a position of the log: it is written, the other nodes are informed if
    /// this one informs them, all that is ready then is applied, and each answer whose call is
    /// pending is replied to. After the write it takes no memory.
    #[inline(always)]
    pub fn learn<D: Device>(
        &mut self,
        store: &mut Store<D>,
        out: &mut Outbox,
        decision: Decision,
    ) -> Result<(), WriteFault>
        requires working { store.old.failed ≡ false }
        requires right { IsRight decision.action }
        requires tail { IsTail decision }
        requires room { longest_text
            * (self.old.config.nodes + length self.old.running.pending) ≤ out.old.room }
        ensures put { OnOk result (IsPut D.disk
            (record_text (Learned decision.position decision.action)) store.old store.new) }
        ensures learned { OnOk result (self.new ≡ server_after self.old
            (learns_alone M.next M.answers self.old decision.position decision.action)) }
        ensures replied { OnOk result (out.new.sent ≡ out.old.sent
            ++ (decided_packets self.old.config.nodes self.old.me decision.position
            decision.action decision.announces
            ++ (learns_alone M.next M.answers self.old decision.position decision.action).sent)) }
        ensures room { OnOk result (out.old.room ≤ out.new.room
            + longest_text * (self.old.config.nodes + length self.old.running.pending)) }
        ensures range { HasRecordRanges (Learned decision.position decision.action) }
        ensures unsent { OnErr result (out.new.sent ≡ out.old.sent) }
        ensures unchanged { OnErr result (self.new ≡ self.old) }
        ensures err { IfErr result (λ fault. IsNotPut D.disk
            (record_text (Learned decision.position decision.action))
            store.old (fault_of fault) store.new) }
    {
        let Decision {
            position,
            action,
            ..
        } = decision;
        let _number = position.get();
        self.log.reserve(position)?;
        write_decision(store, &mut self.acceptor, &decision)?;
        if decision.announces {
            inform_others(out, self.me, self.config.nodes, &decision);
        }
        self.proposer.settled(position);
        self.learner.settled(position);
        self.heard.settle(position, action);
        self.log.learn(position, &action);
        let before = self.log.applied();
        apply_and_reply(
            &mut self.machine,
            &mut self.log,
            self.me,
            &self.pending,
            out,
        );
        follow(&mut self.learner, &self.log);
        self.pending.settle(&self.machine, &self.log, before);
        Ok(())
    }

    /// The first unlearned position, if a learned one lies above it.
    pub fn missing_position(&self) -> Option<Position>
        ensures { result ≡ missing_position self.now.records }
    {
        let next = self.log.next_unlearned();
        let top = self.log.top()?;
        if next < u32::from(top.get()) {
            Position::new(next as u16)
        } else {
            None
        }
    }
}

/// Writes that an action is learned, and notes it once it is stable.
#[inline(always)]
fn write_decision<D: Device>(
    store: &mut Store<D>,
    acceptor: &mut Acceptor,
    decision: &Decision,
) -> Result<(), WriteFault>
    requires right { IsRight decision.now.action }
    requires tail { IsTail decision.now }
    requires working { store.old.failed ≡ false }
    ensures put { OnOk result (IsPut D.disk
        (record_text (Learned decision.now.position decision.now.action)) store.old store.new) }
    ensures noted { OnOk result (acceptor.new.records
        ≡ acceptor.old.records ++ Learned decision.now.position decision.now.action ∷ []) }
    ensures range { HasRecordRanges (Learned decision.now.position decision.now.action) }
    ensures unchanged { OnErr result (acceptor.new.records ≡ acceptor.old.records) }
    ensures err { IfErr result (λ fault. IsNotPut D.disk
        (record_text (Learned decision.now.position decision.now.action))
        store.old (fault_of fault) store.new) }
{
    let rec = Rec::Learned(decision.position, decision.action);
    match &decision.tail {
        Some(tail) => write_text(store, acceptor, &rec, &learned_by(tail)),
        None => write(store, acceptor, &rec),
    }
}

/// Informs the other nodes of a decision.
#[inline(always)]
fn inform_others(out: &mut Outbox, me: NodeId, nodes: u8, decision: &Decision)
    requires nodes { nodes ≤ 7 }
    requires right { IsRight decision.now.action }
    requires tail { IsTail decision.now }
    requires room { longest_text * nodes ≤ out.old.room }
    ensures sent { out.new.sent ≡ out.old.sent ++ says_to_others nodes me
        (Decided decision.now.position decision.now.action) }
    ensures room { out.old.room ≤ out.new.room + longest_text * nodes }
{
    let sent = SentDecision {
        from: me,
        to: me,
        position: decision.position,
        action: decision.action,
    };
    match &decision.tail {
        Some(tail) => out.inform_others_by(&sent, tail, nodes),
        None => out.inform_others(&sent, nodes),
    }
}
