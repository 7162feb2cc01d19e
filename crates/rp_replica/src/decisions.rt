//! The plans of a learner, committed: votes and decisions that count (Lamport, "Paxos Made Simple",
//! section 2.3).

ghost use Rattle.std.specs.Prelude.{◌≡◌, ◌++◌, ◌∷◌, ◌+◌, ◌*◌, ◌≤◌, [], length, Some, false, IfErr, IfSome, IsOkUnless, OnOk, OnErr};
ghost use Rattle.rp_base.specs.declared.fault.WriteFault.TheVariants as faults;
ghost use Rattle.rp_base.specs.declared.record.Rec.TheVariants.{Learned};
ghost use Rattle.rp_base.specs.WriteFaults.{fault_of};
ghost use Rattle.rp_codec.specs.Tails.{decision_text};
ghost use Rattle.rp_codec.specs.declared.packet.Body.TheVariants as bodies;
ghost use Rattle.rp_model.specs.Learner.{learns, missing_position, asks_for};
ghost use Rattle.rp_model.specs.Says.{says_to_others, notes};
ghost use Rattle.rp_replica.specs.Committing.{Commits};
ghost use Rattle.rp_replica.specs.State.{after_turn, server_of};
ghost use Rattle.rp_base.specs.Action.{IsRight};
ghost use Rattle.rp_base.specs.Promises.{HeardVote};
ghost use Rattle.rp_base.specs.Sets.{Has};
ghost use Rattle.rp_rules.specs.rp_server.specs.Applying.{IsTail, learns_alone, decided_packets};
ghost use Rattle.rp_outbox.specs.Packets.{longest_text};
ghost use Rattle.rp_model.specs.Plans.{heard_running};
ghost use Rattle.rp_rules.specs.Plans.{MayHear, MayLearn};
ghost use Rattle.rp_replica.specs.Turning.{Stops};

use crate::replica::Replica;
use rp_base::{Action, NodeId, Position, Vote, WriteFault};
use rp_codec::{Body, DecisionTail};
use rp_machine::Machine;
use rp_model::Dropped;
use rp_outbox::Outbox;
use rp_server::Decision;
use rp_store::Device;
use std::alloc::Global;

impl<M: Machine, D: Device> Replica<M, D> {
    /// A vote makes a majority: the action is learned, and the other nodes are informed.
    #[inline(always)]
    pub(crate) fn learn_by_votes(
        &mut self,
        out: &mut Outbox,
        position: Position,
        action: &Action,
        tail: Option<DecisionTail>,
    ) -> Result<(), WriteFault>
        requires working { self.old.failed ≡ false }
        requires may { MayLearn (server_of self.old) position action.now }
        requires tail { IfSome tail (λ t. t ≡ decision_text position action.now) }
        ensures ok { OnOk result (Commits (learns M.next M.answers self.old.begin
            self.old.me self.old.records self.old.running position action.now
            (says_to_others self.old.config.nodes self.old.me
            (bodies.Decided position action.now)) [])
            self.old self.new out.old.sent out.new.sent) }
        ensures err { IfErr result (λ fault.
            Stops (Some (Learned position action.now)) self.old self.new (fault_of fault)) }
        ensures unsent { OnErr result (out.new.sent ≡ out.old.sent) }
    {
        self.reserve_replies(out)?;
        let decision = Decision {
            position,
            action: *action,
            announces: true,
            tail,
        };
        self.learn(decision, out)?;
        Ok(())
    }

    /// A node sent a decision: the action is learned, and the node is asked for what is missing.
    #[inline(always)]
    pub(crate) fn learn_by_decision(
        &mut self,
        out: &mut Outbox,
        from: NodeId,
        position: Position,
        action: &Action,
        tail: Option<DecisionTail>,
    ) -> Result<(), WriteFault>
        requires working { self.old.failed ≡ false }
        requires may { MayLearn (server_of self.old) position action.now }
        requires tail { IfSome tail (λ t. t ≡ decision_text position action.now) }
        ensures ok { OnOk result (Commits (learns M.next M.answers self.old.begin
            self.old.me self.old.records self.old.running position action.now []
            (asks_for self.old.me from (missing_position
            (self.old.records ++ Learned position action.now ∷ []))))
            self.old self.new out.old.sent out.new.sent) }
        ensures err { IfErr result (λ fault.
            Stops (Some (Learned position action.now)) self.old self.new (fault_of fault)) }
        ensures unsent { OnErr result (out.new.sent ≡ out.old.sent) }
    {
        self.reserve_replies(out)?;
        let decision = Decision {
            position,
            action: *action,
            announces: false,
            tail,
        };
        self.learn(decision, out)?;
        self.ask_for_missing(from, out);
        Ok(())
    }

    /// Learns an action at a position of the log: it is written, the other nodes are informed if
    /// this one informs them, all that is ready then is applied, and each answer whose call is
    /// pending is replied to. After the write it takes no memory.
    #[inline(always)]
    fn learn(&mut self, decision: Decision, out: &mut Outbox) -> Result<(), WriteFault>
        requires working { self.old.failed ≡ false }
        requires place { decision.position ≤ self.old.config.max_positions }
        requires right { IsRight decision.action }
        requires tail { IsTail decision }
        requires room { longest_text
            * (self.old.config.nodes + length self.old.running.pending) ≤ out.old.room }
        ensures learned { OnOk result (self.new ≡ after_turn self.old (learns_alone M.next M.answers
            (server_of self.old) decision.position decision.action)) }
        ensures replied { OnOk result (out.new.sent ≡ out.old.sent
            ++ (decided_packets self.old.config.nodes self.old.me decision.position decision.action
            decision.announces
            ++ (learns_alone M.next M.answers
            (server_of self.old) decision.position decision.action).sent)) }
        ensures room { OnOk result (out.old.room ≤ out.new.room
            + longest_text * (self.old.config.nodes + length self.old.running.pending)) }
        ensures unsent { OnErr result (out.new.sent ≡ out.old.sent) }
        ensures err { IfErr result (λ fault. Stops (Some
            (Learned decision.position decision.action)) self.old self.new (fault_of fault)) }
    {
        self.server.learn(&mut self.store, out, decision)
    }

    /// Notes a vote of one of the nodes that is counted, and settles nothing. It is out of memory
    /// only for a vote that was not heard, and then changes nothing.
    #[inline(always)]
    pub(crate) fn hear(
        &mut self,
        alloc: Global,
        from: NodeId,
        position: Position,
        vote: &Vote,
    ) -> Result<(), WriteFault>
        requires may { MayHear (server_of self.old) from position vote.now }
        ensures ok { OnOk result (self.new ≡ after_turn self.old
            (notes (heard_running self.old.running from position vote.now))) }
        ensures err { OnErr result (self.new ≡ self.old) }
        ensures only { IsOkUnless result faults.OutOfMemory }
        ensures unheard { OnErr result
            (¬ Has {A = HeardVote} (from, position, vote.now) self.old.running.heard) }
    {
        self.server.hear(alloc, from, position, vote)
    }

    /// Makes room for a packet to each node, a reply to each pending call, and one packet more.
    fn reserve_replies(&self, out: &mut Outbox) -> Result<(), WriteFault>
        ensures sent { out.new.sent ≡ out.old.sent }
        ensures room { OnOk result (longest_text
            * (self.now.config.nodes + length self.now.running.pending + 1) ≤ out.new.room) }
        ensures only { IsOkUnless result faults.OutOfMemory }
    {
        Ok(out.reserve(usize::from(self.server.config().nodes) + self.server.pending_len() + 1)?)
    }

    /// Where a position is missing below a learned one, the node is asked for it.
    fn ask_for_missing(&self, from: NodeId, out: &mut Outbox)
        requires { longest_text ≤ out.old.room }
        ensures { out.new.sent ≡ out.old.sent
            ++ asks_for self.now.me from (missing_position self.now.records) }
    {
        if let Some(position) = self.server.missing_position() {
            out.say(self.server.me(), from, Body::Ask { position });
        }
    }
}
