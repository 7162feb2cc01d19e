//! The plans of a leader, committed: a proposal begins, and promises and refusals count (Lamport,
//! "Paxos Made Simple", section 2.2).

ghost use Rattle.std.specs.Prelude.{◌≡◌, [], Some, None, IfErr, OnOk, OnErr, false};
ghost use Rattle.rp_base.specs.Action.{IsRight};
ghost use Rattle.rp_base.specs.Config.{IsRightConfig};
ghost use Rattle.rp_base.specs.declared.record.Rec.TheVariants.{Started};
ghost use Rattle.rp_codec.specs.declared.packet.Body.TheVariants as bodies;
ghost use Rattle.rp_base.specs.Proposals.{proposal_at};
ghost use Rattle.rp_base.specs.WriteFaults.{fault_of};
ghost use Rattle.rp_model.specs.Leader.{begun_running, on_promise_range, on_nack};
ghost use Rattle.rp_model.specs.Says.{says_to_all, notes, sends, writes};
ghost use Rattle.rp_replica.specs.Committing.{Commits};
ghost use Rattle.rp_replica.specs.State.{after_turn, server_of};
ghost use Rattle.rp_rules.specs.Inputs.{running_server};
ghost use Rattle.rp_rules.specs.Plans.{MayBegin, MayBeginRange, MayCount, MayCountRange};
ghost use Rattle.rp_model.specs.Plans.{started_running, offered_running, once_counted};
ghost use Rattle.rp_replica.specs.Turning.{Stops};

use crate::replica::Replica;
use rp_base::{Action, Ballot, Position, PositionRange, WriteFault};
use rp_codec::Body;
use rp_machine::Machine;
use rp_model::{CountedPromise, CountedRange, Dropped};
use rp_outbox::Outbox;
use rp_store::Device;

impl<M: Machine, D: Device> Replica<M, D> {
    /// A proposal begins, in place of another at its position: its ballot is written, and then each
    /// node is asked for a promise.
    #[inline(never)]
    pub(crate) fn begin(
        &mut self,
        out: &mut Outbox,
        position: Position,
        ballot: Ballot,
        own: &Action,
    ) -> Result<(), WriteFault>
        requires working { self.old.failed ≡ false }
        requires may { MayBegin (server_of self.old) position ballot own.now }
        ensures ok { OnOk result (Commits (writes (Started ballot)
            (started_running self.old.running position ballot own.now)
            (says_to_all self.old.config.nodes self.old.me (bodies.Prepare position ballot)))
            self.old self.new out.old.sent out.new.sent) }
        ensures err { IfErr result (λ fault.
            Stops (Some (Started ballot)) self.old self.new (fault_of fault)) }
        ensures unsent { OnErr result (out.new.sent ≡ out.old.sent) }
    {
        out.reserve(usize::from(self.server.config().nodes))?;
        self.start(position, ballot, own)?;
        out.prepare_all(
            self.server.header_to(self.server.me(), position, ballot),
            self.server.config().nodes,
        );
        Ok(())
    }

    /// A proposal begins at each unlearned position of a range, in place of another there: its
    /// ballot is written, and then each node is asked once for all promises.
    pub(crate) fn begin_range(
        &mut self,
        out: &mut Outbox,
        range: PositionRange,
        ballot: Ballot,
    ) -> Result<(), WriteFault>
        requires working { self.old.failed ≡ false }
        requires may { MayBeginRange (server_of self.old) range ballot }
        ensures ok { OnOk result (Commits (writes (Started ballot)
            (begun_running self.old.records self.old.running range ballot)
            (says_to_all self.old.config.nodes self.old.me (bodies.PrepareRange range ballot)))
            self.old self.new out.old.sent out.new.sent) }
        ensures err { IfErr result (λ fault.
            Stops (Some (Started ballot)) self.old self.new (fault_of fault)) }
        ensures unsent { OnErr result (out.new.sent ≡ out.old.sent) }
    {
        out.reserve(usize::from(self.server.config().nodes))?;
        self.start_range(range, ballot)?;
        out.say_to_all(
            self.server.me(),
            self.server.config().nodes,
            Body::PrepareRange { range, ballot },
        );
        Ok(())
    }

    /// A prepared proposal offers an action to all.
    pub(crate) fn offer_prepared(
        &mut self,
        out: &mut Outbox,
        position: Position,
        ballot: Ballot,
        action: &Action,
    ) -> Result<(), WriteFault>
        requires working { self.old.failed ≡ false }
        requires right { IsRight action.now }
        ensures ok { OnOk result (Commits (sends (offered_running self.old.config.nodes
            self.old.running action.now (proposal_at self.old.running.proposals position))
            (says_to_all self.old.config.nodes self.old.me
            (bodies.Accept position ballot action.now)))
            self.old self.new out.old.sent out.new.sent) }
        ensures config { IsRightConfig self.old.config }
        ensures err { IfErr result (λ fault. Stops None self.old self.new (fault_of fault)) }
        ensures unsent { OnErr result (out.new.sent ≡ out.old.sent) }
    {
        out.reserve(usize::from(self.server.config().nodes))?;
        self.start_offer(position, action);
        let header = self.server.header_to(self.server.me(), position, ballot);
        out.accept_all(header, action, self.server.config().nodes);
        Ok(())
    }

    /// A promise makes a majority, and the action is offered to all.
    #[inline(always)]
    pub(crate) fn offer(
        &mut self,
        out: &mut Outbox,
        promise: &CountedPromise,
        action: &Action,
    ) -> Result<(), WriteFault>
        requires working { self.old.failed ≡ false }
        requires may { MayCount (server_of self.old) promise.now }
        requires right { IsRight action.now }
        ensures ok { OnOk result (Commits (sends (once_counted (running_server M.next M.answers (server_of self.old)) promise.now)
            (says_to_all self.old.config.nodes self.old.me
            (bodies.Accept promise.now.position promise.now.ballot action.now)))
            self.old self.new out.old.sent out.new.sent) }
        ensures config { IsRightConfig self.old.config }
        ensures err { IfErr result (λ fault. Stops None self.old self.new (fault_of fault)) }
        ensures unsent { OnErr result (out.new.sent ≡ out.old.sent) }
    {
        out.reserve(usize::from(self.server.config().nodes))?;
        self.note_promise(promise);
        let header = self
            .server
            .header_to(self.server.me(), promise.position, promise.ballot);
        out.accept_all(header, action, self.server.config().nodes);
        Ok(())
    }

    /// A proposal is refused by a bound.
    pub(crate) fn note_refusal(&mut self, position: Position, ballot: Ballot, bound: Ballot)
        ensures { self.new ≡ after_turn self.old
            (on_nack self.old.config.nodes self.old.running position ballot bound) }
    {
        self.server.note_refusal(position, ballot, bound);
    }

    /// Begins a proposal at an unlearned position within reach, in place of another there: its
    /// ballot is written first.
    fn start(&mut self, position: Position, ballot: Ballot, own: &Action) -> Result<(), WriteFault>
        requires working { self.old.failed ≡ false }
        requires may { MayBegin (server_of self.old) position ballot own.now }
        ensures ok { OnOk result (self.new ≡ after_turn self.old (writes (Started ballot)
            (started_running self.old.running position ballot own.now) [])) }
        ensures err { IfErr result (λ fault.
            Stops (Some (Started ballot)) self.old self.new (fault_of fault)) }
    {
        self.server.begin(&mut self.store, position, ballot, own)
    }

    /// Begins a proposal at each unlearned position of a range: the ballot is written first.
    fn start_range(&mut self, range: PositionRange, ballot: Ballot) -> Result<(), WriteFault>
        requires working { self.old.failed ≡ false }
        requires may { MayBeginRange (server_of self.old) range ballot }
        ensures ok { OnOk result (self.new ≡ after_turn self.old (writes (Started ballot)
            (begun_running self.old.records self.old.running range ballot) [])) }
        ensures err { IfErr result (λ fault.
            Stops (Some (Started ballot)) self.old self.new (fault_of fault)) }
    {
        self.server.begin_range(&mut self.store, range, ballot)
    }

    /// The second phase of a prepared proposal begins.
    fn start_offer(&mut self, position: Position, action: &Action)
        requires right { IsRight action.now }
        ensures { self.new ≡ after_turn self.old (notes (offered_running
            self.old.config.nodes self.old.running action.now
            (proposal_at self.old.running.proposals position))) }
    {
        self.server.offer(position, action);
    }

    /// A promise for a range counts at each proposal that takes it.
    pub(crate) fn note_range(&mut self, promise: &CountedRange)
        requires may { MayCountRange (server_of self.old) promise.now }
        ensures { self.new ≡ after_turn self.old
            (on_promise_range self.old.config.nodes self.old.running promise.now) }
    {
        let CountedRange {
            from,
            range,
            ballot,
            votes,
        } = promise;
        self.server
            .note_range(*from, *range, *ballot, votes.as_slice());
    }

    /// A promise counts, and makes no majority.
    #[inline(always)]
    pub(crate) fn note_promise(&mut self, promise: &CountedPromise)
        requires may { MayCount (server_of self.old) promise.now }
        ensures { self.new ≡ after_turn self.old
            (notes (once_counted (running_server M.next M.answers (server_of self.old)) promise.now)) }
    {
        let CountedPromise {
            from,
            position,
            ballot,
            last,
        } = *promise;
        self.server.note_promise(from, position, ballot, last);
    }
}
