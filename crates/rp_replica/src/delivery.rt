//! A packet that is delivered, read where it lies among those that were sent. Each usual kind has a
//! function, in which what it mostly leads to is decided and done at once; `deliver_other` decides
//! and commits a plan of every other packet, as a step does of any input.

ghost use Rattle.std.specs.Prelude.{◌≡◌, ◌<◌, Some, false, length, slice_get};
ghost use Rattle.rp_codec.specs.Decoding.{IsLongBody};
ghost use Rattle.rp_codec.specs.Message.{Message};
ghost use Rattle.rp_model.specs.Effect as inputs;
ghost use Rattle.rp_replica.specs.Inputs.{replica_effect};
ghost use Rattle.rp_replica.specs.Turning.{AnswersOnto, IsCertain};

use crate::laws::texts_are_packets;
use crate::replica::Replica;
use rp_base::{Fault, Vote};
use rp_codec::{Kind, decision_of, decision_tail, vote_tail};
use rp_learner::VoteStatus;
use rp_machine::Machine;
use rp_model::{Dropped, Plan};
use rp_outbox::Outbox;
use rp_proposer::Progress;
use rp_rules::{accept_for, accepted_for, decided_for, on_text, prepare_for, promise_for};
use rp_store::Device;
use std::alloc::Global;

impl<M: Machine, D: Device> Replica<M, D> {
    /// Handles the packet of a place, from 0, among those that were sent: it is read in place, and
    /// the packets of the step are put after the others.
    #[inline(always)]
    pub fn deliver(
        &mut self,
        alloc: Global,
        out: &mut Outbox,
        place: usize,
    ) -> Result<Dropped, Fault>
        requires place { place < length out.old.sent }
        ensures answer { (m : Message) → slice_get out.old.sent place ≡ Some m
            → AnswersOnto (replica_effect M.next M.answers self.old (inputs.NodeInput.Receive m))
            self.old self.new out.old.sent out.new.sent result }
        ensures certain { (m : Message) → slice_get out.old.sent place ≡ Some m
            → (¬ IsLongBody m.body)
            → IsCertain (replica_effect M.next M.answers self.old (inputs.NodeInput.Receive m))
            self.old result }
    {
        if self.has_failed() {
            return Err(Fault::Failed);
        }
        match Kind::of_text(out.text(place).unwrap()) {
            Some(Kind::Prepare) => self.deliver_prepare(alloc, out, place),
            Some(Kind::Promise) => self.deliver_promise(alloc, out, place),
            Some(Kind::Accept) => self.deliver_accept(alloc, out, place),
            Some(Kind::Accepted) => self.deliver_accepted(alloc, out, place),
            Some(Kind::Decided) => self.deliver_decided(alloc, out, place),
            _ => self.deliver_other(alloc, out, place),
        }
    }

    /// A prepare that is promised is answered with a promise, mostly with no vote to report.
    #[inline(never)]
    fn deliver_prepare(
        &mut self,
        alloc: Global,
        out: &mut Outbox,
        place: usize,
    ) -> Result<Dropped, Fault>
        requires place { place < length out.old.sent }
        requires working { self.old.failed ≡ false }
        ensures answer { (m : Message) → slice_get out.old.sent place ≡ Some m
            → AnswersOnto (replica_effect M.next M.answers self.old (inputs.NodeInput.Receive m))
            self.old self.new out.old.sent out.new.sent result }
        ensures certain { (m : Message) → slice_get out.old.sent place ≡ Some m
            → (¬ IsLongBody m.body)
            → IsCertain (replica_effect M.next M.answers self.old (inputs.NodeInput.Receive m))
            self.old result }
    {
        let Some(header) = prepare_for(&self.server, out.text(place).unwrap()) else {
            return self.deliver_other(alloc, out, place);
        };
        let answer = self
            .server
            .header_to(header.from, header.position, header.ballot);
        let Some(done) = self.promise_first(out, &answer) else {
            return self.deliver_other(alloc, out, place);
        };
        done?;
        Ok(Dropped::No)
    }

    /// A promise counts, and at a majority the action is offered to all.
    #[inline(never)]
    fn deliver_promise(
        &mut self,
        alloc: Global,
        out: &mut Outbox,
        place: usize,
    ) -> Result<Dropped, Fault>
        requires place { place < length out.old.sent }
        requires working { self.old.failed ≡ false }
        ensures answer { (m : Message) → slice_get out.old.sent place ≡ Some m
            → AnswersOnto (replica_effect M.next M.answers self.old (inputs.NodeInput.Receive m))
            self.old self.new out.old.sent out.new.sent result }
        ensures certain { (m : Message) → slice_get out.old.sent place ≡ Some m
            → (¬ IsLongBody m.body)
            → IsCertain (replica_effect M.next M.answers self.old (inputs.NodeInput.Receive m))
            self.old result }
    {
        let Some(promise) = promise_for(&self.server, out.text(place).unwrap()) else {
            return self.deliver_other(alloc, out, place);
        };
        match self.server.promise(promise.from, promise.position, promise.ballot, promise.last) {
            Progress::Offer(action) => self.offer(out, &promise, &action)?,
            Progress::Waiting if self.server.is_preparing(promise.position) => {
                self.note_promise(&promise);
            }
            Progress::Waiting | Progress::Stale => {}
        }
        Ok(Dropped::No)
    }

    /// An accept that gets a vote is answered with it, mostly the first at its position.
    #[inline(never)]
    fn deliver_accept(
        &mut self,
        alloc: Global,
        out: &mut Outbox,
        place: usize,
    ) -> Result<Dropped, Fault>
        requires place { place < length out.old.sent }
        requires working { self.old.failed ≡ false }
        ensures answer { (m : Message) → slice_get out.old.sent place ≡ Some m
            → AnswersOnto (replica_effect M.next M.answers self.old (inputs.NodeInput.Receive m))
            self.old self.new out.old.sent out.new.sent result }
        ensures certain { (m : Message) → slice_get out.old.sent place ≡ Some m
            → (¬ IsLongBody m.body)
            → IsCertain (replica_effect M.next M.answers self.old (inputs.NodeInput.Receive m))
            self.old result }
    {
        let text = out.text(place).unwrap();
        let Some((header, action)) = accept_for(&self.server, text) else {
            return self.deliver_other(alloc, out, place);
        };
        let Some(tail) = vote_tail(text) else {
            return self.deliver_other(alloc, out, place);
        };
        let answer = self
            .server
            .header_to(header.from, header.position, header.ballot);
        let Some(done) = self.vote_first(out, &answer, &action, &tail) else {
            return self.deliver_other(alloc, out, place);
        };
        done?;
        Ok(Dropped::No)
    }

    /// A vote counts, and at a majority the action is learned.
    #[inline(never)]
    fn deliver_accepted(
        &mut self,
        alloc: Global,
        out: &mut Outbox,
        place: usize,
    ) -> Result<Dropped, Fault>
        requires place { place < length out.old.sent }
        requires working { self.old.failed ≡ false }
        ensures answer { (m : Message) → slice_get out.old.sent place ≡ Some m
            → AnswersOnto (replica_effect M.next M.answers self.old (inputs.NodeInput.Receive m))
            self.old self.new out.old.sent out.new.sent result }
        ensures certain { (m : Message) → slice_get out.old.sent place ≡ Some m
            → (¬ IsLongBody m.body)
            → IsCertain (replica_effect M.next M.answers self.old (inputs.NodeInput.Receive m))
            self.old result }
    {
        let text = out.text(place).unwrap();
        let Some((header, action)) = accepted_for(&self.server, text) else {
            return self.deliver_other(alloc, out, place);
        };
        let Some(tail) = vote_tail(text) else {
            return self.deliver_other(alloc, out, place);
        };
        match self
            .server
            .status(header.from, header.position, header.ballot, &action)
        {
            VoteStatus::Known => {}
            VoteStatus::Beyond => {}
            VoteStatus::Counting => {
                let vote = Vote {
                    ballot: header.ballot,
                    action,
                };
                self.hear(alloc, header.from, header.position, &vote)?;
            }
            VoteStatus::Learned => {
                let tail = Some(decision_of(&tail));
                self.learn_by_votes(out, header.position, &action, tail)?;
            }
        }
        Ok(Dropped::No)
    }

    /// A decision is learned, unless one is at its position.
    #[inline(never)]
    fn deliver_decided(
        &mut self,
        alloc: Global,
        out: &mut Outbox,
        place: usize,
    ) -> Result<Dropped, Fault>
        requires place { place < length out.old.sent }
        requires working { self.old.failed ≡ false }
        ensures answer { (m : Message) → slice_get out.old.sent place ≡ Some m
            → AnswersOnto (replica_effect M.next M.answers self.old (inputs.NodeInput.Receive m))
            self.old self.new out.old.sent out.new.sent result }
        ensures certain { (m : Message) → slice_get out.old.sent place ≡ Some m
            → (¬ IsLongBody m.body)
            → IsCertain (replica_effect M.next M.answers self.old (inputs.NodeInput.Receive m))
            self.old result }
    {
        let text = out.text(place).unwrap();
        let Some(sent) = decided_for(&self.server, text) else {
            return self.deliver_other(alloc, out, place);
        };
        let Some(tail) = decision_tail(text) else {
            return self.deliver_other(alloc, out, place);
        };
        if !self.server.is_learned(sent.position) {
            self.learn_by_decision(out, sent.from, sent.position, &sent.action, Some(tail))?;
        }
        Ok(Dropped::No)
    }

    /// Any packet: its plan is decided and committed.
    #[inline(never)]
    fn deliver_other(
        &mut self,
        alloc: Global,
        out: &mut Outbox,
        place: usize,
    ) -> Result<Dropped, Fault>
        requires place { place < length out.old.sent }
        requires working { self.old.failed ≡ false }
        ensures answer { (m : Message) → slice_get out.old.sent place ≡ Some m
            → AnswersOnto (replica_effect M.next M.answers self.old (inputs.NodeInput.Receive m))
            self.old self.new out.old.sent out.new.sent result }
        ensures certain { (m : Message) → slice_get out.old.sent place ≡ Some m
            → (¬ IsLongBody m.body)
            → IsCertain (replica_effect M.next M.answers self.old (inputs.NodeInput.Receive m))
            self.old result }
    {
        texts_are_packets();
        let mut plan = Plan::Pass(Dropped::No);
        on_text(&self.server, alloc, out.text(place).unwrap(), &mut plan)?;
        self.commit(alloc, out, &plan)?;
        Ok(plan.dropped())
    }
}
