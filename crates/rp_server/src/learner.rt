//! The votes that a server heard, and what it learned (Lamport, "Paxos Made Simple", section 2.3).

ghost use Rattle.std.specs.Prelude.{◌≡◌, ◌≤◌, ◌<◌, ◌++◌, ◌∷◌, [], length, is_some, IfSome, IsOkUnless, OnOk, OnErr};
ghost use Rattle.rp_base.specs.Action.{IsRight};
ghost use Rattle.rp_base.specs.Number.{IsPosition};
ghost use Rattle.rp_base.specs.Promises.{HeardVote, same_heard};
ghost use Rattle.rp_base.specs.Records.{learned_at};
ghost use Rattle.rp_base.specs.Sets.{Has, with_member};
ghost use Rattle.rp_base.specs.declared.fault.WriteFault.TheVariants as faults;
ghost use Rattle.rp_learner.specs.Status.{vote_for};
ghost use Rattle.rp_learner.specs.declared.learner.VoteStatus.TheVariants.{Counting};
ghost use Rattle.rp_model.specs.Pending.{most_pending};
ghost use Rattle.rp_model.specs.Says.{notes};
ghost use Rattle.rp_server.specs.State.{server_after};
ghost use Rattle.rp_server.specs.Status.{status_of};

use crate::server::Roles;
use rp_base::{Action, Ballot, NodeId, Position, Vote, WriteFault};
use rp_learner::VoteStatus;
use rp_machine::Machine;
use rp_model::RightAction;
use std::alloc::Global;

impl<M: Machine> Roles<M> {
    /// What holds at a position of the log once a vote of one of the nodes is counted.
    #[inline(always)]
    pub fn status(
        &self,
        from: NodeId,
        position: Position,
        ballot: Ballot,
        action: &Action,
    ) -> VoteStatus
        requires sender { from ≤ self.now.config.nodes }
        requires place { IsPosition position }
        ensures { result ≡ status_of self.now.config.nodes self.now.records
            self.now.running.heard from position (vote_for ballot action.now) }
    {
        self.learner.vote(from, position, ballot, action)
    }

    /// Whether an action is learned at the position.
    #[inline(always)]
    pub fn is_learned(&self, position: Position) -> bool
        ensures { result ≡ is_some (learned_at self.now.records position) }
    {
        self.log.is_learned(position)
    }

    /// The action that is learned at the position.
    pub fn learned(&self, position: Position) -> Option<Action>
        ensures learned { result ≡ learned_at self.now.records position }
        ensures right { IfSome result IsRight }
    {
        self.log.get(position)
    }

    /// Notes a vote of one of the nodes that is counted, and settles nothing. It is out of memory
    /// only for a vote that was not heard, and then changes nothing.
    #[inline(always)]
    pub fn hear(
        &mut self,
        alloc: Global,
        from: NodeId,
        position: Position,
        vote: &Vote,
    ) -> Result<(), WriteFault>
        requires sender { from ≤ self.old.config.nodes }
        requires place { IsPosition position }
        requires counting { status_of self.old.config.nodes self.old.records
            self.old.running.heard from position vote.now ≡ Counting }
        ensures ok { OnOk result (self.new ≡ server_after self.old
            (notes (record self.old.running {
              heard = with_member same_heard
                  self.old.running.heard (from, position, vote.now);
            }))) }
        ensures err { OnErr result (self.new ≡ self.old) }
        ensures only { IsOkUnless result faults.OutOfMemory }
        ensures unheard { OnErr result
            (¬ Has {A = HeardVote} (from, position, vote.now) self.old.running.heard) }
    {
        self.learner
            .note_vote(alloc, from, position, vote.ballot, &vote.action)?;
        self.heard.hear(from, position, *vote);
        Ok(())
    }

    /// An item becomes pending.
    #[inline(always)]
    pub fn add(&mut self, item: RightAction)
        requires { length self.old.running.pending < most_pending }
        ensures { self.new ≡ server_after self.old (notes (record self.old.running {
          pending = self.old.running.pending ++ item ∷ [];
        })) }
    {
        self.pending.push(item);
    }
}
