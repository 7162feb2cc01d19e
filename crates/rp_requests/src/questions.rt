//! What a node answers about its pending items and its tasks, and what it is to do next.

ghost use Rattle.std.specs.Prelude.{◌≡◌, []};
ghost use Rattle.std.specs.Int.{w32, to_be_bytes};
ghost use Rattle.rp_replica.specs.rp_machine.specs.Asked.{last_number, last_occurrence};
ghost use Rattle.rp_patience.specs.Advice.{advice_after, patience_after};
ghost use Rattle.rp_base.specs.Action.{IsIndex};
ghost use Rattle.rp_base.specs.Records.{last_vote_at};
ghost use Rattle.rp_replica.specs.rp_model.specs.Leader.{least_free};
ghost use Rattle.rp_requests.specs.Advising.{is_near, is_own_vote, leads_on, led_last, near, situation_of};
ghost use Rattle.rp_requests.specs.Buffers.{PutsOr};
ghost use Rattle.rp_requests.specs.Nodes.{counted_at, free_at};

use crate::buffer::{Lengths, put};
use crate::node::HandleNode;
use crate::refusal::Refusal;
use rp_base::{Position, TaskId};
use rp_machine::Machine;
use rp_patience::{Advice, Patience, Situation};

/// A node leads on at most this many positions above those that it has applied.
const MOST_AHEAD: u32 = 8;

impl<M: Machine> HandleNode<M> {
    /// How many pending items are free.
    pub(crate) fn free_pending(&self) -> u32
        ensures { result ≡ free_at M.next M.answers self.now }
    {
        self.replica.free_pending() as u32
    }

    /// Puts the number of the task's last call that counted into the buffer.
    pub(crate) fn put_counted(&self, task: TaskId, answer: &mut [u8]) -> Result<Lengths, Refusal>
        ensures { PutsOr [] (to_be_bytes w32 (last_number task
            (counted_at M.next M.answers self.now))) answer.old answer.new result }
    {
        put(&self.replica.last_number(task).to_be_bytes(), answer)
    }

    /// Puts the last occurrence of the source, 1 to 8, that counted into the buffer.
    pub(crate) fn put_occurred(&self, source: u8, answer: &mut [u8]) -> Result<Lengths, Refusal>
        requires { IsIndex source }
        ensures { PutsOr [] (to_be_bytes w32 (last_occurrence source
            (counted_at M.next M.answers self.now))) answer.old answer.new result }
    {
        let last = self.replica.server().last_occurrence(source);
        put(&last.to_be_bytes(), answer)
    }

    /// What the node knows that decides what it is to do.
    fn situation(&self) -> Situation
        ensures { result ≡ situation_of M.next M.answers self.now }
    {
        Situation {
            node: self.replica.node(),
            applied: self.replica.applied(),
            positions: self.positions,
            is_missing: self.replica.missing_position().is_some(),
            has_uncounted: self.replica.has_uncounted(),
            had_early: self.had_early,
            led_last: self.led_last(),
            leads_on: self.leads_on(),
        }
    }

    /// Where the node leads on, if it does: it led last, something is pending for which none of its
    /// proposals runs, and the least free position is near.
    fn leads_on(&self) -> Option<Position>
        ensures { result ≡ leads_on M.next M.answers self.now }
    {
        if !self.led_last() || self.replica.free_pending() == 0 {
            return None;
        }
        self.near_free()
    }

    /// The least free position, if it is near.
    fn near_free(&self) -> Option<Position>
        ensures { let replica = self.now.replica in result ≡ near replica
            (least_free replica.config.nodes replica.records replica.running.proposals) }
    {
        match self.replica.server().least_free() {
            Some(position) if self.is_near(position) => Some(position),
            _ => None,
        }
    }

    /// Whether the position is in the log, and one of the first that are not applied.
    fn is_near(&self, position: Position) -> bool
        ensures { result ≡ is_near self.now.replica position }
    {
        position.get() <= self.positions
            && u32::from(position.get()) <= self.replica.server().applied() + MOST_AHEAD
    }

    /// Whether the node led last: its last vote at the position that it applied last is in a ballot
    /// of its own. Node 1 did before anything is applied.
    fn led_last(&self) -> bool
        ensures { result ≡ led_last self.now.replica }
    {
        match Position::new(self.replica.server().applied() as u16) {
            Some(position) => self.has_own_vote(position),
            None => self.replica.node().get() == 1,
        }
    }

    /// Whether the node's last vote at the position is in a ballot of its own.
    fn has_own_vote(&self, position: Position) -> bool
        ensures { let replica = self.now.replica in result
            ≡ is_own_vote replica.me (last_vote_at replica.records position) }
    {
        match self.replica.server().last_vote(position) {
            Some(vote) => vote.ballot.owner() == self.replica.node(),
            None => false,
        }
    }

    /// What the node is to do after quiet turns, by its patience.
    pub fn advise(&self, patience: &mut Patience, turns: u64) -> Advice
        // claim (advice): A node by handle is advised to lead, to ask for positions that it misses,
        //   or to do nothing, by what it has applied, misses and has pending, and by how long it has
        //   waited
        ensures advice { result ≡ advice_after turns (situation_of M.next M.answers self.now)
            patience.old }
        ensures patience { patience.new ≡ patience_after turns
            (situation_of M.next M.answers self.now) patience.old }
    {
        patience.advise(&self.situation(), turns)
    }
}
