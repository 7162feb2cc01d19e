//! Pending items for which a server has something to do.

ghost use Rattle.std.specs.Prelude.{◌≡◌, ◌≤◌, ◌+◌, length};
ghost use Rattle.rp_base.specs.Records.{applied_of};
ghost use Rattle.rp_machine.specs.Replay.{counted_of};
ghost use Rattle.rp_model.specs.Pending.{is_free_item, most_pending};
ghost use Rattle.rp_server.specs.Free.{free_items, has_uncounted};

use crate::server::Roles;
use rp_machine::Machine;
use rp_model::RightAction;

impl<M: Machine> Roles<M> {
    /// How many pending items are free: they did not count yet, and no proposal that runs has one of
    /// them as its own action. A call that waits at a closed entry counted. It looks at 32 items and
    /// 64 proposals at most.
    pub fn free_pending(&self) -> usize
        ensures value { result ≡ length (free_items
            (counted_of M.next M.answers self.now.begin (applied_of self.now.records))
            self.now.running.proposals self.now.running.pending) }
        ensures within { result ≤ most_pending }
    {
        if self.pending.len() == 0 {
            return 0;
        }
        let (front, back) = self.pending.as_slices();
        self.count_free(front) + self.count_free(back)
    }

    /// How many of these items are free.
    fn count_free(&self, items: &[RightAction]) -> usize
        ensures value { result ≡ length (free_items
            (counted_of M.next M.answers self.now.begin (applied_of self.now.records))
            self.now.running.proposals items.now) }
        ensures within { result ≤ length items.now }
    {
        items
            .iter()
            .filter(|item| self.is_unproposed(**item))
            .count()
    }

    /// Whether the item did not count yet, and its equal is the own action of no proposal.
    fn is_unproposed(&self, item: RightAction) -> bool
        ensures { result ≡ is_free_item
            (counted_of M.next M.answers self.now.begin (applied_of self.now.records))
            self.now.running.proposals item }
    {
        !self.proposer.is_own(&item.get()) && self.is_ahead(item)
    }

    /// Whether a pending item did not count yet: it is free, or a proposal that runs has it as its own
    /// action.
    pub fn has_uncounted(&self) -> bool
        ensures { result ≡ has_uncounted
            (counted_of M.next M.answers self.now.begin (applied_of self.now.records))
            self.now.running.pending }
    {
        let (front, back) = self.pending.as_slices();
        self.is_any_ahead(front) || self.is_any_ahead(back)
    }

    /// Whether one of these items did not count yet.
    fn is_any_ahead(&self, items: &[RightAction]) -> bool
        ensures { result ≡ has_uncounted
            (counted_of M.next M.answers self.now.begin (applied_of self.now.records)) items.now }
    {
        items.iter().any(|item| self.is_ahead(*item))
    }
}
