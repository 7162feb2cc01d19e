//! What a proposal takes as its own action.

ghost use Rattle.std.specs.Prelude.{◌≡◌, find, option_copied};
ghost use Rattle.rp_base.specs.Proposals.{without_proposal};
ghost use Rattle.rp_base.specs.Records.{applied_of};
ghost use Rattle.rp_machine.specs.Replay.{counted_of};
ghost use Rattle.rp_model.specs.Pending.{is_ahead, is_free_item, own_action};

use crate::server::Roles;
use rp_base::{Action, Position};
use rp_machine::Machine;
use rp_model::RightAction;

impl<M: Machine> Roles<M> {
    /// What a proposal at the position takes as its own action: the first pending item that is
    /// free, else nothing. It looks at 32 items and 64 proposals at most.
    #[inline(always)]
    pub fn own_action(&self, position: Position) -> RightAction
        ensures { result ≡ own_action
            (counted_of M.next M.answers self.now.begin (applied_of self.now.records))
            (without_proposal self.now.running.proposals position) self.now.running.pending }
    {
        let (front, back) = self.pending.as_slices();
        match self.first_free(position, front) {
            Some(item) => *item,
            None => match self.first_free(position, back) {
                Some(item) => *item,
                None => RightAction::new(Action::Noop),
            },
        }
    }

    /// The first of these items that is free.
    #[inline(always)]
    fn first_free<'a>(
        &self,
        position: Position,
        items: &'a [RightAction],
    ) -> Option<&'a RightAction>
        ensures { option_copied result ≡ find (is_free_item
            (counted_of M.next M.answers self.now.begin (applied_of self.now.records))
            (without_proposal self.now.running.proposals position)) items.now }
    {
        for item in items {
            if self.is_free(position, *item) {
                return Some(item);
            }
        }
        None
    }

    /// Whether the item is free: it did not count yet, and its equal is not the own action of a
    /// proposal at another position.
    #[inline(always)]
    fn is_free(&self, position: Position, item: RightAction) -> bool
        ensures { result ≡ is_free_item
            (counted_of M.next M.answers self.now.begin (applied_of self.now.records))
            (without_proposal self.now.running.proposals position) item }
    {
        !self.proposer.is_own_elsewhere(position, &item.get()) && self.is_ahead(item)
    }

    /// Whether the item did not count yet, and none above it did.
    pub(crate) fn is_ahead(&self, item: RightAction) -> bool
        ensures { result ≡ is_ahead
            (counted_of M.next M.answers self.now.begin (applied_of self.now.records)) item }
    {
        match item.get() {
            Action::Noop => false,
            Action::Call { task, number, .. } => self.last_number(task) < number,
            Action::Interrupt { source, occurrence } => self.last_occurrence(source) < occurrence,
            Action::Tick { .. } => true,
        }
    }
}
