//! The window of a server, which begins at the first unlearned position of the log, and that of its
//! learner, which follows.

ghost use Rattle.std.specs.Prelude.{◌≡◌, ◌≢◌, ℕ, ◌+◌, ◌<◌, ◌≤◌, ◌^◌, None, IfSome, IfNone, is_some, false};
ghost use Rattle.rp_base.specs.Number.{window};
ghost use Rattle.rp_base.specs.Records.{learned_at};
ghost use Rattle.rp_learner.specs.Places.{is_marked};
ghost use Rattle.rp_log.specs.Contents.{action_at, next_to_take};
ghost use Rattle.rp_model.specs.Learner.{window_of};
ghost use Rattle.rp_server.specs.Invariant.{IsSettledAlike, Follows};

use crate::server::Roles;
use rp_base::{Position, PositionRange, WINDOW};
use rp_learner::Learner;
use rp_log::Log;
use rp_machine::Machine;

impl<M: Machine> Roles<M> {
    /// The positions of its window: 64 from the first unlearned one on, or as many as the log has
    /// there. There is none once every position is applied.
    pub fn window(&self) -> Option<PositionRange>
        ensures some { IfSome result (λ range.
            range ≡ window_of self.now.config.max_positions self.now.records) }
        ensures unlearned { IfSome result (λ range.
            learned_at self.now.records range.first ≡ None) }
        ensures none { IfNone result
            ((window_of self.now.config.max_positions self.now.records).count ≡ 0) }
    {
        let first = self.log.next_unlearned();
        let end = (first + WINDOW).min(u32::from(self.config.max_positions) + 1);
        if end <= first {
            return None;
        }
        PositionRange::new(position_at(first), (end - first) as u8).ok()
    }
}

/// The bits, in which this one is clear, with it set or not.
pub(crate) fn with_bit(bits: u64, offset: u32, is_set: bool) -> u64
    requires offset { offset < window }
    requires clear { is_marked bits offset ≡ false }
    ensures here { is_marked result offset ≡ is_set }
    ensures others { (j : ℕ) → j ≢ offset → is_marked result j ≡ is_marked bits j }
{
    if is_set { bits | 1 << offset } else { bits }
}

/// Which positions of the window from `first` on, but for those below `entered`, the log learned:
/// bit j is that of `first + j`. It looks no further than the greatest position learned.
fn learned_bits(log: &Log, first: u32, entered: u32) -> u64
    requires low { 1 ≤ first }
    requires high { first ≤ 65536 }
    ensures { (j : ℕ) → j < window → entered ≤ first + j
        → is_marked result j ≡ is_some (action_at log.now (first + j)) }
{
    let Some(top) = log.top() else {
        return 0;
    };
    let begin = first.max(entered);
    let end = (u32::from(top.get()) + 1).min(first + WINDOW);
    let mut bits = 0;
    for number in begin..end {
        let is_learned = log.is_learned(position_at(number));
        bits = with_bit(bits, number - first, is_learned);
    }
    bits
}

/// Moves the window of a learner on to the first unlearned position of a log of which all that is
/// ready was taken. It takes no memory, and reads only the positions that enter the window.
#[inline(always)]
pub(crate) fn follow(learner: &mut Learner, log: &Log)
    requires on { learner.old.first ≤ next_to_take log.now }
    requires none { action_at log.now (next_to_take log.now) ≡ None }
    requires alike { IsSettledAlike learner.old log.now }
    ensures { Follows learner.old log.now learner.new }
{
    let first = log.next_unlearned();
    let entered = learner.first() + WINDOW;
    learner.advance(first, learned_bits(log, first, entered));
}

/// The position of a number within the log.
pub(crate) fn position_at(number: u32) -> Position
    requires low { 1 ≤ number }
    requires high { number < 2 ^ 16 }
    ensures { result ≡ number }
{
    Position::new(number as u16).unwrap()
}
