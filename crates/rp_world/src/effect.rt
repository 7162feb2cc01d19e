//! The result of an event, as a step returns it.

ghost use Rattle.std.specs.Prelude.{◌≡◌, ◌<◌, ◌+◌, ◌-◌, ◌^◌, min, None};
ghost use Rattle.rp_model.specs.declared.effect.Dropped.TheVariants.{No};

use rp_base::{Answer, Fault};
use rp_model::{Dropped, Effect};

/// Where a run stopped.
#[derive(Clone, Copy, Debug, PartialEq, Eq)]
pub struct Refused {
    /// How many events had happened.
    pub place: usize,
    /// Why the next one was refused.
    pub fault: Fault,
}

/// The effect of a step that sent, dropped and took nothing, where this is the number of the next
/// message.
#[inline(always)]
pub fn no_effect(first: u64) -> Effect
    ensures { result
        ≡ record { first = first; sent = 0; dropped = No; taken = None; opened = None } }
{
    Effect {
        first,
        sent: 0,
        dropped: Dropped::No,
        taken: None,
        opened: None,
    }
}

/// One message was sent.
pub(crate) fn one_message(first: u64) -> Effect
    ensures { result
        ≡ record { first = first; sent = 1; dropped = No; taken = None; opened = None } }
{
    Effect {
        sent: 1,
        ..no_effect(first)
    }
}

/// A task took this reply.
pub(crate) fn taken(first: u64, taken: Answer) -> Effect
    ensures { result
        ≡ record { first = first; sent = 0; dropped = No; taken = Some taken; opened = None } }
{
    Effect {
        taken: Some(taken),
        ..no_effect(first)
    }
}

/// A node started again, with the numbers of records and torn bytes, or went on.
pub(crate) fn opened(first: u64, opened: Option<(u64, u64)>) -> Effect
    ensures { result
        ≡ record { first = first; sent = 0; dropped = No; taken = None; opened = opened } }
{
    Effect {
        opened,
        ..no_effect(first)
    }
}

/// What a node's step dropped, where this is the number of the next message and how many there are
/// now.
#[inline(always)]
pub(crate) fn of_step(first: u64, count: u64, dropped: Dropped) -> Effect
    requires { count < 2 ^ 63 }
    ensures { result ≡ record {
      first = first;
      sent = min (count + 1 - first) (2 ^ 32 - 1);
      dropped = dropped;
      taken = None;
      opened = None;
    } }
{
    Effect {
        first,
        sent: (count + 1).saturating_sub(first).min(u64::from(u32::MAX)) as u32,
        dropped,
        taken: None,
        opened: None,
    }
}
