//! On what replies a task makes its calls.

ghost use Rattle.std.specs.Prelude.{◌≡◌};
ghost use Rattle.rp_orders.specs.Guards.{fits, is_of};

use rp_base::{Reply, TaskId};

/// A task makes the `number`th of its calls only if the reply to the one before is this one, if it
/// is wanted, and only if it is another, if it is not.
#[derive(Clone, Copy, Debug, PartialEq, Eq)]
pub struct Guard {
    pub task: TaskId,
    /// The number of the call, from 1. The first call of a task has none before it, so a task with
    /// a guard of its first call makes none.
    pub number: u32,
    pub reply: Reply,
    pub is_wanted: bool,
}

impl Guard {
    /// Whether it is a guard of this call.
    pub fn is_of(&self, task: TaskId, number: u32) -> bool
        ensures { result ≡ is_of self.now task number }
    {
        self.task == task && self.number == number
    }

    /// Whether the call may be made where this is the reply to the one before.
    pub fn fits(&self, reply: Reply) -> bool
        ensures { result ≡ fits self.now reply }
    {
        if self.is_wanted {
            self.reply == reply
        } else {
            self.reply != reply
        }
    }
}
