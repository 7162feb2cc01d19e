//! When a run is over, and who is notified of the ends of its loops.

ghost use Rattle.std.specs.Prelude.{◌≡◌, Ok, false, true};

use rp_base::Fault;
use rp_codec::Party;

/// Decides when a run is over, and is notified of the ends of the loops of nodes and tasks. The
/// turns of a node and of a task are counted from 1.
pub trait Ending {
    ghost use Rattle.std.specs.Prelude.{ℕ, Bool, Option, Result};
    ghost use Rattle.rp_base.specs.declared.fault.Fault.{Fault};
    ghost use Rattle.rp_codec.specs.declared.packet.Party.{Party};

    /// What holds once this was the answer before the turn of the first number of a node or a task
    /// that has rested for as many turns as the second number.
    ghost over: { Party → ℕ → ℕ → Result Bool Fault → Type 0 };

    /// What holds once the loop of a node or a task ended, by this fault or without one, and this
    /// was notified.
    ghost ended: { Party → Option Fault → Type 0 };

    /// What holds once it was notified that the run cannot have all its threads.
    ghost stopped: { Bool → Type 0 };

    /// Whether the run is over, so that this turn and all later ones are not made. `Err` if the run
    /// cannot go on: the loop then ends by that fault. `rested` says how many turns the actor has
    /// made since something happened to it: to a node, a turn in which it received a packet or led,
    /// or after which something was pending at it; to a task, the turn in which its last reply
    /// came. It is 0 as long as a task has not the replies to all its calls.
    fn is_over(&self, actor: Party, turn: u64, rested: u64) -> Result<bool, Fault>
        ensures { over actor turn rested result };

    /// The loop of a node or a task ended, by this fault or without one.
    fn end(&self, actor: Party, fault: Option<Fault>)
        ensures { ended actor fault };

    /// A thread could not be started, or the results of the threads cannot be kept: the others need
    /// not make their turns.
    fn stop(&self)
        ensures { stopped true };
}

/// No run is over before each loop has made all its turns.
#[derive(Clone, Copy, Debug)]
pub struct NeverOver;

impl Ending for NeverOver {
    ghost use Rattle.std.specs.Prelude.{◌≡◌, Ok, false};

    ghost over = { λ actor turn rested answer. answer ≡ Ok false };

    ghost ended = { λ actor fault. Unit {0} };

    ghost stopped = { λ _. Unit {0} };

    fn is_over(&self, _actor: Party, _turn: u64, _rested: u64) -> Result<bool, Fault> {
        Ok(false)
    }

    fn end(&self, _actor: Party, _fault: Option<Fault>) {}

    fn stop(&self) {}
}
