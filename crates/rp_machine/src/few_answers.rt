//! How many answers a log leads to.

ghost use Rattle.std.specs.Prelude.{ℕ, ◌≤◌, List, length};
ghost use Rattle.rp_base.specs.Action.{IsRight};
ghost use Rattle.rp_base.specs.Sets.{Has};
ghost use Rattle.rp_base.specs.declared.action.Action.{Action};
ghost use Rattle.rp_machine.specs.Replay.{replay_answers};

use crate::machine::Machine;

/// A list of right actions leads to as many answers as it has actions, or fewer.
pub fn answers_are_few<M: Machine>()
    // claim: A log of right actions leads to no more answers than it has actions
    ensures { (program : M.Program) (actions : List Action)
        → ((action : Action) → Has action actions → IsRight action)
        → length (replay_answers M.next M.answers (M.begin program) actions) ≤ length actions }
{
    M::laws();
}
