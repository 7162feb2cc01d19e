//! What a log of actions leads to, at any machine.

ghost use Rattle.std.specs.Prelude.{◌≡◌, List, ◌++◌, IsTrue};
ghost use Rattle.rp_base.specs.Action.{IsRight};
ghost use Rattle.rp_base.specs.Right.{IsReply};
ghost use Rattle.rp_base.specs.Sets.{Has};
ghost use Rattle.rp_base.specs.declared.action.Action.{Action};
ghost use Rattle.rp_base.specs.declared.reply.Answer.{Answer};
ghost use Rattle.rp_machine.specs.Calls.{MayApply};
ghost use Rattle.rp_machine.specs.Replay.{counts, Replayed, replay_from, replay_of, replay_state, replay_answers, GoesOn};

use crate::machine::Machine;

/// The replay of a log continues that of each of its prefixes: from the same state, after the same
/// counted actions and answers.
pub fn replay_goes_on<M: Machine>()
    // claim: The replay of a log continues that of each of its prefixes, for every machine
    ensures from { (begin : M) (actions more : List Action)
        → replay_of M.next M.answers begin (actions ++ more)
        ≡ replay_from M.next M.answers (replay_of M.next M.answers begin actions) more }
    ensures on { (before : Replayed M) (more : List Action)
        → GoesOn before (replay_from M.next M.answers before more) }
{}

/// Replay of right actions stays in the program's states, and where a further action counts, no
/// call of its task waits, so that the machine takes it.
pub fn replay_may_go_on<M: Machine>()
    // claim: If an action counts, the machine may take it
    ensures runs { (program : M.Program) (actions : List Action)
        → ((action : Action) → Has action actions → IsRight action)
        → M.runs program (replay_state M.next M.answers (M.begin program) actions) }
    ensures may { (program : M.Program) (actions : List Action) (further : Action)
        → ((action : Action) → Has action actions → IsRight action)
        → let before = replay_of M.next M.answers (M.begin program) actions in
        IsTrue (counts before.kept before.given further)
        → MayApply (M.waiting before.state) further }
{
    M::laws();
}

/// The value of each reply that right actions lead to has 64 signed bits.
pub fn replies_fit<M: Machine>()
    // claim: The value of each reply that right actions lead to has 64 signed bits, for every
    //   machine
    ensures { (program : M.Program) (actions : List Action)
        → ((action : Action) → Has action actions → IsRight action)
        → (answer : Answer) → Has answer (replay_answers M.next M.answers (M.begin program) actions)
        → IsReply answer.reply }
{
    M::laws();
}
