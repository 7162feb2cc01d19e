//! Where a call is in a log, and what it was answered.

ghost use Rattle.std.specs.Prelude.{◌≡◌, ℕ, List};
ghost use Rattle.rp_base.specs.Action.{IsRight};
ghost use Rattle.rp_base.specs.Sets.{Has};
ghost use Rattle.rp_base.specs.declared.action.Action.{Action};
ghost use Rattle.rp_base.specs.declared.reply.Answer.{Answer};
ghost use Rattle.rp_machine.specs.Calls.{CallName};
ghost use Rattle.rp_machine.specs.Places.{IsPlace, IsOnlyPlace, IsAnswerOf};

use crate::machine::Machine;

/// A call has one place in a list of actions at most, however often it is there.
pub fn a_call_has_one_place<M: Machine>()
    // claim: A call has one place in a list of actions, and one answer
    ensures { (begin : M) (actions : List Action) (call : CallName) (one other : ℕ)
        → IsPlace M.next M.answers begin actions call one
        → IsPlace M.next M.answers begin actions call other
        → one ≡ other }
{}

/// A call that is answered in a list of right actions has a place there, and that alone.
pub fn an_answered_call_has_one_place<M: Machine>()
    // claim: A call that is answered in a list of right actions has a place there, and no other
    ensures { (program : M.Program) (actions : List Action) (call : CallName) (answer : Answer)
        → ((action : Action) → Has action actions → IsRight action)
        → IsAnswerOf M.next M.answers (M.begin program) actions call answer
        → (position : ℕ)
        × IsOnlyPlace M.next M.answers (M.begin program) actions call position }
{
    M::laws();
}

/// A call has one answer in a list of right actions at most.
pub fn a_call_has_one_answer<M: Machine>()
    // claim as a_call_has_one_place
    ensures { (program : M.Program) (actions : List Action) (call : CallName) (one other : Answer)
        → ((action : Action) → Has action actions → IsRight action)
        → IsAnswerOf M.next M.answers (M.begin program) actions call one
        → IsAnswerOf M.next M.answers (M.begin program) actions call other
        → one ≡ other }
{
    M::laws();
}
