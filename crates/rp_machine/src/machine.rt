//! The obligations of a machine to the log that drives it.

ghost use Rattle.std.specs.Prelude.{◌≡◌, ℕ, List, [], IfOk};
ghost use Rattle.rp_base.specs.declared.action.Action.{Action};
ghost use Rattle.rp_base.specs.declared.reply.Answer.{Answer};
ghost use Rattle.rp_base.specs.Action.{IsRight};
ghost use Rattle.rp_base.specs.Right.{IsReply};
ghost use Rattle.rp_base.specs.Sets.{Has};
ghost use Rattle.rp_machine.specs.Calls.{CallName, MayApply, AccountsFor};

use rp_base::{Action, Answers};
use std::alloc::{AllocError, Global};

/// A state that actions change, one after another, and that answers calls. It is alike wherever the
/// same actions were applied to the same program's start.
///
/// To a contract the state is the value itself.
pub trait Machine: Drop {
    /// What is declared before anything runs.
    type Program: Drop;

    /// The state in which the program starts.
    ghost begin: { Self.Program → Self };

    /// The state after an action.
    ghost next: { Self → Action → Self };

    /// The answers to an action.
    ghost answers: { Self → Action → List Answer };

    /// The calls that wait for their answer.
    ghost waiting: { Self → List CallName };

    /// The text that shows the state.
    ghost image: { Self → List ℕ };

    /// The state is one of the program's.
    ghost runs: { Self.Program → Self → Type 0 };

    /// The start of the program.
    fn start(alloc: Global, program: &Self::Program) -> Result<Self, AllocError>
        ensures { IfOk result (λ m. m ≡ begin program.now) };

    /// Applies an action, and puts its answers where the caller holds none, so that they are not
    /// copied. It takes no memory and always succeeds. It may be called only if no call of the
    /// action's task waits.
    fn apply(&mut self, action: &Action, into: &mut Answers)
        requires none { into.old ≡ [] }
        requires right { IsRight action.now }
        requires free { MayApply (waiting self.old) action.now }
        ensures next { self.new ≡ next self.old action.now }
        ensures answers { into.new ≡ answers self.old action.now };

    /// Lines that show the state.
    fn image(&self, alloc: Global) -> Result<Vec<u8>, AllocError>
        ensures { IfOk result (λ text. text.items ≡ image self.now) };

    /// What every machine keeps. It does nothing: it is called for its contract alone.
    ///
    /// No call waits at the start, which is a state of the program; an action leads from a state of
    /// the program to one; two states of one program that look the same are the same; an action
    /// answers calls that wait or its own, and the others go on waiting; the value of each reply
    /// has 64 signed bits.
    fn laws()
        ensures none_waits { (program : Self.Program) → waiting (begin program) ≡ [] }
        ensures starts { (program : Self.Program) → runs program (begin program) }
        ensures keeps { (program : Self.Program) (s : Self) (action : Action)
            → runs program s → IsRight action → MayApply (waiting s) action
            → runs program (next s action) }
        ensures shows { (program : Self.Program) (s t : Self)
            → runs program s → runs program t → image s ≡ image t → s ≡ t }
        ensures accounts { (program : Self.Program) (s : Self) (action : Action)
            → runs program s → IsRight action → MayApply (waiting s) action
            → AccountsFor (waiting s) action (answers s action) (waiting (next s action)) }
        ensures replies { (program : Self.Program) (s : Self) (action : Action)
            → runs program s → IsRight action → MayApply (waiting s) action
            → (answer : Answer) → Has answer (answers s action) → IsReply answer.reply };
}
