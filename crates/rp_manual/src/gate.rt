//! An entry that waits for its barrier (`rp_manual` Gate).

ghost use Rattle.std.specs.Prelude.{pos, true, false, List, [], ◌∷◌};
ghost use Rattle.rp_object.specs.rp_base.specs.declared.reply.Reply.TheVariants.{Value, ConstraintError, ProgramError};
ghost use Rattle.rp_manual.specs.Memory.{Unread};
ghost use Rattle.rp_manual.specs.Outcomes.{LeadTo, gets};
ghost use Rattle.rp_manual.specs.Gate.{gate, gate_is, passes, lifts, bursts, first_call};

/// Task 1 waits at the closed gate. Task 2 lifts it, and in the same action task 1 passes and puts it
/// down.
pub fn the_gate_opens_for_the_waiting_caller()
    // claim: Worked: a caller waits at a closed entry, and passes in the action that opens it
    ensures waits { (unread : Unread)
        → LeadTo (gate unread 5 5 (pos 0)) (passes 1 ∷ [])
        [] (gate_is unread (pos 0) false (first_call 1 ∷ [])) }
    ensures opens { (unread : Unread)
        → LeadTo (gate unread 5 5 (pos 0)) (passes 1 ∷ lifts 2 ∷ [])
        (gets 2 1 (Value (pos 0)) ∷ gets 1 1 (Value (pos 1)) ∷ [])
        (gate_is unread (pos 1) false []) }
{}

/// Where one call waits, a further one gets Program_Error at once, and the first goes on waiting.
pub fn a_full_queue_refuses_a_further_call()
    // claim: Worked: a second call at a closed entry with a queue of one gets Program_Error
    ensures { (unread : Unread)
        → LeadTo (gate unread 5 5 (pos 0)) (passes 1 ∷ passes 2 ∷ [])
        (gets 2 1 ProgramError ∷ []) (gate_is unread (pos 0) false (first_call 1 ∷ [])) }
{}

/// A procedure opens the gate and raises: its caller gets Constraint_Error, the gate stays open, and
/// the caller that waits passes.
pub fn a_barrier_left_true_by_an_exception_lets_the_caller_pass()
    // claim: Worked: what a body assigned before its exception stays, and the queue is serviced
    ensures { (unread : Unread)
        → LeadTo (gate unread 5 5 (pos 0)) (passes 1 ∷ bursts 2 ∷ [])
        (gets 2 1 ConstraintError ∷ gets 1 1 (Value (pos 1)) ∷ [])
        (gate_is unread (pos 1) false []) }
{}

/// Where the entry's body raises, the caller that was served gets the exception, and the one that
/// opened the gate its own result.
pub fn a_served_caller_gets_its_own_exception()
    // claim: Worked: an exception of a served entry body reaches that entry's caller alone
    ensures { (unread : Unread)
        → LeadTo (gate unread 5 5 (pos 4)) (passes 1 ∷ lifts 2 ∷ [])
        (gets 2 1 (Value (pos 0)) ∷ gets 1 1 ConstraintError ∷ [])
        (gate_is unread (pos 4) false []) }
{}

/// The ceiling of the gate is 10: a task of priority 11 is refused, one of priority 10 is not.
pub fn a_caller_above_the_ceiling_is_refused()
    // claim: Worked: a task above the ceiling gets Program_Error, one at the ceiling does not
    ensures above { (unread : Unread)
        → LeadTo (gate unread 11 10 (pos 0)) (lifts 1 ∷ [])
        (gets 1 1 ProgramError ∷ []) (gate_is unread (pos 0) false []) }
    ensures equal { (unread : Unread)
        → LeadTo (gate unread 11 10 (pos 0)) (lifts 1 ∷ lifts 2 ∷ [])
        (gets 1 1 ProgramError ∷ gets 2 1 (Value (pos 0)) ∷ [])
        (gate_is unread (pos 0) true []) }
{}
