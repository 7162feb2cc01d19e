//! Two entries, and queues of several calls (`rp_manual` Gates).

ghost use Rattle.std.specs.Prelude.{pos, true, false, List, [], ◌∷◌};
ghost use Rattle.rp_object.specs.rp_base.specs.declared.reply.Reply.TheVariants.{Value, ProgramError};
ghost use Rattle.rp_manual.specs.Memory.{Unread};
ghost use Rattle.rp_manual.specs.Outcomes.{LeadTo, gets};
ghost use Rattle.rp_manual.specs.Gate.{passes, first_call};
ghost use Rattle.rp_manual.specs.Gates.{gates, gates_are, passes_late, lifts_as};

/// Tasks 1 and 2 wait at the first entry and task 3 at the second. Task 4 lifts the gate: 1 and 2 pass
/// in the order in which they came, and since 2 puts the gate down, 3 goes on waiting, until the gate
/// is lifted again.
pub fn barriers_are_evaluated_again_for_each_caller()
    // claim: Worked: first come first served at an entry, the entry declared first before the others,
    //   and the barriers are evaluated again before each
    ensures two_pass { (unread : Unread)
        → LeadTo (gates unread) (passes 1 ∷ passes 2 ∷ passes_late 3 ∷ lifts_as 4 1 ∷ [])
        (gets 4 1 (Value (pos 0)) ∷ gets 1 1 (Value (pos 1)) ∷ gets 2 1 (Value (pos 2)) ∷ [])
        (gates_are unread (pos 2) false [] (first_call 3 ∷ [])) }
    ensures third_passes { (unread : Unread)
        → LeadTo (gates unread)
        (passes 1 ∷ passes 2 ∷ passes_late 3 ∷ lifts_as 4 1 ∷ lifts_as 1 2 ∷ [])
        (gets 4 1 (Value (pos 0)) ∷ gets 1 1 (Value (pos 1)) ∷ gets 2 1 (Value (pos 2))
        ∷ gets 1 2 (Value (pos 0)) ∷ gets 3 1 (Value (pos 7)) ∷ [])
        (gates_are unread (pos 2) true [] []) }
{}

/// Two calls may wait at the first entry; a third gets Program_Error.
pub fn a_queue_of_two_refuses_a_third()
    // claim: Worked: a queue holds as many calls as its entry says
    ensures { (unread : Unread)
        → LeadTo (gates unread) (passes 1 ∷ passes 2 ∷ passes 3 ∷ [])
        (gets 3 1 ProgramError ∷ [])
        (gates_are unread (pos 0) false (first_call 1 ∷ first_call 2 ∷ []) []) }
{}
