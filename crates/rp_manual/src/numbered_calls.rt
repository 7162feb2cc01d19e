//! Actions that do not count (`rp_manual` Gate and Box).

ghost use Rattle.std.specs.Prelude.{◌≡◌, pos, true, false, None, List, [], ◌∷◌};
ghost use Rattle.rp_object.specs.rp_base.specs.declared.action.Action.TheVariants.{Noop, Interrupt, Tick};
ghost use Rattle.rp_object.specs.rp_base.specs.declared.reply.Reply.TheVariants.{Value};
ghost use Rattle.rp_object.specs.rp_machine.specs.Replay.{counted_of};
ghost use Rattle.rp_object.specs.State.{first_state};
ghost use Rattle.rp_object.specs.Step.{objects_next, objects_answers};
ghost use Rattle.rp_manual.specs.Memory.{Unread};
ghost use Rattle.rp_manual.specs.Outcomes.{LeadTo, gets};
ghost use Rattle.rp_manual.specs.Gate.{gate, gate_is, passes, lifts, lifts_next, first_call};
ghost use Rattle.rp_manual.specs.Box.{box, box_is};

/// A call that is decided twice takes effect once; one whose task has not made the call before it, or
/// waits for an answer, takes none.
pub fn calls_out_of_turn_change_nothing()
    // claim: Worked: a call that comes again, before its turn, or of a task that waits changes nothing
    ensures again { (unread : Unread)
        → LeadTo (gate unread 5 5 (pos 0)) (lifts 2 ∷ passes 1 ∷ passes 1 ∷ [])
        (gets 2 1 (Value (pos 0)) ∷ gets 1 1 (Value (pos 1)) ∷ [])
        (gate_is unread (pos 1) false []) }
    ensures before_its_turn { (unread : Unread)
        → LeadTo (gate unread 5 5 (pos 0)) (lifts_next 1 ∷ [])
        [] (gate_is unread (pos 0) false []) }
    ensures while_its_task_waits { (unread : Unread)
        → LeadTo (gate unread 5 5 (pos 0)) (passes 1 ∷ lifts_next 1 ∷ [])
        [] (gate_is unread (pos 0) false (first_call 1 ∷ [])) }
    ensures in_turn { (unread : Unread)
        → LeadTo (gate unread 5 5 (pos 0)) (lifts 1 ∷ lifts_next 1 ∷ [])
        (gets 1 1 (Value (pos 0)) ∷ gets 1 2 (Value (pos 0)) ∷ [])
        (gate_is unread (pos 0) true []) }
{}

/// An occurrence of an interrupt that is decided twice runs its handler once, a later one runs it
/// again, whether those between were noted or not, and each source counts by itself. An action that
/// does nothing does not count, and a tick counts each time.
pub fn occurrences_and_ticks_count()
    // claim: Worked: an occurrence counts once, above the last of its own source; a Noop never counts
    ensures again { (unread : Unread)
        → LeadTo (box unread) (Interrupt 1 1 ∷ Interrupt 1 1 ∷ [])
        [] (box_is unread (pos 1) None None 0) }
    ensures later { (unread : Unread)
        → LeadTo (box unread) (Interrupt 1 1 ∷ Interrupt 1 3 ∷ [])
        [] (box_is unread (pos 2) None None 0) }
    ensures counts { (unread : Unread)
        → counted_of objects_next objects_answers (first_state (box unread))
        (Noop ∷ Interrupt 1 5 ∷ Interrupt 2 1 ∷ Tick 7 ∷ Noop ∷ Tick 7 ∷ [])
        ≡ Interrupt 1 5 ∷ Interrupt 2 1 ∷ Tick 7 ∷ Tick 7 ∷ [] }
{}
