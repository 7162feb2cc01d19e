//! Timing events and interrupts (`rp_manual` Box).

ghost use Rattle.std.specs.Prelude.{pos, true, false, Some, None, List, [], ◌∷◌};
ghost use Rattle.rp_object.specs.rp_base.specs.declared.action.Action.TheVariants.{Tick, Interrupt};
ghost use Rattle.rp_object.specs.rp_base.specs.declared.reply.Reply.TheVariants.{Value, Truth};
ghost use Rattle.rp_manual.specs.Memory.{Unread};
ghost use Rattle.rp_manual.specs.Outcomes.{LeadTo, gets};
ghost use Rattle.rp_manual.specs.Gate.{gate_is, gate_with_interrupts, passes, first_call};
ghost use Rattle.rp_manual.specs.Box.{box, box_is, sets, cancels, raises};

/// Both events are set for time 5. At the tick of 7 each handler runs once, the first event's first,
/// and neither is set any more; an earlier tick changes nothing, and cancelling returns False. Of two
/// that are set for other times the earlier fires first, and one whose time has not come stays set.
pub fn events_fire_once_in_order()
    // claim: Worked: at a tick each event that is due fires once, in order, and is then not set
    ensures set { (unread : Unread)
        → LeadTo (box unread) (sets 1 1 (pos 5) ∷ sets 2 2 (pos 5) ∷ [])
        (gets 1 1 (Value (pos 0)) ∷ gets 1 2 (Value (pos 0)) ∷ [])
        (box_is unread (pos 0) (Some (pos 5)) (Some (pos 5)) 0) }
    ensures fire { (unread : Unread)
        → LeadTo (box unread)
        (sets 1 1 (pos 5) ∷ sets 2 2 (pos 5) ∷ Tick 7 ∷ Tick 3 ∷ cancels 3 1 ∷ [])
        (gets 1 1 (Value (pos 0)) ∷ gets 1 2 (Value (pos 0)) ∷ gets 1 3 (Truth false) ∷ [])
        (box_is unread (pos 2) None None 7) }
    ensures earlier_first { (unread : Unread)
        → LeadTo (box unread) (sets 1 1 (pos 5) ∷ sets 2 2 (pos 4) ∷ Tick 7 ∷ [])
        (gets 1 1 (Value (pos 0)) ∷ gets 1 2 (Value (pos 0)) ∷ [])
        (box_is unread (pos 1) None None 7) }
    ensures not_yet { (unread : Unread)
        → LeadTo (box unread) (sets 1 1 (pos 5) ∷ Tick 4 ∷ [])
        (gets 1 1 (Value (pos 0)) ∷ []) (box_is unread (pos 0) (Some (pos 5)) None 4) }
{}

/// The second occurrence of the interrupt is decided before the first: the handler runs for the
/// second alone.
pub fn interrupts_count_upwards()
    // claim: Worked: an interrupt's occurrence below one that counted runs no handler
    ensures { (unread : Unread)
        → LeadTo (box unread) (Interrupt 1 2 ∷ Interrupt 1 1 ∷ [])
        [] (box_is unread (pos 1) None None 0) }
{}

/// A time that is at or below the clock when it is set fires at the next tick, whatever that tick's
/// time, and so does one that is the tick's own; a later setting replaces an earlier one.
pub fn a_passed_time_fires_at_the_next_tick()
    // claim: Worked: an event fires at the tick of its time or, if that has passed, at the next tick
    ensures passed { (unread : Unread)
        → LeadTo (box unread) (Tick 7 ∷ sets 1 1 (pos 5) ∷ Tick 3 ∷ [])
        (gets 1 1 (Value (pos 0)) ∷ []) (box_is unread (pos 1) None None 7) }
    ensures equal { (unread : Unread)
        → LeadTo (box unread) (sets 1 1 (pos 7) ∷ Tick 7 ∷ [])
        (gets 1 1 (Value (pos 0)) ∷ []) (box_is unread (pos 1) None None 7) }
    ensures replaced { (unread : Unread)
        → LeadTo (box unread) (sets 1 1 (pos 5) ∷ sets 2 1 (pos 9) ∷ Tick 7 ∷ cancels 3 1 ∷ [])
        (gets 1 1 (Value (pos 0)) ∷ gets 1 2 (Value (pos 0)) ∷ gets 1 3 (Truth true) ∷ [])
        (box_is unread (pos 0) None None 7) }
{}

/// A handler runs with the argument 0, a procedure that a task calls with the task's argument.
pub fn a_handler_has_the_argument_zero()
    // claim: Worked: a handler's argument is 0
    ensures { (unread : Unread)
        → LeadTo (box unread) (raises 1 (pos 3) ∷ Interrupt 2 4 ∷ [])
        (gets 1 1 (Value (pos 0)) ∷ []) (box_is unread (pos 3) None None 0) }
{}

/// An interrupt lifts the gate, and the caller that waits passes in the same action, also where the
/// handler raises an exception, which reaches nobody. One that has no handler does nothing.
pub fn an_interrupt_lets_the_waiting_caller_pass()
    // claim: Worked: after an interrupt's handler the queue is serviced, also if the handler raised
    ensures lifted { (unread : Unread)
        → LeadTo (gate_with_interrupts unread) (passes 1 ∷ Interrupt 1 1 ∷ [])
        (gets 1 1 (Value (pos 1)) ∷ []) (gate_is unread (pos 1) false []) }
    ensures raised { (unread : Unread)
        → LeadTo (gate_with_interrupts unread) (passes 1 ∷ Interrupt 2 1 ∷ [])
        (gets 1 1 (Value (pos 1)) ∷ []) (gate_is unread (pos 1) false []) }
    ensures unhandled { (unread : Unread)
        → LeadTo (gate_with_interrupts unread) (passes 1 ∷ Interrupt 3 1 ∷ [])
        [] (gate_is unread (pos 0) false (first_call 1 ∷ [])) }
{}
