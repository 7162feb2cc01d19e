//! Which actions of a log count: the rule is ours, that a task makes one call after another and that
//! an interrupt's occurrences count upwards.

ghost use Rattle.std.specs.Prelude.{◌≡◌, ◌<◌, ◌≤◌, ℕ, suc, ℤ, true, false, List, map};
ghost use Rattle.rp_object.specs.rp_base.specs.Sets.{Has};
ghost use Rattle.rp_object.specs.rp_base.specs.declared.action.Action.{Action};
ghost use Rattle.rp_object.specs.rp_base.specs.declared.action.Action.TheVariants.{Noop, Call, Interrupt, Tick};
ghost use Rattle.rp_object.specs.rp_base.specs.declared.action.Operation.{Operation};
ghost use Rattle.rp_object.specs.rp_base.specs.declared.reply.Answer.{Answer};
ghost use Rattle.rp_object.specs.rp_machine.specs.Calls.{CallName, calls_made, call_of};
ghost use Rattle.rp_object.specs.rp_machine.specs.Replay.{counts, numbers_of, one_to};

/// A call counts only if it did not count before, and each earlier call of its task counted and was
/// answered; so none counts twice, before its turn, or while its task waits. After the calls 1 to n
/// of its task, in order and each answered, the next one counts.
pub fn calls_count_in_turn()
    // claim: A call counts exactly in its turn: once, after each earlier call of its task, and not
    //   while its task waits
    ensures once { (kept : List Action) (given : List Answer) (task number object : ℕ)
        (operation : Operation) (arg : ℤ)
        → counts kept given (Call task number object operation arg) ≡ true
        → ¬ Has (record { task = task; number = number }) (calls_made kept) }
    ensures after_the_earlier { (kept : List Action) (given : List Answer)
        (task number object earlier : ℕ) (operation : Operation) (arg : ℤ)
        → counts kept given (Call task number object operation arg) ≡ true
        → 1 ≤ earlier → earlier < number
        → Has (record { task = task; number = earlier }) (calls_made kept) }
    ensures answered { (kept : List Action) (given : List Answer) (task number object earlier : ℕ)
        (operation : Operation) (arg : ℤ)
        → counts kept given (Call task number object operation arg) ≡ true
        → Has (record { task = task; number = earlier }) (calls_made kept)
        → Has (record { task = task; number = earlier }) (map call_of given) }
    ensures in_turn { (kept : List Action) (given : List Answer) (task n object : ℕ)
        (operation : Operation) (arg : ℤ)
        → numbers_of task kept ≡ one_to n
        → ((earlier : ℕ) → Has earlier (one_to n)
        → Has (record { task = task; number = earlier }) (map call_of given))
        → counts kept given (Call task (suc n) object operation arg) ≡ true }
{}

/// An occurrence of an interrupt counts exactly if it is above each of its source that counted. A
/// tick counts each time, and an action that does nothing never does.
pub fn occurrences_count_upwards()
    // claim: An occurrence of an interrupt counts exactly if it is above each of its source that
    //   counted; a tick always counts, and an action that does nothing never
    ensures above { (kept : List Action) (given : List Answer) (source occurrence other : ℕ)
        → counts kept given (Interrupt source occurrence) ≡ true
        → Has (Interrupt source other) kept → other < occurrence }
    ensures highest { (kept : List Action) (given : List Answer) (source occurrence : ℕ)
        → ((other : ℕ) → Has (Interrupt source other) kept → other < occurrence)
        → counts kept given (Interrupt source occurrence) ≡ true }
    ensures tick { (kept : List Action) (given : List Answer) (now : ℕ)
        → counts kept given (Tick now) ≡ true }
    ensures nothing { (kept : List Action) (given : List Answer) → counts kept given Noop ≡ false }
{}
