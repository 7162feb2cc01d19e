//! The calls of a task among the events of a run.

ghost use Rattle.std.specs.Prelude.{◌≡◌, ◌≢◌, ℕ, ℤ, List, [], ◌∷◌, ◌++◌};
ghost use Rattle.rp_threads.specs.rp_base.specs.declared.action.Operation.{Operation};
ghost use Rattle.rp_threads.specs.rp_model.specs.declared.event.Event.{Event};
ghost use Rattle.rp_threads.specs.rp_model.specs.declared.event.Event.TheVariants.{Submit, Node};
ghost use Rattle.rp_threads.specs.rp_model.specs.declared.event.Step.{Step};
ghost use Rattle.rp_live.specs.Events.{calls_at};

/// Each call among the events is the next one of the task that it names, at its node, object and
/// operation and with its argument, and no other task's.
pub fn each_call_is_made_by_its_task()
    // claim: A call more among the events is the last of its task's calls, and none of another
    //   task's; an interrupt or a tick is no call
    ensures none { (task : ℕ) → calls_at [] task ≡ [] }
    ensures own { (events : List Event) (task node object : ℕ) (operation : Operation) (arg : ℤ)
        → calls_at (events ++ Submit task node object operation arg ∷ []) task
        ≡ calls_at events task
        ++ record { node = node; object = object; operation = operation; arg = arg } ∷ [] }
    ensures others { (events : List Event) (task node object : ℕ) (operation : Operation) (arg : ℤ)
        (other : ℕ)
        → other ≢ task
        → calls_at (events ++ Submit task node object operation arg ∷ []) other
        ≡ calls_at events other }
    ensures steps { (events : List Event) (step : Step) (task : ℕ)
        → calls_at (events ++ Node step ∷ []) task ≡ calls_at events task }
{}
