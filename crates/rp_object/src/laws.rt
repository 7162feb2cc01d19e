//! What follows from the rules of a program alone.

ghost use Rattle.std.specs.Prelude.{◌≡◌, ◌++◌, ℕ, max, List, length, filter_map};
ghost use Rattle.rp_base.specs.Sets.{Has, IsSet};
ghost use Rattle.rp_base.specs.Action.{IsRight};
ghost use Rattle.rp_base.specs.declared.action.Action.{Action};
ghost use Rattle.rp_base.specs.declared.action.Action.TheVariants.{Tick};
ghost use Rattle.rp_base.specs.Number.{greatest};
ghost use Rattle.rp_machine.specs.Calls.{calls_of, AccountsFor};
ghost use Rattle.rp_machine.specs.Replay.{replay_state};
ghost use Rattle.rp_object.specs.declared.program.Declarations.{Declarations};
ghost use Rattle.rp_object.specs.Program.{IsProgram};
ghost use Rattle.rp_object.specs.Reached.{IsStateOf, HaveQueues};
ghost use Rattle.rp_object.specs.State.{Running, first_state};
ghost use Rattle.rp_object.specs.Step.{objects_next, objects_answers, objects_waiting};
ghost use Rattle.rp_object.specs.Ticks.{Fires, tick_of};

/// No caller that waits is lost or answered twice: if each declared object is there with a queue
/// for each of its entries, and no call waits twice, the answers to an action are for distinct
/// calls, its own or ones that waited, and exactly the others of these wait after it.
pub fn actions_account_for_callers()
    // claim: Nobody who waits is forgotten or answered twice
    ensures { (running : Running) (action : Action)
        → length running.program.objects.items ≡ length running.state.objects
        → HaveQueues running.state.objects
        → IsSet (calls_of action ++ objects_waiting running)
        → AccountsFor (objects_waiting running) action (objects_answers running action)
        (objects_waiting (objects_next running action)) }
{}

/// At a tick the clock is raised where it is below, and then the timing events that are due fire
/// one after another, until none is due: each time the first of them by time and number is no
/// longer set, and its handler runs.
pub fn a_tick_fires_what_is_due()
    // claim: A tick fires exactly the events that are due, in order of time and number
    ensures { (running : Running) (now : ℕ)
        → IsProgram running.program
        → IsStateOf running.program running
        → let raised = max running.state.clock now in
        Fires running.program (record running.state { clock = raised })
        (objects_answers running (Tick now)) (objects_next running (Tick now)).state }
{}

/// The clock after a log is the greatest of its ticks, in whatever order they come, and 0 if there
/// is none.
pub fn the_clock_is_the_greatest_tick()
    // claim: The clock never goes back: it is the greatest of the ticks in the log
    ensures { (program : Declarations) (actions : List Action)
        → (replay_state objects_next objects_answers (first_state program) actions).state.clock
        ≡ greatest (filter_map tick_of actions) }
{}

/// Every log of right actions leads to a state of the program: each object has its operations, its
/// components and their ranges as declared, each value lies in its range, nobody waits at an open
/// barrier, and no task waits twice.
pub fn logs_lead_to_states_of_the_program()
    // claim: Every log leads to a state of the program: ranges kept, nobody at an open barrier, no
    //   task waits twice
    ensures { (program : Declarations) (actions : List Action)
        → IsProgram program
        → ((action : Action) → Has action actions → IsRight action)
        → IsStateOf program
        (replay_state objects_next objects_answers (first_state program) actions) }
{}
