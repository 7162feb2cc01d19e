//! What a program does with calls, timing events and interrupts (Ada Reference Manual, sections 9.5.3,
//! C.3, D.3, D.7, D.13 and D.15).

ghost use Rattle.std.specs.Prelude.{◌≡◌, ◌≤◌, ◌<◌, ℕ, ℤ, pos, true, false, Option, Some, None, List, [], ◌∷◌, length};
ghost use Rattle.std.specs.List.{All};
ghost use Rattle.rp_object.specs.rp_base.specs.declared.action.Action.TheVariants.{Noop, Call, Interrupt};
ghost use Rattle.rp_object.specs.rp_base.specs.declared.action.Operation.{Operation};
ghost use Rattle.rp_object.specs.rp_base.specs.declared.action.Operation.TheVariants.{SetTimer, CancelTimer};
ghost use Rattle.rp_object.specs.rp_base.specs.declared.reply.Reply.TheVariants.{Value, Truth, ProgramError, NoSuchOperation};
ghost use Rattle.rp_object.specs.rp_base.specs.declared.reply.Answer.{Answer};
ghost use Rattle.rp_object.specs.rp_entry.specs.declared.operations.Entry.{Entry};
ghost use Rattle.rp_object.specs.rp_entry.specs.declared.state.Waiting.{Waiting};
ghost use Rattle.rp_object.specs.rp_entry.specs.Operations.{of_index};
ghost use Rattle.rp_object.specs.rp_entry.specs.Queue.{State};
ghost use Rattle.rp_object.specs.rp_entry.specs.Protected.{Protected};
ghost use Rattle.rp_object.specs.rp_entry.specs.Actions.{Request, Acts, event};
ghost use Rattle.rp_object.specs.declared.program.Handler.{Handler};
ghost use Rattle.rp_object.specs.declared.program.TimingEvent.{TimingEvent};
ghost use Rattle.rp_object.specs.declared.program.ObjectDeclaration.{ObjectDeclaration};
ghost use Rattle.rp_object.specs.declared.program.Declarations.{Declarations};
ghost use Rattle.rp_object.specs.declared.program.Profile.TheVariants.{Ravenscar, Jorvik};
ghost use Rattle.rp_object.specs.Program.{operations_of, IsProgram};
ghost use Rattle.rp_object.specs.State.{Running};
ghost use Rattle.rp_object.specs.Step.{objects_next, objects_answers};
ghost use Rattle.rp_manual.specs.ProgramRules.{IsRequestOf, IsDeclaredCall, IsUndeclared, IsRefusedWith, ChangesObject, ChangesTimer, IsCallOf};

/// A call of a function, a procedure or an entry whose task's base priority is above the object's
/// ceiling gets Program_Error, and nothing changes. One whose priority is at most the ceiling, equal
/// included, is a protected action of the object.
pub fn ceilings_bound_the_callers()
    // claim: A caller above the ceiling gets Program_Error and changes nothing; at or below it the
    //   call is a protected action of its object
    ensures above { (running : Running) (call : Waiting) (object priority : ℕ)
        (operation : Operation) (declared : ObjectDeclaration)
        → IsDeclaredCall running.program call.task priority object declared operation
        → declared.ceiling < priority
        → IsRefusedWith running call object operation ProgramError }
    ensures within { (running : Running) (call : Waiting) (object priority : ℕ)
        (operation : Operation) (declared : ObjectDeclaration) (protected : Protected)
        (request : Request)
        → IsDeclaredCall running.program call.task priority object declared operation
        → priority ≤ declared.ceiling
        → of_index running.state.objects object ≡ Some protected
        → IsRequestOf operation call request
        → let action = Call call.task call.number object operation call.arg in
        IsCallOf running call object protected request
        (objects_answers running action) (objects_next running action) }
{}

/// A call whose task, object, operation or timing event is not declared gets No_Such_Operation, and
/// nothing changes.
pub fn what_is_not_declared_is_refused()
    // claim: A call of what is not declared gets No_Such_Operation and changes nothing
    ensures { (running : Running) (call : Waiting) (object : ℕ) (operation : Operation)
        → IsUndeclared running.program call.task object operation
        → IsRefusedWith running call object operation NoSuchOperation }
{}

/// Setting a timing event sets it for the time of the call, whether it was set or not, and its
/// caller gets 0. Cancelling it leaves it not set, and its caller gets whether it was set.
pub fn timing_events_are_set_and_cancelled()
    // claim: Set_Handler sets a timing event for the time of the call, and Cancel_Handler returns
    //   whether it was set
    ensures set { (running : Running) (call : Waiting) (object number priority : ℕ)
        (timer : TimingEvent) (was : Option ℤ)
        → of_index running.program.priorities.items call.task ≡ Some priority
        → of_index running.program.timers.items number ≡ Some timer
        → timer.handler.object ≡ object
        → of_index running.state.timers number ≡ Some was
        → let action = Call call.task call.number object (SetTimer number) call.arg in
        ChangesTimer number (Some call.arg) running (objects_next running action)
        × (objects_answers running action
        ≡ record { task = call.task; number = call.number; reply = Value (pos 0) } ∷ []) }
    ensures cancelled { (running : Running) (call : Waiting) (object number priority : ℕ)
        (timer : TimingEvent) (time : ℤ)
        → of_index running.program.priorities.items call.task ≡ Some priority
        → of_index running.program.timers.items number ≡ Some timer
        → timer.handler.object ≡ object
        → of_index running.state.timers number ≡ Some (Some time)
        → let action = Call call.task call.number object (CancelTimer number) call.arg in
        ChangesTimer number None running (objects_next running action)
        × (objects_answers running action
        ≡ record { task = call.task; number = call.number; reply = Truth true } ∷ []) }
    ensures was_not_set { (running : Running) (call : Waiting) (object number priority : ℕ)
        (timer : TimingEvent)
        → of_index running.program.priorities.items call.task ≡ Some priority
        → of_index running.program.timers.items number ≡ Some timer
        → timer.handler.object ≡ object
        → of_index running.state.timers number ≡ Some None
        → let action = Call call.task call.number object (CancelTimer number) call.arg in
        ChangesTimer number None running (objects_next running action)
        × (objects_answers running action
        ≡ record { task = call.task; number = call.number; reply = Truth false } ∷ []) }
{}

/// An interrupt runs the procedure that is its handler, a protected action of its object with no
/// caller, and answers the callers that are served after it. One that has no handler does nothing,
/// and an action that does nothing does nothing.
pub fn interrupts_run_their_handlers()
    // claim: An interrupt runs its handler, as a protected action with no caller
    ensures handled { (running : Running) (source occurrence : ℕ) (handler : Handler)
        (protected : Protected)
        → of_index running.program.interrupts.items source ≡ Some handler
        → of_index running.state.objects handler.object ≡ Some protected
        → let action = Interrupt source occurrence in
        (state : State)
        × Acts protected.operations protected.state (event handler.procedure) None
        (objects_answers running action) state
        × ChangesObject handler.object (record protected { state = state }) running
        (objects_next running action) }
    ensures unhandled { (running : Running) (source occurrence : ℕ)
        → of_index running.program.interrupts.items source ≡ None
        → let action = Interrupt source occurrence in
        (objects_next running action ≡ running) × (objects_answers running action ≡ []) }
    ensures nothing { (running : Running)
        → (objects_next running Noop ≡ running) × (objects_answers running Noop ≡ []) }
{}

/// Under the Ravenscar profile each object of a right program has at most one entry, at which one
/// call waits at most. Under Jorvik an object has up to 4 entries, at each of which 1 to 8 calls may
/// wait.
pub fn profiles_bound_the_queues()
    // claim: Under the Ravenscar profile an object has at most one entry, at which one call may wait
    ensures ravenscar { (program : Declarations) (object index : ℕ) (declared : ObjectDeclaration)
        (entry : Entry)
        → IsProgram program → program.profile ≡ Ravenscar
        → of_index program.objects.items object ≡ Some declared
        → of_index (operations_of declared).entries.items index ≡ Some entry
        → (index ≡ 1) × (entry.longest ≡ 1) }
    ensures jorvik { (program : Declarations) (object index : ℕ) (declared : ObjectDeclaration)
        (entry : Entry)
        → IsProgram program
        → of_index program.objects.items object ≡ Some declared
        → of_index (operations_of declared).entries.items index ≡ Some entry
        → (index ≤ 4) × (1 ≤ entry.longest) × (entry.longest ≤ 8) }
{}
