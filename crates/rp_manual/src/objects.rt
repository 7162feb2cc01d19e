//! What one protected object does (Ada Reference Manual, sections 9.5.1, 9.5.3, 11.4, C.3, D.7 and
//! D.15).

ghost use Rattle.std.specs.Prelude.{◌≡◌, ℕ, ℤ, pos, ◌-◌, ◌<◌, ◌≤◌, true, false, Option, Some, None, Vec, List, [], ◌∷◌, length, FitsSigned};
ghost use Rattle.std.specs.Int.{w64};
ghost use Rattle.std.specs.declared.alloc.Global.{Global};
ghost use Rattle.std.specs.FinMap.{get};
ghost use Rattle.rp_object.specs.rp_base.specs.declared.reply.Reply.TheVariants.{Value, Truth, ConstraintError, ProgramError};
ghost use Rattle.rp_object.specs.rp_base.specs.declared.reply.Answer.{Answer};
ghost use Rattle.rp_object.specs.rp_body.specs.declared.expression.Expr.{Expr};
ghost use Rattle.rp_object.specs.rp_body.specs.declared.expression.Cond.{Cond};
ghost use Rattle.rp_object.specs.rp_body.specs.declared.statement.Stmt.{Stmt};
ghost use Rattle.rp_object.specs.rp_body.specs.Expressions.{value_of, truth_of};
ghost use Rattle.rp_object.specs.rp_entry.specs.declared.operations.Function.TheVariants.{Value as Whole, Truth as Condition};
ghost use Rattle.rp_object.specs.rp_entry.specs.declared.operations.Entry.{Entry};
ghost use Rattle.rp_object.specs.rp_entry.specs.declared.operations.Operations.{Operations};
ghost use Rattle.rp_object.specs.rp_entry.specs.declared.state.Waiting.{Waiting};
ghost use Rattle.rp_object.specs.rp_entry.specs.declared.state.CallOutcome.{CallOutcome};
ghost use Rattle.rp_object.specs.rp_entry.specs.declared.state.CallOutcome.TheVariants.{Reply, Waits};
ghost use Rattle.rp_object.specs.rp_entry.specs.Operations.{of_index};
ghost use Rattle.rp_object.specs.rp_entry.specs.Queue.{State, queue_at};
ghost use Rattle.rp_object.specs.rp_entry.specs.Servicing.{Services};
ghost use Rattle.rp_object.specs.rp_entry.specs.Actions.{Acts, Request, calls_function, calls_procedure, calls_entry, event};
ghost use Rattle.rp_manual.specs.ObjectRules.{left_by, RunsForCaller, JoinsLast, NobodyWaitsAtOpen, IsNextAt, IsFirstOpen, IsServedFirst};

/// In a function the object is a constant: nothing changes and nobody is served. Its caller gets the
/// value of its expression, or Constraint_Error if that has more than 64 signed bits, or the truth
/// of its condition.
pub fn functions_change_nothing()
    // claim: A function changes nothing, and its caller gets the value of its expression
    ensures constant { (operations : Operations) (before after : State) (index : ℕ) (arg : ℤ)
        (caller : Option CallOutcome) (replied : List Answer)
        → Acts operations before (calls_function index arg) caller replied after
        → (after ≡ before) × (replied ≡ []) }
    ensures value { (operations : Operations) (before after : State) (index : ℕ) (arg : ℤ)
        (caller : Option CallOutcome) (replied : List Answer) (expr : Expr)
        → of_index operations.functions.items index ≡ Some (Whole expr)
        → Acts operations before (calls_function index arg) caller replied after
        → let result = value_of expr before.store arg (pos 0) in FitsSigned w64 result
        → caller ≡ Some (Reply (Value result)) }
    ensures beyond { (operations : Operations) (before after : State) (index : ℕ) (arg : ℤ)
        (caller : Option CallOutcome) (replied : List Answer) (expr : Expr)
        → of_index operations.functions.items index ≡ Some (Whole expr)
        → Acts operations before (calls_function index arg) caller replied after
        → ¬ FitsSigned w64 (value_of expr before.store arg (pos 0))
        → caller ≡ Some (Reply ConstraintError) }
    ensures truth { (operations : Operations) (before after : State) (index : ℕ) (arg : ℤ)
        (caller : Option CallOutcome) (replied : List Answer) (cond : Cond)
        → of_index operations.functions.items index ≡ Some (Condition cond)
        → Acts operations before (calls_function index arg) caller replied after
        → caller ≡ Some (Reply (Truth (truth_of cond before.store arg (pos 0)))) }
{}

/// A procedure's body runs with the caller's argument. Its caller gets the out value, or the
/// exception that the body raised, and the queues are serviced from what the body assigned.
pub fn procedures_run_for_their_caller()
    // claim: An exception in a body reaches its own caller, what was assigned stays, and the queues
    //   are serviced all the same
    ensures { (operations : Operations) (before after : State) (index : ℕ) (arg : ℤ)
        (caller : Option CallOutcome) (replied : List Answer) (body : Vec Stmt Global)
        → of_index operations.procedures.items index ≡ Some body
        → Acts operations before (calls_procedure index arg) caller replied after
        → RunsForCaller operations body.items arg before caller replied after }
{}

/// A call of an entry whose barrier is True runs at once. At one whose barrier is False it waits
/// after the others if fewer wait than the entry allows, and otherwise gets Program_Error, and
/// nothing changes.
pub fn barriers_admit_or_queue()
    // claim: A call of an open entry runs at once; at a closed one it waits last where the queue has
    //   room, and otherwise gets Program_Error and changes nothing
    ensures open_runs { (operations : Operations) (before after : State) (index : ℕ) (entry : Entry)
        (call : Waiting) (caller : Option CallOutcome) (replied : List Answer)
        → of_index operations.entries.items index ≡ Some entry
        → get before.store.bools entry.barrier ≡ Some true
        → Acts operations before (calls_entry index call) caller replied after
        → RunsForCaller operations entry.body.items call.arg before caller replied after }
    ensures closed_waits { (operations : Operations) (before after : State) (index : ℕ)
        (entry : Entry) (call : Waiting) (caller : Option CallOutcome) (replied : List Answer)
        → length before.queues ≡ length operations.entries.items
        → of_index operations.entries.items index ≡ Some entry
        → get before.store.bools entry.barrier ≡ Some false
        → length (queue_at before.queues (index - 1)) < entry.longest
        → Acts operations before (calls_entry index call) caller replied after
        → (caller ≡ Some Waits) × (replied ≡ []) × JoinsLast index call before after }
    ensures full_refuses { (operations : Operations) (before after : State) (index : ℕ)
        (entry : Entry) (call : Waiting) (caller : Option CallOutcome) (replied : List Answer)
        → of_index operations.entries.items index ≡ Some entry
        → get before.store.bools entry.barrier ≡ Some false
        → entry.longest ≤ length (queue_at before.queues (index - 1))
        → Acts operations before (calls_entry index call) caller replied after
        → (caller ≡ Some (Reply ProgramError)) × (replied ≡ []) × (after ≡ before) }
{}

/// A handler is a procedure that runs with no caller and the argument 0, and an exception of it has
/// no effect of its own: the queues are serviced from what it assigned.
pub fn handlers_run_without_a_caller()
    // claim: An event runs its handler's procedure, whose exception reaches nobody
    ensures { (operations : Operations) (before after : State) (index : ℕ)
        (caller : Option CallOutcome) (replied : List Answer) (body : Vec Stmt Global)
        → of_index operations.procedures.items index ≡ Some body
        → Acts operations before (event index) caller replied after
        → (caller ≡ None)
        × Services operations (record before { store = left_by body.items (pos 0) before })
        replied after }
{}

/// Servicing serves the first caller of the first open entry, with that entry's body and that
/// caller's argument, and goes on from what this leaves; it ends where nobody waits at an open
/// barrier, as after every action.
pub fn the_first_caller_of_the_first_open_entry_is_served()
    // claim: Of the entries with a True barrier and a caller the one declared first is served, its
    //   first caller first, who gets the result of the body that ran for it
    ensures first { (operations : Operations) (before after : State) (index : ℕ) (entry : Entry)
        (call : Waiting) (rest : List Waiting) (replied : List Answer)
        → IsNextAt operations before index entry call rest
        → IsFirstOpen operations before index
        → Services operations before replied after
        → IsServedFirst operations before index entry call rest replied after }
    ensures serviced { (operations : Operations) (before after : State) (request : Request)
        (caller : Option CallOutcome) (replied : List Answer)
        → NobodyWaitsAtOpen operations before
        → Acts operations before request caller replied after
        → NobodyWaitsAtOpen operations after }
{}
