//! What follows from the rules of a protected object alone.

ghost use Rattle.std.specs.Prelude.{◌≡◌, ◌↔◌, List, length, Option};
ghost use Rattle.rp_base.specs.declared.reply.Answer.{Answer};
ghost use Rattle.rp_body.specs.declared.components.Limits.{Limits};
ghost use Rattle.rp_body.specs.Ranges.{KeepsRanges, HasBools, HasBoolsOf};
ghost use Rattle.rp_entry.specs.Operations.{OperationsFit};
ghost use Rattle.rp_entry.specs.declared.operations.Operations.{Operations};
ghost use Rattle.rp_entry.specs.declared.state.CallOutcome.{CallOutcome};
ghost use Rattle.rp_entry.specs.Queue.{State};
ghost use Rattle.rp_entry.specs.Servicing.{Services};
ghost use Rattle.rp_entry.specs.Actions.{Request, Acts};
ghost use Rattle.rp_entry.specs.Results.{Acted, acted};
ghost use Rattle.rp_entry.specs.Accounting.{KeepsAll};

/// From every state servicing ends, in one state and with one list of answers.
pub fn servicing_has_one_end()
    // claim: Servicing and every action have one end, from every state
    ensures an_end { (operations : Operations) (before : State)
        → (replied : List Answer) × ((after : State) × Services operations before replied after) }
    ensures no_other { (operations : Operations) (before one other : State)
        (replied heard : List Answer)
        → Services operations before replied one → Services operations before heard other
        → (replied ≡ heard) × (one ≡ other) }
{}

/// A protected action ends so too: a request at a state gives every replica the same answers and
/// leaves the same state.
pub fn actions_have_one_end()
    // claim as servicing_has_one_end
    ensures an_end { (operations : Operations) (before : State) (request : Request)
        → (caller : Option CallOutcome) × ((replied : List Answer) × ((after : State)
        × Acts operations before request caller replied after)) }
    ensures no_other { (operations : Operations) (before one other : State) (request : Request)
        (caller called : Option CallOutcome) (replied heard : List Answer)
        → Acts operations before request caller replied one
        → Acts operations before request called heard other
        → (caller ≡ called) × (replied ≡ heard) × (one ≡ other) }
{}

/// The result of an action is the stated function of operations, state and request: the rules hold
/// of exactly its result.
pub fn actions_are_their_results()
    // claim: A protected action is one function of operations, state and request
    ensures { (operations : Operations) (before : State) (request : Request) (result : Acted)
        → Acts operations before request result.caller result.replied result.after
        ↔ (acted operations before request ≡ result) }
{}

/// No action changes which whole numbers are declared or their ranges, and values in range stay in
/// range.
pub fn actions_keep_ranges()
    // claim: No action changes a range, and values in range stay in range
    ensures { (operations : Operations) (before after : State) (request : Request)
        (caller : Option CallOutcome) (replied : List Answer)
        → Acts operations before request caller replied after
        → KeepsRanges before.store after.store }
{}

/// No action of operations that fit their components changes which Booleans are declared.
pub fn actions_keep_booleans()
    // claim: No action changes which Booleans there are
    ensures { (limits : Limits) (operations : Operations) (before after : State)
        (request : Request) (caller : Option CallOutcome) (replied : List Answer)
        → OperationsFit limits operations → HasBools limits before.store
        → Acts operations before request caller replied after
        → HasBoolsOf before.store after.store }
{}

/// No caller that waits is lost or overtaken: at each entry that has a queue, the callers that an
/// action answers, followed by those that wait after it, are those that waited before it, and the
/// action's own call if it waits there.
pub fn actions_account_for_callers()
    // claim: At each entry those that are answered, followed by those that still wait, are those
    //   that waited, in their order
    ensures { (operations : Operations) (before after : State) (request : Request)
        (caller : Option CallOutcome) (replied : List Answer)
        → length before.queues ≡ length operations.entries.items
        → Acts operations before request caller replied after
        → KeepsAll before request caller replied after }
{}
