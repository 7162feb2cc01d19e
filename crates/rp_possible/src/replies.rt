//! Histories in which calls get their replies.

ghost use Rattle.std.specs.Prelude.{◌≡◌, ◌≢◌, ◌≤◌, ℕ, pos, [], ◌∷◌};
ghost use Rattle.rp_base.specs.Number.{IsTask, IsUpTo};
ghost use Rattle.rp_base.specs.declared.action.Action.{Action};
ghost use Rattle.rp_base.specs.declared.action.Action.TheVariants.{Call};
ghost use Rattle.rp_base.specs.declared.action.Operation.TheVariants.{Procedure};
ghost use Rattle.rp_base.specs.declared.reply.Reply.{Reply};
ghost use Rattle.rp_possible.specs.Possible.{AreReplied, IsServedLater};
ghost use Rattle.rp_possible.specs.Possible.{answer_of, prompt_nodes, late_nodes};

use rp_machine::Machine;

/// With three to seven nodes, of which a bare majority runs, each of these can lead, and each task
/// gets the replies to two calls, one after the other, and asks once for each.
pub fn each_task_gets_its_replies<M: Machine>()
    // claim: With three to seven nodes, of which a bare majority runs, whichever of these leads,
    //   some history brings each task the replies to two calls, for each of which it asks once
    ensures { (next : M → Action → M) (replies : M → Action → Reply) (begin : M)
        (nodes leader task : ℕ)
        → 3 ≤ nodes → nodes ≤ 7 → 1 ≤ leader → leader ≤ nodes → IsTask task
        → let first : Action = Call task 1 1 (Procedure 1) (pos 5) in
        let second : Action = Call task 2 1 (Procedure 1) (pos 7) in
        AreReplied (prompt_nodes nodes 2 next replies begin) leader task
        (answer_of task 1 (replies begin first)
        ∷ answer_of task 2 (replies (next begin first) second) ∷ []) }
{}

/// With three nodes, where a task's call waits until another one's is applied, both get their
/// replies, whichever node leads for the other: no caller has to ask again for what it waits for.
pub fn a_served_caller_gets_its_reply<M: Machine>()
    // claim: With three nodes, where a task's call waits until another one's takes effect, some
    //   history brings both their replies, though each asked once, whichever node leads
    ensures { (next : M → Action → M) (replies late : M → Action → Reply) (begin : M)
        (waits serves leader : ℕ)
        → IsTask waits → IsTask serves → waits ≢ serves → IsUpTo 3 leader
        → let first : Action = Call waits 1 1 (Procedure 1) (pos 5) in
        let second : Action = Call serves 1 1 (Procedure 1) (pos 7) in
        IsServedLater (late_nodes waits next replies late begin) leader first
        (answer_of waits 1 (late (next begin first) second))
        (answer_of serves 1 (replies (next begin first) second)) }
{}
