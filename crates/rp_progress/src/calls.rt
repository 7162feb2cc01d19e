//! A call that a task waits for, or makes next, can count, and can be answered.

ghost use Rattle.std.specs.Prelude.{◌≡◌, ◌⊎◌, ◌≤◌, ℕ, ℤ, suc, Option, Some, None, List, [], ◌∷◌, ◌++◌, length};
ghost use Rattle.rp_base.specs.Action.{IsRight};
ghost use Rattle.rp_base.specs.declared.action.Action.{Action};
ghost use Rattle.rp_base.specs.declared.action.Action.TheVariants.{Call};
ghost use Rattle.rp_base.specs.declared.action.Operation.{Operation};
ghost use Rattle.rp_base.specs.declared.config.Config.{Config};
ghost use Rattle.rp_base.specs.declared.reply.Answer.{Answer};
ghost use Rattle.rp_machine.specs.Places.{IsPlace};
ghost use Rattle.rp_model.specs.Effect.{Setting};
ghost use Rattle.rp_model.specs.Events.{Event, Submit};
ghost use Rattle.rp_model.specs.World.{World};
ghost use Rattle.rp_agreement.specs.Answered.{named, setting_for};
ghost use Rattle.rp_agreement.specs.Computed.{order_of};
ghost use Rattle.rp_agreement.specs.History.{IsHistory, AreMoments};
ghost use Rattle.rp_possible.specs.Rounds.{GoesOnBy};
ghost use Rattle.rp_progress.specs.Waiting.{IsQuorum, IsPositionLeft, AreBallotsLeft, records_in};
ghost use Rattle.rp_progress.specs.Waiting.{TaskHas, CanBeAnswered, CanCount, CanFill, IsFull};

use rp_agreement::{
    histories_agree, histories_are_sound, records_stay_in_the_log, replies_answer_calls_that_count,
    replies_follow_the_order,
};
use rp_machine::{Machine, a_call_has_one_answer};

/// After any history, whatever nodes are stopped and whatever was lost, each call that a task waits
/// for can count: any majority of the nodes, led by any of these, can apply it, with nothing
/// delivered that was sent before, if a position of the log and enough ballots are left to them.
/// And if what is applied then answers the call, its task has got this answer, which is the one that
/// the order of all actions gives to it. Else the call waits at its object, whose affair it is.
pub fn a_waiting_call_can_count<M: Machine>()
    // claim: After any history any majority of the nodes, led by any of them, can go on with a task
    //   that waits so that its call counts, and is answered if what is applied then answers it, with
    //   no packet of before and no other node, if a position and ballots are left to them
    ensures { (config : Config) (program : M.Program) (events : List Event) (w : World)
        (quorum : List ℕ) (leader i round t : ℕ) (replies : List Answer) (call : Action)
        → let setting = setting_for M.next M.answers M.begin config program in
        IsHistory setting events w → IsQuorum config.nodes quorum leader
        → IsPositionLeft config.max_positions (records_in w) quorum i
        → AreBallotsLeft (records_in w) quorum leader i round
        → TaskHas w t replies (Some call)
        → CanCount setting quorum leader t replies w [] }
{
    a_call_has_one_answer::<M>();
    replies_follow_the_order::<M>();
    replies_answer_calls_that_count::<M>();
    M::laws();
}

/// After any history each call that a task waits for can be answered, by events as above: they bring
/// its task the reply that the order of all actions gives to it, unless it waits at its object then,
/// as at a closed entry.
pub fn a_waiting_call_can_be_answered<M: Machine>()
    // claim: After any history any majority of the nodes, led by any of them, can go on with a task
    //   that waits so that it gets its reply, unless its call then waits at its object
    ensures { (config : Config) (program : M.Program) (events : List Event) (w : World)
        (quorum : List ℕ) (leader i round t : ℕ) (replies : List Answer) (call : Action)
        → let setting = setting_for M.next M.answers M.begin config program in
        IsHistory setting events w → IsQuorum config.nodes quorum leader
        → IsPositionLeft config.max_positions (records_in w) quorum i
        → AreBallotsLeft (records_in w) quorum leader i round
        → TaskHas w t replies (Some call)
        → CanBeAnswered setting quorum leader t replies w }
{
    a_waiting_call_can_count::<M>();
}

/// After any history a task that waits for nothing can make any right call next, if a number is
/// left to it (a right call's number is 2^32 - 1 at most): it asks the leader, and goes on as a task
/// that waits. So for a task there is no last call, but by its numbers, the log or the ballots, or
/// where its object lets it wait.
pub fn a_task_can_go_on<M: Machine>()
    // claim: After any history a task that waits for nothing can make any right call next, and it
    //   can count and be answered as that of a task that waits
    ensures { (config : Config) (program : M.Program) (events : List Event) (w : World)
        (quorum : List ℕ) (leader i round t object : ℕ) (operation : Operation) (arg : ℤ)
        (replies : List Answer)
        → let setting = setting_for M.next M.answers M.begin config program in
        IsHistory setting events w → IsQuorum config.nodes quorum leader
        → IsPositionLeft config.max_positions (records_in w) quorum i
        → AreBallotsLeft (records_in w) quorum leader i round
        → TaskHas w t replies None
        → IsRight (Call t (suc (length replies)) object operation arg)
        → CanCount setting quorum leader t replies w (Submit t leader object operation arg ∷ []) }
{
    a_call_has_one_answer::<M>();
    replies_follow_the_order::<M>();
    replies_answer_calls_that_count::<M>();
    M::laws();
}

/// After any history any majority of the nodes, led by any of these, can go on until a waiting call
/// counts, and is answered if what is applied then answers it, or the log is full without it, if
/// ballots are left to them. A full log is the end: the order of all actions stays as it is, and a
/// call that has no place in it never counts. Short of that a position is left to every majority
/// where no node has voted.
pub fn a_call_counts_later_or_the_log_is_full<M: Machine>()
    // claim (either): After any history any majority of the nodes, led by any of them, can go on so
    //   that a waiting call counts, or the log is full without it, if ballots are left to them
    ensures either { (config : Config) (program : M.Program) (events : List Event) (w : World)
        (quorum : List ℕ) (leader round t : ℕ) (replies : List Answer) (call : Action)
        → let setting = setting_for M.next M.answers M.begin config program in
        IsHistory setting events w → IsQuorum config.nodes quorum leader
        → AreBallotsLeft (records_in w) quorum leader config.max_positions round
        → TaskHas w t replies (Some call)
        → CanCount setting quorum leader t replies w [] ⊎ CanFill setting quorum t replies w }
    // claim (ends, full): Once an action is decided at each position of the log the order of all
    //   actions stays as it is, and a call that has no place in it has none at any later moment
    ensures ends { (setting : Setting M) (now later : World) → AreMoments setting now later
        → let nodes = setting.config.nodes in
        IsFull nodes setting.config.max_positions now
        → order_of nodes later.sent ≡ order_of nodes now.sent }
    ensures full { (setting : Setting M) (now later : World) → AreMoments setting now later
        → let nodes = setting.config.nodes in
        IsFull nodes setting.config.max_positions now
        → (t n : ℕ)
        → ((place : ℕ) → ¬ IsPlace setting.next setting.answers setting.begin
        (order_of nodes now.sent) (named t n) place)
        → (place : ℕ) → ¬ IsPlace setting.next setting.answers setting.begin
        (order_of nodes later.sent) (named t n) place }
{
    a_call_has_one_answer::<M>();
    replies_follow_the_order::<M>();
    replies_answer_calls_that_count::<M>();
    M::laws();
    histories_agree::<M>();
    histories_are_sound::<M>();
    records_stay_in_the_log::<M>();
}

/// What goes on from a history by events of a quorum and a task is a history: they are right events,
/// and lead to the world that they are said to lead to.
pub fn what_goes_on_is_a_history<M: Machine>()
    // claim: A world that goes on from a history by events of a quorum and a task is one of a history
    ensures { (setting : Setting M) (events more : List Event) (w after : World) (quorum : List ℕ)
        (t first : ℕ)
        → IsHistory setting events w → GoesOnBy setting quorum t first w more after
        → IsHistory setting (events ++ more) after }
{}
