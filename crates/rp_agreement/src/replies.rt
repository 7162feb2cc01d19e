//! Each reply that a task takes is the answer that the order gives to its call.

ghost use Rattle.std.specs.Prelude.{◌≡◌, ◌≤◌, ℕ, suc, Result, Ok, Some, List, [], ◌∷◌, slice_get, take};
ghost use Rattle.rp_base.specs.Config.{IsRightConfig};
ghost use Rattle.rp_base.specs.declared.action.Action.{Action};
ghost use Rattle.rp_base.specs.declared.config.Config.{Config};
ghost use Rattle.rp_base.specs.declared.fault.Fault.{Fault};
ghost use Rattle.rp_base.specs.declared.reply.Answer.{Answer};
ghost use Rattle.rp_codec.specs.Message.{Message};
ghost use Rattle.rp_machine.specs.Calls.{CallName, calls_of};
ghost use Rattle.rp_machine.specs.Places.{IsAnswerOf, IsPlace, HasReply};
ghost use Rattle.rp_machine.specs.Replay.{counted_of};
ghost use Rattle.rp_model.specs.Answers.{Steps};
ghost use Rattle.rp_model.specs.Effect.{Setting, Done, NodeInput, goes_on_as, untorn_part};
ghost use Rattle.rp_model.specs.Effect.{node_effect, cut_effect, stop_effect, restart_part};
ghost use Rattle.rp_model.specs.Events.{Event, IsRightEvent};
ghost use Rattle.rp_model.specs.Tasks.{TaskInput, task_effect};
ghost use Rattle.rp_model.specs.World.{World, Transition, part_at, event_effect};
ghost use Rattle.rp_model.specs.declared.effect.Effect.{Effect};
ghost use Rattle.rp_model.specs.Parts.{NodePart};
ghost use Rattle.rp_model.specs.Parts.{TaskPart};
ghost use Rattle.rp_agreement.specs.Computed.{order_of};
ghost use Rattle.rp_agreement.specs.History.{IsHistory};
ghost use Rattle.rp_agreement.specs.Inputs.{IsInput, IsTaskInput, NodeMoves, TaskMoves};
ghost use Rattle.rp_agreement.specs.Sound.{IsMember};
ghost use Rattle.rp_agreement.specs.Answered.{calls_so_far, named, setting_for, Occurs, AreItsCalls, IsKept, IsKeptWorld};

use crate::opening::the_opening_is_sound;
use rp_machine::{Machine, a_call_has_one_answer, an_answered_call_has_one_place};

/// The result of an input at a node keeps the invariant with the replies to tasks; so do a stop
/// within that step, however many bytes of its record are kept, a stop, a restart, and torn bytes
/// that are truncated where a restart fails.
pub fn node_events_keep_replies<M: Machine>()
    // claim: Every input of a node, and a stop within it, a stop and a restart keep the invariant
    //   of replies: what a node replied is an answer of its applied list, and what a task took is
    //   an answer of the order
    ensures input { (setting : Setting M) (x : ℕ) (input : NodeInput) (done : Done NodePart)
        (node after : ℕ → NodePart) (task : ℕ → TaskPart) (sent later : List Message)
        → IsRightConfig setting.config → IsMember setting.config.nodes x
        → IsKept setting node task sent → IsInput sent input
        → node_effect setting x (node x) input ≡ Ok done
        → NodeMoves x done node sent after later
        → IsKept setting after task later }
    ensures cut { (setting : Setting M) (x kept : ℕ) (input : NodeInput) (done : Done NodePart)
        (node after : ℕ → NodePart) (task : ℕ → TaskPart) (sent later : List Message)
        → IsRightConfig setting.config → IsMember setting.config.nodes x
        → IsKept setting node task sent → IsInput sent input
        → cut_effect setting x (node x) input kept ≡ Ok done
        → NodeMoves x done node sent after later
        → IsKept setting after task later }
    ensures stop { (setting : Setting M) (x : ℕ) (done : Done NodePart)
        (node after : ℕ → NodePart) (task : ℕ → TaskPart) (sent later : List Message)
        → IsMember setting.config.nodes x → IsKept setting node task sent
        → stop_effect (node x) ≡ Ok done
        → NodeMoves x done node sent after later
        → IsKept setting after task later }
    ensures restart { (setting : Setting M) (x : ℕ)
        (node after : ℕ → NodePart) (task : ℕ → TaskPart) (sent later : List Message)
        → IsMember setting.config.nodes x → IsKept setting node task sent
        → NodeMoves x (restart_part (node x)) node sent after later
        → IsKept setting after task later }
    ensures untorn { (setting : Setting M) (x left : ℕ)
        (node after : ℕ → NodePart) (task : ℕ → TaskPart) (sent later : List Message)
        → IsMember setting.config.nodes x → IsKept setting node task sent
        → NodeMoves x (goes_on_as (untorn_part left (node x))) node sent after later
        → IsKept setting after task later }
{}

/// The result of an input at a task keeps the invariant with the replies to tasks.
pub fn task_events_keep_replies<M: Machine>()
    ensures { (setting : Setting M) (t : ℕ) (input : TaskInput) (done : Done TaskPart)
        (node after : ℕ → NodePart) (task moved : ℕ → TaskPart) (sent later : List Message)
        → IsKept setting node task sent → IsTaskInput sent t input
        → task_effect setting.config t (task t) input ≡ Ok done
        → ((k : ℕ) → after k ≡ node k) → TaskMoves t done task sent moved later
        → IsKept setting after moved later }
{}

/// What an event of a world leads to keeps the replies to tasks, and so does the world that a step
/// leaves whatever it answers.
pub fn events_keep_replies<M: Machine>()
    // claim: Every event keeps the invariant of replies, whatever a step returns
    ensures effect { (setting : Setting M) (world : World) (event : Event) (transition : Transition)
        → IsRightConfig setting.config → IsKeptWorld setting world
        → IsRightEvent event
        → event_effect setting world event ≡ Ok transition
        → IsKeptWorld setting transition.world }
    ensures answer { (setting : Setting M) (world after : World) (event : Event)
        (answer : Result Effect Fault)
        → IsRightConfig setting.config → IsKeptWorld setting world
        → IsRightEvent event
        → Steps setting world event after answer
        → IsKeptWorld setting after }
{}

/// Every history, whatever stops, is cut within a step or starts again, leads to a world that keeps
/// the replies to tasks. There the kth reply that a task took answers its kth call, and is an
/// answer that the order gives to it.
pub fn replies_follow_the_order<M: Machine>()
    // claim: The kth reply that a task took is the answer in the order to its kth call, in every
    //   history
    ensures histories { (setting : Setting M) (events : List Event) (world : World)
        → IsHistory setting events world → IsKeptWorld setting world }
    ensures replies { (setting : Setting M) (node : ℕ → NodePart) (task : ℕ → TaskPart)
        (sent : List Message) → IsKept setting node task sent
        → let order = order_of setting.config.nodes sent in
        (t k : ℕ) (answer : Answer) → slice_get (task t).replies k ≡ Some answer
        → IsAnswerOf setting.next setting.answers setting.begin order (named t (suc k)) answer }
{
    the_opening_is_sound();
}

/// At a program of a machine the order gives one answer to a call at most.
pub fn answers_are_one<M: Machine>()
    // claim as calls_count_where_they_first_occur
    ensures { (config : Config) (program : M.Program) (node : ℕ → NodePart)
        (task : ℕ → TaskPart) (sent : List Message)
        → IsKept (setting_for M.next M.answers M.begin config program) node task sent
        → let order = order_of config.nodes sent in
        (call : CallName) (one other : Answer)
        → IsAnswerOf M.next M.answers (M.begin program) order call one
        → IsAnswerOf M.next M.answers (M.begin program) order call other
        → one ≡ other }
{
    a_call_has_one_answer::<M>();
}

/// At a program of a machine each reply that a task took is the answer that the order gives to the
/// task's call, which takes effect at one place in it, and there alone.
pub fn replies_answer_calls_that_count<M: Machine>()
    // claim: A reply that a task took is the answer in the order to its call, which takes effect at
    //   one place there and no other
    ensures { (config : Config) (program : M.Program) (node : ℕ → NodePart)
        (task : ℕ → TaskPart) (sent : List Message)
        → IsKept (setting_for M.next M.answers M.begin config program) node task sent
        → let order = order_of config.nodes sent in
        (t k : ℕ) (answer : Answer) → slice_get (task t).replies k ≡ Some answer
        → HasReply M.next M.answers (M.begin program) order (named t (suc k)) answer }
{
    replies_follow_the_order::<M>();
    an_answered_call_has_one_place::<M>();
}

/// At a program of a machine the first occurrence of a call in the order is its place, where it
/// counts. So no call is passed over; and later ones do not count.
pub fn calls_count_where_they_first_occur<M: Machine>()
    // claim: A call counts at its first position in the order, and has one answer there
    ensures { (config : Config) (program : M.Program) (node : ℕ → NodePart)
        (task : ℕ → TaskPart) (sent : List Message)
        → IsKept (setting_for M.next M.answers M.begin config program) node task sent
        → let order = order_of config.nodes sent in
        (t n k : ℕ) (action : Action)
        → slice_get order k ≡ Some action → calls_of action ≡ named t n ∷ []
        → ¬ Occurs (named t n) (take k order)
        → IsPlace M.next M.answers (M.begin program) order (named t n) (suc k) }
{
    M::laws();
}

/// At a program of a machine the calls of a task that count in the order are those that the task
/// made, in order: all of them, or all but the one that it waits for.
pub fn calls_count_in_order<M: Machine>()
    // claim: The calls of a task that count in the order are those that it made, in order: all of
    //   them, or all but the one that it waits for
    ensures { (config : Config) (program : M.Program) (node : ℕ → NodePart)
        (task : ℕ → TaskPart) (sent : List Message)
        → IsKept (setting_for M.next M.answers M.begin config program) node task sent
        → let order = order_of config.nodes sent in
        (t : ℕ) → AreItsCalls sent t (task t) (counted_of M.next M.answers (M.begin program) order) }
{
    M::laws();
}

/// At a program of a machine no call takes effect in the order but those that its task made.
pub fn only_made_calls_count<M: Machine>()
    // claim: No call takes effect in the order that its task did not make
    ensures { (config : Config) (program : M.Program) (node : ℕ → NodePart)
        (task : ℕ → TaskPart) (sent : List Message)
        → IsKept (setting_for M.next M.answers M.begin config program) node task sent
        → let order = order_of config.nodes sent in
        (t n place : ℕ) → IsPlace M.next M.answers (M.begin program) order (named t n) place
        → (1 ≤ n) × (n ≤ calls_so_far (task t)) }
{
    calls_count_in_order::<M>();
}
