//! Histories of a cluster stay within a closed list of orders.

ghost use Rattle.std.specs.Prelude.{ℕ, ◌≡◌, Some, List};
ghost use Rattle.rp_world.specs.rp_base.specs.Number.{IsTask};
ghost use Rattle.rp_world.specs.rp_base.specs.Records.{applied_of};
ghost use Rattle.rp_world.specs.rp_base.specs.Sets.{Has};
ghost use Rattle.rp_world.specs.rp_base.specs.declared.action.Action.{Action};
ghost use Rattle.rp_world.specs.rp_base.specs.declared.config.Config.{Config};
ghost use Rattle.rp_world.specs.rp_base.specs.declared.reply.Answer.{Answer};
ghost use Rattle.rp_world.specs.rp_model.specs.Events.{Event};
ghost use Rattle.rp_world.specs.rp_model.specs.Parts.{NodePart, TaskPart};
ghost use Rattle.rp_world.specs.rp_model.specs.World.{World, part_at};
ghost use Rattle.rp_world.specs.rp_agreement.specs.Answered.{setting_for};
ghost use Rattle.rp_world.specs.rp_agreement.specs.History.{IsHistory};
ghost use Rattle.rp_orders.specs.Orders.{AreRight, AreClosed, IsReached, IsGiven, IsStuck};
ghost use Rattle.rp_orders.specs.declared.guard.Guard.{Guard};
ghost use Rattle.rp_orders_world.specs.Within.{IsWithin};

use rp_agreement::{histories_are_sound, only_asked_actions_are_decided};
use rp_machine::{Machine, a_call_has_one_answer, replay_goes_on};
use rp_orders::closed_orders_lead_to_all;
use rp_world::histories_are_ordered;

/// Some orders are closed under some right actions, and a history of a cluster asks for and notes
/// only these, and a task asks for a call only where its guards hold of the reply to its call
/// before. Then what each node has applied leads to a state to which one of the orders leads, each
/// reply that a task got is given by one of them and one action more, and a task that waits for
/// ever after what a node has applied does so after one of them. Packets may be lost, delayed,
/// reordered or delivered twice, and nodes may stop, within a step too, and start again.
pub fn histories_stay_within<M: Machine>()
    // claim: In every history of a cluster each node is in a state to which a closed list of orders
    //   leads, if nothing is asked for or noted but what the list is closed under
    ensures states { (config : Config) (program : M.Program) (guards : List Guard)
        (may : List Action) (found : List (List Action)) (happened : List Event) (world : World)
        → AreRight may → AreClosed M.next M.answers (M.begin program) guards may found
        → IsHistory (setting_for M.next M.answers M.begin config program) happened world
        → IsWithin guards may happened world
        → (node : ℕ) (part : NodePart) → part_at world.nodes node ≡ Some part
        → IsReached M.next M.answers (M.begin program) guards found (applied_of part.records) }
    // claim: In every such history each reply that a task got is given by one of these orders and
    //   one action more
    ensures replies { (config : Config) (program : M.Program) (guards : List Guard)
        (may : List Action) (found : List (List Action)) (happened : List Event) (world : World)
        → AreRight may → AreClosed M.next M.answers (M.begin program) guards may found
        → IsHistory (setting_for M.next M.answers M.begin config program) happened world
        → IsWithin guards may happened world
        → (task : ℕ) (part : TaskPart) (answer : Answer) → part_at world.tasks task ≡ Some part
        → Has answer part.replies
        → IsGiven M.next M.answers (M.begin program) guards may found answer }
    // claim: In every such history a task that waits for ever after what a node has applied does so
    //   after one of these orders
    ensures stuck { (config : Config) (program : M.Program) (guards : List Guard)
        (may : List Action) (found : List (List Action)) (happened : List Event) (world : World)
        → AreRight may → AreClosed M.next M.answers (M.begin program) guards may found
        → IsHistory (setting_for M.next M.answers M.begin config program) happened world
        → IsWithin guards may happened world
        → (task node : ℕ) (part : NodePart) → IsTask task
        → part_at world.nodes node ≡ Some part
        → IsStuck M.next M.answers (M.begin program) guards may task (applied_of part.records)
        → (order : List Action) × Has order found
        × IsStuck M.next M.answers (M.begin program) guards may task order }
{
    closed_orders_lead_to_all::<M>();
    histories_are_sound::<M>();
    only_asked_actions_are_decided();
    histories_are_ordered::<M>();
    replay_goes_on::<M>();
    a_call_has_one_answer::<M>();
}
