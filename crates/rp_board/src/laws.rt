//! The facts about agreement that the rule of the table uses.

ghost use Rattle.rp_agreement.specs.Answered.{setting_for};
ghost use Rattle.rp_base.specs.declared.config.Config.{Config};
ghost use Rattle.rp_board.specs.Laws.{EventsKeep};
ghost use Rattle.rp_board.specs.OrderLaws.{OrderLaws};

use rp_agreement::{
    calls_count_in_order, node_events_keep_replies, nodes_send_right_packets,
    only_made_calls_count, replies_answer_calls_that_count, task_events_keep_replies,
    tasks_send_right_packets, the_order_exists,
};
use rp_machine::{Machine, a_call_has_one_place};

/// An event of an actor preserves the invariant, and the packets that the actor sends name it as
/// their sender.
pub(crate) fn events_keep<M: Machine>()
    ensures { (config : Config) (program : M.Program)
        → EventsKeep (setting_for M.next M.answers M.begin config program) }
{
    node_events_keep_replies::<M>();
    task_events_keep_replies::<M>();
    nodes_send_right_packets::<M>();
    tasks_send_right_packets();
}

/// What follows from the invariant for the order of a world.
pub fn order_laws<M: Machine>()
    ensures { (config : Config) (program : M.Program)
        → OrderLaws (setting_for M.next M.answers M.begin config program) }
{
    the_order_exists();
    replies_answer_calls_that_count::<M>();
    calls_count_in_order::<M>();
    only_made_calls_count::<M>();
    a_call_has_one_place::<M>();
}
