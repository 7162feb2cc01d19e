//! The headline over every history, with no cluster in it.

ghost use Rattle.std.specs.Prelude.{ℕ, List};
ghost use Rattle.rp_base.specs.declared.action.Action.{Action};
ghost use Rattle.rp_base.specs.declared.config.Config.{Config};
ghost use Rattle.rp_model.specs.Events.{Event};
ghost use Rattle.rp_model.specs.Facts.{IsDecided};
ghost use Rattle.rp_model.specs.World.{World};
ghost use Rattle.rp_agreement.specs.Answered.{setting_for};
ghost use Rattle.rp_agreement.specs.History.{IsHistory, AreMoments};
ghost use Rattle.rp_agreement.specs.Noted.{IsNoted};
ghost use Rattle.rp_world.specs.Agreeing.{Agree, IsOrdered};

use rp_agreement::{
    applied_lists_are_prefixes, calls_count_in_order, histories_agree, only_made_calls_count,
    only_noted_actions_are_decided, replies_answer_calls_that_count, replies_follow_the_order,
    the_order_exists,
};
use rp_machine::{Machine, a_call_has_one_place};

/// Nodes of one configuration that run one program of a machine agree at any two moments of any
/// history, whatever stops, is cut within a step, starts again, is lost or delivered twice. At each
/// moment there is one order of all that is decided: what each node has applied is a prefix of it,
/// the calls of a task that count in it are those that the task made, in order, and each reply that
/// a task got is the answer that it gives to the task's call, which takes effect at one place of
/// it. An event of the history asked for each call in it, with its object, operation and argument, and
/// noted each interrupt and each tick in it at some node.
pub fn histories_are_ordered<M: Machine>()
    // claim: The agreement and the order of a run hold of any two moments of any history of right
    //   events, with no cluster in it
    ensures agree { (config : Config) (program : M.Program) (now later : World)
        → AreMoments (setting_for M.next M.answers M.begin config program) now later
        → Agree M.next M.answers M.image (M.begin program) now later }
    ensures ordered { (config : Config) (program : M.Program) (events : List Event) (world : World)
        → IsHistory (setting_for M.next M.answers M.begin config program) events world
        → IsOrdered M.next M.answers (M.begin program) config.nodes world }
    ensures noted { (config : Config) (program : M.Program) (events : List Event) (world : World)
        → IsHistory (setting_for M.next M.answers M.begin config program) events world
        → (i : ℕ) (v : Action) → IsDecided config.nodes world.sent i v → IsNoted events v }
{
    histories_agree::<M>();
    only_noted_actions_are_decided::<M>();
    replies_follow_the_order::<M>();
    the_order_exists();
    applied_lists_are_prefixes();
    calls_count_in_order::<M>();
    replies_answer_calls_that_count::<M>();
    only_made_calls_count::<M>();
    a_call_has_one_place::<M>();
}
