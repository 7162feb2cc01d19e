//! A call that is made after another call's reply takes its place after it.

ghost use Rattle.rp_agreement.specs.Answered.{setting_for};
ghost use Rattle.rp_agreement.specs.History.{AreMoments};
ghost use Rattle.rp_base.specs.declared.config.Config.{Config};
ghost use Rattle.rp_model.specs.World.{World};
ghost use Rattle.rp_agreement.specs.RealTime.{KeepsRealTime};

use crate::{
    histories_agree, only_made_calls_count, replies_answer_calls_that_count,
    replies_follow_the_order, the_order_exists,
};
use rp_machine::{Machine, a_call_has_one_place};

/// At two moments of a history, now and later: each call whose reply its task has now takes its place
/// in the later order before each call that was not made yet, whoever makes that. So the order is one
/// in which each call takes effect between the moment when it is made and the moment when its reply
/// arrives: what Herlihy and Wing call linearizable.
pub fn calls_keep_real_time<M: Machine>()
    // claim: A call that is made after another task's reply was got takes its place after the call
    //   that was answered, in the one order of all actions
    ensures { (config : Config) (program : M.Program) (now later : World)
        → AreMoments (setting_for M.next M.answers M.begin config program) now later
        → KeepsRealTime M.next M.answers (M.begin program) config.nodes now later }
{
    histories_agree::<M>();
    replies_follow_the_order::<M>();
    the_order_exists();
    replies_answer_calls_that_count::<M>();
    only_made_calls_count::<M>();
    a_call_has_one_place::<M>();
}
