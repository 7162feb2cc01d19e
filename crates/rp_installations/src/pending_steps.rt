//! Pending steps become events of a history.

ghost use Rattle.std.specs.Prelude.{◌≡◌, ℕ, Some, List, ◌++◌};
ghost use Rattle.rp_store.specs.rp_base.specs.declared.config.Config.{Config};
ghost use Rattle.rp_store.specs.rp_codec.specs.Message.{Message};
ghost use Rattle.rp_agreement.specs.rp_model.specs.Effect.{Setting};
ghost use Rattle.rp_agreement.specs.rp_model.specs.Events.{Event};
ghost use Rattle.rp_agreement.specs.rp_model.specs.Parts.{NodePart};
ghost use Rattle.rp_agreement.specs.rp_model.specs.World.{World, part_at};
ghost use Rattle.rp_agreement.specs.Answered.{setting_for};
ghost use Rattle.rp_agreement.specs.History.{IsHistory};
ghost use Rattle.rp_agreement.specs.Order.{AllSent};
ghost use Rattle.rp_agreement.specs.Ranges.{IsRangedWorld};
ghost use Rattle.rp_store.specs.Records.{AreTextsOf};
ghost use Rattle.rp_installations.specs.Making.{Made, Stopped};
ghost use Rattle.rp_installations.specs.Pending.{PendingStep, AreSteps, bytes_of};

use rp_agreement::the_opening_is_sound;
use rp_machine::{Machine, replies_fit};

/// In every history each number is within its range.
pub fn histories_keep_ranges<M: Machine>()
    // claim: In every history each number is within its range
    ensures { (config : Config) (program : M.Program) (events : List Event) (world : World)
        → let setting = setting_for M.next M.answers M.begin config program in
        IsHistory setting events world → IsRangedWorld config.nodes world }
{
    the_opening_is_sound();
    replies_fit::<M>();
}

/// A node's pending steps stay so while others send. Any of the first become events of the
/// history, with no change to any other node or task. A stop that leaves the bytes of the node's
/// records and some of those that the pending steps write is an event too, after the steps whose
/// records are whole.
pub fn pending_steps_become_events<M: Machine>()
    // claim: Steps of a node that a world does not have yet stay steps whatever others send
    ensures stay { (setting : Setting M) (sent later : List Message) (me : ℕ) (part : NodePart)
        (steps : List PendingStep) → AllSent sent later
        → AreSteps setting sent me part steps → AreSteps setting later me part steps }
    // claim: Steps that a world does not have yet become events of its history, the first ones
    //   first, and no other node or task changes; they note what the steps noted, and nothing else
    ensures made { (config : Config) (program : M.Program) (events : List Event) (world : World)
        (me : ℕ) (part : NodePart) (front back : List PendingStep)
        → let setting = setting_for M.next M.answers M.begin config program in
        IsHistory setting events world → part_at world.nodes me ≡ Some part
        → AreSteps setting world.sent me part (front ++ back)
        → Made setting events world me part front back }
    // claim: A stop that leaves a prefix of what a node's steps wrote after its records is a stop
    //   of a history: the steps whose records are whole happened, one whose record is torn was cut
    ensures stopped { (config : Config) (program : M.Program) (events : List Event) (world : World)
        (me : ℕ) (part : NodePart) (steps : List PendingStep) (bytes left rest : List ℕ)
        → let setting = setting_for M.next M.answers M.begin config program in
        IsHistory setting events world → part_at world.nodes me ≡ Some part → part.torn ≡ 0
        → AreTextsOf part.records bytes → AreSteps setting world.sent me part steps
        → bytes_of steps ≡ left ++ rest
        → Stopped setting events world me steps (bytes ++ left) }
{
    histories_keep_ranges::<M>();
}
