//! What callers do with handles is a history of the model, so nodes by handle agree.

ghost use Rattle.std.specs.Prelude.{ℕ, Some, Result, Ok, List};
ghost use Rattle.rp_base.specs.Config.{IsRightConfig};
ghost use Rattle.rp_base.specs.declared.config.Config.{Config};
ghost use Rattle.rp_base.specs.declared.fault.Fault.{Fault};
ghost use Rattle.rp_model.specs.Effect.{NodeInput};
ghost use Rattle.rp_model.specs.Events.{Event};
ghost use Rattle.rp_model.specs.World.{World};
ghost use Rattle.rp_agreement.specs.Answered.{setting_for};
ghost use Rattle.rp_agreement.specs.History.{IsHistory};
ghost use Rattle.rp_requests.specs.Nodes.{RequestAnswers, NodeState};
ghost use Rattle.rp_requests.specs.Requests.{Step, LastAnswer};
ghost use Rattle.rp_requests.specs.declared.buffer.Lengths.{Lengths};
ghost use Rattle.rp_installations.specs.Behind.{HasHistory, HasLonger, IsBehind};
ghost use Rattle.rp_installations.specs.Moves.{IsInstallation, MachineMoves};
ghost use Rattle.rp_installations.specs.Outcomes.{AgreeAs, GivesAnswer, HasOrder, IsAllSynced};
ghost use Rattle.rp_installations.specs.Outcomes.{IsOpenAt};
ghost use Rattle.rp_installations.specs.Sites.{Installation, NodeSite};

use crate::histories_keep_ranges;
use rp_machine::Machine;
use rp_world::histories_are_ordered;

/// The answer of a step has in its buffer what the step gives: the bytes for the device and then
/// the packets. So has the answer to the question for the last step's answer.
pub fn answers_give_the_step<M: Machine>()
    // claim: The answer of a node's step, and the answer to the question for it, is what the moves
    //   of an installation take from the step: the bytes for the device, then the packets
    ensures step { (input : Result NodeInput Fault) (old new : NodeState M)
        (before after : List ℕ) (lengths : Lengths)
        → RequestAnswers M.next M.answers M.image (Some (Step input)) old new before after (Ok lengths)
        → GivesAnswer new after lengths }
    ensures last { (old new : NodeState M) (before after : List ℕ) (lengths : Lengths)
        → RequestAnswers M.next M.answers M.image (Some LastAnswer) old new before after (Ok lengths)
        → GivesAnswer new after lengths }
{}

/// Whatever callers do with the handles of one configuration's nodes and tasks by the rules of
/// specs/Moves, right events lead to a world behind it, and what they do later is more events. So
/// two nodes by handle agree, at any two moments, where all is synced that the steps of the earlier
/// one gave. At each moment there is one order, of which what each node has applied is a prefix and
/// which gives each reply that a request of a task returned; and a request asked a node to note
/// each interrupt and each tick in it.
pub fn installations_are_histories<M: Machine>()
    // claim: What callers do with nodes and tasks by handle, by the rules for devices and packets,
    //   is a history of right events: each node and each task is over its part in a world of it
    ensures history { (config : Config) (program : M.Program) (moves : List (Installation M))
        (after : Installation M)
        → let setting = setting_for M.next M.answers M.begin config program in
        IsRightConfig config
        → IsInstallation M.next M.answers M.image config (M.begin program) moves after
        → HasHistory setting after }
    // claim: What these callers do later is more events of that history
    ensures longer { (config : Config) (program : M.Program) (events : List Event) (world : World)
        (now later : Installation M) (moves : List (Installation M))
        → let setting = setting_for M.next M.answers M.begin config program in
        IsHistory setting events world → IsBehind setting world now
        → MachineMoves M.next M.answers M.image config (M.begin program) now moves later
        → HasLonger setting events later }
    // claim: Of what two nodes by handle have applied one is a prefix of the other, at any two
    //   moments, and if it is equally much they show the same objects; where the nodes are of two
    //   moments, all is synced that the steps of the earlier one gave
    ensures agree { (config : Config) (program : M.Program) (moves more : List (Installation M))
        (now later : Installation M) (x y : ℕ) (site other_site : NodeSite M)
        (one other : NodeState M)
        → IsRightConfig config
        → IsInstallation M.next M.answers M.image config (M.begin program) moves now
        → MachineMoves M.next M.answers M.image config (M.begin program) now more later
        → IsOpenAt now x site one → IsOpenAt later y other_site other → IsAllSynced site
        → AgreeAs M.next M.answers M.image (M.begin program) one other }
    // claim: There is one order of what nodes and tasks by handle did: what each open node has
    //   applied is a prefix of it, each reply that a task's request returned is the one that it
    //   gives, and a request asked a node to note each interrupt and each tick in it
    ensures ordered { (config : Config) (program : M.Program) (moves : List (Installation M))
        (now : Installation M)
        → let setting = setting_for M.next M.answers M.begin config program in
        IsRightConfig config
        → IsInstallation M.next M.answers M.image config (M.begin program) moves now
        → HasOrder setting now }
{
    histories_keep_ranges::<M>();
    histories_are_ordered::<M>();
}
