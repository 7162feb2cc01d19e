//! What every event keeps, at any machine.

ghost use Rattle.std.specs.Prelude.{◌≡◌, ◌≢◌, ◌↔◌, ◌⊎◌, ◌≤◌, ◌<◌, ◌+◌, ℕ, Some, None, Ok, Err, List};
ghost use Rattle.std.specs.Prelude.{[], ◌++◌};
ghost use Rattle.std.specs.Prelude.{length};
ghost use Rattle.rp_base.specs.Number.{window};
ghost use Rattle.rp_base.specs.Records.{applied_of, first_unlearned, learned_at};
ghost use Rattle.rp_base.specs.Sets.{Has};
ghost use Rattle.rp_base.specs.declared.action.Action.{Action};
ghost use Rattle.rp_base.specs.declared.fault.Fault.{Fault};
ghost use Rattle.rp_base.specs.declared.fault.Fault.TheVariants.{Device, NotRunning};
ghost use Rattle.rp_base.specs.declared.record.Rec.{Rec};
ghost use Rattle.rp_model.specs.Effect.{Setting, Done, NodeInput, running_effect, node_effect};
ghost use Rattle.rp_codec.specs.declared.packet.Body.TheVariants as bodies;
ghost use Rattle.rp_model.specs.Effect.{stop_effect, cut_effect, restart_part, plan_of, Receive};
ghost use Rattle.rp_model.specs.Events.{Event};
ghost use Rattle.rp_model.specs.World.{World, Transition, event_effect};
ghost use Rattle.rp_model.specs.Forgetting.{KnowsAlike, AreAlikeAnswers};
ghost use Rattle.rp_model.specs.Parts.{Running, NodePart, fresh_running};
ghost use Rattle.rp_model.specs.Facts.{IsOrder};
ghost use Rattle.rp_model.specs.Growing.{Grows};
ghost use Rattle.rp_model.specs.Learner.{missing_in_window};
ghost use Rattle.rp_model.specs.Node.{RunningNode, nodes_of};
ghost use Rattle.rp_model.specs.Says.{says};
ghost use Rattle.rp_model.specs.declared.plan.Plan.TheVariants as plans;

use rp_base::one_more_record;
use rp_machine::Machine;

/// What a node has applied stays, in its place, whatever it writes afterwards.
pub fn applied_grows()
    // claim: What a node has applied stays in its place whatever it writes afterwards
    ensures { (records more : List Rec)
        → (further : List Action) × (applied_of (records ++ more) ≡ applied_of records ++ further) }
{}

/// An event's effect adds packets at the end of those that were sent, and each node's records and
/// applied list grow at their ends. No node comes or goes.
pub fn worlds_grow<M: Machine>()
    // claim: An event adds packets at the end, and each node's records and applied list grow at
    //   their ends
    ensures { (setting : Setting M) (before : World) (event : Event) (transition : Transition)
        → event_effect setting before event ≡ Ok transition
        → Grows before transition }
{}

/// No event is refused with `Device`: a step returns that only if a device failed.
pub fn no_event_is_refused_by_a_device<M: Machine>()
    // claim: No event is refused as a fault of a device
    ensures { (setting : Setting M) (before : World) (event : Event)
        → event_effect setting before event ≢ Err Device }
{}

/// A stop is refused exactly to a node that is stopped. A node that stops runs no more, its records
/// stay, and it sends nothing.
pub fn stops_leave_the_records()
    // claim: A node that stops runs no more and has the records that it had; one that is stopped is
    //   not stopped again
    ensures refused { (part : NodePart) (fault : Fault) → (stop_effect part ≡ Err fault)
        ↔ (part.running ≡ None) × (fault ≡ NotRunning) }
    ensures stopped { (part : NodePart) (done : Done NodePart) → stop_effect part ≡ Ok done
        → done.part.running ≡ None }
    ensures records { (part : NodePart) (done : Done NodePart) → stop_effect part ≡ Ok done
        → done.part.records ≡ part.records }
    ensures sends { (part : NodePart) (done : Done NodePart) → stop_effect part ≡ Ok done
        → done.sends ≡ [] }
{}

/// A stop within a step is refused as the step is. The node runs no more and sends nothing, and its
/// records are those from before the step or those after the whole step.
pub fn cuts_send_nothing<M: Machine>()
    // claim: A node that stops within a step runs no more, sends nothing, and has the records from
    //   before the step or from after it
    ensures refused { (setting : Setting M) (me : ℕ) (part : NodePart) (input : NodeInput)
        (kept : ℕ) (fault : Fault) → (cut_effect setting me part input kept ≡ Err fault)
        ↔ (node_effect setting me part input ≡ Err fault) }
    ensures stopped { (setting : Setting M) (me : ℕ) (part : NodePart) (input : NodeInput)
        (kept : ℕ) (done : Done NodePart) → cut_effect setting me part input kept ≡ Ok done
        → done.part.running ≡ None }
    ensures records { (setting : Setting M) (me : ℕ) (part : NodePart) (input : NodeInput)
        (kept : ℕ) (whole done : Done NodePart) → node_effect setting me part input ≡ Ok whole
        → cut_effect setting me part input kept ≡ Ok done
        → (done.part.records ≡ part.records) ⊎ (done.part.records ≡ whole.part.records) }
    ensures sends { (setting : Setting M) (me : ℕ) (part : NodePart) (input : NodeInput)
        (kept : ℕ) (done : Done NodePart) → cut_effect setting me part input kept ≡ Ok done
        → done.sends ≡ [] }
{}

/// A node that is stopped runs again over its records and knows nothing else; no torn bytes remain,
/// and it returns how many of both it found. One that runs goes on as it was. Neither sends.
pub fn restarts_begin_with_the_records()
    // claim: A stopped node that starts again has its records, no torn bytes, and knows nothing
    //   else; one that runs goes on as it was
    ensures runs { (part : NodePart) → part.running ≡ None
        → (restart_part part).part
        ≡ record { records = part.records; torn = 0; running = Some fresh_running } }
    ensures opened { (part : NodePart) → part.running ≡ None
        → (restart_part part).opened ≡ Some (length part.records, part.torn) }
    ensures goes_on { (part : NodePart) (running : Running) → part.running ≡ Some running
        → (restart_part part).part ≡ part }
    ensures sends { (part : NodePart) → (restart_part part).sends ≡ [] }
{}

/// The order of a world in which nothing was sent is empty.
pub fn nothing_is_decided_at_first()
    // claim: The order of a world in which nothing was sent is empty
    ensures { (nodes : ℕ) (order : List Action) → IsOrder nodes [] order → order ≡ [] }
{}

/// Votes that a node heard at positions that it has learned change nothing that an input results
/// in, and may be forgotten.
pub fn old_votes_change_nothing<M: Machine>()
    // claim: Votes heard at learned positions change no effect of an input
    ensures { (setting : Setting M) (me : ℕ) (records : List Rec) (one other : Running)
        (input : NodeInput)
        → KnowsAlike records one other
        → AreAlikeAnswers records (running_effect setting me records one input)
        (running_effect setting me records other input) }
{
    one_more_record();
}

/// What a node asks another one for: nothing is learned there, it is one of the 64 positions from
/// the first unlearned one on, and in the log.
pub fn asks_for_what_is_missing()
    // claim: A node asks for exactly the positions that it has not learned, of the 64 from its
    //   first unlearned one on, as far as the log goes
    ensures { (most i : ℕ) (records : List Rec) → Has i (missing_in_window most records)
        ↔ (first_unlearned records ≤ i) × (i < first_unlearned records + window)
        × (i ≤ most) × (learned_at records i ≡ None) }
{}

/// A node that has learned a position informs each of the nodes that asks for it.
pub fn what_is_learned_is_answered<M: Machine>()
    // claim: A node that has learned a position sends its decision to each node that asks for it
    ensures { (node : RunningNode M) (from i : ℕ) (v : Action) → from ≤ nodes_of node
        → i ≤ node.setting.config.max_positions → learned_at node.records i ≡ Some v
        → plan_of node (Receive (says from (bodies.Ask i) node.me)) ≡ Ok (plans.Inform from i v) }
{}
