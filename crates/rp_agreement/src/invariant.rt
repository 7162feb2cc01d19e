//! Each event keeps the invariant, whatever stops.

ghost use Rattle.std.specs.Prelude.{◌≡◌, ℕ, Result, Ok, List};
ghost use Rattle.rp_base.specs.Config.{IsRightConfig};
ghost use Rattle.rp_base.specs.Sets.{Has};
ghost use Rattle.rp_base.specs.declared.config.Config.{Config};
ghost use Rattle.rp_base.specs.declared.fault.Fault.{Fault};
ghost use Rattle.rp_codec.specs.Message.{Message};
ghost use Rattle.rp_model.specs.Answers.{Steps, Happen};
ghost use Rattle.rp_model.specs.Effect.{Setting, Done, NodeInput, goes_on_as, untorn_part};
ghost use Rattle.rp_model.specs.Effect.{node_effect, cut_effect, stop_effect, restart_part};
ghost use Rattle.rp_model.specs.Events.{Event, IsRightEvent};
ghost use Rattle.rp_model.specs.Tasks.{TaskInput, task_effect};
ghost use Rattle.rp_model.specs.World.{World, Transition, event_effect};
ghost use Rattle.rp_model.specs.declared.effect.Effect.{Effect};
ghost use Rattle.rp_model.specs.Parts.{NodePart};
ghost use Rattle.rp_model.specs.Parts.{TaskPart};
ghost use Rattle.rp_agreement.specs.Sound.{IsMember, IsSound};
ghost use Rattle.rp_agreement.specs.Steps.{SentToo};
ghost use Rattle.rp_agreement.specs.Inputs.{IsInput, IsTaskInput, NodeMoves, WaitsForOwn};
ghost use Rattle.rp_agreement.specs.Worlds.{IsSoundWorld};

use rp_machine::Machine;

/// The result of an input at a node keeps the invariant; so do a stop within that step, however
/// many bytes of its record are kept, a stop, a restart, and torn bytes that are truncated where a
/// restart fails.
pub fn node_events_keep<M: Machine>()
    // claim: Every input of a node, and a stop within it, a stop and a restart keep the invariant
    //   of agreement
    ensures input { (setting : Setting M) (x : ℕ) (input : NodeInput) (done : Done NodePart)
        (node after : ℕ → NodePart) (sent later : List Message)
        → IsRightConfig setting.config → IsMember setting.config.nodes x
        → IsSound setting.config.nodes node sent → IsInput sent input
        → node_effect setting x (node x) input ≡ Ok done
        → NodeMoves x done node sent after later
        → IsSound setting.config.nodes after later }
    ensures cut { (setting : Setting M) (x kept : ℕ) (input : NodeInput) (done : Done NodePart)
        (node after : ℕ → NodePart) (sent later : List Message)
        → IsRightConfig setting.config → IsMember setting.config.nodes x
        → IsSound setting.config.nodes node sent → IsInput sent input
        → cut_effect setting x (node x) input kept ≡ Ok done
        → NodeMoves x done node sent after later
        → IsSound setting.config.nodes after later }
    ensures stop { (nodes x : ℕ) (done : Done NodePart)
        (node after : ℕ → NodePart) (sent later : List Message)
        → IsMember nodes x → IsSound nodes node sent
        → stop_effect (node x) ≡ Ok done
        → NodeMoves x done node sent after later
        → IsSound nodes after later }
    ensures restart { (nodes x : ℕ) (node after : ℕ → NodePart) (sent later : List Message)
        → IsMember nodes x → IsSound nodes node sent
        → NodeMoves x (restart_part (node x)) node sent after later
        → IsSound nodes after later }
    ensures untorn { (nodes x kept : ℕ) (node after : ℕ → NodePart) (sent later : List Message)
        → IsMember nodes x → IsSound nodes node sent
        → NodeMoves x (goes_on_as (untorn_part kept (node x))) node sent after later
        → IsSound nodes after later }
{}

/// The result of an input at a task keeps the invariant, and the task waits for nothing but a right
/// call of its own.
pub fn task_events_keep()
    ensures sound { (config : Config) (nodes t : ℕ) (part : TaskPart) (input : TaskInput)
        (done : Done TaskPart) (node after : ℕ → NodePart) (sent later : List Message)
        → WaitsForOwn t part → IsSound nodes node sent → IsTaskInput sent t input
        → task_effect config t part input ≡ Ok done
        → ((k : ℕ) → after k ≡ node k) → SentToo done.sends sent later
        → IsSound nodes after later }
    ensures waits { (config : Config) (sent : List Message) (t : ℕ) (part : TaskPart)
        (input : TaskInput) (done : Done TaskPart)
        → WaitsForOwn t part → IsTaskInput sent t input
        → task_effect config t part input ≡ Ok done
        → WaitsForOwn t done.part }
{}

/// What an event of a world leads to satisfies the invariant, and so does the world that a step
/// leaves whatever it answers: also if memory runs out, or a device fails within the step.
pub fn events_keep<M: Machine>()
    // claim: Every event keeps the invariant of agreement, whatever a step returns
    ensures effect { (setting : Setting M) (world : World) (event : Event) (transition : Transition)
        → IsRightConfig setting.config → IsSoundWorld setting.config.nodes world
        → IsRightEvent event
        → event_effect setting world event ≡ Ok transition
        → IsSoundWorld setting.config.nodes transition.world }
    ensures answer { (setting : Setting M) (world after : World) (event : Event)
        (answer : Result Effect Fault)
        → IsRightConfig setting.config → IsSoundWorld setting.config.nodes world
        → IsRightEvent event
        → Steps setting world event after answer
        → IsSoundWorld setting.config.nodes after }
{}

/// Any history of events leads from a world that satisfies the invariant to one that does.
pub fn histories_keep<M: Machine>()
    ensures { (setting : Setting M) (world after : World) (events : List Event)
        → IsRightConfig setting.config → IsSoundWorld setting.config.nodes world
        → ((event : Event) → Has event events → IsRightEvent event)
        → Happen setting world events after
        → IsSoundWorld setting.config.nodes after }
{}
