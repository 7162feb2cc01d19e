//! The interrupts and ticks that nodes note before a run.

ghost use Rattle.std.specs.Prelude.{◌≡◌, ℕ, ℤ, Ok, Some, None};
ghost use Rattle.rp_threads.specs.rp_base.specs.declared.action.Operation.{Operation};
ghost use Rattle.rp_threads.specs.rp_model.specs.Effect.{NodeInput};
ghost use Rattle.rp_threads.specs.rp_model.specs.Events.{step_of};
ghost use Rattle.rp_threads.specs.rp_model.specs.Parts.{NodePart};
ghost use Rattle.rp_threads.specs.rp_model.specs.World.{World, part_at, chosen, NodeTakes};
ghost use Rattle.rp_threads.specs.rp_model.specs.declared.event.Event.TheVariants.{Submit, Node};
ghost use Rattle.rp_threads.specs.rp_model.specs.declared.event.Step.{Step};
ghost use Rattle.rp_live.specs.rp_rules.specs.Inputs.{given_by};
ghost use Rattle.rp_live.specs.rp_rules.specs.declared.input.Input.{Input};
ghost use Rattle.rp_live.specs.Events.{IsNoting};
ghost use Rattle.rp_live.specs.Noted.{noted_by};

/// An interrupt or a tick of a deck is noted before a run in threads by the node, and as the input,
/// that the same event gives to a node of a world: a run in threads and one of a script mean the
/// same by it.
pub fn notes_are_those_of_the_model()
    // claim (noted): An interrupt or a tick is noted before a run by the node that takes it in the
    //   model, and as the same input
    ensures noted { (nodes : ℕ) (step : Step) → IsNoting nodes step
        → (node : ℕ) × (input : Input) × (given : NodeInput)
        × (noted_by (Node step) ≡ Some (node, input)) × (given_by input ≡ Ok given)
        × ((w : World) (part : NodePart) → part_at w.nodes node ≡ Some part
        → chosen w (step_of step) ≡ NodeTakes node part given) }
    // claim (call): A call is noted by no node before a run
    ensures call { (task node object : ℕ) (operation : Operation) (arg : ℤ)
        → noted_by (Submit task node object operation arg) ≡ None }
{}
