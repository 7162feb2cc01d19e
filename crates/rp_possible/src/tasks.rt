//! What a task can do, in every world.

ghost use Rattle.std.specs.Prelude.{◌≡◌, ◌≤◌, ◌<◌, ◌+◌, ◌^◌, ℕ, ℤ, suc, Ok, Some, None, [], ◌∷◌};
ghost use Rattle.std.specs.Prelude.{◌++◌, length};
ghost use Rattle.rp_base.specs.Action.{IsRight};
ghost use Rattle.rp_base.specs.declared.action.Action.{Action};
ghost use Rattle.rp_base.specs.declared.action.Action.TheVariants.{Call};
ghost use Rattle.rp_base.specs.declared.action.Operation.{Operation};
ghost use Rattle.rp_base.specs.declared.reply.Reply.{Reply as Returned};
ghost use Rattle.rp_model.specs.rp_codec.specs.declared.packet.Body.TheVariants as bodies;
ghost use Rattle.rp_model.specs.rp_codec.specs.declared.packet.Party.TheVariants.{Node, Task};
ghost use Rattle.rp_model.specs.Effect.{Setting};
ghost use Rattle.rp_model.specs.Events.{Submit, Again, Makes, Deliver};
ghost use Rattle.rp_model.specs.Parts.{TaskPart};
ghost use Rattle.rp_model.specs.World.{World, Transition, event_effect, part_at};
ghost use Rattle.rp_possible.specs.Possible.{answer_of};

use rp_machine::Machine;

/// A task that waits for no call makes its next one, unless it made 2^32 - 1: it asks the node, and
/// waits for the reply.
pub fn a_task_makes_its_next_call<M: Machine>()
    // claim: A task that waits for no call makes its next one, with its object, operation and
    //   argument: it asks the node that it names, and waits
    ensures { (setting : Setting M) (w : World) (task node object : ℕ) (operation : Operation)
        (arg : ℤ) (part : TaskPart)
        → let call : Action = Call task (suc (length part.replies)) object operation arg in
        part_at w.tasks task ≡ Some part → part.outstanding ≡ None
        → node ≤ setting.config.nodes → IsRight call
        → (t : Transition)
        × (event_effect setting w (Submit task node object operation arg) ≡ Ok t)
        × (t.sends ≡ record { from = Task task; to = Node node; body = bodies.Call call } ∷ [])
        × (t.world.sent ≡ w.sent ++ t.sends)
        × (part_at t.world.tasks task
        ≡ Some (record { outstanding = Some call; replies = part.replies })) }
{}

/// A task that waits for a call can ask any node for it once more.
pub fn a_task_asks_again<M: Machine>()
    // claim: A task that waits for a call and asks again sends the call once more, to the node that
    //   it names
    ensures { (setting : Setting M) (w : World) (task node : ℕ) (part : TaskPart) (call : Action)
        → part_at w.tasks task ≡ Some part → part.outstanding ≡ Some call
        → node ≤ setting.config.nodes
        → (t : Transition) × (event_effect setting w (Again task node) ≡ Ok t)
        × (t.sends ≡ record { from = Task task; to = Node node; body = bodies.Call call } ∷ [])
        × (t.world.sent ≡ w.sent ++ t.sends)
        × (part_at t.world.tasks task ≡ Some part) }
{}

/// A reply to the call that a task waits for is its next reply, and it waits no more.
pub fn a_task_takes_its_reply<M: Machine>()
    // claim: A task that waits for a call takes the first reply to it that is delivered, whatever
    //   its number, and waits no more
    ensures { (setting : Setting M) (w : World) (number from task n object : ℕ)
        (operation : Operation) (arg : ℤ) (reply : Returned) (part : TaskPart)
        → part_at w.sent number
        ≡ Some (record { from = Node from; to = Task task; body = bodies.Reply n reply })
        → part_at w.tasks task ≡ Some part
        → part.outstanding ≡ Some (Call task n object operation arg) → 1 ≤ n
        → (t : Transition) × (event_effect setting w (Makes (Deliver number)) ≡ Ok t)
        × (t.taken ≡ Some (answer_of task n reply))
        × (part_at t.world.tasks task
        ≡ Some (record {
          outstanding = None;
          replies = part.replies ++ answer_of task n reply ∷ [];
        })) }
{}
