//! What tasks ask for, and the replies to them.

ghost use Rattle.std.specs.Prelude.{◌≡◌, ◌∷◌, ◌++◌, [], OnOk, OnErr};
ghost use Rattle.rp_model.specs.Tasks as tasks;
ghost use Rattle.rp_model.specs.World.{part_at, task_takes};
ghost use Rattle.rp_codec.specs.Message.{IsCallBy};
ghost use Rattle.rp_base.specs.Action.{IsRight};
ghost use Rattle.rp_agreement.specs.Ranges.{IsRangedWorld};
ghost use Rattle.rp_actors.specs.Going.{Answers, call_meant};

use crate::effect::{no_effect, one_message};
use crate::world::World;
use rp_actors::asks;
use rp_base::{Action, Fault, NodeId, Operation, TaskId};
use rp_machine::Machine;
use rp_model::Effect;
use rp_outbox::Outbox;
use rp_store::CutDevice;
use std::alloc::AllocError;

/// A task's call goes to a node. Refused for memory, nothing is sent.
#[inline(always)]
fn send(messages: &mut Outbox, task: TaskId, node: NodeId, call: Action) -> Result<(), AllocError>
    requires own { IsCallBy task call }
    requires right { IsRight call }
    ensures ok { OnOk result (messages.new.sent
        ≡ messages.old.sent ++ tasks.asks task node call ∷ []) }
    ensures err { OnErr result (messages.new.sent ≡ messages.old.sent) }
{
    messages.reserve(1)?;
    messages.put(&asks(task, node, call));
    Ok(())
}

impl<M: Machine, D: CutDevice> World<M, D> {
    /// A task makes its next call and asks a node. `TaskBusy`, `NumbersSpent`, `BadConfig`, or
    /// refused for memory: nothing changes.
    #[inline(never)]
    pub(crate) fn submit(
        &mut self,
        task: TaskId,
        node: NodeId,
        object: u8,
        operation: Operation,
        arg: i64,
    ) -> Result<Effect, Fault>
        ensures answer { Answers self.old (call_meant (task_takes self.old.setup.config
            self.old.world task (tasks.Submit node object operation arg)
            (part_at self.old.world.tasks task))) self.new result }
    {
        let first = self.messages() + 1;
        let caller = &mut self.tasks[usize::from(task.get()) - 1];
        let call = caller.next(self.config, node, object, operation, arg)?;
        send(&mut self.messages, task, node, call)?;
        caller.call(object, operation, arg);
        Ok(one_message(first))
    }

    /// A task asks a node once more for the call that it waits for, if it waits. `BadConfig` above
    /// the last node, or refused for memory: nothing changes.
    #[inline(never)]
    pub(crate) fn again(&mut self, task: TaskId, node: NodeId) -> Result<Effect, Fault>
        requires ranged { IsRangedWorld self.old.setup.config.nodes self.old.world }
        ensures answer { Answers self.old (call_meant (task_takes self.old.setup.config
            self.old.world task (tasks.Again node)
            (part_at self.old.world.tasks task))) self.new result }
    {
        let first = self.messages() + 1;
        if node.get() > self.config.nodes {
            return Err(Fault::BadConfig);
        }
        let Some(call) = self.tasks[usize::from(task.get()) - 1].outstanding() else {
            return Ok(no_effect(first));
        };
        send(&mut self.messages, task, node, call)?;
        Ok(one_message(first))
    }
}
