//! A task: what it keeps of its calls, and the replies that it took.

ghost use Rattle.std.specs.Prelude.{◌≡◌, Some, None, IfOk, OnErr, false, length};
ghost use Rattle.rp_base.specs.Action.{IsIndex, IsRightOperation, is_right};
ghost use Rattle.rp_base.specs.Calls.{are_exhausted};
ghost use Rattle.rp_base.specs.declared.action.Action.TheVariants.{Call};
ghost use Rattle.rp_model.specs.Parts.{fresh_task};
ghost use Rattle.rp_model.specs.Tasks.{may_call, next_call, takes_reply};

use rp_base::{Action, Answer, Config, Fault, NodeId, Operation, Reply, TaskId};
use rp_tasks::Stub;
use std::alloc::{AllocError, Global};
use std::marker::Model;

/// A task as it runs.
#[derive(Drop)]
pub struct Task {
    task: TaskId,
    stub: Stub,
    replies: Vec<Answer>,
}

impl Model for Task {
    ghost use Rattle.rp_actors.specs.Callers.{Caller, caller_of, IsInStep};

    ghost Value = { Caller };

    ghost view = { λ t. caller_of t.task t.stub t.replies.items };

    ghost invariant = { λ t. IsInStep t.task t.stub t.replies.items };
}

impl Task {
    /// A task that called nothing.
    pub fn new(alloc: Global, task: TaskId) -> Self
        ensures { result ≡ record { task = task; part = fresh_task } }
    {
        Task {
            task,
            stub: Stub::new(task),
            replies: Vec::new(alloc),
        }
    }

    /// The call that the task would make next, or why it may not: `TaskBusy` while one waits,
    /// `NumbersSpent` after number 2^32 - 1, `BadConfig` for a node above the last or a call that
    /// is not right.
    pub fn next(
        &self,
        config: Config,
        node: NodeId,
        object: u8,
        operation: Operation,
        arg: i64,
    ) -> Result<Action, Fault>
        ensures { result ≡ may_call config node self.now.part
            (next_call self.now.task self.now.part object operation arg) self.now.part.outstanding }
    {
        if let Some(fault) = self.stub.refusal() {
            return Err(fault);
        }
        let number = self.replies.len() as u32 + 1;
        let task = self.task;
        if node.get() > config.nodes || !is_right(task, number, object, operation, arg) {
            return Err(Fault::BadConfig);
        }
        Ok(Action::Call {
            task,
            number,
            object,
            operation,
            arg,
        })
    }

    /// Makes the next call, which waits for its reply from now on.
    pub fn call(&mut self, object: u8, operation: Operation, arg: i64)
        requires free { self.old.part.outstanding ≡ None }
        requires numbers { are_exhausted (length self.old.part.replies) ≡ false }
        requires object { IsIndex object }
        requires operation { IsRightOperation operation }
        ensures { self.new ≡ record self.old {
          part = record self.old.part {
            outstanding = Some (next_call self.old.task self.old.part object operation arg);
          };
        } }
    {
        self.stub.call(object, operation, arg).unwrap();
    }

    /// The call that waits for its reply.
    pub fn outstanding(&self) -> Option<Action>
        ensures { result ≡ self.now.part.outstanding }
    {
        self.stub.outstanding()
    }

    /// The replies that were taken, in order.
    pub fn replies(&self) -> &[Answer]
        ensures { result.now ≡ self.now.part.replies }
    {
        self.replies.as_slice()
    }

    /// Takes a reply if the call of this number waits; the call then waits no more. If memory runs
    /// out, nothing changes.
    pub fn take(&mut self, number: u32, reply: Reply) -> Result<Option<Answer>, AllocError>
        ensures part { IfOk result (λ taken. self.new ≡ record self.old {
          part = (takes_reply self.old.task self.old.part number reply).part;
        }) }
        ensures taken { IfOk result (λ taken. taken
            ≡ (takes_reply self.old.task self.old.part number reply).taken) }
        ensures err { OnErr result (self.new ≡ self.old) }
    {
        self.replies.reserve(1)?;
        if !self.stub.reply(number, reply) {
            return Ok(None);
        }
        let task = self.task;
        self.replies.push_reserved(Answer {
            task,
            number,
            reply,
        });
        Ok(Some(Answer {
            task,
            number,
            reply,
        }))
    }
}

/// Whether a call keeps the rules of its fields.
fn is_right(task: TaskId, number: u32, object: u8, operation: Operation, arg: i64) -> bool
    ensures { result ≡ is_right (Call task number object operation arg) }
{
    let call = Action::Call {
        task,
        number,
        object,
        operation,
        arg,
    };
    call.is_right()
}
