//! What a task keeps of its calls.

ghost use Rattle.std.specs.Prelude.{◌≡◌, IfSome, IfOk, OnErr, if◌then◌else◌};
ghost use Rattle.std.specs.Result.{result_err};
ghost use Rattle.rp_base.specs.Action.{IsIndex, IsRight, IsRightOperation};
ghost use Rattle.rp_base.specs.Calls.{next_call, is_reply_to};
ghost use Rattle.rp_tasks.specs.Calls.{task_after, no_calls, refusal_of, with_call, with_reply};

use rp_base::{Action, Fault, Operation, Reply, TaskId};
use std::marker::Model;

/// What a call asks for.
#[derive(Clone, Copy, Debug)]
struct Request {
    object: u8,
    operation: Operation,
    arg: i64,
}

impl Request {
    ghost use Rattle.std.specs.Prelude.{◌≤◌};
    ghost use Rattle.rp_base.specs.declared.action.Action.TheVariants.{Call};

    /// The call that asks for it.
    fn call(self, task: TaskId, number: u32) -> Action
        requires number { 1 ≤ number }
        requires object { IsIndex self.object }
        requires operation { IsRightOperation self.operation }
        ensures value { result ≡ Call task number self.object self.operation self.arg }
        ensures right { IsRight result }
    {
        Action::Call {
            task,
            number,
            object: self.object,
            operation: self.operation,
            arg: self.arg,
        }
    }
}

/// One task's calls: how many it has made, and the one that has no reply yet. Nothing here takes
/// memory.
#[derive(Debug, Drop)]
pub struct Stub {
    task: TaskId,
    made: u32,
    outstanding: Option<Request>,
}

impl Model for Stub {
    ghost use Rattle.std.specs.Prelude.{◌≤◌, option_map, IfSome};
    ghost use Rattle.rp_base.specs.Action.{IsIndex, IsRightOperation};
    ghost use Rattle.rp_base.specs.declared.action.Action.TheVariants.{Call};
    ghost use Rattle.rp_tasks.specs.Calls.{Calls};

    ghost Value = { Calls };

    ghost view = { λ s. record {
      task = s.task;
      made = s.made;
      outstanding = option_map (λ r. Call s.task s.made r.object r.operation r.arg) s.outstanding;
    } };

    ghost invariant = { λ s. IfSome s.outstanding (λ r.
        (1 ≤ s.made) × IsIndex r.object × IsRightOperation r.operation) };
}

impl Stub {
    /// A task that has made no call.
    pub fn new(task: TaskId) -> Self
        ensures { result ≡ no_calls task }
    {
        Stub {
            task,
            made: 0,
            outstanding: None,
        }
    }

    /// A task that has made n calls, none of which is outstanding: its next call has number n + 1.
    pub fn after(task: TaskId, calls: u32) -> Self
        // claim: A task that goes on after n calls numbers its next one n + 1
        ensures { result ≡ task_after task calls }
    {
        Stub {
            task,
            made: calls,
            outstanding: None,
        }
    }

    /// The task's next call, numbered one more than the last, which is outstanding from now on. The
    /// caller ensures that the object is 1 to 8 and the operation right. `TaskBusy` while a call
    /// is outstanding, or else `NumbersSpent` after number 2^32 - 1; both leave the stub as it was.
    pub fn call(&mut self, object: u8, operation: Operation, arg: i64) -> Result<Action, Fault>
        requires object { IsIndex object }
        requires operation { IsRightOperation operation }
        // claim (value, made, refused, err): A task's calls are numbered one after another, and
        //   refused exactly while one is outstanding or the numbers are exhausted
        ensures value { IfOk result (λ call. call
            ≡ next_call self.old.task self.old.made object operation arg) }
        ensures right { IfOk result IsRight }
        ensures made { IfOk result (λ call. self.new ≡ with_call self.old call) }
        ensures refused { result_err result ≡ refusal_of self.old }
        ensures err { OnErr result (self.new ≡ self.old) }
    {
        if let Some(fault) = self.refusal() {
            return Err(fault);
        }
        let number = self.made + 1;
        let request = Request {
            object,
            operation,
            arg,
        };
        self.made = number;
        self.outstanding = Some(request);
        Ok(request.call(self.task, number))
    }

    /// Why the next call is refused, if it is: `TaskBusy` while a call is outstanding, or else
    /// `NumbersSpent` after number 2^32 - 1: a busy task is refused as busy also after its last
    /// number. It makes no call.
    pub fn refusal(&self) -> Option<Fault>
        // claim: Why the next call would be refused is returned without making it
        ensures { result ≡ refusal_of self.now }
    {
        if self.outstanding.is_some() {
            Some(Fault::TaskBusy)
        } else if self.made == u32::MAX {
            Some(Fault::NumbersSpent)
        } else {
            None
        }
    }

    /// The call that has no reply yet, or `None`.
    pub fn outstanding(&self) -> Option<Action>
        ensures value { result ≡ self.now.outstanding }
        ensures right { IfSome result IsRight }
    {
        let request = self.outstanding?;
        Some(request.call(self.task, self.made))
    }

    /// The outstanding call again, the same in number and all else, or `None`.
    pub fn retry(&self) -> Option<Action>
        ensures value { result ≡ self.now.outstanding }
        ensures right { IfSome result IsRight }
    {
        self.outstanding()
    }

    /// Takes the reply to a call of this number: true exactly where it is the outstanding one,
    /// which thereby ends. What the reply says is the caller's to keep.
    pub fn reply(&mut self, number: u32, _reply: Reply) -> bool
        ensures taken { result ≡ is_reply_to number self.old.outstanding }
        ensures after { self.new ≡ (if result then with_reply self.old else self.old) }
    {
        let taken = self.outstanding.is_some() && number == self.made;
        if taken {
            self.outstanding = None;
        }
        taken
    }
}
