//! A protected object.

ghost use Rattle.std.specs.Prelude.{◌≡◌, [], Some, None, SomeIff, IfOk};
ghost use Rattle.std.specs.Arc.{arc_value};
ghost use Rattle.rp_body.specs.Store.{limits_of};
ghost use Rattle.rp_entry.specs.Operations.{OperationsFit};
ghost use Rattle.rp_base.specs.Sets.{Has};
ghost use Rattle.rp_entry.specs.Queue.{IsServiced, empty_queues, tasks_waiting};
ghost use Rattle.rp_entry.specs.Actions.{Acts, calls_function, calls_procedure, calls_entry, event};

use crate::operations::{Operations, of_index};
use crate::state::{CallOutcome, Done, Queue, State, Waiting};
use rp_base::{Answers, Reply, TaskId};
use rp_body::Components;
use std::alloc::{AllocError, Global};
use std::marker::Model;
use std::sync::Arc;

/// A protected object with functions, procedures and entries. Each call is a whole protected action
/// with the servicing of the entry queues, and takes no memory (Ada Reference Manual, sections
/// 9.5.1 and 9.5.3).
#[derive(Drop)]
pub struct Object {
    operations: Arc<Operations, Global>,
    state: State,
}

impl Model for Object {
    ghost use Rattle.rp_entry.specs.Protected.{Protected, protected_code, IsObject};
    ghost use Rattle.std.specs.Arc.{arc_value};

    ghost Value = { Protected };

    ghost coded = { protected_code };

    ghost view = { λ o. record {
      operations = arc_value o.operations;
      state = o.state;
    } };

    ghost invariant = { λ o. IsObject (arc_value o.operations) o.state };
}

impl Object {
    /// The object of these operations, which other objects may share, and components, with nobody
    /// waiting, or `None` where there are more than 8 functions, 8 procedures or 4 entries, an
    /// operation does not keep the limits of the language, a longest queue is not 1 to 8 calls, or
    /// a barrier names no Boolean component. It takes the memory of the queues.
    pub fn new(
        alloc: Global,
        operations: Arc<Operations, Global>,
        components: Components,
    ) -> Result<Option<Self>, AllocError>
        ensures { IfOk result (λ object.
            SomeIff object (OperationsFit (limits_of components) (arc_value operations))
            (record {
              operations = arc_value operations;
              state = record {
                store = components;
                queues = empty_queues (arc_value operations).entries.items;
              };
            })) }
    {
        if !operations.fit(&components.limits()) {
            return Ok(None);
        }
        let state = State::new(alloc, components, &operations.entries)?;
        Ok(Some(Object { operations, state }))
    }

    /// The components.
    pub fn components(&self) -> &Components
        ensures { result.now ≡ self.now.state.store }
    {
        self.state.components()
    }

    /// The calls that wait, at each entry in order.
    pub fn queues(&self) -> &[Queue]
        ensures { result.now ≡ self.now.state.queues }
    {
        self.state.queues()
    }

    /// Calls the function of this index, counted from 1: its value, or Constraint_Error where the
    /// value leaves 64 signed bits, or whether its condition holds. NoSuchOperation where there is
    /// none.
    pub fn function(&self, index: u8, arg: i64) -> Reply
        // claim: A function changes nothing
        ensures action { let now = self.now.state in
            Acts self.now.operations now (calls_function index arg)
            (Some (CallOutcome.Reply result)) [] now }
        ensures serviced { IsServiced self.now.operations self.now.state }
    {
        let operations: &Operations = &self.operations;
        match of_index(&operations.functions, index) {
            Some(function) => function.reply(self.state.components(), arg),
            None => Reply::NoSuchOperation,
        }
    }

    /// Calls the procedure of this index, counted from 1. The caller gets the out value, or
    /// Constraint_Error where the body raised it. NoSuchOperation where there is none, and nothing
    /// changes.
    pub fn procedure(&mut self, index: u8, arg: i64) -> Done
        // claim: A protected action is what the Reference Manual relates to the state before it,
        //   and nobody waits at an open barrier after it
        ensures action { Acts self.old.operations self.old.state (calls_procedure index arg)
            (Some result.outcome) result.served self.new.state }
        ensures serviced { IsServiced self.new.operations self.new.state }
        ensures operations { self.new.operations ≡ self.old.operations }
    {
        let operations: &Operations = &self.operations;
        match of_index(&operations.procedures, index) {
            Some(body) => self.state.run(operations, body, arg),
            None => Done::alone(CallOutcome::Reply(Reply::NoSuchOperation)),
        }
    }

    /// Calls the entry of this index, counted from 1, as the `number`th call of the task, no call
    /// of which waits. It runs at once where the entry is open, and else waits after the others of
    /// the entry; ProgramError where as many wait already as may, and they go on waiting.
    /// NoSuchOperation where there is no such entry, and nothing changes.
    pub fn entry(&mut self, index: u8, task: TaskId, number: u32, arg: i64) -> Done
        requires free { ¬ Has task (tasks_waiting self.old.state) }
        // claim as Object::procedure
        ensures action { Acts self.old.operations self.old.state
            (calls_entry index (record { task = task; number = number; arg = arg }))
            (Some result.outcome) result.served self.new.state }
        ensures serviced { IsServiced self.new.operations self.new.state }
        ensures operations { self.new.operations ≡ self.old.operations }
    {
        let operations: &Operations = &self.operations;
        let Some(entry) = of_index(&operations.entries, index) else {
            return Done::alone(CallOutcome::Reply(Reply::NoSuchOperation));
        };
        if self.state.is_open(entry) {
            return self.state.run(operations, &entry.body, arg);
        }
        if !self.state.has_room(index, entry) {
            return Done::alone(CallOutcome::Reply(Reply::ProgramError));
        }
        self.state.enqueue(index, Waiting { task, number, arg });
        Done::alone(CallOutcome::Waits)
    }

    /// An interrupt, or a timing event whose time has come: its handler, the procedure of this
    /// index counted from 1, runs with argument 0. It has no caller, and its own exception has no
    /// effect (sections C.3 and D.15). Nothing happens where there is no such procedure. It gives
    /// the answers of the callers that were served.
    pub fn handler(&mut self, index: u8) -> Answers
        // claim as Object::procedure
        ensures action { Acts self.old.operations self.old.state (event index)
            None result self.new.state }
        ensures serviced { IsServiced self.new.operations self.new.state }
        ensures operations { self.new.operations ≡ self.old.operations }
    {
        let operations: &Operations = &self.operations;
        match of_index(&operations.procedures, index) {
            Some(body) => self.state.run(operations, body, 0).served,
            None => Answers::new(),
        }
    }
}
