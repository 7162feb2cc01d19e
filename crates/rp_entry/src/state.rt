//! The state of a protected object, and the servicing of its entry queues.

ghost use Rattle.std.specs.Prelude.{ℕ, ◌≡◌, ◌≢◌, ◌↔◌, ◌≤◌, ◌<◌, ◌-◌, [], ◌∷◌, ◌++◌, length, slice_get, IsTrue, IfSome, IfNone, IfOk};
ghost use Rattle.rp_body.specs.Store.{limits_of};
ghost use Rattle.rp_body.specs.Check.{KeepsLimits};
ghost use Rattle.rp_entry.specs.Operations.{OperationsFit, longest_queue};
ghost use Rattle.rp_entry.specs.Queue.{IsOpen, IsReady, IsServiced, queue_at, empty_queues};
ghost use Rattle.rp_entry.specs.Protected.{HasQueues};
ghost use Rattle.rp_entry.specs.Replies.{reply_of};
ghost use Rattle.rp_entry.specs.Servicing.{Serves, Services};
ghost use Rattle.rp_entry.specs.Actions.{Runs, with_caller};

use crate::operations::{Entry, LONGEST_QUEUE, Operations};
use circular_buffer::HeapCircularBuffer;
use rp_base::{Answer, Answers, Reply, TaskId};
use rp_body::{Components, Outcome, Stmt, run};
use std::alloc::{AllocError, Global};
use std::marker::Model;

/// A call that waits at an entry: the `number`th call of the task.
#[derive(Clone, Copy)]
pub struct Waiting {
    pub task: TaskId,
    pub number: u32,
    pub arg: i64,
}

/// The state of a call once the protected action that it began has ended.
#[derive(Clone, Copy)]
pub enum CallOutcome {
    /// It is over, with this reply.
    Reply(Reply),
    /// It waits at the entry that it called.
    Waits,
}

/// What a protected action gives: its own caller's outcome, and the answers of the callers that
/// were served from the entry queues, in the order in which they were served.
#[derive(Drop)]
pub struct Done {
    pub outcome: CallOutcome,
    pub served: Answers,
}

impl Done {
    /// Nobody was served.
    pub fn alone(outcome: CallOutcome) -> Self
        ensures outcome { result.outcome ≡ outcome }
        ensures served { result.served ≡ [] }
    {
        Done {
            outcome,
            served: Answers::new(),
        }
    }
}

/// The reply to the caller of a body with this result.
fn reply_of(outcome: Outcome) -> Reply
    ensures { result ≡ reply_of outcome }
{
    match outcome {
        Outcome::Out(value) => Reply::Value(value),
        Outcome::Raised => Reply::ConstraintError,
    }
}

/// The calls that wait at one entry, the first one first: at most 8.
#[derive(Drop)]
pub struct Queue {
    calls: HeapCircularBuffer<Waiting>,
}

impl Model for Queue {
    ghost use Rattle.std.specs.Prelude.{◌≡◌, List};
    ghost use Rattle.rp_entry.specs.Operations.{longest_queue};
    ghost use Rattle.rp_entry.specs.declared.state.Waiting.{Waiting};

    ghost Value = { List Waiting };

    ghost view = { λ q. q.calls.items };

    ghost invariant = { λ q. q.calls.capacity ≡ longest_queue };
}

impl Queue {
    /// Nobody waits, and there is room for 8 calls.
    fn new(alloc: Global) -> Result<Self, AllocError>
        ensures { IfOk result (λ q. q ≡ []) }
    {
        Ok(Queue {
            calls: HeapCircularBuffer::with_capacity(alloc, usize::from(LONGEST_QUEUE))?,
        })
    }

    /// How many calls wait, at most 8.
    pub fn len(&self) -> usize
        ensures value { result ≡ length self.now }
        ensures within { result ≤ longest_queue }
    {
        self.calls.len()
    }

    /// Whether nobody waits.
    pub fn is_empty(&self) -> bool
        ensures { IsTrue result ↔ (self.now ≡ []) }
    {
        self.calls.len() == 0
    }

    /// The call at a place, counted from 0 in order of arrival, or `None` where fewer wait.
    pub fn get(&self, place: usize) -> Option<Waiting>
        ensures { result ≡ slice_get self.now place }
    {
        self.calls.get(place).copied()
    }

    /// Puts a call after the others.
    fn push(&mut self, call: Waiting)
        requires { length self.old < longest_queue }
        ensures { self.new ≡ self.old ++ call ∷ [] }
    {
        self.calls.push_back(call);
    }

    /// Takes out the first call.
    fn pop(&mut self) -> Waiting
        requires { self.old ≢ [] }
        ensures { self.old ≡ result ∷ self.new }
    {
        self.calls.pop_front().unwrap()
    }
}

/// The components of an object, and a queue for each of its entries.
#[derive(Drop)]
pub struct State {
    components: Components,
    queues: Vec<Queue>,
}

impl Model for State {
    ghost use Rattle.rp_entry.specs.Queue as waiting;

    ghost Value = { waiting.State };

    ghost coded = { waiting.state_code };

    ghost view = { λ s. record { store = s.components; queues = s.queues.items } };
}

impl State {
    /// Nobody waits, and there is room for all that may.
    pub fn new(alloc: Global, components: Components, entries: &[Entry]) -> Result<Self, AllocError>
        ensures { IfOk result (λ state. state
            ≡ record { store = components; queues = empty_queues entries.now }) }
    {
        let mut queues = Vec::new(alloc);
        for _ in entries {
            queues.push(Queue::new(alloc)?)?;
        }
        Ok(State { components, queues })
    }

    /// The components.
    pub fn components(&self) -> &Components
        ensures { result.now ≡ self.now.store }
    {
        &self.components
    }

    /// The queues, in order of their entries.
    pub fn queues(&self) -> &[Queue]
        ensures { result.now ≡ self.now.queues }
    {
        &self.queues
    }

    /// Whether the entry is open.
    pub fn is_open(&self, entry: &Entry) -> bool
        ensures { IsTrue result ↔ IsOpen entry.now self.now.store }
    {
        self.components.bool(entry.barrier).unwrap_or(false)
    }

    /// Whether one more call can wait at the entry of this index, counted from 1.
    pub fn has_room(&self, index: u8, entry: &Entry) -> bool
        requires there { 1 ≤ index }
        requires declared { index ≤ length self.now.queues }
        ensures { IsTrue result
            ↔ (length (queue_at self.now.queues (index - 1)) < entry.now.longest) }
    {
        self.queues[usize::from(index) - 1].len() < usize::from(entry.longest)
    }

    /// Puts a call into the queue of the entry of this index, counted from 1, after the others.
    pub fn enqueue(&mut self, index: u8, call: Waiting)
        requires there { 1 ≤ index }
        requires declared { index ≤ length self.old.queues }
        requires room { length (queue_at self.old.queues (index - 1)) < longest_queue }
        ensures { self.new ≡ with_caller self.old index call }
    {
        self.queues[usize::from(index) - 1].push(call);
    }

    /// The place of the first open entry that has a caller, counted from 0. It looks at each
    /// barrier at most once.
    fn next_ready(&self, operations: &Operations) -> Option<usize>
        requires { length self.now.queues ≡ length operations.now.entries.items }
        ensures ready { IfSome result
            (λ place. IsReady operations.now.entries.items self.now place) }
        ensures least { IfSome result (λ place. (other : ℕ) → other < place
            → ¬ IsReady operations.now.entries.items self.now other) }
        ensures none { IfNone result (IsServiced operations.now self.now) }
    {
        for (place, entry) in operations.entries.iter().enumerate() {
            if self.is_open(entry) && !self.queues[place].is_empty() {
                return Some(place);
            }
        }
        None
    }

    /// Serves the first caller of the first open entry that has one.
    fn serve_next(&mut self, operations: &Operations) -> Option<Answer>
        requires fits { OperationsFit (limits_of self.old.store) operations.now }
        requires each { length self.old.queues ≡ length operations.now.entries.items }
        ensures served { IfSome result (λ answer. Serves operations.now self.old answer self.new) }
        ensures serviced { IfNone result (IsServiced operations.now self.old) }
        ensures unchanged { IfNone result (self.new ≡ self.old) }
        ensures counts { limits_of self.new.store ≡ limits_of self.old.store }
    {
        let place = self.next_ready(operations)?;
        let call = self.queues[place].pop();
        let outcome = run(
            &operations.entries[place].body,
            &mut self.components,
            call.arg,
        );
        Some(Answer {
            task: call.task,
            number: call.number,
            reply: reply_of(outcome),
        })
    }

    /// Serves calls until none waits at an open barrier. The barriers are evaluated before each.
    fn service(&mut self, operations: &Operations) -> Answers
        requires fits { OperationsFit (limits_of self.old.store) operations.now }
        requires queues { HasQueues operations.now self.old }
        ensures chain { Services operations.now self.old result self.new }
        ensures counts { limits_of self.new.store ≡ limits_of self.old.store }
    {
        let mut served = Answers::new();
        while let Some(answer) = self.serve_next(operations) {
            served.push(answer);
        }
        served
    }

    /// Runs a body for a caller, and then services the queues, also where the body raised.
    pub fn run(&mut self, operations: &Operations, body: &[Stmt], arg: i64) -> Done
        requires fits { OperationsFit (limits_of self.old.store) operations.now }
        requires body { KeepsLimits (limits_of self.old.store) body.now }
        requires queues { HasQueues operations.now self.old }
        ensures runs { Runs operations.now body.now arg self.old
            result.outcome result.served self.new }
        ensures counts { limits_of self.new.store ≡ limits_of self.old.store }
    {
        let outcome = run(body, &mut self.components, arg);
        let reply = reply_of(outcome);
        let served = self.service(operations);
        Done {
            outcome: CallOutcome::Reply(reply),
            served,
        }
    }
}
