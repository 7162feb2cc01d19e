//! A program that runs.

ghost use Rattle.std.specs.Prelude.{◌≡◌, ◌≤◌, max, IsTrue, Some, None, IfSome, IfNone, IfOk, map, List, [], ◌∷◌, ◌++◌, ◌+◌, length, option_to_list};
ghost use Rattle.rp_base.specs.declared.reply.Answer.{Answer};
ghost use Rattle.rp_entry.specs.Actions.{calls_function, calls_procedure, calls_entry, event};
ghost use Rattle.rp_base.specs.Sets.{Has};
ghost use Rattle.rp_machine.specs.Calls.{MayApply};
ghost use Rattle.rp_object.specs.State.{Running, unset, first_object, first_state, call_name_of};
ghost use Rattle.std.specs.Arc.{arc_value};
ghost use Rattle.std.specs.List.{All};
ghost use Rattle.rp_object.specs.Program.{is_declared, interrupt_handler, DeclarationFits};
ghost use Rattle.rp_object.specs.Step.{Result, asks, is_set, with_timer, called, allowed, handled, fires, ticked, own_answer, objects_next, objects_answers, objects_waiting, tasks_waiting};
ghost use Rattle.rp_object.specs.Timers.{due_events};
ghost use Rattle.rp_object.specs.Truths.{is_true};
ghost use Rattle.rp_object.specs.Image.{objects_image};
ghost use Rattle.rp_object.specs.InMemory.{waiting_count};

use crate::image::{write_objects, write_timers};
use crate::program::{Declarations, Handler, ObjectDeclaration, Program, TimingEvent};
use rp_base::{Action, Answer, Answers, Operation, Reply, TaskId};
use rp_entry::{CallOutcome, Done, Object, Waiting, of_index};
use std::alloc::{AllocError, Global};
use std::marker::Model;
use std::sync::Arc;

/// A program that runs: its protected objects, the times for which its timing events are set, and
/// the clock.
#[derive(Drop)]
pub struct Objects {
    declarations: Arc<Declarations, Global>,
    objects: Vec<Object>,
    timers: Vec<Option<i64>>,
    clock: u32,
}

impl Model for Objects {
    ghost use Rattle.std.specs.Arc.{arc_value};
    ghost use Rattle.rp_object.specs.State.{Running, running_code};
    ghost use Rattle.rp_object.specs.Timers.{due_events};
    ghost use Rattle.rp_object.specs.Image.{objects_image};
    ghost use Rattle.rp_object.specs.InMemory.{AreObjects};

    ghost Value = { Running };

    ghost coded = { running_code };

    ghost view = { λ o. record {
      program = arc_value o.declarations;
      state = record { objects = o.objects.items; timers = o.timers.items; clock = o.clock };
    } };

    ghost invariant = { λ o. AreObjects (arc_value o.declarations) o.objects.items o.timers.items };
}

impl Objects {
    /// The start of the program: each object as it is declared, no time set, and the clock at 0.
    pub fn start(alloc: Global, program: &Program) -> Result<Self, AllocError>
        // claim: All objects of a program start as they are declared
        ensures { IfOk result (λ objects. objects
            ≡ first_state (arc_value program.now.declarations)) }
    {
        let declarations = program.share()?;
        let objects = first_objects(alloc, &declarations.objects)?;
        let timers = no_times(alloc, &declarations.timers)?;
        Ok(Objects {
            declarations,
            objects,
            timers,
            clock: 0,
        })
    }

    /// Applies an action, and gives the answers that result: the caller's, and then those of the
    /// callers that were served. It takes no memory. No call of the action's task waits.
    pub fn apply(&mut self, action: &Action) -> Answers
        requires free { MayApply (objects_waiting self.old) action.now }
        // claim: An action does what the rules of protected objects say: calls, ceilings,
        //   interrupts, timing events
        ensures next { self.new ≡ objects_next self.old action.now }
        ensures answers { result ≡ objects_answers self.old action.now }
    {
        match *action {
            Action::Noop => Answers::new(),
            Action::Call {
                task,
                number,
                object,
                operation,
                arg,
            } => {
                let call = Waiting { task, number, arg };
                let done = self.call(call, object, operation);
                answers_of(task, number, &done)
            }
            Action::Interrupt { source, .. } => self.interrupt(source),
            Action::Tick { now } => self.tick(now),
        }
    }

    /// A line for each object with its components and its queue, the line of the clock, and a line
    /// for each timing event.
    pub fn image(&self, alloc: Global) -> Result<Vec<u8>, AllocError>
        // claim: The image of a program is the stated text
        ensures { IfOk result (λ text. text.items ≡ objects_image self.now) }
    {
        let mut text = String::new(alloc);
        let declared = &self.declarations.objects;
        write_objects(
            &mut text,
            self.declarations.profile,
            declared,
            &self.objects,
        )?;
        writeln!(text, "clock {}", self.clock)?;
        write_timers(&mut text, &self.declarations.timers, &self.timers)?;
        Ok(text.into_bytes())
    }

    /// Whether a call of this function of an object with the argument 0 gets the reply True. Not where
    /// there is no such function, it returns a number or it raises an exception. The ceiling is not
    /// checked, and nothing changes.
    pub fn is_true(&self, object: u8, index: u8) -> bool
        // claim: Whether a function is true in a state is what a call of it there would be replied
        ensures { result ≡ is_true self.now.state object index }
    {
        if object == 0 || usize::from(object) > self.objects.len() {
            return false;
        }
        let called = self.function(object, index, 0);
        matches!(called.outcome, CallOutcome::Reply(Reply::Truth(true)))
    }

    /// Calls a function of the object.
    fn function(&self, object: u8, index: u8, arg: i64) -> Done
        requires there { 1 ≤ object }
        requires declared { object ≤ length self.now.state.objects }
        ensures action { asks self.now.state object (calls_function index arg)
            ≡ record {
              caller = Some result.outcome;
              replied = result.served;
              after =
                  self.now.state;
            } }
    {
        let reply = self.objects[usize::from(object) - 1].function(index, arg);
        Done {
            outcome: CallOutcome::Reply(reply),
            served: Answers::new(),
        }
    }

    /// Calls a procedure of the object.
    fn procedure(&mut self, object: u8, index: u8, arg: i64) -> Done
        requires there { 1 ≤ object }
        requires declared { object ≤ length self.old.state.objects }
        ensures action { asks self.old.state object (calls_procedure index arg)
            ≡ record {
              caller = Some result.outcome;
              replied = result.served;
              after =
                  self.new.state;
            } }
        ensures program { self.new.program ≡ self.old.program }
    {
        self.objects[usize::from(object) - 1].procedure(index, arg)
    }

    /// Calls an entry of the object.
    fn entry(&mut self, object: u8, index: u8, call: Waiting) -> Done
        requires there { 1 ≤ object }
        requires declared { object ≤ length self.old.state.objects }
        requires free { ¬ Has call.task (tasks_waiting self.old) }
        ensures action { asks self.old.state object (calls_entry index call)
            ≡ record {
              caller = Some result.outcome;
              replied = result.served;
              after =
                  self.new.state;
            } }
        ensures program { self.new.program ≡ self.old.program }
    {
        let asked = &mut self.objects[usize::from(object) - 1];
        asked.entry(index, call.task, call.number, call.arg)
    }

    /// Runs a handler.
    fn handle(&mut self, handler: Handler) -> Answers
        requires there { 1 ≤ handler.object }
        requires declared { handler.object ≤ length self.old.state.objects }
        ensures action { asks self.old.state handler.object (event handler.procedure)
            ≡ record { caller = None; replied = result; after = self.new.state } }
        ensures program { self.new.program ≡ self.old.program }
        ensures room { length result + waiting_count self.new.state.objects
            ≡ waiting_count self.old.state.objects }
    {
        self.objects[usize::from(handler.object) - 1].handler(handler.procedure)
    }

    /// Sets a timing event, or sets it no longer, and returns whether it was set.
    fn set_timer(&mut self, number: u8, time: Option<i64>) -> bool
        requires there { 1 ≤ number }
        requires declared { number ≤ length self.old.state.timers }
        ensures was { result ≡ is_set self.old.state number }
        ensures timer { self.new ≡ record self.old {
          state = with_timer self.old.state number time;
        } }
    {
        let place = usize::from(number) - 1;
        let was = self.timers[place].is_some();
        self.timers[place] = time;
        was
    }

    /// A call of a task: what is not declared is refused before anything else.
    fn call(&mut self, call: Waiting, object: u8, operation: Operation) -> Done
        requires free { ¬ Has call.task (tasks_waiting self.old) }
        ensures action { called self.old.program self.old.state call object operation
            ≡ record {
              caller = Some result.outcome;
              replied = result.served;
              after =
                  self.new.state;
            } }
        ensures few { length (own_answer (call_name_of call) (Some result.outcome))
            + length result.served ≤ 8 }
        ensures program { self.new.program ≡ self.old.program }
    {
        if self.declarations.declares(call.task, object, operation) {
            self.allowed(call, object, operation)
        } else {
            Done::alone(CallOutcome::Reply(Reply::NoSuchOperation))
        }
    }

    /// A call of what is declared. Timing events are not checked against the ceiling.
    fn allowed(&mut self, call: Waiting, object: u8, operation: Operation) -> Done
        requires declared { IsTrue (is_declared self.old.program call.task object operation) }
        requires free { ¬ Has call.task (tasks_waiting self.old) }
        ensures action { allowed self.old.program self.old.state call object operation
            ≡ record {
              caller = Some result.outcome;
              replied = result.served;
              after =
                  self.new.state;
            } }
        ensures program { self.new.program ≡ self.old.program }
    {
        let within = self.declarations.is_within_ceiling(call.task, object);
        match operation {
            Operation::SetTimer(timer) => {
                self.set_timer(timer, Some(call.arg));
                Done::alone(CallOutcome::Reply(Reply::Value(0)))
            }
            Operation::CancelTimer(timer) => {
                let was_set = self.set_timer(timer, None);
                Done::alone(CallOutcome::Reply(Reply::Truth(was_set)))
            }
            Operation::Function(index) if within => self.function(object, index, call.arg),
            Operation::Procedure(index) if within => self.procedure(object, index, call.arg),
            Operation::Entry(index) if within => self.entry(object, index, call),
            _ => Done::alone(CallOutcome::Reply(Reply::ProgramError)),
        }
    }

    /// The time of a timing event has come: it is no longer set, and then its handler runs.
    fn fire(&mut self, number: u8) -> Answers
        requires there { 1 ≤ number }
        requires declared { number ≤ length self.old.state.timers }
        ensures action { fires self.old.program self.old.state number
            ≡ record { caller = None; replied = result; after = self.new.state } }
        ensures program { self.new.program ≡ self.old.program }
        ensures timers { self.new.state.timers
            ≡ (with_timer self.old.state number None).timers }
        ensures clock { self.new.state.clock ≡ self.old.state.clock }
        ensures room { length result + waiting_count self.new.state.objects
            ≡ waiting_count self.old.state.objects }
    {
        self.set_timer(number, None);
        let handler = self.declarations.timers[usize::from(number) - 1].handler;
        self.handle(handler)
    }

    /// An occurrence of an interrupt: its handler runs, if there is one.
    fn interrupt(&mut self, source: u8) -> Answers
        ensures action { handled self.old.state (interrupt_handler self.old.program source)
            ≡ record { caller = None; replied = result; after = self.new.state } }
        ensures program { self.new.program ≡ self.old.program }
    {
        match of_index(&self.declarations.interrupts, source) {
            Some(handler) => {
                let handler = *handler;
                self.handle(handler)
            }
            None => Answers::new(),
        }
    }

    /// The timing event that fires next: of those that are due, the first by time and number.
    fn next_due(&self) -> Option<u8>
        ensures there { IfSome result (λ number. (1 ≤ number)
            × (number ≤ length self.now.state.timers)) }
        ensures first { let now = self.now.state in IfSome result (λ number.
            due_events now.clock now.timers
            ≡ number ∷ due_events now.clock (with_timer now number None).timers) }
        ensures none { let now = self.now.state in
            IfNone result (due_events now.clock now.timers ≡ []) }
    {
        let mut next: Option<(i64, u8)> = None;
        let mut number = 0;
        for timer in &self.timers {
            number += 1;
            if let Some(time) = *timer {
                let is_next = match next {
                    Some((earliest, _)) => time < earliest,
                    None => time <= i64::from(self.clock),
                };
                if is_next {
                    next = Some((time, number));
                }
            }
        }
        let (_, number) = next?;
        Some(number)
    }

    /// Raises the clock where it is below `now`.
    fn raise_clock(&mut self, now: u32)
        ensures few { waiting_count self.new.state.objects ≤ 8 }
        ensures clock { self.new ≡ record self.old {
          state = record self.old.state { clock = max self.old.state.clock now };
        } }
    {
        self.clock = self.clock.max(now);
    }

    /// The clock is at least `now`: it is raised where it is below, and then the timing events that
    /// are due fire, one after another.
    fn tick(&mut self, now: u32) -> Answers
        ensures action { ticked self.old.program self.old.state now
            ≡ record { caller = None; replied = result; after = self.new.state } }
        ensures program { self.new.program ≡ self.old.program }
    {
        self.raise_clock(now);
        let mut answers = Answers::new();
        while let Some(number) = self.next_due() {
            let replied = self.fire(number);
            append(&mut answers, &replied);
        }
        answers
    }
}

/// The objects as they are declared.
fn first_objects(alloc: Global, declared: &[ObjectDeclaration]) -> Result<Vec<Object>, AllocError>
    requires { All DeclarationFits declared.now }
    ensures { IfOk result (λ objects. objects.items ≡ map first_object declared.now) }
{
    let mut objects = Vec::new(alloc);
    for declaration in declared {
        let operations = declaration.operations.clone()?;
        let components = declaration.components.clone()?;
        objects.push(Object::new(alloc, operations, components)?.unwrap())?;
    }
    Ok(objects)
}

/// No timing event is set.
fn no_times(alloc: Global, declared: &[TimingEvent]) -> Result<Vec<Option<i64>>, AllocError>
    ensures { IfOk result (λ times. times.items ≡ map unset declared.now) }
{
    let mut times = Vec::new(alloc);
    for _ in declared {
        times.push(None)?;
    }
    Ok(times)
}

/// The answer to a call, if it does not wait, and after it those to the callers that were served.
fn answers_of(task: TaskId, number: u32, done: &Done) -> Answers
    requires { length (own_answer (record { task = task; number = number })
        (Some done.now.outcome)) + length done.now.served ≤ 8 }
    ensures { result ≡ own_answer (record { task = task; number = number })
        (Some done.now.outcome) ++ done.now.served }
{
    let mut answers = Answers::new();
    if let CallOutcome::Reply(reply) = done.outcome {
        answers.push(Answer {
            task,
            number,
            reply,
        });
    }
    append(&mut answers, &done.served);
    answers
}

/// Puts further answers after the others.
fn append(answers: &mut Answers, more: &Answers)
    requires { length answers.old + length more.now ≤ 8 }
    ensures { answers.new ≡ answers.old ++ more.now }
{
    for answer in more.as_slice() {
        answers.push(*answer);
    }
}
