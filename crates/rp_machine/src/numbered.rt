//! A machine after a log: each call counts once.

ghost use Rattle.std.specs.Prelude.{◌≡◌, ℕ, ◌+◌, ◌-◌, ◌<◌, ◌≤◌, ◌&&◌, not, nat_eq, nat_le, is_none, map, Some, None, List, [], ◌∷◌, ◌++◌, IfOk, slice_set, slice_index_or};
ghost use Rattle.rp_base.specs.Action.{IsRight, IsIndex};
ghost use Rattle.rp_base.specs.Sets.{IsSet};
ghost use Rattle.rp_base.specs.declared.action.Action.{Action};
ghost use Rattle.rp_machine.specs.Calls.{calls_made, call_of};
ghost use Rattle.rp_machine.specs.Replay.{answers_after, counts, counted_of, occurrences_of};
ghost use Rattle.rp_machine.specs.Asked.{last_number, last_occurrence, waits, answer_to, kept_reply};
ghost use Rattle.rp_machine.specs.Numbered.{outcome, with_action, with_occurrence, with_answers};

use crate::machine::Machine;
use crate::replay::replay_may_go_on;
use rp_base::{Action, Answer, Answers, History, MOST_SOURCES, MOST_TASKS, Reply, TaskId};
use std::alloc::{AllocError, Global};
use std::marker::Model;
use std::snapshot::Snapshot;

/// How many tasks something is kept of.
const CALLERS: usize = MOST_TASKS as usize;

/// How many sources of interrupts something is kept of.
const SOURCES: usize = MOST_SOURCES as usize;

/// What is kept of a task's calls: the number of the last one that counted, 0 where none did, and
/// the reply to it, once there is one.
#[derive(Clone, Copy, Debug, PartialEq, Eq)]
struct Caller {
    last: u32,
    reply: Option<Reply>,
}

impl Caller {
    /// Whether the last call has no reply yet.
    fn waits(&self) -> bool
        ensures { result ≡ (not (nat_eq self.now.last 0) && is_none self.now.reply) }
    {
        self.last != 0 && self.reply.is_none()
    }
}

/// A machine to which the actions of a log are applied one after another, and which lets those
/// count that do: a call one above the last of its task that counted, while none of that task
/// waits; an interrupt above the last of its source; a tick; never a Noop. The others change
/// nothing.
///
/// To a contract it is its start and the list of the actions applied, which memory does not hold.
/// What it was asked costs the same however many they are.
pub struct Numbered<M: Machine> {
    machine: M,
    callers: [Caller; CALLERS],
    occurrences: [u32; SOURCES],
    program: Snapshot<M::Program>,
    actions: History<Action>,
}

// Not derived, so that to drop it is one step of a proof and not one for each of its parts.
impl<M: Machine> Drop for Numbered<M> {
    fn drop(self) {
        let Numbered {
            machine: _,
            callers: _,
            occurrences: _,
            program: _,
            actions: _,
        } = self;
    }
}

impl<M: Machine> Model for Numbered<M> {
    ghost use Rattle.rp_machine.specs.Replay.{replay_of};
    ghost use Rattle.rp_machine.specs.Numbered.{Applied, IsNumbered};

    ghost Value = { Applied M };

    ghost view = { λ n. record { begin = M.begin n.program.value; actions = n.actions } };

    ghost invariant = { λ n. IsNumbered
        (replay_of M.next M.answers (M.begin n.program.value) n.actions)
        n.actions n.machine n.callers n.occurrences };
}

impl<M: Machine> Numbered<M> {
    /// The program's start, to which nothing was applied.
    pub fn new(alloc: Global, program: &M::Program) -> Result<Self, AllocError>
        ensures { IfOk result (λ n. n ≡ record { begin = M.begin program.now; actions = [] }) }
    {
        let machine = M::start(alloc, program)?;
        let unused = Caller {
            last: 0,
            reply: None,
        };
        Ok(Numbered {
            machine,
            callers: [unused; CALLERS],
            occurrences: [0; SOURCES],
            program: Snapshot::of(program),
            actions: History::new(),
        })
    }

    /// Applies the next action of the log, and puts the answers that result in place of those that
    /// are there: those of the machine if the action counts, otherwise none. No call is answered
    /// twice. It takes no memory.
    #[inline(always)]
    pub fn apply(&mut self, action: &Action, answers: &mut Answers)
        requires { IsRight action.now }
        // claim: After a log each action changes a machine exactly as the replay of the log does,
        //   with the same answers; no call is answered twice
        ensures applied { self.new
            ≡ record self.old { actions = self.old.actions ++ action.now ∷ [] } }
        ensures answers { answers.new ≡ answers_after M.next M.answers
            (outcome M.next M.answers self.old) action.now }
        ensures once { IsSet (map call_of (outcome M.next M.answers self.new).given) }
    {
        M::laws();
        replay_may_go_on::<M>();
        answers.clear();
        if !self.counts(action) {
            self.actions.push(action);
            return;
        }
        self.machine.apply(action, answers);
        note(&mut self.callers, &mut self.occurrences, action);
        hear(&mut self.callers, answers.as_slice());
        self.actions.push(action);
    }

    /// The reply to a call of this task, where the call is the last of the task that counted and
    /// has its answer.
    pub fn kept(&self, task: TaskId, number: u32) -> Option<Reply>
        // claim: The reply to a task's last call is kept, and no other
        ensures { let r = outcome M.next M.answers self.now in result
            ≡ kept_reply task number r.kept r.given }
    {
        let caller = self.caller(task);
        if caller.last == number {
            caller.reply
        } else {
            None
        }
    }

    /// The number of the task's last call that counted, 0 where none did.
    pub fn last(&self, task: TaskId) -> u32
        // claim: A task's last number, whether it waits, and a source's last occurrence are those
        //   of the replay
        ensures { result ≡ last_number task (outcome M.next M.answers self.now).kept }
    {
        self.caller(task).last
    }

    /// Whether the task's last call that counted has no answer yet.
    pub fn waits(&self, task: TaskId) -> bool
        // claim as Numbered::last
        ensures { let r = outcome M.next M.answers self.now in result ≡ waits task r.kept r.given }
    {
        self.caller(task).waits()
    }

    /// Whether a call may still be answered: it is not, and no call of its task above it counted.
    pub fn is_open(&self, task: TaskId, number: u32) -> bool
        requires { 1 ≤ number }
        // claim: Whether a call may still be answered is what the replay says
        ensures { let r = outcome M.next M.answers self.now in result
            ≡ (is_none (answer_to task number r.given) && nat_le (last_number task r.kept) number) }
    {
        let caller = self.caller(task);
        caller.last < number || caller.last == number && caller.reply.is_none()
    }

    /// The last occurrence of the source, 1 to 8, that counted, 0 where none did.
    pub fn last_occurrence(&self, source: u8) -> u32
        requires { IsIndex source }
        // claim as Numbered::last
        ensures { result ≡ last_occurrence source (outcome M.next M.answers self.now).kept }
    {
        self.occurrences[usize::from(source) - 1]
    }

    /// The machine in its present state.
    pub fn machine(&self) -> &M
        ensures { result.now ≡ (outcome M.next M.answers self.now).state }
    {
        &self.machine
    }

    /// What is kept of the task's calls. None above the last one is answered.
    fn caller(&self, task: TaskId) -> Caller
        ensures last { result.last ≡ last_number task (outcome M.next M.answers self.now).kept }
        ensures reply { let r = outcome M.next M.answers self.now in result.reply
            ≡ kept_reply task result.last r.kept r.given }
        ensures above { let r = outcome M.next M.answers self.now in (number : ℕ)
            → result.last < number → answer_to task number r.given ≡ None }
    {
        M::laws();
        self.callers[usize::from(task.get()) - 1]
    }

    /// Whether the action counts after those that were applied.
    fn counts(&self, action: &Action) -> bool
        requires { IsRight action.now }
        ensures { let r = outcome M.next M.answers self.now in result
            ≡ counts r.kept r.given action.now }
    {
        match *action {
            Action::Noop => false,
            Action::Call { task, number, .. } => self.is_next(task, number),
            Action::Interrupt { source, occurrence } => self.last_occurrence(source) < occurrence,
            Action::Tick { .. } => true,
        }
    }

    /// Whether the call is the task's next and the task does not wait.
    fn is_next(&self, task: TaskId, number: u32) -> bool
        requires { 1 ≤ number }
        ensures { let r = outcome M.next M.answers self.now in result
            ≡ (nat_eq number (last_number task r.kept + 1) && not (waits task r.kept r.given)) }
    {
        number - 1 == self.last(task) && !self.waits(task)
    }
}

/// Notes that the action counted: a call waits for its reply.
fn note(callers: &mut [Caller; CALLERS], occurrences: &mut [u32; SOURCES], action: &Action)
    requires { IsRight action.now }
    ensures callers { callers.new ≡ with_action callers.old action.now }
    ensures occurrences { occurrences.new ≡ with_occurrence occurrences.old action.now }
{
    match *action {
        Action::Call { task, number, .. } => {
            callers[usize::from(task.get()) - 1] = Caller {
                last: number,
                reply: None,
            };
        }
        Action::Interrupt { source, occurrence } => {
            occurrences[usize::from(source) - 1] = occurrence;
        }
        Action::Noop | Action::Tick { .. } => {}
    }
}

/// Keeps the reply of each answer.
fn hear(callers: &mut [Caller; CALLERS], answers: &[Answer])
    ensures { callers.new ≡ with_answers callers.old answers.now }
{
    for answer in answers {
        callers[usize::from(answer.task.get()) - 1].reply = Some(answer.reply);
    }
}

/// A call counts once in any log, and the calls of a task that count are numbered from 1 on.
pub fn calls_count_once<M: Machine>()
    // claim: A call counts once in any log
    ensures { (begin : M) (actions : List Action)
        → IsSet (calls_made (counted_of M.next M.answers begin actions)) }
{}

/// An occurrence of an interrupt's source counts once in any log, at however many nodes it is noted
/// and at however many positions it is decided: its handler runs once.
pub fn occurrences_count_once<M: Machine>()
    // claim: An occurrence of a source counts once in any log
    ensures { (begin : M) (actions : List Action) (source : ℕ)
        → IsSet (occurrences_of source (counted_of M.next M.answers begin actions)) }
{}
