//! What the orders that were found give: the replies, and where tasks wait for ever.

ghost use Rattle.std.specs.Prelude.{◌≡◌, ◌↔◌, ◌++◌, ◌∷◌, [], true, max, is_some, IsTrue, ◌-◌, ◌&&◌, ℕ, None, Some, is_none, if◌then◌else◌, slice_index_or, slice_set, OnOk};
ghost use Rattle.rp_base.specs.Number.{IsTask};
ghost use Rattle.rp_machine.specs.Asked.{waits};
ghost use Rattle.rp_machine.specs.Numbered.{outcome};
ghost use Rattle.rp_explore.specs.Searched.{AreAnswersNoted};

use crate::giver::Giver;
use indexmap::IndexSet;
use rp_base::{Answer, MOST_TASKS, TaskId};
use rp_machine::{Machine, Numbered};
use std::alloc::{AllocError, Global};

/// The replies that were given, each once, and what gave each of them first.
#[derive(Drop)]
pub struct Given {
    pub replies: IndexSet<Answer>,
    pub givers: Vec<Giver>,
}

impl Given {
    /// Nothing yet.
    fn new(alloc: Global) -> Self
        ensures replies { result.replies.keys ≡ [] }
        ensures givers { result.givers.items ≡ [] }
    {
        Given {
            replies: IndexSet::new(alloc),
            givers: Vec::new(alloc),
        }
    }

    /// Notes the answers that were not given before, with what gave them.
    pub fn note(&mut self, answers: &[Answer], giver: Giver) -> Result<(), AllocError>
        ensures { OnOk result (AreAnswersNoted answers.now giver self.old.replies.keys
            self.old.givers.items self.new.replies.keys self.new.givers.items) }
    {
        for answer in answers {
            self.note_one(answer, giver)?;
        }
        Ok(())
    }

    /// Notes the answer, if it was not given before, with what gave it.
    fn note_one(&mut self, answer: &Answer, giver: Giver) -> Result<(), AllocError>
        ensures { OnOk result (AreAnswersNoted (answer.now ∷ []) giver self.old.replies.keys
            self.old.givers.items self.new.replies.keys self.new.givers.items) }
    {
        if self.replies.contains(answer) {
            return Ok(());
        }
        self.replies.insert(*answer)?;
        self.givers.push(giver)?;
        Ok(())
    }
}

/// What the actions after an order lead to: only states that were found, only its own state.
#[derive(Clone, Copy)]
pub struct Tried {
    pub is_whole: bool,
    pub is_quiet: bool,
    /// How many of them were taken.
    pub steps: u64,
}

impl Tried {
    /// None of them yet.
    pub fn new() -> Self
        ensures whole { result.is_whole ≡ true }
        ensures quiet { result.is_quiet ≡ true }
    {
        Tried {
            is_whole: true,
            is_quiet: true,
            steps: 0,
        }
    }

    /// One action more, which leads to the state of the order at this place, or to none of them.
    pub fn with(self, at: Option<usize>, place: usize) -> Self
        ensures whole { result.is_whole ≡ (self.is_whole && is_some at) }
        ensures quiet { IsTrue result.is_quiet ↔ (IsTrue self.is_quiet × (at ≡ Some place)) }
    {
        Tried {
            is_whole: self.is_whole && at.is_some(),
            is_quiet: self.is_quiet && at == Some(place),
            steps: self.steps,
        }
    }
}

/// What the orders that were visited give.
pub struct Findings {
    /// Whether each order and action led to the state of an order that was found.
    pub is_whole: bool,
    pub given: Given,
    /// Whether nothing changes anything after each order.
    pub finals: Vec<bool>,
    /// The place of the first order after which each task waits for ever.
    pub stuck: [Option<usize>; 8],
    /// The length of the longest order.
    pub depth: usize,
    /// How many actions were taken after them, each after each.
    pub steps: u64,
}

// Not derived, so that to drop it is one step of a proof and not one for each of its parts.
impl Drop for Findings {
    fn drop(self) {
        let Findings {
            is_whole: _,
            given: _,
            finals: _,
            stuck: _,
            depth: _,
            steps: _,
        } = self;
    }
}

impl Findings {
    /// Nothing yet.
    pub fn new(alloc: Global) -> Self
        ensures whole { result.is_whole ≡ true }
        ensures replies { result.given.replies.keys ≡ [] }
        ensures givers { result.given.givers.items ≡ [] }
        ensures finals { result.finals.items ≡ [] }
        ensures stuck { (task : ℕ) → slice_index_or result.stuck task None ≡ None }
        ensures depth { result.depth ≡ 0 }
    {
        Findings {
            is_whole: true,
            given: Given::new(alloc),
            finals: Vec::new(alloc),
            stuck: [None; 8],
            depth: 0,
            steps: 0,
        }
    }

    /// One order more, of this length, after which the actions lead so.
    pub fn note_order(&mut self, tried: Tried, length: usize) -> Result<(), AllocError>
        ensures whole { OnOk result (self.new.is_whole ≡ (self.old.is_whole && tried.is_whole)) }
        ensures finals { OnOk result
            (self.new.finals.items ≡ self.old.finals.items ++ tried.is_quiet ∷ []) }
        ensures depth { OnOk result (self.new.depth ≡ max self.old.depth length) }
        ensures given { self.new.given ≡ self.old.given }
        ensures stuck { self.new.stuck ≡ self.old.stuck }
    {
        self.is_whole = self.is_whole && tried.is_whole;
        self.depth = self.depth.max(length);
        self.steps = self.steps.saturating_add(tried.steps);
        self.finals.push(tried.is_quiet)?;
        Ok(())
    }
}

/// Notes the place for each task that waits and has none yet.
pub fn note_waits<M: Machine>(stuck: &mut [Option<usize>; 8], state: &Numbered<M>, place: usize)
    ensures { let r = outcome M.next M.answers state.now in (task : ℕ) → IsTask task
        → slice_index_or stuck.new (task - 1) None
        ≡ (if is_none (slice_index_or stuck.old (task - 1) None) && waits task r.kept r.given
        then Some place else slice_index_or stuck.old (task - 1) None) }
{
    for index in 0..MOST_TASKS {
        if let Some(task) = TaskId::new(index + 1) {
            note_wait(stuck, state, task, place);
        }
    }
}

/// Notes the place for a task that waits and has none yet.
fn note_wait<M: Machine>(
    stuck: &mut [Option<usize>; 8],
    state: &Numbered<M>,
    task: TaskId,
    place: usize,
)
    ensures { let r = outcome M.next M.answers state.now in stuck.new
        ≡ slice_set stuck.old (task - 1)
        (if is_none (slice_index_or stuck.old (task - 1) None) && waits task r.kept r.given
        then Some place else slice_index_or stuck.old (task - 1) None) }
{
    let index = usize::from(task.get()) - 1;
    if stuck[index].is_none() && state.waits(task) {
        stuck[index] = Some(place);
    }
}
