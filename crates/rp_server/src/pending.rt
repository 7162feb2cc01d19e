//! The calls, interrupts and ticks that wait to be proposed.

ghost use Rattle.std.specs.Prelude.{◌≡◌, ◌<◌, ◌≤◌, [], ◌∷◌, ◌++◌, length, drop, filter, slice_get, nat_lt, not, false, IfOk, IsTrue, IsOkUnless};
ghost use Rattle.std.specs.List.{list_any};
ghost use Rattle.rp_base.specs.Action.{IsCount, same_action};
ghost use Rattle.rp_base.specs.declared.fault.Fault.TheVariants as faults;
ghost use Rattle.rp_machine.specs.Numbered.{outcome};
ghost use Rattle.rp_model.specs.Pending.{most_pending, is_same_call, is_answered_by, stays};
ghost use Rattle.rp_server.specs.Ticks.{is_tick, HasNoTick};

use crate::window::position_at;
use circular_buffer::HeapCircularBuffer;
use rp_base::{Action, Answer, Fault};
use rp_log::Log;
use rp_machine::{Machine, Numbered};
use rp_model::RightAction;
use std::alloc::Global;
use std::marker::Model;

/// How many items may be pending.
const MOST_PENDING: usize = 32;

/// The items that are pending, in order of arrival, in a ring of 32.
pub(crate) struct Pending {
    items: HeapCircularBuffer<RightAction>,
}

// Not derived, so that to drop it is one step of a proof and not one for each of its parts.
impl Drop for Pending {
    fn drop(self) {
        let Pending { items: _ } = self;
    }
}

impl Model for Pending {
    ghost use Rattle.std.specs.Prelude.{◌≡◌, List};
    ghost use Rattle.rp_base.specs.declared.action.Action.{Action};
    ghost use Rattle.rp_model.specs.Pending.{most_pending};

    ghost Value = { List Action };

    ghost view = { λ p. p.items.items };

    ghost invariant = { λ p. p.items.capacity ≡ most_pending };
}

impl Pending {
    /// Nothing is pending, and there is room for all that may be.
    pub(crate) fn new(alloc: Global) -> Result<Self, Fault>
        ensures empty { IfOk result (λ p. p ≡ []) }
        ensures only { IsOkUnless result faults.OutOfMemory }
    {
        Ok(Pending {
            items: HeapCircularBuffer::with_capacity(alloc, MOST_PENDING)?,
        })
    }

    /// Whether the item is a call that is pending.
    pub(crate) fn has(&self, item: Action) -> bool
        ensures { result ≡ list_any (is_same_call item) self.now }
    {
        let (front, back) = self.items.as_slices();
        has_same_call(front, &item) || has_same_call(back, &item)
    }

    /// Whether a place is left.
    pub(crate) fn has_room(&self) -> bool
        ensures { result ≡ nat_lt (length self.now) most_pending }
    {
        self.items.len() < MOST_PENDING
    }

    /// How many items are pending.
    pub(crate) fn len(&self) -> usize
        ensures value { result ≡ length self.now }
        ensures within { result ≤ most_pending }
    {
        self.items.len()
    }

    /// Whether the call that is answered is pending, which then has a right number.
    pub(crate) fn awaits(&self, answer: &Answer) -> bool
        ensures value { result ≡ list_any (is_answered_by answer.now) self.now }
        ensures count { IsTrue result → IsCount answer.now.number }
    {
        let (front, back) = self.items.as_slices();
        has_call(front, answer) || has_call(back, answer)
    }

    /// Takes out the items that do not stay, once what the log took since n actions were taken are
    /// the last that were applied to the machine. At most nodes nothing is pending.
    #[inline(always)]
    pub(crate) fn settle<M: Machine>(&mut self, machine: &Numbered<M>, log: &Log, before: u32)
        requires { before ≤ length log.now.taken }
        ensures { let r = outcome M.next M.answers machine.now in self.new
            ≡ filter (stays r.kept r.given (drop before log.now.taken)) self.old }
    {
        match self.len() {
            0 => {}
            1 => self.settle_each(machine, log, before),
            _ => {
                if self.has_leaving(machine, log, before) {
                    self.settle_each(machine, log, before);
                }
            }
        }
    }

    /// Whether an item does not stay.
    #[inline(never)]
    fn has_leaving<M: Machine>(&self, machine: &Numbered<M>, log: &Log, before: u32) -> bool
        requires { before ≤ length log.now.taken }
        ensures { let r = outcome M.next M.answers machine.now in result ≡ list_any
            (λ item. not (stays r.kept r.given (drop before log.now.taken) item)) self.now }
    {
        let ticked = has_taken_a_tick(log, before);
        let (front, back) = self.items.as_slices();
        has_leaving(front, machine, log, before, ticked)
            || has_leaving(back, machine, log, before, ticked)
    }

    /// Takes out each item that does not stay.
    #[inline(never)]
    fn settle_each<M: Machine>(&mut self, machine: &Numbered<M>, log: &Log, before: u32)
        requires { before ≤ length log.now.taken }
        ensures { let r = outcome M.next M.answers machine.now in self.new
            ≡ filter (stays r.kept r.given (drop before log.now.taken)) self.old }
    {
        for _ in 0..self.len() {
            if let Some(item) = self.pop() {
                if stays(machine, log, before, true, item) {
                    self.push(item);
                }
            }
        }
    }

    /// Takes out the first item.
    fn pop(&mut self) -> Option<RightAction>
        ensures first { result ≡ slice_get self.old 0 }
        ensures rest { self.new ≡ drop 1 self.old }
    {
        self.items.pop_front()
    }

    /// The items in order, in two runs.
    pub(crate) fn as_slices(&self) -> (&[RightAction], &[RightAction])
        ensures { result.0.now ++ result.1.now ≡ self.now }
    {
        self.items.as_slices()
    }

    /// Adds an item after the others.
    pub(crate) fn push(&mut self, item: RightAction)
        requires { length self.old < most_pending }
        ensures { self.new ≡ self.old ++ item ∷ [] }
    {
        self.items.push_back(item);
    }
}

/// Whether the two are one call, by its task and number.
fn is_same_call(item: Action, other: Action) -> bool
    ensures { result ≡ is_same_call item other }
{
    match item {
        Action::Call { task, number, .. } => match other {
            Action::Call {
                task: caller,
                number: same,
                ..
            } => task == caller && number == same,
            _ => false,
        },
        _ => false,
    }
}

/// Whether the call, by its task and number, is among the items.
fn has_same_call(items: &[RightAction], call: &Action) -> bool
    ensures { result ≡ list_any (is_same_call call.now) items.now }
{
    items.iter().any(|other| is_same_call(*call, other.get()))
}

/// Whether the item is the call that is answered, which then has a right number.
fn is_answered_by(answer: &Answer, item: RightAction) -> bool
    ensures value { result ≡ is_answered_by answer.now item }
    ensures count { IsTrue result → IsCount answer.now.number }
{
    match item.get() {
        Action::Call { task, number, .. } => task == answer.task && number == answer.number,
        _ => false,
    }
}

/// Whether the call that is answered is among the items, and then has a right number.
fn has_call(items: &[RightAction], answer: &Answer) -> bool
    ensures value { result ≡ list_any (is_answered_by answer.now) items.now }
    ensures count { IsTrue result → IsCount answer.now.number }
{
    for item in items {
        if is_answered_by(answer, *item) {
            return true;
        }
    }
    false
}

/// Whether one of these items does not stay. Where it is `false` that the log took a tick, it took
/// none.
fn has_leaving<M: Machine>(
    items: &[RightAction],
    machine: &Numbered<M>,
    log: &Log,
    before: u32,
    ticked: bool,
) -> bool
    requires since { before ≤ length log.now.taken }
    requires ticks { ticked ≡ false → HasNoTick (drop before log.now.taken) }
    ensures { let r = outcome M.next M.answers machine.now in result ≡ list_any
        (λ item. not (stays r.kept r.given (drop before log.now.taken) item)) items.now }
{
    for item in items {
        if !stays(machine, log, before, ticked, *item) {
            return true;
        }
    }
    false
}

/// Whether a pending item stays, once what the log took since n actions were taken are the last
/// that were applied to the machine. Where it is `false` that the log took a tick, it took none.
#[inline(always)]
fn stays<M: Machine>(
    machine: &Numbered<M>,
    log: &Log,
    before: u32,
    ticked: bool,
    item: RightAction,
) -> bool
    requires since { before ≤ length log.now.taken }
    requires ticks { ticked ≡ false → HasNoTick (drop before log.now.taken) }
    ensures { let r = outcome M.next M.answers machine.now in result
        ≡ stays r.kept r.given (drop before log.now.taken) item }
{
    match item.get() {
        Action::Noop => false,
        Action::Call { task, number, .. } => machine.is_open(task, number),
        Action::Interrupt { source, occurrence } => machine.last_occurrence(source) < occurrence,
        Action::Tick { now } => !(ticked && has_taken(log, before, &Action::Tick { now })),
    }
}

/// Whether the log took a tick since n actions were taken.
fn has_taken_a_tick(log: &Log, before: u32) -> bool
    requires { before ≤ length log.now.taken }
    ensures { result ≡ list_any is_tick (drop before log.now.taken) }
{
    for place in before..log.applied() {
        if let Some(taken) = log.get(position_at(place + 1)) {
            if is_tick(&taken) {
                return true;
            }
        }
    }
    false
}

/// Whether the action is a tick.
fn is_tick(action: &Action) -> bool
    ensures { result ≡ is_tick action.now }
{
    matches!(action, Action::Tick { .. })
}

/// Whether the log took the action since n actions were taken.
fn has_taken(log: &Log, before: u32, action: &Action) -> bool
    requires { before ≤ length log.now.taken }
    ensures { result ≡ list_any (same_action action.now) (drop before log.now.taken) }
{
    for place in before..log.applied() {
        if let Some(taken) = log.get(position_at(place + 1)) {
            if is_same(action, &taken) {
                return true;
            }
        }
    }
    false
}

/// Whether the actions are the same.
fn is_same(action: &Action, other: &Action) -> bool
    ensures { result ≡ same_action action.now other.now }
{
    action == other
}
