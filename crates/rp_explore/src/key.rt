//! What tells the states of a program apart.

ghost use Rattle.std.specs.Prelude.{◌≡◌, IfOk, if◌then◌else◌};
ghost use Rattle.rp_machine.specs.Numbered.{outcome};
ghost use Rattle.rp_explore.specs.Pieces.{AreMore};
ghost use Rattle.rp_explore.specs.Keys.{IsKeyOf, last_numbers, last_occurrences, all_may_go_on};

use crate::guarded::may_go_on;
use crate::pieces::Pieces;
use rp_base::{MOST_SOURCES, MOST_TASKS, TaskId};
use rp_machine::{Machine, Numbered};
use rp_orders::Guard;
use std::alloc::{AllocError, Global};

/// The lines of a state's image, by their numbers, the number of each task's last call, each
/// source's last occurrence, and whether each task's next call may be made, by its guards. States
/// with equal keys are one state, since a machine's image shows its state whole.
#[derive(PartialEq, Eq, Hash)]
pub struct Key {
    lines: Vec<usize>,
    numbers: [u32; 8],
    occurrences: [u32; 8],
    allowed: [u8; 8],
}

// Not derived, so that to drop it is one step of a proof and not one for each of its parts.
impl Drop for Key {
    fn drop(self) {
        let Key {
            lines: _,
            numbers: _,
            occurrences: _,
            allowed: _,
        } = self;
    }
}

impl Key {
    /// The numbers of the lines of the state's image.
    pub fn lines(&self) -> &[usize]
        ensures { result.now ≡ self.now.lines.items }
    {
        self.lines.as_slice()
    }
}

/// The key of the state that a log has led to; the lines of its image that are new are added. Many
/// of them may be the lines of a state near it.
pub fn key_of<M: Machine>(
    alloc: Global,
    state: &Numbered<M>,
    guards: &[Guard],
    pieces: &mut Pieces,
    near: &[usize],
) -> Result<Key, AllocError>
    ensures more { AreMore pieces.old pieces.new }
    ensures value { IfOk result (λ key. IsKeyOf M.image guards.now pieces.new
        (outcome M.next M.answers state.now) key) }
{
    let image = state.machine().image(alloc)?;
    Ok(Key {
        lines: pieces.numbers(alloc, image.as_slice(), near)?,
        numbers: numbers_in(state),
        occurrences: occurrences_in(state),
        allowed: allowed_in(state, guards),
    })
}

/// The number of each task's last call.
fn numbers_in<M: Machine>(state: &Numbered<M>) -> [u32; 8]
    ensures { result ≡ last_numbers (outcome M.next M.answers state.now).kept }
{
    let mut numbers = [0; 8];
    for place in 0..MOST_TASKS {
        if let Some(task) = TaskId::new(place + 1) {
            numbers[usize::from(place)] = state.last(task);
        }
    }
    numbers
}

/// The last occurrence of each source.
fn occurrences_in<M: Machine>(state: &Numbered<M>) -> [u32; 8]
    ensures { result ≡ last_occurrences (outcome M.next M.answers state.now).kept }
{
    let mut occurrences = [0; 8];
    for place in 0..MOST_SOURCES {
        occurrences[usize::from(place)] = state.last_occurrence(place + 1);
    }
    occurrences
}

/// 1 for each task whose next call may be made, else 0.
fn allowed_in<M: Machine>(state: &Numbered<M>, guards: &[Guard]) -> [u8; 8]
    ensures { let r = outcome M.next M.answers state.now in result
        ≡ all_may_go_on guards.now r.kept r.given }
{
    let mut allowed = [0; 8];
    for place in 0..MOST_TASKS {
        if let Some(task) = TaskId::new(place + 1) {
            allowed[usize::from(place)] = one_if(may_go_on(state, guards, task));
        }
    }
    allowed
}

/// 1 for true and 0 for false.
fn one_if(truth: bool) -> u8
    ensures { result ≡ (if truth then 1 else 0) }
{
    u8::from(truth)
}
