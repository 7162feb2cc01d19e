//! Properties of states, and the first order after which one does not hold.

ghost use Rattle.std.specs.Prelude.{◌↔◌, IsTrue, IfOk, MatchOption};
ghost use Rattle.rp_explore.specs.Broken.{IsAskedAt, IsNeverBroken, IsFirstBroken, state_at};

use crate::explored::Explored;
use crate::replays::replayed;
use rp_machine::Machine;
use std::alloc::{AllocError, Global};

/// The place of the first order of a search after which the property does not hold, among all of
/// them or among those after which no action changes anything.
pub fn first_broken<M: Machine, P: Property<M>>(
    alloc: Global,
    program: &M::Program,
    explored: &Explored,
    property: &P,
    is_final_only: bool,
) -> Result<Option<usize>, AllocError>
    // claim: The order that is reported is the first after which the property does not hold, and
    //   none is only where it holds after each
    ensures { let after = state_at M.next M.answers (M.begin program.now) explored.now.orders in
        IfOk result (λ place. MatchOption place
        (IsNeverBroken explored.now is_final_only (λ p. P.meaning property.now (after p)))
        (IsFirstBroken explored.now is_final_only (λ p. P.meaning property.now (after p)))) }
{
    for place in 0..explored.len() {
        if !is_asked(explored, is_final_only, place) {
            continue;
        }
        let order = explored.order(alloc, place)?;
        let state = replayed::<M>(alloc, program, order.as_slice())?;
        if !property.holds(state.machine()) {
            return Ok(Some(place));
        }
    }
    Ok(None)
}

/// Whether the property is asked of the order at the place.
fn is_asked(explored: &Explored, is_final_only: bool, place: usize) -> bool
    ensures { IsTrue result ↔ IsAskedAt explored.now is_final_only place }
{
    !is_final_only || explored.is_final(place)
}

/// Something that holds or not of a state of a machine.
pub trait Property<M: Machine> {
    /// The property holds of the state.
    ghost meaning: { Self → M → Type 0 };

    /// Whether it holds of the machine in its present state.
    fn holds(&self, machine: &M) -> bool
        ensures { IsTrue result ↔ meaning self.now machine.now };
}
