//! What the tasks of a deck call.

ghost use Rattle.std.specs.Prelude.{◌≤◌, IfSome};

use rp_machine::TallyProgram;
use rp_object::{Handler, Program};

/// A task that is declared.
#[derive(Clone, Copy)]
pub struct Task {
    pub priority: u8,
    ghost in_range: { (1 ≤ priority) × (priority ≤ 30) },
}

/// What the tasks call.
#[derive(Drop)]
pub enum DeckProgram {
    /// Sums, n of them.
    Tally(TallyProgram),
    /// Protected objects.
    Objects(Program),
}

impl DeckProgram {
    ghost use Rattle.std.specs.Prelude.{◌≡◌, ◌+◌, slice_get};
    ghost use Rattle.rp_object.specs.rp_base.specs.declared.action.Operation.TheVariants.{SetTimer};
    ghost use Rattle.rp_deck_declarations.specs.Programs.{object_count, IsOffered};
    ghost use Rattle.rp_deck_declarations.specs.DeclaredViews.{timer_handlers};

    /// The handler of the timing event at this place.
    pub fn timer(&self, place: usize) -> Option<Handler>
        ensures value { result ≡ slice_get (timer_handlers self.now) place }
        ensures within { IfSome result (λ handler. (1 ≤ handler.object)
            × (handler.object ≤ object_count self.now)) }
        ensures offered { IfSome result (λ handler.
            IsOffered self.now handler.object (SetTimer (place + 1))) }
    {
        match self {
            DeckProgram::Tally(_) => None,
            DeckProgram::Objects(program) => {
                let timer = program.declarations().timers.get(place)?;
                Some(timer.handler)
            }
        }
    }
}
