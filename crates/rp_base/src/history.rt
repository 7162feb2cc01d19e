//! A list for contracts alone.

ghost use Rattle.std.specs.Prelude.{◌≡◌, [], ◌∷◌, ◌++◌};

use std::marker::Model;
use std::snapshot::Snapshot;

/// A list of what happened, oldest first, for contracts alone: its items are snapshots, which take
/// no bytes, so memory holds none of them.
#[cycle(history)]
#[derive(Drop)]
pub struct History<T: Drop> {
    last: Last<T>,
}

#[cycle(history)]
#[derive(Drop)]
enum Last<T: Drop> {
    Nothing,
    After(Snapshot<History<T>>, Snapshot<T>),
}

impl<T: Drop> Model for History<T> {
    ghost use Rattle.std.specs.Prelude.{List, length};

    ghost Value = { List T };

    ghost use Rattle.rp_base.specs.Histories.{listed};

    ghost view = { λ h. listed h.last };

    ghost size = { length };

    ghost use Rattle.std.proofs.Common.{arith, length-append};

    ghost size_decreases = { λ a h. Prim.grind (arith, length-append) };
}

impl<T: Drop> History<T> {
    /// Nothing happened yet.
    pub fn new() -> Self
        ensures { result ≡ [] }
    {
        History {
            last: Last::Nothing,
        }
    }

    /// Adds an item after the others, in constant time and with no memory.
    #[inline(always)]
    pub fn push(&mut self, item: &T)
        // claim: A history, of which contracts see each item and memory holds none, grows at its end
        ensures { self.new ≡ self.old ++ item.now ∷ [] }
    {
        let before = Snapshot::of(self);
        self.last = Last::After(before, Snapshot::of(item));
    }
}
