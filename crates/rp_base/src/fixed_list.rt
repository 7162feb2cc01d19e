//! A list that takes no memory: its places are in the value.

ghost use Rattle.std.specs.Prelude.{◌≡◌, ◌↔◌, ◌<◌, ◌≤◌, [], ◌∷◌, ◌++◌, length, IsTrue};

use std::fmt;
use std::marker::Model;

/// At most `MOST` items in their order, in place.
#[derive(Drop)]
pub struct FixedList<T, const MOST: usize> {
    items: [T; MOST],
    len: usize,
}

impl<T, const MOST: usize> Model for FixedList<T, MOST> {
    ghost use Rattle.std.specs.Prelude.{◌≡◌, List, ◌≤◌, length, take};

    ghost Value = { List T };

    ghost view = { λ list. take list.len list.items };

    ghost invariant = { λ list. (list.len ≤ MOST) × (length list.items ≡ MOST) };
}

impl<T: Copy, const MOST: usize> FixedList<T, MOST> {
    /// No item yet. Its places have this item until they are used.
    pub(crate) fn of(unused: T) -> Self
        ensures { result ≡ [] }
    {
        FixedList {
            items: [unused; MOST],
            len: 0,
        }
    }

    /// How many items there are, at most `MOST`.
    pub fn len(&self) -> usize
        ensures { result ≡ length self.now }
    {
        self.len
    }

    /// Whether there is none.
    pub fn is_empty(&self) -> bool
        ensures { IsTrue result ↔ (self.now ≡ []) }
    {
        self.len == 0
    }

    /// Removes all items.
    #[inline(always)]
    pub fn clear(&mut self)
        ensures { self.new ≡ [] }
    {
        self.len = 0;
    }

    /// Adds an item after the others.
    #[inline(always)]
    pub fn push(&mut self, item: T)
        requires { length self.old < MOST }
        ensures { self.new ≡ self.old ++ item ∷ [] }
    {
        self.items[self.len] = item;
        self.len += 1;
    }

    /// The items in their order.
    pub fn as_slice(&self) -> &[T]
        ensures { result.now ≡ self.now }
    {
        &self.items[..self.len]
    }
}

impl<T: Copy + fmt::Debug, const MOST: usize> fmt::Debug for FixedList<T, MOST> {
    fn fmt<W: fmt::Write>(&self, f: &mut fmt::Formatter<W>) -> fmt::Result {
        write!(f, "{:?}", self.as_slice())
    }
}
