//! Lists that a packet carries: the actions of a report, and the votes of a promise for a range.

ghost use Rattle.std.specs.Prelude.{◌≡◌};

use rp_base::{Action, PlacedVote};
use std::alloc::AllocError;
use std::marker::Model;

/// Items in order, in a list, so that packets without one stay small.
#[derive(Drop)]
pub struct Items<T: Copy> {
    items: Vec<T>,
}

/// The actions of a report.
pub type Actions = Items<Action>;

/// The votes of a promise for a range, with their positions. An acceptor answers with them in place
/// (`RangeVotes`), and takes no memory.
pub type Votes = Items<PlacedVote>;

impl<T: Copy> Model for Items<T> {
    ghost use Rattle.std.specs.Prelude.{List};

    ghost Value = { List T };

    ghost view = { λ a. a.items.items };
}

impl<T: Copy> Items<T> {
    /// The items of a vector.
    pub fn from_vec(items: Vec<T>) -> Self
        ensures { result ≡ items.items }
    {
        Items { items }
    }

    /// The items in order.
    pub fn as_slice(&self) -> &[T]
        ensures { result.now ≡ self.now }
    {
        self.items.as_slice()
    }
}

impl<T: Copy> Clone for Items<T> {
    // A clone has the same items.
    ghost is_clone = { λ a b. b ≡ a };

    fn clone(&self) -> Result<Self, AllocError> {
        let alloc = *self.items.allocator();
        Ok(Items {
            items: Vec::from_slice(alloc, self.items.as_slice())?,
        })
    }
}

impl<T: Copy + PartialEq> PartialEq for Items<T> {
    ghost use Rattle.std.specs.Cmp.Lexicographic.{pointwise, lists_per};

    ghost eq = { λ a b. pointwise T.eq a b };

    ghost laws = { lists_per T.laws };

    fn eq(&self, other: &Self) -> bool {
        self.as_slice() == other.as_slice()
    }
}

impl<T: Copy + Eq> Eq for Items<T> {
    ghost use Rattle.std.specs.Cmp.Lexicographic.{lists_equiv};

    ghost laws = { lists_equiv T.Eq.laws };
}
