//! What the names of an object's operations denote.

ghost use Rattle.std.specs.Prelude.{◌≡◌, ◌↔◌, ◌<◌, ◌≤◌, ◌+◌, IsSome, IfSome};
ghost use Rattle.rp_object.specs.rp_base.specs.Action.{IsRightOperation};

use indexmap::IndexMap;
use rp_base::{MOST_ENTRIES, MOST_OPERATIONS, Operation};

/// A number from 1 to `MOST`, in declared order.
#[derive(Clone, Copy)]
pub struct Numbered<const MOST: u8> {
    pub number: u8,
    ghost in_range: { (1 ≤ number) × (number ≤ MOST) },
}

impl<const MOST: u8> Numbered<MOST> {
    /// The one after n, or `None` where there are `MOST` already.
    pub fn after(count: usize) -> Option<Self>
        ensures some { IsSome result ↔ (count < MOST) }
        ensures value { IfSome result (λ index. index.number ≡ count + 1) }
    {
        if count < usize::from(MOST) {
            Some(Numbered {
                number: count as u8 + 1,
            })
        } else {
            None
        }
    }
}

/// The number of a function, a procedure or a timing event: there are at most 8.
pub type Index = Numbered<MOST_OPERATIONS>;

/// The number of an entry: an object has at most 4.
pub type EntryIndex = Numbered<MOST_ENTRIES>;

/// An operation of an object, by its number among those of its kind.
#[derive(Clone, Copy)]
pub enum OperationName {
    Function(Index),
    Procedure(Index),
    Entry(EntryIndex),
}

impl OperationName {
    ghost use Rattle.rp_deck_objects.specs.ObjectViews.{operation_of};

    /// What a call asks for by this name.
    pub fn operation(self) -> Operation
        ensures value { result ≡ operation_of self }
        ensures right { IsRightOperation result }
    {
        match self {
            OperationName::Function(index) => Operation::Function(index.number),
            OperationName::Procedure(index) => Operation::Procedure(index.number),
            OperationName::Entry(index) => Operation::Entry(index.number),
        }
    }
}

/// The operations of an object by their names.
pub type OperationNames = IndexMap<String, OperationName>;
