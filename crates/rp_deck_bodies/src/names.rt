//! What the names of an object's components denote.

use indexmap::IndexMap;

/// A component of an object, by its place among those of its kind.
#[derive(Clone, Copy)]
pub enum Component {
    Int(u8),
    Bool(u8),
}

/// The components of an object by their names.
pub type ComponentNames = IndexMap<String, Component>;
