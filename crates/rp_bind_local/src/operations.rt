//! The operation of an object that a name denotes.

ghost use Rattle.std.specs.Prelude.{◌≡◌, option_map};
ghost use Rattle.rp_bind_local.specs.Operations.{does_at, does_of};

use rp_body::{Cond, Expr, Stmt};
use rp_deck_objects::OperationName;
use rp_entry::{Entry, Function, Operations};

/// What an operation does.
#[derive(Clone, Copy)]
pub enum Operation<'a> {
    /// A function that returns a number.
    Value(&'a Expr),
    /// A function that returns a Boolean.
    Truth(&'a Cond),
    Procedure(&'a [Stmt]),
    Entry(&'a Entry),
}

/// The operation of this name.
pub fn operation_at(operations: &Operations, name: OperationName) -> Option<Operation<'_>>
    ensures { option_map does_of result ≡ does_at operations.now name }
{
    match name {
        OperationName::Function(index) => {
            match operations.functions.get(usize::from(index.number) - 1)? {
                Function::Value(expr) => Some(Operation::Value(expr)),
                Function::Truth(cond) => Some(Operation::Truth(cond)),
            }
        }
        OperationName::Procedure(index) => {
            let body = operations.procedures.get(usize::from(index.number) - 1)?;
            Some(Operation::Procedure(body))
        }
        OperationName::Entry(index) => {
            let entry = operations.entries.get(usize::from(index.number) - 1)?;
            Some(Operation::Entry(entry))
        }
    }
}
