//! The range of the arguments of an operation, where its body says it.

ghost use Rattle.std.specs.Prelude.{◌≡◌, ◌++◌, IfOk, Some, option_copied, string_bytes};
ghost use Rattle.rp_bind_local.specs.Operations.{does_of};
ghost use Rattle.rp_bind.specs.Arguments.{argument_to, component_if, component_taken, ends_text, first_takes, range_text, subtype_lines, taken_by, takes_argument};

use crate::lines::Language;
use rp_bind_local::{Operation, operation_at};
use rp_body::{Expr, Ranged, Stmt};
use rp_deck_objects::OperationName;
use rp_object::ObjectDeclaration;
use std::alloc::AllocError;
use std::fmt;

/// Writes the subtype of the arguments of an operation of this name that assigns its argument to this
/// component first, if there is one; a header of C has none.
pub(crate) fn write_range(
    text: &mut String,
    language: Language,
    name: &str,
    component: Option<Ranged>,
) -> Result<(), AllocError>
    ensures { IfOk result (λ _. string_bytes text.new
        ≡ string_bytes text.old ++ range_text language name.now component) }
{
    match (language, component) {
        (Language::Ada, Some(component)) => write_subtype(text, name, component),
        (Language::Local, Some(component)) => write_subtype(text, name, component),
        (_, None) | (Language::C, _) => Ok(()),
    }
}

/// Writes the subtype of the arguments of an operation.
fn write_subtype(text: &mut String, name: &str, component: Ranged) -> Result<(), AllocError>
    ensures { IfOk result (λ _. string_bytes text.new ≡ string_bytes text.old
        ++ subtype_lines name.now component.low component.high) }
{
    let ends = Ends {
        low: component.low,
        high: component.high,
    };
    let lines = SubtypeLines { name, ends };
    write!(text, "{lines}")
}

/// The subtype of the arguments of an operation.
#[derive(Clone, Copy)]
struct SubtypeLines<'a> {
    name: &'a str,
    ends: Ends,
}

impl fmt::Display for SubtypeLines<'_> {
    ghost output = { λ l. Some (subtype_lines l.name.now l.ends.low l.ends.high) };

    fn fmt<W: fmt::Write>(&self, f: &mut fmt::Formatter<W>) -> fmt::Result {
        let SubtypeLines { name, ends } = *self;
        write!(
            f,
            "      subtype Range_Of_Argument_Of_{name} is\n        Value_Of_This_Deck range {ends};\n"
        )
    }
}

/// The least and the greatest value of a range.
#[derive(Clone, Copy)]
struct Ends {
    low: i64,
    high: i64,
}

impl fmt::Display for Ends {
    ghost output = { λ l. Some (ends_text l.low l.high) };

    fn fmt<W: fmt::Write>(&self, f: &mut fmt::Formatter<W>) -> fmt::Result {
        let Ends { low, high } = *self;
        write!(f, "{low} .. {high}")
    }
}

/// The component to which the operation of this name assigns its argument first, if there is one.
pub(crate) fn component_if(
    object: Option<&ObjectDeclaration>,
    name: OperationName,
) -> Option<Ranged>
    ensures { result ≡ component_if (option_copied object.entry) name }
{
    component_taken(object?, name)
}

/// The same of an object.
fn component_taken(object: &ObjectDeclaration, name: OperationName) -> Option<Ranged>
    ensures { result ≡ component_taken object.now name }
{
    let operation = operation_at(&object.operations, name)?;
    let number = taken_by(&operation)?;
    object.components.int(number)
}

/// The number of the component to which an operation assigns its argument first, if it does.
fn taken_by(operation: &Operation<'_>) -> Option<u8>
    ensures { result ≡ taken_by (does_of operation.now) }
{
    match operation {
        Operation::Value(_) | Operation::Truth(_) => None,
        Operation::Procedure(body) => first_takes(body),
        Operation::Entry(entry) => first_takes(&entry.body),
    }
}

/// The same of a body.
fn first_takes(body: &[Stmt]) -> Option<u8>
    ensures { result ≡ first_takes body.now }
{
    if body.is_empty() {
        return None;
    }
    takes_argument(&body[0])
}

/// The number of the component to which a statement assigns the argument, if it does.
fn takes_argument(statement: &Stmt) -> Option<u8>
    ensures { result ≡ takes_argument statement.now }
{
    match statement {
        Stmt::Set(name, expr) => argument_to(*name, expr),
        Stmt::Put(_, _) | Stmt::Out(_) | Stmt::If(_, _, _) => None,
    }
}

/// The component of this number, if the argument is assigned to it.
fn argument_to(name: u8, expr: &Expr) -> Option<u8>
    ensures { result ≡ argument_to name expr.now }
{
    match expr {
        Expr::Arg => Some(name),
        _ => None,
    }
}
