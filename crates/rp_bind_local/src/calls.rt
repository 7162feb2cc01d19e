//! Which operation a call by its numbers is.

ghost use Rattle.std.specs.Prelude.{◌≡◌, ◌++◌, IfOk, Some, option_map, string_bytes};
ghost use Rattle.rp_bind_local.specs.Calls.{call_lines, calls_text, form_of, index_of, kind_of, numbers_text, sum_call_text};
ghost use Rattle.rp_bind_local.specs.Operations.{does_of};

use crate::objects::Named;
use crate::operations::{Operation, operation_at};
use rp_deck_objects::OperationName;
use rp_object::ObjectDeclaration;
use std::alloc::AllocError;
use std::fmt;

/// Adds the calls of the object of this number.
pub fn add_calls(
    text: &mut String,
    object: &Named<'_>,
    number: usize,
    declaration: &ObjectDeclaration,
) -> Result<(), AllocError>
    ensures { IfOk result (λ _. string_bytes text.new ≡ string_bytes text.old
        ++ calls_text declaration.now object.now.name.now number object.now.operations.now.entries) }
{
    for (name, operation) in object.operations.iter() {
        let choice = Choice {
            number,
            kind: kind_of(*operation),
            index: index_of(*operation),
        };
        let form = form_of(operation_at(&declaration.operations, *operation));
        let owner = object.name;
        add_call(text, choice, CallLines { form, owner, name })?;
    }
    Ok(())
}

/// Adds the call of the object of a tally of this number.
pub fn add_sum_call(text: &mut String, number: usize, name: &str) -> Result<(), AllocError>
    ensures { IfOk result (λ _. string_bytes text.new ≡ string_bytes text.old
        ++ sum_call_text number name.now) }
{
    let call = SumCall { number, name };
    write!(text, "{call}")
}

/// The call of the object of a tally of this number.
#[derive(Clone, Copy)]
struct SumCall<'a> {
    number: usize,
    name: &'a str,
}

impl fmt::Display for SumCall<'_> {
    ghost output = { λ l. Some (sum_call_text l.number l.name.now) };

    fn fmt<W: fmt::Write>(&self, f: &mut fmt::Formatter<W>) -> fmt::Result {
        let SumCall { number, name } = *self;
        write!(
            f,
            "         when {number}_02_01 =>\n            {name}_On_This_Machine.add\n              (Argument, Result);\n"
        )
    }
}

/// The numbers of a call.
#[derive(Clone, Copy)]
struct Choice {
    number: usize,
    kind: u8,
    index: u8,
}

impl fmt::Display for Choice {
    ghost output = { λ l. Some (numbers_text l.number l.kind l.index) };

    fn fmt<W: fmt::Write>(&self, f: &mut fmt::Formatter<W>) -> fmt::Result {
        let Choice {
            number,
            kind,
            index,
        } = *self;
        writeln!(f, "         when {number}_0{kind}_0{index} =>")
    }
}

/// The number of the kind of an operation.
fn kind_of(operation: OperationName) -> u8
    ensures { result ≡ kind_of operation }
{
    match operation {
        OperationName::Function(_) => 1,
        OperationName::Procedure(_) => 2,
        OperationName::Entry(_) => 3,
    }
}

/// The number of an operation among those of its kind.
fn index_of(operation: OperationName) -> u8
    ensures { result ≡ index_of operation }
{
    match operation {
        OperationName::Function(index) | OperationName::Procedure(index) => index.number,
        OperationName::Entry(index) => index.number,
    }
}

/// How an operation is called.
#[derive(Clone, Copy)]
pub enum Form {
    /// Its value is the result.
    Value,
    /// Its Boolean is the result.
    Truth,
    /// It has the result as a parameter.
    WithResult,
    /// There is none.
    Nothing,
}

/// How an operation is called, if there is one.
fn form_of(operation: Option<Operation<'_>>) -> Form
    ensures { result ≡ form_of (option_map does_of operation.entry) }
{
    match operation {
        Some(Operation::Value(_)) => Form::Value,
        Some(Operation::Truth(_)) => Form::Truth,
        Some(Operation::Procedure(_) | Operation::Entry(_)) => Form::WithResult,
        None => Form::Nothing,
    }
}

/// Adds the numbers of a call and the call.
fn add_call(text: &mut String, choice: Choice, lines: CallLines<'_>) -> Result<(), AllocError>
    ensures { IfOk result (λ _. string_bytes text.new ≡ string_bytes text.old
        ++ (numbers_text choice.number choice.kind choice.index
        ++ call_lines lines.entry.form lines.entry.owner.now lines.entry.name.now)) }
{
    write!(text, "{choice}")?;
    write!(text, "{lines}")
}

/// The call of an operation of a protected object.
#[derive(Clone, Copy)]
struct CallLines<'a> {
    form: Form,
    owner: &'a str,
    name: &'a str,
}

impl fmt::Display for CallLines<'_> {
    ghost output = { λ l. Some (call_lines l.form l.owner.now l.name.now) };

    fn fmt<W: fmt::Write>(&self, f: &mut fmt::Formatter<W>) -> fmt::Result {
        let CallLines { form, owner, name } = *self;
        match form {
            Form::Value => write!(
                f,
                "            Result := {owner}_On_This_Machine.{name}\n              (Argument);\n"
            ),
            Form::Truth => write!(
                f,
                "            Result := Boolean_Of_An_Object'Pos\n              ({owner}_On_This_Machine.{name} (Argument));\n"
            ),
            Form::WithResult => write!(
                f,
                "            {owner}_On_This_Machine.{name}\n              (Argument, Result);\n"
            ),
            Form::Nothing => writeln!(f, "            null;"),
        }
    }
}
