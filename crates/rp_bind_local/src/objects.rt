//! A protected object of Ada for an object of a deck.

ghost use Rattle.std.specs.Prelude.{◌≡◌, ◌++◌, IfOk, Some, option_map, string_bytes};
ghost use Rattle.rp_bind_local.specs.Objects.{bodies_text, body_text, components_text, truth_line, truth_text, truths_text, whole_line, whole_text, wholes_text, declaration_text, declarations_text, head_text, object_text, operation_text, profile_of, queue_text, ends_text, scope_of, sum_body, sum_declaration, sum_text, unit_name, word_of};
ghost use Rattle.rp_bind_local.specs.Expressions.{within};
ghost use Rattle.rp_bind_local.specs.Operations.{does_of};

use crate::expressions::{Literal, Scope, add_bool, add_cond, add_expr, name_at};
use crate::operations::{Operation, operation_at};
use crate::statements::add_statements;
use rp_body::Ranged;
use rp_deck_objects::OperationNames;
use rp_object::ObjectDeclaration;
use std::alloc::AllocError;
use std::fmt;

/// An object with the names of its operations.
#[derive(Clone, Copy)]
pub struct Named<'a> {
    pub name: &'a str,
    pub operations: &'a OperationNames,
}

/// What a function has for its argument and its result.
const VALUE_PROFILE: &str = "\
    \n        (Argument : Value_Of_This_Deck)\n         return Value_Of_This_Deck";

const TRUTH_PROFILE: &str = "\
    \n        (Argument : Value_Of_This_Deck)\n         return Boolean_Of_An_Object";
/// What a procedure and an entry have.
const PROFILE: &str = "\
    \n        (Argument : Value_Of_This_Deck;\n         Result   : out Value_Of_This_Deck)";

/// Adds a protected object.
pub fn add_object(
    text: &mut String,
    object: &Named<'_>,
    declaration: &ObjectDeclaration,
) -> Result<(), AllocError>
    ensures { IfOk result (λ _. string_bytes text.new ≡ string_bytes text.old
        ++ object_text object.now.name.now object.now.operations.now.entries declaration.now) }
{
    text.push_str("\n   protected ")?;
    add_object_name(text, object)?;
    let ceiling = declaration.ceiling;
    write!(text, "\n     with Priority => {ceiling}\n   is\n")?;
    add_declarations(text, object, declaration)?;
    text.push_str("   private\n")?;
    add_components(text, declaration)?;
    text.push_str("   end ")?;
    add_object_name(text, object)?;
    text.push_str(";\n\n   protected body ")?;
    add_object_name(text, object)?;
    text.push_str(" is\n")?;
    add_bodies(text, object, declaration)?;
    text.push_str("   end ")?;
    add_object_name(text, object)?;
    text.push_str(";\n")
}

/// Adds an object of a tally.
pub fn add_sum(text: &mut String, name: &str) -> Result<(), AllocError>
    ensures { IfOk result (λ _. string_bytes text.new ≡ string_bytes text.old ++ sum_text name.now) }
{
    let declaration = SumDeclaration { name };
    let body = SumBody { name };
    write!(text, "{declaration}")?;
    write!(text, "{body}")
}

/// What declares an object of a tally.
#[derive(Clone, Copy)]
struct SumDeclaration<'a> {
    name: &'a str,
}

impl fmt::Display for SumDeclaration<'_> {
    ghost output = { λ l. Some (sum_declaration l.name.now) };

    fn fmt<W: fmt::Write>(&self, f: &mut fmt::Formatter<W>) -> fmt::Result {
        let name = self.name;
        write!(
            f,
            "\n   protected {name}_On_This_Machine\n     with Priority => 30\n   is\n      procedure add\n        (Argument : Value_Of_This_Deck;\n         Result   : out Value_Of_This_Deck);\n   private\n      Whole_Component_sum : Exact_Whole_Number\n        range (-9223372036854775808) .. 9223372036854775807 :=\n        0;\n   end {name}_On_This_Machine;\n"
        )
    }
}

/// What an object of a tally does.
#[derive(Clone, Copy)]
struct SumBody<'a> {
    name: &'a str,
}

impl fmt::Display for SumBody<'_> {
    ghost output = { λ l. Some (sum_body l.name.now) };

    fn fmt<W: fmt::Write>(&self, f: &mut fmt::Formatter<W>) -> fmt::Result {
        let name = self.name;
        write!(
            f,
            "\n   protected body {name}_On_This_Machine is\n\n      procedure add\n        (Argument : Value_Of_This_Deck;\n         Result   : out Value_Of_This_Deck)\n      is\n      begin\n         Whole_Component_sum :=\n           (Whole_Component_sum\n           + Exact_Whole_Number (Argument));\n         Result := Value_Of_This_Deck\n           (Whole_Component_sum);\n      end add;\n   end {name}_On_This_Machine;\n"
        )
    }
}

/// Adds the name of the protected object.
fn add_object_name(text: &mut String, object: &Named<'_>) -> Result<(), AllocError>
    ensures { IfOk result (λ _. string_bytes text.new ≡ string_bytes text.old
        ++ unit_name object.now.name.now) }
{
    text.push_str(object.name)?;
    text.push_str("_On_This_Machine")
}

/// Adds what declares the operations.
fn add_declarations(
    text: &mut String,
    object: &Named<'_>,
    declaration: &ObjectDeclaration,
) -> Result<(), AllocError>
    ensures { IfOk result (λ _. string_bytes text.new ≡ string_bytes text.old
        ++ declarations_text declaration.now object.now.operations.now.entries) }
{
    for (name, operation) in object.operations.iter() {
        add_declaration(
            text,
            name,
            operation_at(&declaration.operations, *operation),
        )?;
    }
    Ok(())
}

/// Adds what declares an operation, if there is one.
fn add_declaration(
    text: &mut String,
    name: &str,
    operation: Option<Operation<'_>>,
) -> Result<(), AllocError>
    ensures { IfOk result (λ _. string_bytes text.new ≡ string_bytes text.old
        ++ declaration_text name.now (option_map does_of operation.entry)) }
{
    let Some(operation) = operation else {
        return Ok(());
    };
    add_head(text, name, &operation)?;
    add_queue(text, &operation)
}

/// Adds what an operation is called with.
fn add_head(text: &mut String, name: &str, operation: &Operation<'_>) -> Result<(), AllocError>
    ensures { IfOk result (λ _. string_bytes text.new ≡ string_bytes text.old
        ++ head_text name.now (does_of operation.now)) }
{
    text.push_str(word_of(operation))?;
    text.push_str(name)?;
    text.push_str(profile_of(operation))
}

/// The word that begins an operation.
fn word_of(operation: &Operation<'_>) -> &'static str
    ensures { result.now ≡ word_of (does_of operation.now) }
{
    match operation {
        Operation::Value(_) | Operation::Truth(_) => "      function ",
        Operation::Procedure(_) => "      procedure ",
        Operation::Entry(_) => "      entry ",
    }
}

/// What an operation is called with.
fn profile_of(operation: &Operation<'_>) -> &'static str
    ensures { result.now ≡ profile_of (does_of operation.now) }
{
    match operation {
        Operation::Value(_) => VALUE_PROFILE,
        Operation::Truth(_) => TRUTH_PROFILE,
        Operation::Procedure(_) | Operation::Entry(_) => PROFILE,
    }
}

/// Adds how many calls wait at most.
fn add_queue(text: &mut String, operation: &Operation<'_>) -> Result<(), AllocError>
    ensures { IfOk result (λ _. string_bytes text.new ≡ string_bytes text.old
        ++ queue_text (does_of operation.now)) }
{
    match operation {
        Operation::Entry(entry) => {
            let longest = entry.longest;
            write!(text, "\n        with Max_Queue_Length => {longest};\n")
        }
        _ => text.push_str(";\n"),
    }
}

/// Adds the components, with their ranges and first values.
fn add_components(text: &mut String, declaration: &ObjectDeclaration) -> Result<(), AllocError>
    ensures { IfOk result (λ _. string_bytes text.new ≡ string_bytes text.old
        ++ components_text declaration.now) }
{
    add_whole_components(text, declaration)?;
    add_truth_components(text, declaration)
}

/// Adds the whole-number components.
fn add_whole_components(
    text: &mut String,
    declaration: &ObjectDeclaration,
) -> Result<(), AllocError>
    ensures { IfOk result (λ _. string_bytes text.new ≡ string_bytes text.old
        ++ wholes_text declaration.now) }
{
    for number in 0..declaration.components.limits().ints {
        add_whole_component(text, declaration, number)?;
    }
    Ok(())
}

/// Adds the Boolean components.
fn add_truth_components(
    text: &mut String,
    declaration: &ObjectDeclaration,
) -> Result<(), AllocError>
    ensures { IfOk result (λ _. string_bytes text.new ≡ string_bytes text.old
        ++ truths_text declaration.now) }
{
    for number in 0..declaration.components.limits().bools {
        add_truth_component(text, declaration, number)?;
    }
    Ok(())
}

/// Adds the whole-number component of this number from 0.
fn add_whole_component(
    text: &mut String,
    declaration: &ObjectDeclaration,
    number: u8,
) -> Result<(), AllocError>
    ensures { IfOk result (λ _. string_bytes text.new ≡ string_bytes text.old
        ++ whole_text declaration.now number) }
{
    let Some(component) = declaration.components.int(number) else {
        return Ok(());
    };
    let line = WholeLine {
        name: name_at(&declaration.ints, number),
        component,
    };
    write!(text, "{line}")
}

/// A whole-number component with its range and its first value.
#[derive(Clone, Copy)]
struct WholeLine<'a> {
    name: &'a str,
    component: Ranged,
}

impl fmt::Display for WholeLine<'_> {
    ghost output = { λ l. Some (whole_line l.name.now l.component.low l.component.high
        l.component.value) };

    fn fmt<W: fmt::Write>(&self, f: &mut fmt::Formatter<W>) -> fmt::Result {
        let name = self.name;
        let Ranged { low, high, value } = self.component;
        let range = Range {
            low: Literal { number: low },
            high: Literal { number: high },
            value: Literal { number: value },
        };
        write!(f, "      Whole_Component_{name}{range}")
    }
}

/// Adds the Boolean component of this number from 0.
fn add_truth_component(
    text: &mut String,
    declaration: &ObjectDeclaration,
    number: u8,
) -> Result<(), AllocError>
    ensures { IfOk result (λ _. string_bytes text.new ≡ string_bytes text.old
        ++ truth_text declaration.now number) }
{
    let Some(value) = declaration.components.bool(number) else {
        return Ok(());
    };
    let line = TruthLine {
        name: name_at(&declaration.bools, number),
        value,
    };
    write!(text, "{line}")
}

/// A Boolean component with its first value.
#[derive(Clone, Copy)]
struct TruthLine<'a> {
    name: &'a str,
    value: bool,
}

impl fmt::Display for TruthLine<'_> {
    ghost output = { λ l. Some (truth_line l.name.now l.value) };

    fn fmt<W: fmt::Write>(&self, f: &mut fmt::Formatter<W>) -> fmt::Result {
        let name = self.name;
        if self.value {
            write!(
                f,
                "      Truth_Component_{name} : Standard.Boolean :=\n        Component_Is_True;\n"
            )
        } else {
            write!(
                f,
                "      Truth_Component_{name} : Standard.Boolean :=\n        Component_Is_False;\n"
            )
        }
    }
}

/// The range and the first value of a component.
#[derive(Clone, Copy)]
struct Range {
    low: Literal,
    high: Literal,
    value: Literal,
}

impl fmt::Display for Range {
    ghost output = { λ l. Some (ends_text l.low.number l.high.number l.value.number) };

    fn fmt<W: fmt::Write>(&self, f: &mut fmt::Formatter<W>) -> fmt::Result {
        let Range { low, high, value } = *self;
        write!(
            f,
            " : Exact_Whole_Number\n        range {low} .. {high} :=\n        {value};\n"
        )
    }
}

/// Where the expressions of an object are.
fn scope_of(object: &ObjectDeclaration, in_function: bool) -> Scope<'_>
    ensures { within result ≡ scope_of object.now in_function }
{
    Scope {
        object,
        in_function,
        is_inner: false,
    }
}

/// Adds the bodies of the operations.
fn add_bodies(
    text: &mut String,
    object: &Named<'_>,
    declaration: &ObjectDeclaration,
) -> Result<(), AllocError>
    ensures { IfOk result (λ _. string_bytes text.new ≡ string_bytes text.old
        ++ bodies_text declaration.now object.now.operations.now.entries) }
{
    for (name, operation) in object.operations.iter() {
        add_whole(
            text,
            declaration,
            name,
            operation_at(&declaration.operations, *operation),
        )?;
    }
    Ok(())
}

/// Adds an operation with its body, if there is one.
fn add_whole(
    text: &mut String,
    declaration: &ObjectDeclaration,
    name: &str,
    operation: Option<Operation<'_>>,
) -> Result<(), AllocError>
    ensures { IfOk result (λ _. string_bytes text.new ≡ string_bytes text.old
        ++ operation_text declaration.now name.now (option_map does_of operation.entry)) }
{
    let Some(operation) = operation else {
        return Ok(());
    };
    text.push_str("\n")?;
    add_head(text, name, &operation)?;
    add_body(text, declaration, &operation)?;
    text.push_str("      end ")?;
    text.push_str(name)?;
    text.push_str(";\n")
}

/// Adds what an operation does.
fn add_body(
    text: &mut String,
    declaration: &ObjectDeclaration,
    operation: &Operation<'_>,
) -> Result<(), AllocError>
    ensures { IfOk result (λ _. string_bytes text.new ≡ string_bytes text.old
        ++ body_text declaration.now (does_of operation.now)) }
{
    let in_function = scope_of(declaration, true);
    let in_body = scope_of(declaration, false);
    match operation {
        Operation::Value(expr) => {
            text.push_str(
                "\n      is\n      begin\n         return Value_Of_This_Deck\n           (",
            )?;
            add_expr(text, &in_function, expr)?;
            text.push_str(");\n")
        }
        Operation::Truth(cond) => {
            text.push_str("\n      is\n      begin\n         return\n           ")?;
            add_cond(text, &in_function, cond)?;
            text.push_str(";\n")
        }
        Operation::Procedure(body) => {
            text.push_str("\n      is\n      begin\n         Result := 0;\n")?;
            add_statements(text, &in_body, 0, body)
        }
        Operation::Entry(entry) => {
            text.push_str("\n        when ")?;
            add_bool(text, &in_body, entry.barrier)?;
            text.push_str("\n      is\n      begin\n         Result := 0;\n")?;
            add_statements(text, &in_body, 0, &entry.body)
        }
    }
}
