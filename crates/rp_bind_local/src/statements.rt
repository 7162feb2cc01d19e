//! The statements of a body.

ghost use Rattle.std.specs.Prelude.{◌≡◌, ◌++◌, IfOk, string_bytes};
ghost use Rattle.rp_bind_local.specs.Expressions.{within};
ghost use Rattle.rp_bind_local.specs.Statements.{blanks, else_text, indent, out_text, put_text, set_text, statement_text, statements_text, test_text, then_text};

use crate::expressions::{Scope, add_bool, add_cond, add_expr, add_int, margin_of};
use rp_body::{Cond, Expr, Stmt};
use std::alloc::AllocError;

/// Adds statements that are within this many others.
#[cycle(adding)]
pub fn add_statements(
    text: &mut String,
    scope: &Scope<'_>,
    depth: u8,
    statements: &[Stmt],
) -> Result<(), AllocError>
    ensures { IfOk result (λ _. string_bytes text.new ≡ string_bytes text.old
        ++ statements_text (within scope.now) statements.now depth) }
{
    for statement in statements {
        add_statement(text, scope, depth, statement)?;
    }
    Ok(())
}

/// Adds a statement that is within this many others.
#[cycle(adding)]
fn add_statement(
    text: &mut String,
    scope: &Scope<'_>,
    depth: u8,
    statement: &Stmt,
) -> Result<(), AllocError>
    ensures { IfOk result (λ _. string_bytes text.new ≡ string_bytes text.old
        ++ statement_text (within scope.now) statement.now depth) }
{
    let within = Scope {
        is_inner: depth > 0,
        ..*scope
    };
    add_indent(text, depth)?;
    match statement {
        Stmt::Set(name, expr) => add_set(text, &within, *name, expr),
        Stmt::Put(name, cond) => add_put(text, &within, *name, cond),
        Stmt::Out(expr) => add_out(text, &within, expr),
        Stmt::If(cond, first, second) => {
            add_test(text, &within, depth, cond)?;
            add_then(text, scope, depth, first)?;
            add_else(text, scope, depth, second)?;
            add_indent(text, depth)?;
            text.push_str("end if;\n")
        }
    }
}

/// Adds the statements that run if a condition holds.
#[cycle(adding)]
fn add_then(
    text: &mut String,
    scope: &Scope<'_>,
    depth: u8,
    statements: &[Stmt],
) -> Result<(), AllocError>
    ensures { IfOk result (λ _. string_bytes text.new ≡ string_bytes text.old
        ++ then_text (within scope.now) statements.now depth) }
{
    if statements.is_empty() {
        add_indent(text, depth)?;
        return text.push_str("   null;\n");
    }
    add_statements(text, scope, depth.saturating_add(1), statements)
}

/// Adds the statements that run if it does not, if there are any.
#[cycle(adding)]
fn add_else(
    text: &mut String,
    scope: &Scope<'_>,
    depth: u8,
    statements: &[Stmt],
) -> Result<(), AllocError>
    ensures { IfOk result (λ _. string_bytes text.new ≡ string_bytes text.old
        ++ else_text (within scope.now) statements.now depth) }
{
    if statements.is_empty() {
        return Ok(());
    }
    add_indent(text, depth)?;
    text.push_str("else\n")?;
    add_statements(text, scope, depth.saturating_add(1), statements)
}

/// Adds an assignment to a whole-number component.
fn add_set(text: &mut String, scope: &Scope<'_>, name: u8, expr: &Expr) -> Result<(), AllocError>
    ensures { IfOk result (λ _. string_bytes text.new ≡ string_bytes text.old
        ++ set_text (within scope.now) name expr.now) }
{
    add_int(text, scope, name)?;
    text.push_str(" :=")?;
    text.push_str(margin_of(scope))?;
    add_expr(text, scope, expr)?;
    text.push_str(";\n")
}

/// Adds an assignment to a Boolean component.
fn add_put(text: &mut String, scope: &Scope<'_>, name: u8, cond: &Cond) -> Result<(), AllocError>
    ensures { IfOk result (λ _. string_bytes text.new ≡ string_bytes text.old
        ++ put_text (within scope.now) name cond.now) }
{
    add_bool(text, scope, name)?;
    text.push_str(" :=")?;
    text.push_str(margin_of(scope))?;
    add_cond(text, scope, cond)?;
    text.push_str(";\n")
}

/// Adds an assignment to the result.
fn add_out(text: &mut String, scope: &Scope<'_>, expr: &Expr) -> Result<(), AllocError>
    ensures { IfOk result (λ _. string_bytes text.new ≡ string_bytes text.old
        ++ out_text (within scope.now) expr.now) }
{
    text.push_str("Result := Value_Of_This_Deck")?;
    text.push_str(margin_of(scope))?;
    text.push_str("(")?;
    add_expr(text, scope, expr)?;
    text.push_str(");\n")
}

/// Adds the condition of a statement.
fn add_test(text: &mut String, scope: &Scope<'_>, depth: u8, cond: &Cond) -> Result<(), AllocError>
    ensures { IfOk result (λ _. string_bytes text.new ≡ string_bytes text.old
        ++ test_text (within scope.now) cond.now depth) }
{
    text.push_str("if ")?;
    add_cond(text, scope, cond)?;
    text.push_str("\n")?;
    add_indent(text, depth)?;
    text.push_str("then\n")
}

/// Adds the blanks before a statement that is within this many others.
fn add_indent(text: &mut String, depth: u8) -> Result<(), AllocError>
    ensures { IfOk result (λ _. string_bytes text.new ≡ string_bytes text.old ++ indent depth) }
{
    text.push_str("         ")?;
    add_blanks(text, depth)
}

/// Adds three blanks for each statement that contains a statement.
fn add_blanks(text: &mut String, depth: u8) -> Result<(), AllocError>
    ensures { IfOk result (λ _. string_bytes text.new ≡ string_bytes text.old ++ blanks depth) }
{
    for number in 0..depth {
        text.push_str("   ")?;
    }
    Ok(())
}
