//! Expressions and conditions, which have brackets of their own: each operand begins a line, so that
//! no line is longer than 79 letters.

ghost use Rattle.std.specs.Prelude.{◌≡◌, ◌++◌, IfOk, Some, string_bytes};
ghost use Rattle.rp_bind_local.specs.Expressions.{bool_text, comparison, cond_text, constant_text, expr_text, int_text, margin_of, name_at, number_text, out_of, within};

use rp_body::{Cond, Expr};
use rp_object::ObjectDeclaration;
use std::alloc::AllocError;
use std::fmt;

/// Where an expression is.
#[derive(Clone, Copy)]
pub struct Scope<'a> {
    /// Whose components it names.
    pub object: &'a ObjectDeclaration,
    /// Whether it is a function's, whose out value is 0.
    pub in_function: bool,
    /// Whether it is one of a statement that another contains.
    pub is_inner: bool,
}

/// What begins a line of an expression. Its place does not depend on how many statements contain it,
/// so that the longest line has 79 letters.
pub fn margin_of(scope: &Scope<'_>) -> &'static str
    ensures { result.now ≡ margin_of (within scope.now) }
{
    if scope.is_inner {
        "\n              "
    } else {
        "\n           "
    }
}

/// The out value.
fn out_of(scope: &Scope<'_>) -> &'static str
    ensures { result.now ≡ out_of (within scope.now) }
{
    if scope.in_function {
        "0"
    } else {
        "Exact_Whole_Number (Result)"
    }
}

/// Adds an expression.
pub fn add_expr(text: &mut String, scope: &Scope<'_>, expr: &Expr) -> Result<(), AllocError>
    ensures { IfOk result (λ _. string_bytes text.new ≡ string_bytes text.old
        ++ expr_text (within scope.now) expr.now) }
{
    match expr {
        Expr::Number(number) => add_number(text, *number),
        Expr::Arg => text.push_str("Exact_Whole_Number (Argument)"),
        Expr::Out => text.push_str(out_of(scope)),
        Expr::Int(name) => add_int(text, scope, *name),
        Expr::Add(a, b) => {
            text.push_str("(")?;
            add_expr(text, scope, a)?;
            add_operator(text, scope, "+ ")?;
            add_expr(text, scope, b)?;
            text.push_str(")")
        }
        Expr::Sub(a, b) => {
            text.push_str("(")?;
            add_expr(text, scope, a)?;
            add_operator(text, scope, "- ")?;
            add_expr(text, scope, b)?;
            text.push_str(")")
        }
    }
}

/// Adds a condition.
pub fn add_cond(text: &mut String, scope: &Scope<'_>, cond: &Cond) -> Result<(), AllocError>
    ensures { IfOk result (λ _. string_bytes text.new ≡ string_bytes text.old
        ++ cond_text (within scope.now) cond.now) }
{
    match cond {
        Cond::Constant(value) => text.push_str(constant_text(*value)),
        Cond::Bool(name) => add_bool(text, scope, *name),
        Cond::Less(a, b) => add_comparison(text, scope, "< ", a, b),
        Cond::LessOrEqual(a, b) => add_comparison(text, scope, "<= ", a, b),
        Cond::Equal(a, b) => add_comparison(text, scope, "= ", a, b),
        Cond::Not(a) => {
            text.push_str("(not")?;
            add_operator(text, scope, "")?;
            add_cond(text, scope, a)?;
            text.push_str(")")
        }
        Cond::And(a, b) => {
            text.push_str("(")?;
            add_cond(text, scope, a)?;
            add_operator(text, scope, "and ")?;
            add_cond(text, scope, b)?;
            text.push_str(")")
        }
        Cond::Or(a, b) => {
            text.push_str("(")?;
            add_cond(text, scope, a)?;
            add_operator(text, scope, "or ")?;
            add_cond(text, scope, b)?;
            text.push_str(")")
        }
    }
}

/// Adds a comparison of two expressions.
fn add_comparison(
    text: &mut String,
    scope: &Scope<'_>,
    operator: &str,
    a: &Expr,
    b: &Expr,
) -> Result<(), AllocError>
    ensures { IfOk result (λ _. string_bytes text.new ≡ string_bytes text.old
        ++ comparison (within scope.now) operator.now a.now b.now) }
{
    text.push_str("(")?;
    add_expr(text, scope, a)?;
    add_operator(text, scope, operator)?;
    add_expr(text, scope, b)?;
    text.push_str(")")
}

/// Adds an operator at the beginning of a line.
fn add_operator(text: &mut String, scope: &Scope<'_>, operator: &str) -> Result<(), AllocError>
    ensures { IfOk result (λ _. string_bytes text.new ≡ string_bytes text.old
        ++ (margin_of (within scope.now) ++ operator.now)) }
{
    text.push_str(margin_of(scope))?;
    text.push_str(operator)
}

/// Adds a number: one below 0 is in brackets.
fn add_number(text: &mut String, number: i64) -> Result<(), AllocError>
    ensures { IfOk result (λ _. string_bytes text.new ≡ string_bytes text.old ++ number_text number) }
{
    let literal = Literal { number };
    write!(text, "{literal}")
}

/// A number as Ada has it within an expression.
#[derive(Clone, Copy)]
pub struct Literal {
    pub number: i64,
}

impl fmt::Display for Literal {
    ghost output = { λ l. Some (number_text l.number) };

    fn fmt<W: fmt::Write>(&self, f: &mut fmt::Formatter<W>) -> fmt::Result {
        let number = self.number;
        if number < 0 {
            write!(f, "({number})")
        } else {
            write!(f, "{number}")
        }
    }
}

/// The constant of this value.
fn constant_text(value: bool) -> &'static str
    ensures { result.now ≡ constant_text value }
{
    if value {
        "Component_Is_True"
    } else {
        "Component_Is_False"
    }
}

/// Adds the whole-number component of this number from 0.
pub fn add_int(text: &mut String, scope: &Scope<'_>, name: u8) -> Result<(), AllocError>
    ensures { IfOk result (λ _. string_bytes text.new ≡ string_bytes text.old
        ++ int_text (within scope.now) name) }
{
    text.push_str("Whole_Component_")?;
    text.push_str(name_at(&scope.object.ints, name))
}

/// Adds the Boolean component of this number from 0.
pub fn add_bool(text: &mut String, scope: &Scope<'_>, name: u8) -> Result<(), AllocError>
    ensures { IfOk result (λ _. string_bytes text.new ≡ string_bytes text.old
        ++ bool_text (within scope.now) name) }
{
    text.push_str("Truth_Component_")?;
    text.push_str(name_at(&scope.object.bools, name))
}

/// The name of this number.
pub fn name_at(names: &[String], name: u8) -> &str
    ensures { result.now ≡ name_at names.now name }
{
    match names.get(usize::from(name)) {
        Some(text) => text,
        None => "",
    }
}
