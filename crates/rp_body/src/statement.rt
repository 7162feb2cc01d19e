//! Statements, and the bodies that are made of them.

ghost use Rattle.std.specs.Prelude.{◌≡◌, ◌↔◌, ◌+◌, ◌≤◌, ◌<◌, IsTrue, MatchOption};
ghost use Rattle.rp_body.specs.Store.{limits_of};
ghost use Rattle.rp_body.specs.Meaning.{body_effect, effects_of, effect_of};
ghost use Rattle.rp_body.specs.Check.{KeepsLimits, stmt_count, statement_count, stmt_depth, depth_of, stmt_fits, body_fits};

use crate::components::{Components, Limits};
use crate::expression::{Cond, Expr, in_64_bits};

/// The most statements that a body has, those inside its `if`s too.
pub const MOST_STATEMENTS: u8 = 64;

/// The greatest depth of a body.
pub const MOST_DEPTH: u8 = 8;

/// A statement of a body.
#[derive(Drop)]
pub enum Stmt {
    /// Gives the whole-number component of this name a value, or raises Constraint_Error where the
    /// value lies outside the component's range.
    Set(u8, Expr),
    /// Gives the Boolean component of this name a value.
    Put(u8, Cond),
    /// Gives the out value, or raises Constraint_Error outside 64 signed bits.
    Out(Expr),
    /// Runs the first statements where the condition holds, and else the second ones.
    If(Cond, Vec<Stmt>, Vec<Stmt>),
}

/// How a body ended.
#[derive(Clone, Copy)]
pub enum Outcome {
    /// With this out value.
    Out(i64),
    /// With Constraint_Error.
    Raised,
}

impl Stmt {
    /// Runs the statement.
    #[cycle(running)]
    fn run(&self, components: &mut Components, arg: i64, out: i64) -> Outcome
        requires { IsTrue (stmt_fits (limits_of components.old) self.now) }
        ensures effect { (components.new, result) ≡ effect_of arg self.now components.old out }
        ensures counts { limits_of components.new ≡ limits_of components.old }
    {
        match self {
            Stmt::Set(name, expr) => {
                let value = expr.exact(components, arg, out);
                if components.set_int(*name, value) {
                    Outcome::Out(out)
                } else {
                    Outcome::Raised
                }
            }
            Stmt::Put(name, cond) => {
                let value = cond.holds(components, arg, out);
                components.set_bool(*name, value);
                Outcome::Out(out)
            }
            Stmt::Out(expr) => match in_64_bits(expr.exact(components, arg, out)) {
                Some(value) => Outcome::Out(value),
                None => Outcome::Raised,
            },
            Stmt::If(cond, first, second) => {
                if cond.holds(components, arg, out) {
                    run_from(first, components, arg, out)
                } else {
                    run_from(second, components, arg, out)
                }
            }
        }
    }

    /// What is left of n statements once this one has taken its own, if it has no more.
    #[cycle(counting)]
    fn count_left(&self, left: u8) -> Option<u8>
        ensures { MatchOption result (left < stmt_count self.now)
            (λ rest. rest + stmt_count self.now ≡ left) }
    {
        match self {
            Stmt::Set(..) | Stmt::Put(..) | Stmt::Out(_) => left.checked_sub(1),
            Stmt::If(_, first, second) => {
                count_left(second, count_left(first, left.checked_sub(1)?)?)
            }
        }
    }

    /// Whether it is at most this deep.
    #[cycle(nesting)]
    fn is_within(&self, depth: u8) -> bool
        ensures { IsTrue result ↔ (stmt_depth self.now ≤ depth) }
    {
        if depth == 0 {
            return false;
        }
        match self {
            Stmt::Set(..) | Stmt::Put(..) | Stmt::Out(_) => true,
            Stmt::If(_, first, second) => all_within(first, depth - 1)
                && all_within(second, depth - 1),
        }
    }

    /// Whether its expressions and conditions fit, and its names are counted.
    #[cycle(fitting)]
    fn fits(&self, limits: &Limits) -> bool
        ensures { result ≡ stmt_fits limits.now self.now }
    {
        match self {
            Stmt::Set(name, expr) => *name < limits.ints && expr.fits(limits),
            Stmt::Put(name, cond) => *name < limits.bools && cond.fits(limits),
            Stmt::Out(expr) => expr.fits(limits),
            Stmt::If(cond, first, second) => {
                cond.fits(limits) && all_fit(first, limits) && all_fit(second, limits)
            }
        }
    }
}

/// What is left of n statements once those of the body have been taken, if it has no more.
#[cycle(counting)]
fn count_left(body: &[Stmt], most: u8) -> Option<u8>
    ensures { MatchOption result (most < statement_count body.now)
        (λ rest. rest + statement_count body.now ≡ most) }
{
    let mut left = most;
    for statement in body {
        left = statement.count_left(left)?;
    }
    Some(left)
}

/// Whether the body is at most this deep.
#[cycle(nesting)]
fn all_within(body: &[Stmt], depth: u8) -> bool
    ensures { IsTrue result ↔ (depth_of body.now ≤ depth) }
{
    for statement in body {
        if !statement.is_within(depth) {
            return false;
        }
    }
    true
}

/// Whether each statement fits.
#[cycle(fitting)]
fn all_fit(body: &[Stmt], limits: &Limits) -> bool
    ensures { result ≡ body_fits limits.now body.now }
{
    for statement in body {
        if !statement.fits(limits) {
            return false;
        }
    }
    true
}

/// Whether the body keeps the limits of the language and names only components that are counted: at
/// most 64 statements, at most 8 deep, each expression and each condition of at most 32 nodes. It
/// takes no memory, and little stack whatever the body.
pub fn check(body: &[Stmt], limits: &Limits) -> bool
    // claim: A body is right exactly if it keeps its limits and names what is declared
    ensures { IsTrue result ↔ KeepsLimits limits.now body.now }
{
    count_left(body, MOST_STATEMENTS).is_some()
        && all_within(body, MOST_DEPTH)
        && all_fit(body, limits)
}

/// Runs statements in order from an out value, until one raises.
#[cycle(running)]
fn run_from(body: &[Stmt], components: &mut Components, arg: i64, start: i64) -> Outcome
    requires { IsTrue (body_fits (limits_of components.old) body.now) }
    ensures effect { (components.new, result) ≡ effects_of arg body.now components.old start }
    ensures counts { limits_of components.new ≡ limits_of components.old }
{
    let mut out = start;
    for statement in body {
        match statement.run(components, arg, out) {
            Outcome::Out(next) => out = next,
            Outcome::Raised => return Outcome::Raised,
        }
    }
    Outcome::Out(out)
}

/// Runs a body on the components of its object. The out value is 0 at first. Where a statement
/// raises Constraint_Error the body ends, and the assignments made before stay. It takes no memory.
pub fn run(body: &[Stmt], components: &mut Components, arg: i64) -> Outcome
    requires { KeepsLimits (limits_of components.old) body.now }
    // claim (effect): A body runs as its meaning says: statements in order, assignments before an
    //   exception kept
    ensures effect { (components.new, result) ≡ body_effect body.now arg components.old }
    ensures counts { limits_of components.new ≡ limits_of components.old }
{
    run_from(body, components, arg, 0)
}
