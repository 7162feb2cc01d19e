//! Expressions and conditions.

ghost use Rattle.std.specs.Prelude.{◌≡◌, ◌+◌, ◌*◌, ◌^◌, ◌≤◌, ◌<◌, pos, IsTrue, SomeIff, MatchOption, unsigned_abs};
ghost use Rattle.rp_body.specs.Store.{limits_of};
ghost use Rattle.rp_body.specs.Expressions.{value_of, truth_of, fits_64};
ghost use Rattle.rp_body.specs.Check.{expr_nodes, cond_nodes, expr_names, cond_names, expr_fits, cond_fits};

use crate::components::{Components, Limits};

/// The most nodes that an expression or a condition has.
pub const MOST_EXPRESSION_NODES: u8 = 32;

/// An expression over whole numbers.
#[derive(Drop)]
pub enum Expr {
    /// A number.
    Number(i64),
    /// The argument of the call.
    Arg,
    /// The out value.
    Out,
    /// A whole-number component, by its name.
    Int(u8),
    /// A sum.
    Add(Box<Expr>, Box<Expr>),
    /// The first less the second.
    Sub(Box<Expr>, Box<Expr>),
}

/// A condition over whole numbers and Booleans.
#[derive(Drop)]
pub enum Cond {
    /// True or False.
    Constant(bool),
    /// A Boolean component, by its name.
    Bool(u8),
    /// The first is below the second.
    Less(Expr, Expr),
    /// The first is at most the second.
    LessOrEqual(Expr, Expr),
    /// Both are the same number.
    Equal(Expr, Expr),
    /// The condition does not hold.
    Not(Box<Cond>),
    /// Both hold.
    And(Box<Cond>, Box<Cond>),
    /// One of them holds, or both.
    Or(Box<Cond>, Box<Cond>),
}

impl Expr {
    /// What is left of n nodes once this expression has taken its own, if it has no more.
    fn nodes_left(&self, left: u8) -> Option<u8>
        ensures { MatchOption result (left < expr_nodes self.now)
            (λ rest. rest + expr_nodes self.now ≡ left) }
    {
        match self {
            Expr::Number(_) | Expr::Arg | Expr::Out | Expr::Int(_) => left.checked_sub(1),
            Expr::Add(a, b) | Expr::Sub(a, b) => {
                b.nodes_left(a.nodes_left(left.checked_sub(1)?)?)
            }
        }
    }

    /// Whether it names only components that are counted.
    fn names(&self, limits: &Limits) -> bool
        ensures { result ≡ expr_names limits.now self.now }
    {
        match self {
            Expr::Number(_) | Expr::Arg | Expr::Out => true,
            Expr::Int(name) => *name < limits.ints,
            Expr::Add(a, b) | Expr::Sub(a, b) => a.names(limits) && b.names(limits),
        }
    }

    /// Whether it has at most 32 nodes and names only components that are counted.
    pub fn fits(&self, limits: &Limits) -> bool
        ensures { result ≡ expr_fits limits.now self.now }
    {
        self.nodes_left(MOST_EXPRESSION_NODES).is_some() && self.names(limits)
    }

    /// Its exact value.
    pub(crate) fn exact(&self, components: &Components, arg: i64, out: i64) -> i128
        requires nodes { expr_nodes self.now ≤ 32 }
        requires names { IsTrue (expr_names (limits_of components.now) self.now) }
        ensures value { result ≡ value_of self.now components.now arg out }
        ensures bounded { unsigned_abs result ≤ expr_nodes self.now * 2 ^ 63 }
    {
        match self {
            Expr::Number(number) => i128::from(*number),
            Expr::Arg => i128::from(arg),
            Expr::Out => i128::from(out),
            Expr::Int(name) => i128::from(components.int_value(*name)),
            Expr::Add(a, b) => a.exact(components, arg, out) + b.exact(components, arg, out),
            Expr::Sub(a, b) => a.exact(components, arg, out) - b.exact(components, arg, out),
        }
    }
}

impl Cond {
    /// What is left of n nodes once this condition has taken its own, if it has no more.
    fn nodes_left(&self, left: u8) -> Option<u8>
        ensures { MatchOption result (left < cond_nodes self.now)
            (λ rest. rest + cond_nodes self.now ≡ left) }
    {
        match self {
            Cond::Constant(_) | Cond::Bool(_) => left.checked_sub(1),
            Cond::Less(a, b) | Cond::LessOrEqual(a, b) | Cond::Equal(a, b) => {
                b.nodes_left(a.nodes_left(left.checked_sub(1)?)?)
            }
            Cond::Not(a) => a.nodes_left(left.checked_sub(1)?),
            Cond::And(a, b) | Cond::Or(a, b) => {
                b.nodes_left(a.nodes_left(left.checked_sub(1)?)?)
            }
        }
    }

    /// Whether it names only components that are counted.
    fn names(&self, limits: &Limits) -> bool
        ensures { result ≡ cond_names limits.now self.now }
    {
        match self {
            Cond::Constant(_) => true,
            Cond::Bool(name) => *name < limits.bools,
            Cond::Less(a, b) | Cond::LessOrEqual(a, b) | Cond::Equal(a, b) => {
                a.names(limits) && b.names(limits)
            }
            Cond::Not(a) => a.names(limits),
            Cond::And(a, b) | Cond::Or(a, b) => a.names(limits) && b.names(limits),
        }
    }

    /// Whether it has at most 32 nodes and names only components that are counted.
    pub fn fits(&self, limits: &Limits) -> bool
        ensures { result ≡ cond_fits limits.now self.now }
    {
        self.nodes_left(MOST_EXPRESSION_NODES).is_some() && self.names(limits)
    }

    /// Whether it holds.
    pub(crate) fn holds(&self, components: &Components, arg: i64, out: i64) -> bool
        requires nodes { cond_nodes self.now ≤ 32 }
        requires names { IsTrue (cond_names (limits_of components.now) self.now) }
        ensures { result ≡ truth_of self.now components.now arg out }
    {
        match self {
            Cond::Constant(truth) => *truth,
            Cond::Bool(name) => components.bool_value(*name),
            Cond::Less(a, b) => a.exact(components, arg, out) < b.exact(components, arg, out),
            Cond::LessOrEqual(a, b) => {
                a.exact(components, arg, out) <= b.exact(components, arg, out)
            }
            Cond::Equal(a, b) => a.exact(components, arg, out) == b.exact(components, arg, out),
            Cond::Not(a) => !a.holds(components, arg, out),
            Cond::And(a, b) => { a.holds(components, arg, out) && b.holds(components, arg, out) }
            Cond::Or(a, b) => a.holds(components, arg, out) || b.holds(components, arg, out),
        }
    }
}

/// The number in 64 signed bits, if it fits.
pub(crate) fn in_64_bits(number: i128) -> Option<i64>
    ensures { SomeIff result (IsTrue (fits_64 number)) number }
{
    if number < i128::from(i64::MIN) || i128::from(i64::MAX) < number {
        None
    } else {
        Some(number as i64)
    }
}

/// The value of an expression where the out value is 0, or `None` where it leaves 64 signed bits.
/// No sum inside it overflows. It takes no memory.
pub fn value(expr: &Expr, components: &Components, arg: i64) -> Option<i64>
    requires { IsTrue (expr_fits (limits_of components.now) expr.now) }
    ensures { let exact = value_of expr.now components.now arg (pos 0) in
        SomeIff result (IsTrue (fits_64 exact)) exact }
{
    in_64_bits(expr.exact(components, arg, 0))
}

/// Whether a condition holds where the out value is 0. It takes no memory.
pub fn truth(cond: &Cond, components: &Components, arg: i64) -> bool
    requires { IsTrue (cond_fits (limits_of components.now) cond.now) }
    ensures { result ≡ truth_of cond.now components.now arg (pos 0) }
{
    cond.holds(components, arg, 0)
}
