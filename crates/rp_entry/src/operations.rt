//! The operations of a protected object.

ghost use Rattle.std.specs.Prelude.{◌≡◌, ◌↔◌, IsTrue, List, option_copied};
ghost use Rattle.std.specs.List.{All};
ghost use Rattle.rp_body.specs.Store.{limits_of};
ghost use Rattle.rp_body.specs.Check.{KeepsLimits};
ghost use Rattle.rp_entry.specs.Operations.{of_index, FunctionFits, EntryFits, OperationsFit};
ghost use Rattle.rp_entry.specs.Replies.{function_reply};

use rp_base::{MOST_ENTRIES, MOST_OPERATIONS, Reply};
use rp_body::{Components, Cond, Expr, Limits, Stmt, check, truth, value};

/// The longest queue that an entry may have.
pub const LONGEST_QUEUE: u8 = 8;

/// A function: one expression or one condition, which reads the components and changes none.
#[derive(Drop)]
pub enum Function {
    /// The value of the expression.
    Value(Expr),
    /// Whether the condition holds.
    Truth(Cond),
}

/// An entry with a simple barrier.
#[derive(Drop)]
pub struct Entry {
    /// The name of the Boolean component that opens the entry where it is True.
    pub barrier: u8,
    /// The most calls that wait at the entry, 1 to 8 (Ada Reference Manual, section D.4).
    pub longest: u8,
    /// What an accepted call runs.
    pub body: Vec<Stmt>,
}

/// The operations of an object. Functions are named by their indices from 1 in this order, and so
/// are procedures and entries.
#[derive(Drop)]
pub struct Operations {
    /// The functions.
    pub functions: Vec<Function>,
    /// The bodies of the procedures.
    pub procedures: Vec<Vec<Stmt>>,
    /// The entries, of which the first open one that has a caller is served first.
    pub entries: Vec<Entry>,
}

impl Function {
    /// Whether its expression or condition keeps the limits of the language.
    fn fits(&self, limits: &Limits) -> bool
        ensures { IsTrue result ↔ FunctionFits limits.now self.now }
    {
        match self {
            Function::Value(expr) => expr.fits(limits),
            Function::Truth(cond) => cond.fits(limits),
        }
    }

    /// The reply to a call.
    pub(crate) fn reply(&self, components: &Components, arg: i64) -> Reply
        requires { FunctionFits (limits_of components.now) self.now }
        ensures { result ≡ function_reply self.now components.now arg }
    {
        match self {
            Function::Value(expr) => match value(expr, components, arg) {
                Some(exact) => Reply::Value(exact),
                None => Reply::ConstraintError,
            },
            Function::Truth(cond) => Reply::Truth(truth(cond, components, arg)),
        }
    }
}

impl Entry {
    /// Whether the barrier names a Boolean that is counted, the longest queue is 1 to 8 calls and
    /// the body keeps the limits.
    fn fits(&self, limits: &Limits) -> bool
        ensures { IsTrue result ↔ EntryFits limits.now self.now }
    {
        self.barrier < limits.bools
            && matches!(self.longest, 1..=LONGEST_QUEUE)
            && check(&self.body, limits)
    }
}

impl Operations {
    /// Whether there are at most 8 functions, 8 procedures and 4 entries, and each function, each
    /// body and each entry keep the limits.
    pub fn fit(&self, limits: &Limits) -> bool
        ensures { IsTrue result ↔ OperationsFit limits.now self.now }
    {
        self.functions.len() <= usize::from(MOST_OPERATIONS)
            && self.procedures.len() <= usize::from(MOST_OPERATIONS)
            && self.entries.len() <= usize::from(MOST_ENTRIES)
            && functions_fit(&self.functions, limits)
            && procedures_fit(&self.procedures, limits)
            && entries_fit(&self.entries, limits)
    }
}

/// Whether each function keeps the limits.
fn functions_fit(functions: &[Function], limits: &Limits) -> bool
    ensures { IsTrue result ↔ All (FunctionFits limits.now) functions.now }
{
    for function in functions {
        if !function.fits(limits) {
            return false;
        }
    }
    true
}

/// Whether each body keeps the limits.
fn procedures_fit(procedures: &[Vec<Stmt>], limits: &Limits) -> bool
    ensures { IsTrue result ↔ All (λ body. KeepsLimits limits.now body.items) procedures.now }
{
    for body in procedures {
        if !check(body, limits) {
            return false;
        }
    }
    true
}

/// Whether each entry keeps the limits.
fn entries_fit(entries: &[Entry], limits: &Limits) -> bool
    ensures { IsTrue result ↔ All (EntryFits limits.now) entries.now }
{
    for entry in entries {
        if !entry.fits(limits) {
            return false;
        }
    }
    true
}

/// The one of this index, counted from 1, or `None` where there is none. Its cost is constant.
pub fn of_index<T>(items: &[T], index: u8) -> Option<&T>
    ensures { option_copied result ≡ of_index items.now index }
{
    items.get(usize::from(index.checked_sub(1)?))
}
