use crate::building::{
    add, and, components, expect_answers, expect_at, expect_eq, number_in, one, shared, two,
};
use rp_base::Reply;
use rp_body::{Cond, Expr, Ranged, Stmt};
use rp_entry::*;
use std::alloc::Global;
use std::process::Abort;

/// An index at which the gate has no procedure.
const ABSENT: u8 = 3;

/// A number from 0 to 4 at this value.
fn up_to_4(value: i64) -> Ranged {
    Ranged {
        low: 0,
        high: 4,
        value,
    }
}

/// Puts up.
fn put(up: bool) -> Stmt {
    Stmt::Put(0, Cond::Constant(up))
}

/// Adds 1 to n.
fn count(rt: &impl Abort, alloc: Global) -> Stmt {
    Stmt::Set(0, add(rt, alloc, Expr::Int(0), Expr::Number(1)))
}

/// The functions `n + arg` and `up`.
fn gate_functions(rt: &impl Abort, alloc: Global) -> Vec<Function> {
    let sum = add(rt, alloc, Expr::Int(0), Expr::Arg);
    let up = Function::Truth(Cond::Bool(0));
    two(rt, alloc, Function::Value(sum), up)
}

/// The procedures lift, which puts up, and burst, which puts up and raises.
fn gate_procedures(rt: &impl Abort, alloc: Global) -> Vec<Vec<Stmt>> {
    let lift = one(rt, alloc, put(true));
    let burst = two(rt, alloc, put(true), Stmt::Set(0, Expr::Number(9)));
    two(rt, alloc, lift, burst)
}

/// The entry pass when up, which puts up down and counts.
fn gate_entries(rt: &impl Abort, alloc: Global) -> Vec<Entry> {
    let pass = two(rt, alloc, put(false), count(rt, alloc));
    let entry = Entry {
        barrier: 0,
        longest: 1,
        body: and(rt, pass, Stmt::Out(Expr::Int(0))),
    };
    one(rt, alloc, entry)
}

fn gate_operations(rt: &impl Abort, alloc: Global) -> Operations {
    Operations {
        functions: gate_functions(rt, alloc),
        procedures: gate_procedures(rt, alloc),
        entries: gate_entries(rt, alloc),
    }
}

/// The object of these operations, with n at this value, if they fit.
fn object(
    rt: &impl Abort,
    alloc: Global,
    operations: Operations,
    n: i64,
    up: bool,
) -> Option<Object> {
    let operations = shared(rt, alloc, operations);
    let components = components(rt, &[up_to_4(n)], Some(up));
    Object::new(alloc, operations, components).expect(rt, "memory for the queues")
}

/// The gate with n at this value.
fn gate(rt: &impl Abort, alloc: Global, n: i64, up: bool) -> Object {
    object(rt, alloc, gate_operations(rt, alloc), n, up).expect(rt, "a gate")
}

/// What is called of a gate, by the indices of its operations.
#[derive(Clone, Copy)]
enum Request {
    /// A call of a function with an argument.
    Function(u8, i64),
    /// A call of a procedure.
    Procedure(u8),
    /// An event whose handler is a procedure.
    Event(u8),
}

fn reply_of(done: &Done) -> Option<Reply> {
    match done.outcome {
        CallOutcome::Reply(reply) => Some(reply),
        CallOutcome::Waits => None,
    }
}

/// Does what is requested, which serves nobody. The reply, if there is one.
fn replied(rt: &impl Abort, gate: &mut Object, request: Request) -> Option<Reply> {
    match request {
        Request::Function(index, arg) => Some(gate.function(index, arg)),
        Request::Procedure(index) => {
            let done = gate.procedure(index, 0);
            expect_answers(rt, &done.served, &[]);
            reply_of(&done)
        }
        Request::Event(index) => {
            expect_answers(rt, &gate.handler(index), &[]);
            None
        }
    }
}

/// The values of n and up.
fn expect_values(rt: &impl Abort, gate: &Object, values: (i64, bool)) {
    let components = gate.components();
    let up = components.bool(0).expect(rt, "a Boolean");
    expect_eq(rt, (number_in(rt, components, 0), up), values);
}

const ABSENT_REPLY: Option<Reply> = Some(Reply::NoSuchOperation);

/// Functions and operations that there are not, with their replies by a gate.
static REPLIES: [(Request, Option<Reply>); 9] = [
    (Request::Function(0, 0), ABSENT_REPLY),
    (Request::Function(1, 41), Some(Reply::Value(42))),
    (Request::Function(1, i64::MAX), Some(Reply::ConstraintError)),
    (Request::Function(2, 0), Some(Reply::Truth(true))),
    (Request::Function(3, 0), ABSENT_REPLY),
    (Request::Procedure(0), ABSENT_REPLY),
    (Request::Event(0), None),
    (Request::Procedure(ABSENT), ABSENT_REPLY),
    (Request::Event(ABSENT), None),
];

/// A gate replies so, and stays as it is.
fn expect_replies(rt: &impl Abort, gate: &mut Object, replies: &[(Request, Option<Reply>)]) {
    for (request, reply) in replies {
        expect_eq(rt, replied(rt, gate, *request), *reply);
        expect_values(rt, gate, (1, true));
    }
}

#[test]
fn functions_and_absent_operations_reply_and_change_nothing(rt: HostRuntime) {
    let mut gate = gate(&rt, rt.alloc(), 1, true);
    expect_replies(&rt, &mut gate, &REPLIES);
    drop(gate);
}

/// The gate with these entries, if they fit.
fn gate_with(rt: &impl Abort, alloc: Global, entries: Vec<Entry>) -> Option<Object> {
    let operations = Operations {
        functions: gate_functions(rt, alloc),
        procedures: gate_procedures(rt, alloc),
        entries,
    };
    object(rt, alloc, operations, 0, false)
}

/// Whether the operations of the gate fit, with this function and procedure after its own.
fn fits(rt: &impl Abort, alloc: Global, function: Function, procedure: Stmt) -> bool {
    let operations = Operations {
        functions: and(rt, gate_functions(rt, alloc), function),
        procedures: and(rt, gate_procedures(rt, alloc), one(rt, alloc, procedure)),
        entries: gate_entries(rt, alloc),
    };
    is_made(object(rt, alloc, operations, 0, false))
}

/// Whether there is an object, which is let go.
fn is_made(object: Option<Object>) -> bool {
    let made = object.is_some();
    drop(object);
    made
}

#[test]
fn operations_that_do_not_fit_make_no_object(rt: HostRuntime) {
    let alloc = rt.alloc();
    let known = fits(&rt, alloc, Function::Truth(Cond::Bool(0)), put(true));
    let unknown = fits(&rt, alloc, Function::Truth(Cond::Bool(1)), put(true));
    let set = Stmt::Set(1, Expr::Arg);
    let unknown_set = fits(&rt, alloc, Function::Truth(Cond::Bool(0)), set);
    expect_eq(&rt, (known, unknown, unknown_set), (true, false, false));
}

/// Entries of this barrier and this longest queue, with no statement, as many as `count` says.
fn empty_entries(
    rt: &impl Abort,
    alloc: Global,
    barrier: u8,
    longest: u8,
    count: u8,
) -> Vec<Entry> {
    let mut entries = Vec::new(alloc);
    for _ in 0..count {
        let entry = Entry {
            barrier,
            longest,
            body: Vec::new(alloc),
        };
        entries = and(rt, entries, entry);
    }
    entries
}

/// Entries, as many as `count` says, of this barrier and this longest queue make an object, or do
/// not.
fn expect_entries(rt: &impl Abort, alloc: Global, ends: (u8, u8, u8), right: bool) {
    let (barrier, longest, count) = ends;
    let entries = empty_entries(rt, alloc, barrier, longest, count);
    let found = is_made(gate_with(rt, alloc, entries));
    expect_at(rt, &ends, found, right);
}

#[test]
fn entries_that_do_not_fit_make_no_object(rt: HostRuntime) {
    for (barrier, longest, count, right) in [
        (0, 1, 1, true),
        (1, 1, 1, false),
        (0, 0, 1, false),
        (0, 9, 1, false),
        (0, 1, 5, false),
    ] {
        expect_entries(&rt, rt.alloc(), (barrier, longest, count), right);
    }
}
