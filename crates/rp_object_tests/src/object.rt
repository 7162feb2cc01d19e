use crate::building::{
    add, and, components, expect_action, expect_answers, expect_eq, expect_image, one, shared,
    task_of, two,
};
use rp_base::{Action, Answers, Operation, Reply};
use rp_body::{Cond, Expr, Ranged, Stmt};
use rp_entry::{Entry, Operations};
use rp_machine::Numbered;
use rp_object::*;
use std::alloc::Global;
use std::process::Abort;

// The tasks by their numbers: of the gate's ceiling, above it, of its ceiling too, and not declared.
const EQUAL: u8 = 1;

const ABOVE: u8 = 2;

const OTHER: u8 = 3;

const UNDECLARED: u8 = 4;

// The objects by their numbers.
const BOX: u8 = 1;

const GATE: u8 = 2;

fn text(rt: &impl Abort, alloc: Global, word: &str) -> String {
    String::from_str(alloc, word).expect(rt, "memory for a word")
}

/// A procedure that gives n the sum of two values.
fn adding(rt: &impl Abort, alloc: Global, a: Expr, b: Expr) -> Vec<Stmt> {
    one(rt, alloc, Stmt::Set(0, add(rt, alloc, a, b)))
}

/// The number n.
const N: Ranged = Ranged {
    low: 0,
    high: 1000,
    value: 0,
};

/// The procedures inc, which adds 1 to n, and dbl, which doubles it.
fn inc_and_dbl(rt: &impl Abort, alloc: Global) -> Operations {
    let inc = adding(rt, alloc, Expr::Int(0), Expr::Number(1));
    let dbl = adding(rt, alloc, Expr::Int(0), Expr::Int(0));
    Operations {
        functions: Vec::new(alloc),
        procedures: two(rt, alloc, inc, dbl),
        entries: Vec::new(alloc),
    }
}

/// The number n, and the procedures inc and dbl.
fn counter(rt: &impl Abort, alloc: Global) -> ObjectDeclaration {
    ObjectDeclaration {
        name: text(rt, alloc, "box"),
        ceiling: 30,
        ints: one(rt, alloc, text(rt, alloc, "n")),
        bools: Vec::new(alloc),
        components: components(rt, &[N], None),
        entries: Vec::new(alloc),
        operations: shared(rt, alloc, inc_and_dbl(rt, alloc)),
    }
}

/// The procedure lift, which puts up, and the entry pass when up, which puts it down.
fn lift_and_pass(rt: &impl Abort, alloc: Global) -> Operations {
    let lift = one(rt, alloc, Stmt::Put(0, Cond::Constant(true)));
    let pass = Entry {
        barrier: 0,
        longest: 1,
        body: one(rt, alloc, Stmt::Put(0, Cond::Constant(false))),
    };
    Operations {
        functions: Vec::new(alloc),
        procedures: one(rt, alloc, lift),
        entries: one(rt, alloc, pass),
    }
}

/// The Boolean up, which is down, the procedure lift and the entry pass.
fn gate(rt: &impl Abort, alloc: Global) -> ObjectDeclaration {
    ObjectDeclaration {
        name: text(rt, alloc, "gate"),
        ceiling: 10,
        ints: Vec::new(alloc),
        bools: one(rt, alloc, text(rt, alloc, "up")),
        components: components(rt, &[], Some(false)),
        entries: one(rt, alloc, text(rt, alloc, "pass")),
        operations: shared(rt, alloc, lift_and_pass(rt, alloc)),
    }
}

/// A timing event, or an interrupt, calls this procedure of the box.
fn handler(procedure: u8) -> Handler {
    Handler {
        object: BOX,
        procedure,
    }
}

fn timer(rt: &impl Abort, alloc: Global, name: &str, procedure: u8) -> TimingEvent {
    TimingEvent {
        name: text(rt, alloc, name),
        handler: handler(procedure),
    }
}

/// The box and the gate, with timing events x for inc and y for dbl, and an interrupt for inc.
fn declarations(rt: &impl Abort, alloc: Global) -> Declarations {
    let inc = timer(rt, alloc, "x", 1);
    let dbl = timer(rt, alloc, "y", 2);
    Declarations {
        profile: Profile::Ravenscar,
        priorities: and(rt, two(rt, alloc, 10, 11), 10),
        objects: two(rt, alloc, counter(rt, alloc), gate(rt, alloc)),
        interrupts: one(rt, alloc, handler(1)),
        timers: two(rt, alloc, inc, dbl),
    }
}

fn program(rt: &impl Abort, alloc: Global) -> Program {
    Program::new(shared(rt, alloc, declarations(rt, alloc))).expect(rt, "a program")
}

fn log_of(rt: &impl Abort, alloc: Global) -> Numbered<Objects> {
    Numbered::new(alloc, &program(rt, alloc)).expect(rt, "memory for the objects")
}

/// A task's call of this number: an operation of an object, with an argument.
#[derive(Clone, Copy)]
struct Input(u8, u32, u8, Operation, i64);

fn action_of(rt: &impl Abort, input: Input) -> Action {
    let Input(task, number, object, operation, arg) = input;
    Action::Call {
        task: task_of(rt, task),
        number,
        object,
        operation,
        arg,
    }
}

/// A call, and the answers: each by its task, the number of its call and its reply.
type Step<'a> = (Input, &'a [(u8, u32, Reply)]);

/// Takes a step in a log, which has the answers of the step.
fn expect_step(rt: &impl Abort, log: &mut Numbered<Objects>, step: &Step) {
    let (input, expected) = *step;
    let action = action_of(rt, input);
    expect_action(rt, &action);
    let mut answers = Answers::new();
    log.apply(&action, &mut answers);
    expect_answers(rt, &answers, expected);
}

/// A log takes these steps, after which this text shows its machine.
fn expect_story(rt: &impl Abort, alloc: Global, steps: &[Step], image: &str) {
    let mut log = log_of(rt, alloc);
    for step in steps {
        expect_step(rt, &mut log, step);
    }
    expect_image(rt, alloc, log.machine(), image);
    drop(log);
}

const DONE: Reply = Reply::Value(0);

const ABSENT: Reply = Reply::NoSuchOperation;

/// Calls of what is declared and of what is not, below the ceiling and above it.
static FIRST_CALLS: [Step<'static>; 11] = [
    (
        Input(ABOVE, 1, GATE, Operation::Procedure(1), 0),
        &[(ABOVE, 1, Reply::ProgramError)],
    ),
    (
        Input(ABOVE, 2, GATE, Operation::Procedure(2), 0),
        &[(ABOVE, 2, ABSENT)],
    ),
    (
        Input(ABOVE, 3, GATE, Operation::Function(1), 0),
        &[(ABOVE, 3, ABSENT)],
    ),
    (
        Input(ABOVE, 4, BOX, Operation::Procedure(1), 0),
        &[(ABOVE, 4, DONE)],
    ),
    (
        Input(ABOVE, 5, GATE, Operation::Entry(2), 0),
        &[(ABOVE, 5, ABSENT)],
    ),
    (
        Input(ABOVE, 6, BOX, Operation::Entry(1), 0),
        &[(ABOVE, 6, ABSENT)],
    ),
    (
        Input(ABOVE, 7, GATE, Operation::SetTimer(1), 0),
        &[(ABOVE, 7, ABSENT)],
    ),
    (
        Input(ABOVE, 8, BOX, Operation::SetTimer(3), 0),
        &[(ABOVE, 8, ABSENT)],
    ),
    (
        Input(ABOVE, 9, 3, Operation::Procedure(1), 0),
        &[(ABOVE, 9, ABSENT)],
    ),
    (
        Input(UNDECLARED, 1, BOX, Operation::Procedure(1), 0),
        &[(UNDECLARED, 1, ABSENT)],
    ),
    (
        Input(EQUAL, 1, GATE, Operation::Procedure(1), 0),
        &[(EQUAL, 1, DONE)],
    ),
];

#[test]
fn what_is_not_declared_is_refused_before_the_ceiling(rt: HostRuntime) {
    let image =
        "object box n=1\nobject gate up=true queue none\nclock 0\ntimer x off\ntimer y off\n";
    expect_story(&rt, rt.alloc(), &FIRST_CALLS, image);
}

/// A task waits or not, and the last of its calls that counted has this number and keeps this
/// reply.
type Caller = (bool, u32, Option<Reply>);

/// Task 1 is such a caller.
fn expect_caller(rt: &impl Abort, log: &Numbered<Objects>, caller: Caller) {
    let task = task_of(rt, EQUAL);
    let last = log.last(task);
    expect_eq(rt, (log.waits(task), last, log.kept(task, last)), caller);
}

/// A log takes these steps, after each of which task 1 is such a caller. Then this text shows its
/// machine.
fn expect_log(rt: &impl Abort, alloc: Global, steps: &[(Step, Caller)], image: &str) {
    let mut log = log_of(rt, alloc);
    for (step, caller) in steps {
        expect_step(rt, &mut log, step);
        expect_caller(rt, &log, *caller);
    }
    expect_image(rt, alloc, log.machine(), image);
    drop(log);
}

const PASSES: Input = Input(EQUAL, 1, GATE, Operation::Entry(1), 0);

const COUNTS: Input = Input(EQUAL, 2, BOX, Operation::Procedure(1), 0);

const LIFTS: Input = Input(OTHER, 1, GATE, Operation::Procedure(1), 0);

/// Task 1 passes, and calls the box while it waits and again when task 3 has put the gate up.
static SERVED_IN_A_LOG: [(Step<'static>, Caller); 6] = [
    ((PASSES, &[]), (true, 1, None)),
    ((COUNTS, &[]), (true, 1, None)),
    (
        (LIFTS, &[(OTHER, 1, DONE), (EQUAL, 1, DONE)]),
        (false, 1, Some(DONE)),
    ),
    ((LIFTS, &[]), (false, 1, Some(DONE))),
    ((COUNTS, &[(EQUAL, 2, DONE)]), (false, 2, Some(DONE))),
    ((PASSES, &[]), (false, 2, Some(DONE))),
];

#[test]
fn a_caller_that_waits_in_a_log_is_served_by_another_call(rt: HostRuntime) {
    let image =
        "object box n=1\nobject gate up=false queue none\nclock 0\ntimer x off\ntimer y off\n";
    expect_log(&rt, rt.alloc(), &SERVED_IN_A_LOG, image);
}
