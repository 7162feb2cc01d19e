ghost use Rattle.rp_object.specs.rp_base.specs.Action.{IsRight};
ghost use Rattle.rp_object.specs.rp_machine.specs.Calls.{MayApply};

use crate::building::{expect_action, expect_at, expect_eq, expect_image};
use rp_base::{Action, Answers, Operation, Reply, TaskId};
use rp_machine::*;
use std::alloc::Global;
use std::process::Abort;

/// The first task's call of this number.
fn call(number: u32, object: u8, operation: Operation, arg: i64) -> Action {
    Action::Call {
        task: TaskId::first(),
        number,
        object,
        operation,
        arg,
    }
}

fn start_of(rt: &impl Abort, alloc: Global, objects: u8) -> Tally {
    let program = TallyProgram::new(objects).expect(rt, "1 to 8 objects");
    Tally::start(alloc, &program).expect(rt, "memory for the sums")
}

/// Applies the action through the bound.
fn answers_to<M: Machine>(machine: &mut M, action: &Action) -> Answers
    requires right { IsRight action.now }
    requires free { MayApply (M.waiting machine.old) action.now }
{
    let mut answers = Answers::new();
    machine.apply(action, &mut answers);
    answers
}

/// The last reply of these answers, where there is one.
fn last_reply(answers: &Answers) -> Option<Reply> {
    let last = answers.as_slice().last()?;
    Some(last.reply)
}

/// The action has this reply of a tally of two objects, which then has these sums.
fn expect_effect(
    rt: &impl Abort,
    alloc: Global,
    action: &Action,
    reply: Option<Reply>,
    image: &str,
) {
    let mut tally = start_of(rt, alloc, 2);
    expect_action(rt, action);
    let answers = answers_to(&mut tally, action);
    expect_at(rt, action, last_reply(&answers), reply);
    expect_image(rt, alloc, &tally, image);
}

#[test]
fn an_unknown_operation_leaves_the_sums(rt: HostRuntime) {
    let unknown = Some(Reply::NoSuchOperation);
    for (object, operation) in [
        (3, Operation::Procedure(1)),
        (1, Operation::Procedure(2)),
        (1, Operation::Function(1)),
        (1, Operation::Entry(1)),
    ] {
        let action = call(1, object, operation, 5);
        expect_effect(&rt, rt.alloc(), &action, unknown, "tally o1=0 o2=0\n");
    }
}

#[test]
fn what_is_no_call_has_no_reply_and_leaves_the_sums(rt: HostRuntime) {
    let interrupt = Action::Interrupt {
        source: 1,
        occurrence: 1,
    };
    for action in [Action::Noop, interrupt, Action::Tick { now: 7 }] {
        expect_effect(&rt, rt.alloc(), &action, None, "tally o1=0 o2=0\n");
    }
}

/// Call `number` of the first task, which adds `arg` to the first object.
fn adds(number: u32, arg: i64) -> Action {
    call(number, 1, Operation::Procedure(1), arg)
}

/// How many objects the tally has that is declared with this many, if it may be.
fn objects_of(objects: u8) -> Option<u8> {
    let program = TallyProgram::new(objects)?;
    Some(program.objects())
}

#[test]
fn a_tally_has_1_to_8_objects(rt: HostRuntime) {
    for (objects, expected) in [(0, None), (1, Some(1)), (8, Some(8)), (9, None)] {
        expect_at(&rt, &objects, objects_of(objects), expected);
    }
    replay_goes_on::<Tally>();
    replay_may_go_on::<Tally>();
    calls_count_once::<Tally>();
}

/// The log of a tally of one object.
fn log_of_one(rt: &impl Abort, alloc: Global) -> Numbered<Tally> {
    let program = TallyProgram::new(1).expect(rt, "1 to 8 objects");
    Numbered::new(alloc, &program).expect(rt, "memory for the sums")
}

/// The last reply that an action in a log has, where it has one.
fn applied_to<M: Machine>(
    rt: &impl Abort,
    log: &mut Numbered<M>,
    action: &Action,
) -> Option<Reply> {
    expect_action(rt, action);
    let mut answers = Answers::new();
    log.apply(action, &mut answers);
    last_reply(&answers)
}

/// An action in a log has this reply, and the last call of the first task that counted is then this
/// one, with this reply.
fn expect_counted<M: Machine>(
    rt: &impl Abort,
    log: &mut Numbered<M>,
    action: &Action,
    reply: Option<Reply>,
    counted: (u32, Option<Reply>),
) {
    let (last, kept) = counted;
    let task = TaskId::first();
    expect_at(rt, action, applied_to(rt, log, action), reply);
    expect_eq(rt, (log.last(task), log.waits(task)), (last, false));
    expect_eq(rt, log.kept(task, last), kept);
    expect_eq(rt, log.kept(task, last.saturating_add(1)), None);
}

/// What happens in a log: an action, its reply, and the last call that counts then with its reply.
type Step = (Action, Option<Reply>, (u32, Option<Reply>));

/// The log takes these steps, after which this text shows its machine.
fn expect_calls<M: Machine>(
    rt: &impl Abort,
    alloc: Global,
    log: Numbered<M>,
    steps: &[Step],
    image: &str,
) {
    let mut log = log;
    for (action, reply, counted) in steps {
        expect_counted(rt, &mut log, action, *reply, *counted);
    }
    expect_image(rt, alloc, log.machine(), image);
    drop(log);
}

#[test]
fn a_call_counts_once_and_in_order(rt: HostRuntime) {
    let five = Some(Reply::Value(5));
    let twelve = Some(Reply::Value(12));
    let steps = [
        (adds(2, 5), None, (0, None)),
        (adds(1, 5), five, (1, five)),
        (adds(1, 7), None, (1, five)),
        (adds(3, 7), None, (1, five)),
        (Action::Noop, None, (1, five)),
        (Action::Tick { now: 3 }, None, (1, five)),
        (adds(2, 7), twelve, (2, twelve)),
    ];
    let log = log_of_one(&rt, rt.alloc());
    expect_calls(&rt, rt.alloc(), log, &steps, "tally o1=12\n");
}
