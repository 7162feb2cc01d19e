//! Values on the heap, without an error to pass on: a test ends where memory is refused.

ghost use Rattle.rp_object.specs.rp_base.specs.Action.{IsRight};

use rp_base::{Action, Answers, Reply, TaskId};
use rp_body::{Components, Expr, Ranged};
use rp_machine::Machine;
use std::alloc::Global;
use std::fmt::Debug;
use std::process::Abort;
use std::sync::Arc;

/// Ends the test unless both values are equal. A call is shorter to prove than an `assert_eq!`.
pub(crate) fn expect_eq<T: PartialEq + Debug + Drop>(rt: &impl Abort, found: T, expected: T) {
    assert_eq!(rt; found, expected);
}

/// Ends the test unless both values are equal, and says of what they are.
pub(crate) fn expect_at<N: PartialEq + Debug, T: PartialEq + Debug + Drop>(
    rt: &impl Abort,
    name: &N,
    found: T,
    expected: T,
) {
    expect_eq(rt, (name, found), (name, expected));
}

/// Ends the test unless the action is right.
pub(crate) fn expect_action(rt: &impl Abort, action: &Action)
    ensures { IsRight action.now }
{
    assert!(rt; action.is_right());
}

/// The answer at this place, by its task, the number of its call and its reply.
fn answer_at(answers: &Answers, place: usize) -> Option<(u8, u32, Reply)> {
    let answer = answers.as_slice().get(place)?;
    Some((answer.task.get(), answer.number, answer.reply))
}

/// Ends the test unless these are the answers, each by its task, the number of its call and its
/// reply. There are never more than 8.
pub(crate) fn expect_answers(rt: &impl Abort, found: &Answers, expected: &[(u8, u32, Reply)]) {
    for place in 0..8 {
        expect_eq(rt, answer_at(found, place), expected.get(place).copied());
    }
}

/// Ends the test unless this text shows the state of the machine.
pub(crate) fn expect_image<M: Machine>(
    rt: &impl Abort,
    alloc: Global,
    machine: &M,
    expected: &str,
) {
    let image = machine.image(alloc).expect(rt, "memory for the image");
    expect_eq(rt, image.as_slice(), expected.as_bytes());
}

pub(crate) fn task_of(rt: &impl Abort, number: u8) -> TaskId {
    TaskId::new(number).expect(rt, "a task")
}

/// At most 8 numbers, and a Boolean if there is one.
pub(crate) fn components(rt: &impl Abort, ints: &[Ranged], bool: Option<bool>) -> Components {
    let mut components = Components::new();
    for int in ints {
        assert!(rt; components.limits().ints < 8);
        components.add_int(*int);
    }
    if let Some(bool) = bool {
        assert!(rt; components.limits().bools < 8);
        components.add_bool(bool);
    }
    components
}

/// The number of this name.
pub(crate) fn number_in(rt: &impl Abort, components: &Components, name: u8) -> i64 {
    components.int(name).expect(rt, "a number").value
}

pub(crate) fn boxed<T: Drop>(rt: &impl Abort, alloc: Global, value: T) -> Box<T> {
    match Box::new(alloc, value) {
        Ok(value) => value,
        Err(_) => panic!(rt; "memory is refused"),
    }
}

/// A value in an Arc.
pub(crate) fn shared<T: Drop>(rt: &impl Abort, alloc: Global, value: T) -> Arc<T, Global> {
    match Arc::new(alloc, value) {
        Ok(value) => value,
        Err(_) => panic!(rt; "memory is refused"),
    }
}

/// The items, and this one after them.
pub(crate) fn and<T: Drop>(rt: &impl Abort, items: Vec<T>, item: T) -> Vec<T> {
    let mut items = items;
    if items.push(item).is_err() {
        panic!(rt; "memory is refused");
    }
    items
}

pub(crate) fn one<T: Drop>(rt: &impl Abort, alloc: Global, item: T) -> Vec<T> {
    and(rt, Vec::new(alloc), item)
}

pub(crate) fn two<T: Drop>(rt: &impl Abort, alloc: Global, first: T, second: T) -> Vec<T> {
    and(rt, one(rt, alloc, first), second)
}

pub(crate) fn add(rt: &impl Abort, alloc: Global, a: Expr, b: Expr) -> Expr {
    Expr::Add(boxed(rt, alloc, a), boxed(rt, alloc, b))
}
