//! A machine: a counter with a bound and a reset.

ghost use Rattle.std.specs.Prelude.{◌≡◌, []};
ghost use Rattle.rp_examples.specs.Counter.{begun, with_count, increased, called, counter_next, counter_answers, counter_image, IsCounterOf};

use crate::program::CounterProgram;
use rp_base::{Action, Answer, Answers, Operation, Reply};
use rp_machine::Machine;
use std::alloc::{AllocError, Global};

/// A counter from 0 to a bound: the program's one object, whatever object a call names. Its
/// procedures are `add`, which adds its argument, or raises Constraint_Error and changes nothing if
/// that is negative or the sum is above the bound, and `reset`, which makes the count 0. Both reply
/// with the new count.
#[derive(Debug, Drop)]
pub struct BoundedCounter {
    most: u32,
    count: u32,
}

impl BoundedCounter {
    /// The count after an `add`, if it is within the bound.
    fn increased(&self, arg: i64) -> Option<u32>
        ensures { result ≡ increased self.now arg }
    {
        let step = u64::try_from(arg).ok()?;
        let sum = u64::from(self.count).checked_add(step)?;
        if sum <= u64::from(self.most) {
            Some(sum as u32)
        } else {
            None
        }
    }

    /// Carries out a call, and returns the reply to it.
    fn call(&mut self, operation: Operation, arg: i64) -> Reply
        // claim: A bounded counter adds within its bound and resets, and keeps the laws of a machine
        ensures count { self.new ≡ with_count self.old (called self.old operation arg).0 }
        ensures reply { result ≡ (called self.old operation arg).1 }
    {
        match operation {
            Operation::Procedure(1) => match self.increased(arg) {
                Some(count) => {
                    self.count = count;
                    Reply::Value(i64::from(count))
                }
                None => Reply::ConstraintError,
            },
            Operation::Procedure(2) => {
                self.count = 0;
                Reply::Value(0)
            }
            _ => Reply::NoSuchOperation,
        }
    }
}

impl Machine for BoundedCounter {
    type Program = CounterProgram;

    ghost begin = { begun };

    ghost next = { counter_next };

    ghost answers = { counter_answers };

    ghost waiting = { λ _. [] };

    ghost image = { counter_image };

    ghost runs = { IsCounterOf };

    fn start(alloc: Global, program: &CounterProgram) -> Result<Self, AllocError> {
        Ok(BoundedCounter {
            most: program.most(),
            count: 0,
        })
    }

    fn apply(&mut self, action: &Action, into: &mut Answers) {
        if let Action::Call {
            task,
            number,
            operation,
            arg,
            ..
        } = *action
        {
            let reply = self.call(operation, arg);
            into.push(Answer {
                task,
                number,
                reply,
            });
        }
    }

    fn image(&self, alloc: Global) -> Result<Vec<u8>, AllocError> {
        let mut text = String::new(alloc);
        writeln!(text, "count {}", self.count)?;
        Ok(text.into_bytes())
    }

    fn laws() {}
}
