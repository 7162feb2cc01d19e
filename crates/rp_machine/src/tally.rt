//! The least machine: a sum for each object.

ghost use Rattle.std.specs.Prelude.{◌≡◌, ◌↔◌, ◌≤◌, pos, [], replicate, IsSome, IfSome};
ghost use Rattle.rp_machine.specs.TallyRule.{HasSums, sum_of, new_sum, with_sum, reply_to_add, tally_next, tally_answers, tally_image};

use crate::machine::Machine;
use rp_base::{Action, Answer, Answers, MOST_OBJECTS, Operation, Reply};
use std::alloc::{AllocError, Global};
use std::marker::Model;

/// How many objects a tally has, 1 to 8.
#[derive(Clone, Copy, Debug, PartialEq, Eq, Hash)]
pub struct TallyProgram {
    objects: u8,
}

impl Model for TallyProgram {
    ghost use Rattle.std.specs.Prelude.{ℕ, ◌≤◌};

    ghost Value = { ℕ };

    ghost view = { λ p. p.objects };

    ghost invariant = { λ p. (1 ≤ p.objects) × (p.objects ≤ 8) };

    ghost inverse = { λ n. record { objects = n } };
}

impl TallyProgram {
    /// A tally of this many objects, or `None` outside 1 to 8.
    pub fn new(objects: u8) -> Option<Self>
        ensures valid { IsSome result ↔ ((1 ≤ objects) × (objects ≤ 8)) }
        ensures value { IfSome result (λ program. program ≡ objects) }
    {
        if matches!(objects, 1..=MOST_OBJECTS) {
            Some(TallyProgram { objects })
        } else {
            None
        }
    }

    /// How many objects there are.
    pub fn objects(self) -> u8
        ensures value { result ≡ self }
        ensures in_range { (1 ≤ self) × (self ≤ 8) }
    {
        self.objects
    }
}

/// One sum for each object, from 0. Their one procedure adds its argument and replies with the sum,
/// or raises Constraint_Error and changes nothing where the sum leaves 64 signed bits.
#[derive(Debug, Drop)]
pub struct Tally {
    sums: Vec<i64>,
}

impl Model for Tally {
    ghost use Rattle.std.specs.Prelude.{List, ℤ};

    ghost Value = { List ℤ };

    ghost view = { λ t. t.sums.items };
}

impl Tally {
    /// Adds to an object's sum, and gives the reply to the call.
    fn add(&mut self, object: u8, arg: i64) -> Reply
        // claim: The tally adds, and keeps the laws of a machine
        ensures reply { result ≡ reply_to_add (sum_of self.old object) arg }
        ensures sums { self.new ≡ with_sum self.old object (new_sum self.old object arg) }
    {
        let place = usize::from(object);
        if place == 0 || place > self.sums.len() {
            return Reply::NoSuchOperation;
        }
        match self.sums[place - 1].checked_add(arg) {
            Some(sum) => {
                self.sums[place - 1] = sum;
                Reply::Value(sum)
            }
            None => Reply::ConstraintError,
        }
    }
}

impl Machine for Tally {
    type Program = TallyProgram;

    ghost begin = { λ program. replicate program (pos 0) };

    ghost next = { tally_next };

    ghost answers = { tally_answers };

    ghost waiting = { λ _. [] };

    ghost image = { tally_image };

    ghost runs = { HasSums };

    fn laws() {}

    fn start(alloc: Global, program: &TallyProgram) -> Result<Self, AllocError> {
        Ok(Tally {
            sums: vec![in alloc; 0; usize::from(program.objects())]?,
        })
    }

    #[inline(never)]
    fn apply(&mut self, action: &Action, into: &mut Answers) {
        if let Action::Call {
            task,
            number,
            object,
            operation,
            arg,
        } = *action
        {
            let reply = match operation {
                Operation::Procedure(1) => self.add(object, arg),
                _ => Reply::NoSuchOperation,
            };
            into.push(Answer {
                task,
                number,
                reply,
            });
        }
    }

    fn image(&self, alloc: Global) -> Result<Vec<u8>, AllocError> {
        let mut text = String::from_str(alloc, "tally")?;
        for (place, sum) in self.sums.iter().enumerate() {
            write!(text, " o{}={sum}", place + 1)?;
        }
        text.push_str("\n")?;
        Ok(text.into_bytes())
    }
}
