//! A program that runs, as a machine that a log drives.

ghost use Rattle.std.specs.Prelude.{IfOk};
ghost use Rattle.std.specs.Arc.{arc_value};
ghost use Rattle.rp_object.specs.State.{first_state};
ghost use Rattle.rp_object.specs.Step.{objects_next, objects_answers, objects_waiting};
ghost use Rattle.rp_object.specs.Image.{objects_image};
ghost use Rattle.rp_object.specs.Reached.{IsStateOf};

use crate::objects::Objects;
use crate::program::Program;
use rp_base::{Action, Answers};
use rp_machine::Machine;
use std::alloc::{AllocError, Global};

impl Machine for Objects {
    type Program = Program;

    ghost begin = { λ program. first_state (arc_value program.declarations) };

    ghost next = { objects_next };

    ghost answers = { objects_answers };

    ghost waiting = { objects_waiting };

    ghost image = { objects_image };

    ghost runs = { λ program running. IsStateOf (arc_value program.declarations) running };

    fn laws() {}

    fn start(alloc: Global, program: &Program) -> Result<Self, AllocError> {
        Objects::start(alloc, program)
    }

    fn apply(&mut self, action: &Action, into: &mut Answers) {
        *into = Objects::apply(self, action);
    }

    fn image(&self, alloc: Global) -> Result<Vec<u8>, AllocError> {
        Objects::image(self, alloc)
    }
}
