//! What a rule asks of each state.

ghost use Rattle.std.specs.Prelude.{◌≡◌, ◌↔◌, IsTrue};
ghost use Rattle.rp_explore_run.specs.Rules.{AreTrueIn, AreNotAllTrueIn, are_true, is_true_at};

use rp_base::Operation;
use rp_explore::Property;
use rp_explore_deck::Truth;
use rp_object::Objects;

/// Each of these functions is true.
#[derive(Clone, Copy)]
pub struct AreTrue<'a> {
    pub truths: &'a [Truth],
}

/// These functions are not all true.
#[derive(Clone, Copy)]
pub struct AreNotAllTrue<'a> {
    pub truths: &'a [Truth],
}

impl<'a> Property<Objects> for AreTrue<'a> {
    ghost meaning = { λ demand running. AreTrueIn demand.truths.now running };

    fn holds(&self, machine: &Objects) -> bool
        // claim: The functions of a rule are judged by what calls of them would be replied
        ensures { IsTrue result ↔ AreTrueIn self.now.truths.now machine.now }
    {
        are_true(self.truths, machine)
    }
}

impl<'a> Property<Objects> for AreNotAllTrue<'a> {
    ghost meaning = { λ demand running. AreNotAllTrueIn demand.truths.now running };

    fn holds(&self, machine: &Objects) -> bool
        // claim as AreTrue::holds
        ensures { IsTrue result ↔ AreNotAllTrueIn self.now.truths.now machine.now }
    {
        !are_true(self.truths, machine)
    }
}

/// Whether each of the functions is true.
fn are_true(truths: &[Truth], machine: &Objects) -> bool
    ensures { result ≡ are_true truths.now machine.now }
{
    truths.iter().all(|truth| is_true(truth, machine))
}

/// Whether the function is true.
fn is_true(truth: &Truth, machine: &Objects) -> bool
    ensures { result ≡ is_true_at machine.now truth.now.object truth.now.operation }
{
    match truth.operation {
        Operation::Function(index) => machine.is_true(truth.object, index),
        _ => false,
    }
}
