//! The turns of an actor, one after the other.

ghost use Rattle.std.specs.Prelude.{◌≡◌, ◌+◌, IfErr, OnOk};
ghost use Rattle.rp_threads.specs.LoopTurns.{HasEnded};

use crate::ending::Ending;
use crate::gate::Gate;
use crate::options::LoopOptions;
use rp_base::Fault;
use rp_codec::Party;
use std::alloc::Global;

/// A node or a task in its loop, which makes turns.
pub(crate) trait Actor<G: Gate> {
    ghost use Rattle.std.specs.Prelude.{ℕ};
    ghost use Rattle.rp_base.specs.declared.fault.Fault.{Fault};
    ghost use Rattle.rp_codec.specs.declared.packet.Party.{Party};

    /// Who it is, as others know it.
    ghost party: { Self → Party };

    /// How many turns it has rested, after it made n.
    ghost rested: { ℕ → Self → ℕ };

    /// What holds before the turn of this number.
    ghost ready: { ℕ → Self → Type 0 };

    /// What the turn of this number did.
    ghost turned: { ℕ → Self → Self → Type 0 };

    /// Why the turn of this number was not made, and what that left.
    ghost unmade: { ℕ → Self → Self → Fault → Type 0 };

    /// Who it is, as others know it.
    fn party(&self) -> Party
        ensures { result ≡ party self.now };

    /// How many turns it has rested, after it made n: before each turn it is asked with this number
    /// whether the run is over.
    fn rested(&self, done: u64) -> u64
        ensures { result ≡ rested done self.now };

    /// Makes the turn of this number, and counts it.
    fn turn(&mut self, alloc: Global, gate: &G, turn: u64) -> Result<(), Fault>
        requires { ready turn self.old }
        ensures ready { OnOk result (ready (turn + 1) self.new) }
        ensures ok { OnOk result (turned turn self.old self.new) }
        ensures err { IfErr result (unmade turn self.old self.new) };
}

/// Makes the turns of an actor from 1 on, as many as the options say, or those before the run is
/// over. Returns the fault that ended them, if one did.
fn make_turns<A: Actor<G>, G: Gate, E: Ending>(
    actor: &mut A,
    options: LoopOptions<'_, G, E>,
) -> Option<Fault>
    requires { A.ready 1 actor.old }
    ensures { HasEnded E.over A.party A.rested A.turned A.unmade options.entry.turns
        actor.old actor.new result }
{
    for done in 0..options.turns {
        let rested = actor.rested(done);
        match options.ending.is_over(actor.party(), done + 1, rested) {
            Ok(false) => {}
            Ok(true) => return None,
            Err(fault) => return Some(fault),
        }
        if let Err(fault) = actor.turn(options.alloc, options.gate, done + 1) {
            return Some(fault);
        }
    }
    None
}

/// Makes the turns of an actor, as `make_turns`, and notifies the ending of their end.
pub(crate) fn run_turns<A: Actor<G>, G: Gate, E: Ending>(
    actor: &mut A,
    options: LoopOptions<'_, G, E>,
) -> Option<Fault>
    requires { A.ready 1 actor.old }
    ensures ran { HasEnded E.over A.party A.rested A.turned A.unmade options.entry.turns
        actor.old actor.new result }
    ensures notified { E.ended (A.party actor.new) result }
{
    let fault = make_turns(actor, options);
    options.ending.end(actor.party(), fault);
    fault
}
