//! What a server has applied, for a report to the audit.

ghost use Rattle.std.specs.Prelude.{◌≡◌, ◌-◌, length, take, drop, IfOk, All};
ghost use Rattle.rp_base.specs.Action.{IsRight};
ghost use Rattle.rp_base.specs.Records.{applied_of};
ghost use Rattle.rp_model.specs.rp_codec.specs.Message.{report_len};

use crate::server::Roles;
use rp_base::{Action, Position};
use rp_codec::report_len;
use rp_log::Log;
use rp_machine::Machine;
use std::alloc::{AllocError, Global};

impl<M: Machine> Roles<M> {
    /// The actions applied at the positions from `first` on, as many as a report has. It copies
    /// what is reported and no more.
    pub fn reported(&self, alloc: Global, first: Position) -> Result<Vec<Action>, AllocError>
        ensures reported { IfOk result (λ reported. let applied = applied_of self.now.records in
            reported.items ≡ take (report_len first (length applied)) (drop (first - 1) applied)) }
        ensures len { IfOk result (λ reported. length reported.items
            ≡ report_len first (length (applied_of self.now.records))) }
        ensures right { IfOk result (λ reported. All IsRight reported.items) }
    {
        reported(alloc, &self.log, first)
    }
}

/// What a report says of the actions that are applied.
fn reported(alloc: Global, log: &Log, first: Position) -> Result<Vec<Action>, AllocError>
    ensures reported { IfOk result (λ reported. reported.items
        ≡ take (report_len first (length log.now.taken)) (drop (first - 1) log.now.taken)) }
    ensures len { IfOk result (λ reported. length reported.items
        ≡ report_len first (length log.now.taken)) }
{
    let count = report_len(first, log.applied() as u16);
    let mut actions = Vec::with_capacity(alloc, usize::from(count))?;
    for place in 0..u16::from(count) {
        let position = Position::new(first.get() + place).unwrap();
        actions.push_reserved(log.get(position).unwrap());
    }
    Ok(actions)
}
