//! A node that stops within a step.

ghost use Rattle.std.specs.Prelude.{◌≡◌, Some, IfOk, IfErr, true, false};
ghost use Rattle.rp_base.specs.Right.{IsRightRecord};
ghost use Rattle.rp_model.specs.Parts.{is_in_log};
ghost use Rattle.rp_replica.specs.Cutting.{Cuts, CutsIf, IsNotCut, IsNotCutIf};
ghost use Rattle.rp_replica.specs.Inputs.{input_effect};
ghost use Rattle.rp_rules.specs.Inputs.{IsRightInput};
ghost use Rattle.rp_replica.specs.State.{server_of};
ghost use Rattle.rp_model.specs.Plans.{written_by};
ghost use Rattle.rp_rules.specs.Plans.{MayCommit};

use crate::replica::Replica;
use rp_base::{Fault, Rec};
use rp_machine::Machine;
use rp_model::{Dropped, Plan};
use rp_rules::Input;
use rp_server::record_in_range;
use rp_store::{CutDevice, Device, NotTorn};
use std::alloc::Global;

/// A step that was not cut short.
#[derive(Drop)]
pub enum NotCut<M: Machine, D: Device> {
    /// The device failed. A prefix of the step's record may be at its end.
    Failed(D),
    /// Nothing has changed, and the step would be refused with this fault too.
    Refused(Fault, Replica<M, D>),
}

impl<M: Machine, D: CutDevice> Replica<M, D> {
    /// The node stops within the step of an input: the step's record is appended and not synced,
    /// and the device stops with the first `kept` bytes of it, or all if there are no more. Nothing
    /// is sent. A step that writes no record leaves the device as it is.
    pub fn torn(self, alloc: Global, input: &Input, kept: u64) -> Result<D, NotCut<M, D>>
        requires right { IsRightInput input.now }
        // claim: A stop within a step keeps the given number of bytes of its record, and sends
        //   nothing
        ensures ok { IfOk result (λ device. CutsIf
            (input_effect M.next M.answers self input.now) kept self (D.disk device)) }
        ensures err { IfErr result (λ refused. IsNotCutIf D.disk
            (input_effect M.next M.answers self input.now) self refused) }
    {
        let mut plan = Plan::Pass(Dropped::No);
        match self.decide(alloc, input, &mut plan) {
            Ok(()) => self.crash(&plan, kept),
            Err(fault) => Err(NotCut::Refused(fault, self)),
        }
    }

    /// The node stops within the commit of a plan, with the first `kept` bytes of its record.
    fn crash(self, plan: &Plan, kept: u64) -> Result<D, NotCut<M, D>>
        requires working { self.failed ≡ false }
        requires may { MayCommit (server_of self) plan.now }
        ensures ok { IfOk result (λ device.
            Cuts (written_by plan.now) kept self (D.disk device)) }
        ensures err { IfErr result (λ refused.
            IsNotCut D.disk (written_by plan.now) self refused) }
    {
        match plan.record() {
            Some(rec) => self.tear(&rec, kept),
            None => Ok(self.close()),
        }
    }

    /// The node stops within the write of this record.
    fn tear(self, rec: &Rec, kept: u64) -> Result<D, NotCut<M, D>>
        requires working { self.failed ≡ false }
        requires right { IsRightRecord rec.now }
        requires place { is_in_log self.config.max_positions rec.now ≡ true }
        ensures ok { IfOk result (λ device. Cuts (Some rec.now) kept self (D.disk device)) }
        ensures err { IfErr result (λ refused. IsNotCut D.disk (Some rec.now) self refused) }
    {
        record_in_range(rec);
        let Replica { server, store } = self;
        match store.tear(rec, kept) {
            Ok(device) => Ok(device),
            Err(NotTorn::Failed(device)) => Err(NotCut::Failed(device)),
            Err(NotTorn::Refused(fault, store)) => {
                Err(NotCut::Refused(fault, Replica { server, store }))
            }
        }
    }
}
