//! A replica that reports to the audit what it has applied.

ghost use Rattle.std.specs.Prelude.{◌≡◌, [], ◌∷◌, OnOk, OnErr, IsOkUnless};
ghost use Rattle.rp_base.specs.declared.fault.WriteFault.TheVariants as faults;
ghost use Rattle.rp_base.specs.Records.{applied_of};
ghost use Rattle.rp_model.specs.Plans.{report_of};
ghost use Rattle.rp_model.specs.Says.{sends};
ghost use Rattle.rp_replica.specs.Committing.{Commits};

use crate::replica::Replica;
use rp_base::{Position, WriteFault};
use rp_codec::{Actions, Body, Packet, Party};
use rp_machine::Machine;
use rp_outbox::Outbox;
use rp_store::Device;
use std::alloc::Global;

impl<M: Machine, D: Device> Replica<M, D> {
    /// A report to the audit of the actions applied at the positions from `first` on, as many as
    /// `report_len` says. It copies what it reports and no more.
    #[inline(never)]
    pub(crate) fn report_applied(
        &self,
        alloc: Global,
        out: &mut Outbox,
        first: Position,
    ) -> Result<(), WriteFault>
        ensures ok { OnOk result (Commits (sends self.now.running
            (report_of self.now.me first (applied_of self.now.records) ∷ []))
            self.now self.now out.old.sent out.new.sent) }
        ensures only { IsOkUnless result faults.OutOfMemory }
        ensures unsent { OnErr result (out.new.sent ≡ out.old.sent) }
    {
        let body = Body::Report {
            first,
            applied: self.server.applied() as u16,
            actions: Actions::from_vec(self.server.reported(alloc, first)?),
        };
        out.push(&Packet::new(Party::Node(self.server.me()), Party::Audit, body))?;
        Ok(())
    }
}
