//! A replica that asks another one for what it misses.

ghost use Rattle.std.specs.Prelude.{◌≡◌, [], OnOk, OnErr, IsOk, IsOkUnless};
ghost use Rattle.rp_base.specs.declared.fault.WriteFault.TheVariants as faults;
ghost use Rattle.rp_model.specs.Learner.{asks_for_each, missing_in_window};
ghost use Rattle.rp_model.specs.Says.{sends};
ghost use Rattle.rp_replica.specs.Committing.{Commits};

use crate::replica::Replica;
use rp_base::{NodeId, WriteFault};
use rp_codec::Body;
use rp_machine::Machine;
use rp_outbox::Outbox;
use rp_store::Device;

impl<M: Machine, D: Device> Replica<M, D> {
    /// A question to a node for each position of the window that is not learned. Before the first
    /// one it reserves memory for as many as the window has; where nothing is missing it takes none.
    #[inline(never)]
    pub(crate) fn ask_missing(&self, out: &mut Outbox, to: NodeId) -> Result<(), WriteFault>
        ensures ok { OnOk result (Commits (sends self.now.running (asks_for_each self.now.me to
            (missing_in_window self.now.config.max_positions self.now.records)))
            self.now self.now out.old.sent out.new.sent) }
        ensures only { IsOkUnless result faults.OutOfMemory }
        ensures certain { asks_for_each self.now.me to
            (missing_in_window self.now.config.max_positions self.now.records) ≡ []
            → IsOk result }
        ensures unsent { OnErr result (out.new.sent ≡ out.old.sent) }
    {
        let Some(range) = self.server.window() else {
            return Ok(());
        };
        out.reserve(usize::from(range.count()))?;
        for index in 0..range.count() {
            let position = range.at(index);
            if !self.server.is_learned(position) {
                out.say(self.server.me(), to, Body::Ask { position });
            }
        }
        Ok(())
    }
}
