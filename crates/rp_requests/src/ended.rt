//! What a station asks of a node whose log has ended.

ghost use Rattle.std.specs.Prelude.{◌≡◌, nat_eq, IfOk, IsOkUnless};
ghost use Rattle.rp_base.specs.declared.fault.Fault.TheVariants as faults;
ghost use Rattle.rp_requests.specs.Nodes.{image_of, positions_left};

use crate::node::HandleNode;
use rp_base::{Config, Fault};
use rp_machine::Machine;
use std::alloc::Global;

impl<M: Machine> HandleNode<M> {
    /// How many nodes there are, and how many positions the log has.
    pub fn config(&self) -> Config
        ensures { result ≡ self.now.replica.config }
    {
        self.replica.server().config()
    }

    /// Whether every position of the log is applied.
    pub fn has_ended(&self) -> bool
        // claim: A caller learns whether the log of its node has ended
        ensures { result ≡ nat_eq (positions_left self.now.replica) 0 }
    {
        u32::from(self.positions) <= self.replica.applied()
    }

    /// The lines that show the objects.
    pub fn image(&self, alloc: Global) -> Result<Vec<u8>, Fault>
        // claim: A node by handle gives the lines that show its objects
        ensures image { IfOk result (λ image. image.items
            ≡ image_of M.next M.answers M.image self.now) }
        ensures only { IsOkUnless result faults.OutOfMemory }
    {
        self.replica.image(alloc)
    }
}
