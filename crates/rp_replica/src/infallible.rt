//! A replica over a device that never fails.

ghost use Rattle.std.specs.Prelude.{◌≡◌};

use crate::replica::Replica;
use rp_machine::Machine;
use rp_store::InfallibleDevice;

impl<M: Machine, D: InfallibleDevice> Replica<M, D> {
    /// The device has not failed, as such a device never does. It does nothing: its contract is for
    /// the proofs of its callers.
    pub fn never_failed(&self)
        ensures { self.now.disk.failures ≡ 0 }
    {
        let _ = &self.store;
    }
}
