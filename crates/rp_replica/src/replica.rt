//! The replica.

ghost use Rattle.std.specs.Prelude.{◌≡◌, length, nat_lt, false, IfOk, IsOkUnless};
ghost use Rattle.rp_base.specs.declared.fault.Fault.TheVariants as faults;
ghost use Rattle.rp_base.specs.Records.{applied_of};
ghost use Rattle.rp_model.specs.rp_machine.specs.Replay.{replay_state};
ghost use Rattle.rp_model.specs.Effect.{stop_part};
ghost use Rattle.rp_replica.specs.Kept.{HoldsPart, HoldsItsRecords, HoldsOnly};
ghost use Rattle.rp_replica.specs.State.{part_of};

use rp_base::Fault;
use rp_machine::Machine;
use rp_server::Roles;
use rp_store::{Device, Store};
use std::alloc::Global;
use std::marker::Model;

/// One node as it runs, over a device of its own (Lamport, "Paxos Made Simple", sections 2.2, 2.3
/// and 3). A step writes at most one record, and that before any packet of it is given out. One
/// that writes a record, sends a packet, counts a vote or reads a long packet may be refused with
/// `OutOfMemory`, which changes nothing; with `Device` if the device fails while the record is
/// written, and each with `Failed` from then on, until the device is opened again.
///
/// To a contract it is its node, the configuration and the machine's start, its records, what it
/// knows while it runs, what its device holds, and whether that has failed.
#[derive(Drop)]
pub struct Replica<M: Machine, D: Device> {
    pub(crate) server: Roles<M>,
    pub(crate) store: Store<D>,
}

impl<M: Machine, D: Device> Model for Replica<M, D> {
    ghost use Rattle.rp_replica.specs.State.{ReplicaState, replica_of};
    ghost use Rattle.rp_replica.specs.Invariant.{IsOnDisk};

    ghost Value = { ReplicaState M };

    ghost view = { λ r. replica_of r.server (D.disk r.store.device) r.store.failed };

    ghost invariant = { λ r. IsOnDisk r.server.config.max_positions
        (D.disk r.store.device) r.store.failed r.server.records };
}

impl<M: Machine, D: Device> Replica<M, D> {
    /// Whether the device failed since it was opened: then each call is refused with `Failed`.
    pub fn has_failed(&self) -> bool
        ensures { result ≡ self.now.failed }
    {
        self.store.has_failed()
    }

    /// How many bytes the device holds.
    pub fn stored(&self) -> u64
        ensures { result ≡ length self.now.disk.contents }
    {
        self.store.stored()
    }

    /// The device, where it is.
    pub fn device(&self) -> &D
        ensures { D.disk result.now ≡ self.now.disk }
    {
        self.store.device()
    }

    /// How many actions are applied: those learned at the positions up to that number.
    pub fn applied(&self) -> u32
        ensures { result ≡ length (applied_of self.now.records) }
    {
        self.server.applied()
    }

    /// Whether something waits to be proposed or decided: a call, an interrupt or a tick.
    pub fn has_pending(&self) -> bool
        ensures { result ≡ nat_lt 0 (length self.now.running.pending) }
    {
        self.server.pending_len() > 0
    }

    /// Lines that show the machine's state.
    pub fn image(&self, alloc: Global) -> Result<Vec<u8>, Fault>
        // claim (image): A replica shows the replay of its applied list
        ensures image { IfOk result (λ text. text.items ≡ M.image
            (replay_state M.next M.answers self.now.begin (applied_of self.now.records))) }
        ensures only { IsOkUnless result faults.OutOfMemory }
    {
        self.server.image(alloc)
    }

    /// The device, as it is. Unless it has failed it holds the records, and nothing after them.
    pub fn close(self) -> D
        // claim: The device of a working replica holds its records and nothing else
        ensures disk { D.disk result ≡ self.disk }
        ensures holds { self.failed ≡ false
            → HoldsPart self.config.max_positions (D.disk result) (stop_part (part_of self)) }
        ensures only { self.failed ≡ false → HoldsItsRecords self
            → HoldsOnly (D.disk result) (stop_part (part_of self)) }
    {
        self.store.close()
    }
}
