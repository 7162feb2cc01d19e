//! A node that is opened over a caller's bytes.

ghost use Rattle.std.specs.Prelude.{◌≡◌, ◌≤◌, drop, length, IfOk, IfErr};
ghost use Rattle.rp_base.specs.Config.{IsRightConfig};
ghost use Rattle.rp_base.specs.declared.fault.Fault.TheVariants as faults;
ghost use Rattle.rp_replica.specs.rp_store.specs.Disk.{disk_of};
ghost use Rattle.rp_requests.specs.Opening.{IsOpenedNode};
ghost use Rattle.rp_requests.specs.Tails.{tail_of};
ghost use Rattle.rp_requests.specs.declared.refusal.Refusal.TheVariants as refusals;

use crate::node::HandleNode;
use crate::refusal::Refusal;
use crate::tail::{Tail, tail_of};
use rp_base::{Config, Fault, NodeId};
use rp_machine::Machine;
use rp_replica::Replica;
use rp_store::{Device, MemDevice};
use std::alloc::Global;

/// The result of opening a node.
#[derive(Drop)]
pub struct Opened<M: Machine> {
    pub node: HandleNode<M>,
    /// How many records the device holds.
    pub records: usize,
    /// How many bytes of the device are whole records: the caller truncates what is after them.
    pub kept: usize,
    /// What is after them.
    pub tail: Tail,
}

impl<M: Machine> HandleNode<M> {
    /// Opens a node over the bytes of its device, which are copied: it runs with the whole records
    /// at the front of these bytes. Refused only with `OutOfMemory`.
    pub fn open(
        alloc: Global,
        node: NodeId,
        config: Config,
        program: &M::Program,
        bytes: &[u8],
    ) -> Result<Opened<M>, Refusal>
        requires config { IsRightConfig config }
        requires node { node ≤ config.nodes }
        // claim (ok): A node by handle is opened by the records that its device's bytes begin with, and by
        //   nothing else
        ensures ok { IfOk result (λ opened. IsOpenedNode node config (M.begin program.now)
            bytes.now opened.node opened.records opened.kept) }
        // claim (tail): The opening of a node returns whether what is after the whole records of its device
        //   begins a record, as a stop leaves it that tears one, or begins none
        ensures tail { IfOk result (λ opened. opened.tail ≡ tail_of (drop opened.kept bytes.now)) }
        // claim (err): A node by handle is not opened only if memory ran out
        ensures err { IfErr result (λ refusal. refusal ≡ refusals.Fault faults.OutOfMemory) }
    {
        let device = device_of(alloc, bytes)?;
        match Replica::<M, MemDevice>::open(alloc, node, config, program, device) {
            Ok(opening) => {
                let records = opening.records as usize;
                let kept = opening.replica.stored() as usize;
                let tail = tail_after(alloc, bytes, kept)?;
                Ok(Opened {
                    node: HandleNode::new(alloc, opening.replica, config),
                    records,
                    kept,
                    tail,
                })
            }
            // A device in memory does not fail.
            Err(_) => Err(Refusal::Fault(Fault::OutOfMemory)),
        }
    }
}

/// A device that holds the bytes, all of them stable.
fn device_of(alloc: Global, bytes: &[u8]) -> Result<MemDevice, Refusal>
    ensures ok { IfOk result (λ device. (disk_of device).contents ≡ bytes.now) }
    ensures err { IfErr result (λ refusal. refusal ≡ refusals.Fault faults.OutOfMemory) }
{
    let mut device = MemDevice::new(alloc);
    // A device in memory does not fail.
    if device.append(bytes).is_err() || device.sync().is_err() {
        return Err(Refusal::Fault(Fault::OutOfMemory));
    }
    Ok(device)
}

/// What the bytes after the first n are, which begin with no whole record.
fn tail_after(alloc: Global, bytes: &[u8], kept: usize) -> Result<Tail, Refusal>
    requires { kept ≤ length bytes.now }
    ensures ok { IfOk result (λ tail. tail ≡ tail_of (drop kept bytes.now)) }
    ensures err { IfErr result (λ refusal. refusal ≡ refusals.Fault faults.OutOfMemory) }
{
    match tail_of(alloc, &bytes[kept..]) {
        Ok(tail) => Ok(tail),
        Err(_) => Err(Refusal::Fault(Fault::OutOfMemory)),
    }
}
