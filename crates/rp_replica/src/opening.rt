//! A replica that is opened over a device.

ghost use Rattle.std.specs.Prelude.{◌≡◌, ◌≤◌, IfOk, IfErr};
ghost use Rattle.rp_base.specs.Config.{IsRightConfig};
ghost use Rattle.rp_model.specs.Parts.{is_in_log, records_in_log};
ghost use Rattle.rp_replica.specs.Opening.{Opens, IsRefusedOpening};

use crate::replica::Replica;
use rp_base::{Config, Fault, NodeId, Rec};
use rp_machine::Machine;
use rp_server::Roles;
use rp_store::{Device, Opened, Store};
use std::alloc::Global;

/// Whether the record is at a position of the log, or at none.
fn is_in_log(max_positions: u16, rec: &Rec) -> bool
    ensures { result ≡ is_in_log max_positions rec.now }
{
    match *rec {
        Rec::Started(_) => true,
        Rec::Promised(position, _) | Rec::Voted(position, _, _) | Rec::Learned(position, _) => {
            position.get() <= max_positions
        }
        Rec::PromisedRange(range, _) => range.first().get() <= max_positions,
    }
}

/// Leaves out the records that do not count.
fn skip(records: &mut Vec<Rec>, max_positions: u16)
    ensures { records.new.items ≡ records_in_log max_positions records.old.items }
{
    records.retain(|rec| is_in_log(max_positions, rec));
}

/// The result of opening a device.
#[derive(Drop)]
pub struct Opening<M: Machine, D: Device> {
    pub replica: Replica<M, D>,
    /// How many records the device holds, those above the log too.
    pub records: u64,
    /// How many bytes were after the records, and were truncated.
    pub cut_bytes: u64,
}

impl<M: Machine, D: Device> Replica<M, D> {
    /// Opens a device for a node of the configuration: it reads the records, truncates what is torn
    /// after them, skips those above the log, and runs by the others. Nothing is proposed, heard or
    /// pending. Refused with `OutOfMemory`, after which the device may be read, truncated and
    /// synced, or with `Device` if the device failed.
    pub fn open(
        alloc: Global,
        node: NodeId,
        config: Config,
        program: &M::Program,
        device: D,
    ) -> Result<Opening<M, D>, (Fault, D)>
        requires config { IsRightConfig config }
        requires node { node ≤ config.nodes }
        // claim: A replica opens by the records of its device only, and returns how many the device
        //   holds, those above the log too
        ensures ok { IfOk result (λ opening. Opens node config (M.begin program.now)
            (D.disk device) opening.replica opening.records opening.cut_bytes) }
        ensures err { IfErr result (λ refused.
            IsRefusedOpening (D.disk device) refused.0 (D.disk refused.1)) }
    {
        let Opened {
            store,
            mut records,
            cut_bytes,
        } = Store::open(alloc, device)?;
        let count = records.len() as u64;
        skip(&mut records, config.max_positions);
        match Roles::restart(alloc, node, config, program, &records) {
            Ok(server) => Ok(Opening {
                replica: Replica { server, store },
                records: count,
                cut_bytes,
            }),
            Err(fault) => Err((fault, store.close())),
        }
    }
}
