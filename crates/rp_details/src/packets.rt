//! Packets, each with its fields.

ghost use Rattle.std.specs.Prelude.{◌≡◌, ◌-◌, ◌≤◌, ◌++◌, OnOk, drop};
ghost use Rattle.rp_details.specs.Details.{delivered_lines, found_lines, packet_lines, packets_lines};
ghost use Rattle.rp_world.specs.rp_model.specs.World.{part_at};
ghost use Rattle.rp_run.specs.rp_output.specs.FaultMessage.{with_line_feed};
ghost use Rattle.rp_run.specs.Output.{names_of};

use crate::fields::FieldsWords;
use crate::lines::add_line;
use indexmap::IndexMap;
use rp_base::Fault;
use rp_codec::Packet;
use rp_deck::Task;
use rp_machine::Machine;
use rp_output::{BodyText, TraceLine};
use rp_run::{party_text, sent_packet};
use rp_store::CutDevice;
use rp_world::Cluster;
use std::alloc::{AllocError, Global};

/// Adds the packet that is delivered, if one is.
pub fn add_delivered<M: Machine, D: CutDevice>(
    alloc: Global,
    text: &mut Vec<u8>,
    cluster: &Cluster<M, D>,
    tasks: &IndexMap<String, Task>,
    delivered: Option<u64>,
) -> Result<(), Fault>
    ensures { OnOk result (text.new.items ≡ text.old.items
        ++ delivered_lines (names_of tasks.now) cluster.now.world.sent delivered) }
{
    let Some(number) = delivered else {
        return Ok(());
    };
    add_line(text, "delivered:")?;
    add_found(alloc, text, cluster, tasks, number)
}

/// Adds the packets from a number on.
pub fn add_packets<M: Machine, D: CutDevice>(
    alloc: Global,
    text: &mut Vec<u8>,
    cluster: &Cluster<M, D>,
    tasks: &IndexMap<String, Task>,
    first: u64,
) -> Result<(), Fault>
    requires { 1 ≤ first }
    ensures { OnOk result (text.new.items ≡ text.old.items
        ++ packets_lines (names_of tasks.now) first (drop (first - 1) cluster.now.world.sent)) }
{
    for number in first..cluster.messages() + 1 {
        add_found(alloc, text, cluster, tasks, number)?;
    }
    Ok(())
}

/// Adds the packet of a number, if it was sent.
fn add_found<M: Machine, D: CutDevice>(
    alloc: Global,
    text: &mut Vec<u8>,
    cluster: &Cluster<M, D>,
    tasks: &IndexMap<String, Task>,
    number: u64,
) -> Result<(), Fault>
    ensures { OnOk result (text.new.items ≡ text.old.items
        ++ found_lines (names_of tasks.now) number (part_at cluster.now.world.sent number)) }
{
    match sent_packet(alloc, cluster, number)? {
        Some(packet) => Ok(add_packet(alloc, text, tasks, number, &packet)?),
        None => Ok(()),
    }
}

/// Adds a packet: its line, and its fields below it.
fn add_packet(
    alloc: Global,
    text: &mut Vec<u8>,
    tasks: &IndexMap<String, Task>,
    number: u64,
    packet: &Packet,
) -> Result<(), AllocError>
    ensures { OnOk result (text.new.items ≡ text.old.items
        ++ packet_lines (names_of tasks.now) number packet.now) }
{
    let line = TraceLine {
        number,
        from: party_text(tasks, packet.from()),
        to: party_text(tasks, packet.to()),
        body: BodyText {
            body: packet.body(),
        },
    };
    let fields = FieldsWords {
        body: packet.body(),
    };
    let line = format!(in alloc; "{line}")?;
    let fields = format!(in alloc; "  {fields}")?;
    add_line(text, &line)?;
    add_line(text, &fields)
}
