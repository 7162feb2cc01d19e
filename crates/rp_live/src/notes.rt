//! Nodes record interrupts and ticks before they run.

ghost use Rattle.std.specs.Prelude.{◌≡◌, ◌≤◌, All, Some, length, OnOk, IsOkUnless};
ghost use Rattle.rp_live.specs.Events.{IsLive};
ghost use Rattle.rp_live.specs.Noted.{IsNotedInput, AreNoted, noted_by};
ghost use Rattle.rp_live.specs.Seats.{IsNote};
ghost use Rattle.rp_threads.specs.Rounds.{Runs};
ghost use Rattle.rp_threads.specs.Turns.{IsEventBy};
ghost use Rattle.rp_threads.specs.declared.turns.PacketCounts.{PacketCounts};

use rp_base::{Fault, NodeId};
use rp_boxes::NodeSeat;
use rp_machine::Machine;
use rp_model::{Event, Step};
use rp_replica::Input;
use rp_store::InfallibleDevice;
use rp_threads::node_step;
use std::alloc::Global;

/// The node takes an interrupt or a tick as its input. The packets that it sends go into their
/// boxes.
fn note_one<M: Machine, D: InfallibleDevice>(
    seat: &mut NodeSeat<M, D>,
    alloc: Global,
    input: &Input,
) -> Result<(), Fault>
    requires note { IsNote input.now }
    requires runs { Runs seat.old.part }
    ensures ok { OnOk result ((packets : PacketCounts) × IsEventBy M.next M.answers M.begin
        (λ given. given ≡ input.now) seat.old seat.new packets) }
    ensures runs { OnOk result (Runs seat.new.part) }
    ensures only { IsOkUnless result Fault.OutOfMemory }
{
    match node_step(seat, alloc, input) {
        Ok(_) => Ok(()),
        Err(fault) => {
            seat.never_failed();
            Err(fault)
        }
    }
}

/// The node of this number takes the input.
fn note_at<M: Machine, D: InfallibleDevice>(
    seats: &mut Vec<NodeSeat<M, D>>,
    alloc: Global,
    node: NodeId,
    input: &Input,
) -> Result<(), Fault>
    requires within { node ≤ length seats.old.items }
    requires note { IsNote input.now }
    requires run { All (λ seat. Runs seat.part) seats.old.items }
    ensures size { length seats.new.items ≡ length seats.old.items }
    ensures ok { OnOk result (IsNotedInput M.next M.answers M.begin (Some (node, input.now))
        seats.old.items seats.new.items) }
    ensures run { OnOk result (All (λ seat. Runs seat.part) seats.new.items) }
    ensures only { IsOkUnless result Fault.OutOfMemory }
{
    let place = usize::from(node.get()) - 1;
    note_one(&mut seats[place], alloc, input)
}

/// If an event is an interrupt or a tick, its node takes it as an input; any other event is left
/// out.
fn note<M: Machine, D: InfallibleDevice>(
    seats: &mut Vec<NodeSeat<M, D>>,
    alloc: Global,
    event: &Event,
) -> Result<(), Fault>
    requires live { IsLive (length seats.old.items) event.now }
    requires run { All (λ seat. Runs seat.part) seats.old.items }
    ensures size { length seats.new.items ≡ length seats.old.items }
    ensures ok { OnOk result (IsNotedInput M.next M.answers M.begin (noted_by event.now)
        seats.old.items seats.new.items) }
    ensures run { OnOk result (All (λ seat. Runs seat.part) seats.new.items) }
    ensures only { IsOkUnless result Fault.OutOfMemory }
{
    match *event {
        Event::Node(Step::Interrupt { node, interrupt }) => note_at(
            seats,
            alloc,
            node,
            &Input::Interrupt {
                source: interrupt.source,
                occurrence: interrupt.occurrence,
            },
        ),
        Event::Node(Step::Tick { node, now }) => note_at(seats, alloc, node, &Input::Tick { now }),
        _ => Ok(()),
    }
}

/// Each interrupt and each tick among the events is taken by its node as an input, in order.
pub(crate) fn note_all<M: Machine, D: InfallibleDevice>(
    seats: &mut Vec<NodeSeat<M, D>>,
    alloc: Global,
    events: &[Event],
) -> Result<(), Fault>
    requires live { All (IsLive (length seats.old.items)) events.now }
    requires run { All (λ seat. Runs seat.part) seats.old.items }
    ensures size { length seats.new.items ≡ length seats.old.items }
    ensures ok { OnOk result (AreNoted M.next M.answers M.begin events.now (length events.now)
        seats.old.items seats.new.items) }
    ensures run { OnOk result (All (λ seat. Runs seat.part) seats.new.items) }
    ensures only { IsOkUnless result Fault.OutOfMemory }
{
    for event in events {
        note(seats, alloc, event)?;
    }
    Ok(())
}
