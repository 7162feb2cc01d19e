//! Prints the parts of an event's effect.

ghost use Rattle.std.specs.Prelude.{◌≡◌, ◌≤◌, ◌-◌, [], ◌∷◌, drop, option_to_list, IfErr, IfOk};
ghost use Rattle.rp_model.specs.World.{part_at};
ghost use Rattle.rp_run.specs.Items.{item_text, items_text, notes_text};
ghost use Rattle.rp_run.specs.Output.{names_of, trace_notes, traced_notes, opened_notes, full_notes, dropped_notes, is_restart, node_of_event, node_of_step, receiver_of, reply_item, taken_items};
ghost use Rattle.rp_output.specs.Trace.{task_name, party_text_of};
ghost use Rattle.rp_output.specs.PartyText.{shown_party};
ghost use Rattle.rp_output.specs.Stream.{Writes};
ghost use Rattle.rp_output.specs.Faults.{IsRunFault};

use crate::options::RunOptions;
use indexmap::IndexMap;
use rp_base::{Answer, Fault, NodeId, TaskId};
use rp_codec::{Packet, Party, decode};
use rp_deck::Task;
use rp_machine::Machine;
use rp_model::{Dropped, Event, Step};
use rp_output::{
    BodyText, NodeLine, NodeState, PartyText, ReplyLine, TraceLine, print, print_reply_line,
};
use rp_store::CutDevice;
use rp_world::Cluster;
use std::alloc::Global;
use std::io::Write;

/// Prints the packets from a number on, if they are printed.
#[inline(always)]
pub(crate) fn print_trace<M: Machine, D: CutDevice, W: Write>(
    alloc: Global,
    cluster: &Cluster<M, D>,
    options: &RunOptions<'_>,
    first: u64,
    writer: &mut W,
) -> Result<(), Fault>
    requires { 1 ≤ first }
    ensures printed { Writes (W.contents writer.old) (W.contents writer.new)
        (notes_text (traced_notes options.now.traced (names_of options.now.tasks.now) first
        (drop (first - 1) cluster.now.world.sent))) result }
    ensures fault { IfErr result IsRunFault }
{
    if options.traced {
        print_packets(alloc, cluster, options.tasks, first, writer)
    } else {
        Ok(())
    }
}

/// Prints the packets from a number on.
#[inline(never)]
fn print_packets<M: Machine, D: CutDevice, W: Write>(
    alloc: Global,
    cluster: &Cluster<M, D>,
    tasks: &IndexMap<String, Task>,
    first: u64,
    writer: &mut W,
) -> Result<(), Fault>
    requires { 1 ≤ first }
    ensures printed { Writes (W.contents writer.old) (W.contents writer.new)
        (notes_text (trace_notes (names_of tasks.now) first
        (drop (first - 1) cluster.now.world.sent))) result }
    ensures fault { IfErr result IsRunFault }
{
    for number in first..cluster.messages() + 1 {
        print_message(alloc, cluster, tasks, number, writer)?;
    }
    Ok(())
}

/// Prints the message of a number, if there is one.
fn print_message<M: Machine, D: CutDevice, W: Write>(
    alloc: Global,
    cluster: &Cluster<M, D>,
    tasks: &IndexMap<String, Task>,
    number: u64,
    writer: &mut W,
) -> Result<(), Fault>
    ensures printed { Writes (W.contents writer.old) (W.contents writer.new)
        (notes_text (trace_notes (names_of tasks.now) number
        (option_to_list (part_at cluster.now.world.sent number)))) result }
    ensures fault { IfErr result IsRunFault }
{
    match sent_packet(alloc, cluster, number)? {
        Some(packet) => print_packet(alloc, tasks, number, &packet, writer),
        None => Ok(()),
    }
}

/// The message of this number, from 1; `None` if there is no such message.
pub fn sent_packet<M: Machine, D: CutDevice>(
    alloc: Global,
    cluster: &Cluster<M, D>,
    number: u64,
) -> Result<Option<Packet>, Fault>
    ensures packet { IfOk result (λ packet. packet ≡ part_at cluster.now.world.sent number) }
    ensures fault { IfErr result IsRunFault }
{
    match cluster.message(alloc, number) {
        Ok(text) => Ok(decode(alloc, &text)?.ok()),
        Err(Fault::NoSuchMessage) => Ok(None),
        Err(fault) => Err(fault),
    }
}

/// Prints a packet by its number.
fn print_packet<W: Write>(
    alloc: Global,
    tasks: &IndexMap<String, Task>,
    number: u64,
    packet: &Packet,
    writer: &mut W,
) -> Result<(), Fault>
    ensures printed { Writes (W.contents writer.old) (W.contents writer.new)
        (notes_text (trace_notes (names_of tasks.now) number (packet.now ∷ []))) result }
    ensures fault { IfErr result IsRunFault }
{
    let line = TraceLine {
        number,
        from: party_text(tasks, packet.from()),
        to: party_text(tasks, packet.to()),
        body: BodyText {
            body: packet.body(),
        },
    };
    print(alloc, writer, line)
}

/// A party as it is printed: a task by its name.
pub fn party_text(tasks: &IndexMap<String, Task>, party: Party) -> PartyText<'_>
    ensures { shown_party result ≡ party_text_of (names_of tasks.now) party }
{
    match party {
        Party::Node(node) => PartyText::Node(node),
        Party::Task(task) => PartyText::Task(task_name(tasks, task)),
        Party::Audit => PartyText::Audit,
    }
}

/// The name of a task.
fn task_name(tasks: &IndexMap<String, Task>, task: TaskId) -> &str
    ensures { result.now ≡ task_name (names_of tasks.now) task }
{
    match tasks.get_index(usize::from(task.get()) - 1) {
        Some((name, _)) => name.as_str(),
        None => "",
    }
}

/// Whether a node starts again, for which a line is printed.
#[inline(always)]
pub(crate) fn is_restart(event: &Event) -> bool
    ensures { result ≡ is_restart event.now }
{
    matches!(event, Event::Restart(_))
}

/// Prints the line of a restart.
#[inline(always)]
pub(crate) fn print_restart<W: Write>(
    alloc: Global,
    event: &Event,
    opened: Option<(u64, u64)>,
    writer: &mut W,
) -> Result<(), Fault>
    ensures printed { Writes (W.contents writer.old) (W.contents writer.new)
        (notes_text (opened_notes event.now opened)) result }
    ensures fault { IfErr result IsRunFault }
{
    let Event::Restart(node) = *event else {
        return Ok(());
    };
    match opened {
        Some((records, bytes)) => {
            let state = NodeState::Opened { records, bytes };
            print(alloc, writer, NodeLine { node, state })
        }
        None => {
            let state = NodeState::Running;
            print(alloc, writer, NodeLine { node, state })
        }
    }
}

/// Prints that a pending item was dropped because there was no place for it, if one was.
#[inline(always)]
pub(crate) fn print_dropped<M: Machine, D: CutDevice, W: Write>(
    alloc: Global,
    cluster: &Cluster<M, D>,
    event: &Event,
    dropped: Dropped,
    writer: &mut W,
) -> Result<(), Fault>
    ensures printed { Writes (W.contents writer.old) (W.contents writer.new)
        (notes_text (dropped_notes (node_of_event cluster.now.world.sent event.now) dropped))
        result }
    ensures fault { IfErr result IsRunFault }
{
    match dropped {
        Dropped::Full => print_full(alloc, cluster, event, writer),
        Dropped::No | Dropped::Foreign => Ok(()),
    }
}

/// Prints that the node of an event has no place for one more pending item.
#[inline(never)]
fn print_full<M: Machine, D: CutDevice, W: Write>(
    alloc: Global,
    cluster: &Cluster<M, D>,
    event: &Event,
    writer: &mut W,
) -> Result<(), Fault>
    ensures printed { Writes (W.contents writer.old) (W.contents writer.new)
        (notes_text (full_notes (node_of_event cluster.now.world.sent event.now))) result }
    ensures fault { IfErr result IsRunFault }
{
    match node_of_event(alloc, cluster, event)? {
        Some(node) => {
            let state = NodeState::Full;
            print(alloc, writer, NodeLine { node, state })
        }
        None => Ok(()),
    }
}

/// The node that takes an event; `None` if a task does.
pub fn node_of_event<M: Machine, D: CutDevice>(
    alloc: Global,
    cluster: &Cluster<M, D>,
    event: &Event,
) -> Result<Option<NodeId>, Fault>
    ensures node { IfOk result (λ node. node ≡ node_of_event cluster.now.world.sent event.now) }
    ensures fault { IfErr result IsRunFault }
{
    match *event {
        Event::Node(step) | Event::Cut { step, .. } => node_of_step(alloc, cluster, step),
        Event::Stop(node) | Event::Restart(node) => Ok(Some(node)),
        Event::Submit { .. } | Event::Again { .. } => Ok(None),
    }
}

/// The node that makes a step.
fn node_of_step<M: Machine, D: CutDevice>(
    alloc: Global,
    cluster: &Cluster<M, D>,
    step: Step,
) -> Result<Option<NodeId>, Fault>
    ensures node { IfOk result (λ node. node ≡ node_of_step cluster.now.world.sent step) }
    ensures fault { IfErr result IsRunFault }
{
    match step {
        Step::Deliver(message) => receiver(alloc, cluster, message),
        Step::Lead { node, .. }
        | Step::LeadRange { node, .. }
        | Step::Interrupt { node, .. }
        | Step::Tick { node, .. }
        | Step::Report { node, .. }
        | Step::Ask { node, .. } => Ok(Some(node)),
    }
}

/// The node that receives a message.
fn receiver<M: Machine, D: CutDevice>(
    alloc: Global,
    cluster: &Cluster<M, D>,
    message: u64,
) -> Result<Option<NodeId>, Fault>
    ensures node { IfOk result (λ node. node
        ≡ receiver_of (part_at cluster.now.world.sent message)) }
    ensures fault { IfErr result IsRunFault }
{
    let Some(packet) = sent_packet(alloc, cluster, message)? else {
        return Ok(None);
    };
    match packet.to() {
        Party::Node(node) => Ok(Some(node)),
        Party::Task(_) | Party::Audit => Ok(None),
    }
}

/// Prints the reply that a task takes, if it takes one.
#[inline(always)]
pub(crate) fn print_taken<W: Write>(
    alloc: Global,
    tasks: &IndexMap<String, Task>,
    taken: Option<Answer>,
    writer: &mut W,
) -> Result<(), Fault>
    ensures printed { Writes (W.contents writer.old) (W.contents writer.new)
        (items_text (taken_items (names_of tasks.now) taken)) result }
    ensures fault { IfErr result IsRunFault }
{
    match taken {
        Some(answer) => print_reply(alloc, tasks, answer, writer),
        None => Ok(()),
    }
}

/// Prints a reply under the name of its task.
#[inline(never)]
pub fn print_reply<W: Write>(
    alloc: Global,
    tasks: &IndexMap<String, Task>,
    answer: Answer,
    writer: &mut W,
) -> Result<(), Fault>
    ensures printed { Writes (W.contents writer.old) (W.contents writer.new)
        (item_text (reply_item (names_of tasks.now) answer)) result }
    ensures fault { IfErr result IsRunFault }
{
    let line = ReplyLine {
        task: task_name(tasks, answer.task),
        number: answer.number,
        reply: answer.reply,
    };
    print_reply_line(alloc, writer, line)
}
