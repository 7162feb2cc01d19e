//! Prints the result of a run in threads.

ghost use Rattle.std.specs.Prelude.{◌≤◌, length, IfErr};
ghost use Rattle.rp_output.specs.Faults.{IsRunFault};
ghost use Rattle.rp_live_run.specs.LiveOutput.{replies_text, node_text, applied_text, agreed_text, outcome_text};
ghost use Rattle.rp_run.specs.Output.{names_of};
ghost use Rattle.rp_output.specs.Stream.{Writes};

use indexmap::IndexMap;
use rp_base::{Answer, Fault, NodeId};
use rp_deck::Task;
use rp_live::LiveOutcome;
use rp_output::{AgreedLine, NodeLine, NodeState, print, write_out};
use rp_run::print_reply;
use std::alloc::Global;
use std::io::Write;

/// Prints the whole result of a run, and flushes the writer.
pub fn write_outcome<W: Write>(
    alloc: Global,
    tasks: &IndexMap<String, Task>,
    outcome: &LiveOutcome,
    writer: &mut W,
) -> Result<(), Fault>
    requires { length outcome.now.applied.items ≤ 7 }
    ensures printed { Writes (W.contents writer.old) (W.contents writer.new)
        (outcome_text (names_of tasks.now) outcome.now) result }
    ensures fault { IfErr result IsRunFault }
{
    print_outcome(alloc, tasks, outcome, writer)?;
    write_out(writer)
}

/// Prints the replies under the names of their tasks, how many actions each node has applied, and
/// that the logs agree, if they do.
fn print_outcome<W: Write>(
    alloc: Global,
    tasks: &IndexMap<String, Task>,
    outcome: &LiveOutcome,
    writer: &mut W,
) -> Result<(), Fault>
    requires { length outcome.now.applied.items ≤ 7 }
    ensures printed { Writes (W.contents writer.old) (W.contents writer.new)
        (outcome_text (names_of tasks.now) outcome.now) result }
    ensures fault { IfErr result IsRunFault }
{
    print_replies(alloc, tasks, outcome.replies.as_slice(), writer)?;
    print_applied(alloc, outcome.applied.as_slice(), writer)?;
    print_agreed(alloc, outcome.agree, writer)
}

/// Prints replies in order.
fn print_replies<W: Write>(
    alloc: Global,
    tasks: &IndexMap<String, Task>,
    replies: &[Answer],
    writer: &mut W,
) -> Result<(), Fault>
    ensures printed { Writes (W.contents writer.old) (W.contents writer.new)
        (replies_text (names_of tasks.now) replies.now) result }
    ensures fault { IfErr result IsRunFault }
{
    for reply in replies {
        print_reply(alloc, tasks, *reply, writer)?;
    }
    Ok(())
}

/// Prints how many actions each node has applied, in order of nodes.
fn print_applied<W: Write>(alloc: Global, applied: &[u32], writer: &mut W) -> Result<(), Fault>
    requires { length applied.now ≤ 7 }
    ensures printed { Writes (W.contents writer.old) (W.contents writer.new)
        (applied_text 1 applied.now) result }
    ensures fault { IfErr result IsRunFault }
{
    let mut node = 0;
    for count in applied {
        node += 1;
        print_node(alloc, node, *count, writer)?;
    }
    Ok(())
}

/// Prints how many actions the node of a number has applied.
fn print_node<W: Write>(alloc: Global, node: u8, applied: u32, writer: &mut W) -> Result<(), Fault>
    requires { (1 ≤ node) × (node ≤ 7) }
    ensures printed { Writes (W.contents writer.old) (W.contents writer.new)
        (node_text node applied) result }
    ensures fault { IfErr result IsRunFault }
{
    let node = NodeId::new(node).unwrap();
    let state = NodeState::Applied(applied);
    print(alloc, writer, NodeLine { node, state })
}

/// Prints that the logs agree, if they do.
fn print_agreed<W: Write>(alloc: Global, agree: bool, writer: &mut W) -> Result<(), Fault>
    ensures printed { Writes (W.contents writer.old) (W.contents writer.new)
        (agreed_text agree) result }
    ensures fault { IfErr result IsRunFault }
{
    if agree {
        print(alloc, writer, AgreedLine)
    } else {
        Ok(())
    }
}
