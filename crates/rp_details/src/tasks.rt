//! The state of each task.

ghost use Rattle.std.specs.Prelude.{◌≡◌, ◌-◌, ◌++◌, Some, IfOk, OnOk, length, min, slice_get, string_bytes};
ghost use Rattle.rp_world.specs.rp_codec.specs.declared.packet.Party.TheVariants as parties;
ghost use Rattle.rp_details.specs.Details.{last_reply_words, task_lines, tasks_lines, waiting_words};
ghost use Rattle.rp_world.specs.rp_model.specs.World.{part_at};
ghost use Rattle.rp_run.specs.rp_output.specs.FaultMessage.{with_line_feed};
ghost use Rattle.rp_run.specs.rp_output.specs.Trace.{party_text_of};
ghost use Rattle.rp_run.specs.Output.{names_of};

use crate::fields::AskedWords;
use crate::lines::add_line;
use indexmap::IndexMap;
use rp_base::{Action, Answer, TaskId};
use rp_codec::Party;
use rp_deck::Task;
use rp_machine::Machine;
use rp_output::ReplyText;
use rp_run::party_text;
use rp_store::CutDevice;
use rp_world::Cluster;
use std::alloc::{AllocError, Global};

/// Adds the state of the first n tasks, 8 at most.
pub fn add_tasks<M: Machine, D: CutDevice>(
    alloc: Global,
    text: &mut Vec<u8>,
    cluster: &Cluster<M, D>,
    tasks: &IndexMap<String, Task>,
    count: u8,
) -> Result<(), AllocError>
    ensures { OnOk result (text.new.items ≡ text.old.items
        ++ tasks_lines (names_of tasks.now) cluster.now.world (min count 8)) }
{
    for place in 0..count.min(8) {
        let task = TaskId::new(place + 1).unwrap();
        add_task(alloc, text, cluster, tasks, task)?;
    }
    Ok(())
}

/// Adds a task's state.
fn add_task<M: Machine, D: CutDevice>(
    alloc: Global,
    text: &mut Vec<u8>,
    cluster: &Cluster<M, D>,
    tasks: &IndexMap<String, Task>,
    task: TaskId,
) -> Result<(), AllocError>
    ensures { OnOk result (text.new.items ≡ text.old.items
        ++ task_lines (party_text_of (names_of tasks.now) (parties.Task task))
        (part_at cluster.now.world.tasks task)) }
{
    let replies = cluster.replies(task);
    let name = party_text(tasks, Party::Task(task));
    let count = replies.len();
    let last = last_reply(alloc, replies)?;
    let waiting = waiting_call(alloc, cluster.outstanding(task))?;
    let line = format!(in alloc; "task {name} replies {count}{last}{waiting}")?;
    add_line(text, &line)
}

/// The last of the replies that a task got, if it got one.
fn last_reply(alloc: Global, replies: &[Answer]) -> Result<String, AllocError>
    ensures { IfOk result (λ text. string_bytes text
        ≡ last_reply_words (slice_get replies.now (length replies.now - 1))) }
{
    let Some(answer) = replies.last() else {
        return Ok(String::new(alloc));
    };
    let number = answer.number;
    let reply = ReplyText {
        reply: answer.reply,
    };
    format!(in alloc; ", the last to call {number}: {reply}")
}

/// The call that a task waits for, if it waits for one.
fn waiting_call(alloc: Global, outstanding: Option<Action>) -> Result<String, AllocError>
    ensures { IfOk result (λ text. string_bytes text ≡ waiting_words outstanding) }
{
    let Some(
        Action::Call {
            number,
            object,
            operation,
            arg,
            ..
        },
    ) = outstanding
    else {
        return Ok(String::new(alloc));
    };
    let asked = AskedWords {
        object,
        operation,
        arg,
    };
    format!(in alloc; ", waits for call {number}: {asked}")
}
