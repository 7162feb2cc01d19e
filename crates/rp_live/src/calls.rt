//! The calls of a task.

ghost use Rattle.std.specs.Prelude.{◌≡◌, filter_map, IfOk};
ghost use Rattle.rp_live.specs.Events.{call_by};

use rp_base::TaskId;
use rp_model::Event;
use rp_threads::TaskCall;
use std::alloc::{AllocError, Global};

/// The call that an event is, if this task makes it.
fn call_in(event: &Event, caller: TaskId) -> Option<TaskCall>
    ensures { result ≡ call_by caller event.now }
{
    match *event {
        Event::Submit {
            task,
            node,
            object,
            operation,
            arg,
        } if task == caller => Some(TaskCall {
            node,
            object,
            operation,
            arg,
        }),
        _ => None,
    }
}

/// The calls of a task among the events, in order.
pub(crate) fn calls_of(
    alloc: Global,
    events: &[Event],
    task: TaskId,
) -> Result<Vec<TaskCall>, AllocError>
    ensures { IfOk result (λ calls. calls.items ≡ filter_map (call_by task) events.now) }
{
    let mut calls = Vec::new(alloc);
    for event in events {
        if let Some(call) = call_in(event, task) {
            calls.push(call)?;
        }
    }
    Ok(calls)
}
