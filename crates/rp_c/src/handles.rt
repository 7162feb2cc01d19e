//! Calls and closes a node or a task by its handle.

ghost use Rattle.std.specs.Prelude.{◌≡◌, Option, Result, None};
ghost use Rattle.rp_handles.specs.Handles.{exchange_of, actor_kind_of};
ghost use Rattle.rp_requests.specs.declared.buffer.Lengths.{Lengths as LengthsOf};
ghost use Rattle.rp_requests.specs.declared.refusal.Refusal.{Refusal as RefusalOf};
ghost use Rattle.rp_c.specs.Handles.{CallByHandle, WritesLengths, answer_code};

use crate::answer::{AnswerLengths, code_of_answer, write_lengths};
use rp_handles::{ActorKind, Handle, call, close};
use rp_requests::{Lengths, Refusal};
use std::alloc::Global;

/// Answers a request to the node of a handle, if the kind is 1, or to its task, if it is 2, as
/// `HandleNode::call` or `Task::call` of `rp_requests`. `RP_WRONG_HANDLE` if the handle is closed or
/// keeps the other kind, or if there is no such kind: then nothing has changed.
#[unsafe(no_mangle)]
pub extern "C" fn rp_handle_call(
    alloc: Global,
    kind: u8,
    handle: &mut Handle,
    request: &[u8],
    answer: &mut [u8],
    lengths: &mut AnswerLengths,
) -> u8
    // claim: A C caller gets the answer of its handle's node or task, with its lengths, or the number
    //   of the reason for which there is none; by a handle that keeps no actor of this kind nothing
    //   has changed
    ensures { (ended : Option (Result LengthsOf RefusalOf)) × (result ≡ answer_code ended)
        × CallByHandle (actor_kind_of kind) (exchange_of request.now answer.old answer.new)
        handle.old.kept handle.new.kept ended
        × WritesLengths ended lengths.old lengths.new }
{
    let ended = called(alloc, kind, handle, request, answer);
    write_lengths(&ended, lengths);
    code_of_answer(&ended)
}

/// Answers a request to the actor of a handle; `None` if it keeps none of this kind.
fn called(
    alloc: Global,
    kind: u8,
    handle: &mut Handle,
    request: &[u8],
    answer: &mut [u8],
) -> Option<Result<Lengths, Refusal>>
    ensures { CallByHandle (actor_kind_of kind) (exchange_of request.now answer.old answer.new)
        handle.old.kept handle.new.kept result }
{
    let kind = ActorKind::of(kind)?;
    call(alloc, handle, kind, request, answer)
}

/// Frees what a handle keeps, and closes the handle. A closed handle stays closed.
#[unsafe(no_mangle)]
pub extern "C" fn rp_handle_close(alloc: Global, handle: &mut Handle)
    // claim: A handle that a C caller closes keeps nothing
    ensures { handle.new.kept ≡ None }
{
    close(alloc, handle)
}
