//! Opens a task's stub by its handle, and gives it packets.

ghost use Rattle.std.specs.Prelude.{◌≡◌, ◌∷◌, Option, Result};
ghost use Rattle.rp_handles.specs.Handles.{HandleAnswers, exchange_of};
ghost use Rattle.rp_handles.specs.declared.actor.ActorKind.TheVariants as kinds;
ghost use Rattle.rp_requests.specs.declared.buffer.Lengths.{Lengths as LengthsOf};
ghost use Rattle.rp_requests.specs.declared.refusal.Refusal.{Refusal as RefusalOf};
ghost use Rattle.rp_c.specs.Handles.{TaskByHandle, TaskByHandleAfter, WritesLengths, answer_code, opening_code};

use crate::answer::{AnswerLengths, code_of_answer, code_of_opening, write_lengths};
use rp_handles::{ActorKind, Handle, open_task, open_task_after, receive};
use rp_requests::Refusal;
use std::alloc::Global;

/// Opens a task, 1 to 8, which has made no call; what the handle kept before is closed. A refusal
/// changes nothing.
#[unsafe(no_mangle)]
pub extern "C" fn rp_task_open(alloc: Global, number: u8, stub: &mut Handle) -> u8
    // claim: A C caller gets a handle of a task that has made no call; or the number of the reason for
    //   which there is none, and then nothing has changed
    ensures { (refusal : Option RefusalOf) × (result ≡ opening_code refusal)
        × TaskByHandle number stub.old.kept stub.new.kept refusal }
{
    code_of_opening(opened(alloc, number, stub))
}

/// Opens a task, or returns the refusal.
fn opened(alloc: Global, number: u8, stub: &mut Handle) -> Option<Refusal>
    ensures { TaskByHandle number stub.old.kept stub.new.kept result }
{
    match open_task(alloc, number, stub) {
        Ok(()) => None,
        Err(refusal) => Some(refusal),
    }
}

/// Opens a task, 1 to 8, which has made n calls, none of which is outstanding; what the handle kept
/// before is closed. A refusal changes nothing.
#[unsafe(no_mangle)]
pub extern "C" fn rp_task_open_after(alloc: Global, number: u8, calls: u32, stub: &mut Handle) -> u8
    // claim: A C caller gets a handle of a task that goes on after n calls; or the number of the reason
    //   for which there is none, and then nothing has changed
    ensures { (refusal : Option RefusalOf) × (result ≡ opening_code refusal)
        × TaskByHandleAfter number calls stub.old.kept stub.new.kept refusal }
{
    code_of_opening(opened_after(alloc, number, calls, stub))
}

/// Opens a task that has made n calls, or returns the refusal.
fn opened_after(alloc: Global, number: u8, calls: u32, stub: &mut Handle) -> Option<Refusal>
    ensures { TaskByHandleAfter number calls stub.old.kept stub.new.kept result }
{
    match open_task_after(alloc, number, calls, stub) {
        Ok(()) => None,
        Err(refusal) => Some(refusal),
    }
}

/// Answers the request that brings a packet to the task of a handle, by the packet alone, which is
/// read where it is; otherwise as `rp_handle_call`.
#[unsafe(no_mangle)]
pub extern "C" fn rp_task_receive(
    alloc: Global,
    stub: &mut Handle,
    packet: &[u8],
    answer: &mut [u8],
    lengths: &mut AnswerLengths,
) -> u8
    // claim: A C caller that gives its handle's task a packet alone gets the answer to the request that
    //   brings this packet
    ensures { (ended : Option (Result LengthsOf RefusalOf)) × (result ≡ answer_code ended)
        × HandleAnswers kinds.Task (exchange_of (3 ∷ packet.now) answer.old answer.new)
        stub.old.kept stub.new.kept ended
        × WritesLengths ended lengths.old lengths.new }
{
    let ended = receive(alloc, stub, ActorKind::Task, packet, answer);
    write_lengths(&ended, lengths);
    code_of_answer(&ended)
}
