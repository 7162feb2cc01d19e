//! Calls a node by its handle, and returns where the packets of its last step end.

ghost use Rattle.std.specs.Prelude.{◌≡◌, ◌∷◌, Option, Result};
ghost use Rattle.rp_handles.specs.Handles.{HandleAnswers, exchange_of};
ghost use Rattle.rp_handles.specs.declared.actor.ActorKind.TheVariants as kinds;
ghost use Rattle.rp_requests.specs.declared.not_taken.NotTaken.TheVariants as takings;
ghost use Rattle.rp_requests.specs.declared.buffer.Lengths.{Lengths as LengthsOf};
ghost use Rattle.rp_requests.specs.declared.refusal.Refusal.{Refusal as RefusalOf};
ghost use Rattle.rp_c.specs.Handles.{WritesStep, answer_code, dropped_code};

use crate::answer::code_of_answer;
use rp_handles::{ActorKind, Handle, LastStep, call, last_step, receive};
use rp_requests::{Lengths, NotTaken, Refusal};
use std::alloc::Global;

/// The length of a node's answer, and what its last step gave besides, in the layout that a C caller
/// reads.
#[repr(C)]
#[derive(Clone, Copy)]
pub struct StepLengths {
    /// How many of the answer's first bytes are to be stored.
    pub stored: usize,
    /// How many bytes the answer has, or needs.
    pub used: usize,
    /// How many packets the last step sent.
    pub packets: usize,
    /// What the last step did not take, by its number (`dropped_number`).
    pub dropped: u8,
}

/// The number of what a step did not take: 0 is nothing.
fn dropped_number(not_taken: NotTaken) -> u8
    ensures { result ≡ dropped_code not_taken }
{
    match not_taken {
        NotTaken::Nothing => 0,
        NotTaken::Full => 1,
        NotTaken::Foreign => 2,
        NotTaken::Early => 3,
        NotTaken::Stale => 4,
    }
}

/// Answers a request to the node of a handle, as `rp_handle_call`. If there is an answer, `ends` has
/// at its front where each packet of the node's last step ends, counted from the first byte of its
/// packets, as many as it has room for, and `step` is how many they are and what that step did not
/// take.
#[unsafe(no_mangle)]
pub extern "C" fn rp_node_step(
    alloc: Global,
    handle: &mut Handle,
    request: &[u8],
    answer: &mut [u8],
    ends: &mut [usize],
    step: &mut StepLengths,
) -> u8
    // claim: A C caller gets the answer of its handle's node, and with it where each packet of the
    //   node's last step ends and what that step did not take; or the number of the reason for which
    //   there is no answer
    ensures { (ended : Option (Result LengthsOf RefusalOf)) × (result ≡ answer_code ended)
        × HandleAnswers kinds.Node (exchange_of request.now answer.old answer.new)
        handle.old.kept handle.new.kept ended
        × WritesStep ended handle.new.kept ends.old ends.new step.old step.new }
{
    let ended = call(alloc, handle, ActorKind::Node, request, answer);
    write_step(alloc, &ended, handle, ends, step);
    code_of_answer(&ended)
}

/// Answers the request that brings a packet to the node of a handle, by the packet alone, which is
/// read where it is; otherwise as `rp_node_step`.
#[unsafe(no_mangle)]
pub extern "C" fn rp_node_receive(
    alloc: Global,
    handle: &mut Handle,
    packet: &[u8],
    answer: &mut [u8],
    ends: &mut [usize],
    step: &mut StepLengths,
) -> u8
    // claim: A C caller that gives its handle's node a packet alone gets the answer to the request that
    //   brings this packet
    ensures { (ended : Option (Result LengthsOf RefusalOf)) × (result ≡ answer_code ended)
        × HandleAnswers kinds.Node (exchange_of (1 ∷ packet.now) answer.old answer.new)
        handle.old.kept handle.new.kept ended
        × WritesStep ended handle.new.kept ends.old ends.new step.old step.new }
{
    let ended = receive(alloc, handle, ActorKind::Node, packet, answer);
    write_step(alloc, &ended, handle, ends, step);
    code_of_answer(&ended)
}

/// Writes the lengths of an answer, and what the last step of the handle's node gave besides; or the
/// length that an answer needs.
fn write_step(
    alloc: Global,
    ended: &Option<Result<Lengths, Refusal>>,
    handle: &mut Handle,
    ends: &mut [usize],
    step: &mut StepLengths,
)
    ensures same { handle.new.kept ≡ handle.old.kept }
    ensures written { WritesStep ended.now handle.old.kept ends.old ends.new step.old step.new }
{
    match ended {
        Some(Ok(lengths)) => {
            if let Some(last) = last_step(alloc, handle, ends) {
                *step = step_lengths(*lengths, last);
            }
        }
        Some(Err(Refusal::ShortAnswer(needed) | Refusal::LongAnswer(needed))) => {
            step.used = *needed;
        }
        _ => {}
    }
}

/// The lengths of an answer, with what the last step gave besides.
fn step_lengths(lengths: Lengths, last: LastStep) -> StepLengths
    ensures { result ≡ record {
      stored = lengths.stored;
      used = lengths.used;
      packets = last.packets;
      dropped = dropped_code last.not_taken;
    } }
{
    StepLengths {
        stored: lengths.stored,
        used: lengths.used,
        packets: last.packets,
        dropped: dropped_number(last.not_taken),
    }
}
