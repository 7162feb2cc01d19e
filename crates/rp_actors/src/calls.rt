//! A call of a task as a packet, and the reply in a packet.

ghost use Rattle.std.specs.Prelude.{◌≡◌, IfOk, OnErr};
ghost use Rattle.rp_base.specs.Action.{IsRight};
ghost use Rattle.rp_codec.specs.Decoding.{IsLongText};
ghost use Rattle.rp_codec.specs.Message.{IsCallBy};
ghost use Rattle.rp_codec.specs.Reading.{all_of};
ghost use Rattle.rp_model.specs.Tasks as tasks;
ghost use Rattle.rp_actors.specs.Going.{reply_read};

use rp_base::{Action, NodeId, Reply, TaskId};
use rp_codec::{Body, Packet, Party, decode, usual_reply};
use std::alloc::{AllocError, Global};

/// A task's call, as a packet to a node.
pub fn asks(task: TaskId, node: NodeId, call: Action) -> Packet
    requires own { IsCallBy task call }
    requires right { IsRight call }
    ensures { result ≡ tasks.asks task node call }
{
    Packet::new(
        Party::Task(task),
        Party::Node(node),
        Body::Call { action: call },
    )
}

/// Decodes the number and the reply of a packet, if it is a reply. Only the text of a report or of
/// a promise for a range takes memory.
pub fn decode_reply(alloc: Global, text: &[u8]) -> Result<Option<(u32, Reply)>, AllocError>
    // claim: The reply of a packet is read from its text of version 1 or 2; none is read where the
    //   packet is no reply, or the bytes are no packet's
    ensures reply { IfOk result (λ stated. stated ≡ reply_read (all_of text.now)) }
    ensures memory { OnErr result (IsLongText text.now) }
{
    if let Ok(sent) = usual_reply(text) {
        return Ok(Some((sent.number, sent.reply)));
    }
    let Ok(packet) = decode(alloc, text)? else {
        return Ok(None);
    };
    match *packet.body() {
        Body::Reply { number, reply } => Ok(Some((number, reply))),
        _ => Ok(None),
    }
}
