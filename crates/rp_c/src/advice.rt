//! What a node is to do next, by its handle.

ghost use Rattle.std.specs.Prelude.{◌≡◌, Option};
ghost use Rattle.rp_handles.specs.Handles.{HandleAdvises};
ghost use Rattle.rp_requests.specs.rp_patience.specs.declared.advice.Advice.{Advice as AdviceOf};
ghost use Rattle.rp_c.specs.Advice.{WritesAdvice, advised_code, written_advice};

use rp_handles::{Handle, advise};
use rp_patience::{Advice, Patience};
use std::alloc::Global;

/// What a node is to do, in the layout that a C caller reads.
#[repr(C)]
#[derive(Clone, Copy)]
pub struct NodeAdvice {
    /// 0 nothing, 1 to lead, 2 to ask another node for the positions that it misses.
    pub kind: u8,
    /// Where it is to lead; otherwise 0.
    pub position: u16,
}

/// What the node of a handle is to do after quiet turns, by its patience, as `HandleNode::advise` of
/// `rp_requests`. `RP_WRONG_HANDLE` if the handle is closed or keeps a task: then nothing has changed.
#[unsafe(no_mangle)]
pub extern "C" fn rp_node_advise(
    alloc: Global,
    handle: &mut Handle,
    patience: &mut Patience,
    turns: u64,
    advice: &mut NodeAdvice,
) -> u8
    // claim: A C caller learns whether its handle's node is to lead, and where, or to ask for positions
    //   that it misses, exactly by the node's rule of patience; the node stays as it is, and by a
    //   handle that keeps no node nothing has changed
    ensures { (advised : Option AdviceOf) × (result ≡ advised_code advised)
        × HandleAdvises handle.old.kept turns patience.old patience.new advised
        × (handle.new.kept ≡ handle.old.kept) × WritesAdvice advised advice.old advice.new }
{
    match advise(alloc, handle, patience, turns) {
        Some(advised) => {
            *advice = written(advised);
            0
        }
        None => 68,
    }
}

/// What a node is to do, as it is written.
fn written(advice: Advice) -> NodeAdvice
    ensures { result ≡ written_advice advice }
{
    match advice {
        Advice::Nothing => NodeAdvice {
            kind: 0,
            position: 0,
        },
        Advice::Lead(position) => NodeAdvice {
            kind: 1,
            position: position.get(),
        },
        Advice::Ask => NodeAdvice {
            kind: 2,
            position: 0,
        },
    }
}
