//! Opens, calls and closes an actor by its handle.

ghost use Rattle.std.specs.Prelude.{◌≡◌, ◌<◌, ◌+◌, ◌^◌, ◌∷◌, drop, length, Some, None, IfOk, IfErr, OnOk, OnErr};
ghost use Rattle.rp_requests.specs.rp_base.specs.declared.fault.Fault.TheVariants as faults;
ghost use Rattle.rp_requests.specs.Tails.{tail_of};
ghost use Rattle.rp_requests.specs.declared.refusal.Refusal.TheVariants as refusals;
ghost use Rattle.rp_handles.specs.DeckNodes.{OpensNoNode};
ghost use Rattle.rp_handles.specs.Handles.{HandleAdvises, HandleAnswers, HandleShows, IsNoTask, KeepsNode, KeepsTask, KeepsTaskAfter, exchange_of, receives_byte};

use crate::actor::{Actor, ActorKind, LastStep};
use crate::deck_nodes::node_of_deck;
use crate::handle::{Handle, closed, into_box, of};
use rp_base::Fault;
use rp_patience::{Advice, Patience};
use rp_requests::{Lengths, Refusal, Tail, Task};
use std::alloc::Global;
use std::mem::replace;

/// What a node found on its device.
#[derive(Clone, Copy)]
pub struct Found {
    /// How many records the device holds.
    pub records: usize,
    /// How many bytes of the device are whole records: the caller truncates what is after them.
    pub kept: usize,
    /// What is after them.
    pub tail: Tail,
}

/// Opens a node of a deck over the bytes of its device, which are copied; the deck's script is not
/// run. What the handle kept before is closed. Refused with `BadDeck`, with `BadConfig` if the deck
/// has no such node, with `NoObjects` if it has one and declares a tally, or with `OutOfMemory`:
/// then the handle keeps what it kept.
pub fn open_node(
    alloc: Global,
    deck: &[u8],
    number: u8,
    bytes: &[u8],
    handle: &mut Handle,
) -> Result<Found, Refusal>
    requires { length deck.now + 1 < 2 ^ 32 }
    // claim (ok): A handle keeps the node of the deck that its bytes mean, which runs by the whole
    //   records that the device's bytes begin with
    ensures ok { IfOk result (λ found. KeepsNode deck.now number bytes.now handle.new.kept
        found.records found.kept) }
    // claim (tail): A caller learns whether what is after the whole records of a node's device begins a
    //   record or not
    ensures tail { IfOk result (λ found. found.tail ≡ tail_of (drop found.kept bytes.now)) }
    // claim (err): A node of a deck is refused for the one reason that holds: the deck's first bad
    //   line; a node that it does not have; or, for a node that it has, a tally; or memory ran out
    ensures err { IfErr result (OpensNoNode deck.now number) }
    // claim (same): A handle that is refused a node or a task keeps what it kept
    ensures same { OnErr result (handle.new.kept ≡ handle.old.kept) }
{
    let opened = node_of_deck(alloc, deck, number, bytes)?;
    let found = Found {
        records: opened.records,
        kept: opened.kept,
        tail: opened.tail,
    };
    let actor = boxed(alloc, Actor::Node(opened.node))?;
    keep(alloc, actor, handle);
    Ok(found)
}

/// Opens a task, 1 to 8, which has made no call. What the handle kept before is closed. Refused
/// with `BadConfig` for another number, or with `OutOfMemory`: then the handle keeps what it kept.
pub fn open_task(alloc: Global, number: u8, handle: &mut Handle) -> Result<(), Refusal>
    // claim (ok): A handle keeps a task that has made no call
    ensures ok { OnOk result (KeepsTask number handle.new.kept) }
    // claim (err): A task is refused only for its number, or if memory ran out
    ensures err { IfErr result (IsNoTask number) }
    // claim as open_node (same)
    ensures same { OnErr result (handle.new.kept ≡ handle.old.kept) }
{
    open_task_after(alloc, number, 0, handle)
}

/// Opens a task, 1 to 8, which has made n calls, none of which is outstanding: its next call has
/// number n + 1. What the handle kept before is closed. Refused as `open_task`.
pub fn open_task_after(
    alloc: Global,
    number: u8,
    calls: u32,
    handle: &mut Handle,
) -> Result<(), Refusal>
    // claim (ok): A handle keeps a task that goes on after n calls
    ensures ok { OnOk result (KeepsTaskAfter number calls handle.new.kept) }
    // claim as open_task (err)
    ensures err { IfErr result (IsNoTask number) }
    // claim as open_node (same)
    ensures same { OnErr result (handle.new.kept ≡ handle.old.kept) }
{
    let task = Task::after(number, calls)?;
    let actor = boxed(alloc, Actor::Task(task))?;
    keep(alloc, actor, handle);
    Ok(())
}

/// Answers a request to the node or the task of a handle, as `HandleNode::call` or `Task::call` of
/// `rp_requests`; `None` if the handle is closed or keeps an actor of the other kind.
pub fn call(
    alloc: Global,
    handle: &mut Handle,
    kind: ActorKind,
    request: &[u8],
    answer: &mut [u8],
) -> Option<Result<Lengths, Refusal>>
    // claim: A request by a node's handle is answered by its node, one by a task's handle by its task,
    //   and by nothing else; a handle that keeps none has no answer, and nothing has changed
    ensures { HandleAnswers kind (exchange_of request.now answer.old answer.new)
        handle.old.kept handle.new.kept result }
{
    let taken = replace(handle, closed());
    let mut actor = into_box(alloc, taken)?;
    let result = actor.call(alloc, kind, request, answer);
    *handle = of(actor);
    result
}

/// Answers the request that brings a packet to the node or the task of a handle, by the packet alone,
/// which is read where it is; `None` as `call`.
pub fn receive(
    alloc: Global,
    handle: &mut Handle,
    kind: ActorKind,
    packet: &[u8],
    answer: &mut [u8],
) -> Option<Result<Lengths, Refusal>>
    // claim: A packet that is received by a handle is answered as the request that brings it
    ensures { HandleAnswers kind
        (exchange_of (receives_byte kind ∷ packet.now) answer.old answer.new)
        handle.old.kept handle.new.kept result }
{
    let taken = replace(handle, closed());
    let mut actor = into_box(alloc, taken)?;
    let result = actor.receive(alloc, kind, packet, answer);
    *handle = of(actor);
    result
}

/// What a handle's node is to do after quiet turns, as `HandleNode::advise` of `rp_requests`; `None` if the
/// handle keeps no node, and then the patience is as it was.
pub fn advise(
    alloc: Global,
    handle: &mut Handle,
    patience: &mut Patience,
    turns: u64,
) -> Option<Advice>
    // claim (advised): By a node's handle a caller learns whether the node is to lead, and where, or
    //   to ask for positions that it misses, exactly by its rule of patience; the node stays as it is
    ensures advised { HandleAdvises handle.old.kept turns patience.old patience.new result }
    ensures same { handle.new.kept ≡ handle.old.kept }
{
    let taken = replace(handle, closed());
    let actor = into_box(alloc, taken)?;
    let advised = actor.advise(patience, turns);
    *handle = of(actor);
    advised
}

/// What the last step of a handle's node gave besides the bytes of its answer, and where its packets
/// end, as `HandleNode::put_ends` of `rp_requests`; `None` if the handle keeps no node.
pub fn last_step(alloc: Global, handle: &mut Handle, ends: &mut [usize]) -> Option<LastStep>
    // claim (shown): By a node's handle a caller learns where each packet of the node's last step ends,
    //   and what that step did not take
    ensures shown { HandleShows handle.old.kept ends.old ends.new result }
    ensures same { handle.new.kept ≡ handle.old.kept }
{
    let taken = replace(handle, closed());
    let actor = into_box(alloc, taken)?;
    let shown = actor.last_step(ends);
    *handle = of(actor);
    shown
}

/// Frees what a handle keeps, and closes the handle.
pub fn close(alloc: Global, handle: &mut Handle)
    // claim: A handle that was closed keeps nothing
    ensures { handle.new.kept ≡ None }
{
    let taken = replace(handle, closed());
    let _ = into_box(alloc, taken);
}

/// Puts an actor into a box.
fn boxed(alloc: Global, actor: Actor) -> Result<Box<Actor>, Refusal>
    ensures ok { IfOk result (λ boxed. boxed.value ≡ actor) }
    ensures err { IfErr result (λ refusal. refusal ≡ refusals.Fault faults.OutOfMemory) }
{
    match Box::new(alloc, actor) {
        Ok(boxed) => Ok(boxed),
        Err(_) => Err(Refusal::Fault(Fault::OutOfMemory)),
    }
}

/// Puts the actor into the handle, and closes what the handle kept before.
fn keep(alloc: Global, actor: Box<Actor>, handle: &mut Handle)
    ensures { handle.new.kept ≡ Some actor.value }
{
    let before = replace(handle, of(actor));
    let _ = into_box(alloc, before);
}
