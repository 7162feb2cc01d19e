//! Opens a node of a deck over a caller's bytes.

ghost use Rattle.std.specs.Prelude.{◌≡◌, ◌≤◌, ◌<◌, ◌+◌, ◌^◌, drop, length, IfOk, IfErr};
ghost use Rattle.rp_requests.specs.rp_base.specs.Number.{IsNode};
ghost use Rattle.rp_requests.specs.rp_base.specs.declared.fault.Fault.TheVariants as faults;
ghost use Rattle.rp_requests.specs.Tails.{tail_of};
ghost use Rattle.rp_requests.specs.declared.refusal.Refusal.TheVariants as refusals;
ghost use Rattle.rp_handles.specs.DeckNodes.{IsNoDeck, MeansDeck, OpensNode, OpensNoNode};

use rp_base::{Fault, NodeId};
use rp_deck::{Deck, DeckProgram, Mode, read_deck};
use rp_object::Objects;
use rp_requests::{HandleNode, Opened, Refusal};
use std::alloc::Global;

/// Opens a node of a deck over the bytes of its device. The deck's script is not run. Refused with
/// `BadDeck`, with `BadConfig` if the deck has no such node, with `NoObjects` if it has one and
/// declares a tally, or with `OutOfMemory`.
pub(crate) fn node_of_deck(
    alloc: Global,
    deck: &[u8],
    number: u8,
    bytes: &[u8],
) -> Result<Opened<Objects>, Refusal>
    requires { length deck.now + 1 < 2 ^ 32 }
    ensures ok { IfOk result (λ opened. OpensNode deck.now number bytes.now
        opened.node opened.records opened.kept) }
    ensures tail { IfOk result (λ opened. opened.tail ≡ tail_of (drop opened.kept bytes.now)) }
    ensures err { IfErr result (OpensNoNode deck.now number) }
{
    let Deck {
        config,
        program,
        ..
    } = deck_of(alloc, deck)?;
    let node = node_of(config.nodes, number)?;
    match program {
        DeckProgram::Tally(_) => Err(Refusal::NoObjects),
        DeckProgram::Objects(program) => HandleNode::open(alloc, node, config, &program, bytes),
    }
}

/// The deck that the bytes mean.
pub(crate) fn deck_of(alloc: Global, bytes: &[u8]) -> Result<Deck, Refusal>
    requires { length bytes.now + 1 < 2 ^ 32 }
    ensures ok { IfOk result (MeansDeck bytes.now) }
    ensures err { IfErr result (IsNoDeck bytes.now) }
{
    match read_deck(alloc, bytes, Mode::Script) {
        Ok(deck) => Ok(deck),
        Err(fault) => Err(Refusal::Fault(fault)),
    }
}

/// The node of this number, if there are n nodes.
pub(crate) fn node_of(nodes: u8, number: u8) -> Result<NodeId, Refusal>
    ensures ok { IfOk result (λ node. (node ≡ number) × (IsNode number × (number ≤ nodes))) }
    ensures err { IfErr result (λ refusal. (refusal ≡ refusals.Fault faults.BadConfig)
        × (¬ (IsNode number × (number ≤ nodes)))) }
{
    match NodeId::new(number) {
        Some(node) if node.get() <= nodes => Ok(node),
        _ => Err(Refusal::Fault(Fault::BadConfig)),
    }
}
