//! The deck with which a station goes on over new devices once the log of its node has ended.

ghost use Rattle.std.specs.Prelude.{◌≡◌, ◌+◌, ◌<◌, ◌^◌, length, IfErr, IfOk};
ghost use Rattle.rp_handles.specs.NextDecks.{ActorGoesOn, GoesNotOn, GoesOn, HandleGoesOn, mark_of};

use crate::actor::Actor;
use crate::declared::declared_part;
use crate::handle::{Handle, closed, into_box, of};
use crate::next_deck;
use rp_base::Fault;
use rp_object::Objects;
use rp_requests::HandleNode;
use sha2::{Digest, Sha256};
use std::alloc::{AllocError, Global};
use std::mem::replace;

/// Why there is no next deck.
#[derive(Clone, Copy)]
pub enum NoNextDeck {
    OutOfMemory,
    /// Positions of the log are left.
    NotEnded,
    /// A call waits, a timing event is set, or the deck is not the node's.
    AtWork,
}

/// The most bytes of an image of which a next deck is made; a deck has no more.
const MOST_BYTES: usize = 1_048_576;

/// The text of the deck with which a station goes on that runs this deck, by the node of a handle, whose
/// log has ended: as `next_deck`, after a comment with the digest of this deck. `None` if
/// the handle keeps no node. The node stays as it is.
pub fn next_deck_of(
    alloc: Global,
    handle: &mut Handle,
    deck: &[u8],
) -> Option<Result<Vec<u8>, NoNextDeck>>
    requires { length deck.now + 1 < 2 ^ 32 }
    // claim (next): By a node's handle a station whose log has ended goes on with a deck that has the
    //   same lines, and whose objects start as the node's ended; there is none while positions are left
    ensures next { HandleGoesOn deck.now handle.old.kept result }
    ensures same { handle.new.kept ≡ handle.old.kept }
{
    let taken = replace(handle, closed());
    let actor = into_box(alloc, taken)?;
    let next = actor.next_deck(alloc, deck);
    *handle = of(actor);
    next
}

impl Actor {
    /// The next deck of this deck by a node, as `next_deck_of`; `None` if the actor is a task.
    fn next_deck(&self, alloc: Global, deck: &[u8]) -> Option<Result<Vec<u8>, NoNextDeck>>
        requires { length deck.now + 1 < 2 ^ 32 }
        ensures { ActorGoesOn deck.now self.now result }
    {
        match self {
            Actor::Node(node) => Some(deck_after(alloc, node, deck)),
            Actor::Task(_) => None,
        }
    }
}

/// The next deck of this deck by a node of it.
fn deck_after(alloc: Global, node: &HandleNode<Objects>, deck: &[u8]) -> Result<Vec<u8>, NoNextDeck>
    requires { length deck.now + 1 < 2 ^ 32 }
    ensures ok { IfOk result (λ next. GoesOn deck.now node.now next.items) }
    ensures err { IfErr result (GoesNotOn node.now) }
{
    if !node.has_ended() {
        return Err(NoNextDeck::NotEnded);
    }
    let image = node.image(alloc)?;
    if image.len() > MOST_BYTES {
        return Err(NoNextDeck::AtWork);
    }
    let mark = mark_of(alloc, deck)?;
    match next_deck(alloc, deck, &mark, node.config(), &image)? {
        Some(next) => Ok(next),
        None => Err(NoNextDeck::AtWork),
    }
}

/// What the first line of the next deck says.
fn mark_of(alloc: Global, deck: &[u8]) -> Result<Vec<u8>, AllocError>
    ensures { IfOk result (λ mark. mark.items ≡ mark_of deck.now) }
{
    let digest = hex::encode(alloc, Sha256::digest(declared_part(deck)))?;
    let mut mark = Vec::new(alloc);
    mark.extend_from_slice(b"goes on from ")?;
    mark.extend_from_slice(digest.as_bytes())?;
    Ok(mark)
}

impl From<Fault> for NoNextDeck {
    ghost use Rattle.std.specs.Prelude.{◌≡◌};
    ghost use Rattle.rp_handles.specs.declared.next.NoNextDeck.TheVariants.{OutOfMemory};

    ghost from_gives = { λ _ e. e ≡ OutOfMemory };

    fn from(_fault: Fault) -> Self {
        NoNextDeck::OutOfMemory
    }
}

impl From<AllocError> for NoNextDeck {
    ghost use Rattle.std.specs.Prelude.{◌≡◌};
    ghost use Rattle.rp_handles.specs.declared.next.NoNextDeck.TheVariants.{OutOfMemory};

    ghost from_gives = { λ _ e. e ≡ OutOfMemory };

    fn from(_fault: AllocError) -> Self {
        NoNextDeck::OutOfMemory
    }
}
