//! The deck with which a station goes on over new devices once the log of its node has ended.

ghost use Rattle.std.specs.Prelude.{◌≡◌};
ghost use Rattle.rp_c.specs.Next.{GivesNextDeck, next_code};

use crate::decks::put;
use crate::status::Status;
use rp_handles::{Handle, NoNextDeck, next_deck_of};
use rp_script::MOST_BYTES;
use std::alloc::Global;

/// How a request for the next deck ends.
#[derive(Clone, Copy)]
pub enum NextEnding {
    /// The deck is in the answer.
    Done,
    /// The deck is longer than its buffer.
    ShortAnswer,
    /// The deck that was given has more than 1,048,576 bytes.
    Io,
    /// The handle keeps no node.
    WrongHandle,
    /// There is none.
    NoDeck(NoNextDeck),
}

/// Puts the text of the next deck into the answer, by a node of this deck whose log has ended, and its
/// length into `used`. `RP_SHORT_ANSWER`: it is longer than its buffer, and only its length is
/// written. `RP_NOT_ENDED`: positions of the log are left. `RP_AT_WORK`: a call waits, a timing event
/// is set, or the deck is not the node's. `RP_WRONG_HANDLE` if the handle keeps no node, and `RP_IO`
/// if the deck has more than 1,048,576 bytes. A refusal changes nothing, and the node stays as it is.
#[unsafe(no_mangle)]
pub extern "C" fn rp_next_deck(
    alloc: Global,
    handle: &mut Handle,
    deck: &[u8],
    answer: &mut [u8],
    used: &mut usize,
) -> u8
    // claim: A C caller gets the text of the deck with which its station goes on, or the number of the
    //   reason for which there is none, and then nothing has changed
    ensures { (ending : NextEnding) × (result ≡ next_code ending)
        × (handle.new.kept ≡ handle.old.kept)
        × GivesNextDeck deck.now handle.old.kept answer.old answer.new used.old used.new ending }
{
    next_into(alloc, handle, deck, answer, used).code()
}

/// As `rp_next_deck`, but returns by name how it ends.
fn next_into(
    alloc: Global,
    handle: &mut Handle,
    deck: &[u8],
    answer: &mut [u8],
    used: &mut usize,
) -> NextEnding
    ensures given { GivesNextDeck deck.now handle.old.kept answer.old answer.new used.old used.new
        result }
    ensures same { handle.new.kept ≡ handle.old.kept }
{
    if deck.len() > MOST_BYTES {
        return NextEnding::Io;
    }
    match next_deck_of(alloc, handle, deck) {
        Some(Ok(next)) => match put(&next, answer, used, Status::Done) {
            Status::ShortAnswer => NextEnding::ShortAnswer,
            _ => NextEnding::Done,
        },
        Some(Err(reason)) => NextEnding::NoDeck(reason),
        None => NextEnding::WrongHandle,
    }
}

impl NextEnding {
    /// How it ends as a number.
    fn code(self) -> u8
        ensures { result ≡ next_code self }
    {
        match self {
            NextEnding::Done => 0,
            NextEnding::NoDeck(NoNextDeck::OutOfMemory) => 1,
            NextEnding::Io => 13,
            NextEnding::ShortAnswer => 64,
            NextEnding::WrongHandle => 68,
            NextEnding::NoDeck(NoNextDeck::NotEnded) => 72,
            NextEnding::NoDeck(NoNextDeck::AtWork) => 73,
        }
    }
}
