//! Runs the script of a deck.

ghost use Rattle.std.specs.Prelude.{◌≡◌, ◌≤◌, length};
ghost use Rattle.rp_c.specs.Decks.{IsBadLine, IsOutput, IsTextPut, IsTextTooLong, PutsText, RunsDeck};
ghost use Rattle.rp_c.specs.Status.{status_code};

use crate::status::Status;
use rp_base::Fault;
use rp_script::{MOST_BYTES, run_script, tell};
use std::alloc::Global;

/// Runs the script of a deck, and puts what it prints into the answer, and its length into `used`;
/// with `traced` each packet that is sent is printed as well. `BadDeck`: the answer is the line
/// that reports where and why the deck is bad. `ShortAnswer`: the answer is longer than its buffer,
/// of which nothing is changed, and `used` is the length that it needs. `OutOfMemory`, and `Io` if
/// the deck has more than 1,048,576 bytes, change nothing.
#[unsafe(no_mangle)]
pub extern "C" fn rp_run_deck(
    alloc: Global,
    deck: &[u8],
    traced: bool,
    answer: &mut [u8],
    used: &mut usize,
) -> u8
    // claim: A C caller gets the output of the deck that its bytes, at most 1,048,576, mean, or the
    //   line of the first bad line and its first reason; if that does not fit, its length and
    //   nothing else; out of memory, or with too long a deck, nothing has changed
    ensures { (status : Status) × (result ≡ status_code status)
        × RunsDeck traced deck.now answer.old answer.new used.old used.new status }
{
    run(alloc, deck, traced, answer, used).code()
}

/// As `rp_run_deck`, but returns its status by name.
fn run(alloc: Global, deck: &[u8], traced: bool, answer: &mut [u8], used: &mut usize) -> Status
    ensures { RunsDeck traced deck.now answer.old answer.new used.old used.new result }
{
    if deck.len() > MOST_BYTES {
        return Status::Io;
    }
    let mut reader = deck;
    let mut text = Vec::new(alloc);
    match run_script(alloc, &mut reader, traced, &mut text) {
        Ok(()) => put(text.as_slice(), answer, used, Status::Done),
        Err(fault @ Fault::BadDeck { .. }) => match tell(&fault, &mut text) {
            Ok(()) => put(text.as_slice(), answer, used, Status::BadDeck),
            Err(_) => Status::OutOfMemory,
        },
        Err(_) => Status::OutOfMemory,
    }
}

/// Puts a text into the answer, if it fits, and its length into `used`. The status is then the one
/// given, and otherwise `ShortAnswer`.
pub(crate) fn put(text: &[u8], answer: &mut [u8], used: &mut usize, done: Status) -> Status
    ensures { PutsText text.now answer.old answer.new used.new done result }
{
    *used = text.len();
    if text.len() > answer.len() {
        return Status::ShortAnswer;
    }
    answer[..text.len()].copy_from_slice(text);
    done
}
