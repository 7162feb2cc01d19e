//! The number that a call by a handle returns, and what else it writes.

ghost use Rattle.std.specs.Prelude.{◌≡◌};
ghost use Rattle.rp_c.specs.Handles.{WritesLengths, answer_code, opening_code};

use rp_requests::{Lengths, Refusal};

/// The length of an answer, in the layout that a C caller reads.
#[repr(C)]
#[derive(Clone, Copy)]
pub struct AnswerLengths {
    /// How many of the answer's first bytes are to be stored.
    pub stored: usize,
    /// How many bytes the answer has, or needs.
    pub used: usize,
}

/// The number that an opening returns: that of its refusal, or 0.
pub(crate) fn code_of_opening(refusal: Option<Refusal>) -> u8
    ensures { result ≡ opening_code refusal }
{
    match refusal {
        Some(refusal) => refusal.code(),
        None => 0,
    }
}

/// The number that a call returns: 0, that of its refusal, or `RP_WRONG_HANDLE` if the handle keeps
/// no actor of that kind.
pub(crate) fn code_of_answer(ended: &Option<Result<Lengths, Refusal>>) -> u8
    ensures { result ≡ answer_code ended.now }
{
    match ended {
        Some(Ok(_)) => 0,
        Some(Err(refusal)) => refusal.code(),
        None => 68,
    }
}

/// Writes the lengths of an answer, or the length that it needs.
pub(crate) fn write_lengths(ended: &Option<Result<Lengths, Refusal>>, lengths: &mut AnswerLengths)
    ensures { WritesLengths ended.now lengths.old lengths.new }
{
    match ended {
        Some(Ok(found)) => {
            lengths.stored = found.stored;
            lengths.used = found.used;
        }
        Some(Err(Refusal::ShortAnswer(needed) | Refusal::LongAnswer(needed))) => {
            lengths.used = *needed;
        }
        _ => {}
    }
}
