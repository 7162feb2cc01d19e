//! Answers that are put into a caller's buffer.

ghost use Rattle.std.specs.Prelude.{◌≡◌, ◌≤◌, [], length};
ghost use Rattle.rp_requests.specs.Buffers.{IsPutInFront, Puts, PutsOr, with_front};

use crate::refusal::Refusal;

/// The length of an answer: first are the bytes to be stored, then the others.
#[derive(Clone, Copy)]
pub struct Lengths {
    /// How many of the answer's first bytes are to be stored.
    pub stored: usize,
    /// How many bytes the answer has.
    pub used: usize,
}

/// Puts the bytes to be stored, and then the others, at the front of the buffer, if they fit;
/// otherwise returns how many bytes they are.
#[inline(always)]
pub(crate) fn put_parts(stored: &[u8], others: &[u8], answer: &mut [u8]) -> Result<Lengths, usize>
    ensures { Puts stored.now others.now answer.old answer.new result }
{
    let used = stored.len() + others.len();
    if used > answer.len() {
        return Err(used);
    }
    copy_over(stored, &mut answer[..stored.len()]);
    copy_over(others, &mut answer[stored.len()..used]);
    Ok(Lengths {
        stored: stored.len(),
        used,
    })
}

/// Copies bytes over as many others. A part of an answer is often empty.
#[inline(always)]
fn copy_over(bytes: &[u8], place: &mut [u8])
    requires { length bytes.now ≡ length place.old }
    ensures { place.new ≡ bytes.now }
{
    if !bytes.is_empty() {
        place.copy_from_slice(bytes);
    }
}

/// Puts a text with nothing to be stored at the front of the buffer, if it fits.
pub(crate) fn put(text: &[u8], answer: &mut [u8]) -> Result<Lengths, Refusal>
    ensures { PutsOr [] text.now answer.old answer.new result }
{
    match put_parts(&[], text, answer) {
        Ok(lengths) => Ok(lengths),
        Err(needed) => Err(Refusal::ShortAnswer(needed)),
    }
}

/// Puts a text with nothing to be stored at the front of the buffer, which is long enough.
pub(crate) fn put_short(text: &[u8], answer: &mut [u8]) -> Lengths
    requires { length text.now ≤ length answer.old }
    ensures { IsPutInFront [] text.now answer.old answer.new result }
{
    answer[..text.len()].copy_from_slice(text);
    Lengths {
        stored: 0,
        used: text.len(),
    }
}

/// Puts numbers at the front of the array, as many as it has room for.
pub(crate) fn put_front(front: &[usize], array: &mut [usize])
    ensures { array.new ≡ with_front front.now array.old }
{
    if front.len() <= array.len() {
        array[..front.len()].copy_from_slice(front);
    } else {
        array.copy_from_slice(&front[..array.len()]);
    }
}
