//! Texts that need no memory.

ghost use Rattle.std.specs.Prelude.{◌≡◌, ◌+◌, ◌≤◌, [], ◌++◌, length};

use std::marker::Model;

/// How many bytes the text of a packet has at most, if it is neither a report nor a promise for a
/// range: that of a `Promise` with a call.
pub const LONGEST_TEXT: usize = 40;

/// Bytes in order, at most 40, in place.
#[derive(Drop)]
pub struct ShortText {
    bytes: [u8; LONGEST_TEXT],
    len: usize,
}

impl Model for ShortText {
    ghost use Rattle.std.specs.Prelude.{◌≡◌, ℕ, List, ◌≤◌, length, take};

    ghost Value = { List ℕ };

    ghost view = { λ t. take t.len t.bytes };

    ghost invariant = { λ t. (t.len ≤ 40) × (length t.bytes ≡ 40) };
}

impl ShortText {
    pub(crate) fn new() -> Self
        ensures { result ≡ [] }
    {
        ShortText {
            bytes: [0; LONGEST_TEXT],
            len: 0,
        }
    }

    /// The text that is these bytes so far.
    #[inline(always)]
    pub(crate) fn starting_with<const N: usize>(piece: &[u8; N]) -> Self
        requires { N ≤ 40 }
        ensures text { result ≡ piece.now }
        ensures len { length result ≡ N }
    {
        let mut bytes = [0; LONGEST_TEXT];
        *bytes.first_chunk_mut::<N>().unwrap() = *piece;
        ShortText { bytes, len: N }
    }

    /// Adds bytes after the others.
    #[inline(always)]
    pub(crate) fn put<const N: usize>(&mut self, piece: &[u8; N])
        requires { length self.old + N ≤ 40 }
        ensures text { self.new ≡ self.old ++ piece.now }
        ensures len { length self.new ≡ length self.old + N }
    {
        overwrite(&mut self.bytes[self.len..self.len + N], piece);
        self.len += N;
    }

    /// The bytes in order.
    pub fn as_slice(&self) -> &[u8]
        ensures bytes { result.now ≡ self.now }
        ensures short { length self.now ≤ 40 }
    {
        &self.bytes[..self.len]
    }
}

/// Puts a piece in place of as many bytes, in one move.
#[inline(always)]
pub(crate) fn overwrite<const N: usize>(bytes: &mut [u8], piece: &[u8; N])
    requires { length bytes.old ≡ N }
    ensures len { length bytes.new ≡ length bytes.old }
    ensures after { bytes.new ≡ piece.now }
{
    *bytes.as_mut_array::<N>().unwrap() = *piece;
}
