//! The word at fault and the near word, and the line that is printed for them.

ghost use Rattle.std.specs.Prelude.{Some, ◌≡◌, ◌≤◌, ◌+◌, ◌^◌, ◌<◌, length, string_bytes, option_map, IfOk, IfErr, IfSome, IfNone, if◌then◌else◌};
ghost use Rattle.std.specs.List.{list_all};
ghost use Rattle.rp_deck_hints.specs.Hints.{IsHint, IsNear, IsNotHinted, advised_text, hint_text, begins_guard, is_graphic, is_of_guard, is_printed, names_a_word};

use crate::Reading;
use crate::advice::Advice;
use crate::advice_of::advice_of;
use crate::bad_deck::{BadLine, Place};
use crate::candidates::{MOST_EDITS, candidates};
use crate::places::word_one;
use rp_base::{DeckReason, Fault};
use rp_words::is_word;
use std::alloc::Global;
use std::{fmt, str};
use strsim::levenshtein;

/// The most bytes of a word that is printed.
const MOST_PRINTED: usize = 40;

/// The word of a bad line that is at fault, and a near one with which it would not be.
#[derive(Drop)]
pub struct Hint<'a> {
    /// Its number in the line, from 1.
    pub number: u32,
    pub word: &'a [u8],
    pub near: Option<String>,
    /// What to write there.
    pub advice: Option<Advice>,
}

/// The hint for a deck that is bad at a line for a reason, if the reason is one of a word.
pub fn hint_for(
    alloc: Global,
    text: &[u8],
    reading: Reading,
    line: u32,
    reason: DeckReason,
) -> Result<Option<Hint<'_>>, Fault>
    requires { length text.now + 1 < 2 ^ 32 }
    // claim (hint): The word that a hint names is the first of the line up to whose end the deck is
    //   bad already at this line for this reason. The near word that it proposes is at most two
    //   edits from that word, and with it in place of the word the deck up to there is no longer bad
    //   at this line for this reason. What it says to write is what a table has for the reason, the
    //   first word of the line and the place of the word
    ensures hint { IfOk result (λ hint. IfSome hint (IsHint reading text.now line reason)) }
    // claim (none, memory): There is no hint exactly where the reason is not one of a word, no word
    //   among the first 64 of the line is at fault, or it is one of a guard but its first
    ensures none { IfOk result (λ hint. IfNone hint (IsNotHinted reading text.now line reason)) }
    ensures memory { IfErr result (λ fault. fault ≡ Fault.OutOfMemory) }
{
    if !names_a_word(reason) {
        return Ok(None);
    }
    let bad = BadLine {
        text,
        reading,
        line,
        reason,
    };
    let Some(place) = bad.word_at_fault(alloc)? else {
        return Ok(None);
    };
    let first = word_one(text, line);
    if is_of_guard(reading, first, place.number) {
        return Ok(None);
    }
    let near = near_word(alloc, &bad, &place)?;
    Ok(Some(Hint {
        number: place.number,
        word: place.word,
        near,
        advice: advice_of(reason, first, place.number),
    }))
}

/// Whether a bad line of this reason has a word at fault.
fn names_a_word(reason: DeckReason) -> bool
    ensures { result ≡ names_a_word reason }
{
    matches!(
        reason,
        DeckReason::UnknownName
            | DeckReason::UnknownWord
            | DeckReason::BadNumber
            | DeckReason::BadName
            | DeckReason::DuplicateName
            | DeckReason::NodesExpected
            | DeckReason::NotInLive
    )
}

/// Whether the word of this number is one of a guard, which may be at fault as a whole: it has no
/// call.
fn is_of_guard(reading: Reading, first: &[u8], number: u32) -> bool
    ensures { result ≡ is_of_guard reading first.now number }
{
    match reading {
        Reading::Deck(_) => false,
        Reading::Plan => begins_guard(first) && 1 < number,
    }
}

/// Whether a line that begins with this word is a guard.
fn begins_guard(first: &[u8]) -> bool
    ensures { result ≡ begins_guard first.now }
{
    is_word(first, b"when") || is_word(first, b"unless")
}

/// A near word, if the word is printed and one is known to help.
fn near_word(alloc: Global, bad: &BadLine<'_>, place: &Place<'_>) -> Result<Option<String>, Fault>
    requires { length place.now.before.now + 1 < 2 ^ 32 }
    ensures near { IfOk result (λ near. IfSome near (λ near. IsNear bad.now.reading bad.now.line
        bad.now.reason place.now.before.now place.now.word.now (string_bytes near))) }
    ensures memory { IfErr result (λ fault. fault ≡ Fault.OutOfMemory) }
{
    let Some(word) = printed(place.word) else {
        return Ok(None);
    };
    let search = Search {
        bad: *bad,
        before: place.before,
        word,
    };
    search.nearest(alloc)
}

/// A search for a word near this one, which is at fault after these bytes.
#[derive(Clone, Copy)]
struct Search<'a> {
    bad: BadLine<'a>,
    before: &'a [u8],
    word: &'a str,
}

impl Search<'_> {
    /// The candidate of the fewest edits that is known to help, and the first of those.
    fn nearest(&self, alloc: Global) -> Result<Option<String>, Fault>
        requires { length self.now.before.now + 1 < 2 ^ 32 }
        ensures near { IfOk result (λ near. IfSome near (λ near. IsNear self.now.bad.reading
            self.now.bad.line self.now.bad.reason self.now.before.now self.now.word.now
            (string_bytes near))) }
        ensures memory { IfErr result (λ fault. fault ≡ Fault.OutOfMemory) }
    {
        let words = candidates(alloc, self.before, self.bad.reason, self.word)?;
        for edits in 1..=MOST_EDITS {
            if let Some(near) = self.first_at(alloc, &words, edits)? {
                return Ok(Some(near));
            }
        }
        Ok(None)
    }

    /// The first of these words that is so many edits from the word and is known to help.
    fn first_at(
        &self,
        alloc: Global,
        words: &[String],
        edits: usize,
    ) -> Result<Option<String>, Fault>
        requires { edits ≤ 2 }
        ensures near { IfOk result (λ near. IfSome near (λ near. IsNear self.now.bad.reading
            self.now.bad.line self.now.bad.reason self.now.before.now self.now.word.now
            (string_bytes near))) }
        ensures memory { IfErr result (λ fault. fault ≡ Fault.OutOfMemory) }
    {
        if edits >= self.word.len() {
            return Ok(None);
        }
        for near in words {
            if levenshtein(alloc, self.word, near)? == edits
                && self.bad.is_helped_by(alloc, self.before, near)?
            {
                return Ok(Some(near.clone()?));
            }
        }
        Ok(None)
    }
}

/// Whether the byte is printed: ASCII, and neither a blank nor a control.
fn is_graphic(byte: u8) -> bool
    ensures { result ≡ is_graphic byte }
{
    33 <= byte && byte <= 126
}

/// Whether each byte is printed.
fn are_graphic(word: &[u8]) -> bool
    ensures { result ≡ list_all is_graphic word.now }
{
    word.iter().all(|byte| is_graphic(*byte))
}

/// Whether the word is printed: at most 40 printable bytes of ASCII.
fn is_printed(word: &[u8]) -> bool
    ensures { result ≡ is_printed word.now }
{
    word.len() <= MOST_PRINTED && are_graphic(word)
}

/// The word as text, if it is printed.
fn printed(word: &[u8]) -> Option<&str>
    ensures { option_map (λ text. text.now) result
        ≡ (if is_printed word.now then Some word.now else None) }
{
    if !is_printed(word) {
        return None;
    }
    // SAFETY: what is printed is ASCII.
    Some(unsafe { str::from_utf8_unchecked(word) })
}

/// What to write, as it is said after a word.
#[derive(Clone, Copy)]
struct Advised {
    advice: Option<Advice>,
}

impl fmt::Display for Advised {
    ghost output = { λ l. Some (advised_text l.advice) };

    fn fmt<W: fmt::Write>(&self, f: &mut fmt::Formatter<W>) -> fmt::Result {
        match self.advice {
            None => Ok(()),
            Some(advice) => {
                let text = advice.text();
                write!(f, "; {text}")
            }
        }
    }
}

impl fmt::Display for Hint<'_> {
    ghost output = { λ hint. Some (hint_text hint) };

    fn fmt<W: fmt::Write>(&self, f: &mut fmt::Formatter<W>) -> fmt::Result {
        let number = self.number;
        let advised = Advised {
            advice: self.advice,
        };
        match (printed(self.word), &self.near) {
            (None, _) => write!(f, "it is word {number} of the line{advised}"),
            (Some(word), None) => write!(f, "the word is {word}{advised}"),
            (Some(word), Some(near)) => write!(f, "the word is {word}; did you mean {near}?"),
        }
    }
}
