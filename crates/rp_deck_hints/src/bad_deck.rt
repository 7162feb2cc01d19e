//! A text that is bad at a line for a reason, and which word of the line is at fault.

ghost use Rattle.std.specs.Prelude.{◌≡◌, ◌+◌, ◌^◌, ◌<◌, ◌++◌, ◌↔◌, IsTrue, length, IfOk, IfErr, IfSome, IfNone};
ghost use Rattle.rp_deck_hints.specs.Places.{before_word};
ghost use Rattle.rp_deck_hints.specs.Hints.{IsBadAt, IsAtFault, IsNoneAtFault};
ghost use Rattle.rp_deck_hints.specs.declared.reading.Reading.TheVariants.{Deck, Plan};

use crate::Reading;
use crate::places::{after_lines, first_line, from_word, split_word};
use rp_base::{DeckReason, Fault};
use rp_deck::{Mode, read_deck};
use rp_explore_deck::read_plan;
use std::alloc::Global;

/// The most words of a line that are tried.
pub const MOST_WORDS: u32 = 64;

/// A line at which a text is bad as it is read, and its reason.
#[derive(Clone, Copy)]
pub struct BadLine<'a> {
    pub text: &'a [u8],
    pub reading: Reading,
    /// From 1.
    pub line: u32,
    pub reason: DeckReason,
}

/// A word of the line.
#[derive(Clone, Copy)]
pub struct Place<'a> {
    /// From 1.
    pub number: u32,
    pub word: &'a [u8],
    /// The bytes of the text before the word.
    pub before: &'a [u8],
}

impl<'a> BadLine<'a> {
    /// Whether another text is bad at this line for this reason.
    fn is_of(&self, alloc: Global, text: &[u8]) -> Result<bool, Fault>
        requires { length text.now + 1 < 2 ^ 32 }
        ensures bad { IfOk result (λ bad. IsTrue bad
            ↔ IsBadAt self.now.reading self.now.line self.now.reason text.now) }
        ensures memory { IfErr result (λ fault. fault ≡ Fault.OutOfMemory) }
    {
        match self.reading {
            Reading::Deck(mode) => self.is_of_deck(alloc, text, mode),
            Reading::Plan => self.is_of_plan(alloc, text),
        }
    }

    /// The same of a deck that runs in a mode.
    fn is_of_deck(&self, alloc: Global, text: &[u8], mode: Mode) -> Result<bool, Fault>
        requires { length text.now + 1 < 2 ^ 32 }
        ensures bad { IfOk result (λ bad. IsTrue bad
            ↔ IsBadAt (Deck mode) self.now.line self.now.reason text.now) }
        ensures memory { IfErr result (λ fault. fault ≡ Fault.OutOfMemory) }
    {
        match read_deck(alloc, text, mode).err() {
            None => Ok(false),
            Some(Fault::BadDeck { line, reason }) => {
                Ok(line == self.line && reason == self.reason)
            }
            Some(_) => Err(Fault::OutOfMemory),
        }
    }

    /// The same of a deck for a search.
    fn is_of_plan(&self, alloc: Global, text: &[u8]) -> Result<bool, Fault>
        requires { length text.now + 1 < 2 ^ 32 }
        ensures bad { IfOk result (λ bad. IsTrue bad
            ↔ IsBadAt Plan self.now.line self.now.reason text.now) }
        ensures memory { IfErr result (λ fault. fault ≡ Fault.OutOfMemory) }
    {
        match read_plan(alloc, text).err() {
            None => Ok(false),
            Some(Fault::BadDeck { line, reason }) => {
                Ok(line == self.line && reason == self.reason)
            }
            Some(_) => Err(Fault::OutOfMemory),
        }
    }

    /// The first word of the line up to which the text is bad already, among the first 64.
    pub fn word_at_fault(&self, alloc: Global) -> Result<Option<Place<'a>>, Fault>
        requires { length self.now.text.now + 1 < 2 ^ 32 }
        ensures found { IfOk result (λ found. IfSome found (λ place.
            IsAtFault self.now.reading self.now.text.now self.now.line self.now.reason place.number
            place.word.now)) }
        ensures before { IfOk result (λ found. IfSome found (λ place. place.before.now
            ≡ before_word self.now.text.now self.now.line place.number)) }
        ensures none { IfOk result (λ found. IfNone found
            (IsNoneAtFault self.now.reading self.now.text.now self.now.line self.now.reason)) }
        ensures memory { IfErr result (λ fault. fault ≡ Fault.OutOfMemory) }
    {
        let rest = after_lines(self.text, self.line.saturating_sub(1));
        let line = first_line(rest);
        let line_start = self.text.len() - rest.len();
        let mut after = line;
        for words in 0..MOST_WORDS {
            let from = from_word(after);
            if from.is_empty() {
                return Ok(None);
            }
            let start = line_start + (line.len() - from.len());
            let (word, others) = split_word(from);
            after = others;
            let end = line_start + (line.len() - after.len());
            if self.is_of(alloc, &self.text[..end])? {
                return Ok(Some(Place {
                    number: words + 1,
                    word,
                    before: &self.text[..start],
                }));
            }
        }
        Ok(None)
    }

    /// Whether these bytes are not bad at this line for this reason with a word after them.
    pub fn is_helped_by(&self, alloc: Global, before: &[u8], word: &str) -> Result<bool, Fault>
        ensures helped { IfOk result (λ helped. IsTrue helped
            → ¬ IsBadAt self.now.reading self.now.line self.now.reason (before.now ++ word.now)) }
        ensures memory { IfErr result (λ fault. fault ≡ Fault.OutOfMemory) }
    {
        let mut text = Vec::new(alloc);
        text.extend_from_slice(before)?;
        text.extend_from_slice(word.as_bytes())?;
        if text.len() >= u32::MAX as usize {
            return Ok(false);
        }
        let bad = self.is_of(alloc, &text)?;
        Ok(!bad)
    }
}
