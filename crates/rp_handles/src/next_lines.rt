//! The lines of the next deck.

ghost use Rattle.std.specs.Prelude.{◌≡◌, ◌+◌, ◌<◌, ◌^◌, ◌++◌, ◌∷◌, List, ℕ, length, IfOk};
ghost use Rattle.rp_deck.specs.rp_words.specs.Ahead.{text_of};
ghost use Rattle.rp_deck.specs.rp_words.specs.Words.{unread};
ghost use Rattle.rp_deck.specs.rp_words.specs.Lines.{lines_of, texts_from};
ghost use Rattle.rp_handles.specs.NextLines.{AreNextLines, AreFirstWords, IsNextLine, words_before_value};

use crate::shown_values::value_shown;
use rp_words::{Lines, TextLine, Words, is_word};
use std::alloc::AllocError;

/// The most words of a line of a deck, after its first one: an expression has at most 32.
const MOST_WORDS: u8 = 64;

/// Puts the lines of a deck up to `script` after what is there, each component with the value that
/// the image shows as its first one.
pub(crate) fn put_lines(next: &mut Vec<u8>, deck: &[u8], image: &[u8]) -> Result<(), AllocError>
    requires deck { length deck.now + 1 < 2 ^ 32 }
    requires image { length image.now + 1 < 2 ^ 32 }
    ensures { IfOk result (λ _. (body : List ℕ) × AreNextLines (texts_from 1 (lines_of deck.now)) body
        × (next.new.items ≡ next.old.items ++ body)) }
{
    let mut lines = Lines::new(deck);
    let mut object: &[u8] = &[];
    while let Some(line) = lines.next() {
        let first = line.first;
        if is_word(first, b"script") {
            next.extend_from_slice(b"script\n")?;
            return Ok(());
        }
        let name = put_line(next, line, image, object)?;
        if is_word(first, b"object") {
            object = name;
        }
    }
    Ok(())
}

/// Puts a line after what is there, and returns its second word, or nothing.
fn put_line<'a>(
    next: &mut Vec<u8>,
    line: TextLine<'a>,
    image: &[u8],
    object: &[u8],
) -> Result<&'a [u8], AllocError>
    requires image { length image.now + 1 < 2 ^ 32 }
    ensures { IfOk result (λ _. (here : List ℕ) × IsNextLine (text_of line.entry) here
        × (next.new.items ≡ next.old.items ++ here)) }
{
    next.extend_from_slice(line.first)?;
    let mut words = line.words;
    let name = match words_before_value(line.first) {
        Some(count) => {
            let name = put_words(next, &mut words, count)?;
            put_word(next, value_shown(image, object, name))?;
            name
        }
        None => put_words(next, &mut words, MOST_WORDS)?,
    };
    next.push(b'\n')?;
    Ok(name)
}

/// How many words of a line that declares a component are before its first value.
fn words_before_value(first: &[u8]) -> Option<u8>
    ensures { result ≡ words_before_value first.now }
{
    if is_word(first, b"int") {
        Some(3)
    } else if is_word(first, b"bool") {
        Some(1)
    } else {
        None
    }
}

/// Puts a word after a space.
fn put_word(next: &mut Vec<u8>, word: &[u8]) -> Result<(), AllocError>
    ensures { IfOk result (λ _. next.new.items ≡ next.old.items ++ 32 ∷ word.now) }
{
    next.push(b' ')?;
    next.extend_from_slice(word)?;
    Ok(())
}

/// Puts the first n words that are left, or all if there are no more, each after a space, and returns
/// the first of them, or nothing.
fn put_words<'a>(
    next: &mut Vec<u8>,
    words: &mut Words<'a>,
    count: u8,
) -> Result<&'a [u8], AllocError>
    ensures { IfOk result (λ _. (text : List ℕ) × AreFirstWords count (unread words.old) text
        × (next.new.items ≡ next.old.items ++ text)) }
{
    let mut first: &[u8] = &[];
    for _ in 0..count {
        let Some(word) = words.take_next() else {
            return Ok(first);
        };
        if first.is_empty() {
            first = word;
        }
        put_word(next, word)?;
    }
    Ok(first)
}
