//! What an image shows. What is found is not stated: a deck that is made of it is read, and what its
//! start shows is compared with the image.

ghost use Rattle.std.specs.Prelude.{◌+◌, ◌<◌, ◌^◌, length};

use rp_words::{Lines, Words, is_word};

/// The most lines of an image, and the most words of one.
const MOST: u8 = 64;

/// The value of a component of an object, or nothing if the image does not show it.
pub(crate) fn value_shown<'a>(image: &'a [u8], object: &[u8], name: &[u8]) -> &'a [u8]
    requires { length image.now + 1 < 2 ^ 32 }
{
    let mut lines = Lines::new(image);
    for _ in 0..MOST {
        let Some(mut line) = lines.next() else {
            return &[];
        };
        if is_word(line.first, b"object") && is_next(&mut line.words, object) {
            return value_among(&mut line.words, name);
        }
    }
    &[]
}

/// Whether the next word is this one.
fn is_next(words: &mut Words<'_>, name: &[u8]) -> bool {
    match words.take_next() {
        Some(word) => is_word(word, name),
        None => false,
    }
}

/// What follows `NAME=` in the first word that begins so, or nothing.
fn value_among<'a>(words: &mut Words<'a>, name: &[u8]) -> &'a [u8] {
    for _ in 0..MOST {
        let Some(word) = words.take_next() else {
            return &[];
        };
        if let Some(value) = value_of(word, name) {
            return value;
        }
    }
    &[]
}

/// What follows `NAME=` in a word that begins so.
fn value_of<'a>(word: &'a [u8], name: &[u8]) -> Option<&'a [u8]> {
    let rest = word.strip_prefix(name)?;
    rest.strip_prefix(b"=".as_slice())
}

/// The time of the clock, 0 if the image does not show it.
pub(crate) fn clock_shown(image: &[u8]) -> u32
    requires { length image.now + 1 < 2 ^ 32 }
{
    let mut lines = Lines::new(image);
    for _ in 0..MOST {
        let Some(mut line) = lines.next() else {
            return 0;
        };
        if is_word(line.first, b"clock") {
            return line.words.take_number(0, u64::from(u32::MAX)).unwrap_or(0) as u32;
        }
    }
    0
}
