//! The words that may be near the word at fault.

ghost use Rattle.std.specs.Prelude.{◌+◌, ◌^◌, ◌<◌, length};

use rp_base::DeckReason;
use rp_words::{Lines, TextLine, is_word};
use std::alloc::{AllocError, Global};
use strsim::levenshtein;

/// The most edits between the word and a near word.
pub const MOST_EDITS: usize = 2;

/// The first words of declarations that have a name after them.
const DECLARING: [&[u8]; 9] = [
    b"task",
    b"object",
    b"int",
    b"bool",
    b"function",
    b"procedure",
    b"entry",
    b"interrupt",
    b"timer",
];

/// The names of a tally's objects, and of the operation that each has.
const TALLY: [&str; 9] = ["o1", "o2", "o3", "o4", "o5", "o6", "o7", "o8", "add"];

/// The words of expressions and conditions.
const OF_EXPRESSIONS: [&str; 12] = [
    "arg", "out", "add", "sub", "true", "false", "lt", "le", "eq", "not", "and", "or",
];

/// The other fixed words of decks.
const FIXED: [&str; 43] = [
    "nodes",
    "positions",
    "profile",
    "ravenscar",
    "jorvik",
    "task",
    "tally",
    "object",
    "int",
    "bool",
    "function",
    "value",
    "truth",
    "procedure",
    "entry",
    "when",
    "queue",
    "set",
    "put",
    "out",
    "if",
    "else",
    "end",
    "interrupt",
    "timer",
    "script",
    "call",
    "arm",
    "disarm",
    "again",
    "lead",
    "range",
    "deliver",
    "lose",
    "drain",
    "stop",
    "restart",
    "cut",
    "irq",
    "tick",
    "show",
    "true",
    "false",
];

/// The words that may be near a word that is at fault for this reason, after these bytes of a deck.
pub fn candidates<'a>(
    alloc: Global,
    before: &'a [u8],
    reason: DeckReason,
    word: &str,
) -> Result<Vec<String>, AllocError>
    requires { length before.now + 1 < 2 ^ 32 }
{
    let mut words = Vec::new(alloc);
    push_candidates(alloc, &mut words, before, reason, word)?;
    Ok(words)
}

/// Adds the words that may be near, as `candidates`.
fn push_candidates(
    alloc: Global,
    words: &mut Vec<String>,
    before: &[u8],
    reason: DeckReason,
    word: &str,
) -> Result<(), AllocError>
    requires { length before.now + 1 < 2 ^ 32 }
{
    match reason {
        DeckReason::UnknownName => {
            let names = names_before(alloc, before)?;
            push_names(alloc, words, &names, word)
        }
        DeckReason::UnknownWord => push_all(alloc, words, &FIXED),
        _ => Ok(()),
    }
}

/// Adds the names, and the words of expressions, or pairs of names if the word is one.
fn push_names(
    alloc: Global,
    words: &mut Vec<String>,
    names: &[&str],
    word: &str,
) -> Result<(), AllocError> {
    match word.split_once('.') {
        Some(sides) => push_dotted(alloc, words, names, sides),
        None => {
            push_all(alloc, words, names)?;
            push_all(alloc, words, &OF_EXPRESSIONS)
        }
    }
}

/// Adds a copy of each word.
fn push_all(alloc: Global, words: &mut Vec<String>, more: &[&str]) -> Result<(), AllocError> {
    for word in more {
        words.push(String::from_str(alloc, word)?)?;
    }
    Ok(())
}

/// Adds `OBJECT.OPERATION` for names of which each is near the one on its side.
fn push_dotted(
    alloc: Global,
    words: &mut Vec<String>,
    names: &[&str],
    sides: (&str, &str),
) -> Result<(), AllocError> {
    let objects = near_names(alloc, names, sides.0)?;
    let operations = near_names(alloc, names, sides.1)?;
    push_pairs(alloc, words, &objects, &operations)
}

/// Adds `OBJECT.OPERATION` for each of these objects and operations.
fn push_pairs(
    alloc: Global,
    words: &mut Vec<String>,
    objects: &[&str],
    operations: &[&str],
) -> Result<(), AllocError> {
    for object in objects {
        for operation in operations {
            words.push(format!(in alloc; "{object}.{operation}")?)?;
        }
    }
    Ok(())
}

/// The names that are at most two edits from this one.
fn near_names<'a>(
    alloc: Global,
    names: &[&'a str],
    name: &str,
) -> Result<Vec<&'a str>, AllocError> {
    let mut near = Vec::new(alloc);
    for other in names {
        if levenshtein(alloc, name, other)? <= MOST_EDITS {
            near.push(*other)?;
        }
    }
    Ok(near)
}

/// The names that these bytes of a deck declare, in declared order.
fn names_before(alloc: Global, before: &[u8]) -> Result<Vec<&str>, AllocError>
    requires { length before.now + 1 < 2 ^ 32 }
{
    let mut names = Vec::new(alloc);
    let mut lines = Lines::new(before);
    while let Some(line) = lines.next() {
        push_declared(&mut names, line)?;
    }
    Ok(names)
}

/// Adds the names that the line declares.
fn push_declared<'a>(names: &mut Vec<&'a str>, mut line: TextLine<'a>) -> Result<(), AllocError> {
    if is_word(line.first, b"tally") {
        for name in &TALLY {
            names.push(*name)?;
        }
    } else if DECLARING.iter().any(|word| is_word(line.first, word)) {
        if let Ok(name) = line.words.take_name() {
            names.push(name)?;
        }
    }
    Ok(())
}
