//! Which lines are rules and guards, and the deck without them.

ghost use Rattle.std.specs.Prelude.{◌≡◌, ◌+◌, ◌^◌, ◌<◌, [], length, IfOk};
ghost use Rattle.rp_deck.specs.Meaning.{texts_of};
ghost use Rattle.rp_explore_deck.specs.AddedLines.{guard_named, is_line_among, rules_after, after_script, guards_after, added_lines, is_added, plain_text};
ghost use Rattle.rp_words.specs.Ahead.{ahead};

use crate::rules::RuleKind;
use indexmap::IndexSet;
use rp_words::{Lines, is_word, named};
use std::alloc::{AllocError, Global};
use std::marker::Model;

/// The first words of guards, and whether their replies are wanted.
const GUARDS: [(&[u8], bool); 2] = [(b"when", true), (b"unless", false)];

/// The numbers of the lines that are rules, and of those that are guards.
pub struct AddedLines {
    pub rules: IndexSet<u32>,
    pub guards: IndexSet<u32>,
}

// Not derived, so that to drop it is one step of a proof and not one for each of its parts.
impl Drop for AddedLines {
    fn drop(self) {
        let AddedLines {
            rules: _,
            guards: _,
        } = self;
    }
}

impl Model for AddedLines {
    ghost use Rattle.rp_explore_deck.specs.AddedLines.{Added};

    ghost Value = { Added };

    ghost view = { λ a. record { rules = a.rules.keys; guards = a.guards.keys } };
}

impl AddedLines {
    /// Those of a text.
    pub fn of(alloc: Global, text: &[u8]) -> Result<Self, AllocError>
        requires { length text.now + 1 < 2 ^ 32 }
        ensures { IfOk result (λ added. added ≡ added_lines (texts_of text.now)) }
    {
        let rules = find_rules(alloc, &mut Lines::new(text))?;
        let mut lines = Lines::new(text);
        skip_declarations(&mut lines);
        let guards = find_guards(alloc, &mut lines)?;
        Ok(AddedLines { rules, guards })
    }

    /// Whether the line of this number is one of them.
    fn has(&self, number: u32) -> bool
        ensures { result ≡ is_added self.now number }
    {
        self.rules.contains(&number) || self.guards.contains(&number)
    }

    /// The text with these lines blank, so that the others keep their numbers.
    pub fn plain(&self, alloc: Global, text: &[u8]) -> Result<Vec<u8>, AllocError>
        requires { length text.now + 1 < 2 ^ 32 }
        ensures text { IfOk result (λ plain. plain.items ≡ plain_text self.now text.now) }
        ensures length { IfOk result (λ plain. length plain.items ≡ length text.now) }
    {
        let mut plain = Vec::with_capacity(alloc, text.len())?;
        let mut number = 1;
        for byte in text {
            if *byte == b'\n' {
                plain.push(b'\n')?;
                number += 1;
            } else {
                plain.push(if self.has(number) { b' ' } else { *byte })?;
            }
        }
        Ok(plain)
    }
}

/// The numbers of the rules: the lines right before `script` that begin so.
fn find_rules(alloc: Global, lines: &mut Lines<'_>) -> Result<IndexSet<u32>, AllocError>
    ensures { IfOk result (λ rules. rules.keys ≡ rules_after [] (ahead lines.old)) }
{
    let mut rules = IndexSet::new(alloc);
    while let Some(line) = lines.next() {
        if is_word(line.first, b"script") {
            return Ok(rules);
        }
        if RuleKind::named(line.first).is_some() {
            rules.insert(line.number)?;
        } else {
            rules.clear();
        }
    }
    Ok(IndexSet::new(alloc))
}

/// Goes on to the lines after `script`.
fn skip_declarations(lines: &mut Lines<'_>)
    ensures { ahead lines.new ≡ after_script (ahead lines.old) }
{
    while let Some(line) = lines.next() {
        if is_word(line.first, b"script") {
            return;
        }
    }
}

/// The numbers of the lines that begin as guards.
fn find_guards(alloc: Global, lines: &mut Lines<'_>) -> Result<IndexSet<u32>, AllocError>
    ensures { IfOk result (λ guards. guards.keys ≡ guards_after [] (ahead lines.old)) }
{
    let mut guards = IndexSet::new(alloc);
    while let Some(line) = lines.next() {
        if is_wanted_by(line.first).is_some() {
            guards.insert(line.number)?;
        }
    }
    Ok(guards)
}

/// Whether the reply of a guard that begins with this word is wanted, if one does.
pub fn is_wanted_by(first: &[u8]) -> Option<bool>
    ensures { result ≡ guard_named first.now }
{
    named(&GUARDS, first)
}
