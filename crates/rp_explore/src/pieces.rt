//! The lines of the states' images, each kept once.

ghost use Rattle.std.specs.Prelude.{◌≡◌, [], Some, slice_get, IfOk, IsTrue};
ghost use Rattle.rp_base.specs.Sets.{IsSet};
ghost use Rattle.rp_explore.specs.Pieces.{AreMore, AreNumbers, lines_of};

use indexmap::IndexSet;
use std::alloc::{AllocError, Global};
use std::marker::Model;

/// Lines, each once, numbered from 0 in the order in which they came.
#[derive(Drop)]
pub struct Pieces {
    lines: IndexSet<Vec<u8>>,
}

impl Model for Pieces {
    ghost use Rattle.std.specs.Prelude.{ℕ, List, map};

    ghost Value = { List (List ℕ) };

    ghost view = { λ p. map (λ line. line.items) p.lines.keys };
}

impl Pieces {
    /// No line yet.
    pub fn new(alloc: Global) -> Self
        ensures { result ≡ [] }
    {
        Pieces {
            lines: IndexSet::new(alloc),
        }
    }

    /// How many lines there are.
    pub fn len(&self) -> usize
        ensures { IsSet self.now }
    {
        self.lines.len()
    }

    /// The numbers of the lines of a text, which are added where they are new. Many of them may be
    /// the numbers of the lines of a text near it, which are tried first.
    pub fn numbers(
        &mut self,
        alloc: Global,
        text: &[u8],
        near: &[usize],
    ) -> Result<Vec<usize>, AllocError>
        ensures more { AreMore self.old self.new }
        ensures value { IfOk result (λ numbers.
            AreNumbers self.new numbers.items (lines_of text.now)) }
    {
        let mut numbers = Vec::with_capacity(alloc, near.len())?;
        let mut start = 0;
        for (at, byte) in text.iter().enumerate() {
            if *byte == b'\n' {
                let number = self.number(alloc, &text[start..=at], near.get(numbers.len()))?;
                numbers.push(number)?;
                start = at + 1;
            }
        }
        let number = self.number(alloc, &text[start..], near.get(numbers.len()))?;
        numbers.push(number)?;
        Ok(numbers)
    }

    /// The number of a line, which is added where it is new. It may be this one.
    fn number(
        &mut self,
        alloc: Global,
        line: &[u8],
        near: Option<&usize>,
    ) -> Result<usize, AllocError>
        ensures more { AreMore self.old self.new }
        ensures value { IfOk result (λ number. slice_get self.new number ≡ Some line.now) }
    {
        if let Some(near) = near
            && self.is_at(*near, line)
        {
            return Ok(*near);
        }
        self.found(alloc, line)
    }

    /// The number of a line, which is added where it is new.
    fn found(&mut self, alloc: Global, line: &[u8]) -> Result<usize, AllocError>
        ensures more { AreMore self.old self.new }
        ensures value { IfOk result (λ number. slice_get self.new number ≡ Some line.now) }
    {
        if let Some(known) = self.lines.get_index_of(line) {
            return Ok(known);
        }
        let number = self.lines.len();
        let mut own = Vec::with_capacity(alloc, line.len())?;
        own.extend_from_slice(line)?;
        self.lines.insert(own)?;
        Ok(number)
    }

    /// Whether the line has this number.
    fn is_at(&self, number: usize, line: &[u8]) -> bool
        ensures { IsTrue result → slice_get self.now number ≡ Some line.now }
    {
        match self.lines.get_index(number) {
            Some(known) => known.as_slice() == line,
            None => false,
        }
    }
}
