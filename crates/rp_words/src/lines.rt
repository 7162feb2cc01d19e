//! The lines of a deck.

ghost use Rattle.std.specs.Prelude.{◌≡◌, ◌+◌, ◌-◌, ◌^◌, ◌<◌, ◌≤◌, ◌∷◌, ◌==◌, [], drop, length, take, IfNone, IfSome};
ghost use Rattle.rp_words.specs.Words.{begins_with};
ghost use Rattle.rp_words.specs.Lines.{lines_of};
ghost use Rattle.rp_words.specs.LineEnds.{line_end, without_return};

use crate::words::Words;
use std::simd::prelude::*;

/// A line that holds words, and is no comment.
#[derive(Drop)]
pub struct TextLine<'a> {
    /// Counted from 1, among all lines.
    pub number: u32,
    pub first: &'a [u8],
    /// The words after the first.
    pub words: Words<'a>,
}

impl<'a> TextLine<'a> {
    ghost use Rattle.std.specs.Prelude.{option_map};
    ghost use Rattle.rp_words.specs.Lines.{text_at};
    ghost use Rattle.rp_words.specs.Ahead.{text_of};

    /// The line of this number and these bytes, if it holds words and is no comment.
    #[tactic(auto, unfolding(crate::specs::Reading::word_at))]
    fn of(number: u32, line: &'a [u8]) -> Option<Self>
        ensures { option_map text_of result ≡ text_at number line.entry.now }
    {
        let mut words = Words::new(line);
        let first = words.take().ok()?;
        if begins_comment(first) {
            return None;
        }
        Some(TextLine {
            number,
            first,
            words,
        })
    }
}

/// The lines of a deck that are still to be read.
#[derive(Drop)]
pub struct Lines<'a> {
    rest: &'a [u8],
    /// How many lines were read.
    count: u32,
    ghost fits: { count + length rest.now + 1 < 2 ^ 32 },
}

/// How many bytes are looked at together.
const LANES: usize = 16;

/// How many of the 16 bytes from a place on are before the first line feed among them.
#[inline(always)]
fn length_in_lanes(bytes: &[u8], from: usize) -> usize
    requires { from + 16 ≤ length bytes.now }
    ensures { result ≡ line_end (take 16 (drop from bytes.now)) }
{
    let lanes = u8x16::from_slice(&bytes[from..]);
    let feeds = lanes.simd_eq(u8x16::splat(b'\n')).to_bitmask();
    if feeds == 0 {
        LANES
    } else {
        feeds.trailing_zeros() as usize
    }
}

/// How many bytes are before the first line feed, one by one.
fn length_of_rest(bytes: &[u8]) -> usize
    ensures value { result ≡ line_end bytes.now }
    ensures within { result ≤ length bytes.now }
{
    bytes.iter().take_while(|byte| **byte != b'\n').count()
}

/// How many bytes are before the first line feed.
fn length_of_line(bytes: &[u8]) -> usize
    ensures value { result ≡ line_end bytes.now }
    ensures within { result ≤ length bytes.now }
{
    let mut end = 0;
    while LANES <= bytes.len() - end {
        let run = length_in_lanes(bytes, end);
        if run < LANES {
            return end + run;
        }
        end += LANES;
    }
    end + length_of_rest(&bytes[end..])
}

/// The line without the return at its end, if there is one.
fn without_return(line: &[u8]) -> &[u8]
    ensures { result.now ≡ without_return line.now }
{
    line.strip_suffix(b"\r".as_slice()).unwrap_or(line)
}

/// Whether the word begins a comment.
fn begins_comment(word: &[u8]) -> bool
    ensures { result ≡ begins_with (λ byte. byte == 35) word.now }
{
    match word {
        [] => false,
        [first, ..] => *first == b'#',
    }
}

impl<'a> Lines<'a> {
    ghost use Rattle.rp_words.specs.Ahead.{left, lines_read, ahead, after_last, IsNextLine};

    /// The lines of a text.
    pub fn new(text: &'a [u8]) -> Self
        requires { length text.now + 1 < 2 ^ 32 }
        ensures text { left result ≡ text.entry.now }
        ensures count { lines_read result ≡ 0 }
    {
        Lines {
            rest: text,
            count: 0,
        }
    }

    /// The number of the line after those that were read.
    pub fn next_number(&self) -> u32
        ensures { result ≡ lines_read self.now + 1 }
    {
        self.count + 1
    }

    /// The next line, without its end.
    #[tactic(auto, using(crate::proofs::LinesLemmas::split_ended, crate::proofs::LinesLemmas::split_last))]
    fn next_line(&mut self) -> Option<&'a [u8]>
        ensures none { IfNone result (lines_of (left self.old) ≡ []) }
        ensures same { IfNone result (self.new ≡ self.old) }
        ensures line { IfSome result (λ line. lines_of (left self.old)
            ≡ line.now ∷ lines_of (left self.new)) }
        ensures count { IfSome result (λ line. lines_read self.new ≡ lines_read self.old + 1) }
        ensures shorter { IfSome result (λ line. length (left self.new) < length (left self.old)) }
    {
        let all = self.rest;
        if all.is_empty() {
            return None;
        }
        let end = length_of_line(all);
        let count = self.count + 1;
        if end == all.len() {
            *self = Lines { rest: &[], count };
            return Some(all);
        }
        *self = Lines {
            rest: &all[end + 1..],
            count,
        };
        Some(without_return(&all[..end]))
    }

    /// The next line that holds words and is no comment.
    #[inline(always)]
    pub fn next(&mut self) -> Option<TextLine<'a>>
        ensures next { IsNextLine result (ahead self.old) (ahead self.new) }
        ensures last { after_last self.new ≡ after_last self.old }
        ensures end { IfNone result (lines_read self.new + 1 ≡ after_last self.old) }
        ensures number { IfSome result (λ line. line.number ≡ lines_read self.new) }
        ensures shorter { IfSome result (λ line. length (left self.new) < length (left self.old)) }
        ensures within { length (left self.new) ≤ length (left self.old) }
    {
        while let Some(line) = self.next_line() {
            if let Some(text) = TextLine::of(self.count, line) {
                return Some(text);
            }
        }
        None
    }
}
