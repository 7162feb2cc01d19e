//! The ballots that an acceptor promised for ranges, as levels: each holds from its position up to
//! the next one.

ghost use Rattle.std.specs.Prelude.{◌≡◌, ℕ, ◌+◌, ◌-◌, ◌<◌, ◌≤◌, ◌^◌, [], max, map, length, IfSome, OnOk, OnErr, slice_get};
ghost use Rattle.std.specs.List.{range_with_len};
ghost use Rattle.rp_base.specs.Ballot.{number_of};
ghost use Rattle.rp_base.specs.Ranges.{end_of, positions_of};
ghost use Rattle.rp_acceptor.specs.Comparing.{compared};
ghost use Rattle.rp_acceptor.specs.Levels.{Level, IsPromised, IsRising, IsCountBelow, holding_ballot, ballot_before, begins_at, HasLevel, raised_at, raised_level};
ghost use Rattle.rp_acceptor.specs.Slots.{stretch_in, ballot_promised, HasEnds};

use crate::comparison::Comparison;
use crate::slot::{ballot_of, stretch_in};
use rp_base::{Ballot, PositionRange, Rec};
use std::alloc::{AllocError, Global};
use std::marker::Model;

/// How many of the last levels are read before all are searched: a promise for a range adds two.
const NEAR_END: usize = 4;

/// From a position on the ballot of this number is promised, or nothing is if it is 0: so a level
/// takes 16 bytes.
#[derive(Drop)]
struct Level {
    from: usize,
    ballot: u64,
}

impl Model for Level {
    ghost use Rattle.rp_acceptor.specs.Levels.{Level, IsPromised};

    ghost Value = { Level };

    ghost view = { λ s. record { from = s.from; ballot = s.ballot } };

    ghost invariant = { λ s. IsPromised s.ballot };
}

impl Level {
    /// Where it begins.
    fn from(&self) -> usize
        ensures { result ≡ self.now.from }
    {
        self.from
    }

    /// Raises its ballot to at least this one.
    fn raise(&mut self, ballot: Ballot)
        ensures { self.new ≡ record self.old { ballot = max self.old.ballot ballot } }
    {
        self.ballot = self.ballot.max(ballot.get());
    }
}

/// All levels, in the order of their positions.
#[derive(Drop)]
pub struct Levels {
    levels: Vec<Level>,
}

impl Model for Levels {
    ghost use Rattle.std.specs.Prelude.{List};
    ghost use Rattle.rp_acceptor.specs.Levels.{Level, IsRising};

    ghost Value = { List Level };

    ghost view = { λ s. s.levels.items };

    ghost invariant = { λ s. IsRising s.levels.items };
}

impl Levels {
    /// No level: nothing is promised.
    pub fn new(alloc: Global) -> Levels
        ensures { result ≡ [] }
    {
        Levels {
            levels: Vec::new(alloc),
        }
    }

    /// The number of the ballot that holds at a position, 0 if none does.
    #[inline(always)]
    pub fn number(&self, position: usize) -> u64
        requires { position < 2 ^ 32 }
        ensures value { result ≡ holding_ballot self.now position }
        ensures promised { IsPromised result }
    {
        if self.levels.is_empty() {
            return 0;
        }
        let count = count_below(&self.levels, position + 1);
        number_before(&self.levels, count)
    }

    /// How the ballot compares with those that hold at the positions of a range.
    pub fn compare(&self, range: PositionRange, ballot: Ballot) -> Comparison
        ensures { result ≡ compared (holding_ballot self.now) ballot (positions_of range) }
    {
        compare(&self.levels, range, ballot)
    }

    /// Splits the level that holds at a position there: a level then begins there, and each
    /// position keeps its ballot.
    pub fn split(&mut self, position: usize) -> Result<(), AllocError>
        ensures same { (i : ℕ) → holding_ballot self.new i ≡ holding_ballot self.old i }
        ensures keeps { (i : ℕ) → HasLevel self.old i → HasLevel self.new i }
        ensures begins { OnOk result (HasLevel self.new position) }
        ensures full { OnErr result (¬ HasLevel self.old position) }
    {
        split(&mut self.levels, position)
    }

    /// Raises each ballot from a position on and below another to at least this one. A level begins
    /// at each end.
    pub fn raise(&mut self, first: usize, end: usize, ballot: Ballot)
        requires ends { HasLevel self.old first × HasLevel self.old end }
        requires rises { first < end }
        ensures raised { (i : ℕ) → holding_ballot self.new i
            ≡ raised_at first end ballot i (holding_ballot self.old i) }
        ensures keeps { (i : ℕ) → HasLevel self.old i → HasLevel self.new i }
    {
        raise(&mut self.levels, first, end, ballot);
    }
}

/// How many levels begin below a position.
fn count_below(levels: &[Level], position: usize) -> usize
    requires { IsRising levels.now }
    ensures { IsCountBelow levels.now position result }
{
    match count_near_end(levels, position) {
        Some(count) => count,
        None => count_among_all(levels, position),
    }
}

/// How many levels begin below a position, by a search of all. It is not inlined: few questions are
/// about positions so old.
#[inline(never)]
fn count_among_all(levels: &[Level], position: usize) -> usize
    requires { IsRising levels.now }
    ensures { IsCountBelow levels.now position result }
{
    levels.partition_point(|level| level.from() < position)
}

/// How many levels begin below a position, if it is all but a few of the last: most questions are
/// about the newest positions.
fn count_near_end(levels: &[Level], position: usize) -> Option<usize>
    requires { IsRising levels.now }
    ensures { IfSome result (λ count. IsCountBelow levels.now position count) }
{
    let mut count = levels.len();
    for _ in 0..NEAR_END {
        if count == 0 || levels[count - 1].from() < position {
            return Some(count);
        }
        count -= 1;
    }
    None
}

/// The ballot that holds after this many levels.
fn ballot_before(levels: &[Level], count: usize) -> Option<Ballot>
    requires { count ≤ length levels.now }
    ensures { number_of result ≡ ballot_before 0 levels.now count }
{
    ballot_of(number_before(levels, count))
}

/// Its number, or 0 if nothing is promised.
fn number_before(levels: &[Level], count: usize) -> u64
    requires { count ≤ length levels.now }
    ensures value { result ≡ ballot_before 0 levels.now count }
    ensures promised { IsPromised result }
{
    if count == 0 {
        0
    } else {
        let level = &levels[count - 1];
        level.ballot
    }
}

/// How the ballot compares with those that hold at the positions of a range. After one search for
/// the first position it looks at each level once.
fn compare(levels: &[Level], range: PositionRange, ballot: Ballot) -> Comparison
    requires { IsRising levels.now }
    ensures { result ≡ compared (holding_ballot levels.now) ballot (positions_of range) }
{
    let end = range.end() as usize;
    let mut position = usize::from(range.first().get());
    let mut count = count_below(levels, position + 1);
    let mut found = Comparison::Above;
    while count < levels.len() && levels[count].from() < end {
        let next = levels[count].from();
        let held = ballot_before(levels, count);
        found = found.followed_by(compare_stretch(range, position, next, held, ballot));
        position = next;
        count += 1;
    }
    let held = ballot_before(levels, count);
    found.followed_by(compare_stretch(range, position, end, held, ballot))
}

/// How the ballot compares with the one that holds from a position of the range on and below
/// another.
fn compare_stretch(
    range: PositionRange,
    from: usize,
    end: usize,
    held: Option<Ballot>,
    ballot: Ballot,
) -> Comparison
    requires within { (range.first ≤ from) × (end ≤ end_of range) }
    ensures { result ≡ compared (λ i. number_of held) ballot (range_with_len from (end - from)) }
{
    if end <= from {
        return Comparison::Above;
    }
    let index = from - usize::from(range.first().get());
    Comparison::at(range, index as u8, held, ballot)
}

/// Whether the level of an index begins at a position.
fn begins_at(levels: &[Level], index: usize, position: usize) -> bool
    ensures { result ≡ begins_at position (slice_get levels.now index) }
{
    match levels.get(index) {
        Some(level) => level.from() == position,
        None => false,
    }
}

/// Splits the level that holds at a position there.
fn split(levels: &mut Vec<Level>, position: usize) -> Result<(), AllocError>
    requires { IsRising levels.old.items }
    ensures rising { IsRising levels.new.items }
    ensures same { (i : ℕ) → holding_ballot levels.new.items i ≡ holding_ballot levels.old.items i }
    ensures keeps { (i : ℕ) → HasLevel levels.old.items i → HasLevel levels.new.items i }
    ensures begins { OnOk result (HasLevel levels.new.items position) }
    ensures full { OnErr result (¬ HasLevel levels.old.items position) }
{
    let count = count_below(levels, position);
    if !begins_at(levels, count, position) {
        let ballot = number_before(levels, count);
        let level = Level {
            from: position,
            ballot,
        };
        levels.insert(count, level)?;
    }
    Ok(())
}

/// Raises the ballots of the levels that begin from a position on and below another.
fn raise(levels: &mut Vec<Level>, first: usize, end: usize, ballot: Ballot)
    requires { IsRising levels.old.items }
    ensures { levels.new.items ≡ map (raised_level first end ballot) levels.old.items }
{
    let mut index = count_below(levels, first);
    while index < levels.len() && levels[index].from() < end {
        levels[index].raise(ballot);
        index += 1;
    }
}

/// Splits the levels that hold at two positions there, if there is memory. Each position keeps its
/// ballot.
pub fn split_ends(levels: &mut Levels, first: usize, end: usize) -> Result<(), AllocError>
    ensures same { (i : ℕ) → holding_ballot levels.new i ≡ holding_ballot levels.old i }
    ensures keeps { (i : ℕ) → HasLevel levels.old i → HasLevel levels.new i }
    ensures ends { OnOk result (HasLevel levels.new first × HasLevel levels.new end) }
    ensures full { OnErr result (¬ (HasLevel levels.old first × HasLevel levels.old end)) }
{
    levels.split(first)?;
    levels.split(end)
}

/// Notes the promise that a record is, if it is one. A level begins at each of its ends.
#[inline(always)]
pub fn raise_promised(levels: &mut Levels, rec: &Rec)
    requires { HasEnds levels.old (stretch_in rec.now) }
    ensures raised { (i : ℕ) → holding_ballot levels.new i
        ≡ max (holding_ballot levels.old i) (ballot_promised i (stretch_in rec.now)) }
    ensures keeps { (i : ℕ) → HasLevel levels.old i → HasLevel levels.new i }
{
    if let Some(stretch) = stretch_in(rec) {
        levels.raise(stretch.first, stretch.end, stretch.ballot);
    }
}
