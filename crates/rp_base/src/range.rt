//! Ranges of positions, for which a leader asks once.

ghost use Rattle.std.specs.Prelude.{◌≡◌, ◌↔◌, ◌+◌, ◌-◌, ◌<◌, ◌^◌, IsOk, IsErrOf, IsTrue};
ghost use Rattle.std.specs.List.{range_with_len};
ghost use Rattle.rp_base.specs.Ranges.{IsRange, IsRangeCount, end_of, is_covered, range_of};

use crate::fault::Fault;
use crate::number::Position;
use std::marker::Model;

/// The most positions that a range has.
pub const MOST_COVERED: u8 = 64;

/// Positions that follow one another: 1 to 64, the last at most 65,535. A leader asks once for all
/// of them (Lamport, "Paxos Made Simple", section 3).
#[derive(Clone, Copy, Debug, PartialEq, Eq, Hash)]
pub struct PositionRange {
    first: Position,
    count: u8,
}

impl Model for PositionRange {
    ghost use Rattle.rp_base.specs.Ranges.{Range, IsRange};

    ghost Value = { Range };

    ghost view = { λ r. record { first = r.first; count = r.count } };

    ghost invariant = { λ r. IsRange (record { first = r.first; count = r.count }) };

    ghost inverse = { λ r. record { first = r.first; count = r.count } };
}

impl PositionRange {
    /// The range of this many positions from the first on. `BadConfig` unless the count is 1 to 64;
    /// then `LogFull` if the last position would be above 65,535.
    pub fn new(first: Position, count: u8) -> Result<Self, Fault>
        // claim: A range of positions exists exactly if its count is 1 to 64 and its last position
        //   at most 65,535; a wrong count is reported before a last position
        ensures answer { result ≡ range_of first count }
        ensures valid { IsOk result ↔ IsRange (record { first = first; count = count }) }
        ensures count { IsErrOf result Fault.BadConfig ↔ ¬ IsRangeCount count }
        ensures full { IsErrOf result Fault.LogFull
            ↔ (IsRangeCount count × (2 ^ 16 < first + count)) }
    {
        if !matches!(count, 1..=MOST_COVERED) {
            return Err(Fault::BadConfig);
        }
        if u32::from(first.get()) + u32::from(count) > 1 << 16 {
            return Err(Fault::LogFull);
        }
        Ok(PositionRange { first, count })
    }

    /// Its first position.
    pub fn first(self) -> Position
        ensures value { result ≡ self.first }
        ensures range { IsRange self }
    {
        self.first
    }

    /// How many positions it has, 1 to 64.
    pub fn count(self) -> u8
        ensures value { result ≡ self.count }
        ensures range { IsRange self }
    {
        self.count
    }

    /// Its last position.
    pub fn last(self) -> Position
        ensures { result ≡ self.first + self.count - 1 }
    {
        self.at(self.count - 1)
    }

    /// Its position at an index, counted from 0.
    pub fn at(self, index: u8) -> Position
        requires { index < self.count }
        ensures { result ≡ self.first + index }
    {
        Position::new(self.first.get() + u16::from(index)).unwrap()
    }

    /// Whether the position is one of the range.
    pub fn covers(self, position: Position) -> bool
        ensures { result ≡ is_covered self position }
    {
        self.first <= position && u32::from(position.get()) < self.end()
    }

    /// The number after its last position's, at most 65,536.
    pub fn end(self) -> u32
        ensures value { result ≡ end_of self }
        ensures range { IsRange self }
    {
        u32::from(self.first.get()) + u32::from(self.count)
    }
}
