//! How a ballot compares with the bounds at positions.

ghost use Rattle.std.specs.Prelude.{◌≡◌, ◌+◌, ◌<◌, ◌&&◌, ◌||◌, nat_eq, nat_le, nat_lt};
ghost use Rattle.rp_base.specs.Ballot.{number_of};
ghost use Rattle.rp_acceptor.specs.Comparing.{compared_at, followed_by, combined};

use rp_base::{Ballot, Position, PositionRange};

/// How a ballot compares with the bounds at some positions.
#[derive(Clone, Copy)]
pub enum Comparison {
    /// The ballot is above each of them.
    Above,
    /// The ballot is below one of them: the least such position, and its bound.
    Below(Position, Ballot),
    /// The ballot is below none, and equal to one.
    Equal,
}

impl Comparison {
    /// How the ballot compares with the bound, if there is one, at the position of this index of a
    /// range.
    pub(crate) fn at(
        range: PositionRange,
        index: u8,
        bound: Option<Ballot>,
        ballot: Ballot,
    ) -> Comparison
        requires { index < range.count }
        ensures { result ≡ compared_at (range.first + index) (number_of bound) ballot }
    {
        match bound {
            Some(bound) if ballot < bound => Comparison::Below(range.at(index), bound),
            Some(bound) if ballot == bound => Comparison::Equal,
            _ => Comparison::Above,
        }
    }

    /// How the ballot compares with the bounds at these positions and at later ones.
    pub(crate) fn followed_by(self, later: Comparison) -> Comparison
        ensures { result ≡ followed_by self later }
    {
        match (self, later) {
            (Comparison::Above, _) | (Comparison::Equal, Comparison::Below(_, _)) => later,
            _ => self,
        }
    }

    /// How the ballot compares with the greater of two bounds at each of the same positions.
    pub(crate) fn combined(self, other: Comparison) -> Comparison
        ensures { result ≡ combined self other }
    {
        match self {
            Comparison::Above => other,
            Comparison::Below(first, bound) => match other {
                Comparison::Below(second, higher) if !is_first(first, bound, second, higher) =>
                    other,
                _ => self,
            },
            Comparison::Equal => self.followed_by(other),
        }
    }
}

/// Whether a bound counts before another: its position is less, or the same, and it is no less.
fn is_first(position: Position, bound: Ballot, other: Position, other_bound: Ballot) -> bool
    ensures { result ≡ (nat_lt position other
        || nat_eq position other && nat_le other_bound bound) }
{
    position < other || position == other && other_bound <= bound
}
