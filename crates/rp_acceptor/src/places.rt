//! What an acceptor keeps for the positions of a range, where it keeps it.

ghost use Rattle.std.specs.Prelude.{◌≡◌, ◌+◌, ◌-◌, ◌<◌, ◌≤◌, ◌++◌, ℕ, List, [], length, IfOk, OnOk, OnErr};
ghost use Rattle.rp_base.specs.declared.record.Rec.{Rec};
ghost use Rattle.rp_base.specs.PlacedVotes.{last_votes};
ghost use Rattle.rp_acceptor.specs.Comparing.{compared_bounds};
ghost use Rattle.rp_acceptor.specs.Slots.{votes_from, bounds_from, page_at, kept_of, IsWhole, KeepsRecords, AreBoundsOf};

use crate::comparison::Comparison;
use crate::page::{Kept, PAGE, Page, places_at};
use crate::slot::index_of_position;
use rp_base::{Ballot, PlacedVote, PositionRange, RangeVotes};
use std::alloc::{AllocError, Global};
use std::marker::Model;

/// The places of the positions of a range, in the page of its first position and in the next page,
/// which it may reach into. A page that is absent has no places.
#[derive(Drop)]
pub struct Places<'a> {
    range: PositionRange,
    /// How many positions of the range have their places in the first page.
    split: u8,
    near: &'a [Kept],
    far: &'a [Kept],
}

impl<'a> Model for Places<'a> {
    ghost use Rattle.std.specs.Prelude.{length, ◌+◌, ◌≤◌, ◌++◌};
    ghost use Rattle.rp_acceptor.specs.Slots.{VotesAndBounds, votes_from, bounds_from};

    ghost Value = { VotesAndBounds };

    ghost view = { λ p. record {
      votes = votes_from p.range.first p.near.now ++ votes_from (p.range.first + p.split) p.far.now;
      bounds = bounds_from p.range.first p.near.now
          ++ bounds_from (p.range.first + p.split) p.far.now;
    } };

    ghost invariant = { λ p. (length p.near.now ≤ p.split)
        × (p.split + length p.far.now ≤ p.range.count) };
}

impl<'a> Places<'a> {
    /// The places of a range.
    pub fn of(pages: &'a [Page], range: PositionRange) -> Self
        requires { (n : ℕ) → IsWhole (page_at pages.now n) }
        ensures votes { (records : List Rec) → KeepsRecords (kept_of pages.now) records
            → result.votes ≡ last_votes records range }
        ensures bounds { (records : List Rec) → KeepsRecords (kept_of pages.now) records
            → AreBoundsOf result.bounds records range }
    {
        let index = index_of_position(range.first());
        let count = usize::from(range.count());
        let split = count.min(PAGE - index % PAGE);
        Places {
            range,
            split: split as u8,
            near: places_at(pages, index, split),
            far: places_at(pages, index + split, count - split),
        }
    }

    /// How the ballot compares with the bounds.
    pub fn compare(&self, ballot: Ballot) -> Comparison
        ensures { result ≡ compared_bounds ballot self.now.bounds }
    {
        let near = compare(self.near, self.range, 0, ballot);
        near.followed_by(compare(self.far, self.range, self.split, ballot))
    }

    /// The votes, in place.
    pub fn votes(&self) -> RangeVotes
        ensures { result ≡ self.now.votes }
    {
        let mut votes = RangeVotes::new();
        push(&mut votes, self.near, self.range, 0);
        push(&mut votes, self.far, self.range, self.split);
        votes
    }

    /// The votes in a vector, which takes no memory if there are none.
    pub fn to_vec(&self, alloc: Global) -> Result<Vec<PlacedVote>, AllocError>
        ensures votes { IfOk result (λ votes. votes.items ≡ self.now.votes) }
        ensures full { OnErr result (¬ (self.now.votes ≡ [])) }
    {
        let mut votes = Vec::new(alloc);
        append(&mut votes, self.near, self.range, 0)?;
        append(&mut votes, self.far, self.range, self.split)?;
        Ok(votes)
    }
}

/// How the ballot compares with the bounds at places, the first of them that of an index of the
/// range.
fn compare(places: &[Kept], range: PositionRange, first: u8, ballot: Ballot) -> Comparison
    requires { first + length places.now ≤ range.count }
    ensures { result ≡ compared_bounds ballot (bounds_from (range.first + first) places.now) }
{
    let mut found = Comparison::Above;
    for offset in 0..places.len() {
        let index = first + offset as u8;
        found = found.followed_by(Comparison::at(range, index, places[offset].bound(), ballot));
    }
    found
}

/// Adds the votes at places to others, the first place that of an index of the range.
fn push(votes: &mut RangeVotes, places: &[Kept], range: PositionRange, first: u8)
    requires within { first + length places.now ≤ range.count }
    requires room { length votes.old ≤ first }
    ensures added { votes.new ≡ votes.old ++ votes_from (range.first + first) places.now }
    ensures few { length votes.new ≤ length votes.old + length places.now }
{
    for offset in 0..places.len() {
        if let Some(vote) = places[offset].last() {
            votes.push(PlacedVote {
                position: range.at(first + offset as u8),
                vote: *vote,
            });
        }
    }
}

/// Adds the votes at places to those of a vector, the first place that of an index of the range. It
/// takes memory only if there is a vote.
fn append(
    votes: &mut Vec<PlacedVote>,
    places: &[Kept],
    range: PositionRange,
    first: u8,
) -> Result<(), AllocError>
    requires { first + length places.now ≤ range.count }
    ensures added { OnOk result (votes.new.items
        ≡ votes.old.items ++ votes_from (range.first + first) places.now) }
    ensures full { OnErr result (¬ (votes_from (range.first + first) places.now ≡ [])) }
{
    for offset in 0..places.len() {
        if let Some(vote) = places[offset].last() {
            votes.push(PlacedVote {
                position: range.at(first + offset as u8),
                vote: *vote,
            })?;
        }
    }
    Ok(())
}
