//! Promises for a range as bytes: the range, the ballot, how many votes are reported, and each of
//! those with its position.

ghost use Rattle.std.specs.Prelude.{IsOk, IfOk};
ghost use Rattle.rp_base.specs.Ranges.{end_of};
ghost use Rattle.rp_codec.specs.Reading.{reported_at, votes_at, reported_votes_at, promise_range_at};
ghost use Rattle.rp_codec.specs.Found.{Skips, GivesVote, Finds, AreFirstVotes};

use crate::action_text::put_vote;
use crate::body_text::read_vote;
use crate::content::Content;
use crate::fields::{read_position, read_range_place};
use crate::items::Votes;
use crate::list_text::Item;
use crate::reader::Reader;
use crate::short_text::ShortText;
use crate::version::Version;
use rp_base::{Action, Ballot, PacketReason, PlacedVote, Position, PositionRange, Vote};
use std::alloc::{AllocError, Global};

/// A position that is the first or a later one, and below the end, and a vote there in a lower
/// ballot than this one.
#[tactic(auto, unfolding(crate::specs::Reading::reported_at))]
fn read_reported(
    reader: &mut Reader,
    version: Version,
    ballot: Ballot,
    first: u32,
    end: u32,
) -> Result<(Position, Ballot, Action), PacketReason>
    ensures { GivesVote result reader.new (reported_at version ballot end first reader.old) }
{
    let position = read_position(reader)?;
    let number = u32::from(position.get());
    if number < first || number >= end {
        return Err(PacketReason::Field);
    }
    let vote = read_vote(reader, version, ballot)?;
    Ok((position, vote.ballot, vote.action))
}

/// Reads n votes, and keeps none.
fn skip_each(
    reader: &mut Reader,
    version: Version,
    range: PositionRange,
    ballot: Ballot,
    count: u8,
) -> Result<(), PacketReason>
    ensures { Skips result reader.new
        (votes_at version ballot (end_of range) range.first count reader.old) }
{
    let end = range.end();
    let mut first = u32::from(range.first().get());
    for _ in 0..count {
        let (position, _, _) = read_reported(reader, version, ballot, first, end)?;
        first = u32::from(position.get()) + 1;
    }
    Ok(())
}

/// Reads how many votes are reported, and each of them, and keeps none.
#[tactic(auto, unfolding(crate::specs::Reading::reported_votes_at))]
fn skip_votes(
    reader: &mut Reader,
    version: Version,
    range: PositionRange,
    ballot: Ballot,
) -> Result<(), PacketReason>
    ensures { Skips result reader.new (reported_votes_at version range ballot reader.old) }
{
    let count = reader.byte()?;
    if count > range.count() {
        return Err(PacketReason::Field);
    }
    skip_each(reader, version, range, ballot, count)
}

#[tactic(auto, unfolding(crate::specs::Reading::promise_range_at))]
pub(crate) fn read_promise_range<'a>(
    reader: &mut Reader<'a>,
    version: Version,
) -> Result<Content<'a>, PacketReason>
    ensures { Finds result reader.new (promise_range_at version reader.old) }
{
    let (range, ballot) = read_range_place(reader)?;
    let votes = reader.again();
    skip_votes(reader, version, range, ballot)?;
    let content = Content::Voted {
        version,
        range,
        ballot,
        votes,
    };
    Ok(content)
}

/// The votes that are reported at the front of what is left.
pub(crate) fn list_votes(
    alloc: Global,
    mut reader: Reader,
    version: Version,
    range: PositionRange,
    ballot: Ballot,
) -> Result<Votes, AllocError>
    requires { IsOk (reported_votes_at version range ballot reader) }
    ensures { IfOk result (λ list. AreFirstVotes list version range ballot reader.entry) }
{
    let Ok(count) = reader.byte() else {
        unreachable!()
    };
    let end = range.end();
    let mut first = u32::from(range.first().get());
    let mut votes = Vec::with_capacity(alloc, usize::from(count))?;
    for _ in 0..count {
        match read_reported(&mut reader, version, ballot, first, end) {
            Ok(read) => {
                let (position, ballot, action) = read;
                first = u32::from(position.get()) + 1;
                let vote = Vote { ballot, action };
                votes.push_reserved(PlacedVote { position, vote });
            }
            Err(_) => unreachable!(),
        }
    }
    Ok(Votes::from_vec(votes))
}

impl Item for PlacedVote {
    ghost use Rattle.rp_codec.specs.Text.{placed_text};

    ghost item_text = { placed_text };

    fn put(&self, text: &mut ShortText) {
        put_vote(text, self.position, self.vote.ballot, &self.vote.action);
    }
}
