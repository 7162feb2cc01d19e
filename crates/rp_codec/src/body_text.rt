//! Bodies as bytes.

ghost use Rattle.std.specs.Prelude.{◌≡◌, ◌+◌, ◌≤◌, ◌++◌, length};
ghost use Rattle.rp_codec.specs.Text.{last_text, short_body_text};
ghost use Rattle.rp_codec.specs.Found.{Finds};
ghost use Rattle.rp_codec.specs.Reading.{Gives, lower_ballot_at, higher_ballot_at, vote_at, last_at, prepare_at, promise_at, accept_at, accepted_at, decided_at, ask_at, nack_at, answer_at, task_call_at, prepare_range_at, body_at};

use crate::action_text::{put_action, put_vote, read_action, read_own_call, read_placed_vote};
use crate::content::Content;
use crate::fields::{
    put_ballot, put_place, put_position, put_range, put_u16, put_u32, read_ballot, read_count,
    read_place, read_position, read_range_place,
};
use crate::kind::Kind;
use crate::packet::{Body, Party};
use crate::reader::Reader;
use crate::reply_text::{put_reply, read_reply};
use crate::report_text::read_report;
use crate::short_text::ShortText;
use crate::version::Version;
use crate::votes_text::read_promise_range;
use rp_base::{Ballot, PacketReason, Vote};

#[inline(always)]
#[tactic(auto, unfolding(crate::specs::Reading::lower_ballot_at))]
fn read_lower_ballot(reader: &mut Reader, ballot: Ballot) -> Result<Ballot, PacketReason>
    ensures { Gives result reader.new (lower_ballot_at ballot reader.old) }
{
    let lower = read_ballot(reader)?;
    if lower.get() >= ballot.get() {
        return Err(PacketReason::Field);
    }
    Ok(lower)
}

#[inline(always)]
#[tactic(auto, unfolding(crate::specs::Reading::higher_ballot_at))]
fn read_higher_ballot(reader: &mut Reader, ballot: Ballot) -> Result<Ballot, PacketReason>
    ensures { Gives result reader.new (higher_ballot_at ballot reader.old) }
{
    let higher = read_ballot(reader)?;
    if higher.get() <= ballot.get() {
        return Err(PacketReason::Field);
    }
    Ok(higher)
}

#[inline(always)]
#[tactic(auto, unfolding(crate::specs::Reading::vote_at))]
pub(crate) fn read_vote(
    reader: &mut Reader,
    version: Version,
    below: Ballot,
) -> Result<Vote, PacketReason>
    ensures { Gives result reader.new (vote_at version below reader.old) }
{
    let ballot = read_lower_ballot(reader, below)?;
    let action = read_action(reader, version)?;
    Ok(Vote { ballot, action })
}

#[inline(always)]
#[tactic(auto, unfolding(crate::specs::Reading::last_at, crate::specs::Reading::last_vote_at))]
pub(crate) fn read_last(
    reader: &mut Reader,
    version: Version,
    below: Ballot,
) -> Result<Option<Vote>, PacketReason>
    ensures { Gives result reader.new (last_at version below reader.old) }
{
    let flag = reader.byte()?;
    match flag {
        0 => Ok(None),
        1 => {
            let vote = read_vote(reader, version, below)?;
            Ok(Some(vote))
        }
        _ => Err(PacketReason::Field),
    }
}

#[inline(always)]
#[tactic(auto, unfolding(crate::specs::Reading::prepare_at))]
fn read_prepare(reader: &mut Reader) -> Result<Body, PacketReason>
    ensures { Gives result reader.new (prepare_at reader.old) }
{
    let (position, ballot) = read_place(reader)?;
    Ok(Body::Prepare { position, ballot })
}

#[inline(always)]
#[tactic(auto, unfolding(crate::specs::Reading::promise_at))]
fn read_promise(reader: &mut Reader, version: Version) -> Result<Body, PacketReason>
    ensures { Gives result reader.new (promise_at version reader.old) }
{
    let (position, ballot) = read_place(reader)?;
    let last = read_last(reader, version, ballot)?;
    let body = Body::Promise {
        position,
        ballot,
        last,
    };
    Ok(body)
}

#[inline(always)]
#[tactic(auto, unfolding(crate::specs::Reading::accept_at))]
fn read_accept(reader: &mut Reader, version: Version) -> Result<Body, PacketReason>
    ensures { Gives result reader.new (accept_at version reader.old) }
{
    let placed = read_placed_vote(reader, version)?;
    Ok(Body::Accept {
        position: placed.position,
        ballot: placed.vote.ballot,
        action: placed.vote.action,
    })
}

#[inline(always)]
#[tactic(auto, unfolding(crate::specs::Reading::accepted_at))]
fn read_accepted(reader: &mut Reader, version: Version) -> Result<Body, PacketReason>
    ensures { Gives result reader.new (accepted_at version reader.old) }
{
    let placed = read_placed_vote(reader, version)?;
    Ok(Body::Accepted {
        position: placed.position,
        ballot: placed.vote.ballot,
        action: placed.vote.action,
    })
}

#[inline(always)]
#[tactic(auto, unfolding(crate::specs::Reading::decided_at))]
fn read_decided(reader: &mut Reader, version: Version) -> Result<Body, PacketReason>
    ensures { Gives result reader.new (decided_at version reader.old) }
{
    let position = read_position(reader)?;
    let action = read_action(reader, version)?;
    Ok(Body::Decided { position, action })
}

#[inline(always)]
#[tactic(auto, unfolding(crate::specs::Reading::nack_at))]
fn read_nack(reader: &mut Reader) -> Result<Body, PacketReason>
    ensures { Gives result reader.new (nack_at reader.old) }
{
    let (position, ballot) = read_place(reader)?;
    let bound = read_higher_ballot(reader, ballot)?;
    let body = Body::Nack {
        position,
        ballot,
        bound,
    };
    Ok(body)
}

#[inline(always)]
#[tactic(auto, unfolding(crate::specs::Reading::answer_at))]
fn read_answer(reader: &mut Reader) -> Result<Body, PacketReason>
    ensures { Gives result reader.new (answer_at reader.old) }
{
    let number = read_count(reader)?;
    let reply = read_reply(reader)?;
    Ok(Body::Reply { number, reply })
}

#[inline(always)]
#[tactic(auto, unfolding(crate::specs::Reading::task_call_at))]
fn read_task_call(reader: &mut Reader, version: Version, from: &Party) -> Result<Body, PacketReason>
    ensures { Gives result reader.new (task_call_at version from.now reader.old) }
{
    let action = read_own_call(reader, version, from)?;
    Ok(Body::Call { action })
}

#[inline(always)]
#[tactic(auto, unfolding(crate::specs::Reading::ask_at))]
fn read_ask(reader: &mut Reader) -> Result<Body, PacketReason>
    ensures { Gives result reader.new (ask_at reader.old) }
{
    let position = read_position(reader)?;
    Ok(Body::Ask { position })
}

#[inline(always)]
#[tactic(auto, unfolding(crate::specs::Reading::prepare_range_at))]
fn read_prepare_range(reader: &mut Reader) -> Result<Body, PacketReason>
    ensures { Gives result reader.new (prepare_range_at reader.old) }
{
    let (range, ballot) = read_range_place(reader)?;
    Ok(Body::PrepareRange { range, ballot })
}

/// What a packet of this version and kind says, from this party.
#[inline(always)]
#[tactic(auto, unfolding(crate::specs::Reading::body_at))]
pub(crate) fn read_content<'a>(
    reader: &mut Reader<'a>,
    version: Version,
    kind: Kind,
    from: &Party,
) -> Result<Content<'a>, PacketReason>
    ensures { Finds result reader.new (body_at version kind from.now reader.old) }
{
    let body = match kind {
        Kind::Call => read_task_call(reader, version, from),
        Kind::Prepare => read_prepare(reader),
        Kind::Promise => read_promise(reader, version),
        Kind::Accept => read_accept(reader, version),
        Kind::Accepted => read_accepted(reader, version),
        Kind::Decided => read_decided(reader, version),
        Kind::Ask => read_ask(reader),
        Kind::Nack => read_nack(reader),
        Kind::Reply => read_answer(reader),
        Kind::PrepareRange => read_prepare_range(reader),
        Kind::Report => return read_report(reader, version),
        Kind::PromiseRange => return read_promise_range(reader, version),
    };
    Ok(Content::Whole(body?))
}

#[inline(always)]
fn put_last(text: &mut ShortText, last: &Option<Vote>)
    requires { length text.old + 26 ≤ 40 }
    ensures { text.new ≡ text.old ++ last_text last.now }
{
    match last {
        None => text.put(&[0]),
        Some(vote) => {
            text.put(&[1]);
            put_ballot(text, vote.ballot);
            put_action(text, &vote.action);
        }
    }
}

/// Adds a body's text, at most 36 bytes, of a report all but its actions, and of a promise for a
/// range all but its votes.
#[inline(always)]
pub(crate) fn put_body(text: &mut ShortText, body: &Body)
    requires { length text.old + 36 ≤ 40 }
    ensures { text.new ≡ text.old ++ short_body_text body.now }
{
    match body {
        Body::Call { action } => put_action(text, action),
        Body::Prepare { position, ballot } => put_place(text, *position, *ballot),
        Body::Promise {
            position,
            ballot,
            last,
        } => {
            put_place(text, *position, *ballot);
            put_last(text, last);
        }
        Body::Accept {
            position,
            ballot,
            action,
        }
        | Body::Accepted {
            position,
            ballot,
            action,
        } => put_vote(text, *position, *ballot, action),
        Body::Decided { position, action } => {
            put_position(text, *position);
            put_action(text, action);
        }
        Body::Ask { position } => put_position(text, *position),
        Body::Nack {
            position,
            ballot,
            bound,
        } => {
            put_place(text, *position, *ballot);
            put_ballot(text, *bound);
        }
        Body::Reply { number, reply } => {
            put_u32(text, *number);
            put_reply(text, *reply);
        }
        Body::Report { first, applied, .. } => {
            put_position(text, *first);
            put_u16(text, *applied);
        }
        Body::PrepareRange { range, ballot } | Body::PromiseRange { range, ballot, .. } => {
            put_range(text, *range);
            put_ballot(text, *ballot);
        }
    }
}
