//! Records as bytes: the version, and then a byte that says which they are: 1 `Started`,
//! 2 `Promised`, 3 `Voted`, 4 `Learned`, 5 `PromisedRange`.

ghost use Rattle.std.specs.Prelude.{◌≡◌, ◌≤◌, ℕ, List, ◌++◌, ◌↔◌, length, Some, IsSome, IfSome, IfOk};
ghost use Rattle.rp_base.specs.declared.record.Rec.{Rec};
ghost use Rattle.rp_codec.specs.declared.version.Version.{Version};
ghost use Rattle.rp_codec.specs.Record.{record_text_at, record_text, HasRecordText, IsRecordTextBefore, IsRecord, BeginsWithRecord};
ghost use Rattle.rp_codec.specs.Reading.{Gives};
ghost use Rattle.rp_codec.specs.RecordReading.{started_at, promised_at, voted_at, learned_at, promised_range_at, record_at};

use crate::action_text::{put_action, put_vote, read_action, read_placed_vote};
use crate::fields::{
    VERSION, put_ballot, put_place, put_position, put_range, read_ballot, read_place,
    read_position, read_range_place,
};
use crate::reader::Reader;
use crate::short_text::ShortText;
use crate::version::Version;
use rp_base::{PacketReason, Rec};
use std::alloc::{AllocError, Global};

#[tactic(auto, unfolding(crate::specs::RecordReading::started_at))]
fn read_started(reader: &mut Reader) -> Result<Rec, PacketReason>
    ensures { Gives result reader.new (started_at reader.old) }
{
    let ballot = read_ballot(reader)?;
    Ok(Rec::Started(ballot))
}

#[tactic(auto, unfolding(crate::specs::RecordReading::promised_at))]
fn read_promised(reader: &mut Reader) -> Result<Rec, PacketReason>
    ensures { Gives result reader.new (promised_at reader.old) }
{
    let (position, ballot) = read_place(reader)?;
    Ok(Rec::Promised(position, ballot))
}

#[tactic(auto, unfolding(crate::specs::RecordReading::voted_at))]
fn read_voted(reader: &mut Reader, version: Version) -> Result<Rec, PacketReason>
    ensures { Gives result reader.new (voted_at version reader.old) }
{
    let placed = read_placed_vote(reader, version)?;
    let vote = placed.vote;
    Ok(Rec::Voted(placed.position, vote.ballot, vote.action))
}

#[tactic(auto, unfolding(crate::specs::RecordReading::learned_at))]
fn read_learned(reader: &mut Reader, version: Version) -> Result<Rec, PacketReason>
    ensures { Gives result reader.new (learned_at version reader.old) }
{
    let position = read_position(reader)?;
    let action = read_action(reader, version)?;
    Ok(Rec::Learned(position, action))
}

#[tactic(auto, unfolding(crate::specs::RecordReading::promised_range_at))]
fn read_promised_range(reader: &mut Reader) -> Result<Rec, PacketReason>
    ensures { Gives result reader.new (promised_range_at reader.old) }
{
    let (range, ballot) = read_range_place(reader)?;
    Ok(Rec::PromisedRange(range, ballot))
}

#[tactic(auto, unfolding(crate::specs::RecordReading::record_at))]
fn read_record(reader: &mut Reader) -> Result<Rec, PacketReason>
    ensures { Gives result reader.new (record_at reader.old) }
{
    let number = reader.byte()?;
    let Some(version) = Version::of(number) else {
        return Err(PacketReason::Field);
    };
    let kind = reader.byte()?;
    match kind {
        1 => read_started(reader),
        2 => read_promised(reader),
        3 => read_voted(reader, version),
        4 => read_learned(reader, version),
        5 => read_promised_range(reader),
        _ => Err(PacketReason::Field),
    }
}

/// The record's one text of version 2. It takes no memory.
pub fn text_of_record(rec: &Rec) -> ShortText
    ensures { result ≡ record_text rec.now }
{
    match rec {
        Rec::Started(ballot) => {
            let mut text = ShortText::starting_with(&[VERSION, 1]);
            put_ballot(&mut text, *ballot);
            text
        }
        Rec::Promised(position, ballot) => {
            let mut text = ShortText::starting_with(&[VERSION, 2]);
            put_place(&mut text, *position, *ballot);
            text
        }
        Rec::Voted(position, ballot, action) => {
            let mut text = ShortText::starting_with(&[VERSION, 3]);
            put_vote(&mut text, *position, *ballot, action);
            text
        }
        Rec::Learned(position, action) => {
            let mut text = ShortText::starting_with(&[VERSION, 4]);
            put_position(&mut text, *position);
            put_action(&mut text, action);
            text
        }
        Rec::PromisedRange(range, ballot) => {
            let mut text = ShortText::starting_with(&[VERSION, 5]);
            put_range(&mut text, *range);
            put_ballot(&mut text, *ballot);
            text
        }
    }
}

/// The record's one text of version 2, in memory.
pub fn encode_rec(alloc: Global, rec: &Rec) -> Result<Vec<u8>, AllocError>
    ensures { IfOk result (λ v. v.items ≡ record_text rec.now) }
{
    Vec::from_slice(alloc, text_of_record(rec).as_slice())
}

/// The record whose text, of version 1 or 2, the bytes begin with, and how many bytes that text
/// has. Any bytes may follow it. `None` where the bytes begin with no record's text. It takes no
/// memory.
pub fn decode_front(bytes: &[u8]) -> Option<(Rec, usize)>
    // Where there is one.
    // claim: A record is returned exactly if the bytes begin with its text of version 1 or 2
    ensures valid { IsSome result ↔ BeginsWithRecord bytes.now }
    // Which it is, and how long its text is.
    ensures value { (r : Rec) (rest : List ℕ) → IsRecord r → IsRecordTextBefore r rest bytes.now
        → result ≡ Some (r, length (record_text r)) }
{
    let mut reader = Reader::new(bytes);
    match read_record(&mut reader) {
        Ok(rec) => Some((rec, bytes.len() - reader.len())),
        Err(_) => None,
    }
}

/// No record's text of version 2 begins another's, whatever is after the two.
pub fn one_record_text()
    // claim as one_text
    ensures { (r s : Rec) (x y : List ℕ) → IsRecord r → IsRecord s
        → record_text r ++ x ≡ record_text s ++ y → (r ≡ s) × (x ≡ y) }
{}

/// No record's text of one version or the other begins another's, so none is of both, and a record
/// has at most two. The two have one length.
pub fn two_record_texts()
    // claim as two_texts
    ensures apart { (v w : Version) (r s : Rec) (x y : List ℕ) → IsRecord r → IsRecord s
        → HasRecordText v r → HasRecordText w s → record_text_at v r ++ x ≡ record_text_at w s ++ y
        → (v ≡ w) × (r ≡ s) × (x ≡ y) }
    ensures len { (v : Version) (r : Rec) → length (record_text_at v r) ≡ length (record_text r) }
{}
