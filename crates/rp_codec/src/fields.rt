//! The fields that are in more than one text: numbers, positions and ballots. A reader answers the
//! field's value and the bytes after it.

ghost use Rattle.std.specs.Prelude.{◌≡◌, ◌+◌, ◌≤◌, ◌++◌, length};
ghost use Rattle.std.specs.Int.{w16, w32, w64};
ghost use Rattle.rp_codec.specs.Text.{number_text, signed_text, position_text, ballot_text, range_text};
ghost use Rattle.rp_codec.specs.Reading.{Gives, byte_at, number_at, signed_at, index_at, count_at, position_at, ballot_at, range_at, place_at, range_place_at};

use crate::reader::Reader;
use crate::short_text::ShortText;
use byteorder::{BigEndian, ByteOrder};
use rp_base::{Ballot, MOST_OBJECTS, PacketReason, Position, PositionRange};

/// The greatest index of an object, and as well of an operation of a kind and of a source.
const MOST_INDEX: u8 = MOST_OBJECTS;

/// The version of the texts that are written, their first byte.
pub(crate) const VERSION: u8 = 2;

#[inline(always)]
#[tactic(auto, unfolding(crate::specs::Reading::signed_at))]
pub(crate) fn read_i64(reader: &mut Reader) -> Result<i64, PacketReason>
    ensures { Gives result reader.new (signed_at reader.old) }
{
    let number = reader.u64()?;
    Ok(number.cast_signed())
}

/// 1 to 8.
#[inline(always)]
#[tactic(auto, unfolding(crate::specs::Reading::index_at))]
pub(crate) fn read_index(reader: &mut Reader) -> Result<u8, PacketReason>
    ensures { Gives result reader.new (index_at reader.old) }
{
    let index = reader.byte()?;
    if index < 1 || index > MOST_INDEX {
        return Err(PacketReason::Field);
    }
    Ok(index)
}

/// 1 to 2^32 - 1.
#[inline(always)]
#[tactic(auto, unfolding(crate::specs::Reading::count_at))]
pub(crate) fn read_count(reader: &mut Reader) -> Result<u32, PacketReason>
    ensures { Gives result reader.new (count_at reader.old) }
{
    let number = reader.u32()?;
    if number < 1 {
        return Err(PacketReason::Field);
    }
    Ok(number)
}

#[inline(always)]
#[tactic(auto, unfolding(crate::specs::Reading::position_at))]
pub(crate) fn read_position(reader: &mut Reader) -> Result<Position, PacketReason>
    ensures { Gives result reader.new (position_at reader.old) }
{
    let number = reader.u16()?;
    match Position::new(number) {
        Some(position) => Ok(position),
        None => Err(PacketReason::Field),
    }
}

#[inline(always)]
#[tactic(auto, using(crate::proofs::RuleTests::is_ballot_decides), unfolding(crate::specs::Reading::ballot_at))]
pub(crate) fn read_ballot(reader: &mut Reader) -> Result<Ballot, PacketReason>
    ensures { Gives result reader.new (ballot_at reader.old) }
{
    let number = reader.u64()?;
    match Ballot::new(number) {
        Some(ballot) => Ok(ballot),
        None => Err(PacketReason::Field),
    }
}

/// 1 to 64 positions, the last at most 65,535.
#[inline(always)]
#[tactic(auto, unfolding(crate::specs::Reading::range_at))]
pub(crate) fn read_range(reader: &mut Reader) -> Result<PositionRange, PacketReason>
    ensures { Gives result reader.new (range_at reader.old) }
{
    let first = read_position(reader)?;
    let count = reader.byte()?;
    match PositionRange::new(first, count) {
        Ok(range) => Ok(range),
        Err(_) => Err(PacketReason::Field),
    }
}

/// A position and a ballot.
#[inline(always)]
#[tactic(auto, unfolding(crate::specs::Reading::place_at))]
pub(crate) fn read_place(reader: &mut Reader) -> Result<(Position, Ballot), PacketReason>
    ensures { Gives result reader.new (place_at reader.old) }
{
    let position = read_position(reader)?;
    let ballot = read_ballot(reader)?;
    Ok((position, ballot))
}

/// A range and a ballot.
#[inline(always)]
#[tactic(auto, unfolding(crate::specs::Reading::range_place_at))]
pub(crate) fn read_range_place(reader: &mut Reader) -> Result<(PositionRange, Ballot), PacketReason>
    ensures { Gives result reader.new (range_place_at reader.old) }
{
    let range = read_range(reader)?;
    let ballot = read_ballot(reader)?;
    Ok((range, ballot))
}

#[inline(always)]
#[tactic(auto, unfolding(crate::specs::Text::number_text))]
pub(crate) fn put_u16(text: &mut ShortText, number: u16)
    requires { length text.old + 2 ≤ 40 }
    ensures text { text.new ≡ text.old ++ number_text w16 number }
    ensures len { length text.new ≡ length text.old + 2 }
{
    let mut bytes = [0; 2];
    BigEndian::write_u16(&mut bytes, number);
    text.put(&bytes);
}

#[inline(always)]
#[tactic(auto, unfolding(crate::specs::Text::number_text))]
pub(crate) fn put_u32(text: &mut ShortText, number: u32)
    requires { length text.old + 4 ≤ 40 }
    ensures text { text.new ≡ text.old ++ number_text w32 number }
    ensures len { length text.new ≡ length text.old + 4 }
{
    let mut bytes = [0; 4];
    BigEndian::write_u32(&mut bytes, number);
    text.put(&bytes);
}

#[inline(always)]
#[tactic(auto, unfolding(crate::specs::Text::number_text))]
pub(crate) fn put_i64(text: &mut ShortText, number: i64)
    requires { length text.old + 8 ≤ 40 }
    ensures text { text.new ≡ text.old ++ signed_text number }
    ensures len { length text.new ≡ length text.old + 8 }
{
    let mut bytes = [0; 8];
    BigEndian::write_i64(&mut bytes, number);
    text.put(&bytes);
}

#[inline(always)]
pub(crate) fn put_position(text: &mut ShortText, position: Position)
    requires { length text.old + 2 ≤ 40 }
    ensures text { text.new ≡ text.old ++ position_text position }
    ensures len { length text.new ≡ length text.old + 2 }
{
    put_u16(text, position.get());
}

#[inline(always)]
#[tactic(auto, unfolding(crate::specs::Text::number_text))]
pub(crate) fn put_ballot(text: &mut ShortText, ballot: Ballot)
    requires { length text.old + 8 ≤ 40 }
    ensures text { text.new ≡ text.old ++ ballot_text ballot }
    ensures len { length text.new ≡ length text.old + 8 }
{
    let mut bytes = [0; 8];
    BigEndian::write_u64(&mut bytes, ballot.get());
    text.put(&bytes);
}

#[inline(always)]
pub(crate) fn put_range(text: &mut ShortText, range: PositionRange)
    requires { length text.old + 3 ≤ 40 }
    ensures text { text.new ≡ text.old ++ range_text range }
    ensures len { length text.new ≡ length text.old + 3 }
{
    put_position(text, range.first());
    text.put(&[range.count()]);
}

#[inline(always)]
pub(crate) fn put_place(text: &mut ShortText, position: Position, ballot: Ballot)
    requires { length text.old + 10 ≤ 40 }
    ensures text { text.new ≡ text.old ++ (position_text position ++ ballot_text ballot) }
    ensures len { length text.new ≡ length text.old + 10 }
{
    put_position(text, position);
    put_ballot(text, ballot);
}
