//! Replies as bytes, after a byte that says which they are: 1 `Value`, 2 `Truth`, 3
//! `ConstraintError`, 4 `ProgramError`, 5 `NoSuchOperation`.

ghost use Rattle.std.specs.Prelude.{◌≡◌, ◌+◌, ◌≤◌, ◌++◌, length};
ghost use Rattle.rp_codec.specs.Text.{reply_text};
ghost use Rattle.rp_codec.specs.Reading.{Gives, value_at, truth_at, reply_at};

use crate::fields::{put_i64, read_i64};
use crate::reader::Reader;
use crate::short_text::ShortText;
use rp_base::{PacketReason, Reply};

#[tactic(auto, unfolding(crate::specs::Reading::value_at))]
fn read_value(reader: &mut Reader) -> Result<Reply, PacketReason>
    ensures { Gives result reader.new (value_at reader.old) }
{
    let value = read_i64(reader)?;
    Ok(Reply::Value(value))
}

#[tactic(auto, unfolding(crate::specs::Reading::truth_at))]
fn read_truth(reader: &mut Reader) -> Result<Reply, PacketReason>
    ensures { Gives result reader.new (truth_at reader.old) }
{
    let flag = reader.byte()?;
    match flag {
        0 => Ok(Reply::Truth(false)),
        1 => Ok(Reply::Truth(true)),
        _ => Err(PacketReason::Field),
    }
}

#[inline(always)]
#[tactic(auto, unfolding(crate::specs::Reading::reply_at))]
pub(crate) fn read_reply(reader: &mut Reader) -> Result<Reply, PacketReason>
    ensures { Gives result reader.new (reply_at reader.old) }
{
    let tag = reader.byte()?;
    match tag {
        1 => read_value(reader),
        2 => read_truth(reader),
        3 => Ok(Reply::ConstraintError),
        4 => Ok(Reply::ProgramError),
        5 => Ok(Reply::NoSuchOperation),
        _ => Err(PacketReason::Field),
    }
}

#[inline(always)]
pub(crate) fn put_reply(text: &mut ShortText, reply: Reply)
    requires { length text.old + 9 ≤ 40 }
    ensures { text.new ≡ text.old ++ reply_text reply }
{
    match reply {
        Reply::Value(value) => {
            text.put(&[1]);
            put_i64(text, value);
        }
        Reply::Truth(truth) => text.put(&[2, u8::from(truth)]),
        Reply::ConstraintError => text.put(&[3]),
        Reply::ProgramError => text.put(&[4]),
        Reply::NoSuchOperation => text.put(&[5]),
    }
}
