//! Reports as bytes: the first position, how many actions are applied, how many are reported, and
//! each of those.

ghost use Rattle.std.specs.Prelude.{IsOk, IfOk};
ghost use Rattle.rp_codec.specs.Reading.{actions_at, report_at};
ghost use Rattle.rp_codec.specs.Found.{Skips, Finds, AreFirst};

use crate::action_text::read_action;
use crate::content::Content;
use crate::fields::read_position;
use crate::items::Actions;
use crate::reader::Reader;
use crate::rules::report_len;
use crate::version::Version;
use rp_base::PacketReason;
use std::alloc::{AllocError, Global};

/// Reads n actions, and keeps none.
fn skip_actions(reader: &mut Reader, version: Version, count: u8) -> Result<(), PacketReason>
    ensures { Skips result reader.new (actions_at version count reader.old) }
{
    for _ in 0..count {
        read_action(reader, version)?;
    }
    Ok(())
}

#[tactic(auto, unfolding(crate::specs::Reading::report_at))]
pub(crate) fn read_report<'a>(
    reader: &mut Reader<'a>,
    version: Version,
) -> Result<Content<'a>, PacketReason>
    ensures { Finds result reader.new (report_at version reader.old) }
{
    let first = read_position(reader)?;
    let applied = reader.u16()?;
    let count = reader.byte()?;
    if count != report_len(first, applied) {
        return Err(PacketReason::Field);
    }
    let actions = reader.again();
    skip_actions(reader, version, count)?;
    let content = Content::Listed {
        version,
        first,
        applied,
        count,
        actions,
    };
    Ok(content)
}

/// The first n actions of what is left.
pub(crate) fn list_actions(
    alloc: Global,
    mut reader: Reader,
    version: Version,
    count: u8,
) -> Result<Actions, AllocError>
    requires { IsOk (actions_at version count reader) }
    ensures { IfOk result (λ list. AreFirst list version count reader.entry) }
{
    let mut actions = Vec::with_capacity(alloc, usize::from(count))?;
    for _ in 0..count {
        match read_action(&mut reader, version) {
            Ok(action) => actions.push_reserved(action),
            Err(_) => unreachable!(),
        }
    }
    Ok(Actions::from_vec(actions))
}
