//! Actions as bytes, after a byte that says which they are: 0 `Noop`, 1 `Call`, 2 `Interrupt`, 3
//! `Tick`. In a call, a byte says which operation it is: 1 `Function`, 2 `Procedure`, 3 `Entry`, 4
//! `SetTimer`, 5 `CancelTimer`. The index follows, in version 1 0 for an entry.

ghost use Rattle.std.specs.Prelude.{◌≡◌, ◌+◌, ◌≤◌, ◌++◌, length};
ghost use Rattle.rp_codec.specs.Text.{operation_text, action_text, vote_text};
ghost use Rattle.rp_codec.specs.Reading.{Gives, is_task, entry_at, operation_at, index_at, call_at, any_call_at, interrupt_at, tick_at, action_at, placed_vote_at, own_call_at};

use crate::fields::{put_i64, put_place, put_u32, read_count, read_i64, read_index, read_place};
use crate::list_text::Item;
use crate::packet::Party;
use crate::reader::Reader;
use crate::short_text::ShortText;
use crate::version::Version;
use rp_base::{
    Action, Ballot, MOST_ENTRIES, Operation, PacketReason, PlacedVote, Position, TaskId, Vote,
};

/// 1 to 4; in version 1 it is 0, which means entry 1.
#[inline(always)]
fn read_entry(reader: &mut Reader, version: Version) -> Result<Operation, PacketReason>
    ensures { Gives result reader.new (entry_at version reader.old) }
{
    let index = reader.byte()?;
    match version {
        Version::V1 if index == 0 => Ok(Operation::Entry(1)),
        Version::V2 if matches!(index, 1..=MOST_ENTRIES) => Ok(Operation::Entry(index)),
        Version::V1 | Version::V2 => Err(PacketReason::Field),
    }
}

#[inline(always)]
#[tactic(auto, unfolding(crate::specs::Reading::operation_at))]
fn read_operation(reader: &mut Reader, version: Version) -> Result<Operation, PacketReason>
    ensures { Gives result reader.new (operation_at version reader.old) }
{
    let kind = reader.byte()?;
    match kind {
        1 => {
            let index = read_index(reader)?;
            Ok(Operation::Function(index))
        }
        2 => {
            let index = read_index(reader)?;
            Ok(Operation::Procedure(index))
        }
        3 => read_entry(reader, version),
        4 => {
            let index = read_index(reader)?;
            Ok(Operation::SetTimer(index))
        }
        5 => {
            let index = read_index(reader)?;
            Ok(Operation::CancelTimer(index))
        }
        _ => Err(PacketReason::Field),
    }
}

#[inline(always)]
#[tactic(auto, unfolding(crate::specs::Reading::index_at))]
fn read_task(reader: &mut Reader) -> Result<TaskId, PacketReason>
    ensures { Gives result reader.new (index_at reader.old) }
{
    let number = reader.byte()?;
    match TaskId::new(number) {
        Some(task) => Ok(task),
        None => Err(PacketReason::Field),
    }
}

/// The rest of a task's call.
#[inline(always)]
#[tactic(auto, unfolding(crate::specs::Reading::call_at))]
fn read_call(reader: &mut Reader, version: Version, task: TaskId) -> Result<Action, PacketReason>
    ensures { Gives result reader.new (call_at version task reader.old) }
{
    let number = read_count(reader)?;
    let object = read_index(reader)?;
    let operation = read_operation(reader, version)?;
    let arg = read_i64(reader)?;
    let action = Action::Call {
        task,
        number,
        object,
        operation,
        arg,
    };
    Ok(action)
}

#[inline(always)]
#[tactic(auto, unfolding(crate::specs::Reading::any_call_at))]
fn read_any_call(reader: &mut Reader, version: Version) -> Result<Action, PacketReason>
    ensures { Gives result reader.new (any_call_at version reader.old) }
{
    let task = read_task(reader)?;
    read_call(reader, version, task)
}

#[inline(always)]
#[tactic(auto, unfolding(crate::specs::Reading::interrupt_at))]
fn read_interrupt(reader: &mut Reader) -> Result<Action, PacketReason>
    ensures { Gives result reader.new (interrupt_at reader.old) }
{
    let source = read_index(reader)?;
    let occurrence = read_count(reader)?;
    Ok(Action::Interrupt { source, occurrence })
}

#[inline(always)]
#[tactic(auto, unfolding(crate::specs::Reading::tick_at))]
fn read_tick(reader: &mut Reader) -> Result<Action, PacketReason>
    ensures { Gives result reader.new (tick_at reader.old) }
{
    let now = reader.u32()?;
    Ok(Action::Tick { now })
}

/// Any action, in a text of the version.
#[inline(always)]
#[tactic(auto, unfolding(crate::specs::Reading::action_at))]
pub(crate) fn read_action(reader: &mut Reader, version: Version) -> Result<Action, PacketReason>
    ensures { Gives result reader.new (action_at version reader.old) }
{
    let tag = reader.byte()?;
    match tag {
        0 => Ok(Action::Noop),
        1 => read_any_call(reader, version),
        2 => read_interrupt(reader),
        3 => read_tick(reader),
        _ => Err(PacketReason::Field),
    }
}

/// A vote with its position, in a text of the version.
#[inline(always)]
#[tactic(auto, unfolding(crate::specs::Reading::placed_vote_at))]
pub(crate) fn read_placed_vote(
    reader: &mut Reader,
    version: Version,
) -> Result<PlacedVote, PacketReason>
    ensures { Gives result reader.new (placed_vote_at version reader.old) }
{
    let (position, ballot) = read_place(reader)?;
    let action = read_action(reader, version)?;
    let vote = Vote { ballot, action };
    Ok(PlacedVote { position, vote })
}

#[inline(always)]
fn is_own(party: &Party, task: TaskId) -> bool
    ensures { result ≡ is_task party.now task }
{
    match party {
        Party::Task(caller) => task.get() == caller.get(),
        Party::Node(_) | Party::Audit => false,
    }
}

/// A call of the party itself.
#[inline(always)]
#[tactic(auto, unfolding(crate::specs::Reading::own_call_at))]
pub(crate) fn read_own_call(
    reader: &mut Reader,
    version: Version,
    from: &Party,
) -> Result<Action, PacketReason>
    ensures { Gives result reader.new (own_call_at version from.now reader.old) }
{
    let tag = reader.byte()?;
    if tag != 1 {
        return Err(PacketReason::Field);
    }
    let task = read_task(reader)?;
    if !is_own(from, task) {
        return Err(PacketReason::Field);
    }
    read_call(reader, version, task)
}

#[inline(always)]
fn put_operation(text: &mut ShortText, operation: Operation)
    requires { length text.old + 2 ≤ 40 }
    ensures text { text.new ≡ text.old ++ operation_text operation }
    ensures len { length text.new ≡ length text.old + 2 }
{
    let (kind, index) = match operation {
        Operation::Function(index) => (1, index),
        Operation::Procedure(index) => (2, index),
        Operation::Entry(index) => (3, index),
        Operation::SetTimer(index) => (4, index),
        Operation::CancelTimer(index) => (5, index),
    };
    text.put(&[kind, index]);
}

/// Adds an action's text, at most 17 bytes.
#[inline(always)]
pub(crate) fn put_action(text: &mut ShortText, action: &Action)
    requires { length text.old + 17 ≤ 40 }
    ensures { text.new ≡ text.old ++ action_text action.now }
{
    match *action {
        Action::Noop => text.put(&[0]),
        Action::Call {
            task,
            number,
            object,
            operation,
            arg,
        } => {
            text.put(&[1, task.get()]);
            put_u32(text, number);
            text.put(&[object]);
            put_operation(text, operation);
            put_i64(text, arg);
        }
        Action::Interrupt { source, occurrence } => {
            text.put(&[2, source]);
            put_u32(text, occurrence);
        }
        Action::Tick { now } => {
            text.put(&[3]);
            put_u32(text, now);
        }
    }
}

#[inline(always)]
pub(crate) fn put_vote(text: &mut ShortText, position: Position, ballot: Ballot, action: &Action)
    requires { length text.old + 27 ≤ 40 }
    ensures { text.new ≡ text.old ++ vote_text position ballot action.now }
{
    put_place(text, position, ballot);
    put_action(text, action);
}

impl Item for Action {
    ghost use Rattle.rp_codec.specs.Text.{action_text};

    ghost item_text = { action_text };

    fn put(&self, text: &mut ShortText) {
        put_action(text, self);
    }
}
