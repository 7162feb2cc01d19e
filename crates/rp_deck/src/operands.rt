//! Reads the words of a script's line that name nodes, tasks and positions.

ghost use Rattle.std.specs.Prelude.{◌≡◌, ◌≤◌, IfOk};
ghost use Rattle.rp_words.specs.indexmap.specs.IndexMap.{index_map_len};
ghost use Rattle.rp_deck_declarations.specs.Declarations.{IsComplete};
ghost use Rattle.rp_words.specs.Reading.{Gives, number_at};
ghost use Rattle.rp_deck.specs.ScriptLines.{declared_at};
ghost use Rattle.rp_words.specs.Tables.{key_names};
ghost use Rattle.rp_words.specs.Words.{unread};

use rp_base::{DeckReason, NodeId, Position, TaskId};
use rp_deck_declarations::{Declared, MOST_POSITIONS};
use rp_words::{Words, map_index_of};

/// Reads the number of a node.
pub fn read_node(words: &mut Words<'_>, nodes: u8) -> Result<NodeId, DeckReason>
    requires { nodes ≤ 7 }
    ensures read { Gives (λ node. (node, unread words.new)) result
        (number_at 1 nodes (unread words.old)) }
    ensures within { IfOk result (λ node. (1 ≤ node) × (node ≤ nodes)) }
{
    let number = words.take_number(1, u64::from(nodes))?;
    Ok(NodeId::new(number as u8).unwrap())
}

/// Reads the name of a task.
#[tactic(auto, unfolding(crate::specs::ScriptLines::declared_at))]
pub fn read_task(words: &mut Words<'_>, declared: &Declared) -> Result<TaskId, DeckReason>
    requires { IsComplete declared.now }
    ensures read { Gives (λ task. (task, unread words.new)) result
        (declared_at (key_names declared.now.tasks) (unread words.old)) }
    ensures within { IfOk result (λ task. (1 ≤ task) × (task ≤ index_map_len declared.now.tasks)) }
{
    let name = words.take_name()?;
    let place = map_index_of(&declared.tasks, name).ok_or(DeckReason::UnknownName)?;
    Ok(TaskId::new(place as u8 + 1).unwrap())
}

/// Reads the number of a position.
pub fn read_position(words: &mut Words<'_>) -> Result<Position, DeckReason>
    ensures { Gives (λ position. (position, unread words.new)) result
        (number_at 1 65535 (unread words.old)) }
{
    let number = words.take_number(1, MOST_POSITIONS)?;
    Ok(Position::new(number as u16).unwrap())
}
