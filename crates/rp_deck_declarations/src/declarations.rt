//! Reads the declarations of a deck.

ghost use Rattle.std.specs.Prelude.{◌≡◌, IfOk, IfErr, OnOk, option_copied, slice_get};
ghost use Rattle.rp_words.specs.Ahead.{text_of, ahead, after_last};
ghost use Rattle.rp_deck_declarations.specs.Declarations.{IsNodeCount, IsDraft, IsFinishable, IsComplete};
ghost use Rattle.rp_deck_declarations.specs.Declaring.{declarations_from, declarations_of};
ghost use Rattle.rp_deck_declarations.specs.DeclaredViews.{declared_text, names_of};
ghost use Rattle.rp_deck_declarations.specs.DraftViews.{draft_text};
ghost use Rattle.rp_deck_declarations.specs.Drafts.{nodes_line};
ghost use Rattle.rp_words.specs.LineFaults.{IsDeckFault, Reads};
ghost use Rattle.rp_deck_declarations.specs.DeclaredTexts.{known};
ghost use Rattle.rp_words.specs.Reading.{Gives};

use crate::deck_program::{DeckProgram, Task};
use crate::draft::Draft;
use crate::program::finish;
use indexmap::{IndexMap, IndexSet};
use rp_base::{DeckReason, Fault, MOST_NODES, Position};
use rp_deck_objects::OperationNames;
use rp_object::Handler;
use rp_words::{LineError, Lines, TextLine, is_word};
use std::alloc::Global;

/// What a deck declares before its script, each kind in declared order.
#[derive(Drop)]
pub struct Declared {
    /// 3 to 7.
    pub nodes: u8,
    /// The most positions, where the deck says so.
    pub positions: Option<Position>,
    pub program: DeckProgram,
    pub tasks: IndexMap<String, Task>,
    pub objects: IndexSet<String>,
    /// The operations of each object.
    pub operations: Vec<OperationNames>,
    pub interrupts: IndexMap<String, Handler>,
    pub timers: IndexMap<String, Handler>,
}

impl Declared {
    /// The names of the operations of the object at this place.
    pub fn operations_at(&self, place: usize) -> Option<&OperationNames>
        ensures { option_copied result ≡ slice_get self.now.operations.items place }
    {
        self.operations.get(place)
    }
}

/// Reads the lines up to `script`. What they declare is returned, or the first bad line.
pub fn read_declarations(alloc: Global, lines: &mut Lines<'_>) -> Result<Declared, Fault>
    ensures read { Reads (λ declared. (names_of declared, declared_text declared, ahead lines.new))
        result
        (known (declarations_of (after_last lines.old) (ahead lines.old))) }
    ensures declared { IfOk result IsComplete }
    ensures fault { IfErr result IsDeckFault }
{
    let draft = read_draft(alloc, lines)?;
    match finish(alloc, draft) {
        Ok(declared) => Ok(declared),
        Err(error) => Err(error.at(0)),
    }
}

/// Reads the lines up to `script`.
#[tactic(auto, unfolding(crate::specs::Declaring::declarations_of))]
fn read_draft(alloc: Global, lines: &mut Lines<'_>) -> Result<Draft, Fault>
    ensures read { Reads (λ draft. (draft_text draft, ahead lines.new)) result
        (declarations_of (after_last lines.old) (ahead lines.old)) }
    ensures finishable { IfOk result IsFinishable }
{
    let Some(line) = lines.next() else {
        let line = lines.next_number();
        let reason = DeckReason::NodesExpected;
        return Err(Fault::BadDeck { line, reason });
    };
    let number = line.number;
    match node_count(line) {
        Ok(nodes) => {
            let mut draft = Draft::new(alloc, nodes);
            read_lines(&mut draft, alloc, lines)?;
            Ok(draft)
        }
        Err(reason) => Err(Fault::BadDeck {
            line: number,
            reason,
        }),
    }
}

/// How many nodes the line declares.
#[tactic(auto, unfolding(crate::specs::Drafts::nodes_line))]
fn node_count(mut line: TextLine<'_>) -> Result<u8, DeckReason>
    ensures read { Gives (λ nodes. nodes) result (nodes_line (text_of line.entry)) }
    ensures in_range { IfOk result IsNodeCount }
{
    if !is_word(line.first, b"nodes") {
        return Err(DeckReason::NodesExpected);
    }
    let nodes = line.words.take_number(3, u64::from(MOST_NODES))?;
    line.words.end()?;
    Ok(nodes as u8)
}

/// Reads the lines after `nodes`, up to `script`.
fn read_lines(draft: &mut Draft, alloc: Global, lines: &mut Lines<'_>) -> Result<(), Fault>
    requires { IsDraft draft.old }
    ensures read { Reads (λ _. (draft_text draft.new, ahead lines.new)) result
        (declarations_from (after_last lines.old) (draft_text draft.old) (ahead lines.old)) }
    ensures finishable { OnOk result (IsFinishable draft.new) }
{
    while let Some(mut line) = lines.next() {
        let number = line.number;
        if draft.is_ended_by(&line) {
            return match draft.complete(&mut line.words) {
                Ok(()) => Ok(()),
                Err(reason) => Err(LineError::Bad(reason).at(number)),
            };
        }
        match draft.read_line(alloc, line) {
            Ok(()) => {}
            Err(error) => return Err(error.at(number)),
        }
    }
    Err(Fault::BadDeck {
        line: lines.next_number(),
        reason: draft.missing(),
    })
}
