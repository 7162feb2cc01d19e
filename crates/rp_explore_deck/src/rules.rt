//! Reads the rules of a deck: what has to hold in each state that its actions lead to.

ghost use Rattle.std.specs.Prelude.{◌≡◌, ◌+◌, ◌^◌, ◌<◌, [], length, map, option_map, IfOk, IfErr};
ghost use Rattle.rp_words.specs.indexmap.specs.IndexMap.{values};
ghost use Rattle.rp_deck.specs.rp_base.specs.Action.{IsIndex, IsRightOperation};
ghost use Rattle.rp_deck.specs.Meaning.{texts_of};
ghost use Rattle.rp_deck.specs.ScriptLines.{declared_at};
ghost use Rattle.rp_deck_declarations.specs.Declarations.{IsComplete};
ghost use Rattle.rp_deck_declarations.specs.DeclaredViews.{names_of, program_text};
ghost use Rattle.rp_deck_declarations.specs.rp_deck_objects.specs.ObjectViews.{function_text, operation_of};
ghost use Rattle.rp_deck_declarations.specs.rp_entry.specs.Operations.{of_index};
ghost use Rattle.rp_explore_deck.specs.AddedLines.{rule_named, read_lines};
ghost use Rattle.rp_explore_deck.specs.RuleLines.{is_truth, has_truth, truth_of, truth_at, truths_at, most_truths, is_free, free_at, truths_from, rule_line};
ghost use Rattle.rp_explore_deck.specs.RuleViews.{rule_text, placed_rule_text};
ghost use Rattle.rp_deck_declarations.specs.rp_object.specs.Program.{is_some_and};
ghost use Rattle.rp_words.specs.Ahead.{text_of};
ghost use Rattle.rp_words.specs.LineFaults.{IsDeckFault, Reads};
ghost use Rattle.rp_words.specs.Reading.{Gives, Makes};
ghost use Rattle.rp_words.specs.Tables.{find, key_names};
ghost use Rattle.rp_words.specs.Words.{unread};

use indexmap::IndexSet;
use rp_base::{DeckReason, Fault, Operation, TaskId};
use rp_deck::DeckProgram;
use rp_deck_declarations::Declared;
use rp_deck_objects::{OperationName, OperationNames};
use rp_entry::{Function, of_index};
use rp_words::{
    LineError, Lines, TextLine, Words, is_word, map_index_of, named, read_dotted, set_index_of,
};
use std::alloc::Global;

/// The most functions of a rule after the first: a program has 64 at most.
const MOST_TRUTHS: u8 = 63;

/// The first words of rules.
const KINDS: [(&[u8], RuleKind); 3] = [
    (b"never", RuleKind::Never),
    (b"always", RuleKind::Always),
    (b"finally", RuleKind::Finally),
];

/// The first word of a rule.
#[derive(Clone, Copy)]
pub enum RuleKind {
    Never,
    Always,
    Finally,
}

/// A function that returns a Boolean, by the numbers that a call of it has.
#[derive(Clone, Copy)]
pub struct Truth {
    pub object: u8,
    /// A function.
    pub operation: Operation,
}

/// What has to hold.
#[derive(Drop)]
pub enum Rule {
    /// These are never all true at once.
    Never(Vec<Truth>),
    /// Each is true in every state.
    Always(Vec<Truth>),
    /// Each is true wherever nothing is left to happen.
    Finally(Vec<Truth>),
    /// The task does not wait wherever nothing is left to happen.
    Free(TaskId),
}

/// A rule of a deck.
#[derive(Drop)]
pub struct PlacedRule {
    /// The number of its line, counted from 1.
    pub line: u32,
    pub rule: Rule,
}

impl RuleKind {
    ghost use Rattle.rp_explore_deck.specs.RuleLines.{rule_of};

    /// The one that the word is.
    pub fn named(word: &[u8]) -> Option<RuleKind>
        ensures { result ≡ rule_named word.now }
    {
        named(&KINDS, word)
    }

    /// The rule of this kind over these functions.
    fn rule(self, truths: Vec<Truth>) -> Rule
        ensures { rule_text result ≡ rule_of self truths.items }
    {
        match self {
            RuleKind::Never => Rule::Never(truths),
            RuleKind::Always => Rule::Always(truths),
            RuleKind::Finally => Rule::Finally(truths),
        }
    }

    /// Whether the line begins with `finally free`, where this is its next word.
    fn is_free(self, word: &[u8]) -> bool
        ensures { result ≡ is_free self word.now }
    {
        match self {
            RuleKind::Finally => is_word(word, b"free"),
            RuleKind::Never | RuleKind::Always => false,
        }
    }
}

/// Reads the lines of these numbers as rules.
pub fn read_rules(
    alloc: Global,
    text: &[u8],
    numbers: &IndexSet<u32>,
    declared: &Declared,
) -> Result<Vec<PlacedRule>, Fault>
    requires size { length text.now + 1 < 2 ^ 32 }
    requires complete { IsComplete declared.now }
    ensures read { Reads (λ rules. map placed_rule_text rules.items) result
        (read_lines numbers.now.keys
        (rule_line (names_of declared.now) (program_text declared.now.program)) []
        (texts_of text.now)) }
    ensures fault { IfErr result IsDeckFault }
{
    let mut lines = Lines::new(text);
    let mut rules = Vec::new(alloc);
    while let Some(mut line) = lines.next() {
        let number = line.number;
        if numbers.contains(&number) {
            match read_rule(alloc, &mut line, declared) {
                Ok(rule) => rules.push(PlacedRule { line: number, rule })?,
                Err(error) => return Err(error.at(number)),
            }
        }
    }
    Ok(rules)
}

/// Reads `never F ..`, `always F ..`, `finally F ..` or `finally free TASK`.
#[tactic(auto, unfolding(crate::specs::RuleLines::rule_line))]
fn read_rule(alloc: Global, line: &mut TextLine<'_>, declared: &Declared) -> Result<Rule, LineError>
    requires { IsComplete declared.now }
    ensures read { Makes (λ rule. record { line = line.old.number; rule = rule_text rule }) result
        (rule_line (names_of declared.now) (program_text declared.now.program)
        (text_of line.old)) }
{
    let kind = RuleKind::named(line.first).ok_or(DeckReason::UnknownWord)?;
    let word = line.words.take()?;
    if kind.is_free(word) {
        return Ok(read_free(&mut line.words, declared)?);
    }
    read_truths(alloc, kind, word, &mut line.words, declared)
}

/// Reads the rest of `finally free TASK`.
#[tactic(auto, unfolding(crate::specs::RuleLines::free_at))]
fn read_free(words: &mut Words<'_>, declared: &Declared) -> Result<Rule, DeckReason>
    requires { IsComplete declared.now }
    ensures { Gives rule_text result (free_at (names_of declared.now) (unread words.old)) }
{
    let task = read_task(words, declared)?;
    words.end()?;
    Ok(Rule::Free(task))
}

/// Reads the name of a task.
#[tactic(auto, unfolding(rp_deck::specs::ScriptLines::declared_at))]
pub fn read_task(words: &mut Words<'_>, declared: &Declared) -> Result<TaskId, DeckReason>
    requires { IsComplete declared.now }
    ensures { Gives (λ task. (task, unread words.new)) result
        (declared_at (key_names declared.now.tasks) (unread words.old)) }
{
    let name = words.take_name()?;
    let place = map_index_of(&declared.tasks, name).ok_or(DeckReason::UnknownName)?;
    Ok(TaskId::new(place as u8 + 1).unwrap())
}

/// Reads the functions of a rule, the first of which this word names.
#[tactic(auto, unfolding(crate::specs::RuleLines::truths_from))]
fn read_truths(
    alloc: Global,
    kind: RuleKind,
    word: &[u8],
    words: &mut Words<'_>,
    declared: &Declared,
) -> Result<Rule, LineError>
    requires { IsComplete declared.now }
    ensures { Makes rule_text result
        (truths_from (names_of declared.now) (program_text declared.now.program) kind word.now
        (unread words.old)) }
{
    let mut truths = Vec::new(alloc);
    truths.push(read_truth(word, declared)?)?;
    read_more_truths(&mut truths, words, declared)?;
    Ok(kind.rule(truths))
}

/// Reads the functions that the words up to the end of the line name.
fn read_more_truths(
    truths: &mut Vec<Truth>,
    words: &mut Words<'_>,
    declared: &Declared,
) -> Result<(), LineError>
    requires { IsComplete declared.now }
    ensures { Makes (λ _. truths.new.items) result
        (truths_at most_truths (names_of declared.now) (program_text declared.now.program)
        truths.old.items (unread words.old)) }
{
    for _ in 0..MOST_TRUTHS {
        if words.is_at_end() {
            return Ok(());
        }
        truths.push(take_truth(words, declared)?)?;
    }
    if words.is_at_end() {
        Ok(())
    } else {
        Err(LineError::Bad(DeckReason::TooMany))
    }
}

/// Reads the next word as a function that returns a Boolean.
#[tactic(auto, unfolding(crate::specs::RuleLines::truth_at))]
fn take_truth(words: &mut Words<'_>, declared: &Declared) -> Result<Truth, DeckReason>
    requires { IsComplete declared.now }
    ensures { Gives (λ truth. (truth, unread words.new)) result
        (truth_at (names_of declared.now) (program_text declared.now.program)
        (unread words.old)) }
{
    read_truth(words.take()?, declared)
}

/// Reads `OBJECT.FUNCTION`, of a function that returns a Boolean.
#[tactic(auto, unfolding(crate::specs::RuleLines::truth_of))]
fn read_truth(word: &[u8], declared: &Declared) -> Result<Truth, DeckReason>
    requires { IsComplete declared.now }
    ensures { Gives (λ truth. truth) result
        (truth_of (names_of declared.now) (program_text declared.now.program) word.now) }
{
    let (object, name) = read_dotted(word)?;
    let place = set_index_of(&declared.objects, object).ok_or(DeckReason::UnknownName)?;
    let names = declared
        .operations_at(place)
        .ok_or(DeckReason::UnknownName)?;
    let operation = operation_named(names, name).ok_or(DeckReason::UnknownName)?;
    let truth = Truth {
        object: place as u8 + 1,
        operation: operation.operation(),
    };
    if !has_truth(&declared.program, truth.object, truth.operation) {
        return Err(DeckReason::UnknownName);
    }
    Ok(truth)
}

/// The operation of this name.
fn operation_named(names: &OperationNames, name: &str) -> Option<OperationName>
    ensures { option_map operation_of result
        ≡ find name.now (key_names names.now) (map operation_of (values names.now)) }
{
    names.get(name).copied()
}

/// Whether the operation of the object is a function that returns a Boolean.
fn has_truth(program: &DeckProgram, object: u8, operation: Operation) -> bool
    ensures { result ≡ has_truth (program_text program.now) object operation }
{
    let (DeckProgram::Objects(program), Operation::Function(index)) = (program, operation) else {
        return false;
    };
    match of_index(&program.declarations().objects, object) {
        Some(declared) => is_truth(&declared.operations.functions, index),
        None => false,
    }
}

/// Whether the function of this index returns a Boolean.
fn is_truth(functions: &[Function], index: u8) -> bool
    ensures { result ≡ is_some_and is_truth (of_index (map function_text functions.now) index) }
{
    match of_index(functions, index) {
        Some(function) => matches!(function, Function::Truth(_)),
        None => false,
    }
}
