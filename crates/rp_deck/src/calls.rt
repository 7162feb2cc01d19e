//! Reads the lines of a script by which tasks call and interrupts occur.

ghost use Rattle.std.specs.Prelude.{ℕ, ◌≡◌, ◌≤◌, map, option_map, IfOk, IfSome};
ghost use Rattle.std.specs.List.{IsAmong};
ghost use Rattle.rp_words.specs.indexmap.specs.IndexMap.{index_map_len, values};
ghost use Rattle.rp_words.specs.indexmap.specs.IndexSet.{index_set_len};
ghost use Rattle.rp_words.specs.rp_base.specs.Action.{IsRightOperation};
ghost use Rattle.rp_words.specs.rp_base.specs.declared.action.Operation.TheVariants.{SetTimer};
ghost use Rattle.rp_model.specs.Events.{event_of, step_of};
ghost use Rattle.rp_deck_declarations.specs.Declarations.{IsComplete};
ghost use Rattle.rp_deck.specs.Live.{IsLiveEvent, IsLiveStep};
ghost use Rattle.rp_deck_declarations.specs.rp_deck_objects.specs.ObjectViews.{operation_of};
ghost use Rattle.rp_deck_declarations.specs.Programs.{IsOffered};
ghost use Rattle.rp_words.specs.Reading.{Gives};
ghost use Rattle.rp_deck.specs.Script.{IsEventOfDeck, IsStepDeclared, IsStepWithin, IsUpTo};
ghost use Rattle.rp_deck.specs.ScriptLines.{operation_at, timer_at, argument_at, call_at, arm_at, disarm_at, interrupt_at, tick_at};
ghost use Rattle.rp_deck_declarations.specs.DeclaredViews.{names_of};
ghost use Rattle.rp_words.specs.Tables.{find, key_names};
ghost use Rattle.rp_words.specs.Words.{unread};

use crate::operands::{read_node, read_task};
use rp_base::{DeckReason, Operation};
use rp_deck_declarations::Declared;
use rp_deck_objects::{Index, OperationName, OperationNames};
use rp_model::{Event, Interrupt, Step};
use rp_words::{Words, map_index_of, read_dotted, read_number, set_index_of};

/// Reads the rest of `call TASK NODE OBJECT.OPERATION [ARG]`.
#[tactic(auto, unfolding(crate::specs::ScriptLines::call_at))]
pub fn read_call(words: &mut Words<'_>, declared: &Declared) -> Result<Event, DeckReason>
    requires { IsComplete declared.now }
    ensures read { Gives (λ event. (event_of event, unread words.new)) result
        (call_at (names_of declared.now) (unread words.old)) }
    ensures right { IfOk result (IsEventOfDeck declared.now) }
    ensures live { IfOk result IsLiveEvent }
{
    let task = read_task(words, declared)?;
    let node = read_node(words, declared.nodes)?;
    let called = read_operation(words, declared)?;
    let arg = read_argument(words)?;
    Ok(Event::Submit {
        task,
        node,
        object: called.object,
        operation: called.operation,
        arg,
    })
}

/// An operation of an object, both by number.
#[derive(Clone, Copy)]
struct Called {
    object: u8,
    operation: Operation,
}

/// Reads `OBJECT.OPERATION`.
#[tactic(auto, unfolding(crate::specs::ScriptLines::operation_at))]
fn read_operation(words: &mut Words<'_>, declared: &Declared) -> Result<Called, DeckReason>
    requires { IsComplete declared.now }
    ensures read { Gives (λ called. (called.object, called.operation, unread words.new)) result
        (operation_at (names_of declared.now) (unread words.old)) }
    ensures within { IfOk result
        (λ called. IsUpTo (index_set_len declared.now.objects) called.object
        × IsRightOperation called.operation) }
    ensures offered { IfOk result (λ called.
        IsOffered declared.now.program called.object called.operation) }
{
    let (object, operation) = read_dotted(words.take()?)?;
    let place = set_index_of(&declared.objects, object).ok_or(DeckReason::UnknownName)?;
    let names = declared
        .operations_at(place)
        .ok_or(DeckReason::UnknownName)?;
    let operation = operation_named(names, operation).ok_or(DeckReason::UnknownName)?;
    Ok(Called {
        object: place as u8 + 1,
        operation: operation.operation(),
    })
}

/// The operation of this name.
fn operation_named(names: &OperationNames, name: &str) -> Option<OperationName>
    ensures value { option_map operation_of result
        ≡ find name.now (key_names names.now) (map operation_of (values names.now)) }
    ensures among { IfSome result (λ operation. IsAmong (values names.now) operation) }
{
    let place = map_index_of(names, name)?;
    let (_, operation) = names.get_index(place)?;
    Some(*operation)
}

/// Reads `[ARG]`, 0 if it is absent.
#[tactic(auto, unfolding(crate::specs::ScriptLines::argument_at, rp_words::specs::Reading::integer_at, rp_words::specs::Reading::word_at))]
fn read_argument(words: &mut Words<'_>) -> Result<i64, DeckReason>
    ensures { Gives (λ arg. (arg, unread words.new)) result (argument_at (unread words.old)) }
{
    match words.take_next() {
        Some(word) => read_number(word).ok_or(DeckReason::BadNumber),
        None => Ok(0),
    }
}

/// Reads the rest of `arm TASK NODE TIMER TIME`: the task sets the timing event.
#[tactic(auto, unfolding(crate::specs::ScriptLines::arm_at))]
pub fn read_arm(words: &mut Words<'_>, declared: &Declared) -> Result<Event, DeckReason>
    requires { IsComplete declared.now }
    ensures read { Gives (λ event. (event_of event, unread words.new)) result
        (arm_at (names_of declared.now) (unread words.old)) }
    ensures right { IfOk result (IsEventOfDeck declared.now) }
    ensures live { IfOk result IsLiveEvent }
{
    let task = read_task(words, declared)?;
    let node = read_node(words, declared.nodes)?;
    let timer = read_timer(words, declared)?;
    let time = words.take_integer()?;
    Ok(Event::Submit {
        task,
        node,
        object: timer.object,
        operation: Operation::SetTimer(timer.index.number),
        arg: time,
    })
}

/// Reads the rest of `disarm TASK NODE TIMER`: the task cancels the timing event.
#[tactic(auto, unfolding(crate::specs::ScriptLines::disarm_at))]
pub fn read_disarm(words: &mut Words<'_>, declared: &Declared) -> Result<Event, DeckReason>
    requires { IsComplete declared.now }
    ensures read { Gives (λ event. (event_of event, unread words.new)) result
        (disarm_at (names_of declared.now) (unread words.old)) }
    ensures right { IfOk result (IsEventOfDeck declared.now) }
    ensures live { IfOk result IsLiveEvent }
{
    let task = read_task(words, declared)?;
    let node = read_node(words, declared.nodes)?;
    let timer = read_timer(words, declared)?;
    Ok(Event::Submit {
        task,
        node,
        object: timer.object,
        operation: Operation::CancelTimer(timer.index.number),
        arg: 0,
    })
}

/// A timing event: its number, and the object of its handler.
#[derive(Clone, Copy)]
struct Timer {
    index: Index,
    object: u8,
}

/// Reads the name of a timing event.
#[tactic(auto, unfolding(crate::specs::ScriptLines::timer_at))]
fn read_timer(words: &mut Words<'_>, declared: &Declared) -> Result<Timer, DeckReason>
    requires { IsComplete declared.now }
    ensures read { Gives (λ timer. (timer.index.number, timer.object, unread words.new)) result
        (timer_at (names_of declared.now) (unread words.old)) }
    ensures within { IfOk result (λ timer.
        IsUpTo (index_set_len declared.now.objects) timer.object) }
    ensures offered { IfOk result (λ timer.
        IsOffered declared.now.program timer.object (SetTimer timer.index.number)) }
{
    let name = words.take_name()?;
    let place = map_index_of(&declared.timers, name).ok_or(DeckReason::UnknownName)?;
    let handler = declared
        .program
        .timer(place)
        .ok_or(DeckReason::UnknownName)?;
    Ok(Timer {
        index: Index {
            number: place as u8 + 1,
        },
        object: handler.object,
    })
}

/// Reads the rest of `irq NODE INTERRUPT OCCURRENCE`.
#[tactic(auto, unfolding(crate::specs::ScriptLines::interrupt_at, crate::specs::ScriptLines::declared_at))]
pub fn read_interrupt(words: &mut Words<'_>, declared: &Declared) -> Result<Step, DeckReason>
    requires { IsComplete declared.now }
    ensures read { Gives (λ step. (step_of step, unread words.new)) result
        (interrupt_at (names_of declared.now) (unread words.old)) }
    ensures within { IfOk result (IsStepWithin declared.now.nodes) }
    ensures declared { IfOk result (IsStepDeclared (index_map_len declared.now.interrupts)) }
    ensures live { IfOk result IsLiveStep }
{
    let node = read_node(words, declared.nodes)?;
    let name = words.take_name()?;
    let place = map_index_of(&declared.interrupts, name).ok_or(DeckReason::UnknownName)?;
    let occurrence = words.take_number(1, u64::from(u32::MAX))? as u32;
    Ok(Step::Interrupt {
        node,
        interrupt: Interrupt {
            source: place as u8 + 1,
            occurrence,
        },
    })
}

/// Reads the rest of `tick NODE NOW`.
#[tactic(auto, unfolding(crate::specs::ScriptLines::tick_at))]
pub fn read_tick(words: &mut Words<'_>, nodes: u8) -> Result<Step, DeckReason>
    requires { nodes ≤ 7 }
    ensures read { Gives (λ step. (step_of step, unread words.new)) result
        (tick_at nodes (unread words.old)) }
    ensures within { IfOk result (IsStepWithin nodes) }
    ensures declared { IfOk result (λ step. (interrupts : ℕ) → IsStepDeclared interrupts step) }
    ensures live { IfOk result IsLiveStep }
{
    let node = read_node(words, nodes)?;
    let now = words.take_number(0, u64::from(u32::MAX))? as u32;
    Ok(Step::Tick { node, now })
}
