//! Makes the program of what a deck declares.

ghost use Rattle.std.specs.Prelude.{◌≡◌, ◌≤◌, ℕ, List, [], All, length, map, string_bytes, true, false, IfOk, IfErr, IfSome};
ghost use Rattle.rp_words.specs.indexmap.specs.IndexMap.{values};
ghost use Rattle.rp_words.specs.indexmap.specs.IndexSet.{index_set_len};
ghost use Rattle.rp_object.specs.declared.program.Handler.{Handler};
ghost use Rattle.rp_object.specs.rp_base.specs.declared.action.Operation.TheVariants.{Procedure};
ghost use Rattle.rp_deck_objects.specs.ObjectViews.{operation_of, protected_text, object_text, protected_of, object_operations, own_operations};
ghost use Rattle.rp_deck_declarations.specs.Programs.{AreAllNamed, DeclaresAll, AreNamesOf};
ghost use Rattle.rp_object.specs.declared.program.Profile.{Profile};
ghost use Rattle.rp_words.specs.Tables.{key_names};
ghost use Rattle.rp_words.specs.indexmap.specs.IndexMap.{index_map_len};
ghost use Rattle.rp_object.specs.Program.{operations_of, DeclarationFits, KeepsProfile, IsProgram};
ghost use Rattle.rp_deck_declarations.specs.Declarations.{IsNameTable, IsHandled, procedure_counts, HasObjects, IsFinishable, IsComplete};
ghost use Rattle.rp_deck_objects.specs.ObjectLimits.{IsObject};
ghost use Rattle.rp_deck_declarations.specs.DeclaredViews.{program_text, declared_text, IsTally, IsMadeOf, timer_handlers, names_of};
ghost use Rattle.rp_deck_declarations.specs.DraftViews.{draft_text};
ghost use Rattle.rp_deck_declarations.specs.Drafts.{profile_of};
ghost use Rattle.rp_deck_declarations.specs.DeclaredTexts.{ProgramText, declared_of};
ghost use Rattle.rp_deck_declarations.specs.ScriptNames.{tally_operations, declared_names};

use crate::deck_program::{DeckProgram, Task};
use crate::declarations::Declared;
use crate::draft::Draft;
use indexmap::IndexMap;
use rp_deck_objects::{Index, ObjectDraft, OperationName, OperationNames};
use rp_machine::TallyProgram;
use rp_object::{Declarations, Handler, ObjectDeclaration, Program, TimingEvent};
use rp_words::LineError;
use std::alloc::{AllocError, Global};
use std::mem;
use std::sync::Arc;

/// What the objects of a deck are to its program, and to its script.
#[derive(Drop)]
struct Objects {
    program: DeckProgram,
    operations: Vec<OperationNames>,
}

/// Makes the program, whose lines were read within its limits.
pub fn finish(alloc: Global, mut draft: Draft) -> Result<Declared, LineError>
    requires { IsFinishable draft }
    ensures complete { IfOk result IsComplete }
    ensures names { IfOk result (λ declared.
        names_of declared ≡ declared_names (draft_text draft)) }
    ensures text { IfOk result (λ declared.
        declared_text declared ≡ declared_of (draft_text draft)) }
    ensures memory { IfErr result (λ error. error ≡ LineError.OutOfMemory) }
{
    let drafts = mem::replace(&mut draft.drafts, Vec::new(alloc));
    let made = make(alloc, &draft, drafts)?;
    Ok(draft.into_declared(made.program, made.operations))
}

/// Makes the program, of these drafts of its objects where they are not those of a tally.
fn make(alloc: Global, draft: &Draft, drafts: Vec<ObjectDraft>) -> Result<Objects, LineError>
    ghost profile: { Profile }
    requires some { 1 ≤ index_set_len draft.now.objects }
    requires few { index_set_len draft.now.objects ≤ 8 }
    requires drafts { draft.now.is_tally ≡ false
        → length drafts.items ≡ index_set_len draft.now.objects }
    requires profile { profile ≡ profile_of (draft_text draft.now) }
    requires kept { All (IsObject profile) drafts.items }
    requires tasks { index_map_len draft.now.tasks ≤ 8 }
    requires interrupts { IsNameTable draft.now.interrupts }
    requires timers { IsNameTable draft.now.timers }
    requires handled { All (IsHandled (procedure_counts drafts.items)) (values draft.now.interrupts)
        × All (IsHandled (procedure_counts drafts.items)) (values draft.now.timers) }
    ensures memory { IfErr result (λ error. error ≡ LineError.OutOfMemory) }
    ensures program { IfOk result (λ made. HasObjects (index_set_len draft.now.objects)
        made.program) }
    ensures declared { IfOk result (λ made. DeclaresAll
        (map (λ task. task.priority) (values draft.now.tasks)) (values draft.now.interrupts)
        (values draft.now.timers) (key_names draft.now.timers) made.program) }
    ensures operations { IfOk result (λ made. length made.operations.items
        ≡ index_set_len draft.now.objects) }
    ensures named { IfOk result (λ made. AreNamesOf made.program made.operations.items) }
    ensures tally { IfOk result (λ made. draft.now.is_tally ≡ true
        → IsTally (index_set_len draft.now.objects) made.program made.operations.items) }
    ensures objects { IfOk result (λ made. draft.now.is_tally ≡ false
        → IsMadeOf (profile_of (draft_text draft.now)) (map object_text drafts.items)
        (values draft.now.timers) made.program made.operations.items) }
{
    if draft.is_tally {
        return tally(alloc, draft.objects.len() as u8);
    }
    let priorities = priorities_of(alloc, &draft.tasks)?;
    let interrupts = handlers_of(alloc, &draft.interrupts)?;
    let timers = timing_events(alloc, &draft.timers)?;
    let (objects, operations) = object_declarations(alloc, drafts)?;
    let declarations = Declarations {
        profile: draft.profile(),
        priorities,
        objects,
        interrupts,
        timers,
    };
    protected_objects(alloc, declarations, operations)
}

/// A tally of n objects. The one operation of each is the procedure `add`.
fn tally(alloc: Global, count: u8) -> Result<Objects, LineError>
    requires { (1 ≤ count) × (count ≤ 8) }
    ensures memory { IfErr result (λ error. error ≡ LineError.OutOfMemory) }
    ensures program { IfOk result (λ made. HasObjects count made.program) }
    ensures declared { IfOk result (λ made. (priorities : List ℕ) (interrupts timers : List Handler)
        (names : List (List ℕ)) → DeclaresAll priorities interrupts timers names made.program) }
    ensures operations { IfOk result (λ made. length made.operations.items ≡ count) }
    ensures named { IfOk result (λ made. AreNamesOf made.program made.operations.items) }
    ensures tally { IfOk result (λ made. IsTally count made.program made.operations.items) }
{
    let mut operations = Vec::new(alloc);
    for _ in 0..count {
        operations.push(tally_operations(alloc)?)?;
    }
    Ok(Objects {
        program: DeckProgram::Tally(TallyProgram::new(count).unwrap()),
        operations,
    })
}

/// The one operation of an object of a tally, the procedure `add`.
fn tally_operations(alloc: Global) -> Result<OperationNames, LineError>
    ensures named { IfOk result (λ names.
        All (λ name. operation_of name ≡ Procedure 1) (values names)) }
    ensures text { IfOk result (λ names. own_operations names ≡ tally_operations) }
    ensures memory { IfErr result (λ error. error ≡ LineError.OutOfMemory) }
{
    let mut names = IndexMap::new(alloc);
    let index = Index { number: 1 };
    names.insert(
        String::from_str(alloc, "add")?,
        OperationName::Procedure(index),
    )?;
    Ok(names)
}

/// The program of these declarations, whose lines were read within its limits.
fn protected_objects(
    alloc: Global,
    declarations: Declarations,
    operations: Vec<OperationNames>,
) -> Result<Objects, LineError>
    requires { IsProgram declarations }
    ensures memory { IfErr result (λ error. error ≡ LineError.OutOfMemory) }
    ensures program { IfOk result
        (λ made. HasObjects (length declarations.objects.items) made.program) }
    ensures declared { IfOk result (λ made. DeclaresAll declarations.priorities.items
        declarations.interrupts.items (map (λ event. event.handler) declarations.timers.items)
        (map (λ event. string_bytes event.name) declarations.timers.items) made.program) }
    ensures operations { IfOk result (λ made. made.operations ≡ operations) }
    ensures text { IfOk result (λ made. program_text made.program
        ≡ ProgramText.Objects declarations.profile
        (map protected_text declarations.objects.items)) }
    ensures timers { IfOk result (λ made. timer_handlers made.program
        ≡ map (λ event. event.handler) declarations.timers.items) }
    ensures named { IfOk result (λ made. AreAllNamed declarations.objects.items operations.items
        → AreNamesOf made.program made.operations.items) }
{
    let declarations = Arc::new(alloc, declarations)?;
    let program = Program::new(declarations).unwrap();
    Ok(Objects {
        program: DeckProgram::Objects(program),
        operations,
    })
}

/// What the program has of the objects, and the names of their operations.
fn object_declarations(
    alloc: Global,
    drafts: Vec<ObjectDraft>,
) -> Result<(Vec<ObjectDeclaration>, Vec<OperationNames>), AllocError>
    ghost profile: { Profile }
    requires { All (IsObject profile) drafts.items }
    ensures objects { IfOk result (λ made. length made.0.items ≡ length drafts.items) }
    ensures operations { IfOk result (λ made. length made.1.items ≡ length drafts.items) }
    ensures named { IfOk result (λ made. AreAllNamed made.0.items made.1.items) }
    ensures fits { IfOk result (λ made. All DeclarationFits made.0.items) }
    ensures keeps { IfOk result (λ made.
        All (λ object. KeepsProfile profile (operations_of object)) made.0.items) }
    ensures text { IfOk result (λ made. map protected_text made.0.items
        ≡ map protected_of (map object_text drafts.items)) }
    ensures texts { IfOk result (λ made. map own_operations made.1.items
        ≡ map object_operations (map object_text drafts.items)) }
{
    let mut objects = Vec::new(alloc);
    let mut operations = Vec::new(alloc);
    for draft in drafts {
        let (object, names) = draft.finish(alloc)?;
        objects.push(object)?;
        operations.push(names)?;
    }
    Ok((objects, operations))
}

/// The priorities of the tasks, in order.
fn priorities_of(alloc: Global, tasks: &IndexMap<String, Task>) -> Result<Vec<u8>, AllocError>
    ensures { IfOk result (λ made. made.items ≡ map (λ task. task.priority) (values tasks.now)) }
{
    tasks.values().map(|task| task.priority).collect(alloc)
}

/// The handlers, in order.
fn handlers_of(
    alloc: Global,
    handlers: &IndexMap<String, Handler>,
) -> Result<Vec<Handler>, AllocError>
    ensures { IfOk result (λ made. made.items ≡ values handlers.now) }
{
    handlers.values().copied().collect(alloc)
}

/// The timing events, in order.
fn timing_events(
    alloc: Global,
    timers: &IndexMap<String, Handler>,
) -> Result<Vec<TimingEvent>, AllocError>
    ensures handlers { IfOk result
        (λ made. map (λ event. event.handler) made.items ≡ values timers.now) }
    ensures names { IfOk result
        (λ made. map (λ event. string_bytes event.name) made.items ≡ key_names timers.now) }
{
    let mut events = Vec::new(alloc);
    for (name, handler) in timers.iter() {
        events.push(TimingEvent {
            name: name.clone()?,
            handler: *handler,
        })?;
    }
    Ok(events)
}
