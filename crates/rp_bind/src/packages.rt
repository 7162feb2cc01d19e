//! The text of packages: what a deck declares, by its names and numbers.

ghost use Rattle.std.specs.Prelude.{◌≡◌, ◌≤◌, ◌++◌, IfOk, option_copied, string_bytes};
ghost use Rattle.rp_bind.specs.Arguments.{range_text};
ghost use Rattle.rp_bind.specs.Texts.{operation_lines};
ghost use Rattle.rp_bind.specs.Packages.{between, end, ada_constants_text, ceiling_at, ceilings_text, constants_text, declarations_text, owner_at, priorities_text, text_before_objects, timers_text, declaration_at, functions_of, head, index_of, is_truth, operation_kind, object_text, objects_text, operations_text, packages_text, tasks_text};

use crate::arguments::{component_if, write_range};
use crate::lines::{
    Kind, Language, ObjectEnd, ObjectHead, OperationLines, Party, TaskLine, TimerLines,
};
use indexmap::IndexMap;
use rp_bind_local::local_body;
use rp_body::Ranged;
use rp_deck_declarations::{DeckProgram, Declared, Task};
use rp_deck_objects::{OperationName, OperationNames};
use rp_entry::Function;
use rp_object::{MOST_PRIORITY, ObjectDeclaration};
use std::alloc::{AllocError, Global};

/// What is before the tasks of a package of Ada.
const ADA_HEAD: &str = "\
    --  The protected objects of a deck: do not edit. Written by `rp_console bind\n\
    --  --ada`. The body for replicated objects is ada/deck_objects.adb, and that\n\
    --  for objects on one machine is what `bind --ada --local` prints.\n\
    --  Call_Of_An_Object makes a call and waits for its reply: it returns its\n\
    --  value, or raises what the operation raised.\n\
    \n\
    with Interfaces;\n\
    with RP_Calls;\n\
    \n\
    generic\n   \
       with function Call_Of_An_Object\n     \
         (Object, Kind, Index : Interfaces.Unsigned_8;\n      \
          Argument            : Interfaces.Integer_64)\n      \
          return Interfaces.Integer_64;\n   \
       with procedure Note_An_Interrupt\n     \
         (Source     : Interfaces.Unsigned_8;\n      \
          Occurrence : Interfaces.Unsigned_32) is null;\n   \
       with procedure Note_A_Tick_Of_Time\n     \
         (Now : Interfaces.Unsigned_32) is null;\n\
    package Deck_Objects is\n\
    \n   \
       subtype Number_Of_This_Deck is Interfaces.Unsigned_8;\n   \
       subtype Value_Of_This_Deck is Interfaces.Integer_64;\n   \
       subtype Count_Of_This_Deck is Interfaces.Unsigned_32;\n\
    \n   \
       function Call_Of_This_Deck\n     \
         (Object, Kind, Index : Number_Of_This_Deck;\n      \
          Argument            : Value_Of_This_Deck)\n      \
          return Value_Of_This_Deck;\n\
    \n   \
       procedure Interrupt_Of_This_Deck\n     \
         (Source     : Number_Of_This_Deck;\n      \
          Occurrence : Count_Of_This_Deck);\n\
    \n   \
       procedure Tick_Of_This_Deck (Now : Count_Of_This_Deck);\n\
    \n   \
       package Calls_Of_This_Deck is new RP_Calls (Call_Of_This_Deck);\n\
    \n   \
       package Tasks_Of_This_Deck is\n";

/// What is between the numbers and the priorities of the tasks of a package of Ada, and so on: their
/// priorities, the ceilings of the objects, the numbers of the interrupts, and the timing events.
const PRIORITIES: &str = "\
    \n   \
       package Priorities_Of_Tasks is\n";

const CEILINGS: &str = "   \
       end Priorities_Of_Tasks;\n\
    \n   \
       package Ceilings_Of_Objects is\n";

const INTERRUPTS: &str = "   \
       end Ceilings_Of_Objects;\n\
    \n   \
       package Interrupts_Of_This_Deck is\n";

const TIMERS: &str = "   \
       end Interrupts_Of_This_Deck;\n\
    \n   \
       package Timing_Events_Of_This_Deck is\n";

const TIMERS_END: &str = "   end Timing_Events_Of_This_Deck;\n";

/// What is before the tasks of a header of C.
const C_HEAD: &str = "\
    /* The protected objects of a deck: do not edit. Written by `rp_console bind --c`. */\n\
    #ifndef RP_DECK_OBJECTS_H\n\
    #define RP_DECK_OBJECTS_H\n\
    \n\
    #include \"rp_calls.h\"\n\
    \n\
    /* The numbers of the tasks. */\n\
    enum {\n";

/// What is before the tasks.
fn head(language: Language) -> &'static str
    ensures { result.now ≡ head language }
{
    match language {
        Language::Ada => ADA_HEAD,
        Language::Local => ADA_HEAD,
        Language::C => C_HEAD,
    }
}

/// What is between the tasks and the objects.
fn between(language: Language) -> &'static str
    ensures { result.now ≡ between language }
{
    match language {
        Language::Ada | Language::Local => "   end Tasks_Of_This_Deck;\n",
        Language::C => "};\n",
    }
}

/// What is after the objects.
fn end(language: Language) -> &'static str
    ensures { result.now ≡ end language }
{
    match language {
        Language::Ada | Language::Local => "\nend Deck_Objects;\n",
        Language::C => "\n#endif\n",
    }
}

/// The packages of what a deck declares, or the body of their package on one machine.
pub(crate) fn packages_text(
    alloc: Global,
    language: Language,
    declared: &Declared,
) -> Result<String, AllocError>
    ensures { IfOk result (λ text. string_bytes text ≡ packages_text language declared.now) }
{
    match language {
        Language::Local => local_body(alloc, declared),
        Language::Ada => declarations_text(alloc, Language::Ada, declared),
        Language::C => declarations_text(alloc, Language::C, declared),
    }
}

/// The packages of what a deck declares.
fn declarations_text(
    alloc: Global,
    language: Language,
    declared: &Declared,
) -> Result<String, AllocError>
    ensures { IfOk result (λ text. string_bytes text ≡ declarations_text language declared.now) }
{
    let mut text = String::new(alloc);
    write_first_part(&mut text, language, declared.tasks.keys().as_slice())?;
    write_constants(&mut text, language, declared)?;
    write_objects(&mut text, language, declared)?;
    text.push_str(end(language))?;
    Ok(text)
}

/// Writes what is before the objects.
fn write_first_part(
    text: &mut String,
    language: Language,
    tasks: &[String],
) -> Result<(), AllocError>
    ensures { IfOk result (λ _. string_bytes text.new
        ≡ string_bytes text.old ++ text_before_objects language tasks.now) }
{
    text.push_str(head(language))?;
    write_tasks(text, language, tasks)?;
    text.push_str(between(language))
}

/// Writes the number of each task.
fn write_tasks(text: &mut String, language: Language, names: &[String]) -> Result<(), AllocError>
    ensures { IfOk result (λ _. string_bytes text.new
        ≡ string_bytes text.old ++ tasks_text language names.now) }
{
    for (place, name) in names.iter().enumerate() {
        let line = TaskLine {
            task: Party {
                language,
                name,
                number: place + 1,
            },
        };
        write!(text, "{line}")?;
    }
    Ok(())
}

/// Writes the packages of Ada that are before those of the objects; a header of C has none of these.
fn write_constants(
    text: &mut String,
    language: Language,
    declared: &Declared,
) -> Result<(), AllocError>
    ensures { IfOk result (λ _. string_bytes text.new
        ≡ string_bytes text.old ++ constants_text language declared.now) }
{
    match language {
        Language::Ada | Language::Local => write_ada_constants(text, declared),
        Language::C => Ok(()),
    }
}

/// Writes the packages of Ada that are before those of the objects.
fn write_ada_constants(text: &mut String, declared: &Declared) -> Result<(), AllocError>
    ensures { IfOk result (λ _. string_bytes text.new
        ≡ string_bytes text.old ++ ada_constants_text declared.now) }
{
    text.push_str(PRIORITIES)?;
    write_priorities(text, &declared.tasks)?;
    text.push_str(CEILINGS)?;
    write_ceilings(text, &declared.program, declared.objects.as_slice())?;
    text.push_str(INTERRUPTS)?;
    write_tasks(text, Language::Ada, declared.interrupts.keys().as_slice())?;
    text.push_str(TIMERS)?;
    write_timers(text, &declared.program, declared.timers.keys().as_slice())?;
    text.push_str(TIMERS_END)
}

/// Writes the priority of each task.
fn write_priorities(text: &mut String, tasks: &IndexMap<String, Task>) -> Result<(), AllocError>
    ensures { IfOk result (λ _. string_bytes text.new
        ≡ string_bytes text.old ++ priorities_text tasks.now.entries) }
{
    for (name, task) in tasks.iter() {
        let line = TaskLine {
            task: Party {
                language: Language::Ada,
                name,
                number: usize::from(task.priority),
            },
        };
        write!(text, "{line}")?;
    }
    Ok(())
}

/// Writes the ceiling of each object.
fn write_ceilings(
    text: &mut String,
    program: &DeckProgram,
    names: &[String],
) -> Result<(), AllocError>
    ensures { IfOk result (λ _. string_bytes text.new
        ≡ string_bytes text.old ++ ceilings_text program.now names.now) }
{
    for (place, name) in names.iter().enumerate() {
        let line = TaskLine {
            task: Party {
                language: Language::Ada,
                name,
                number: usize::from(ceiling_at(program, place + 1)),
            },
        };
        write!(text, "{line}")?;
    }
    Ok(())
}

/// The ceiling of the object of this number: an object of a tally has the highest that there is.
fn ceiling_at(program: &DeckProgram, number: usize) -> u8
    requires { 1 ≤ number }
    ensures { result ≡ ceiling_at program.now number }
{
    let DeckProgram::Objects(program) = program else {
        return MOST_PRIORITY;
    };
    match program.declarations().objects.get(number - 1) {
        Some(object) => object.ceiling,
        None => MOST_PRIORITY,
    }
}

/// Writes the package of each timing event.
fn write_timers(
    text: &mut String,
    program: &DeckProgram,
    names: &[String],
) -> Result<(), AllocError>
    ensures { IfOk result (λ _. string_bytes text.new
        ≡ string_bytes text.old ++ timers_text program.now names.now) }
{
    for (place, name) in names.iter().enumerate() {
        let lines = TimerLines {
            name,
            object: owner_at(program, place + 1),
            number: place + 1,
        };
        write!(text, "{lines}")?;
    }
    Ok(())
}

/// The number of the object whose procedure is the handler of the timing event of this number.
fn owner_at(program: &DeckProgram, number: usize) -> u8
    requires { 1 ≤ number }
    ensures { result ≡ owner_at program.now number }
{
    match program.timer(number - 1) {
        Some(handler) => handler.object,
        None => 0,
    }
}

/// Writes the package of each object.
fn write_objects(
    text: &mut String,
    language: Language,
    declared: &Declared,
) -> Result<(), AllocError>
    ensures { IfOk result (λ _. string_bytes text.new
        ≡ string_bytes text.old ++ objects_text language declared.now) }
{
    let names = declared.objects.as_slice();
    for (place, name) in names.iter().enumerate() {
        let object = Party {
            language,
            name,
            number: place + 1,
        };
        write_object(text, declared, object)?;
    }
    Ok(())
}

/// Writes the package of an object.
fn write_object(text: &mut String, declared: &Declared, object: Party<'_>) -> Result<(), AllocError>
    requires { 1 ≤ object.number }
    ensures { IfOk result (λ _. string_bytes text.new ≡ string_bytes text.old
        ++ object_text object.entry.language declared.now object.entry.number object.entry.name.now) }
{
    let head = ObjectHead { object };
    write!(text, "{head}")?;
    if let Some(operations) = declared.operations_at(object.number - 1) {
        let declaration = declaration_at(&declared.program, object.number);
        write_operations(text, object, operations, declaration)?;
    }
    let end = ObjectEnd { object };
    write!(text, "{end}")
}

/// Writes each operation of an object.
fn write_operations(
    text: &mut String,
    object: Party<'_>,
    operations: &OperationNames,
    declaration: Option<&ObjectDeclaration>,
) -> Result<(), AllocError>
    ensures { IfOk result (λ _. string_bytes text.new ≡ string_bytes text.old
        ++ operations_text object.entry.language object.entry.name.now object.entry.number
        (option_copied declaration.entry) operations.now.entries) }
{
    for (name, operation) in operations.iter() {
        let lines = OperationLines {
            object,
            name,
            kind: kind_of(*operation, functions_of(declaration)),
            index: index_of(*operation),
        };
        write_operation(text, lines, component_if(declaration, *operation))?;
    }
    Ok(())
}

/// Writes an operation, and the range of its argument.
fn write_operation(
    text: &mut String,
    lines: OperationLines<'_>,
    component: Option<Ranged>,
) -> Result<(), AllocError>
    ensures { IfOk result (λ _. string_bytes text.new ≡ string_bytes text.old
        ++ (operation_lines lines.entry.object.language lines.entry.object.name.now
        lines.entry.object.number lines.entry.name.now lines.entry.kind lines.entry.index
        ++ range_text lines.entry.object.language lines.entry.name.now component)) }
{
    write!(text, "{lines}")?;
    write_range(text, lines.object.language, lines.name, component)
}

/// The object of this number; an object of a tally has no declaration.
fn declaration_at(program: &DeckProgram, number: usize) -> Option<&ObjectDeclaration>
    requires { 1 ≤ number }
    ensures { option_copied result ≡ declaration_at program.now number }
{
    match program {
        DeckProgram::Tally(_) => None,
        DeckProgram::Objects(program) => program.declarations().objects.get(number - 1),
    }
}

/// The functions of an object.
fn functions_of(object: Option<&ObjectDeclaration>) -> &[Function]
    ensures { result.now ≡ functions_of (option_copied object.entry) }
{
    match object {
        Some(object) => &object.operations.functions,
        None => &[],
    }
}

/// What an operation of an object with these functions is.
fn kind_of(operation: OperationName, functions: &[Function]) -> Kind
    ensures { result ≡ operation_kind functions.now operation }
{
    match operation {
        OperationName::Function(index) => {
            if is_truth(functions.get(usize::from(index.number) - 1)) {
                Kind::Truth
            } else {
                Kind::Value
            }
        }
        OperationName::Procedure(_) => Kind::Procedure,
        OperationName::Entry(_) => Kind::Entry,
    }
}

/// Whether a function returns a Boolean.
fn is_truth(function: Option<&Function>) -> bool
    ensures { result ≡ is_truth (option_copied function.entry) }
{
    matches!(function, Some(Function::Truth(_)))
}

/// The number of an operation among those of its kind.
fn index_of(operation: OperationName) -> u8
    ensures { result ≡ index_of operation }
{
    match operation {
        OperationName::Function(index) | OperationName::Procedure(index) => index.number,
        OperationName::Entry(index) => index.number,
    }
}
