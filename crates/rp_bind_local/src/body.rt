//! The body of the package of what a deck declares.

ghost use Rattle.std.specs.Prelude.{◌≡◌, ◌++◌, ◌≤◌, IfOk, Some, string_bytes};
ghost use Rattle.rp_bind_local.specs.Bodies.{all_calls_text, calls_text_at, events_text, handler_text, handlers_text, interrupts_text, local_text, object_text_at, objects_text, timers_text};

use crate::calls::{add_calls, add_sum_call};
use crate::objects::{Named, add_object, add_sum};
use rp_deck_declarations::{DeckProgram, Declared};
use rp_object::{Handler, TimingEvent};
use std::alloc::{AllocError, Global};
use std::fmt;

/// What is before the objects.
const HEAD: &str = "\
    --  The protected objects of a deck on one machine: do not edit. Written by\n\
    --  `rp_console bind --ada --local`. Its specification is what `rp_console\n\
    --  bind --ada` prints of the same deck.\n\
    \n\
    with RP_Protected_Objects; use RP_Protected_Objects;\n\
    \n\
    package body Deck_Objects is\n\
    \n   \
       pragma Unsuppress (All_Checks);\n   \
       pragma Warnings (Off, \"*is not referenced*\");\n   \
       pragma Warnings (Off, \"*could be declared constant*\");\n   \
       pragma Warnings (Off, \"*Constraint_Error will be raised*\");\n   \
       pragma Warnings (Off, \"*not in range*\");\n   \
       pragma Warnings (Off, \"*condition is always*\");\n   \
       pragma Warnings (Off, \"*condition can only be*\");\n   \
       pragma Warnings (Off, \"*has no effect*\");\n   \
       pragma Warnings (Off, \"*useless assignment*\");\n   \
       pragma Warnings (Off, Call_Of_An_Object);\n   \
       pragma Warnings (Off, Note_An_Interrupt);\n   \
       pragma Warnings (Off, Note_A_Tick_Of_Time);\n";

/// What is between the objects and the handlers of the timing events.
const EVENTS: &str = "\
    \n   \
       package Events_Of_This_Deck is new Timers_And_Interrupts\n     \
         (Call_Of_An_Object      => Call_Of_This_Deck,\n      \
          Handlers_Of_Timers     =>\n        \
            (";

/// What is between these and those of the interrupts.
const INTERRUPTS: &str = "\
    others => No_Handler_At_All),\n      \
          Handlers_Of_Interrupts =>\n        \
            (";

/// What is between these and the calls.
const CALLS: &str = "\
    others => No_Handler_At_All));\n\
    \n   \
       function Call_Of_This_Deck\n     \
         (Object, Kind, Index : Number_Of_This_Deck;\n      \
          Argument            : Value_Of_This_Deck)\n      \
          return Value_Of_This_Deck\n   \
       is\n      \
          Result : Value_Of_This_Deck := 0;\n   \
       begin\n      \
          case Numbers_Of_One_Call (Object, Kind, Index) is\n";

/// What is after them.
const END: &str = "         \
             when others =>\n            \
                Events_Of_This_Deck.Call_A_Timing_Event\n              \
                  (Kind, Index, Argument, Result);\n      \
          end case;\n      \
          return Result;\n   \
       end Call_Of_This_Deck;\n\
    \n   \
       procedure Interrupt_Of_This_Deck\n     \
         (Source     : Number_Of_This_Deck;\n      \
          Occurrence : Count_Of_This_Deck)\n   \
       is\n   \
       begin\n      \
          Events_Of_This_Deck.Interrupt_Once (Source, Occurrence);\n   \
       end Interrupt_Of_This_Deck;\n\
    \n   \
       procedure Tick_Of_This_Deck (Now : Count_Of_This_Deck) is\n   \
       begin\n      \
          Events_Of_This_Deck.Tick_Once (Now);\n   \
       end Tick_Of_This_Deck;\n\
    \n\
    end Deck_Objects;\n";

/// The body of the package of what a deck declares, in which its objects are protected objects.
pub fn local_body(alloc: Global, declared: &Declared) -> Result<String, AllocError>
    ensures { IfOk result (λ text. string_bytes text ≡ local_text declared.now) }
{
    let mut text = String::new(alloc);
    text.push_str(HEAD)?;
    add_objects(&mut text, declared)?;
    text.push_str(EVENTS)?;
    add_timers(&mut text, &declared.program)?;
    text.push_str(INTERRUPTS)?;
    add_interrupts(&mut text, &declared.program)?;
    text.push_str(CALLS)?;
    add_all_calls(&mut text, declared)?;
    text.push_str(END)?;
    Ok(text)
}

/// Adds the objects.
fn add_objects(text: &mut String, declared: &Declared) -> Result<(), AllocError>
    ensures { IfOk result (λ _. string_bytes text.new ≡ string_bytes text.old
        ++ objects_text declared.now) }
{
    let names = declared.objects.as_slice();
    for (place, name) in names.iter().enumerate() {
        add_object_at(text, declared, place + 1, name)?;
    }
    Ok(())
}

/// Adds the object of this number and name.
fn add_object_at(
    text: &mut String,
    declared: &Declared,
    number: usize,
    name: &str,
) -> Result<(), AllocError>
    requires { 1 ≤ number }
    ensures { IfOk result (λ _. string_bytes text.new ≡ string_bytes text.old
        ++ object_text_at declared.now number name.now) }
{
    match (&declared.program, declared.operations_at(number - 1)) {
        (DeckProgram::Tally(_), _) => add_sum(text, name),
        (DeckProgram::Objects(program), Some(operations)) => {
            match program.declarations().objects.get(number - 1) {
                Some(declaration) => add_object(text, &Named { name, operations }, declaration),
                None => Ok(()),
            }
        }
        (DeckProgram::Objects(_), None) => Ok(()),
    }
}

/// Adds the calls of the objects.
fn add_all_calls(text: &mut String, declared: &Declared) -> Result<(), AllocError>
    ensures { IfOk result (λ _. string_bytes text.new ≡ string_bytes text.old
        ++ all_calls_text declared.now) }
{
    let names = declared.objects.as_slice();
    for (place, name) in names.iter().enumerate() {
        add_calls_at(text, declared, place + 1, name)?;
    }
    Ok(())
}

/// Adds the calls of the object of this number and name.
fn add_calls_at(
    text: &mut String,
    declared: &Declared,
    number: usize,
    name: &str,
) -> Result<(), AllocError>
    requires { 1 ≤ number }
    ensures { IfOk result (λ _. string_bytes text.new ≡ string_bytes text.old
        ++ calls_text_at declared.now number name.now) }
{
    match (&declared.program, declared.operations_at(number - 1)) {
        (DeckProgram::Tally(_), _) => add_sum_call(text, number, name),
        (DeckProgram::Objects(program), Some(operations)) => {
            match program.declarations().objects.get(number - 1) {
                Some(declaration) => add_calls(
                    text,
                    &Named { name, operations },
                    number,
                    declaration,
                ),
                None => Ok(()),
            }
        }
        (DeckProgram::Objects(_), None) => Ok(()),
    }
}

/// Adds the handlers of the timing events.
fn add_timers(text: &mut String, program: &DeckProgram) -> Result<(), AllocError>
    ensures { IfOk result (λ _. string_bytes text.new ≡ string_bytes text.old
        ++ timers_text program.now) }
{
    match program {
        DeckProgram::Tally(_) => Ok(()),
        DeckProgram::Objects(program) => add_events(text, &program.declarations().timers),
    }
}

/// Adds the handlers of these timing events.
fn add_events(text: &mut String, timers: &[TimingEvent]) -> Result<(), AllocError>
    ensures { IfOk result (λ _. string_bytes text.new ≡ string_bytes text.old
        ++ events_text timers.now) }
{
    for (place, timer) in timers.iter().enumerate() {
        add_handler(text, place + 1, timer.handler)?;
    }
    Ok(())
}

/// Adds the handlers of the interrupts.
fn add_interrupts(text: &mut String, program: &DeckProgram) -> Result<(), AllocError>
    ensures { IfOk result (λ _. string_bytes text.new ≡ string_bytes text.old
        ++ interrupts_text program.now) }
{
    match program {
        DeckProgram::Tally(_) => Ok(()),
        DeckProgram::Objects(program) => add_handlers(text, &program.declarations().interrupts),
    }
}

/// Adds these handlers.
fn add_handlers(text: &mut String, handlers: &[Handler]) -> Result<(), AllocError>
    ensures { IfOk result (λ _. string_bytes text.new ≡ string_bytes text.old
        ++ handlers_text handlers.now) }
{
    for (place, handler) in handlers.iter().enumerate() {
        add_handler(text, place + 1, *handler)?;
    }
    Ok(())
}

/// Adds the handler of this number: its object and its procedure.
fn add_handler(text: &mut String, number: usize, handler: Handler) -> Result<(), AllocError>
    ensures { IfOk result (λ _. string_bytes text.new ≡ string_bytes text.old
        ++ handler_text number handler) }
{
    let line = HandlerLine { number, handler };
    write!(text, "{line}")
}

/// The handler of this number.
#[derive(Clone, Copy)]
struct HandlerLine {
    number: usize,
    handler: Handler,
}

impl fmt::Display for HandlerLine {
    ghost output = { λ l. Some (handler_text l.number l.handler) };

    fn fmt<W: fmt::Write>(&self, f: &mut fmt::Formatter<W>) -> fmt::Result {
        let number = self.number;
        let Handler { object, procedure } = self.handler;
        write!(f, "{number} => ({object}, {procedure}),\n         ")
    }
}
