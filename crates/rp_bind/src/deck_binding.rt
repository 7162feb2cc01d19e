//! Packages for the deck of a text.

ghost use Rattle.std.specs.Prelude.{◌≡◌, ◌+◌, ◌<◌, ◌^◌, length, option_map, IfOk, IfErr};
ghost use Rattle.rp_bind.specs.Binds.{declared_in, first_bad_among, first_bad_component, first_bad_inside, first_bad_of, first_bad_of_object, Binds, BindsText};
ghost use Rattle.rp_bind.specs.Names.{bad_name_text};
ghost use Rattle.rp_deck_declarations.specs.rp_words.specs.LineFaults.{IsDeckFault, Refuses};

use crate::lines::Language;
use crate::names::{BadName, first_bad, first_bad_part};
use crate::packages::packages_text;
use rp_base::Fault;
use rp_deck_declarations::{DeckProgram, Declared, read_declarations};
use rp_deck_objects::OperationNames;
use rp_object::ObjectDeclaration;
use rp_words::Lines;
use std::alloc::{AllocError, Global};

/// What becomes of a deck that declares what its text says.
#[derive(Drop)]
pub enum Binding {
    /// Its packages.
    Packages(String),
    /// Why there are none: a name of the deck is none of Ada.
    Refused(String),
}

/// The packages of what the text of a deck declares, up to `script`, in a language, or why there are
/// none. One rule of names serves both languages, so that a deck has both or none.
pub fn bind(alloc: Global, text: &[u8], language: Language) -> Result<Binding, Fault>
    requires { length text.now + 1 < 2 ^ 32 }
    // claim (bound): A deck is bound by packages in which each object, each operation and each task
    //   has its name and its number of the deck, and each function what it returns there; or it is
    //   refused by the first name that Ada reserves, that has a stray underscore, or that a later
    //   name equals but for the case of letters
    ensures bound { IfOk result (BindsText language text.now) }
    // claim (fault, known): If the declarations are bad, the fault is the first bad line and the first
    //   reason on it, or `OutOfMemory`
    ensures fault { IfErr result (λ fault. Refuses fault (declared_in text.now)) }
    ensures known { IfErr result IsDeckFault }
{
    let mut lines = Lines::new(text);
    let declared = read_declarations(alloc, &mut lines)?;
    let binding = bind_declared(alloc, language, &declared);
    drop(declared);
    Ok(binding?)
}

/// The packages of what a deck declares, or why there are none.
fn bind_declared(
    alloc: Global,
    language: Language,
    declared: &Declared,
) -> Result<Binding, AllocError>
    ensures { IfOk result (Binds language declared.now) }
{
    match first_bad_of(declared) {
        Some(bad) => Ok(Binding::Refused(format!(in alloc; "{bad}")?)),
        None => Ok(Binding::Packages(packages_text(alloc, language, declared)?)),
    }
}

/// The first name of a deck that is none of Ada: among its tasks, its objects, the operations of each
/// object, the components of each, its interrupts and its timing events.
fn first_bad_of(declared: &Declared) -> Option<BadName<'_>>
    ensures { option_map bad_name_text result ≡ first_bad_of declared.now }
{
    if let Some(bad) = first_bad(declared.tasks.keys().as_slice()) {
        return Some(bad);
    }
    if let Some(bad) = first_bad(declared.objects.as_slice()) {
        return Some(bad);
    }
    if let Some(bad) = first_bad_among(&declared.operations) {
        return Some(bad);
    }
    if let Some(bad) = first_bad_component(&declared.program) {
        return Some(bad);
    }
    match first_bad(declared.interrupts.keys().as_slice()) {
        Some(bad) => Some(bad),
        None => first_bad(declared.timers.keys().as_slice()),
    }
}

/// The first name among the operations of these objects that is none of Ada.
fn first_bad_among(objects: &[OperationNames]) -> Option<BadName<'_>>
    ensures { option_map bad_name_text result ≡ first_bad_among objects.now }
{
    for operations in objects {
        if let Some(bad) = first_bad(operations.keys().as_slice()) {
            return Some(bad);
        }
    }
    None
}

/// The first name among the components of a program that is none of Ada.
fn first_bad_component(program: &DeckProgram) -> Option<BadName<'_>>
    ensures { option_map bad_name_text result ≡ first_bad_component program.now }
{
    match program {
        DeckProgram::Tally(_) => None,
        DeckProgram::Objects(program) => first_bad_inside(&program.declarations().objects),
    }
}

/// The first name among the components of these objects that is none of Ada.
fn first_bad_inside(objects: &[ObjectDeclaration]) -> Option<BadName<'_>>
    ensures { option_map bad_name_text result ≡ first_bad_inside objects.now }
{
    for object in objects {
        if let Some(bad) = first_bad_of_object(object) {
            return Some(bad);
        }
    }
    None
}

/// The first name among the components of an object that is none of Ada.
fn first_bad_of_object(object: &ObjectDeclaration) -> Option<BadName<'_>>
    ensures { option_map bad_name_text result ≡ first_bad_of_object object.now }
{
    match first_bad_part(&object.ints) {
        Some(bad) => Some(bad),
        None => first_bad_part(&object.bools),
    }
}
