//! The next deck.

ghost use Rattle.std.specs.Arc.{arc_value};
ghost use Rattle.std.specs.Prelude.{ℕ, ◌≡◌, ◌+◌, ◌<◌, ◌^◌, length, IfOk, IfSome, IsTrue, IsOkUnless};
ghost use Rattle.rp_deck.specs.rp_base.specs.declared.fault.Fault.TheVariants as faults;
ghost use Rattle.rp_deck.specs.rp_deck_declarations.specs.declared.deck_program.DeckProgram.TheVariants as programs;
ghost use Rattle.rp_deck.specs.rp_object.specs.Image.{objects_image};
ghost use Rattle.rp_deck.specs.rp_object.specs.declared.program.Program.{Program};
ghost use Rattle.rp_handles.specs.NextDeckTexts.{IsNextDeck, StartsAs, start_image};

use crate::next_lines::put_lines;
use crate::shown_values::clock_shown;
use rp_base::{Action, Config, Fault};
use rp_deck::{Deck, Mode, read_deck};
use rp_deck_declarations::DeckProgram;
use rp_object::{Objects, Program};
use std::alloc::{AllocError, Global};

/// The most bytes of a deck.
const MOST_BYTES: usize = 1_048_576;

/// The text of the deck with which a station goes on that ran this deck of protected objects, in this
/// configuration, and whose objects the image shows: its lines up to `script`, with what each component
/// is now as its first value, after a comment with a mark. Clocks start at 0 again, and calls and
/// interrupts at number 1. `None` if what is written does not start as the image shows: a call waits
/// there, or a timing event is set.
pub fn next_deck(
    alloc: Global,
    text: &[u8],
    mark: &[u8],
    config: Config,
    image: &[u8],
) -> Result<Option<Vec<u8>>, Fault>
    requires text { length text.now + 1 < 2 ^ 32 }
    requires image { length image.now + 1 < 2 ^ 32 }
    // claim (next): A station goes on with a deck that has the lines of its deck, and whose objects
    //   start as they were shown
    ensures next { IfOk result (λ next. IfSome next (λ bytes.
        IsNextDeck text.now mark.now config image.now bytes.items)) }
    ensures only { IsOkUnless result faults.OutOfMemory }
{
    let mut next = Vec::new(alloc);
    next.extend_from_slice(b"# ")?;
    next.extend_from_slice(mark)?;
    next.push(b'\n')?;
    put_lines(&mut next, text, image)?;
    if starts_so(alloc, &next, config, image)? {
        Ok(Some(next))
    } else {
        Ok(None)
    }
}

/// Whether the text means a deck of protected objects in this configuration that start as the image
/// shows.
fn starts_so(alloc: Global, text: &[u8], config: Config, image: &[u8]) -> Result<bool, Fault>
    requires image { length image.now + 1 < 2 ^ 32 }
    ensures so { IfOk result (λ is. IsTrue is → StartsAs config image.now text.now) }
    ensures only { IsOkUnless result faults.OutOfMemory }
{
    if text.len() > MOST_BYTES {
        return Ok(false);
    }
    let deck = match read_deck(alloc, text, Mode::Script) {
        Ok(deck) => deck,
        Err(Fault::OutOfMemory) => return Err(Fault::OutOfMemory),
        Err(_) => return Ok(false),
    };
    let starts = deck_starts_so(alloc, &deck, config, image);
    drop(deck);
    Ok(starts?)
}

/// Whether the deck has protected objects and this configuration, and they start as the image shows.
fn deck_starts_so(
    alloc: Global,
    deck: &Deck,
    config: Config,
    image: &[u8],
) -> Result<bool, AllocError>
    requires { length image.now + 1 < 2 ^ 32 }
    ensures same { IfOk result (λ is. IsTrue is → deck.now.config ≡ config) }
    ensures shows { IfOk result (λ is. IsTrue is → (program : Program)
        × (deck.now.program ≡ programs.Objects program)
        × ((now : ℕ) × (start_image (arc_value program.declarations) now ≡ image.now))) }
{
    let DeckProgram::Objects(program) = &deck.program else {
        return Ok(false);
    };
    if !is_same(deck.config, config) {
        return Ok(false);
    }
    shows(alloc, program, clock_shown(image), image)
}

/// Whether a program shows the image at its start, once the clock has this time.
fn shows(alloc: Global, program: &Program, now: u32, image: &[u8]) -> Result<bool, AllocError>
    ensures { IfOk result (λ is. IsTrue is
        → start_image (arc_value program.now.declarations) now ≡ image.now) }
{
    let mut objects = Objects::start(alloc, program)?;
    objects.apply(&Action::Tick { now });
    let shows = shows_now(alloc, &objects, image);
    drop(objects);
    shows
}

/// Whether objects show the image.
fn shows_now(alloc: Global, objects: &Objects, image: &[u8]) -> Result<bool, AllocError>
    ensures { IfOk result (λ is. IsTrue is → objects_image objects.now ≡ image.now) }
{
    let shown = objects.image(alloc)?;
    Ok(shown.as_slice() == image)
}

/// Whether two configurations are the same.
fn is_same(one: Config, other: Config) -> bool
    ensures { IsTrue result → one ≡ other }
{
    one.nodes == other.nodes && one.max_positions == other.max_positions
}
