//! Runs the deck of an outcome in memory.

ghost use Rattle.std.specs.Prelude.{◌≡◌, false, IfErr, IfNone, IfOk, IfSome, IsTrue};
ghost use Rattle.rp_script.specs.rp_output.specs.Faults.{IsRunFault};
ghost use Rattle.rp_explore_run.specs.Trials.{HidesWhenRun, IsDeckText, IsNoDeck, IsOutputOf, ShowsWhenRun};

use crate::{Wanted, is_shown};
use rp_base::Fault;
use rp_deck::{Deck, Mode, read_deck};
use rp_script::{MOST_BYTES, run_deck};
use std::alloc::Global;

/// Whether the text is a deck whose script, when it is run, prints what is wanted.
pub fn shows(alloc: Global, text: &[u8], wanted: &Wanted) -> Result<bool, Fault>
    ensures shown { IfOk result (λ shown. IsTrue shown → ShowsWhenRun text.now wanted.now) }
    ensures hidden { IfOk result (λ shown. shown ≡ false → HidesWhenRun text.now wanted.now) }
    ensures fault { IfErr result IsRunFault }
{
    match output_of(alloc, text)? {
        Some(output) => Ok(is_shown(alloc, wanted, &output)?),
        None => Ok(false),
    }
}

/// What the script of a deck prints, or `None` if the text is no deck.
fn output_of(alloc: Global, text: &[u8]) -> Result<Option<Vec<u8>>, Fault>
    ensures output { IfOk result (λ output.
        IfSome output (λ printed. IsOutputOf text.now printed.items)) }
    ensures none { IfOk result (λ output. IfNone output (IsNoDeck text.now)) }
    ensures fault { IfErr result IsRunFault }
{
    let Some(deck) = deck_of(alloc, text)? else {
        return Ok(None);
    };
    let mut output = Vec::new(alloc);
    run_deck(alloc, deck, false, &mut output)?;
    Ok(Some(output))
}

/// The deck that the text is, if it is one.
fn deck_of(alloc: Global, text: &[u8]) -> Result<Option<Deck>, Fault>
    ensures deck { IfOk result (λ deck. IfSome deck (λ d. IsDeckText text.now d)) }
    ensures none { IfOk result (λ deck. IfNone deck (IsNoDeck text.now)) }
    ensures fault { IfErr result IsRunFault }
{
    if text.len() > MOST_BYTES {
        return Ok(None);
    }
    match read_deck(alloc, text, Mode::Script) {
        Ok(deck) => Ok(Some(deck)),
        Err(Fault::OutOfMemory) => Err(Fault::OutOfMemory),
        Err(_) => Ok(None),
    }
}
