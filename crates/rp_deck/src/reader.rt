//! Reads a deck.

ghost use Rattle.std.specs.Prelude.{◌≡◌, ◌≤◌, ◌+◌, ◌^◌, ◌<◌, length, unwrap_or, IfOk, IfErr};
ghost use Rattle.rp_deck.specs.Deck.{IsRightDeck};
ghost use Rattle.rp_deck.specs.DeckViews.{deck_text};
ghost use Rattle.rp_words.specs.LineFaults.{IsDeckFault, Reads};
ghost use Rattle.rp_deck.specs.Live.{IsDeckFor};
ghost use Rattle.rp_deck.specs.Meaning.{meaning_of};

use crate::deck::{Deck, Mode};
use crate::script::read_script;
use rp_base::{Config, Fault, Position};
use rp_deck_declarations::read_declarations;
use rp_words::Lines;
use std::alloc::Global;

/// How long the log gets where the deck says nothing of it.
const POSITIONS: u16 = 1000;

/// How long the log gets.
fn most_positions(positions: Option<Position>) -> u16
    ensures value { result ≡ unwrap_or positions 1000 }
    ensures right { 1 ≤ result }
{
    match positions {
        Some(position) => position.get(),
        None => POSITIONS,
    }
}

/// Reads a deck that is to run in a mode, or returns its first bad line. A line of the script that
/// live mode does not take is bad in it, by its first word.
pub fn read_deck(alloc: Global, text: &[u8], mode: Mode) -> Result<Deck, Fault>
    requires { length text.now + 1 < 2 ^ 32 }
    // claim (meaning): A deck that is read is what its text means: lines, words, names and numbers,
    //   what each line declares or asks for, each name the number of the first that was declared by
    //   it. Otherwise the fault is the first bad line and the first reason on it, from left to
    //   right, or `OutOfMemory`
    ensures meaning { Reads deck_text result (meaning_of mode text.now) }
    // claim (deck, fault): A deck that is read keeps its limits: names that are distinct, a program
    //   that declares what the deck says, and a script that names only what is declared: each call
    //   an operation that its object has, each `arm` and `disarm` a timing event whose handler the
    //   object has, each `irq` one of the declared interrupts
    ensures deck { IfOk result IsRightDeck }
    // claim (taken): A deck that is read for live mode has only calls, interrupts and ticks in its
    //   script
    ensures taken { IfOk result (IsDeckFor mode) }
    ensures fault { IfErr result IsDeckFault }
{
    let mut lines = Lines::new(text);
    let declared = read_declarations(alloc, &mut lines)?;
    let script = read_script(alloc, &mut lines, &declared, mode)?;
    Ok(Deck {
        config: Config {
            nodes: declared.nodes,
            max_positions: most_positions(declared.positions),
        },
        program: declared.program,
        tasks: declared.tasks,
        objects: declared.objects,
        interrupts: declared.interrupts,
        timers: declared.timers,
        script,
    })
}
