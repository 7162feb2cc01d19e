//! Runs the script of a deck.

ghost use Rattle.std.specs.Prelude.{◌≡◌, IfErr, OnOk, OnErr};
ghost use Rattle.rp_script.specs.Agreeing.{DeckPrints, ScriptBegins, ScriptPrints};
ghost use Rattle.rp_deck.specs.Deck.{IsRightDeck};
ghost use Rattle.rp_output.specs.Faults.{IsRunFault};
ghost use Rattle.rp_script.specs.Given.{FailsRun};
ghost use Rattle.rp_script.specs.Output.{output_of};
ghost use Rattle.rp_output.specs.Stream.{Writes};

use crate::deck_read::read_given;
use rp_base::Fault;
use rp_deck::{Deck, DeckProgram, Mode};
use rp_machine::Tally;
use rp_object::Objects;
use rp_output::write_out;
use rp_run::{RunOptions, run_lines, scripts_agree};
use rp_store::MemDevice;
use std::alloc::Global;
use std::io::{Read, Write};

/// The most messages that one `drain` delivers.
pub const DRAIN_LIMIT: u32 = 100_000;

/// Reads a deck and runs its script, and prints the packets if this is asked for. It prints the
/// output of the deck that the reader's bytes mean. If they mean none, nothing is printed, and the
/// fault has the first bad line and the first reason on it. After any other fault, nothing or a
/// prefix of that output was printed.
pub fn run_script<R: Read, W: Write>(
    alloc: Global,
    reader: &mut R,
    traced: bool,
    writer: &mut W,
) -> Result<(), Fault>
    // claim: From bytes to bytes: a script that runs without a fault prints into its writer, whose
    //   buffer is a part of it, the output of the deck that all bytes of the reader mean, of which
    //   the headline holds. If they mean none, nothing is written, and the fault has the first bad
    //   line and the first reason on it. Every other fault is `OutOfMemory` or `Io`, after which
    //   nothing was written, or a prefix of that output
    ensures output { OnOk result (ScriptPrints traced (R.remaining reader.old)
        (W.contents writer.old) (W.contents writer.new)) }
    ensures begun { OnErr result (ScriptBegins traced (R.remaining reader.old)
        (W.contents writer.old) (W.contents writer.new)) }
    ensures fault { IfErr result (FailsRun Mode.Script (R.remaining reader.old)
        (W.contents writer.old) (W.contents writer.new)) }
{
    // The text is freed after the run: see `read_given`.
    let mut text = Vec::new(alloc);
    let deck = read_given(alloc, reader, Mode::Script, &mut text)?;
    run_deck(alloc, deck, traced, writer)?;
    write_out(writer)
}

/// Runs the script of a deck, and writes what it prints. A fault, `OutOfMemory` or `Io`, ends the
/// run at once, and then a prefix of that is written. One order of actions gives all states and
/// replies that are written, and after any two lines nodes agree.
pub fn run_deck<W: Write>(
    alloc: Global,
    deck: Deck,
    traced: bool,
    writer: &mut W,
) -> Result<(), Fault>
    requires { IsRightDeck deck }
    // claim (output, fault): What a deck's run writes is the stated output of the deck, with its
    //   packets if this is asked for; if a fault ends the run, it is a prefix of that. The fault is
    //   `OutOfMemory` or `Io`, and no other
    ensures output { Writes (W.contents writer.old) (W.contents writer.new)
        (output_of traced deck) result }
    // claim (headline): What a deck's run writes is the texts of its items, each of one of four
    //   kinds: a call, which prints nothing, a reply, a node that is shown, and notes of seven
    //   kinds, each with its own line
    // claim (headline): One order gives the states and the replies that a deck's run prints: each
    //   state shown with n applied actions is the one to which the first n actions of the order
    //   lead, so equal counts show equal images; each printed reply is under its task's name and is
    //   the answer in the order to the call of that number, which takes effect at one place, and
    //   the action there is what that call of the script asked for; after any two lines nodes agree
    // claim (headline): A deck's run prints all replies that a task took, each once and in order. A
    //   node is shown only while it runs, with as many actions as it has applied at that line, and
    //   `show` shows each node that runs
    ensures headline { OnOk result (DeckPrints traced deck
        (W.contents writer.old) (W.contents writer.new)) }
    ensures fault { IfErr result IsRunFault }
{
    let Deck {
        config,
        program,
        tasks,
        objects,
        interrupts,
        timers,
        script,
    } = deck;
    drop(objects);
    drop(interrupts);
    drop(timers);
    let devices = MemDevice::several(alloc, config.nodes)?;
    let lines = script.as_slice();
    let options = RunOptions {
        config,
        tasks: &tasks,
        lines,
        traced,
        most: DRAIN_LIMIT,
    };
    match program {
        DeckProgram::Tally(program) => {
            scripts_agree::<Tally>(&options);
            run_lines::<Tally, MemDevice, W>(alloc, &options, program, devices, writer)
        }
        DeckProgram::Objects(program) => {
            scripts_agree::<Objects>(&options);
            run_lines::<Objects, MemDevice, W>(alloc, &options, program, devices, writer)
        }
    }
}
