//! Runs a deck in threads.

ghost use Rattle.std.specs.Prelude.{◌≡◌, All, IfErr, IfOk, OnErr};
ghost use Rattle.std.specs.Arc.{arc_value};
ghost use Rattle.rp_output.specs.Faults.{IsRunFault};
ghost use Rattle.rp_script.specs.Given.{FailsRun};
ghost use Rattle.rp_live_run.specs.LiveRun.{LiveBegins, LivePrints, IsOutcome, event_of, events_of};
ghost use Rattle.rp_deck.specs.rp_base.specs.Config.{IsRightConfig};
ghost use Rattle.rp_object.specs.State.{first_state};
ghost use Rattle.rp_object.specs.Step.{objects_next, objects_answers};
ghost use Rattle.rp_live.specs.Events.{IsLive};
ghost use Rattle.rp_live.specs.Faults.{IsLiveFault};
ghost use Rattle.rp_live.specs.LiveOutcome.{IsLiveRun};
ghost use Rattle.rp_deck.specs.Deck.{IsRightDeck};
ghost use Rattle.rp_deck.specs.Live.{IsDeckFor};

use crate::figures::{FiguresLine, milliseconds_since};
use crate::live_output::write_outcome;
use rp_base::Fault;
use rp_deck::{Command, Deck, DeckProgram, Line, Mode};
use rp_live::{LiveOptions, LiveOutcome, live};
use rp_machine::Tally;
use rp_model::Event;
use rp_object::{Objects, Program};
use rp_script::read_given;
use std::alloc::{AllocError, Global};
use std::io::{Read, Write};
use std::sync::Wait;
use std::thread::Threads;
use std::time::{Clock, Instant};

/// The options of a live run.
#[derive(Clone, Copy)]
pub struct LiveRequest {
    /// The seed: it determines which packets are lost, duplicated and reordered.
    pub seed: u32,
    /// How many turns each node and each task makes at most.
    pub turns: u32,
}

/// Reads a deck, runs its nodes and tasks in threads for at most the given number of turns, and then
/// prints the result. It returns how the run went, in figures. The deck is the one that the reader's bytes
/// mean. If they mean none, nothing is printed, and the fault has the first bad line and the first
/// reason on it. After any other fault, nothing or a prefix of the run's result was printed.
pub fn run_live<T: Threads + Wait + Clock + Sync, R: Read, W: Write>(
    rt: &T,
    alloc: Global,
    reader: &mut R,
    request: LiveRequest,
    writer: &mut W,
) -> Result<FiguresLine, Fault>
    // claim: What live mode prints is the text of the result of a run in threads of the deck that
    //   all bytes of the reader mean in live mode, with its events, the seed and the number of
    //   turns asked for. If they mean none, nothing is written, and the fault has the first bad
    //   line and the first reason on it. Every other fault is `OutOfMemory` or `Io`, after which
    //   nothing was written, or a prefix of such a text. The figures that it returns are those of
    //   the same run
    ensures output { IfOk result (λ line. LivePrints request.seed request.turns
        (R.remaining reader.old) (W.contents writer.old) (W.contents writer.new) line.figures) }
    ensures begun { OnErr result (LiveBegins request.seed request.turns
        (R.remaining reader.old) (W.contents writer.old) (W.contents writer.new)) }
    ensures fault { IfErr result (FailsRun Mode.Live (R.remaining reader.old)
        (W.contents writer.old) (W.contents writer.new)) }
{
    // The text is freed after the run: see `read_given`.
    let mut text = Vec::new(alloc);
    let deck = read_given(alloc, reader, Mode::Live, &mut text)?;
    let begun = Instant::now(rt);
    let outcome = live_deck(rt, alloc, &deck, request)?;
    let milliseconds = milliseconds_since(rt, begun);
    match write_outcome(alloc, &deck.tasks, &outcome, writer) {
        Ok(()) => Ok(FiguresLine {
            figures: outcome.figures,
            milliseconds,
        }),
        Err(fault) => Err(fault),
    }
}

/// Runs a deck in threads.
fn live_deck<T: Threads + Wait + Clock + Sync>(
    rt: &T,
    alloc: Global,
    deck: &Deck,
    request: LiveRequest,
) -> Result<LiveOutcome, Fault>
    requires right { IsRightDeck deck.now }
    requires live { IsDeckFor Mode.Live deck.now }
    ensures outcome { IfOk result (IsOutcome deck.now request.seed request.turns) }
    ensures fault { IfErr result IsRunFault }
{
    let events = events_of(alloc, deck.script.as_slice())?;
    let options = LiveOptions {
        config: deck.config,
        seed: request.seed,
        turns: u64::from(request.turns),
    };
    match &deck.program {
        DeckProgram::Tally(program) => live::<T, Tally>(rt, alloc, program, &events, options),
        DeckProgram::Objects(program) => live_objects(rt, alloc, program, &events, options),
    }
}

/// Runs protected objects in threads.
fn live_objects<T: Threads + Wait + Clock + Sync>(
    rt: &T,
    alloc: Global,
    program: &Program,
    events: &[Event],
    options: LiveOptions,
) -> Result<LiveOutcome, Fault>
    requires config { IsRightConfig options.config }
    requires events { All (IsLive options.config.nodes) events.now }
    ensures outcome { IfOk result (IsLiveRun objects_next objects_answers
        (λ program. first_state (arc_value program.declarations))
        options.config program.now events.now options.seed options.turns) }
    ensures only { IfErr result IsLiveFault }
{
    live::<T, Objects>(rt, alloc, program, events, options)
}

/// The event that a command asks for, if it asks for one.
fn event_of(command: Command) -> Option<Event>
    ensures { result ≡ event_of command }
{
    match command {
        Command::Take(event) => Some(event),
        Command::Lose { .. } | Command::Drain | Command::Show => None,
    }
}

/// The events that the lines of a script ask for, in order.
fn events_of(alloc: Global, script: &[Line]) -> Result<Vec<Event>, AllocError>
    ensures { IfOk result (λ events. events.items ≡ events_of script.now) }
{
    let mut events = Vec::new(alloc);
    for line in script {
        if let Some(event) = event_of(line.command) {
            events.push(event)?;
        }
    }
    Ok(events)
}
