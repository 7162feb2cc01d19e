//! Draws the run of a deck.

ghost use Rattle.std.specs.Prelude.{◌≡◌, ◌+◌, ◌≤◌, IfErr, IfOk, OnErr, map, option_map, string_bytes};
ghost use Rattle.rp_chart.specs.Charts.{deck_lines, DrawingBegins, Draws, IsChartIfShort, lanes_of, node_lane, task_lane};
ghost use Rattle.rp_script.specs.rp_deck.specs.Deck.{IsRightDeck};
ghost use Rattle.rp_history.specs.Histories.{lane_text};
ghost use Rattle.rp_script.specs.rp_output.specs.Trace.{task_name};
ghost use Rattle.rp_script.specs.rp_run.specs.Output.{names_of};
ghost use Rattle.rp_script.specs.Given.{FailsRun};

use crate::{Scene, draw_lines};
use indexmap::IndexMap;
use rp_base::Fault;
use rp_deck::{Deck, DeckProgram, Mode, Task, read_deck};
use rp_drawing::{Lane, Words};
use rp_history::{ChartRequest, Stage};
use rp_machine::Tally;
use rp_object::Objects;
use rp_script::{DRAIN_LIMIT, RunOptions, read_whole, write_out, write_whole};
use rp_store::MemDevice;
use std::alloc::{AllocError, Global};
use std::io::{Read, Write};

/// What became of a drawing or a page.
#[derive(Clone, Copy)]
pub enum Outcome {
    /// It was written.
    Drawn,
    /// The drawing has more than 2,000 lines, and no part of the run is chosen: nothing was written.
    TooLong,
}

/// Draws the run of the script of the deck that the reader holds, or makes its page. If its bytes
/// mean no deck, nothing is written, and the fault has the first bad line and the first reason on
/// it. Any other fault is `OutOfMemory` or `Io`, after which nothing or a prefix of the drawing or of
/// the page was written.
pub fn draw_script<R: Read, W: Write>(
    alloc: Global,
    reader: &mut R,
    request: ChartRequest,
    writer: &mut W,
) -> Result<Outcome, Fault>
    // claim: From bytes to a drawing: what is written is the drawing of the run of the deck that all
    //   bytes of the reader mean. Its arrows are the messages of that run, each from where it was
    //   sent down to where it was settled, in the history in which the lines of the deck's script
    //   happen in order, and it has no other arrow. It is to the byte the page of a sketch whose
    //   moments have the texts and the marks that the run gives them, under a lane for each task and
    //   each node, with its name and its colour. If it is too long, or the bytes mean none, nothing is
    //   written; in the latter case the fault has the first bad line and the first reason on it. After
    //   every other fault nothing was written, or a prefix of that drawing. A page has this drawing, and
    //   a section for each moment that has a line of it, with the packets of the moment's event and the
    //   state of each node and task after it
    ensures drawing { IfOk result (λ outcome. Draws outcome request (R.remaining reader.old)
        (W.contents writer.old) (W.contents writer.new)) }
    ensures fault { IfErr result (FailsRun Mode.Script (R.remaining reader.old)
        (W.contents writer.old) (W.contents writer.new)) }
    ensures begun { OnErr result (DrawingBegins request (R.remaining reader.old)
        (W.contents writer.old) (W.contents writer.new)) }
{
    let text = read_whole(alloc, reader)?;
    let deck = read_deck(alloc, &text, Mode::Script)?;
    let lines = lines_of(alloc, &text)?;
    let Ok(drawing) = draw_deck(alloc, deck, request, &lines) else {
        return Err(Fault::OutOfMemory);
    };
    let Some(drawing) = drawing else {
        return Ok(Outcome::TooLong);
    };
    write_whole(writer, drawing.as_bytes())?;
    write_out(writer)?;
    Ok(Outcome::Drawn)
}

/// The drawing of the run of a deck, of which these are the lines, or its page.
fn draw_deck(
    alloc: Global,
    deck: Deck,
    request: ChartRequest,
    lines: &[&[u8]],
) -> Result<Option<String>, Fault>
    requires { IsRightDeck deck }
    ensures { IfOk result (λ page. IsChartIfShort deck (map (λ line. line.now) lines.now) request
        (option_map string_bytes page)) }
{
    let Deck {
        config,
        program,
        tasks,
        objects,
        interrupts,
        timers,
        script,
    } = deck;
    drop(objects);
    drop(interrupts);
    drop(timers);
    let devices = MemDevice::several(alloc, config.nodes)?;
    let lanes = lanes_of(alloc, &tasks, config.nodes)?;
    let options = RunOptions {
        config,
        tasks: &tasks,
        lines: script.as_slice(),
        traced: false,
        most: DRAIN_LIMIT,
    };
    let scene = Scene {
        options: &options,
        deck: lines,
        stage: Stage {
            tasks: tasks.len() as u8,
            view: request.view,
        },
        lanes: &lanes,
        form: request.form,
    };
    match program {
        DeckProgram::Tally(program) => {
            draw_lines::<Tally, MemDevice>(alloc, &scene, program, devices)
        }
        DeckProgram::Objects(program) => {
            draw_lines::<Objects, MemDevice>(alloc, &scene, program, devices)
        }
    }
}

/// The lanes of the tasks, in declared order, and then those of the nodes.
fn lanes_of(
    alloc: Global,
    tasks: &IndexMap<String, Task>,
    nodes: u8,
) -> Result<Vec<Lane>, AllocError>
    requires { nodes ≤ 7 }
    ensures { IfOk result (λ lanes. map lane_text lanes.items
        ≡ lanes_of (names_of tasks.now) nodes) }
{
    let mut lanes = Vec::new(alloc);
    for index in 0..tasks.len() {
        lanes.push(task_lane(alloc, name_at(tasks, index))?)?;
    }
    for place in 0..nodes {
        lanes.push(node_lane(alloc, place + 1)?)?;
    }
    Ok(lanes)
}

/// The lane of a task, under its name.
fn task_lane(alloc: Global, name: &str) -> Result<Lane, AllocError>
    ensures { IfOk result (λ lane. lane_text lane ≡ task_lane name.now) }
{
    Ok(Lane {
        name: Words::fitted(alloc, name.as_bytes())?,
        colour: 0,
    })
}

/// The lane of a node, under its number.
fn node_lane(alloc: Global, node: u8) -> Result<Lane, AllocError>
    ensures { IfOk result (λ lane. lane_text lane ≡ node_lane node) }
{
    let name = format!(in alloc; "node {node}")?;
    Ok(Lane {
        name: Words::fitted(alloc, name.as_bytes())?,
        colour: node,
    })
}

/// The name of the task at this place, from 0, or an empty text.
fn name_at(tasks: &IndexMap<String, Task>, place: usize) -> &str
    ensures { result.now ≡ task_name (names_of tasks.now) (place + 1) }
{
    match tasks.get_index(place) {
        Some((name, _)) => name.as_str(),
        None => "",
    }
}

/// The lines of a text, without their ends.
fn lines_of<'a>(alloc: Global, text: &'a [u8]) -> Result<Vec<&'a [u8]>, AllocError>
    ensures { IfOk result (λ lines. map (λ line. line.now) lines.items ≡ deck_lines text.now) }
{
    text.split(|byte| *byte == b'\n').collect(alloc)
}
