//! The page of a chart, or its drawing alone.

ghost use Rattle.std.specs.Prelude.{◌≡◌, ◌≤◌, ◌++◌, List, length, map, option_map, IfErr, IfOk, OnOk, string_bytes};
ghost use Rattle.rp_history.specs.Histories.{Happening, IsDrawable, IsSketchOf, lane_text};
ghost use Rattle.rp_model.specs.Effect.{Setting};
ghost use Rattle.rp_model.specs.World.{World};
ghost use Rattle.rp_history.specs.Frame.{before_drawing, after_drawing, after_sections, after_switch, switch_text};
ghost use Rattle.rp_history.specs.Pages.{IsDrawnAs, IsPageIfShort, sections_text};

use crate::Chart;
use crate::frame::{after_drawing, after_sections, after_switch, before_drawing, switch};
use crate::section::add_sections;
use rp_base::Fault;
use rp_drawing::{Lane, Row, draw};
use rp_machine::Machine;
use std::alloc::{AllocError, Global};

/// What is made of a run.
#[derive(Clone, Copy)]
pub enum Form {
    /// Its drawing, as SVG.
    Drawing,
    /// A page, as HTML: the drawing, and a section for each moment.
    Page,
    /// The same page, which shows calls, the order of actions and replies alone at first.
    Calls,
}

/// What is made of a chart under these lanes; `None` if its drawing is too long. `OutOfMemory`.
pub fn draw_as<M: Machine>(
    alloc: Global,
    chart: &Chart,
    lanes: &[Lane],
    form: Form,
) -> Result<Option<String>, Fault>
    requires drawable { IsDrawable chart.now.sketch }
    requires lanes { length lanes.now ≤ 16 }
    // claim: A chart is drawn, or its page is made: to the byte the drawing between a head and a
    //   section for each moment that has a line of the drawing, in order, with what happened in it,
    //   who acted, what that actor did and what the moment's label says besides, and then a script. A
    //   page of calls is the same, and its switch to calls and replies is on. There is
    //   neither exactly if the drawing is too long. Only `OutOfMemory` is returned in its place
    ensures drawn { (s : Setting M) (happened : List Happening) (last : World)
        → IsSketchOf s chart.now.stage chart.now.sketch happened last
        → IfOk result (λ text. IsDrawnAs form s chart.now.stage (map lane_text lanes.now)
        happened last (option_map string_bytes text)) }
    ensures fault { IfErr result (λ fault. fault ≡ Fault.OutOfMemory) }
{
    match form {
        Form::Drawing => chart.draw::<M>(alloc, lanes),
        Form::Page => draw_page::<M>(alloc, chart, lanes, Form::Page),
        Form::Calls => draw_page::<M>(alloc, chart, lanes, Form::Calls),
    }
}

/// The page of a chart under these lanes; `None` if its drawing is too long. `OutOfMemory`.
fn draw_page<M: Machine>(
    alloc: Global,
    chart: &Chart,
    lanes: &[Lane],
    form: Form,
) -> Result<Option<String>, Fault>
    requires drawable { IsDrawable chart.now.sketch }
    requires lanes { length lanes.now ≤ 16 }
    ensures page { (s : Setting M) (happened : List Happening) (last : World)
        → IsSketchOf s chart.now.stage chart.now.sketch happened last
        → IfOk result (λ text. IsPageIfShort form s chart.now.stage (map lane_text lanes.now)
        happened last (option_map string_bytes text)) }
    ensures fault { IfErr result (λ fault. fault ≡ Fault.OutOfMemory) }
{
    if chart.is_too_long() {
        return Ok(None);
    }
    let drawing = draw(alloc, &chart.sketch, lanes)?;
    let mut text = String::new(alloc);
    add_page(&mut text, &drawing, lanes, &chart.sketch.rows, form)?;
    Ok(Some(text))
}

/// Adds the page of this drawing under these lanes, with a section for each of its moments.
fn add_page(
    text: &mut String,
    drawing: &str,
    lanes: &[Lane],
    rows: &[Row],
    form: Form,
) -> Result<(), AllocError>
    requires { length lanes.now ≤ 16 }
    ensures { OnOk result (string_bytes text.new ≡ string_bytes text.old ++ before_drawing
        ++ drawing.now ++ after_drawing ++ switch_text form ++ after_switch
        ++ sections_text lanes.now rows.now ++ after_sections) }
{
    text.push_str(before_drawing())?;
    text.push_str(drawing)?;
    text.push_str(after_drawing())?;
    text.push_str(switch(form))?;
    text.push_str(after_switch())?;
    add_sections(text, lanes, rows)?;
    text.push_str(after_sections())
}
