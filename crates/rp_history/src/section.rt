//! What a page says of a moment.

ghost use Rattle.std.specs.Prelude.{◌≡◌, ◌+◌, ◌++◌, ◌≤◌, OnOk, length, string_bytes};
ghost use Rattle.rp_drawing.specs.Pages.{line_y};
ghost use Rattle.rp_drawing.specs.Stops.{within_page};
ghost use Rattle.rp_history.specs.Pages.{actor_name, deed_text, row_section, section_title, sections_text};

use crate::escape::add_escaped_text;
use rp_drawing::{Lane, Mark, Row, moment_y};
use std::alloc::AllocError;

/// Adds a section for each moment that has a line of the drawing.
pub fn add_sections(text: &mut String, lanes: &[Lane], rows: &[Row]) -> Result<(), AllocError>
    requires { length lanes.now ≤ 16 }
    ensures { OnOk result (string_bytes text.new
        ≡ string_bytes text.old ++ sections_text lanes.now rows.now) }
{
    for (place, row) in rows.iter().enumerate() {
        add_section(text, lanes, place as u64 + 1, row)?;
    }
    Ok(())
}

/// Adds the section of a moment of this number, if it has a line of the drawing.
fn add_section(text: &mut String, lanes: &[Lane], number: u64, row: &Row) -> Result<(), AllocError>
    requires { length lanes.now ≤ 16 }
    ensures { OnOk result (string_bytes text.new
        ≡ string_bytes text.old ++ row_section lanes.now number row.now) }
{
    if !row.is_drawn {
        return Ok(());
    }
    add_title(text, lanes, number, row)?;
    add_deed(text, lanes, row)?;
    add_escaped_text(text, &row.label.details)?;
    text.push_str("</pre>\n</section>\n")?;
    Ok(())
}

/// Adds the title of the section of a moment of this number: what happened.
fn add_title(text: &mut String, lanes: &[Lane], number: u64, row: &Row) -> Result<(), AllocError>
    requires { length lanes.now ≤ 16 }
    ensures { OnOk result (string_bytes text.new ≡ string_bytes text.old ++ section_title number
        (line_y (length lanes.now) (within_page row.now.line))
        (string_bytes row.now.label.cause.text)) }
{
    let y = moment_y(lanes.len() as u32, row);
    let cause = row.label.cause.as_str();
    write!(
        text,
        "<section id='moment-{number}' data-y='{y}'>\n<h2>{number}: {cause}</h2>\n"
    )?;
    Ok(())
}

/// Adds who acted in a moment, and what that actor did.
fn add_deed(text: &mut String, lanes: &[Lane], row: &Row) -> Result<(), AllocError>
    ensures { OnOk result (string_bytes text.new ≡ string_bytes text.old ++ deed_text
        (actor_name lanes.now row.now.label.mark) (string_bytes row.now.label.effect.text)) }
{
    let actor = actor_name(lanes, row.label.mark);
    let effect = row.label.effect.as_str();
    write!(text, "<p><b>{actor}</b> {effect}</p>\n<pre>\n")?;
    Ok(())
}

/// Who acted in a moment: the name of the lane of its mark, if it has one.
fn actor_name<'a>(lanes: &'a [Lane], mark: Option<Mark>) -> &'a str
    ensures { result.now ≡ actor_name lanes.now mark }
{
    let Some(mark) = mark else {
        return "";
    };
    match lanes.get(mark.lane as usize) {
        Some(lane) => lane.name.as_str(),
        None => "",
    }
}
