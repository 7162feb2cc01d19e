//! The drawing of a sketch.

ghost use Rattle.std.specs.Prelude.{◌≡◌, ◌+◌, ◌*◌, [], ◌++◌, ◌≤◌, ◌<◌, ◌^◌, true, IfErr, IfOk, OnOk, length, string_bytes, flat_map};
ghost use Rattle.std.specs.List.{sum_by};
ghost use Rattle.rp_drawing.specs.Drawings.{end_kind, page_text, way_curve, way_text, IsDrawnBy};
ghost use Rattle.rp_drawing.specs.Elements.{most_head_bytes};
ghost use Rattle.rp_drawing.specs.Lines.{effect_line, effect_line_text, head_text, lane_text, lanes_text, mark_kind, mark_text, name_text, names_from, names_text, row_bytes, row_element, row_text, text_point};
ghost use Rattle.rp_drawing.specs.Pages.{line_y};
ghost use Rattle.rp_drawing.specs.Stops.{within_page};
ghost use Rattle.rp_drawing.specs.Ways.{IsDown, AreDown};

use crate::elements::{
    Curve, Dash, Look, MOST_BYTES, MOST_LINE_BYTES, MOST_ROW_BYTES, MOST_SHORT_BYTES, Point,
    Upright, add_element, add_head, words_at,
};
use crate::legend::legend_text;
use crate::page::{LEFT, LINE, LINES_BETWEEN_NAMES, Page, RIGHT, WIDTH};
use crate::sketch::{End, Kind, Mark, Row, Sketch, Way};
use crate::stops::{within_page, write_stops};
use crate::style::style_text;
use crate::words::Words;
use rp_base::Fault;
use std::alloc::{AllocError, Global};

/// A lane: its name and its colour.
#[derive(Drop)]
pub struct Lane {
    pub name: Words,
    pub colour: u8,
}

/// The drawing of a sketch: a legend, the lanes under their names, the lanes of stopped nodes, the
/// arrow of each message whose way is drawn, from the line of the moment that sent it down to the
/// line of the one that settled it, and what is beside each moment. `OutOfMemory`, also where a
/// lane's name or a cause is longer than fitted words are.
pub fn draw(alloc: Global, sketch: &Sketch, lanes: &[Lane]) -> Result<String, Fault>
    requires down { AreDown sketch.now.lines sketch.now.ways.items }
    requires lines { sketch.now.lines ≤ 2 ^ 32 }
    requires lanes { length lanes.now ≤ 16 }
    // claim: Each message whose way is drawn has its arrow in the drawing, from its sender's lane, in
    //   the line of the moment that sent it, to its receiver's, in the line of the moment that settled
    //   it. The text is the page to the byte: a head with a legend, the lanes that were given, under
    //   their names and in their colours, each of another look from a stop of its node down to the
    //   next restart, the arrows, what is beside each moment, and the names again each 50 lines; and
    //   it has no other arrow. It has at most 300 bytes for each message and lane, 400 for each
    //   moment, 3 for each letter of what an actor does, 32 for each line, and 9,300 besides. Only
    //   `OutOfMemory` is returned in its place
    ensures page { IfOk result (λ text. string_bytes text ≡ page_text lanes.now sketch.now) }
    ensures drawn { IfOk result (λ text. IsDrawnBy sketch.now (length lanes.now)
        (string_bytes text)) }
    ensures fault { IfErr result (λ fault. fault ≡ Fault.OutOfMemory) }
{
    let mut text = String::new(alloc);
    write_page(alloc, &mut text, sketch, lanes)?;
    Ok(text)
}

/// Writes the drawing of a sketch into an empty text.
fn write_page(
    alloc: Global,
    text: &mut String,
    sketch: &Sketch,
    lanes: &[Lane],
) -> Result<(), Fault>
    requires down { AreDown sketch.now.lines sketch.now.ways.items }
    requires lines { sketch.now.lines ≤ 2 ^ 32 }
    requires lanes { length lanes.now ≤ 16 }
    requires empty { string_bytes text.old ≡ [] }
    ensures page { OnOk result (string_bytes text.new ≡ page_text lanes.now sketch.now) }
    ensures drawn { OnOk result (IsDrawnBy sketch.now (length lanes.now)
        (string_bytes text.new)) }
    ensures fault { IfErr result (λ fault. fault ≡ Fault.OutOfMemory) }
{
    let page = Page {
        lanes: lanes.len() as u32,
    };
    let height = page.line_y(sketch.lines) + LINE;
    write_head(alloc, text, height)?;
    add_head(text, legend_text())?;
    write_lanes(alloc, text, page, lanes, height)?;
    write_stops(alloc, text, page, &sketch.rows, height)?;
    write_ways(alloc, text, page, &sketch.lines, &sketch.ways)?;
    write_rows(alloc, text, page, &sketch.rows)?;
    write_names(alloc, text, page, lanes, sketch.lines)?;
    add_element(text, "</svg>", MOST_BYTES)
}

/// Writes the head of a drawing of this height.
fn write_head(alloc: Global, text: &mut String, height: u64) -> Result<(), Fault>
    ensures added { OnOk result (string_bytes text.new
        ≡ string_bytes text.old ++ head_text height) }
    ensures short { OnOk result (length (string_bytes text.new)
        ≤ length (string_bytes text.old) + most_head_bytes) }
    ensures fault { IfErr result (λ fault. fault ≡ Fault.OutOfMemory) }
{
    let head = head_text(alloc, height)?;
    add_head(text, &head)
}

/// The head of a drawing of this height.
fn head_text(alloc: Global, height: u64) -> Result<String, AllocError>
    ensures { IfOk result (λ text. string_bytes text ≡ head_text height) }
{
    let style = style_text();
    format!(in alloc;
        "<svg xmlns='http://www.w3.org/2000/svg' viewBox='0 0 {WIDTH} {height}' width='{WIDTH}' height='{height}'>\n{style}"
    )
}

/// Writes the lanes, down to this place, each under its name.
fn write_lanes(
    alloc: Global,
    text: &mut String,
    page: Page,
    lanes: &[Lane],
    end: u64,
) -> Result<(), Fault>
    requires { length lanes.now ≤ 16 }
    ensures lanes { OnOk result (string_bytes text.new
        ≡ string_bytes text.old ++ lanes_text page.lanes end lanes.now) }
    ensures short { OnOk result (length (string_bytes text.new)
        ≤ length (string_bytes text.old) + 300 * length lanes.now) }
    ensures fault { IfErr result (λ fault. fault ≡ Fault.OutOfMemory) }
{
    for (place, lane) in lanes.iter().enumerate() {
        let element = lane_text(alloc, page, (place as u32, lane), end)?;
        add_element(text, &element, MOST_BYTES)?;
    }
    Ok(())
}

/// A lane by its place, down to this place, and its name.
fn lane_text(
    alloc: Global,
    page: Page,
    placed: (u32, &Lane),
    end: u64,
) -> Result<String, AllocError>
    ensures { IfOk result (λ text. string_bytes text ≡ lane_text page.lanes end placed.entry.0
        placed.entry.1.now) }
{
    let (place, lane) = placed;
    let upright = Upright {
        look: Look {
            colour: lane.colour,
            kind: 8,
        },
        from: Point {
            x: page.lane_x(place),
            y: page.name_y(0, place) + 4,
        },
        to_y: end,
    };
    let line = upright.text(alloc)?;
    let name = name_text(alloc, page, 0, placed)?;
    format!(in alloc; "{line}\n{name}")
}

/// The name of a lane by its place: at the head of the page, for block 0, or above line `50 * block`.
fn name_text(
    alloc: Global,
    page: Page,
    block: u64,
    placed: (u32, &Lane),
) -> Result<String, AllocError>
    requires { block ≤ 2 ^ 32 }
    ensures { IfOk result (λ text. string_bytes text ≡ name_text page.lanes block placed.entry.0
        placed.entry.1.now) }
{
    let (place, lane) = placed;
    let point = Point {
        x: page.lane_x(place),
        y: page.name_y(block, place),
    };
    words_at(alloc, lane.colour, point, &lane.name)
}

/// Writes the names of the lanes again, each 50 of these lines.
fn write_names(
    alloc: Global,
    text: &mut String,
    page: Page,
    lanes: &[Lane],
    lines: u64,
) -> Result<(), Fault>
    requires lanes { length lanes.now ≤ 16 }
    requires lines { lines ≤ 2 ^ 32 }
    ensures names { OnOk result (string_bytes text.new
        ≡ string_bytes text.old ++ names_text page.lanes lines lanes.now) }
    ensures short { OnOk result (length (string_bytes text.new)
        ≤ length (string_bytes text.old) + 32 * lines) }
    ensures fault { IfErr result (λ fault. fault ≡ Fault.OutOfMemory) }
{
    let blocks = lines / LINES_BETWEEN_NAMES;
    for block in 0..blocks {
        write_block(alloc, text, page, lanes, block + 1)?;
    }
    Ok(())
}

/// Writes the names of the lanes again, above line `50 * block`.
fn write_block(
    alloc: Global,
    text: &mut String,
    page: Page,
    lanes: &[Lane],
    block: u64,
) -> Result<(), Fault>
    requires lanes { length lanes.now ≤ 16 }
    requires block { block ≤ 2 ^ 32 }
    ensures names { OnOk result (string_bytes text.new
        ≡ string_bytes text.old ++ names_from page.lanes block 0 lanes.now) }
    ensures short { OnOk result (length (string_bytes text.new)
        ≤ length (string_bytes text.old) + 100 * length lanes.now) }
    ensures fault { IfErr result (λ fault. fault ≡ Fault.OutOfMemory) }
{
    for (place, lane) in lanes.iter().enumerate() {
        let element = name_text(alloc, page, block, (place as u32, lane))?;
        add_element(text, &element, MOST_SHORT_BYTES)?;
    }
    Ok(())
}

/// Writes the ways that are drawn.
fn write_ways(
    alloc: Global,
    text: &mut String,
    page: Page,
    lines: &u64,
    ways: &[Way],
) -> Result<(), Fault>
    requires down { AreDown lines.now ways.now }
    requires lines { lines.now ≤ 2 ^ 32 }
    ensures ways { OnOk result (string_bytes text.new
        ≡ string_bytes text.old ++ flat_map (way_text page.lanes) ways.now) }
    ensures short { OnOk result (length (string_bytes text.new)
        ≤ length (string_bytes text.old) + 300 * length ways.now) }
    ensures fault { IfErr result (λ fault. fault ≡ Fault.OutOfMemory) }
{
    for way in ways {
        write_way(alloc, text, page, lines, way)?;
    }
    Ok(())
}

/// Writes a way, if it is drawn.
fn write_way(
    alloc: Global,
    text: &mut String,
    page: Page,
    lines: &u64,
    way: &Way,
) -> Result<(), Fault>
    requires down { IsDown lines.now way.now }
    requires lines { lines.now ≤ 2 ^ 32 }
    ensures way { OnOk result (string_bytes text.new
        ≡ string_bytes text.old ++ way_text page.lanes way.now) }
    ensures short { OnOk result (length (string_bytes text.new)
        ≤ length (string_bytes text.old) + 300) }
    ensures fault { IfErr result (λ fault. fault ≡ Fault.OutOfMemory) }
{
    if !way.sending.is_drawn {
        return Ok(());
    }
    let curve = way_curve(page, lines, way);
    let element = curve.text(alloc)?;
    add_element(text, &element, MOST_BYTES)
}

/// The curve of a way that is drawn: from its sender's lane to its receiver's, and down. One that
/// has not ended ends half way.
fn way_curve(page: Page, lines: &u64, way: &Way) -> Curve
    requires down { IsDown lines.now way.now }
    requires drawn { way.now.sending.is_drawn ≡ true }
    requires lines { lines.now ≤ 2 ^ 32 }
    ensures curve { result ≡ way_curve page.lanes way.now }
    ensures down { result.from.y < result.to.y }
{
    let x = page.lane_x(way.sending.from);
    let to_x = page.lane_x(way.sending.to);
    let y = page.line_y(way.line) + 15;
    let (end_x, end_y, kind) = match way.ended {
        Some(arrival) => (to_x, page.line_y(arrival.line) + 5, end_kind(arrival.end)),
        None => ((x + to_x) / 2, y + 12, 3),
    };
    let by_x = if x == to_x { x - 24 } else { (x + end_x) / 2 };
    Curve {
        look: Look {
            colour: way.sending.colour,
            kind,
        },
        from: Point { x, y },
        by: Point {
            x: by_x,
            y: (y + end_y) / 2,
        },
        to: Point { x: end_x, y: end_y },
    }
}

/// What the way of a packet looks like, by how it ends.
fn end_kind(end: End) -> u8
    ensures { result ≡ end_kind end }
{
    match end {
        End::Taken => 0,
        End::Unheard => 1,
        End::Lost => 2,
    }
}

/// Where the line of a moment begins in a drawing with n lanes.
pub fn moment_y(lanes: u32, row: &Row) -> u64
    requires { lanes ≤ 16 }
    // claim: A moment begins in the drawing where its line does
    ensures { result ≡ line_y lanes (within_page row.now.line) }
{
    let page = Page { lanes };
    page.line_y(within_page(row.line))
}

/// Writes the moments that are drawn.
fn write_rows(alloc: Global, text: &mut String, page: Page, rows: &[Row]) -> Result<(), Fault>
    ensures rows { OnOk result (string_bytes text.new
        ≡ string_bytes text.old ++ flat_map (row_text page.lanes) rows.now) }
    ensures short { OnOk result (length (string_bytes text.new)
        ≤ length (string_bytes text.old) + sum_by row_bytes rows.now) }
    ensures fault { IfErr result (λ fault. fault ≡ Fault.OutOfMemory) }
{
    for row in rows {
        write_row(alloc, text, page, row)?;
    }
    Ok(())
}

/// Writes a moment, if it is drawn.
fn write_row(alloc: Global, text: &mut String, page: Page, row: &Row) -> Result<(), Fault>
    ensures row { OnOk result (string_bytes text.new
        ≡ string_bytes text.old ++ row_text page.lanes row.now) }
    ensures short { OnOk result (length (string_bytes text.new)
        ≤ length (string_bytes text.old) + row_bytes row.now) }
    ensures fault { IfErr result (λ fault. fault ≡ Fault.OutOfMemory) }
{
    if !row.is_drawn {
        return Ok(());
    }
    let element = row_text(alloc, page, row)?;
    add_element(text, &element, MOST_ROW_BYTES)?;
    write_effect(alloc, text, page, row.line, &row.label.effect)
}

/// A moment: what happens, and its mark.
fn row_text(alloc: Global, page: Page, row: &Row) -> Result<String, AllocError>
    ensures { IfOk result (λ text. string_bytes text ≡ row_element page.lanes row.now) }
{
    let y = page.line_y(within_page(row.line));
    let cause = words_at(alloc, 0, text_point(LEFT, y), &row.label.cause)?;
    let mark = mark_text(alloc, page, y, row.label.mark)?;
    format!(in alloc; "{cause}{mark}")
}

/// Where a text is in the line that begins here.
fn text_point(x: u64, y: u64) -> Point
    requires { y ≤ 2 ^ 40 }
    ensures { result ≡ text_point x y }
{
    Point { x, y: y + 13 }
}

/// Writes what an actor does, from this line on.
fn write_effect(
    alloc: Global,
    text: &mut String,
    page: Page,
    line: u64,
    effect: &Words,
) -> Result<(), Fault>
    ensures effect { OnOk result (string_bytes text.new
        ≡ string_bytes text.old ++ effect_line_text page.lanes line (string_bytes effect.now.text)) }
    ensures short { OnOk result (length (string_bytes text.new)
        ≤ length (string_bytes text.old) + (108 + 3 * length (string_bytes effect.now.text))) }
    ensures fault { IfErr result (λ fault. fault ≡ Fault.OutOfMemory) }
{
    let lines = effect.lines();
    for number in 0..lines {
        let element = effect_line(alloc, page, line, effect, number)?;
        add_element(text, &element, MOST_LINE_BYTES)?;
    }
    Ok(())
}

/// The line of this number, from 0, of what an actor does from this line on.
fn effect_line(
    alloc: Global,
    page: Page,
    line: u64,
    effect: &Words,
    number: u64,
) -> Result<String, AllocError>
    requires { 36 * number ≤ length (string_bytes effect.now.text) }
    ensures { IfOk result (λ text. string_bytes text ≡ effect_line page.lanes line
        (string_bytes effect.now.text) number) }
{
    let y = page.line_y(within_page(line.saturating_add(number)));
    let words = effect.line(alloc, number)?;
    words_at(alloc, 0, text_point(RIGHT, y), &words)
}

/// The mark of a moment whose line begins here, if it has one.
fn mark_text(alloc: Global, page: Page, y: u64, mark: Option<Mark>) -> Result<String, AllocError>
    requires { y ≤ 2 ^ 40 }
    ensures { IfOk result (λ text. string_bytes text ≡ mark_text page.lanes y mark) }
{
    let Some(mark) = mark else {
        return Ok(String::new(alloc));
    };
    let dash = Dash {
        look: Look {
            colour: mark.colour,
            kind: mark_kind(mark.kind),
        },
        from: Point {
            x: page.lane_x(mark.lane).saturating_sub(4),
            y: y + 10,
        },
        width: 8,
    };
    let dash = dash.text(alloc)?;
    format!(in alloc; "\n{dash}")
}

/// What a mark looks like.
fn mark_kind(kind: Kind) -> u8
    ensures { result ≡ mark_kind kind }
{
    match kind {
        Kind::Act => 4,
        Kind::Record => 5,
        Kind::Torn => 6,
        Kind::Stop => 7,
        Kind::Restart => 9,
        Kind::State => 10,
    }
}
