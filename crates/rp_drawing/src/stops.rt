//! How the lane of a node looks while the node is stopped.

ghost use Rattle.std.specs.Prelude.{◌≡◌, ℕ, ◌+◌, ◌*◌, ◌++◌, ◌≤◌, ◌<◌, ◌^◌, IfErr, IfOk, OnOk, if◌then◌else◌, length, slice_index, string_bytes};
ghost use Rattle.rp_drawing.specs.Stops.{is_restart_mark, is_stop, mark_y, restarts, stop_by, stop_text, stops_text, within_page};

use crate::elements::{Look, MOST_SHORT_BYTES, Point, Upright, add_element};
use crate::page::Page;
use crate::sketch::{Kind, MOST_LINES, Mark, Row};
use rp_base::Fault;
use std::alloc::{AllocError, Global};

/// Writes the lanes of stopped nodes, each from the stop down to the restart, or to the end of the
/// page. The moments are read once, from the last one back, so that the place of the next restart of
/// each lane is known.
pub fn write_stops(
    alloc: Global,
    text: &mut String,
    page: Page,
    rows: &[Row],
    end: u64,
) -> Result<(), Fault>
    ensures stops { OnOk result (string_bytes text.new
        ≡ string_bytes text.old ++ stops_text page.lanes end rows.now) }
    ensures short { OnOk result (length (string_bytes text.new)
        ≤ length (string_bytes text.old) + 100 * length rows.now) }
    ensures fault { IfErr result (λ fault. fault ≡ Fault.OutOfMemory) }
{
    let mut next = vec![in alloc; end; page.lanes as usize]?;
    let mut place = rows.len();
    while place > 0 {
        place -= 1;
        let row = &rows[place];
        let y = mark_y(page, row.line);
        write_stop(alloc, text, page, (y, row.label.mark), &next)?;
        note_restart(&mut next, y, row.label.mark);
    }
    Ok(())
}

/// Writes the lane of a node that stops at this mark, at this place down the page, if one does,
/// where the next restart of each lane is known.
fn write_stop(
    alloc: Global,
    text: &mut String,
    page: Page,
    marked: (u64, Option<Mark>),
    next: &[u64],
) -> Result<(), Fault>
    requires { length next.now ≡ page.lanes }
    ensures stop { OnOk result (string_bytes text.new
        ≡ string_bytes text.old ++ stop_by page.lanes marked.0 (slice_index next.now) marked.1) }
    ensures short { OnOk result (length (string_bytes text.new)
        ≤ length (string_bytes text.old) + 100) }
    ensures fault { IfErr result (λ fault. fault ≡ Fault.OutOfMemory) }
{
    let (y, Some(mark)) = marked else {
        return Ok(());
    };
    if !is_stop(mark.kind) || mark.lane >= page.lanes {
        return Ok(());
    }
    let to_y = next[mark.lane as usize];
    let element = stop_text(alloc, page, mark.lane, y, to_y)?;
    add_element(text, &element, MOST_SHORT_BYTES)
}

/// The look of a lane while its node is stopped, from one place down to another.
fn stop_text(alloc: Global, page: Page, lane: u32, y: u64, to_y: u64) -> Result<String, AllocError>
    ensures { IfOk result (λ text. string_bytes text ≡ stop_text page.lanes lane y to_y) }
{
    let upright = Upright {
        look: Look {
            colour: 0,
            kind: 11,
        },
        from: Point {
            x: page.lane_x(lane),
            y,
        },
        to_y,
    };
    upright.text(alloc)
}

/// The next restart of the lane on which a node starts again at this mark is at this place.
fn note_restart(next: &mut [u64], y: u64, mark: Option<Mark>)
    ensures same { length next.new ≡ length next.old }
    ensures next { (lane : ℕ) → lane < length next.old
        → slice_index next.new lane ≡ (if restarts lane mark then y else slice_index next.old lane) }
{
    if let Some(mark) = mark
        && is_restart(mark.kind)
        && (mark.lane as usize) < next.len()
    {
        next[mark.lane as usize] = y;
    }
}

/// Where the mark of a moment of this line is, down the page.
fn mark_y(page: Page, line: u64) -> u64
    ensures { result ≡ mark_y page.lanes line }
{
    page.line_y(within_page(line)) + 10
}

/// The line, or the last one that a page has.
pub fn within_page(line: u64) -> u64
    ensures line { result ≡ within_page line }
    ensures within { result ≤ 2 ^ 32 }
{
    if line < MOST_LINES { line } else { MOST_LINES }
}

/// Whether a mark says that a node stops.
fn is_stop(kind: Kind) -> bool
    ensures { result ≡ is_stop kind }
{
    matches!(kind, Kind::Torn | Kind::Stop)
}

/// Whether a mark says that a node starts again.
fn is_restart(kind: Kind) -> bool
    ensures { result ≡ is_restart_mark kind }
{
    matches!(kind, Kind::Restart)
}
