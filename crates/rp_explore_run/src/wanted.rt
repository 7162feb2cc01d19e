//! What the run of a deck has to print.

ghost use Rattle.std.specs.Prelude.{◌≡◌, IfOk, map};
ghost use Rattle.std.specs.List.{list_any};
ghost use Rattle.std.specs.Str.{bytes_eq};
ghost use Rattle.rp_explore_run.specs.Wanted.{is_shown};

use crate::order_lines::lines_of;
use std::alloc::{AllocError, Global};

/// What the run of a deck has to print.
#[derive(Drop)]
pub enum Wanted {
    /// This line.
    Line(String),
    /// At the end, a state with this image.
    State(Vec<u8>),
}

/// Whether the output of a run has what is wanted.
pub fn is_shown(alloc: Global, wanted: &Wanted, output: &[u8]) -> Result<bool, AllocError>
    // claim: An output shows a reply exactly if it has its line, and a state exactly if it ends with
    //   a line feed and the image of the state
    ensures { IfOk result (λ shown. shown ≡ is_shown wanted.now output.now) }
{
    match wanted {
        Wanted::Line(line) => {
            let lines = lines_of(alloc, output)?;
            Ok(has_line(&lines, line.as_bytes()))
        }
        Wanted::State(image) => {
            let mut end = Vec::new(alloc);
            end.push(b'\n')?;
            end.extend_from_slice(image)?;
            Ok(output.ends_with(&end))
        }
    }
}

/// Whether the line is one of these.
fn has_line(lines: &[&[u8]], wanted: &[u8]) -> bool
    ensures { result ≡ list_any (λ line. bytes_eq wanted.now line.now) lines.now }
{
    lines.iter().any(|line| is_line(wanted, line))
}

/// Whether the lines are equal.
fn is_line(wanted: &[u8], line: &[u8]) -> bool
    ensures { result ≡ bytes_eq wanted.now line.now }
{
    wanted == line
}
