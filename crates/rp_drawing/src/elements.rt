//! The elements of a drawing, as text.

ghost use Rattle.std.specs.Prelude.{◌≡◌, ◌+◌, ◌++◌, ◌∷◌, [], ◌≤◌, IfErr, IfOk, OnOk, length, string_bytes};
ghost use Rattle.rp_drawing.specs.Elements.{curve_text, dash_text, upright_text, words_text, most_head_bytes};

use crate::words::Words;
use rp_base::Fault;
use std::alloc::{AllocError, Global};
use std::fmt;

/// The most bytes of the head of a drawing, and of its legend.
pub const MOST_HEAD_BYTES: usize = 4500;

/// The most bytes of a lane or a way, with the end of its line.
pub const MOST_BYTES: usize = 300;

/// The most bytes of the cause and the mark of a moment.
pub const MOST_ROW_BYTES: usize = 192;

/// The most bytes of a line of what an actor does.
pub const MOST_LINE_BYTES: usize = 108;

/// The most bytes of the name of a lane where it is written again, and of the lane of a stopped node.
pub const MOST_SHORT_BYTES: usize = 100;

/// How an element looks: its colour and its kind.
#[derive(Clone, Copy)]
pub struct Look {
    pub colour: u8,
    pub kind: u8,
}

/// A place on a page.
#[derive(Clone, Copy)]
pub struct Point {
    pub x: u64,
    pub y: u64,
}

impl fmt::Display for Look {
    ghost use Rattle.std.specs.Prelude.{Some};
    ghost use Rattle.rp_drawing.specs.Elements.{look_text};

    ghost output = { λ l. Some (look_text l) };

    fn fmt<W: fmt::Write>(&self, f: &mut fmt::Formatter<W>) -> fmt::Result {
        let Look { colour, kind } = *self;
        write!(f, "c{colour} k{kind}")
    }
}

impl fmt::Display for Point {
    ghost use Rattle.std.specs.Prelude.{Some};
    ghost use Rattle.rp_drawing.specs.Elements.{point_text};

    ghost output = { λ p. Some (point_text p) };

    fn fmt<W: fmt::Write>(&self, f: &mut fmt::Formatter<W>) -> fmt::Result {
        let Point { x, y } = *self;
        write!(f, "{x} {y}")
    }
}

/// A curve from one place to another, by way of a third one.
#[derive(Clone, Copy)]
pub struct Curve {
    pub look: Look,
    pub from: Point,
    pub by: Point,
    pub to: Point,
}

impl Curve {
    /// Its text.
    pub fn text(&self, alloc: Global) -> Result<String, AllocError>
        ensures { IfOk result (λ text. string_bytes text ≡ curve_text self.now) }
    {
        let look = self.look;
        let from = self.from;
        let by = self.by;
        let to = self.to;
        format!(in alloc; "<path class='{look}' d='M{from}Q{by} {to}'/>")
    }
}

/// A line from a place to the right.
#[derive(Clone, Copy)]
pub struct Dash {
    pub look: Look,
    pub from: Point,
    pub width: u64,
}

impl Dash {
    /// Its text.
    pub fn text(&self, alloc: Global) -> Result<String, AllocError>
        ensures { IfOk result (λ text. string_bytes text ≡ dash_text self.now) }
    {
        let Dash { look, from, width } = *self;
        format!(in alloc; "<path class='{look}' d='M{from}h{width}'/>")
    }
}

/// A line from a place down.
#[derive(Clone, Copy)]
pub struct Upright {
    pub look: Look,
    pub from: Point,
    pub to_y: u64,
}

impl Upright {
    /// Its text.
    pub fn text(&self, alloc: Global) -> Result<String, AllocError>
        ensures { IfOk result (λ text. string_bytes text ≡ upright_text self.now) }
    {
        let Upright { look, from, to_y } = *self;
        format!(in alloc; "<path class='{look}' d='M{from}V{to_y}'/>")
    }
}

/// The text of words at a place.
pub fn words_at(
    alloc: Global,
    colour: u8,
    place: Point,
    words: &Words,
) -> Result<String, AllocError>
    ensures { IfOk result (λ text. string_bytes text ≡ words_text colour place
        (string_bytes words.now.text)) }
{
    let Point { x, y } = place;
    let text = words.as_str();
    format!(in alloc; "<text class='t{colour}' x='{x}' y='{y}'>{text}</text>")
}

/// Adds an element, and the end of its line. `OutOfMemory`, also where that makes more than `most`
/// bytes.
pub fn add_element(text: &mut String, element: &str, most: usize) -> Result<(), Fault>
    ensures added { OnOk result (string_bytes text.new
        ≡ string_bytes text.old ++ (element.now ++ 10 ∷ [])) }
    ensures short { OnOk result (length (string_bytes text.new)
        ≤ length (string_bytes text.old) + most) }
    ensures fault { IfErr result (λ fault. fault ≡ Fault.OutOfMemory) }
{
    if element.len() >= most {
        return Err(Fault::OutOfMemory);
    }
    text.push_str(element)?;
    Ok(text.push_str("\n")?)
}

/// Adds the head of a drawing, or its legend. `OutOfMemory`, also where it has more than 4,500 bytes,
/// as none has.
pub fn add_head(text: &mut String, head: &str) -> Result<(), Fault>
    ensures added { OnOk result (string_bytes text.new ≡ string_bytes text.old ++ head.now) }
    ensures short { OnOk result (length (string_bytes text.new)
        ≤ length (string_bytes text.old) + most_head_bytes) }
    ensures fault { IfErr result (λ fault. fault ≡ Fault.OutOfMemory) }
{
    if head.len() > MOST_HEAD_BYTES {
        return Err(Fault::OutOfMemory);
    }
    Ok(text.push_str(head)?)
}
