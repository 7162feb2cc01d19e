//! What happens in a run, moment by moment, and the way of each packet.

ghost use Rattle.std.specs.Prelude.{◌≡◌, ◌+◌, ◌<◌, ◌≤◌, ◌^◌, ◌||◌, if◌then◌else◌, true, ◌++◌, [], ◌∷◌, length, Some, IfOk, OnOk, IfErr};
ghost use Rattle.std.specs.List.{list_any};
ghost use Rattle.rp_drawing.specs.Ways.{AddsMoment, AreWays, AreDown, ended_ways, is_end_drawn, label_lines, moments_of, sent_ways, IsEndingWithin};

use crate::words::Words;
use rp_base::Fault;
use std::alloc::{AllocError, Global};

/// The most lines of a drawing.
pub const MOST_LINES: u64 = 1 << 32;

/// A packet that is sent, by the lanes of its sender and its receiver, from 0.
#[derive(Clone, Copy)]
pub struct Sending {
    pub from: u32,
    pub to: u32,
    /// The colour of its ballot, 0 of none.
    pub colour: u8,
    /// Whether its way is drawn.
    pub is_drawn: bool,
}

/// How the way of a packet ends.
#[derive(Clone, Copy)]
pub enum End {
    /// Its receiver takes it.
    Taken,
    /// Its receiver is a node that is stopped.
    Unheard,
    /// It is lost.
    Lost,
}

/// The way of the message of this number, from 1, ends.
#[derive(Clone, Copy)]
pub struct Ending {
    pub message: u64,
    pub end: End,
}

/// A moment of a run: how many messages were sent before it, those that are sent in it, in order,
/// and the one that is settled by it.
#[derive(Drop)]
pub struct Moment {
    pub before: u64,
    pub sends: Vec<Sending>,
    pub ending: Option<Ending>,
}

/// What the mark of a moment means.
#[derive(Clone, Copy)]
pub enum Kind {
    /// An actor acts.
    Act,
    /// A node writes a record.
    Record,
    /// A node stops, and a part of a record is kept.
    Torn,
    /// A node stops.
    Stop,
    /// A node starts again.
    Restart,
    /// A node is shown.
    State,
}

/// A mark on a lane, from 0.
#[derive(Clone, Copy)]
pub struct Mark {
    pub lane: u32,
    pub colour: u8,
    pub kind: Kind,
}

/// What is drawn of a moment beside the ways of packets: at the left what happens, at the right
/// what an actor does then, on as many lines as that takes.
#[derive(Drop)]
pub struct Label {
    /// Fitted words: it is drawn on one line.
    pub cause: Words,
    pub effect: Words,
    pub mark: Option<Mark>,
    /// Whether it has a line, also where no packet's way is drawn from it.
    pub is_drawn: bool,
    /// What a page says of the moment beside its drawing, in lines. It is not drawn.
    pub details: Vec<u8>,
}

impl Label {
    /// How many lines it takes: one at least.
    fn lines(&self) -> u64
        ensures lines { result ≡ label_lines self.now }
        ensures some { 1 ≤ result }
    {
        self.effect.lines().max(1)
    }
}

/// A moment in its first line of the drawing, from 0.
#[derive(Drop)]
pub struct Row {
    pub moment: Moment,
    pub line: u64,
    pub is_drawn: bool,
    pub label: Label,
}

/// Where the way of a packet ends: the place of its moment, from 0, and its line.
#[derive(Clone, Copy)]
pub struct Arrival {
    pub moment: u64,
    pub line: u64,
    pub end: End,
}

/// The way of a packet: the place of the moment that sent it, the line of that, and where it ends.
#[derive(Clone, Copy)]
pub struct Way {
    pub sending: Sending,
    pub sent: u64,
    pub line: u64,
    pub ended: Option<Arrival>,
}

/// The moments of a run so far, the ways of its messages, by number, and how many lines they take.
#[derive(Drop)]
pub struct Sketch {
    pub rows: Vec<Row>,
    pub ways: Vec<Way>,
    pub lines: u64,
}

impl Sketch {
    /// Nothing has happened.
    pub fn new(alloc: Global) -> Self
        ensures rows { moments_of result ≡ [] }
        ensures count { result.ways.items ≡ [] }
        ensures ways { AreWays result.rows.items result.ways.items }
        ensures down { AreDown result.lines result.ways.items }
        ensures lines { result.lines ≡ 0 }
        ensures few { result.lines ≤ 2 ^ 32 }
    {
        Sketch {
            rows: Vec::new(alloc),
            ways: Vec::new(alloc),
            lines: 0,
        }
    }

    /// How many lines the drawing has, beside the names of the lanes that are written again.
    pub fn lines(&self) -> u64
        // claim: A sketch says how many lines its drawing has
        ensures { result ≡ self.now.lines }
    {
        self.lines
    }

    /// One more moment: its packets begin their ways in it, and the way of the message that it
    /// settles ends, if it has not ended before. `OutOfMemory`, also above 4,294,967,296 lines.
    pub fn add(&mut self, moment: Moment, label: Label) -> Result<(), Fault>
        requires before { moment.before ≡ length self.old.ways.items }
        requires ending { IsEndingWithin moment.before moment.ending }
        requires ways { AreWays self.old.rows.items self.old.ways.items }
        requires down { AreDown self.old.lines self.old.ways.items }
        // claim: A moment that is added to a sketch is its last row, under its label as given, in the
        //   next line. It is drawn exactly if its label is to be drawn, or the way that ends in it, or
        //   one that begins in it. It then takes as many lines as what its actor does, and at least
        //   one, and else none
        ensures added { OnOk result (AddsMoment self.old self.new moment label) }
        ensures moments { OnOk result (moments_of self.new ≡ moments_of self.old ++ moment ∷ []) }
        ensures count { OnOk result (length self.new.ways.items
            ≡ moment.before + length moment.sends.items) }
        // claim (ways, down): With each moment that is added to a sketch, the ways stay those of its
        //   messages: each begins in the moment that sent the message, and ends in the first one that
        //   settled it, a later one; no way that is drawn goes upwards
        ensures ways { OnOk result (AreWays self.new.rows.items self.new.ways.items) }
        ensures down { OnOk result (AreDown self.new.lines self.new.ways.items) }
        ensures few { OnOk result (self.new.lines ≤ 2 ^ 32) }
        ensures fault { IfErr result (λ fault. fault ≡ Fault.OutOfMemory) }
    {
        let line = self.lines;
        let taken = label.lines();
        if taken > MOST_LINES.saturating_sub(line) {
            return Err(Fault::OutOfMemory);
        }
        let place = self.rows.len() as u64;
        let ended = self.end(moment.ending, place, line);
        let sent = self.send(&moment.sends, place, line)?;
        let is_drawn = is_one(label.is_drawn, ended, sent);
        self.rows.push(Row {
            moment,
            line,
            is_drawn,
            label,
        })?;
        self.lines = lines_after(line, taken, is_drawn);
        Ok(())
    }

    /// The way of the message that is settled ends in the moment of this place and line, unless it
    /// has ended before. Whether it is drawn.
    fn end(&mut self, ending: Option<Ending>, moment: u64, line: u64) -> bool
        requires { IsEndingWithin (length self.old.ways.items) ending }
        ensures rows { self.new.rows ≡ self.old.rows }
        ensures lines { self.new.lines ≡ self.old.lines }
        ensures ways { self.new.ways.items ≡ ended_ways self.old.ways.items ending moment line }
        ensures drawn { result ≡ is_end_drawn self.old.ways.items ending }
    {
        let Some(ending) = ending else {
            return false;
        };
        let place = ending.message as usize - 1;
        let way = self.ways[place];
        let arrival = Arrival {
            moment,
            line,
            end: ending.end,
        };
        self.ways[place] = Way {
            ended: Some(way.ended.unwrap_or(arrival)),
            ..way
        };
        way.sending.is_drawn
    }

    /// These packets begin their ways in the moment of this place and line. Whether one is drawn.
    fn send(&mut self, sends: &[Sending], moment: u64, line: u64) -> Result<bool, AllocError>
        ensures rows { self.new.rows ≡ self.old.rows }
        ensures lines { self.new.lines ≡ self.old.lines }
        ensures ways { OnOk result (self.new.ways.items
            ≡ self.old.ways.items ++ sent_ways sends.now moment line) }
        ensures drawn { IfOk result (λ drawn. drawn ≡ list_any (λ s. s.is_drawn) sends.now) }
    {
        let mut is_drawn = false;
        for sending in sends {
            let way = Way {
                sending: *sending,
                sent: moment,
                line,
                ended: None,
            };
            self.ways.push(way)?;
            is_drawn = is_drawn || sending.is_drawn;
        }
        Ok(is_drawn)
    }
}

/// Whether one of these is so.
fn is_one(one: bool, other: bool, third: bool) -> bool
    ensures { result ≡ (one || (other || third)) }
{
    one || other || third
}

/// How many lines there are after a moment that takes one or more if it is drawn.
fn lines_after(lines: u64, taken: u64, is_drawn: bool) -> u64
    requires some { 1 ≤ taken }
    requires few { lines + taken ≤ 2 ^ 32 }
    ensures after { result ≡ (if is_drawn then lines + taken else lines) }
    ensures drawn { is_drawn ≡ true → lines < result }
    ensures grows { lines ≤ result }
    ensures few { result ≤ 2 ^ 32 }
{
    if is_drawn { lines + taken } else { lines }
}
