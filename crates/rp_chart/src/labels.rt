//! The words in a drawing.

ghost use Rattle.std.specs.Prelude.{◌≡◌, Some, None, IfOk, map, string_bytes};
ghost use Rattle.rp_chart.specs.Causes.{cause_text, line_text};
ghost use Rattle.rp_chart.specs.Effects.{cut_text, effect_text, record_before, record_for, record_of, record_text, refusal_text, restart_text, step_text, taken_or_written, written_text};
ghost use Rattle.rp_chart.specs.ScriptHistory.{image_text};
ghost use Rattle.rp_history.specs.rp_drawing.specs.Words.{fitted_text, whole_text};
ghost use Rattle.rp_history.specs.Histories.{delivered_by};
ghost use Rattle.rp_history.specs.declared.happened.Happened.{Happened};
ghost use Rattle.rp_run.specs.rp_output.specs.Printed.{applied_line_of, node_line_of, stopped_line_of};
ghost use Rattle.rp_run.specs.rp_output.specs.Trace.{message_line_of};
ghost use Rattle.rp_run.specs.Output.{names_of};

use indexmap::IndexMap;
use rp_base::{Answer, Fault, NodeId, Rec};
use rp_codec::{Body, Packet};
use rp_deck::Task;
use rp_drawing::Words;
use rp_history::{Happened, delivered_by};
use rp_model::{Dropped, Event};
use rp_output::{BodyText, NodeLine, NodeState, ReplyText, TraceLine};
use rp_run::party_text;
use std::alloc::{AllocError, Global};
use std::fmt;

/// The words of a message: `m2 1>3 prepare 1 9`.
pub fn message_words(
    alloc: Global,
    tasks: &IndexMap<String, Task>,
    number: u64,
    packet: &Packet,
) -> Result<Words, AllocError>
    ensures { IfOk result (λ words. string_bytes words.text
        ≡ fitted_text (message_line_of (names_of tasks.now) number packet.now)) }
{
    let line = TraceLine {
        number,
        from: party_text(tasks, packet.from()),
        to: party_text(tasks, packet.to()),
        body: BodyText {
            body: packet.body(),
        },
    };
    let text = format!(in alloc; "{line}")?;
    Words::fitted(alloc, text.as_bytes())
}

/// A line of a deck, by its number from 1.
pub fn line_at<'a>(deck: &[&'a [u8]], number: u32) -> &'a [u8]
    ensures { result.now ≡ line_text (map (λ line. line.now) deck.now) number }
{
    if number == 0 {
        return b"".as_slice();
    }
    let place = number as usize - 1;
    if place >= deck.len() {
        return b"".as_slice();
    }
    deck[place]
}

/// The record that a node writes when it takes a packet, if it writes one then.
fn record_for(body: &Body) -> Option<Rec>
    ensures { result ≡ record_for body.now }
{
    match *body {
        Body::Prepare { position, ballot } => Some(Rec::Promised(position, ballot)),
        Body::PrepareRange { range, ballot } => Some(Rec::PromisedRange(range, ballot)),
        Body::Accept {
            position,
            ballot,
            action,
        } => Some(Rec::Voted(position, ballot, action)),
        Body::Accepted {
            position,
            action,
            ..
        }
        | Body::Decided { position, action } => Some(Rec::Learned(position, action)),
        _ => None,
    }
}

/// The record that a leader writes before it sends this request, if it writes one then.
fn record_before(body: &Body) -> Option<Rec>
    ensures { result ≡ record_before body.now }
{
    match *body {
        Body::Prepare { ballot, .. } | Body::PrepareRange { ballot, .. } => {
            Some(Rec::Started(ballot))
        }
        _ => None,
    }
}

/// A record: `voted 1 9`.
#[derive(Clone, Copy)]
struct RecordText {
    record: Rec,
}

impl fmt::Display for RecordText {
    ghost output = { λ l. Some (record_text l.record) };

    fn fmt<W: fmt::Write>(&self, f: &mut fmt::Formatter<W>) -> fmt::Result {
        match self.record {
            Rec::Started(ballot) => {
                let ballot = ballot.get();
                write!(f, "started {ballot}")
            }
            Rec::Promised(position, ballot) => {
                let position = position.get();
                let ballot = ballot.get();
                write!(f, "promised {position} {ballot}")
            }
            Rec::Voted(position, ballot, _) => {
                let position = position.get();
                let ballot = ballot.get();
                write!(f, "voted {position} {ballot}")
            }
            Rec::Learned(position, _) => {
                let position = position.get();
                write!(f, "learned {position}")
            }
            Rec::PromisedRange(range, ballot) => {
                let first = range.first().get();
                let count = range.count();
                let ballot = ballot.get();
                write!(f, "promised_range {first} {count} {ballot}")
            }
        }
    }
}

/// The words for the cause of an event: the packet that was delivered, or else the line of the
/// deck.
pub fn cause_words(
    alloc: Global,
    tasks: &IndexMap<String, Task>,
    line: &[u8],
    happened: &Happened,
) -> Result<Words, AllocError>
    // claim: The text at the left of an event is the line of the packet that it delivers, as a trace
    //   prints it, or else the line of the deck
    ensures { IfOk result (λ words. string_bytes words.text
        ≡ fitted_text (cause_text (names_of tasks.now) line.now
        (delivered_by happened.now.event) happened.now.packet)) }
{
    let Some(number) = delivered_by(&happened.event) else {
        return Words::fitted(alloc, line);
    };
    match &happened.packet {
        Some(packet) => message_words(alloc, tasks, number, packet),
        None => Words::fitted(alloc, line),
    }
}

/// The words for what the actor did.
pub fn effect_words(alloc: Global, happened: &Happened) -> Result<Words, AllocError>
    // claim: The text at the right of an event says what its actor did: the record that it wrote and
    //   how many actions it has then applied, if these are more than before; the reply that it took; that
    //   it did not hear a packet, or had no place for an item; that it stopped, and of how many bytes of a
    //   record; or what it found when it ran again, or that it ran already
    ensures { IfOk result (λ words. string_bytes words.text
        ≡ whole_text (effect_text happened.now happened.now.event)) }
{
    match happened.event {
        Event::Submit { .. } | Event::Again { .. } => Ok(Words::none(alloc)),
        Event::Stop(_) => Words::whole(alloc, b"stopped".as_slice()),
        Event::Restart(_) => restart_words(alloc, happened),
        Event::Cut { .. } => cut_words(alloc, happened),
        Event::Node(_) => step_words(alloc, happened),
    }
}

/// The words for a restart.
fn restart_words(alloc: Global, happened: &Happened) -> Result<Words, AllocError>
    ensures { IfOk result (λ words. string_bytes words.text ≡ whole_text
        (restart_text happened.now.after.applied happened.now.effect.opened)) }
{
    let Some((records, bytes)) = happened.effect.opened else {
        return Words::whole(alloc, b"already running".as_slice());
    };
    let applied = happened.after.applied;
    let text = format!(in alloc; "records {records}, cut {bytes}, applied {applied}")?;
    Words::whole(alloc, text.as_bytes())
}

/// The words for a stop within a step: how many bytes are kept.
fn cut_words(alloc: Global, happened: &Happened) -> Result<Words, AllocError>
    ensures { IfOk result (λ words. string_bytes words.text
        ≡ whole_text (cut_text happened.now.before happened.now.after)) }
{
    let kept = happened.after.stored.saturating_sub(happened.before.stored);
    let text = format!(in alloc; "stopped, {kept} bytes kept")?;
    Words::whole(alloc, text.as_bytes())
}

/// The words for what a step did.
fn step_words(alloc: Global, happened: &Happened) -> Result<Words, AllocError>
    ensures { IfOk result (λ words. string_bytes words.text
        ≡ whole_text (step_text happened.now)) }
{
    if happened.is_unheard() {
        return Words::whole(alloc, b"not heard".as_slice());
    }
    match happened.effect.dropped {
        Dropped::Full => Words::whole(alloc, b"pending full".as_slice()),
        Dropped::No | Dropped::Foreign => taken_words(alloc, happened),
    }
}

/// The words for the reply that a task took, or else for the record that a node wrote.
fn taken_words(alloc: Global, happened: &Happened) -> Result<Words, AllocError>
    ensures { IfOk result (λ words. string_bytes words.text
        ≡ whole_text (taken_or_written happened.now happened.now.effect.taken)) }
{
    match happened.effect.taken {
        Some(answer) => reply_words(alloc, answer),
        None => record_words(alloc, happened),
    }
}

/// The words for the record that a step wrote, and for how many actions its node has then applied,
/// if these are more than before.
fn record_words(alloc: Global, happened: &Happened) -> Result<Words, AllocError>
    ensures { IfOk result (λ words. string_bytes words.text
        ≡ whole_text (written_text happened.now.before.applied happened.now.after.applied
        (record_of happened.now))) }
{
    let Some(record) = record_of(happened) else {
        return Ok(Words::none(alloc));
    };
    let record = RecordText { record };
    let applied = happened.after.applied;
    let text = if applied > happened.before.applied {
        format!(in alloc; "{record}, applied {applied}")?
    } else {
        format!(in alloc; "{record}")?
    };
    Words::whole(alloc, text.as_bytes())
}

/// The record that a step wrote, if it wrote one: then the device holds more than before.
fn record_of(happened: &Happened) -> Option<Rec>
    ensures { result ≡ record_of happened.now }
{
    if !happened.has_written() {
        return None;
    }
    let Some(packet) = &happened.packet else {
        return None;
    };
    match delivered_by(&happened.event) {
        Some(_) => record_for(packet.body()),
        None => record_before(packet.body()),
    }
}

/// The words for a reply that a task takes: `reply 1 value 5`.
fn reply_words(alloc: Global, answer: Answer) -> Result<Words, AllocError>
    ensures { (happened : Happened) → IfOk result (λ words. string_bytes words.text
        ≡ whole_text (taken_or_written happened (Some answer))) }
{
    let number = answer.number;
    let reply = ReplyText {
        reply: answer.reply,
    };
    let text = format!(in alloc; "reply {number} {reply}")?;
    Words::whole(alloc, text.as_bytes())
}

/// The words for a line that was refused: `refused 5 NotRunning`.
pub fn refusal_words(alloc: Global, fault: &Fault) -> Result<Words, AllocError>
    ensures { IfOk result (λ words. string_bytes words.text
        ≡ whole_text (refusal_text fault.now)) }
{
    let code = fault.code();
    let name = fault.name();
    let text = format!(in alloc; "refused {code} {name}")?;
    Words::whole(alloc, text.as_bytes())
}

/// The words for how many actions a node has applied: `node 1 applied 3`.
pub fn applied_words(alloc: Global, node: NodeId, applied: u16) -> Result<Words, AllocError>
    ensures { IfOk result (λ words. string_bytes words.text
        ≡ fitted_text (applied_line_of node applied)) }
{
    node_words(
        alloc,
        NodeLine {
            node,
            state: NodeState::Applied(u32::from(applied)),
        },
    )
}

/// The words for a stopped node: `node 1 stopped`.
pub fn stopped_words(alloc: Global, node: NodeId) -> Result<Words, AllocError>
    ensures { IfOk result (λ words. string_bytes words.text
        ≡ fitted_text (stopped_line_of node)) }
{
    node_words(
        alloc,
        NodeLine {
            node,
            state: NodeState::Stopped,
        },
    )
}

/// The words of a node's line.
fn node_words(alloc: Global, line: NodeLine) -> Result<Words, AllocError>
    ensures { IfOk result (λ words. string_bytes words.text
        ≡ fitted_text (node_line_of line.node line.state)) }
{
    let text = format!(in alloc; "{line}")?;
    Words::fitted(alloc, text.as_bytes())
}

/// The words for the image of a node's state.
pub fn image_words(alloc: Global, image: &[u8]) -> Result<Words, AllocError>
    ensures { IfOk result (λ words. string_bytes words.text ≡ image_text image.now) }
{
    Words::whole(alloc, image)
}
