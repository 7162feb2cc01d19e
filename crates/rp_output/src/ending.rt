//! How a program ends, and what it reports.

ghost use Rattle.std.specs.Prelude.{◌≡◌, IfSome, OnOk};
ghost use Rattle.std.specs.Io.KnownBytes.{Appends};
ghost use Rattle.rp_output.specs.Endings.{RefusesFor, ReportsFault, no_run_status, status_of};

use crate::fault_message::tell;
use crate::stream::write_out;
use rp_base::Fault;
use std::fmt::Display;
use std::io::Write;

/// The streams from which a program reads its deck, to which it prints, and on which it reports its
/// faults.
#[derive(Drop)]
pub struct Streams<R: Drop, W: Drop, E: Drop> {
    pub reader: R,
    pub writer: W,
    pub errors: E,
}

/// How a program ends.
#[derive(Drop)]
pub struct Ending {
    /// The status that it ends with.
    pub status: u8,
    /// Whether the program's report was written.
    pub reported: Result<(), Fault>,
}

/// Why the words of the command line ask for no run.
#[derive(Clone, Copy)]
pub enum NoRun {
    /// Memory ran out while they were read.
    OutOfMemory,
    /// They ask for a text to be printed: help, or the version.
    Help,
    /// They are wrong.
    Mistake,
}

impl NoRun {
    /// The status that the program ends with.
    fn status(self) -> u8
        ensures { result ≡ no_run_status self }
    {
        match self {
            NoRun::OutOfMemory => 4,
            NoRun::Help => 0,
            NoRun::Mistake => 2,
        }
    }
}

/// Reports why the words are wrong, or prints the text that they ask for.
pub fn refuse<D: Display, R: Drop, W: Write + Drop, E: Write + Drop>(
    why: NoRun,
    text: &D,
    streams: &mut Streams<R, W, E>,
) -> Ending
    ensures refused { RefusesFor why
        (W.contents streams.old.writer) (W.contents streams.new.writer)
        (E.contents streams.old.errors) (E.contents streams.new.errors) result }
    ensures mistake { IfSome (D.output text.now) (λ bytes. why ≡ NoRun.Mistake
        → OnOk result.reported
        (Appends (E.contents streams.old.errors) (E.contents streams.new.errors) bytes)) }
    ensures help { IfSome (D.output text.now) (λ bytes. why ≡ NoRun.Help → result.status ≡ 0
        → Appends (W.contents streams.old.writer) (W.contents streams.new.writer) bytes) }
{
    let reported = match why {
        NoRun::OutOfMemory => return fail(&mut streams.errors, Fault::OutOfMemory),
        NoRun::Mistake => explain(&mut streams.errors, text),
        NoRun::Help => {
            if write!(streams.writer, "{text}").is_err()
                || write_out(&mut streams.writer).is_err()
            {
                return fail(&mut streams.errors, Fault::Io);
            }
            Ok(())
        }
    };
    Ending {
        status: why.status(),
        reported,
    }
}

/// Writes why the words are wrong.
fn explain<D: Display, E: Write>(errors: &mut E, text: &D) -> Result<(), Fault>
    ensures { IfSome (D.output text.now) (λ bytes. OnOk result
        (Appends (E.contents errors.old) (E.contents errors.new) bytes)) }
{
    match write!(errors, "{text}") {
        Ok(()) => Ok(()),
        Err(_) => Err(Fault::Io),
    }
}

/// Reports a fault. If its line cannot be written whole, a prefix of it is.
pub fn fail<E: Write>(errors: &mut E, fault: Fault) -> Ending
    ensures status { result.status ≡ status_of fault }
    ensures reported { ReportsFault fault (E.contents errors.old) (E.contents errors.new) result }
{
    let reported = tell(&fault, errors);
    Ending {
        status: status(&fault),
        reported,
    }
}

/// The status that a program ends with: 3 if the deck is bad, and 4 for every other fault.
pub fn status(fault: &Fault) -> u8
    // claim: The status of a fault is 3 for a bad deck, and 4 for every other
    ensures { result ≡ status_of fault.now }
{
    match fault {
        Fault::BadDeck { .. } => 3,
        _ => 4,
    }
}
