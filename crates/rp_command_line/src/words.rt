//! What the program does with words of its command line that ask for no run.

ghost use Rattle.std.specs.Prelude.{◌≡◌, IfOk};
ghost use Rattle.clap.specs.Values.{kind_of};
ghost use Rattle.rp_command_line.specs.RefusedWords.{IsUnread, RefusesAs, no_run_of};

use clap::error::ErrorKind;
use clap::{Command, Error};
use rp_output::{Ending, NoRun, Streams, refuse};
use std::alloc::AllocError;
use std::io::Write;
use std::{env, io};

/// The program's version.
pub const VERSION: &str = "1.0.0";

/// The words of the command line.
pub fn given_words(rt: &HostRuntime) -> io::Result<Vec<String>> {
    let words = env::args(rt)?;
    Ok(words.collect(rt.alloc())?)
}

/// Reports why the words are wrong, or prints the help that they ask for.
pub fn refuse_words<R: Drop, W: Write + Drop, E: Write + Drop>(
    error: &Error,
    streams: &mut Streams<R, W, E>,
) -> Ending
    ensures refused { RefusesAs (kind_of error.now)
        (W.contents streams.old.writer) (W.contents streams.new.writer)
        (E.contents streams.old.errors) (E.contents streams.new.errors) result }
{
    refuse(no_run(error), error, streams)
}

/// Reports that the words could not be read: one of them is not UTF-8, or memory ran out. The
/// command line gives the report its usage.
pub fn refuse_unread<R: Drop, W: Write + Drop, E: Write + Drop>(
    error: &io::Error,
    command: Result<Command<'_>, AllocError>,
    streams: &mut Streams<R, W, E>,
) -> Ending
    // claim: Words of which one is not UTF-8 are refused as wrong words, or as a fault if there is
    //   no memory for that
    ensures refused { (why : ErrorKind) × IsUnread why × RefusesAs why
        (W.contents streams.old.writer) (W.contents streams.new.writer)
        (E.contents streams.old.errors) (E.contents streams.new.errors) result }
{
    refuse_words(&unread_words(error, command), streams)
}

/// The refusal of words of which one is not UTF-8, or `OutOfMemory` if there is no memory for them
/// or for it.
fn unread_words(error: &io::Error, command: Result<Command<'_>, AllocError>) -> Error
    ensures { IsUnread (kind_of result) }
{
    if error.kind() == io::ErrorKind::OutOfMemory {
        return Error::from(AllocError);
    }
    match not_utf8(command) {
        Ok(error) => error,
        Err(error) => Error::from(error),
    }
}

/// The error that a word is not UTF-8.
fn not_utf8(command: Result<Command<'_>, AllocError>) -> Result<Error, AllocError>
    ensures { IfOk result (λ error. kind_of error ≡ ErrorKind.InvalidValue) }
{
    command?.error(ErrorKind::InvalidValue, "an argument is not valid UTF-8")
}

/// Why words that could not be read ask for no run.
fn no_run(error: &Error) -> NoRun
    ensures { result ≡ no_run_of (kind_of error.now) }
{
    match error.kind() {
        ErrorKind::OutOfMemory => NoRun::OutOfMemory,
        ErrorKind::DisplayHelp | ErrorKind::DisplayVersion => NoRun::Help,
        _ => NoRun::Mistake,
    }
}
