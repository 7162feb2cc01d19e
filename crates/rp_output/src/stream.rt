//! Writes what a run prints.

ghost use Rattle.std.specs.Prelude.{◌≡◌, ◌↔◌, ◌++◌, [], ◌∷◌, IfSome, IfErr, IsTrue};
ghost use Rattle.std.specs.IoError.{error_kind};
ghost use Rattle.std.specs.Io.{WritesAtMost};
ghost use Rattle.std.specs.Io.KnownBytes.{Keeps, WriteAppends};
ghost use Rattle.rp_output.specs.Faults.{IsRunFault};
ghost use Rattle.rp_output.specs.Printed.{reply_line_of};
ghost use Rattle.rp_output.specs.Stream.{IsReadFault, IsWriteFault, Writes};

use crate::printed::ReplyLine;
use crate::short_line::ShortLine;
use rp_base::Fault;
use std::alloc::Global;
use std::fmt::{Display, InlineText, Write as _};
use std::io;
use std::io::{ErrorKind, Write};

/// The length of most lines, with their ends, is at most this.
const USUAL_LINE: usize = 80;

/// The length of each line that is reported, with its end, is at most this.
const MOST_REPORTED: usize = 256;

/// The most bytes of a task's name in a line that is put together in place.
const MOST_OF_NAME: usize = 16;

/// Whether a signal interrupted a read or a write, which is then made again: nothing was read or
/// written.
pub fn is_interrupted(error: &io::Error) -> bool
    ensures { IsTrue result ↔ (error_kind error.now ≡ ErrorKind.Interrupted) }
{
    error.kind() == ErrorKind::Interrupted
}

/// Writes some of these bytes, of which there is one at least. Returns how many were written, 0 if
/// the write was interrupted. `Io` if it fails otherwise or writes nothing.
fn write_some<W: Write>(writer: &mut W, bytes: &[u8]) -> Result<usize, Fault>
    ensures bound { WritesAtMost result bytes.now }
    ensures bytes { WriteAppends (W.contents writer.old) (W.contents writer.new) result bytes.now }
    ensures fault { IfErr result IsWriteFault }
{
    match writer.write(bytes) {
        Ok(0) => Err(Fault::Io),
        Ok(count) => Ok(count),
        Err(error) if is_interrupted(&error) => Ok(0),
        Err(_) => Err(Fault::Io),
    }
}

/// Writes all bytes; a write that is interrupted is made again. `Io` if a write fails otherwise or
/// writes nothing, and then a prefix of them was written.
pub fn write_whole<W: Write>(writer: &mut W, bytes: &[u8]) -> Result<(), Fault>
    ensures written { Writes (W.contents writer.old) (W.contents writer.new) bytes.now result }
    ensures fault { IfErr result IsWriteFault }
{
    let mut written = 0;
    for _ in 0..u64::MAX {
        if written >= bytes.len() {
            return Ok(());
        }
        written += write_some(writer, &bytes[written..])?;
    }
    Err(Fault::Io)
}

/// Flushes the bytes that are still in a buffer of the writer; a flush that is interrupted is made
/// again. `Io` if that fails otherwise.
pub fn write_out<W: Write>(writer: &mut W) -> Result<(), Fault>
    ensures kept { Keeps (W.contents writer.old) (W.contents writer.new) }
    ensures fault { IfErr result IsRunFault }
{
    for _ in 0..u64::MAX {
        match writer.flush() {
            Ok(()) => return Ok(()),
            Err(error) if is_interrupted(&error) => {}
            Err(_) => return Err(Fault::Io),
        }
    }
    Err(Fault::Io)
}

/// Writes a line and its end.
pub fn print<W: Write, D: Display + Drop>(
    alloc: Global,
    writer: &mut W,
    line: D,
) -> Result<(), Fault>
    ensures printed { IfSome (D.output line) (λ text.
        Writes (W.contents writer.old) (W.contents writer.new) (text ++ 10 ∷ []) result) }
    ensures fault { IfErr result IsReadFault }
{
    let mut text = String::with_capacity(alloc, USUAL_LINE)?;
    writeln!(text, "{line}")?;
    write_whole(writer, text.as_bytes())
}

/// As `print`, of the line of a reply. It takes no memory for a task's name of at most 16 bytes,
/// which no name of a deck exceeds.
pub fn print_reply_line<W: Write>(
    alloc: Global,
    writer: &mut W,
    line: ReplyLine<'_>,
) -> Result<(), Fault>
    ensures printed { Writes (W.contents writer.old) (W.contents writer.new)
        (reply_line_of line.entry.task.now line.entry.number line.entry.reply ++ 10 ∷ []) result }
    ensures fault { IfErr result IsReadFault }
{
    if line.task.len() > MOST_OF_NAME {
        return print(alloc, writer, line);
    }
    let mut text = ShortLine::new();
    text.put_reply_line(&line);
    write_whole(writer, text.as_slice())
}

/// As `print`, but takes no memory, for a line of at most 256 bytes with its end. `Io` if a write
/// fails or the line is longer.
pub fn report<W: Write, D: Display + Drop>(writer: &mut W, line: D) -> Result<(), Fault>
    ensures printed { IfSome (D.output line) (λ text.
        Writes (W.contents writer.old) (W.contents writer.new) (text ++ 10 ∷ []) result) }
    ensures fault { IfErr result IsWriteFault }
{
    let mut text = InlineText::<MOST_REPORTED>::new();
    match writeln!(text, "{line}") {
        Ok(()) => write_whole(writer, text.as_str().as_bytes()),
        Err(_) => Err(Fault::Io),
    }
}
