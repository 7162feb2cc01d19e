//! Reads a deck and prints its packages.

ghost use Rattle.std.specs.Prelude.{IfErr, IfOk, OnErr};
ghost use Rattle.rp_bind_run.specs.Prints.{BindingBegins, FailsBinding, PrintsBinding};

use rp_base::Fault;
use rp_bind::{Binding, Language, bind};
use rp_script::{read_whole, write_out, write_whole};
use std::alloc::Global;
use std::io::{Read, Write};

/// Prints the packages of the deck that the reader holds, or returns why it has none. If its bytes
/// declare nothing, nothing is written, and the fault has the first bad line and the first reason on
/// it. Any other fault is `OutOfMemory` or `Io`, after which nothing or a prefix of the packages was
/// written.
pub fn bind_deck<R: Read, W: Write>(
    alloc: Global,
    reader: &mut R,
    language: Language,
    writer: &mut W,
) -> Result<Option<String>, Fault>
    // claim (bound): What is written is the packages of what all bytes of the reader declare; or
    //   nothing, and the line is returned that says which name of the deck is none of Ada, and why
    ensures bound { IfOk result (PrintsBinding language (R.remaining reader.old)
        (W.contents writer.old) (W.contents writer.new)) }
    // claim (begun, fault): If the bytes declare nothing, nothing is written, and the fault has the
    //   first bad line and the first reason on it. After every other fault nothing was written, or a
    //   prefix of the packages
    ensures begun { OnErr result (BindingBegins language (R.remaining reader.old)
        (W.contents writer.old) (W.contents writer.new)) }
    ensures fault { IfErr result (FailsBinding (R.remaining reader.old)
        (W.contents writer.old) (W.contents writer.new)) }
{
    let text = read_whole(alloc, reader)?;
    let binding = bind(alloc, &text, language)?;
    match binding {
        Binding::Packages(packages) => {
            write_whole(writer, packages.as_bytes())?;
            write_out(writer)?;
            Ok(None)
        }
        Binding::Refused(line) => Ok(Some(line)),
    }
}
