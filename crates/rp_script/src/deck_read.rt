//! Reads a deck from a reader.

ghost use Rattle.std.specs.Prelude.{◌≡◌, ◌≤◌, [], length, IfErr, IfOk, IfSome, OnOk};
ghost use Rattle.rp_output.specs.Stream.{IsReadFault};
ghost use Rattle.rp_script.specs.Faults.{IsProgramFault};
ghost use Rattle.rp_script.specs.Given.{IsMeant, MeansDeck, most_bytes};
ghost use Rattle.rp_deck.specs.Live.{IsDeckFor};

use rp_base::Fault;
use rp_deck::{Deck, Mode, read_deck};
use rp_output::is_interrupted;
use std::alloc::Global;
use std::io::Read;

/// The most bytes of a deck.
pub const MOST_BYTES: usize = 1_048_576;

/// The most reads that a deck takes.
const MOST_READS: u32 = 2_097_152;

/// How many bytes are read at a time.
const CHUNK: usize = 4096;

/// Reads the deck that the reader's bytes mean in a mode. If they mean none, the fault has the
/// first bad line and the first reason on it. More than 1,048,576 bytes are never read as a deck.
/// The bytes are put into `text`, which is to be kept until the deck's run has ended: once a block
/// of more than 128 KiB is freed, glibc's `malloc` takes later blocks of up to that size from its
/// heap, where they are copied when they grow.
pub fn read_given<R: Read>(
    alloc: Global,
    reader: &mut R,
    mode: Mode,
    text: &mut Vec<u8>,
) -> Result<Deck, Fault>
    // claim: All bytes that the reader gives, at most 1,048,576, mean a deck, which is read and is
    //   right, or the fault has the first bad line that they mean and the first reason on it, for a
    //   script and for live mode; more bytes are neither a deck nor a bad one
    ensures deck { IfOk result (MeansDeck mode (R.remaining reader.old)) }
    ensures taken { IfOk result (IsDeckFor mode) }
    ensures meant { IfErr result (IsMeant mode (R.remaining reader.old)) }
    ensures fault { IfErr result IsProgramFault }
{
    *text = read_whole(alloc, reader)?;
    read_deck(alloc, text, mode)
}

/// Reads all that the reader gives; a read that is interrupted is made again. `Io` if a read fails
/// otherwise, if there are more than 1,048,576 bytes, or if the end is not reached within 2,097,152
/// reads.
pub fn read_whole<R: Read>(alloc: Global, reader: &mut R) -> Result<Vec<u8>, Fault>
    ensures whole { IfOk result (λ bytes. IfSome (R.remaining reader.old) (λ all. bytes.items
        ≡ all)) }
    ensures size { IfOk result (λ bytes. length bytes.items ≤ most_bytes) }
    ensures fault { IfErr result IsReadFault }
{
    let mut bytes = Vec::new(alloc);
    read_into(reader, &mut bytes)?;
    Ok(bytes)
}

/// Reads all that the reader gives into a vector that is empty, as `read_whole`.
fn read_into<R: Read>(reader: &mut R, bytes: &mut Vec<u8>) -> Result<(), Fault>
    requires { bytes.old.items ≡ [] }
    ensures whole { OnOk result (IfSome (R.remaining reader.old) (λ all. bytes.new.items ≡ all)) }
    ensures size { OnOk result (length bytes.new.items ≤ most_bytes) }
    ensures fault { IfErr result IsReadFault }
{
    for _ in 0..MOST_READS {
        let mut chunk = [0; CHUNK];
        let count = match reader.read(&mut chunk) {
            Ok(count) => count,
            Err(error) if is_interrupted(&error) => continue,
            Err(_) => return Err(Fault::Io),
        };
        if count == 0 {
            return Ok(());
        }
        if count > MOST_BYTES - bytes.len() {
            return Err(Fault::Io);
        }
        bytes.extend_from_slice(&chunk[..count])?;
    }
    Err(Fault::Io)
}
