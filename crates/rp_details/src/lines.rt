//! One line more of a text.

ghost use Rattle.std.specs.Prelude.{◌≡◌, ◌++◌, OnOk};
ghost use Rattle.rp_run.specs.rp_output.specs.FaultMessage.{with_line_feed};

use std::alloc::AllocError;

/// Adds a line, and its end.
pub fn add_line(text: &mut Vec<u8>, line: &str) -> Result<(), AllocError>
    ensures { OnOk result (text.new.items ≡ text.old.items ++ with_line_feed line.now) }
{
    text.extend_from_slice(line.as_bytes())?;
    Ok(text.push(b'\n')?)
}
