//! A text within HTML.

ghost use Rattle.std.specs.Prelude.{◌≡◌, ◌++◌, OnOk, flat_map, string_bytes};
ghost use Rattle.rp_history.specs.Pages.{escaped, escaped_text};

use std::alloc::AllocError;

/// Adds a text as it is written in HTML, where none of its bytes begins an element.
pub fn add_escaped_text(text: &mut String, bytes: &[u8]) -> Result<(), AllocError>
    // claim: A text is written in HTML byte for byte, `&` and `<` by their names, and a blank for what
    //   is not printed and does not end a line
    ensures { OnOk result (string_bytes text.new ≡ string_bytes text.old ++ escaped_text bytes.now) }
{
    for byte in bytes {
        add_escaped(text, *byte)?;
    }
    Ok(())
}

/// Adds a byte.
fn add_escaped(text: &mut String, byte: u8) -> Result<(), AllocError>
    ensures { OnOk result (string_bytes text.new ≡ string_bytes text.old ++ escaped byte) }
{
    match byte {
        b'&' => text.push_str("&amp;"),
        b'<' => text.push_str("&lt;"),
        b'\n' | 33..=126 => text.push(char::from(byte)),
        _ => text.push_str(" "),
    }
}
