//! The part of a deck's text that declares.

ghost use Rattle.std.specs.Prelude.{◌≡◌, ◌≤◌, length, take};
ghost use Rattle.rp_deck.specs.rp_words.specs.Words.{is_blank, without_blanks};
ghost use Rattle.std.specs.List.{prefix_len};
ghost use Rattle.rp_handles.specs.DeclaredParts.{begins_script, declared_len, declared_part};

/// What a deck declares: its text before the first line that begins with `script`, after blanks or
/// none, or all of it.
pub(crate) fn declared_part(text: &[u8]) -> &[u8]
    ensures { result.now ≡ declared_part text.now }
{
    &text[..declared_len(text)]
}

/// How many bytes are before the first line that begins so, or all.
fn declared_len(text: &[u8]) -> usize
    ensures value { result ≡ declared_len text.now }
    ensures within { result ≤ length text.now }
{
    for place in 0..text.len() {
        let (_, rest) = text.split_at(place);
        if begins_script(rest) {
            return place;
        }
    }
    text.len()
}

/// Whether the bytes begin with the end of a line, and the next line with `script`, after blanks or
/// none.
fn begins_script(bytes: &[u8]) -> bool
    ensures { result ≡ begins_script bytes.now }
{
    let Some((first, line)) = bytes.split_first() else {
        return false;
    };
    *first == b'\n' && without_blanks(line).starts_with(b"script")
}

/// The bytes from the first on that is no space and no tab.
fn without_blanks(bytes: &[u8]) -> &[u8]
    ensures { result.now ≡ without_blanks bytes.now }
{
    &bytes[blanks_in_front(bytes)..]
}

/// How many spaces and tabs are in front.
fn blanks_in_front(bytes: &[u8]) -> usize
    ensures value { result ≡ prefix_len is_blank bytes.now }
    ensures within { result ≤ length bytes.now }
{
    bytes.iter().take_while(|byte| is_blank(**byte)).count()
}

/// Whether the byte is a space or a tab.
fn is_blank(byte: u8) -> bool
    ensures { result ≡ is_blank byte }
{
    byte == b' ' || byte == b'\t'
}
