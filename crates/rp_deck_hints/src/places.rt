//! The lines of a text and the words of a line, by what is after them.

ghost use Rattle.std.specs.Prelude.{◌≡◌, ◌≤◌, drop, length, not, take};
ghost use Rattle.std.specs.List.{prefix_len};
ghost use Rattle.rp_deck_hints.specs.Places.{after_line, after_lines, first_line, word_at};
ghost use Rattle.rp_deck.specs.rp_words.specs.LineEnds.{line_end, without_return};
ghost use Rattle.rp_deck.specs.rp_words.specs.Words.{is_blank, without_blanks};

/// How many bytes are before the first line feed.
fn length_of_line(bytes: &[u8]) -> usize
    ensures value { result ≡ line_end bytes.now }
    ensures within { result ≤ length bytes.now }
{
    bytes.iter().take_while(|byte| **byte != b'\n').count()
}

/// The line without the return at its end, if there is one.
fn without_return(line: &[u8]) -> &[u8]
    ensures value { result.now ≡ without_return line.now }
    ensures within { length result.now ≤ length line.now }
{
    line.strip_suffix(b"\r".as_slice()).unwrap_or(line)
}

/// The bytes of the first line, without its end.
pub fn first_line(bytes: &[u8]) -> &[u8]
    ensures value { result.now ≡ first_line bytes.now }
    ensures within { length result.now ≤ length bytes.now }
{
    let end = length_of_line(bytes);
    if end == bytes.len() {
        return bytes;
    }
    without_return(&bytes[..end])
}

/// The bytes after the first line.
fn after_line(bytes: &[u8]) -> &[u8]
    ensures value { result.now ≡ after_line bytes.now }
    ensures within { length result.now ≤ length bytes.now }
{
    let end = length_of_line(bytes);
    if end == bytes.len() {
        return &[];
    }
    &bytes[end + 1..]
}

/// The bytes after this many lines.
pub fn after_lines(text: &[u8], count: u32) -> &[u8]
    ensures value { result.now ≡ after_lines text.now count }
    ensures within { length result.now ≤ length text.now }
{
    let mut rest = text;
    for _ in 0..count {
        rest = after_line(rest);
    }
    rest
}

/// Whether the byte separates words: a space or a tab.
fn is_blank(byte: u8) -> bool
    ensures { result ≡ is_blank byte }
{
    byte == b' ' || byte == b'\t'
}

/// How many blanks are before the first word.
fn blanks_in_front(bytes: &[u8]) -> usize
    ensures value { result ≡ prefix_len is_blank bytes.now }
    ensures within { result ≤ length bytes.now }
{
    bytes.iter().take_while(|byte| is_blank(**byte)).count()
}

/// How many bytes are before the first blank.
fn length_of_word(bytes: &[u8]) -> usize
    ensures value { result ≡ prefix_len (λ byte. not (is_blank byte)) bytes.now }
    ensures within { result ≤ length bytes.now }
{
    bytes.iter().take_while(|byte| !is_blank(**byte)).count()
}

/// The bytes from the first word on.
pub fn from_word(bytes: &[u8]) -> &[u8]
    ensures value { result.now ≡ without_blanks bytes.now }
    ensures within { length result.now ≤ length bytes.now }
{
    &bytes[blanks_in_front(bytes)..]
}

/// The bytes up to the first blank, and those from it on.
pub fn split_word(bytes: &[u8]) -> (&[u8], &[u8])
    ensures word { result.0.now
        ≡ take (prefix_len (λ byte. not (is_blank byte)) bytes.now) bytes.now }
    ensures rest { result.1.now
        ≡ drop (prefix_len (λ byte. not (is_blank byte)) bytes.now) bytes.now }
    ensures within { length result.1.now ≤ length bytes.now }
{
    bytes.split_at(length_of_word(bytes))
}

/// The first word of the line of this number.
pub fn word_one(text: &[u8], line: u32) -> &[u8]
    ensures { result.now ≡ word_at text.now line 1 }
{
    let line = first_line(after_lines(text, line.saturating_sub(1)));
    let (word, _) = split_word(from_word(line));
    word
}
