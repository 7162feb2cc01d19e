//! Words within a drawing.

ghost use Rattle.std.specs.Prelude.{◌≡◌, ◌≤◌, ◌*◌, [], ◌∷◌, ◌++◌, All, IfOk, OnOk, length, string_bytes};
ghost use Rattle.rp_drawing.specs.Words.{IsPlain, dots, fitted_text, joined_lines, plain, text_line, text_lines, whole_text};

use std::alloc::{AllocError, Global};

/// The most letters of a line of words, before two dots.
pub const MOST_LETTERS: usize = 36;

/// Words of ASCII that are drawn as they are.
#[derive(Drop)]
pub struct Words {
    text: String,
    ghost plain: { All IsPlain (string_bytes text) },
}

impl Words {
    /// No words.
    pub fn none(alloc: Global) -> Self
        ensures { string_bytes result.text ≡ [] }
    {
        Words {
            text: String::new(alloc),
        }
    }

    /// The beginning of a text, with two dots where some of it is left out. A byte that has a
    /// meaning of its own in a drawing, and one that is no letter, digit or sign, are left blank.
    pub fn fitted(alloc: Global, bytes: &[u8]) -> Result<Self, AllocError>
        // claim: The words for a text are its first 36 bytes, with a blank for each that has a meaning
        //   of its own in a drawing or is not printed, and two dots where it has more
        ensures { IfOk result (λ words. string_bytes words.text ≡ fitted_text bytes.now) }
    {
        let count = bytes.len().min(MOST_LETTERS);
        let mut text = letters(alloc, &bytes[..count])?;
        add_dots(&mut text, count < bytes.len())?;
        Ok(Words { text })
    }

    /// A whole text, however long, with the blanks of `fitted`. Only what an actor does is drawn on
    /// several lines.
    pub fn whole(alloc: Global, bytes: &[u8]) -> Result<Self, AllocError>
        // claim: The words for a whole text are all its bytes, with a blank for each that has a meaning
        //   of its own in a drawing or is not printed
        ensures { IfOk result (λ words. string_bytes words.text ≡ whole_text bytes.now) }
    {
        let text = letters(alloc, bytes)?;
        Ok(Words { text })
    }

    /// How many lines of 36 letters they take.
    #[tactic(auto, using(crate::proofs::LineLemmas::joined_all))]
    pub fn lines(&self) -> u64
        // claim: Words take as many lines as their letters fill, 36 to a line, and these lines, put
        //   together in order, are the whole text
        ensures count { result ≡ text_lines (string_bytes self.now.text) }
        ensures whole { joined_lines (string_bytes self.now.text) result
            ≡ string_bytes self.now.text }
    {
        let count = self.text.len();
        let full = count / MOST_LETTERS;
        let rest = usize::from(count % MOST_LETTERS != 0);
        (full + rest) as u64
    }

    /// The line of this number, from 0: 36 letters of the text, and fewer where it ends.
    pub fn line(&self, alloc: Global, number: u64) -> Result<Self, AllocError>
        requires { 36 * number ≤ length (string_bytes self.now.text) }
        // claim: The line of a number, from 0, is the 36 letters that come after 36 times as many, or
        //   those that are left
        ensures { IfOk result (λ words. string_bytes words.text
            ≡ text_line (string_bytes self.now.text) number) }
    {
        let bytes = self.text.as_bytes();
        let start = MOST_LETTERS * number as usize;
        let count = (bytes.len() - start).min(MOST_LETTERS);
        let words = Words::whole(alloc, &bytes[start..start + count])?;
        Ok(words)
    }

    /// Its text.
    pub fn as_str(&self) -> &str
        ensures { result.now ≡ string_bytes self.now.text }
    {
        self.text.as_str()
    }
}

/// The letters of these bytes.
fn letters(alloc: Global, bytes: &[u8]) -> Result<String, AllocError>
    ensures plain { IfOk result (λ text. All IsPlain (string_bytes text)) }
    ensures letters { IfOk result (λ text. string_bytes text ≡ whole_text bytes.now) }
{
    let mut text = String::new(alloc);
    for byte in bytes {
        add_letter(&mut text, *byte)?;
    }
    Ok(text)
}

/// Adds the byte, or a blank.
fn add_letter(text: &mut String, byte: u8) -> Result<(), AllocError>
    requires { All IsPlain (string_bytes text.old) }
    ensures plain { OnOk result (All IsPlain (string_bytes text.new)) }
    ensures added { OnOk result (string_bytes text.new ≡ string_bytes text.old ++ plain byte ∷ []) }
{
    text.push(char::from(plain(byte)))
}

/// Adds two dots, where some of the text is left out.
fn add_dots(text: &mut String, is_cut: bool) -> Result<(), AllocError>
    requires { All IsPlain (string_bytes text.old) }
    ensures plain { OnOk result (All IsPlain (string_bytes text.new)) }
    ensures added { OnOk result (string_bytes text.new ≡ string_bytes text.old ++ dots is_cut) }
{
    if is_cut {
        return text.push_str("..");
    }
    Ok(())
}

/// The byte, or a blank.
fn plain(byte: u8) -> u8
    ensures plain { IsPlain result }
    ensures value { result ≡ plain byte }
{
    match byte {
        b'&' | b'<' => b' ',
        33..=126 => byte,
        _ => b' ',
    }
}
