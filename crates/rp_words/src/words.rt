//! The words of a line, and the readers of them.

ghost use Rattle.std.specs.Prelude.{◌≡◌, ◌≤◌, ◌<◌, ◌==◌, true, length, map, nat_lt, not, option_map, position, IfNone, IfOk, IfSome};
ghost use Rattle.std.specs.Char.{is_ascii_alphabetic};
ghost use Rattle.std.specs.List.{find, prefix_len, list_all};
ghost use Rattle.std.specs.Str.{bytes_eq};
ghost use Rattle.rp_words.specs.Words.{truth_named, first_named, begins_with, is_blank, is_of_name, is_name, IsName, number_of, without_blanks, is_at_end};
ghost use Rattle.rp_words.specs.Numbers.{size_of};
ghost use Rattle.rp_words.specs.Reading.{Gives, word_at, end_at, name_at, integer_at, number_at, name_of, dotted_of};

use rp_base::DeckReason;
use std::str;

/// The most letters, digits and underscores of a name.
const MOST_OF_NAME: usize = 16;

/// Whether the byte separates words: a space or a tab.
fn is_blank(byte: u8) -> bool
    ensures { result ≡ is_blank byte }
{
    byte == b' ' || byte == b'\t'
}

/// How many blanks are before the first word.
fn blanks_in_front(bytes: &[u8]) -> usize
    ensures value { result ≡ prefix_len is_blank bytes.now }
    ensures within { result ≤ length bytes.now }
{
    bytes.iter().take_while(|byte| is_blank(**byte)).count()
}

/// How many bytes in front are above a space, as all are in most words.
fn length_above_space(bytes: &[u8]) -> usize
    ensures value { result ≡ prefix_len (nat_lt 32) bytes.now }
    ensures within { result ≤ length bytes.now }
{
    bytes.iter().take_while(|byte| **byte > b' ').count()
}

/// How many bytes are before the first blank.
fn length_of_word(bytes: &[u8]) -> usize
    ensures value { result ≡ prefix_len (λ byte. not (is_blank byte)) bytes.now }
    ensures within { result ≤ length bytes.now }
{
    let mut end = length_above_space(bytes);
    while end < bytes.len() {
        if is_blank(bytes[end]) {
            return end;
        }
        end += 1 + length_above_space(&bytes[end + 1..]);
    }
    end
}

/// Whether the word begins with a letter.
fn begins_with_letter(word: &[u8]) -> bool
    ensures { result ≡ begins_with is_ascii_alphabetic word.now }
{
    match word {
        [] => false,
        [first, ..] => first.is_ascii_alphabetic(),
    }
}

/// Whether the byte is allowed in a name: a letter, a digit or an underscore.
fn is_of_name(byte: u8) -> bool
    ensures { result ≡ is_of_name byte }
{
    byte.is_ascii_alphabetic() || byte.is_ascii_digit() || byte == b'_'
}

/// Whether each byte is allowed in a name.
fn are_of_name(word: &[u8]) -> bool
    ensures { result ≡ list_all is_of_name word.now }
{
    word.iter().all(|byte| is_of_name(*byte))
}

/// Whether the word has a name's form: a letter, and then at most 15 letters, digits or
/// underscores.
pub fn is_name(word: &[u8]) -> bool
    ensures { result ≡ is_name word.now }
{
    word.len() <= MOST_OF_NAME && begins_with_letter(word) && are_of_name(word)
}

/// The name that the word is.
pub fn read_name(word: &[u8]) -> Result<&str, DeckReason>
    ensures read { Gives (λ name. name.now) result (name_of word.now) }
    ensures name { IfOk result (λ name. (name.now ≡ word.now) × IsName name.now) }
{
    if !is_name(word) {
        return Err(DeckReason::BadName);
    }
    // SAFETY: a name is ASCII.
    Ok(unsafe { str::from_utf8_unchecked(word) })
}

/// How many bytes are before the first dot, if there is one.
fn place_of_dot(word: &[u8]) -> Option<usize>
    ensures place { result ≡ position (λ byte. byte == 46) word.now }
    ensures within { IfSome result (λ dot. dot < length word.now) }
{
    word.iter().position(|byte| *byte == b'.')
}

/// Reads two names with one dot between them.
#[tactic(auto, unfolding(crate::specs::Reading::dotted_of))]
pub fn read_dotted(word: &[u8]) -> Result<(&str, &str), DeckReason>
    ensures { Gives (λ names. (names.0.now, names.1.now)) result (dotted_of word.now) }
{
    let dot = place_of_dot(word).ok_or(DeckReason::BadName)?;
    let (first, rest) = word.split_at(dot);
    let (_, second) = rest.split_at(1);
    let first = read_name(first)?;
    let second = read_name(second)?;
    Ok((first, second))
}

/// The number that the digits write: one decimal digit or more, below 2^64.
fn read_digits(digits: &[u8]) -> Option<u64>
    ensures { result ≡ size_of digits.now }
{
    if digits.is_empty() {
        return None;
    }
    let mut size = 0u64;
    for byte in digits {
        if !byte.is_ascii_digit() {
            return None;
        }
        size = size.checked_mul(10)?.checked_add(u64::from(*byte - b'0'))?;
    }
    Some(size)
}

/// The number that the word is: an optional `-` and decimal digits, within 64 signed bits.
pub fn read_number(word: &[u8]) -> Option<i64>
    ensures { result ≡ number_of word.now }
{
    match word {
        [b'-', digits @ ..] => 0i64.checked_sub_unsigned(read_digits(digits)?),
        _ => i64::try_from(read_digits(word)?).ok(),
    }
}

/// Whether the word is this one.
pub fn is_word(word: &[u8], text: &[u8]) -> bool
    ensures { result ≡ bytes_eq word.now text.now }
{
    word == text
}

/// The first row of the table that has the word.
fn row_with<'t, 'w, T>(table: &'t [(&'w [u8], T)], word: &[u8]) -> Option<&'t (&'w [u8], T)>
    ensures { option_map (λ row. row.now) result
        ≡ find (λ row. bytes_eq word.now row.0.now) table.entry.now }
{
    table.iter().find(|row| is_word(word, row.0))
}

/// The value that the table has for the word, in the first row with that word.
pub fn named<T: Copy>(table: &[(&[u8], T)], word: &[u8]) -> Option<T>
    ensures { result ≡ first_named (map (λ row. (row.0.now, row.1)) table.now) word.now }
{
    let row = row_with(table, word)?;
    Some(row.1)
}

/// The truth value that the word names.
pub fn truth_named(word: &[u8]) -> Option<bool>
    ensures { result ≡ truth_named word.now }
{
    match word {
        b"true" => Some(true),
        b"false" => Some(false),
        _ => None,
    }
}

/// The words of a line that are still to be read.
#[derive(Drop)]
pub struct Words<'a> {
    rest: &'a [u8],
}

impl<'a> Words<'a> {
    ghost use Rattle.rp_words.specs.Words.{unread};

    /// The words of a line, which has no line feed.
    pub fn new(line: &'a [u8]) -> Self
        ensures { unread result ≡ line.entry.now }
    {
        Words { rest: line }
    }

    /// The bytes from the next word on.
    fn from_word(&self) -> &'a [u8]
        ensures { result.now ≡ without_blanks (unread self.now) }
    {
        &self.rest[blanks_in_front(self.rest)..]
    }

    /// Whether no word is left.
    pub fn is_at_end(&self) -> bool
        ensures { result ≡ is_at_end (unread self.now) }
    {
        self.from_word().is_empty()
    }

    /// The next word, if there is one.
    #[tactic(auto, unfolding(crate::specs::Reading::word_at))]
    pub fn take_next(&mut self) -> Option<&'a [u8]>
        ensures none { IfNone result (is_at_end (unread self.old) ≡ true) }
        ensures same { IfNone result (unread self.new ≡ unread self.old) }
        ensures word { IfSome result (λ word.
            word_at (unread self.old) ≡ Ok (word.now, unread self.new)) }
    {
        let from_word = self.from_word();
        if from_word.is_empty() {
            return None;
        }
        let (word, rest) = from_word.split_at(length_of_word(from_word));
        self.rest = rest;
        Some(word)
    }

    /// The next word, which has to be there.
    #[tactic(auto, unfolding(crate::specs::Reading::word_at))]
    pub fn take(&mut self) -> Result<&'a [u8], DeckReason>
        ensures { Gives (λ word. (word.now, unread self.new)) result (word_at (unread self.old)) }
    {
        self.take_next().ok_or(DeckReason::WrongNumberOfWords)
    }

    /// The next word, a number from `low` to `high`.
    #[tactic(auto, unfolding(crate::specs::Reading::number_at))]
    #[inline(always)]
    pub fn take_number(&mut self, low: u64, high: u64) -> Result<u64, DeckReason>
        ensures read { Gives (λ number. (number, unread self.new)) result
            (number_at low high (unread self.old)) }
        ensures in_range { IfOk result (λ number. (low ≤ number) × (number ≤ high)) }
    {
        let number = read_number(self.take()?).ok_or(DeckReason::BadNumber)?;
        let number = u64::try_from(number).map_err(|_| DeckReason::BadNumber)?;
        if number < low || high < number {
            return Err(DeckReason::BadNumber);
        }
        Ok(number)
    }

    /// The next word, any number.
    #[tactic(auto, unfolding(crate::specs::Reading::integer_at))]
    #[inline(always)]
    pub fn take_integer(&mut self) -> Result<i64, DeckReason>
        ensures { Gives (λ number. (number, unread self.new)) result
            (integer_at (unread self.old)) }
    {
        read_number(self.take()?).ok_or(DeckReason::BadNumber)
    }

    /// The next word, a name.
    #[tactic(auto, unfolding(crate::specs::Reading::name_at))]
    pub fn take_name(&mut self) -> Result<&'a str, DeckReason>
        ensures read { Gives (λ name. (name.now, unread self.new)) result
            (name_at (unread self.old)) }
        ensures name { IfOk result (λ name. IsName name.now) }
    {
        read_name(self.take()?)
    }

    /// No word is left.
    #[tactic(auto, unfolding(crate::specs::Reading::end_at))]
    pub fn end(&self) -> Result<(), DeckReason>
        ensures { Gives (λ _. tt) result (end_at (unread self.now)) }
    {
        if self.is_at_end() {
            Ok(())
        } else {
            Err(DeckReason::WrongNumberOfWords)
        }
    }
}
