//! Which advice is given for a word at fault.

ghost use Rattle.std.specs.Prelude.{◌≡◌};
ghost use Rattle.std.specs.List.{starts_with};
ghost use Rattle.rp_deck_hints.specs.AdviceOf.{advice_of, first_line_advice, known_advice, name_advice, number_advice, word_advice};

use crate::advice::Advice;
use crate::tables::{
    FIFTH_NUMBERS, FIFTH_WORDS, FOURTH_KNOWN, FOURTH_NAMES, FOURTH_NUMBERS, PLACES, SECOND_KNOWN,
    SECOND_NAMES, SECOND_NUMBERS, SECOND_WORDS, SIXTH_NUMBERS, THIRD_NAMES, THIRD_NUMBERS,
    THIRD_WORDS,
};
use rp_base::DeckReason;
use rp_words::named;

/// The bytes of a byte order mark.
const BYTE_ORDER_MARK: &[u8] = b"\xef\xbb\xbf";

/// What to write in place of the word of this number of a line that begins with the first word, where
/// it is at fault for this reason.
pub fn advice_of(reason: DeckReason, first: &[u8], number: u32) -> Option<Advice>
    ensures { result ≡ advice_of reason first.now number }
{
    match reason {
        DeckReason::BadNumber => Some(number_advice(first, number)),
        DeckReason::BadName => Some(name_advice(first, number)),
        DeckReason::DuplicateName => Some(Advice::Declared),
        DeckReason::UnknownName => Some(known_advice(first, number)),
        DeckReason::UnknownWord => word_advice(first, number),
        DeckReason::NodesExpected => Some(first_line_advice(first)),
        DeckReason::NotInLive => Some(Advice::Live),
        _ => None,
    }
}

/// What to write in place of a number.
fn number_advice(first: &[u8], number: u32) -> Advice
    ensures { result ≡ number_advice first.now number }
{
    let found = match number {
        2 => named(&SECOND_NUMBERS, first),
        3 => named(&THIRD_NUMBERS, first),
        4 => named(&FOURTH_NUMBERS, first),
        5 => named(&FIFTH_NUMBERS, first),
        6 => named(&SIXTH_NUMBERS, first),
        _ => None,
    };
    found.unwrap_or(Advice::Number)
}

/// What to write in place of a name that is not of a name's form.
fn name_advice(first: &[u8], number: u32) -> Advice
    ensures { result ≡ name_advice first.now number }
{
    let found = match number {
        2 => named(&SECOND_NAMES, first),
        3 => named(&THIRD_NAMES, first),
        4 => named(&FOURTH_NAMES, first),
        _ => None,
    };
    found.unwrap_or(Advice::Name)
}

/// What to write in place of a name that is not declared, or of another kind.
fn known_advice(first: &[u8], number: u32) -> Advice
    ensures { result ≡ known_advice first.now number }
{
    let found = match number {
        2 => named(&SECOND_KNOWN, first),
        4 => named(&FOURTH_KNOWN, first),
        _ => None,
    };
    found.unwrap_or(Advice::Unknown)
}

/// What to write in place of a fixed word that is not the one expected, or not allowed there.
fn word_advice(first: &[u8], number: u32) -> Option<Advice>
    ensures { result ≡ word_advice first.now number }
{
    match number {
        1 => named(&PLACES, first),
        2 => named(&SECOND_WORDS, first),
        3 => named(&THIRD_WORDS, first),
        5 => named(&FIFTH_WORDS, first),
        _ => None,
    }
}

/// What to write in place of a first word that is not `nodes`.
fn first_line_advice(first: &[u8]) -> Advice
    ensures { result ≡ first_line_advice first.now }
{
    if first.starts_with(BYTE_ORDER_MARK) {
        Advice::ByteOrderMark
    } else {
        Advice::FirstLine
    }
}
