//! Which names a package may have.

ghost use Rattle.std.specs.Prelude.{◌≡◌, map, option_map, string_bytes, Some};
ghost use Rattle.std.specs.List.{list_any};
ghost use Rattle.std.specs.Str.{str_eq_ignore_ascii_case};
ghost use Rattle.rp_bind.specs.Names.{bad_line, bad_name_text, first_bad, first_bad_part, has_stray_underscore, is_among_in_any_case, is_reserved, is_stray, part_reason_of, reason_of};

use std::fmt;

/// The words that Ada reserves (Ada Reference Manual, section 2.9), and the name of the package that
/// declares Boolean (section A.1), which is not to be hidden.
const RESERVED: [&str; 75] = [
    "abort",
    "abs",
    "abstract",
    "accept",
    "access",
    "aliased",
    "all",
    "and",
    "array",
    "at",
    "begin",
    "body",
    "case",
    "constant",
    "declare",
    "delay",
    "delta",
    "digits",
    "do",
    "else",
    "elsif",
    "end",
    "entry",
    "exception",
    "exit",
    "for",
    "function",
    "generic",
    "goto",
    "if",
    "in",
    "interface",
    "is",
    "limited",
    "loop",
    "mod",
    "new",
    "not",
    "null",
    "of",
    "or",
    "others",
    "out",
    "overriding",
    "package",
    "parallel",
    "pragma",
    "private",
    "procedure",
    "protected",
    "raise",
    "range",
    "record",
    "rem",
    "renames",
    "requeue",
    "return",
    "reverse",
    "select",
    "separate",
    "some",
    "standard",
    "subtype",
    "synchronized",
    "tagged",
    "task",
    "terminate",
    "then",
    "type",
    "until",
    "use",
    "when",
    "while",
    "with",
    "xor",
];

/// Why a name of a deck is none of Ada.
#[derive(Clone, Copy)]
pub enum NameReason {
    /// Ada reserves it.
    Reserved,
    /// It ends with an underscore, or has two in a row.
    Underscore,
    /// A later name of the same kind differs in the case of letters alone.
    Case,
}

/// A name that is none of Ada, and why.
#[derive(Clone, Copy)]
pub struct BadName<'a> {
    pub name: &'a str,
    pub reason: NameReason,
}

impl fmt::Display for BadName<'_> {
    ghost output = { λ bad. Some (bad_line (bad_name_text bad)) };

    fn fmt<W: fmt::Write>(&self, f: &mut fmt::Formatter<W>) -> fmt::Result {
        let name = self.name;
        match self.reason {
            NameReason::Reserved => write!(f, "error: Ada reserves the name {name}"),
            NameReason::Underscore => write!(
                f,
                "error: the name {name} ends with an underscore or has two in a row"
            ),
            NameReason::Case => write!(
                f,
                "error: the name {name} and a later one differ in the case of letters alone"
            ),
        }
    }
}

/// The first of these names that is none of Ada.
pub(crate) fn first_bad(names: &[String]) -> Option<BadName<'_>>
    ensures { option_map bad_name_text result ≡ first_bad (map string_bytes names.now) }
{
    for (place, name) in names.iter().enumerate() {
        if let Some(reason) = reason_of(name, &names[place + 1..]) {
            return Some(BadName { name, reason });
        }
    }
    None
}

/// Why a name is none of Ada where these follow it.
fn reason_of(name: &str, later: &[String]) -> Option<NameReason>
    ensures { result ≡ reason_of name.now (map string_bytes later.now) }
{
    if is_reserved(name) {
        Some(NameReason::Reserved)
    } else {
        part_reason_of(name, later)
    }
}

/// The first of these names that is none of Ada where a prefix is before each: then a reserved word
/// is fine.
pub(crate) fn first_bad_part(names: &[String]) -> Option<BadName<'_>>
    ensures { option_map bad_name_text result ≡ first_bad_part (map string_bytes names.now) }
{
    for (place, name) in names.iter().enumerate() {
        if let Some(reason) = part_reason_of(name, &names[place + 1..]) {
            return Some(BadName { name, reason });
        }
    }
    None
}

/// Why a name is none of Ada where a prefix is before it, and these follow it.
fn part_reason_of(name: &str, later: &[String]) -> Option<NameReason>
    ensures { result ≡ part_reason_of name.now (map string_bytes later.now) }
{
    if has_stray_underscore(name.as_bytes()) {
        Some(NameReason::Underscore)
    } else if is_among(name, later) {
        Some(NameReason::Case)
    } else {
        None
    }
}

/// Whether Ada reserves a name.
fn is_reserved(name: &str) -> bool
    ensures { result ≡ is_reserved name.now }
{
    is_word_among(name, &RESERVED)
}

/// Whether one of these words is the name, whatever the case of their letters.
fn is_word_among(name: &str, words: &[&str]) -> bool
    ensures { result ≡ list_any (λ word. str_eq_ignore_ascii_case name.now word.now) words.now }
{
    words.iter().any(|word| is_same(name, word))
}

/// Whether one of these is the name, whatever the case of their letters.
fn is_among(name: &str, names: &[String]) -> bool
    ensures { result ≡ is_among_in_any_case name.now (map string_bytes names.now) }
{
    is_like_one(name, names)
}

/// The same of names as they are kept.
fn is_like_one(name: &str, names: &[String]) -> bool
    ensures { result
        ≡ list_any (λ other. str_eq_ignore_ascii_case name.now (string_bytes other)) names.now }
{
    names.iter().any(|other| is_same(name, other))
}

/// Whether two names are the same, whatever the case of their letters.
fn is_same(one: &str, other: &str) -> bool
    ensures { result ≡ str_eq_ignore_ascii_case one.now other.now }
{
    one.eq_ignore_ascii_case(other)
}

/// Whether an underscore of a name is last, or another follows it.
fn has_stray_underscore(name: &[u8]) -> bool
    ensures { result ≡ has_stray_underscore name.now }
{
    for (place, byte) in name.iter().enumerate() {
        if is_stray(*byte, &name[place + 1..]) {
            return true;
        }
    }
    false
}

/// Whether a byte is an underscore that is last, or that another follows.
fn is_stray(byte: u8, rest: &[u8]) -> bool
    ensures { result ≡ is_stray byte rest.now }
{
    byte == b'_' && (rest.is_empty() || rest[0] == b'_')
}
