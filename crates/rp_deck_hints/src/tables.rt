//! Which advice is given, by the first word of a line.

use crate::advice::Advice;

/// Of the second word, where it is a number.
pub const SECOND_NUMBERS: [(&[u8], Advice); 12] = [
    (b"nodes", Advice::Nodes),
    (b"positions", Advice::Positions),
    (b"tally", Advice::Tally),
    (b"irq", Advice::Node),
    (b"tick", Advice::Node),
    (b"lead", Advice::Node),
    (b"range", Advice::Node),
    (b"stop", Advice::Node),
    (b"restart", Advice::Node),
    (b"deliver", Advice::Packet),
    (b"lose", Advice::Packet),
    (b"cut", Advice::Kept),
];

/// Of the third word, where it is a number.
pub const THIRD_NUMBERS: [(&[u8], Advice); 10] = [
    (b"task", Advice::Priority),
    (b"object", Advice::Ceiling),
    (b"call", Advice::Node),
    (b"arm", Advice::Node),
    (b"disarm", Advice::Node),
    (b"again", Advice::Node),
    (b"tick", Advice::Now),
    (b"lead", Advice::Position),
    (b"range", Advice::Position),
    (b"lose", Advice::Packet),
];

/// Of the fourth word, where it is a number.
pub const FOURTH_NUMBERS: [(&[u8], Advice); 3] = [
    (b"irq", Advice::Occurrence),
    (b"range", Advice::Count),
    (b"cut", Advice::CutWhere),
];

/// Of the fifth word, where it is a number.
pub const FIFTH_NUMBERS: [(&[u8], Advice); 2] = [
    (b"int", Advice::FirstValue),
    (b"cut", Advice::Position),
];

/// Of the sixth word, where it is a number.
pub const SIXTH_NUMBERS: [(&[u8], Advice); 2] = [
    (b"entry", Advice::Queue),
    (b"cut", Advice::Count),
];

/// Of the second word, where it is to be a new name.
pub const SECOND_NAMES: [(&[u8], Advice); 2] = [
    (b"int", Advice::ComponentName),
    (b"bool", Advice::ComponentName),
];

/// Of the third word, where it is to be a name.
pub const THIRD_NAMES: [(&[u8], Advice); 2] = [
    (b"interrupt", Advice::Dotted),
    (b"timer", Advice::Dotted),
];

/// Of the fourth word, where it is to be a name.
pub const FOURTH_NAMES: [(&[u8], Advice); 1] = [(b"call", Advice::Dotted)];

/// Of the second word, where it is to be a declared name.
pub const SECOND_KNOWN: [(&[u8], Advice); 2] = [
    (b"put", Advice::PutBoolean),
    (b"set", Advice::SetInteger),
];

/// Of the fourth word, where it is to be a declared name.
pub const FOURTH_KNOWN: [(&[u8], Advice); 1] = [(b"entry", Advice::Barrier)];

/// Of the first word of a line, where it is not allowed.
pub const PLACES: [(&[u8], Advice); 40] = [
    (b"nodes", Advice::OnceNodes),
    (b"positions", Advice::OncePositions),
    (b"profile", Advice::OnceProfile),
    (b"task", Advice::Task),
    (b"tally", Advice::OneTally),
    (b"object", Advice::Object),
    (b"interrupt", Advice::Object),
    (b"timer", Advice::Object),
    (b"int", Advice::OfObject),
    (b"bool", Advice::OfObject),
    (b"function", Advice::OfObject),
    (b"procedure", Advice::OfObject),
    (b"entry", Advice::OfObject),
    (b"set", Advice::Statement),
    (b"put", Advice::Statement),
    (b"out", Advice::Statement),
    (b"if", Advice::Statement),
    (b"else", Advice::Else),
    (b"end", Advice::End),
    (b"script", Advice::Script),
    (b"never", Advice::Rule),
    (b"always", Advice::Rule),
    (b"finally", Advice::Rule),
    (b"when", Advice::Guard),
    (b"unless", Advice::Guard),
    (b"call", Advice::OfScript),
    (b"arm", Advice::OfScript),
    (b"disarm", Advice::OfScript),
    (b"again", Advice::OfScript),
    (b"lead", Advice::OfScript),
    (b"range", Advice::OfScript),
    (b"deliver", Advice::OfScript),
    (b"lose", Advice::OfScript),
    (b"drain", Advice::OfScript),
    (b"stop", Advice::OfScript),
    (b"restart", Advice::OfScript),
    (b"cut", Advice::OfScript),
    (b"irq", Advice::OfScript),
    (b"tick", Advice::OfScript),
    (b"show", Advice::OfScript),
];

/// Of the second word, where it is to be a fixed one.
pub const SECOND_WORDS: [(&[u8], Advice); 1] = [(b"profile", Advice::Profile)];

/// Of the third word, where it is to be a fixed one.
pub const THIRD_WORDS: [(&[u8], Advice); 4] = [
    (b"bool", Advice::Truth),
    (b"function", Advice::Function),
    (b"entry", Advice::When),
    (b"cut", Advice::CutStep),
];

/// Of the fifth word, where it is to be a fixed one.
pub const FIFTH_WORDS: [(&[u8], Advice); 1] = [(b"entry", Advice::Longest)];
