//! How a call ends, as a number.

ghost use Rattle.std.specs.Prelude.{◌≡◌};
ghost use Rattle.rp_script.specs.rp_base.specs.declared.fault.PacketReason.TheVariants as reasons;
ghost use Rattle.rp_c.specs.Status.{status_code, reason_code, deck_reason_code};

use rp_base::{DeckReason, PacketReason};

/// How a call ends.
#[derive(Clone, Copy)]
pub enum Status {
    /// The call succeeded.
    Done,
    /// There was not enough memory for the call, and nothing has changed.
    OutOfMemory,
    /// The bytes are no packet.
    BadPacket,
    /// The deck is bad, and the answer is the line that reports where and why.
    BadDeck,
    /// The deck has more than 1,048,576 bytes, and nothing has changed.
    Io,
    /// The answer is longer than its buffer, and only its length was written.
    ShortAnswer,
}

impl Status {
    /// The status as a number: 0, the number of the fault of the same name, or that of
    /// `ShortAnswer`.
    pub fn code(self) -> u8
        ensures { result ≡ status_code self }
    {
        match self {
            Status::Done => 0,
            Status::OutOfMemory => 1,
            Status::BadPacket => 4,
            Status::BadDeck => 11,
            Status::Io => 13,
            Status::ShortAnswer => 64,
        }
    }
}

/// The number of the reason for which bytes are no packet, from 1.
pub fn reason_number(reason: PacketReason) -> u8
    ensures { result ≡ reason_code reason }
{
    match reason {
        PacketReason::Short => 1,
        PacketReason::Long => 2,
        PacketReason::Version => 3,
        PacketReason::Kind => 4,
        PacketReason::Field => 5,
    }
}

/// The number of the first reason for which a deck is bad, from 1.
pub fn deck_reason_number(reason: DeckReason) -> u8
    ensures { result ≡ deck_reason_code reason }
{
    match reason {
        DeckReason::NodesExpected => 1,
        DeckReason::UnknownWord => 2,
        DeckReason::WrongNumberOfWords => 3,
        DeckReason::BadNumber => 4,
        DeckReason::BadName => 5,
        DeckReason::DuplicateName => 6,
        DeckReason::UnknownName => 7,
        DeckReason::TooMany => 8,
        DeckReason::BadExpression => 9,
        DeckReason::TaskExpected => 10,
        DeckReason::ObjectExpected => 11,
        DeckReason::EndExpected => 12,
        DeckReason::ScriptExpected => 13,
        DeckReason::NotInLive => 14,
    }
}
