//! Why a call was refused.

ghost use Rattle.std.specs.Prelude.{◌≡◌};
ghost use Rattle.rp_base.specs.declared.fault.Fault.TheVariants.{OutOfMemory};
ghost use Rattle.rp_base.specs.Fault.{code_of, name_of, reason_text_of};

use std::alloc::{AllocError, AllocFailed};
use thiserror::Error;

/// Why bytes are no packet. Exactly one holds of bytes that are no packet's text.
#[derive(Clone, Copy, Debug, PartialEq, Eq, Error)]
pub enum PacketReason {
    /// Right whole fields, and then fewer bytes than the next field has.
    #[error("too short")]
    Short,
    /// A packet's text, and then one byte or more.
    #[error("too long")]
    Long,
    /// The first byte is no version that is known.
    #[error("unknown version")]
    Version,
    /// The second byte is no kind that is known.
    #[error("unknown kind")]
    Kind,
    /// Right whole fields, and then a whole field that breaks its rule.
    #[error("wrong field")]
    Field,
}

/// Why a deck is bad, by its first bad line.
#[derive(Clone, Copy, Debug, PartialEq, Eq, Error)]
#[error("{}", self.text())]
pub enum DeckReason {
    /// The first line that is not skipped does not begin with `nodes`, or there is none.
    NodesExpected,
    /// The first word is not allowed at this place, or another fixed word is not the one expected.
    UnknownWord,
    /// A word is missing or left over.
    WrongNumberOfWords,
    /// No number, or one outside its range.
    BadNumber,
    /// Not of a name's form, or a word of the expressions as a component.
    BadName,
    /// Declared before.
    DuplicateName,
    /// Not declared, or of another kind.
    UnknownName,
    /// The declaration or statement passes its limit, or the depth does.
    TooMany,
    /// More than 32 words in an expression or a condition.
    BadExpression,
    /// At `script`, no task is declared.
    TaskExpected,
    /// At `script`, neither a tally nor an object is declared.
    ObjectExpected,
    /// The deck ends in a body.
    EndExpected,
    /// The deck ends before `script`.
    ScriptExpected,
    /// A script line that live mode does not take.
    NotInLive,
}

impl DeckReason {
    /// Its words, as they are printed.
    pub fn text(&self) -> &'static str
        ensures { result.now ≡ reason_text_of self.now }
    {
        match self {
            DeckReason::NodesExpected => "nodes expected",
            DeckReason::UnknownWord => "unknown word",
            DeckReason::WrongNumberOfWords => "wrong number of words",
            DeckReason::BadNumber => "bad number",
            DeckReason::BadName => "bad name",
            DeckReason::DuplicateName => "duplicate name",
            DeckReason::UnknownName => "unknown name",
            DeckReason::TooMany => "too many",
            DeckReason::BadExpression => "bad expression",
            DeckReason::TaskExpected => "task expected",
            DeckReason::ObjectExpected => "object expected",
            DeckReason::EndExpected => "end expected",
            DeckReason::ScriptExpected => "script expected",
            DeckReason::NotInLive => "not in live",
        }
    }
}

/// Why a call was refused. After `OutOfMemory`, `BadPacket` and all from `NotRunning` on nothing
/// has changed, unless the call says otherwise.
#[derive(Clone, Copy, Debug, PartialEq, Eq, Error)]
#[error("{}", self.name())]
pub enum Fault {
    /// An allocation failed.
    OutOfMemory,
    /// The device failed during this call.
    Device,
    /// The device failed in an earlier call, and was not opened again.
    Failed,
    /// The bytes are no packet.
    BadPacket(PacketReason),
    /// The node is stopped, or the packet of a cut goes to no node.
    NotRunning,
    /// The node has no ballot above those that it has seen.
    BallotsSpent,
    /// The position to lead at, or one of the range, is above the log, or 64 or more above the
    /// first unlearned one.
    LogFull,
    /// No packet of this number was sent.
    NoSuchMessage,
    /// The task's last call has no answer yet.
    TaskBusy,
    /// The task made its last call.
    NumbersSpent,
    /// The deck breaks a rule, first at this line, counted from 1.
    BadDeck { line: u32, reason: DeckReason },
    /// A number is outside its limits.
    BadConfig,
    /// A read or a write failed, a write took no byte, or the deck has more than 1,048,576 bytes.
    Io,
}

impl Fault {
    /// Its number, 1 to 13, as it is printed.
    pub fn code(&self) -> u8
        // claim: A fault has its number and its name
        ensures { result ≡ code_of self.now }
    {
        match self {
            Fault::OutOfMemory => 1,
            Fault::Device => 2,
            Fault::Failed => 3,
            Fault::BadPacket(_) => 4,
            Fault::NotRunning => 5,
            Fault::BallotsSpent => 6,
            Fault::LogFull => 7,
            Fault::NoSuchMessage => 8,
            Fault::TaskBusy => 9,
            Fault::NumbersSpent => 10,
            Fault::BadDeck { .. } => 11,
            Fault::BadConfig => 12,
            Fault::Io => 13,
        }
    }

    /// Its name, as it is printed.
    pub fn name(&self) -> &'static str
        // claim as Fault::code
        ensures { result.now ≡ name_of self.now }
    {
        match self {
            Fault::OutOfMemory => "OutOfMemory",
            Fault::Device => "Device",
            Fault::Failed => "Failed",
            Fault::BadPacket(_) => "BadPacket",
            Fault::NotRunning => "NotRunning",
            Fault::BallotsSpent => "BallotsSpent",
            Fault::LogFull => "LogFull",
            Fault::NoSuchMessage => "NoSuchMessage",
            Fault::TaskBusy => "TaskBusy",
            Fault::NumbersSpent => "NumbersSpent",
            Fault::BadDeck { .. } => "BadDeck",
            Fault::BadConfig => "BadConfig",
            Fault::Io => "Io",
        }
    }
}

/// Why a record is not written, or what it takes is not reserved.
#[derive(Clone, Copy, Debug, PartialEq, Eq)]
pub enum WriteFault {
    /// An allocation failed.
    OutOfMemory,
    /// The device failed during this call.
    Device,
    /// The device failed in an earlier call, and was not opened again.
    Failed,
}

impl From<AllocError> for WriteFault {
    ghost use Rattle.rp_base.specs.declared.fault.WriteFault.TheVariants.{OutOfMemory};

    ghost from_gives = { λ _ e. e ≡ OutOfMemory };

    fn from(_e: AllocError) -> WriteFault {
        WriteFault::OutOfMemory
    }
}

impl From<WriteFault> for Fault {
    ghost use Rattle.rp_base.specs.WriteFaults.{fault_of};

    ghost from_gives = { λ fault e. e ≡ fault_of fault };

    fn from(fault: WriteFault) -> Fault {
        match fault {
            WriteFault::OutOfMemory => Fault::OutOfMemory,
            WriteFault::Device => Fault::Device,
            WriteFault::Failed => Fault::Failed,
        }
    }
}

impl From<AllocError> for Fault {
    ghost from_gives = { λ _ e. e ≡ OutOfMemory };

    fn from(_e: AllocError) -> Fault {
        Fault::OutOfMemory
    }
}

impl<T: Drop> From<AllocFailed<T>> for Fault {
    ghost from_gives = { λ _ e. e ≡ OutOfMemory };

    fn from(_e: AllocFailed<T>) -> Fault {
        Fault::OutOfMemory
    }
}
