//! Why a line of a deck was not read.

ghost use Rattle.std.specs.Prelude.{◌≡◌};
ghost use Rattle.rp_words.specs.declared.line_error.LineError.TheVariants.{OutOfMemory, Bad};
ghost use Rattle.rp_words.specs.LineFaults.{fault_at};

use rp_base::{DeckReason, Fault};
use std::alloc::{AllocError, AllocFailed};

/// Why a line was not read.
#[derive(Clone, Copy)]
pub enum LineError {
    OutOfMemory,
    Bad(DeckReason),
}

impl LineError {
    /// The fault, for the line of this number.
    pub fn at(self, line: u32) -> Fault
        ensures { result ≡ fault_at line self }
    {
        match self {
            LineError::OutOfMemory => Fault::OutOfMemory,
            LineError::Bad(reason) => Fault::BadDeck { line, reason },
        }
    }
}

impl From<DeckReason> for LineError {
    ghost from_gives = { λ reason e. e ≡ Bad reason };

    fn from(reason: DeckReason) -> LineError {
        LineError::Bad(reason)
    }
}

impl From<AllocError> for LineError {
    ghost from_gives = { λ _ e. e ≡ OutOfMemory };

    fn from(_e: AllocError) -> LineError {
        LineError::OutOfMemory
    }
}

impl<T: Drop> From<AllocFailed<T>> for LineError {
    ghost from_gives = { λ _ e. e ≡ OutOfMemory };

    fn from(_e: AllocFailed<T>) -> LineError {
        LineError::OutOfMemory
    }
}
