//! The line that is printed for a fault.

ghost use Rattle.std.specs.Prelude.{◌≡◌, ◌≤◌, ◌↔◌, IfErr, IsTrue, Some};
ghost use Rattle.rp_model.specs.rp_base.specs.Fault.{code_of};
ghost use Rattle.rp_output.specs.FaultMessage.{fault_message_of, with_line_feed};
ghost use Rattle.rp_output.specs.Stream.{IsWriteFault, Writes};

use crate::stream::report;
use rp_base::Fault;
use std::fmt;
use std::io::Write;

/// Whether the fault refuses only one step, after which the script continues.
pub fn is_refusal(fault: &Fault) -> bool
    ensures { IsTrue result ↔ ((5 ≤ code_of fault.now) × (code_of fault.now ≤ 10)) }
{
    matches!(
        fault,
        Fault::NotRunning
            | Fault::BallotsSpent
            | Fault::LogFull
            | Fault::NoSuchMessage
            | Fault::TaskBusy
            | Fault::NumbersSpent
    )
}

/// Writes the line for a fault: where and why the deck is bad, or the fault's number and name. `Io`
/// if a write fails, and then a prefix of the line was written.
pub fn tell<W: Write>(fault: &Fault, writer: &mut W) -> Result<(), Fault>
    ensures written { Writes (W.contents writer.old) (W.contents writer.new)
        (with_line_feed (fault_message_of fault.now)) result }
    ensures fault { IfErr result IsWriteFault }
{
    report(writer, FaultMessage { fault: *fault })
}

/// The line for a fault.
#[derive(Clone, Copy)]
pub struct FaultMessage {
    pub fault: Fault,
}

impl fmt::Display for FaultMessage {
    ghost output = { λ l. Some (fault_message_of l.fault) };

    fn fmt<W: fmt::Write>(&self, f: &mut fmt::Formatter<W>) -> fmt::Result {
        match self.fault {
            Fault::BadDeck { line, reason } => {
                let reason = reason.text();
                write!(f, "deck line {line}: {reason}")
            }
            fault => {
                let code = fault.code();
                let name = fault.name();
                write!(f, "fault {code} {name}")
            }
        }
    }
}
