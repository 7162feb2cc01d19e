//! Why a request is refused.

ghost use Rattle.std.specs.Prelude.{◌≡◌};
ghost use Rattle.rp_base.specs.declared.fault.Fault.TheVariants as faults;
ghost use Rattle.rp_requests.specs.Refusals.{refusal_code};
ghost use Rattle.rp_requests.specs.declared.refusal.Refusal.TheVariants as refusals;

use rp_base::Fault;

/// Why a request is refused. Nothing has changed after any of these, unless the variant says
/// otherwise.
#[derive(Clone, Copy)]
pub enum Refusal {
    /// A fault of the deck, the node or the task.
    Fault(Fault),
    /// The buffer has fewer bytes than this, and nothing else is given out.
    ShortAnswer(usize),
    /// The bytes are no request.
    BadRequest,
    /// The deck declares a tally, and no protected objects.
    NoObjects,
    /// The step was made, and its answer has this many bytes, more than the buffer: the request for
    /// the last answer returns it.
    LongAnswer(usize),
    /// A lead has a position that is in the log, and 64 or more above the first that is not learned.
    TooFar,
    /// The device begins with no header, or with that of another node, deck or size.
    WrongDevice,
}

impl Refusal {
    /// The refusal's number: that of the fault, or one from 64 on for a refusal of the request
    /// itself.
    pub fn code(&self) -> u8
        // claim: A refused request has the number of its fault, or one of its own from 64 on
        ensures { result ≡ refusal_code self.now }
    {
        match self {
            Refusal::Fault(fault) => fault.code(),
            Refusal::ShortAnswer(_) => 64,
            Refusal::BadRequest => 65,
            Refusal::NoObjects => 66,
            Refusal::LongAnswer(_) => 67,
            Refusal::TooFar => 70,
            Refusal::WrongDevice => 71,
        }
    }
}
