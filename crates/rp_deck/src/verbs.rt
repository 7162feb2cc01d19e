//! The first words of a script's lines.

ghost use Rattle.std.specs.Prelude.{◌≡◌};
ghost use Rattle.rp_deck.specs.ScriptLines.{verb_named, is_live, takes};

use crate::deck::Mode;

/// The first word of a line of the script.
#[derive(Clone, Copy)]
pub enum Verb {
    /// A task calls an operation of an object.
    Call,
    /// A task sets a timing event.
    Arm,
    /// A task cancels a timing event.
    Disarm,
    /// A task sends its outstanding call again.
    Again,
    /// A node leads at a position.
    Lead,
    /// A node leads at a range of positions.
    Range,
    /// A message is delivered.
    Deliver,
    /// Messages are lost.
    Lose,
    /// All messages that are not settled are delivered, and those that this sends.
    Drain,
    /// A node stops.
    Stop,
    /// A node starts again from its device.
    Restart,
    /// A node stops within a step.
    Cut,
    /// `irq`: a node notes an interrupt.
    Interrupt,
    /// A node notes a tick of the clock.
    Tick,
    /// The state of each node that runs is printed.
    Show,
}

impl Verb {
    /// The verb that the word is.
    #[inline(always)]
    pub fn named(word: &[u8]) -> Option<Verb>
        ensures { result ≡ verb_named word.now }
    {
        match word {
            b"call" => Some(Verb::Call),
            b"arm" => Some(Verb::Arm),
            b"disarm" => Some(Verb::Disarm),
            b"again" => Some(Verb::Again),
            b"lead" => Some(Verb::Lead),
            b"range" => Some(Verb::Range),
            b"deliver" => Some(Verb::Deliver),
            b"lose" => Some(Verb::Lose),
            b"drain" => Some(Verb::Drain),
            b"stop" => Some(Verb::Stop),
            b"restart" => Some(Verb::Restart),
            b"cut" => Some(Verb::Cut),
            b"irq" => Some(Verb::Interrupt),
            b"tick" => Some(Verb::Tick),
            b"show" => Some(Verb::Show),
            _ => None,
        }
    }

    /// Whether live mode takes a line that begins so.
    fn is_live(self) -> bool
        ensures { result ≡ is_live self }
    {
        matches!(
            self,
            Verb::Call | Verb::Arm | Verb::Disarm | Verb::Interrupt | Verb::Tick
        )
    }
}

impl Mode {
    /// Whether the mode takes a line of the script that begins so.
    pub fn takes(self, verb: Verb) -> bool
        ensures { result ≡ takes self verb }
    {
        match self {
            Mode::Script => true,
            Mode::Live => verb.is_live(),
        }
    }
}
