//! What is decided, and what is learned. Lamport, "Paxos Made Simple", section 2.1: only a value
//! that has been proposed may be chosen, only a single value is chosen, and no process learns a
//! value that was not chosen.

ghost use Rattle.std.specs.Prelude.{◌≡◌, ℕ, List};
ghost use Rattle.rp_base.specs.Sets.{Has};
ghost use Rattle.rp_base.specs.declared.action.Action.{Action};
ghost use Rattle.rp_base.specs.declared.record.Rec.TheVariants.{Learned};
ghost use Rattle.rp_codec.specs.Message.{Message};
ghost use Rattle.rp_codec.specs.declared.packet.Body.TheVariants.{Decided};
ghost use Rattle.rp_model.specs.Facts.{IsDecided};
ghost use Rattle.rp_model.specs.Parts.{NodePart};
ghost use Rattle.rp_agreement.specs.Decided.{IsCast};
ghost use Rattle.rp_agreement.specs.Order.{AllSent};
ghost use Rattle.rp_agreement.specs.Sound.{IsSound};
ghost use Rattle.rp_agreement.specs.Asked.{IsAsked, Says};

/// At a position one action at most is decided, whether votes are counted in the packets or in what
/// the nodes wrote; and what is decided by packets the nodes wrote.
pub fn decisions_are_one()
    // claim: At a position one action at most is decided, counted in packets or in records, and it
    //   stays decided
    ensures decided { (nodes : ℕ) (node : ℕ → NodePart) (sent : List Message)
        → IsSound nodes node sent
        → (i : ℕ) (v w : Action) → IsDecided nodes sent i v → IsDecided nodes sent i w → v ≡ w }
    ensures cast { (nodes : ℕ) (node : ℕ → NodePart) (sent : List Message)
        → IsSound nodes node sent
        → (i b c : ℕ) (v w : Action) → IsCast nodes node i b v → IsCast nodes node i c w → v ≡ w }
    ensures both { (nodes : ℕ) (node : ℕ → NodePart) (sent : List Message)
        → IsSound nodes node sent
        → (i : ℕ) (v : Action) → IsDecided nodes sent i v → (b : ℕ) × IsCast nodes node i b v }
{}

/// What is decided is right, and if it is a call, its task asked for it.
pub fn only_asked_actions_are_decided()
    ensures { (nodes : ℕ) (node : ℕ → NodePart) (sent : List Message) → IsSound nodes node sent
        → (i : ℕ) (v : Action) → IsDecided nodes sent i v → IsAsked sent v }
{}

/// What a node learns, or says that it has learned, is decided; so what nodes learn at a position
/// is one action.
pub fn only_decided_actions_are_learned()
    // claim: What is learned is decided, and what is decided was asked for
    ensures learned { (nodes : ℕ) (node : ℕ → NodePart) (sent : List Message)
        → IsSound nodes node sent
        → (x i : ℕ) (v : Action)
        → Has (Learned i v) (node x).records → IsDecided nodes sent i v }
    ensures stated { (nodes : ℕ) (node : ℕ → NodePart) (sent : List Message)
        → IsSound nodes node sent
        → (x i : ℕ) (v : Action) → Says sent x (Decided i v) → IsDecided nodes sent i v }
    ensures one { (nodes : ℕ) (node : ℕ → NodePart) (sent : List Message)
        → IsSound nodes node sent
        → (x y i : ℕ) (v w : Action)
        → Has (Learned i v) (node x).records → Has (Learned i w) (node y).records → v ≡ w }
{}

/// What is decided stays decided, whatever is sent later.
pub fn decisions_stay()
    ensures { (nodes : ℕ) (sent later : List Message) → AllSent sent later
        → (i : ℕ) (v : Action) → IsDecided nodes sent i v → IsDecided nodes later i v }
{}
