//! What a node says is in its records.

ghost use Rattle.std.specs.Prelude.{ℕ, Option, List};
ghost use Rattle.rp_base.specs.declared.record.Vote.{Vote};
ghost use Rattle.rp_codec.specs.Message.{Message};
ghost use Rattle.rp_codec.specs.declared.packet.Body.{Body};
ghost use Rattle.rp_model.specs.Parts.{NodePart};
ghost use Rattle.rp_agreement.specs.Asked.{Says};
ghost use Rattle.rp_model.specs.Facts.{HasPromised};
ghost use Rattle.rp_agreement.specs.Justified.{Reports, HasPromiseRecord};
ghost use Rattle.rp_agreement.specs.Sound.{IsMember, IsSo, IsSound};

/// What a node says is so, by what it has written down by now and by what was sent: a vote or a
/// decision is among its records, a promise too, which reports its last vote, an offer is justified
/// by a majority's promises, and a report says what it has applied. Who says something as a node is
/// one of the nodes 1 to n.
pub fn packets_say_so()
    // claim: What a node sends is in its records: a promise, a vote, a decision; who sends
    //   something as a node is one of the nodes
    ensures said { (nodes : ℕ) (node : ℕ → NodePart) (sent : List Message)
        → IsSound nodes node sent
        → (a : ℕ) (body : Body) → Says sent a body → IsSo nodes sent (node a).records body }
    ensures promised { (nodes : ℕ) (node : ℕ → NodePart) (sent : List Message)
        → IsSound nodes node sent
        → (a i b : ℕ) (last : Option Vote)
        → HasPromised sent a i b last → Reports (node a).records i b last }
    ensures written { (nodes : ℕ) (node : ℕ → NodePart) (sent : List Message)
        → IsSound nodes node sent
        → (a i b : ℕ) (last : Option Vote)
        → HasPromised sent a i b last → HasPromiseRecord (node a).records i b }
    ensures members { (nodes : ℕ) (node : ℕ → NodePart) (sent : List Message)
        → IsSound nodes node sent
        → (a : ℕ) (body : Body) → Says sent a body → IsMember nodes a }
{}
