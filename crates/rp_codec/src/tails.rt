//! How the texts of usual packets and records end. An accept, a vote and the record of a vote end
//! alike, and so do a decision and its record. So each of these texts is made of one that was
//! read, by a copy of how that ends, in place of encoding it anew.

ghost use Rattle.std.specs.Prelude.{◌≡◌, ◌↔◌, ℕ, ◌+◌, ◌∷◌, ◌++◌, length, take, drop, slice_index, IsSome, IfSome};
ghost use Rattle.rp_base.specs.declared.action.Action.{Action};
ghost use Rattle.rp_base.specs.declared.record.Rec.TheVariants.{Voted, Learned};
ghost use Rattle.rp_codec.specs.Record.{record_text};
ghost use Rattle.rp_codec.specs.Tails.{EndsAccept, EndsVote, EndsDecision, decision_text};
ghost use Rattle.rp_codec.specs.Text.{vote_text, text_of};
ghost use Rattle.rp_codec.specs.Usual.{accepted_at, decided_of};

use crate::fields::VERSION;
use crate::kind::Kind;
use crate::usual_encoding::joined;
use crate::usual_texts::{Header, SentDecision};

/// How an accept, a vote and the record of a vote end, if the action is a call: the position, the
/// ballot and the call.
pub type VoteTail = [u8; 27];

/// How a decision and its record end, if the action is a call: the position and the call.
pub type DecisionTail = [u8; 19];

/// What a text of version 2 says after its head, if these are N bytes.
#[inline(always)]
fn tail_of<const N: usize>(text: &[u8]) -> Option<[u8; N]>
    ensures bytes { IfSome result (λ tail. tail ≡ drop 4 text.now) }
    ensures version { IfSome result (λ tail. slice_index text.now 0 ≡ 2) }
    ensures some { IsSome result ↔ ((slice_index text.now 0 ≡ 2) × (length text.now ≡ 4 + N)) }
{
    let (head, tail) = text.split_first_chunk::<4>()?;
    if head[0] != VERSION {
        return None;
    }
    tail.as_array::<N>().copied()
}

/// How the text of an accept or of a vote ends, if it is of version 2 and its action is a call.
#[inline(always)]
pub fn vote_tail(text: &[u8]) -> Option<VoteTail>
    ensures bytes { IfSome result (λ tail. tail ≡ drop 4 text.now) }
    ensures some { IsSome result ↔ ((slice_index text.now 0 ≡ 2) × (length text.now ≡ 31)) }
    ensures accept { IfSome result (EndsAccept text.now) }
    ensures vote { IfSome result (EndsVote text.now) }
{
    tail_of(text)
}

/// How the text of a decision ends, if it is of version 2 and its action is a call.
#[inline(always)]
pub fn decision_tail(text: &[u8]) -> Option<DecisionTail>
    ensures bytes { IfSome result (λ tail. tail ≡ drop 4 text.now) }
    ensures some { IsSome result ↔ ((slice_index text.now 0 ≡ 2) × (length text.now ≡ 23)) }
    ensures decision { IfSome result (EndsDecision text.now) }
{
    tail_of(text)
}

/// How the decision of what a vote says ends.
#[inline(always)]
pub fn decision_of(tail: &VoteTail) -> DecisionTail
    ensures bytes { result ≡ take 2 tail.now ++ drop 10 tail.now }
    ensures vote { (position ballot : ℕ) (action : Action)
        → tail.now ≡ vote_text position ballot action → result ≡ decision_text position action }
{
    let position = tail.first_chunk::<2>().unwrap();
    let call = tail.last_chunk::<17>().unwrap();
    joined(position, call)
}

/// The text of a vote, by how it ends.
#[inline(always)]
pub fn accepted_by(header: Header, tail: &VoteTail) -> [u8; 31]
    ensures bytes { result ≡ 2 ∷ 5 ∷ header.from ∷ header.to ∷ tail.now }
    ensures vote { (action : Action) → tail.now ≡ vote_text header.position header.ballot action
        → result ≡ text_of (accepted_at header action) }
{
    let head = [
        VERSION,
        Kind::Accepted.number(),
        header.from.get(),
        header.to.get(),
    ];
    joined(&head, tail)
}

/// The text of the record of a vote, by how it ends.
#[inline(always)]
pub fn voted_by(tail: &VoteTail) -> [u8; 29]
    ensures bytes { result ≡ 2 ∷ 3 ∷ tail.now }
    ensures vote { (position ballot : ℕ) (action : Action)
        → tail.now ≡ vote_text position ballot action
        → result ≡ record_text (Voted position ballot action) }
{
    joined(&[VERSION, 3], tail)
}

/// The text of a decision, by how it ends.
#[inline(always)]
pub fn decided_by(decision: &SentDecision, tail: &DecisionTail) -> [u8; 23]
    ensures bytes { result ≡ 2 ∷ 6 ∷ decision.now.from ∷ decision.now.to ∷ tail.now }
    ensures decision { tail.now ≡ decision_text decision.now.position decision.now.action
        → result ≡ text_of (decided_of decision.now) }
{
    let head = [
        VERSION,
        Kind::Decided.number(),
        decision.from.get(),
        decision.to.get(),
    ];
    joined(&head, tail)
}

/// The text of the record of an action that is learned, by how it ends.
#[inline(always)]
pub fn learned_by(tail: &DecisionTail) -> [u8; 21]
    ensures bytes { result ≡ 2 ∷ 4 ∷ tail.now }
    ensures decision { (position : ℕ) (action : Action) → tail.now ≡ decision_text position action
        → result ≡ record_text (Learned position action) }
{
    joined(&[VERSION, 4], tail)
}
