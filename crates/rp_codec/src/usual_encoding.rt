//! Packets and records of the usual kinds to bytes, each in an array, since its text has one
//! length: those whose action, if any, is a call. An array is joined of its fields, and the
//! compiler stores each field straight into the place where the array is copied.

ghost use Rattle.std.specs.Prelude.{◌≡◌, ◌↔◌, ◌+◌, [], ◌∷◌, ◌++◌, IsTrue};
ghost use Rattle.std.specs.Int.{w32};
ghost use Rattle.rp_base.specs.declared.record.Rec.TheVariants.{Started, Promised, Voted, Learned};
ghost use Rattle.rp_base.specs.declared.reply.Reply.TheVariants.{Value};
ghost use Rattle.rp_codec.specs.Kind.{number_of_kind};
ghost use Rattle.rp_codec.specs.Text.{number_text, signed_text, position_text, ballot_text, operation_text, action_text, vote_text, text_of};
ghost use Rattle.rp_codec.specs.Record.{record_text};
ghost use Rattle.rp_codec.specs.Usual.{IsCallAction, prepare_at, promise_at, accept_at, accepted_at, decided_of, reply_sent};

use crate::fields::VERSION;
use crate::kind::Kind;
use crate::party_text::TASK_BASE;
use crate::short_text::overwrite;
use crate::usual_texts::{Header, SentDecision, SentReply};
use rp_base::{Action, Ballot, Operation, Position};

/// Whether the action is a call.
#[inline(always)]
pub fn is_call(action: &Action) -> bool
    ensures { IsTrue result ↔ IsCallAction action.now }
{
    matches!(action, Action::Call { .. })
}

/// The bytes of one array, and those of the other after them.
#[inline(always)]
pub(crate) fn joined<const A: usize, const B: usize, const N: usize>(
    front: &[u8; A],
    rest: &[u8; B],
) -> [u8; N]
    requires { A + B ≡ N }
    ensures { result ≡ front.now ++ rest.now }
{
    let mut text = [0; N];
    let (first, last) = text.as_mut_slice().split_at_mut(A);
    overwrite(first, front);
    overwrite(last, rest);
    text
}

#[inline(always)]
#[tactic(auto, unfolding(crate::specs::Text::number_text))]
fn count_bytes(number: u32) -> [u8; 4]
    ensures { result ≡ number_text w32 number }
{
    number.to_be_bytes()
}

#[inline(always)]
#[tactic(auto, unfolding(crate::specs::Text::number_text))]
fn value_bytes(value: i64) -> [u8; 8]
    ensures { result ≡ signed_text value }
{
    value.to_be_bytes()
}

#[inline(always)]
#[tactic(auto, unfolding(crate::specs::Text::number_text))]
fn position_bytes(position: Position) -> [u8; 2]
    ensures { result ≡ position_text position }
{
    position.get().to_be_bytes()
}

#[inline(always)]
#[tactic(auto, unfolding(crate::specs::Text::number_text))]
fn ballot_bytes(ballot: Ballot) -> [u8; 8]
    ensures { result ≡ ballot_text ballot }
{
    ballot.get().to_be_bytes()
}

#[inline(always)]
fn operation_bytes(operation: Operation) -> [u8; 2]
    ensures { result ≡ operation_text operation }
{
    match operation {
        Operation::Function(index) => [1, index],
        Operation::Procedure(index) => [2, index],
        Operation::Entry(index) => [3, index],
        Operation::SetTimer(index) => [4, index],
        Operation::CancelTimer(index) => [5, index],
    }
}

#[inline(always)]
fn call_bytes(action: &Action) -> [u8; 17]
    requires { IsCallAction action.now }
    ensures { result ≡ action_text action.now }
{
    let Action::Call {
        task,
        number,
        object,
        operation,
        arg,
    } = *action
    else {
        unreachable!()
    };
    let caller: [u8; 6] = joined(&[1, task.get()], &count_bytes(number));
    let called: [u8; 3] = joined(&[object], &operation_bytes(operation));
    let rest: [u8; 11] = joined(&called, &value_bytes(arg));
    joined(&caller, &rest)
}

/// A position and a ballot.
#[inline(always)]
fn bound_bytes(position: Position, ballot: Ballot) -> [u8; 10]
    ensures { result ≡ position_text position ++ ballot_text ballot }
{
    joined(&position_bytes(position), &ballot_bytes(ballot))
}

/// A position, a ballot, and a call.
#[inline(always)]
fn vote_bytes(position: Position, ballot: Ballot, action: &Action) -> [u8; 27]
    requires { IsCallAction action.now }
    ensures { result ≡ vote_text position ballot action.now }
{
    let rest: [u8; 25] = joined(&ballot_bytes(ballot), &call_bytes(action));
    joined(&position_bytes(position), &rest)
}

/// The version, a kind, and who says it to whom.
#[inline(always)]
fn head_bytes(kind: Kind, header: Header) -> [u8; 4]
    ensures { result ≡ 2 ∷ number_of_kind kind ∷ header.from ∷ header.to ∷ [] }
{
    [VERSION, kind.number(), header.from.get(), header.to.get()]
}

/// The text of a prepare.
#[inline(always)]
pub fn prepare_text(header: Header) -> [u8; 14]
    ensures { result ≡ text_of (prepare_at header) }
{
    let body = bound_bytes(header.position, header.ballot);
    joined(&head_bytes(Kind::Prepare, header), &body)
}

/// The text of a promise that reports no vote.
#[inline(always)]
pub fn promise_text(header: Header) -> [u8; 15]
    ensures { result ≡ text_of (promise_at header) }
{
    let ballot: [u8; 9] = joined(&ballot_bytes(header.ballot), &[0]);
    let body: [u8; 11] = joined(&position_bytes(header.position), &ballot);
    joined(&head_bytes(Kind::Promise, header), &body)
}

/// The text of an accept whose action is a call.
#[inline(always)]
pub fn accept_text(header: Header, action: &Action) -> [u8; 31]
    requires { IsCallAction action.now }
    ensures { result ≡ text_of (accept_at header action.now) }
{
    let body = vote_bytes(header.position, header.ballot, action);
    joined(&head_bytes(Kind::Accept, header), &body)
}

/// The text of a vote for a call.
#[inline(always)]
pub fn accepted_text(header: Header, action: &Action) -> [u8; 31]
    requires { IsCallAction action.now }
    ensures { result ≡ text_of (accepted_at header action.now) }
{
    let body = vote_bytes(header.position, header.ballot, action);
    joined(&head_bytes(Kind::Accepted, header), &body)
}

/// The text of a decided call.
#[inline]
pub fn decided_text(decision: &SentDecision) -> [u8; 23]
    requires { IsCallAction decision.now.action }
    ensures { result ≡ text_of (decided_of decision.now) }
{
    let head = [
        VERSION,
        Kind::Decided.number(),
        decision.from.get(),
        decision.to.get(),
    ];
    let call = call_bytes(&decision.action);
    let body: [u8; 19] = joined(&position_bytes(decision.position), &call);
    joined(&head, &body)
}

/// The text of a reply with this value.
#[inline(always)]
pub fn value_reply_text(sent: &SentReply, value: i64) -> [u8; 17]
    requires { sent.now.reply ≡ Value value }
    ensures { result ≡ text_of (reply_sent sent.now) }
{
    let head = [
        VERSION,
        Kind::Reply.number(),
        sent.from.get(),
        TASK_BASE + sent.task.get(),
    ];
    let reply: [u8; 9] = joined(&[1], &value_bytes(value));
    let body: [u8; 13] = joined(&count_bytes(sent.number), &reply);
    joined(&head, &body)
}

/// The text of a record of a ballot that is started.
#[inline]
pub fn started_text(ballot: Ballot) -> [u8; 10]
    ensures { result ≡ record_text (Started ballot) }
{
    joined(&[VERSION, 1], &ballot_bytes(ballot))
}

/// The text of a record of a promise.
#[inline]
pub fn promised_text(position: Position, ballot: Ballot) -> [u8; 12]
    ensures { result ≡ record_text (Promised position ballot) }
{
    joined(&[VERSION, 2], &bound_bytes(position, ballot))
}

/// The text of a record of a vote for a call.
#[inline(always)]
pub fn voted_text(position: Position, ballot: Ballot, action: &Action) -> [u8; 29]
    requires { IsCallAction action.now }
    ensures { result ≡ record_text (Voted position ballot action.now) }
{
    joined(&[VERSION, 3], &vote_bytes(position, ballot, action))
}

/// The text of a record of a call that is learned.
#[inline]
pub fn learned_text(position: Position, action: &Action) -> [u8; 21]
    requires { IsCallAction action.now }
    ensures { result ≡ record_text (Learned position action.now) }
{
    let call = call_bytes(action);
    let body: [u8; 19] = joined(&position_bytes(position), &call);
    joined(&[VERSION, 4], &body)
}
