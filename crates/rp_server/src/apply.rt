//! What is learned is applied in order, and answered (Lamport, "Paxos Made Simple", section 3).

ghost use Rattle.std.specs.Prelude.{◌≡◌, ℕ, suc, ◌+◌, ◌*◌, ◌<◌, ◌≤◌, ◌++◌, false, Some, None, IsTrue, length, map};
ghost use Rattle.rp_base.specs.Action.{IsRight};
ghost use Rattle.rp_base.specs.Sets.{IsSet};
ghost use Rattle.rp_base.specs.declared.action.Action.{Action};
ghost use Rattle.rp_log.specs.Contents.{IsTakenInOrder, action_at, next_to_take};
ghost use Rattle.rp_machine.specs.Calls.{call_of};
ghost use Rattle.rp_machine.specs.Numbered.{outcome};
ghost use Rattle.rp_model.specs.Pending.{replies_to};
ghost use Rattle.rp_server.specs.Applying.{AppliesMore, HasReplied};
ghost use Rattle.rp_outbox.specs.Packets.{longest_text};

use crate::pending::Pending;
use rp_base::{Action, Answer, Answers, NodeId};
use rp_log::Log;
use rp_machine::{Machine, Numbered};
use rp_outbox::Outbox;

/// Applies the next action that is ready, if one is, and puts its answers in place of those that
/// are there.
#[inline(always)]
fn apply_next<M: Machine>(machine: &mut Numbered<M>, log: &mut Log, answers: &mut Answers) -> bool
    requires right { (i : ℕ) (v : Action) → action_at log.old i ≡ Some v → IsRight v }
    requires taken { machine.old.actions ≡ log.old.taken }
    ensures more { IsTrue result →
        AppliesMore M.next M.answers log.old log.new machine.old machine.new answers.new }
    ensures one { IsTrue result → length log.new.taken ≡ suc (length log.old.taken) }
    ensures within { IsTrue result → length log.new.taken < 65536 }
    ensures once { IsTrue result →
        IsSet (map call_of (outcome M.next M.answers machine.new).given) }
    ensures none { result ≡ false → action_at log.old (next_to_take log.old) ≡ None }
    ensures stays { result ≡ false → (log.new ≡ log.old) × (machine.new ≡ machine.old) }
{
    let Some(action) = log.ready() else {
        return false;
    };
    machine.apply(action, answers);
    log.take();
    true
}

/// Applies all that is ready, in order.
pub(crate) fn apply_ready<M: Machine>(machine: &mut Numbered<M>, log: &mut Log)
    requires right { (i : ℕ) (v : Action) → action_at log.old i ≡ Some v → IsRight v }
    requires taken { machine.old.actions ≡ log.old.taken }
    ensures begin { machine.new.begin ≡ machine.old.begin }
    ensures taken { machine.new.actions ≡ log.new.taken }
    ensures places { log.new.places ≡ log.old.places }
    ensures none { action_at log.new (next_to_take log.new) ≡ None }
    ensures ordered { IsTakenInOrder log.new }
{
    let mut answers = Answers::new();
    while apply_next(machine, log, &mut answers) {}
    log.applied();
}

/// Applies all that is ready, in order, and pushes a reply for each answer whose call is pending.
/// It takes no memory.
#[inline(always)]
pub(crate) fn apply_and_reply<M: Machine>(
    machine: &mut Numbered<M>,
    log: &mut Log,
    me: NodeId,
    pending: &Pending,
    out: &mut Outbox,
)
    requires right { (i : ℕ) (v : Action) → action_at log.old i ≡ Some v → IsRight v }
    requires taken { machine.old.actions ≡ log.old.taken }
    requires room { longest_text * length pending.now ≤ out.old.room }
    ensures replied { HasReplied M.next M.answers me pending.now
        log.old log.new machine.old machine.new out.old out.new }
    ensures none { action_at log.new (next_to_take log.new) ≡ None }
    ensures ordered { IsTakenInOrder log.new }
{
    let mut answers = Answers::new();
    while apply_next(machine, log, &mut answers) {
        reply_to(me, pending, answers.as_slice(), out);
    }
    log.applied();
}

/// Pushes a reply for each of the answers whose call is pending.
#[inline(always)]
fn reply_to(me: NodeId, pending: &Pending, answers: &[Answer], out: &mut Outbox)
    requires { longest_text * length (replies_to me pending.now answers.now) ≤ out.old.room }
    ensures sent { out.new.sent
        ≡ out.old.sent ++ replies_to me pending.now answers.now }
    ensures room { out.old.room
        ≤ out.new.room + longest_text * length (replies_to me pending.now answers.now) }
{
    for answer in answers {
        if pending.awaits(answer) {
            out.reply(me, answer);
        }
    }
}
