//! A call that a task by handle waits for, or makes next, can count, and can be answered.

ghost use Rattle.std.specs.Prelude.{◌≡◌, ℕ, ℤ, suc, Some, List};
ghost use Rattle.rp_base.specs.Action.{IsRight};
ghost use Rattle.rp_base.specs.Config.{IsRightConfig};
ghost use Rattle.rp_base.specs.Majority.{AreNodes};
ghost use Rattle.rp_base.specs.declared.action.Action.{Action};
ghost use Rattle.rp_base.specs.declared.action.Action.TheVariants.{Call};
ghost use Rattle.rp_base.specs.declared.action.Operation.{Operation};
ghost use Rattle.rp_base.specs.declared.config.Config.{Config};
ghost use Rattle.rp_base.specs.declared.record.Rec.{Rec};
ghost use Rattle.rp_requests.specs.rp_tasks.specs.Calls.{Calls};
ghost use Rattle.rp_installations.specs.Moves.{IsInstallation};
ghost use Rattle.rp_installations.specs.Sites.{Installation};
ghost use Rattle.rp_progress.specs.Waiting.{IsQuorum, IsPositionLeft, AreBallotsLeft};
ghost use Rattle.rp_progress_by_handle.specs.ByHandle.{AreOnDevices, IsTaskAt, IsIdleAt, HasLost};
ghost use Rattle.rp_progress_by_handle.specs.ByHandle.{CanCountByHandle, CanBeAnsweredByHandle};

use rp_agreement::replies_follow_the_order;
use rp_installations::histories_keep_ranges;
use rp_machine::Machine;
use rp_progress::{a_task_can_go_on, a_waiting_call_can_count};
use rp_requests::{node_requests_are_read_back, task_requests_are_read_back};

/// Whatever callers did with nodes and tasks by handle, by the rules, each call that a task waits
/// for can count: callers of any majority of the nodes and of this task can go on, by the rules, so
/// that any of these nodes applies it, whatever packets are lost of those that were handed on
/// before, if a position of the log and enough ballots are left by what is synced on the devices.
/// And if what is applied then answers the call, a request of its task has returned this answer.
pub fn a_call_by_handle_can_count<M: Machine>()
    // claim: Whatever callers of nodes and tasks by handle did, by the rules, those of any majority
    //   of the nodes, led by any of them, can go on by the rules so that a call that a task waits
    //   for counts, and is answered if what is applied then answers it, with no packet of before
    //   and no other node, if a position and ballots are left
    ensures { (config : Config) (program : M.Program) (moves : List (Installation M))
        (now after : Installation M) (quorum : List ℕ) (leader i round t : ℕ)
        (records : ℕ → List Rec) (calls : Calls) (replies : List (List ℕ)) (call : Action)
        → IsRightConfig config
        → IsInstallation M.next M.answers M.image config (M.begin program) moves now
        → IsQuorum config.nodes quorum leader → AreOnDevices now quorum records
        → IsPositionLeft config.max_positions records quorum i
        → AreBallotsLeft records quorum leader i round
        → IsTaskAt now t calls replies → calls.outstanding ≡ Some call
        → HasLost now after
        → CanCountByHandle M.next M.answers M.image config (M.begin program) quorum leader t
        calls.made replies after }
{
    a_waiting_call_can_count::<M>();
    replies_follow_the_order::<M>();
    M::laws();
    histories_keep_ranges::<M>();
    node_requests_are_read_back();
    task_requests_are_read_back();
}

/// Whatever callers did with nodes and tasks by handle, by the rules, each call that a task waits
/// for can be answered, by moves as above: a request of its task returns a reply to it, unless the
/// call waits at its object then, as at a closed entry.
pub fn a_call_by_handle_can_be_answered<M: Machine>()
    // claim: Whatever callers of nodes and tasks by handle did, by the rules, those of any majority
    //   can go on by the rules so that a request of a task that waits returns its reply, unless its
    //   call then waits at its object
    ensures { (config : Config) (program : M.Program) (moves : List (Installation M))
        (now after : Installation M) (quorum : List ℕ) (leader i round t : ℕ)
        (records : ℕ → List Rec) (calls : Calls) (replies : List (List ℕ)) (call : Action)
        → IsRightConfig config
        → IsInstallation M.next M.answers M.image config (M.begin program) moves now
        → IsQuorum config.nodes quorum leader → AreOnDevices now quorum records
        → IsPositionLeft config.max_positions records quorum i
        → AreBallotsLeft records quorum leader i round
        → IsTaskAt now t calls replies → calls.outstanding ≡ Some call
        → HasLost now after
        → CanBeAnsweredByHandle M.next M.answers M.image config (M.begin program) quorum leader t
        calls.made replies after }
{
    a_call_by_handle_can_count::<M>();
}

/// Whatever callers did with nodes and tasks by handle, by the rules, a task that waits for nothing,
/// or that was never opened, can make any right call next, and goes on as a task that waits.
pub fn a_task_by_handle_can_go_on<M: Machine>()
    // claim: Whatever callers of nodes and tasks by handle did, by the rules, a task that waits for
    //   nothing, or was never opened, can make any right call next, and it can count and be answered
    ensures { (config : Config) (program : M.Program) (moves : List (Installation M))
        (now after : Installation M) (quorum : List ℕ) (leader i round t object : ℕ)
        (operation : Operation) (arg : ℤ) (records : ℕ → List Rec) (calls : Calls)
        (replies : List (List ℕ))
        → IsRightConfig config
        → IsInstallation M.next M.answers M.image config (M.begin program) moves now
        → IsQuorum config.nodes quorum leader → AreOnDevices now quorum records
        → IsPositionLeft config.max_positions records quorum i
        → AreBallotsLeft records quorum leader i round
        → IsIdleAt now t calls replies
        → IsRight (Call t (suc calls.made) object operation arg)
        → HasLost now after
        → CanCountByHandle M.next M.answers M.image config (M.begin program) quorum leader t
        (suc calls.made) replies after }
{
    a_task_can_go_on::<M>();
    replies_follow_the_order::<M>();
    M::laws();
    histories_keep_ranges::<M>();
    node_requests_are_read_back();
    task_requests_are_read_back();
}

/// Whatever callers did with nodes and tasks by handle, by the rules, each node's device holds some
/// whole records among the bytes that are synced. So the laws above speak of every installation.
pub fn devices_hold_records<M: Machine>()
    // claim: Whatever callers of nodes by handle did, by the rules, each node's device holds whole
    //   records, and torn bytes after them
    ensures { (config : Config) (program : M.Program) (moves : List (Installation M))
        (now : Installation M) (quorum : List ℕ)
        → IsRightConfig config
        → IsInstallation M.next M.answers M.image config (M.begin program) moves now
        → AreNodes config.nodes quorum
        → (records : ℕ → List Rec) × AreOnDevices now quorum records }
{
    histories_keep_ranges::<M>();
}
