//! Calls that cannot count at a node yet, and interrupts that are over.

ghost use Rattle.std.specs.Prelude.{◌≡◌, ◌≤◌, ◌+◌, ◌&&◌, not, nat_eq};
ghost use Rattle.rp_codec.specs.Reading.{all_of};
ghost use Rattle.rp_replica.specs.rp_machine.specs.Asked.{last_number, waits};
ghost use Rattle.rp_replica.specs.rp_rules.specs.Inputs.{IsRightInput, given_by, packet_given};
ghost use Rattle.rp_requests.specs.Timing.{answered_by, comes_early, comes_late, counted_by, is_call, is_early, is_early_packet};

use crate::node::HandleNode;
use rp_base::{Action, TaskId};
use rp_codec::{Body, Kind, Packet, Party, decode, usual_call};
use rp_machine::Machine;
use rp_replica::Input;
use std::alloc::Global;

impl<M: Machine> HandleNode<M> {
    /// Whether the input brings this node a call that cannot count at it now: then the node takes
    /// no such step, as if the packet were lost.
    #[inline(always)]
    pub(crate) fn comes_early(&self, alloc: Global, input: &Input<'_>) -> bool
        ensures { result ≡ comes_early M.next M.answers self.now.replica (given_by input.now) }
    {
        match input {
            Input::Receive(bytes) => self.is_early_text(alloc, bytes),
            _ => false,
        }
    }

    /// Whether the bytes bring this node such a call. Of the packets that come few are calls.
    #[inline(always)]
    fn is_early_text(&self, alloc: Global, bytes: &[u8]) -> bool
        ensures { result ≡ comes_early M.next M.answers self.now.replica
            (packet_given (all_of bytes.now)) }
    {
        if !is_call(Kind::of_text(bytes)) {
            return false;
        }
        self.is_early_call(alloc, bytes)
    }

    /// Whether the bytes, whose kind is that of a call, bring this node such a call.
    #[inline(never)]
    fn is_early_call(&self, alloc: Global, bytes: &[u8]) -> bool
        ensures { result ≡ comes_early M.next M.answers self.now.replica
            (packet_given (all_of bytes.now)) }
    {
        if let Ok(call) = usual_call(bytes) {
            return call.to == self.replica.node() && self.is_early(&call.action);
        }
        match decode(alloc, bytes) {
            Ok(Ok(packet)) => self.is_early_packet(&packet),
            Ok(Err(_)) => false,
            Err(_) => false,
        }
    }

    /// Whether the packet brings this node such a call.
    fn is_early_packet(&self, packet: &Packet) -> bool
        ensures { result ≡ is_early_packet M.next M.answers self.now.replica packet.now }
    {
        let Party::Node(to) = packet.to() else {
            return false;
        };
        match packet.body() {
            Body::Call { action } => to == self.replica.node() && self.is_early(action),
            _ => false,
        }
    }

    /// Whether the action is a call that cannot count now, and none above it counted.
    fn is_early(&self, action: &Action) -> bool
        ensures { result ≡ is_early (counted_by M.next M.answers self.now.replica)
            (answered_by M.next M.answers self.now.replica) action.now }
    {
        match *action {
            Action::Call { task, number, .. } => {
                self.replica.last_number(task) < number && !self.can_count(task, number)
            }
            _ => false,
        }
    }

    /// Whether the call of this number is its task's next, and the task does not wait.
    fn can_count(&self, task: TaskId, number: u32) -> bool
        requires { 1 ≤ number }
        ensures { let counted = counted_by M.next M.answers self.now.replica in
            result ≡ (nat_eq number (last_number task counted + 1)
            && not (waits task counted (answered_by M.next M.answers self.now.replica))) }
    {
        number - 1 == self.replica.last_number(task) && !self.waits(task)
    }

    /// Whether the task's last call that counted has no reply yet.
    fn waits(&self, task: TaskId) -> bool
        ensures { result ≡ waits task (counted_by M.next M.answers self.now.replica)
            (answered_by M.next M.answers self.now.replica) }
    {
        let last = self.replica.last_number(task);
        last != 0 && self.replica.server().kept_reply(task, last).is_none()
    }

    /// Whether the input is an interrupt of which this occurrence or a higher one counted.
    #[inline(always)]
    pub(crate) fn comes_late(&self, input: &Input<'_>) -> bool
        requires { IsRightInput input.now }
        ensures { result ≡ comes_late M.next M.answers self.now.replica (given_by input.now) }
    {
        match input {
            Input::Interrupt { source, occurrence } => {
                *occurrence <= self.replica.server().last_occurrence(*source)
            }
            _ => false,
        }
    }
}

/// Whether the kind is that of calls.
fn is_call(kind: Option<Kind>) -> bool
    ensures { result ≡ is_call kind }
{
    match kind {
        Some(Kind::Call) => true,
        _ => false,
    }
}
