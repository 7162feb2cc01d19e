//! A task that answers requests.

ghost use Rattle.std.specs.Prelude.{◌≡◌, ◌≤◌, [], ◌∷◌, length, Some, None, IfOk, IfErr};
ghost use Rattle.rp_base.specs.Action.{IsRight};
ghost use Rattle.rp_base.specs.Calls.{next_call};
ghost use Rattle.rp_base.specs.declared.fault.Fault.TheVariants as faults;
ghost use Rattle.rp_base.specs.Number.{IsTask};
ghost use Rattle.rp_codec.specs.Message.{IsCallOf};
ghost use Rattle.rp_codec.specs.Text.{text_of, reply_text};
ghost use Rattle.rp_codec.specs.Usual.{reply_sent};
ghost use Rattle.rp_codec.specs.declared.packet.Party.TheVariants.{Task as TaskParty};
ghost use Rattle.rp_tasks.specs.Calls.{no_calls, task_after};
ghost use Rattle.rp_requests.specs.Buffers.{IsPutInFront};
ghost use Rattle.rp_requests.specs.TaskRequests.{task_asked, task_asked_of, IsRightTaskRequest, TakePacket};
ghost use Rattle.rp_requests.specs.Tasks.{TaskAnswers, TaskDoes, again_text, call_packet, is_task, once_taken, reply_taken, taken_text};
ghost use Rattle.rp_requests.specs.declared.refusal.Refusal.TheVariants as refusals;

use crate::buffer::{Lengths, put_short};
use crate::refusal::Refusal;
use crate::task_request::{TaskRequest, task_request_of};
use rp_base::{Action, Fault, NodeId, Reply, TaskId};
use rp_codec::{Body, Packet, Party, SentReply, decode, text_of_packet, usual_reply};
use rp_tasks::Stub;
use std::alloc::Global;
use std::marker::Model;

/// The fewest bytes of a buffer for the answer of a task.
pub const TASK_BYTES: usize = 40;

/// A task, with its number and the calls that it made.
#[derive(Drop)]
pub struct Task {
    task: TaskId,
    stub: Stub,
}

impl Model for Task {
    ghost use Rattle.std.specs.Prelude.{◌≡◌, IfSome};
    ghost use Rattle.rp_codec.specs.Message.{IsCallBy};
    ghost use Rattle.rp_tasks.specs.Calls.{Calls};

    ghost Value = { Calls };

    ghost view = { λ t. t.stub };

    ghost invariant = { λ t. (t.stub.task ≡ t.task)
        × IfSome t.stub.outstanding (IsCallBy t.task) };
}

impl Task {
    /// The task of this number, 1 to 8, which has made no call; `BadConfig` for another number.
    pub fn new(number: u8) -> Result<Self, Refusal>
        ensures ok { IfOk result (λ task. task ≡ no_calls number) }
        ensures err { IfErr result (λ refusal. (refusal ≡ refusals.Fault faults.BadConfig)
            × (¬ IsTask number)) }
    {
        Task::after(number, 0)
    }

    /// The task of this number, 1 to 8, which has made n calls, none of which is outstanding: its
    /// next call has number n + 1. `BadConfig` for another number.
    pub fn after(number: u8, calls: u32) -> Result<Self, Refusal>
        // claim (ok): A task by handle that goes on after n calls numbers its next one n + 1
        ensures ok { IfOk result (λ task. task ≡ task_after number calls) }
        ensures err { IfErr result (λ refusal. (refusal ≡ refusals.Fault faults.BadConfig)
            × (¬ IsTask number)) }
    {
        match TaskId::new(number) {
            Some(task) => Ok(Task {
                task,
                stub: Stub::after(task, calls),
            }),
            None => Err(Refusal::Fault(Fault::BadConfig)),
        }
    }

    /// Answers a request: the packet of a call to send, or the reply in a packet; the buffer has at
    /// least `TASK_BYTES` bytes. Refused with `ShortAnswer` if the buffer is too short, with
    /// `BadRequest` if the bytes are no request, with `TaskBusy` or `NumbersSpent` if no call may
    /// be made, and with `BadPacket` or `OutOfMemory` if a packet could not be read.
    #[inline(never)]
    pub fn call(
        &mut self,
        alloc: Global,
        request: &[u8],
        answer: &mut [u8],
    ) -> Result<Lengths, Refusal>
        // claim: A task by handle makes of each request what its bytes ask for, as its stub does: a
        //   call's packet, the outstanding call's packet again, or the reply to it; what is refused
        //   changes nothing
        ensures { TaskAnswers (task_asked_of request.now) self.old self.new
            answer.old answer.new result }
    {
        if answer.len() < TASK_BYTES {
            return Err(Refusal::ShortAnswer(TASK_BYTES));
        }
        match task_request_of(request) {
            Some(request) => self.serve(alloc, &request, answer),
            None => Err(Refusal::BadRequest),
        }
    }

    /// Answers the request that brings a packet, as `call`, by the packet alone.
    #[tactic(auto, unfolding(crate::specs::TaskRequests::task_asked_of, crate::specs::TaskRequests::task_asked_by))]
    pub fn receive(
        &mut self,
        alloc: Global,
        packet: &[u8],
        answer: &mut [u8],
    ) -> Result<Lengths, Refusal>
        // claim: A task by handle makes of a packet alone what it makes of the request that brings it
        ensures { TaskAnswers (task_asked_of (3 ∷ packet.now)) self.old self.new
            answer.old answer.new result }
    {
        if answer.len() >= TASK_BYTES {
            self.take_packet(alloc, packet, answer)
        } else {
            Err(Refusal::ShortAnswer(TASK_BYTES))
        }
    }

    /// Answers a request that was read.
    fn serve(
        &mut self,
        alloc: Global,
        request: &TaskRequest<'_>,
        answer: &mut [u8],
    ) -> Result<Lengths, Refusal>
        requires right { IsRightTaskRequest request.now }
        requires room { 40 ≤ length answer.old }
        ensures { TaskDoes (Some (task_asked request.now))
            self.old self.new answer.old answer.new result }
    {
        match request {
            TaskRequest::Call {
                node,
                object,
                operation,
                arg,
            } => match self.stub.call(*object, *operation, *arg) {
                Ok(action) => Ok(put_call(self.task, *node, action, answer)),
                Err(fault) => Err(Refusal::Fault(fault)),
            },
            TaskRequest::Again(node) => Ok(self.put_again(*node, answer)),
            TaskRequest::Receive(packet) => self.take_packet(alloc, packet, answer),
        }
    }

    /// Puts the packet of the outstanding call to a node, or nothing if there is no such call.
    fn put_again(&self, node: NodeId, answer: &mut [u8]) -> Lengths
        requires room { 40 ≤ length answer.old }
        ensures { IsPutInFront [] (again_text self.now.task node self.now.outstanding)
            answer.old answer.new result }
    {
        match self.stub.retry() {
            Some(action) => put_call(self.task, node, action, answer),
            None => put_short(&[], answer),
        }
    }

    /// Takes the reply of a packet, if it is one to the outstanding call; otherwise the answer is
    /// empty.
    fn take_packet(
        &mut self,
        alloc: Global,
        bytes: &[u8],
        answer: &mut [u8],
    ) -> Result<Lengths, Refusal>
        requires room { 40 ≤ length answer.old }
        ensures { TaskDoes (Some (TakePacket bytes.now))
            self.old self.new answer.old answer.new result }
    {
        if let Ok(sent) = usual_reply(bytes) {
            return Ok(self.take_reply(&sent, answer));
        }
        match decode(alloc, bytes) {
            Ok(Ok(packet)) => Ok(self.take(&packet, answer)),
            Ok(Err(reason)) => Err(Refusal::Fault(Fault::BadPacket(reason))),
            Err(_) => Err(Refusal::Fault(Fault::OutOfMemory)),
        }
    }

    /// Takes a reply, if it is one to the outstanding call; otherwise the answer is empty.
    #[inline(always)]
    fn take_reply(&mut self, sent: &SentReply, answer: &mut [u8]) -> Lengths
        requires room { 40 ≤ length answer.old }
        ensures taken { self.new ≡ once_taken self.old (reply_taken self.old (reply_sent sent.now)) }
        ensures put { IsPutInFront [] (taken_text (reply_taken self.old (reply_sent sent.now)))
            answer.old answer.new result }
    {
        if sent.task.get() != self.task.get() {
            return put_short(&[], answer);
        }
        if !self.stub.reply(sent.number, sent.reply) {
            return put_short(&[], answer);
        }
        put_reply(sent.reply, answer)
    }

    /// Takes the reply of a decoded packet, if it is one to the outstanding call; otherwise the
    /// answer is empty.
    fn take(&mut self, packet: &Packet, answer: &mut [u8]) -> Lengths
        requires room { 40 ≤ length answer.old }
        ensures taken { self.new ≡ once_taken self.old (reply_taken self.old packet.now) }
        ensures put { IsPutInFront [] (taken_text (reply_taken self.old packet.now))
            answer.old answer.new result }
    {
        if !self.is_to(packet.to()) {
            return put_short(&[], answer);
        }
        let Body::Reply { number, reply } = *packet.body() else {
            return put_short(&[], answer);
        };
        if !self.stub.reply(number, reply) {
            return put_short(&[], answer);
        }
        put_reply(reply, answer)
    }

    /// Whether the party is this task.
    fn is_to(&self, party: Party) -> bool
        ensures { result ≡ is_task self.now.task party }
    {
        match party {
            Party::Task(task) => task.get() == self.task.get(),
            Party::Node(_) | Party::Audit => false,
        }
    }
}

/// Puts the packet of a call of the task to a node.
fn put_call(task: TaskId, node: NodeId, action: Action, answer: &mut [u8]) -> Lengths
    requires own { IsCallOf (TaskParty task) action }
    requires right { IsRight action }
    requires room { 40 ≤ length answer.old }
    ensures { IsPutInFront [] (text_of (call_packet task node action)) answer.old answer.new result }
{
    let packet = Packet::new(Party::Task(task), Party::Node(node), Body::Call { action });
    put_short(text_of_packet(&packet).as_slice(), answer)
}

/// Puts a reply: 1 and a value of eight bytes, 2 and a boolean of one byte, or 3 to 5 alone.
fn put_reply(reply: Reply, answer: &mut [u8]) -> Lengths
    requires room { 40 ≤ length answer.old }
    ensures { IsPutInFront [] (reply_text reply) answer.old answer.new result }
{
    match reply {
        Reply::Value(value) => put_tagged(1, &value.to_be_bytes(), answer),
        Reply::Truth(truth) => put_short(&[2, u8::from(truth)], answer),
        Reply::ConstraintError => put_short(&[3], answer),
        Reply::ProgramError => put_short(&[4], answer),
        Reply::NoSuchOperation => put_short(&[5], answer),
    }
}

/// Puts a byte and then eight others.
fn put_tagged(tag: u8, bytes: &[u8; 8], answer: &mut [u8]) -> Lengths
    requires room { 40 ≤ length answer.old }
    ensures { IsPutInFront [] (tag ∷ bytes.now) answer.old answer.new result }
{
    answer[0] = tag;
    answer[1..9].copy_from_slice(bytes);
    Lengths { stored: 0, used: 9 }
}
