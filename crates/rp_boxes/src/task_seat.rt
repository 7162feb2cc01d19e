//! The seat of a task.

ghost use Rattle.std.specs.Prelude.{◌≡◌, [], IfOk, IfErr, IfSome, OnErr};
ghost use Rattle.rp_base.specs.Action.{IsRight};
ghost use Rattle.rp_base.specs.declared.fault.Fault.TheVariants.{OutOfMemory};
ghost use Rattle.rp_codec.specs.Message.{IsCallBy};
ghost use Rattle.rp_model.specs.Tasks.{Submit, Again};
ghost use Rattle.rp_board.specs.Parts.{task_of};
ghost use Rattle.rp_board.specs.Seats.{IsGotText};
ghost use Rattle.rp_boxes.specs.OneOrder.{HasOneOrder};
ghost use Rattle.rp_boxes.specs.TaskSeats.{IsTaskTurn, IsNoTaskTurn, IsReplyTurn};
ghost use Rattle.rp_boxes.specs.TaskSeats.{asked_of, DescribesPackets, reply_effect};

use crate::input::node_keeps_range;
use rp_actors::{Task, asks, decode_reply};
use rp_agreement::tasks_send_right_packets;
use rp_base::{Action, Answer, Config, Fault, NodeId, Operation, Reply, TaskId};
use rp_board::{Fetch, Put, Seat, order_laws};
use rp_codec::{Party, encode_onto};
use rp_machine::Machine;
use rp_model::Dropped;
use rp_replica::Sent;
use std::alloc::{AllocError, Global};
use std::marker::{Brand, Model};

/// The seat of a task: its calls and replies, and its seat at the table that all share. It may be
/// moved to another thread, and none of its calls blocks.
#[derive(Drop)]
pub struct TaskSeat<M: Machine> {
    /// The configuration that all nodes share.
    pub(crate) config: Config,
    pub(crate) task: Task,
    pub(crate) seat: Seat<M, TaskId>,
}

impl<M: Machine> Model for TaskSeat<M> {
    ghost use Rattle.rp_board.specs.Seats.{SeatState};
    ghost use Rattle.rp_boxes.specs.TaskSeats.{IsTaskAt};

    ghost Value = { SeatState M.Program };

    ghost view = { λ s. s.seat };

    ghost invariant = { λ s. IsTaskAt s.config s.task s.seat.setup s.seat.part.role };
}

impl<M: Machine> TaskSeat<M> {
    /// The task makes its next call and asks a node for it. It is one event. `TaskBusy` while a
    /// call waits for its reply, `NumbersSpent` after call 2^32 - 1, `BadConfig` for a node above
    /// the last or a call that is not right, or `OutOfMemory`: then nothing has happened.
    pub fn call(
        &mut self,
        alloc: Global,
        node: NodeId,
        object: u8,
        operation: Operation,
        arg: i64,
    ) -> Result<Sent, Fault>
        // claim: A call of a task's seat is exactly one event of its part, and its bytes are the
        //   event's packet; so is a call that is sent again. A refusal is the task's, or is out of
        //   memory, and changes nothing
        ensures ok { IfOk result (λ sent. IsTaskTurn self.old (Submit node object operation arg)
            self.new sent) }
        ensures err { IfErr result (λ fault. IsNoTaskTurn self.old
            (Submit node object operation arg) self.new fault) }
    {
        tasks_send_right_packets();
        node_keeps_range(node);
        let call = Some(self.task.next(self.config, node, object, operation, arg)?);
        let number = self.seat.number();
        let buffer = self.seat.buffer(alloc);
        let sent = asking(buffer, number, node, &call)?;
        self.task.call(object, operation, arg);
        let event = (&self.task, number, node, call);
        self.seat.note::<_, Brand>(&event);
        Ok(sent)
    }

    /// The task asks a node once more for the call that waits for its reply, or sends nothing if
    /// none waits. It is one event. `BadConfig` for a node above the last, or `OutOfMemory`: then
    /// nothing has happened.
    pub fn retry(&mut self, alloc: Global, node: NodeId) -> Result<Sent, Fault>
        // claim as TaskSeat::call
        ensures ok { IfOk result (λ sent. IsTaskTurn self.old (Again node) self.new sent) }
        ensures err { IfErr result (λ fault. IsNoTaskTurn self.old (Again node) self.new fault) }
    {
        if node.get() > self.config.nodes {
            return Err(Fault::BadConfig);
        }
        let call = self.task.outstanding();
        let number = self.seat.number();
        let buffer = self.seat.buffer(alloc);
        let sent = asking(buffer, number, node, &call)?;
        let event = (&self.task, number, node, call);
        self.seat.note::<_, Brand>(&event);
        Ok(sent)
    }

    /// A packet that the seat got, given as its text, arrives at the task. It is one event. A reply
    /// to the call that waits is taken, and completes that call; any other packet changes neither
    /// calls nor replies. There is then one order of decided actions, which all replies of the task
    /// follow. If memory runs out, nothing has happened.
    pub fn reply(&mut self, alloc: Global, packet: &[u8]) -> Result<Option<Answer>, Fault>
        requires got { IsGotText self.old.part packet.now }
        // claim (ok, err): A packet that is given to a task's seat is exactly one event of its
        //   part, and its reply is taken if it is to the call that waits
        ensures ok { IfOk result (λ taken. IsReplyTurn self.old packet.now self.new taken) }
        // claim (stated): After a packet was given to a task's seat there is one order, in a world
        //   that contains the task's part: its action at each position is decided there, and no
        //   call takes effect in it that no task of that world made. Each reply of the task
        //   answers its call, which takes effect at one place, and the calls of the task that
        //   count there are those that its seat sent, in order: all of them, or all but the one
        //   that waits
        ensures stated { IfOk result
            (λ taken. HasOneOrder M.next M.answers M.begin self.new) }
        ensures err { IfErr result (λ fault. (fault ≡ OutOfMemory) × (self.new ≡ self.old)) }
    {
        order_laws::<M>();
        let stated = decode_reply(alloc, packet)?;
        self.seat.packets_are_right();
        let taken = take(&mut self.task, stated)?;
        self.seat.note::<_, Brand>(&self.task);
        self.seat.look();
        Ok(taken)
    }

    /// The number of the task.
    pub fn number(&self) -> TaskId
        ensures { result ≡ self.now.setup.number }
    {
        self.seat.number()
    }

    /// The replies that the task took, in order.
    pub fn replies(&self) -> &[Answer]
        ensures { result.now ≡ (task_of self.now.part.role).replies }
    {
        self.task.replies()
    }
}

impl<M: Machine> Fetch<M> for TaskSeat<M> {
    ghost use Rattle.rp_codec.specs.declared.packet.Party.TheVariants.{Task};

    ghost state = { λ seat. seat };

    ghost party = { Task };

    fn fetch(&mut self, from: Party) -> Option<Vec<u8>> {
        self.seat.fetch(from)
    }
}

impl<M: Machine> Put<M> for TaskSeat<M> {
    ghost use Rattle.rp_codec.specs.declared.packet.Party.TheVariants.{Task};

    ghost state = { λ seat. seat };

    ghost party = { Task };

    fn put(&mut self, packet: Vec<u8>) -> Result<(), Vec<u8>> {
        self.seat.put(packet)
    }

    fn lend(&mut self, buffer: Vec<u8>) {
        self.seat.lend(buffer);
    }

    fn buffer(&mut self, alloc: Global) -> Vec<u8> {
        self.seat.buffer(alloc)
    }
}

/// The packet in which a task asks a node for this call, if there is one, encoded into this buffer.
fn asking(
    buffer: Vec<u8>,
    task: TaskId,
    node: NodeId,
    call: &Option<Action>,
) -> Result<Sent, AllocError>
    requires empty { buffer.items ≡ [] }
    requires own { IfSome call.now (λ action. IsCallBy task action) }
    requires right { IfSome call.now IsRight }
    ensures { IfOk result (λ sent. DescribesPackets sent (asked_of task node call.now)) }
{
    let mut bytes = buffer;
    match call {
        Some(action) => {
            encode_onto(&asks(task, node, *action), &mut bytes)?;
            Ok(Sent {
                bytes,
                packets: 1,
                dropped: Dropped::No,
            })
        }
        None => {
            Ok(Sent {
                bytes,
                packets: 0,
                dropped: Dropped::No,
            })
        }
    }
}

/// The task takes a reply, if there is one. If memory runs out, nothing changes.
fn take(task: &mut Task, stated: Option<(u32, Reply)>) -> Result<Option<Answer>, AllocError>
    ensures part { IfOk result (λ taken. task.new ≡ record task.old {
      part = (reply_effect task.old.task task.old.part stated).part;
    }) }
    ensures taken { IfOk result (λ taken. taken
        ≡ (reply_effect task.old.task task.old.part stated).taken) }
    ensures err { OnErr result (task.new ≡ task.old) }
{
    match stated {
        Some((number, reply)) => task.take(number, reply),
        None => Ok(None),
    }
}
