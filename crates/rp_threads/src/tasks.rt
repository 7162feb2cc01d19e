//! A task's calls, one after the other.

ghost use Rattle.std.specs.Prelude.{◌≡◌, ◌≤◌, ◌-◌, if◌then◌else◌, [], Some, IfOk, IfErr, OnOk};
ghost use Rattle.rp_base.specs.declared.fault.Fault.TheVariants.{OutOfMemory};
ghost use Rattle.rp_board.specs.Parts.{fresh_part, OfTask};
ghost use Rattle.rp_board.specs.Seats.{IsSentText};
ghost use Rattle.rp_codec.specs.declared.packet.Party.TheVariants as parties;
ghost use Rattle.rp_replica.specs.rp_model.specs.Parts.{fresh_task};
ghost use Rattle.rp_replica.specs.rp_model.specs.Tasks.{Again};
ghost use Rattle.rp_threads.specs.Lines.{HoldsTextsOf, given_on, line_after};
ghost use Rattle.rp_threads.specs.TaskRounds.{Hears, Asks, IsTaskRefused, IsTaskTurnOf, IsUnmadeTurn, asked_in, asked_for, has_all_replies, heard_by, submitted, with_lost};
ghost use Rattle.rp_threads.specs.Tasks.{caller_at, task_state};
ghost use Rattle.rp_threads.specs.Threads.{IsTaskLooped, task_end_of};
ghost use Rattle.rp_threads.specs.Turns.{AreSent, IsAllOffered, IsOfferedToBox};

use crate::actor::{Actor, run_turns};
use crate::ending::Ending;
use crate::gate::Gate;
use crate::options::LoopOptions;
use crate::rotation::node_in_turn;
use crate::turns::take_fetched;
use rp_base::{Fault, NodeId, Operation};
use rp_boxes::{Fetch, Put, TaskSeat};
use rp_codec::Party;
use rp_machine::Machine;
use rp_replica::Sent;
use rp_tasks::{FaultLine, gives_what_it_took};
use std::alloc::Global;

/// In every nth turn a task asks another node for the call that it waits for.
const ASK_PERIOD: u64 = 16;

/// A call that a task is to make, and the node that it asks first.
#[derive(Clone, Copy, Debug)]
pub struct TaskCall {
    pub node: NodeId,
    pub object: u8,
    pub operation: Operation,
    pub arg: i64,
}

/// The end of a task's loop, and how many of its calls the task made.
#[derive(Drop)]
pub struct TaskEnd<M: Machine> {
    pub seat: TaskSeat<M>,
    pub made: usize,
    /// The turn in which its last reply arrived, or 0.
    pub last_reply: u64,
    /// How many packets were lost: on its link since the link was made, and at boxes that were not
    /// empty, in the turns that were made. The count saturates at `u64::MAX`.
    pub lost: u64,
    /// The fault that ended the loop, if one did: its own, or one by which the run was stopped.
    pub fault: Option<Fault>,
}

/// How many calls a task made, whether it waits for the reply to the last, in which turn the last
/// reply arrived, and how many packets were lost at boxes that were not empty.
#[derive(Clone, Copy)]
struct Calls {
    made: usize,
    waits: bool,
    /// 0 if no reply arrived.
    last_reply: u64,
    lost: u64,
}

impl Calls {
    /// If a call got its reply in this turn, the task no longer waits.
    fn hear(&mut self, answered: bool, turn: u64)
        ensures { self.new ≡ heard_by answered turn self.old }
    {
        if answered {
            self.waits = false;
            self.last_reply = turn;
        }
    }

    /// Whether the task has the replies to all these calls, which are its own.
    fn has_all_replies(&self, calls: &[TaskCall]) -> bool
        ensures { result ≡ has_all_replies calls.now self.now }
    {
        !self.waits && self.made == calls.len()
    }

    /// Counts n more packets as lost at boxes.
    fn lose(&mut self, lost: usize)
        ensures { self.new ≡ with_lost lost self.old }
    {
        self.lost = self.lost.saturating_add(lost as u64);
    }
}

/// A task that makes turns: its seat, the link that delivers its packets, and its calls so far.
#[derive(Drop)]
struct Caller<M: Machine> {
    seat: TaskSeat<M>,
    link: FaultLine,
    so_far: Calls,
}

/// The task takes the packet that the link passes on, if there is one. Returns whether a call got
/// its reply.
fn hear<M: Machine>(
    seat: &mut TaskSeat<M>,
    line: &mut FaultLine,
    alloc: Global,
) -> Result<bool, Fault>
    requires held { HoldsTextsOf seat.old.part.got line.old }
    ensures held { HoldsTextsOf seat.new.part.got line.new }
    ensures line { line.new ≡ line_after line.old }
    ensures ok { IfOk result (Hears (given_on line.old) seat.old seat.new) }
    ensures err { IfErr result (λ fault. (fault ≡ OutOfMemory) × (seat.new ≡ seat.old)) }
{
    gives_what_it_took();
    match line.release() {
        Some(packet) => {
            let taken = seat.reply(alloc, packet.as_slice())?;
            Ok(taken.is_some())
        }
        None => Ok(false),
    }
}

/// Puts a packet that the task sent into its box. If the box is not empty, the packet is lost, and
/// the seat keeps its buffer. Returns whether it is lost.
fn put_text<M: Machine>(seat: &mut TaskSeat<M>, packet: Vec<u8>) -> bool
    requires { IsSentText seat.old.part packet.items }
    ensures { IsOfferedToBox M.next M.answers M.begin (parties.Task seat.old.setup.number) packet.items
        seat.old seat.new result }
{
    match seat.put(packet) {
        Ok(()) => false,
        Err(packet) => {
            seat.lend(packet);
            true
        }
    }
}

/// Puts the packet of a step into its box, if there is one. Returns how many packets are lost.
fn put_sent<M: Machine>(seat: &mut TaskSeat<M>, sent: Sent) -> usize
    requires sent { AreSent seat.old.part sent }
    requires few { sent.packets ≤ 1 }
    ensures { IsAllOffered M.next M.answers M.begin (parties.Task seat.old.setup.number) sent
        seat.old seat.new result 0 }
{
    if sent.packets == 1 {
        return usize::from(put_text(seat, sent.bytes));
    }
    0
}

/// The task makes a call, and asks its node for it. Returns how many packets are lost.
fn make<M: Machine>(seat: &mut TaskSeat<M>, alloc: Global, call: TaskCall) -> Result<usize, Fault>
    ensures got { seat.new.part.got ≡ seat.old.part.got }
    ensures ok { IfOk result
        (Asks M.next M.answers M.begin (submitted (Some call)) seat.old seat.new) }
    ensures err { IfErr result (IsTaskRefused (submitted (Some call)) seat.old seat.new) }
{
    let sent = seat.call(alloc, call.node, call.object, call.operation, call.arg)?;
    Ok(put_sent(seat, sent))
}

/// The task asks a node once more for the call that waits for its reply. Returns how many packets
/// are lost.
fn ask_again<M: Machine>(
    seat: &mut TaskSeat<M>,
    alloc: Global,
    node: NodeId,
) -> Result<usize, Fault>
    ensures got { seat.new.part.got ≡ seat.old.part.got }
    ensures ok { IfOk result (Asks M.next M.answers M.begin (Some (Again node)) seat.old seat.new) }
    ensures err { IfErr result (IsTaskRefused (Some (Again node)) seat.old seat.new) }
{
    let sent = seat.retry(alloc, node)?;
    Ok(put_sent(seat, sent))
}

impl<M: Machine> Caller<M> {
    /// The task makes its next call, if it waits for no reply and there is a next call. While it
    /// waits, it asks the next node again in every 16th turn. Returns how many packets are lost.
    fn ask(
        &mut self,
        alloc: Global,
        nodes: u8,
        calls: &[TaskCall],
        turn: u64,
    ) -> Result<usize, Fault>
        requires nodes { (1 ≤ nodes) × (nodes ≤ 7) }
        ensures got { self.new.seat.part.got ≡ self.old.seat.part.got }
        ensures link { self.new.link ≡ self.old.link }
        ensures ok { IfOk result (Asks M.next M.answers M.begin
            (asked_in nodes calls.now turn self.old.so_far) self.old.seat self.new.seat) }
        ensures made { OnOk result (self.new.so_far ≡ asked_for calls.now self.old.so_far) }
        ensures err { IfErr result (λ fault. (self.new.so_far ≡ self.old.so_far)
            × IsTaskRefused (asked_in nodes calls.now turn self.old.so_far)
            self.old.seat self.new.seat fault) }
    {
        if self.so_far.waits {
            if turn % ASK_PERIOD != 0 {
                return Ok(0);
            }
            return ask_again(
                &mut self.seat,
                alloc,
                node_in_turn(nodes, turn / ASK_PERIOD),
            );
        }
        let Some(call) = calls.get(self.so_far.made) else {
            return Ok(0);
        };
        let lost = make(&mut self.seat, alloc, *call)?;
        self.so_far.made += 1;
        self.so_far.waits = true;
        Ok(lost)
    }

    /// A turn of a task: it fetches from a node through its link, takes the packet that the link
    /// passes on, and then asks.
    fn turn(&mut self, alloc: Global, nodes: u8, calls: &[TaskCall], turn: u64) -> Result<(), Fault>
        requires nodes { (1 ≤ nodes) × (nodes ≤ 7) }
        requires held { HoldsTextsOf self.old.seat.part.got self.old.link }
        ensures held { HoldsTextsOf self.new.seat.part.got self.new.link }
        ensures ok { OnOk result (IsTaskTurnOf M.next M.answers M.begin nodes calls.now turn
            (caller_at self.old) (caller_at self.new)) }
        ensures err { IfErr result (IsUnmadeTurn M.next M.answers M.begin nodes calls.now turn
            (caller_at self.old) (caller_at self.new)) }
    {
        gives_what_it_took();
        let fetched = self.seat.fetch(Party::Node(node_in_turn(nodes, turn)));
        take_fetched(&mut self.link, alloc, fetched)?;
        let answered = hear(&mut self.seat, &mut self.link, alloc)?;
        self.so_far.hear(answered, turn);
        let lost = self.ask(alloc, nodes, calls, turn)?;
        self.so_far.lose(lost);
        Ok(())
    }
}

/// A task in its loop, among n nodes, with the calls that it is to make.
#[derive(Drop)]
struct TaskLoop<'a, M: Machine> {
    caller: Caller<M>,
    calls: &'a [TaskCall],
    nodes: u8,
}

impl<M: Machine> TaskLoop<'_, M> {
    /// The end of the loop.
    fn ended(self, fault: Option<Fault>) -> TaskEnd<M>
        ensures { result ≡ task_end_of (task_state self.entry) fault }
    {
        let caller = self.caller;
        let lost = caller.so_far.lost.saturating_add(caller.link.lost());
        TaskEnd {
            seat: caller.seat,
            made: caller.so_far.made,
            last_reply: caller.so_far.last_reply,
            lost,
            fault,
        }
    }
}

impl<M: Machine, G: Gate> Actor<G> for TaskLoop<'_, M> {
    ghost use Rattle.std.specs.Prelude.{◌≡◌, ◌≤◌};
    ghost use Rattle.rp_codec.specs.declared.packet.Party.TheVariants.{Task};
    ghost use Rattle.rp_threads.specs.Lines.{HoldsTextsOf};
    ghost use Rattle.rp_threads.specs.TaskRounds.{IsTaskTurnOf, IsUnmadeTurn, task_rested};
    ghost use Rattle.rp_threads.specs.Tasks.{task_state};

    ghost party = { λ task. Task task.caller.seat.setup.number };

    ghost rested = { λ done task. task_rested task.calls.now done (task_state task) };

    ghost ready = { λ turn task. ((1 ≤ task.nodes) × (task.nodes ≤ 7))
        × HoldsTextsOf task.caller.seat.part.got task.caller.link };

    ghost turned = { λ turn old new. (new.nodes ≡ old.nodes) × (new.calls ≡ old.calls)
        × IsTaskTurnOf M.next M.answers M.begin old.nodes old.calls.now turn (task_state old)
        (task_state new) };

    ghost unmade = { λ turn old new fault.
        IsUnmadeTurn M.next M.answers M.begin old.nodes old.calls.now turn (task_state old)
        (task_state new) fault };

    fn party(&self) -> Party {
        Party::Task(self.caller.seat.number())
    }

    fn rested(&self, done: u64) -> u64 {
        if self.caller.so_far.has_all_replies(self.calls) {
            done.saturating_sub(self.caller.so_far.last_reply)
        } else {
            0
        }
    }

    fn turn(&mut self, alloc: Global, _gate: &G, turn: u64) -> Result<(), Fault> {
        self.caller.turn(alloc, self.nodes, self.calls, turn)
    }
}

/// Makes the turns of a task, as many as the options say, or those before the run is over. In each it fetches from one of the nodes 1 to `nodes`, in rotation, through its
/// link, and takes the reply that the link may pass on. It makes its calls in order: the first in the first turn, and each later one once the call before
/// has its reply. While it waits, it asks the next node again in every 16th turn. A fault ends the
/// loop: `OutOfMemory`, `NumbersSpent` if no number is left for the next call, or `BadConfig` if
/// that call is not right or asks a node above the last; and so does one by which the run is
/// stopped. The loop never blocks, unless the ending does.
pub fn task_loop<M: Machine, G: Gate, E: Ending>(
    seat: TaskSeat<M>,
    calls: &[TaskCall],
    line: FaultLine,
    nodes: u8,
    options: LoopOptions<'_, G, E>,
) -> TaskEnd<M>
    requires nodes { (1 ≤ nodes) × (nodes ≤ 7) }
    requires line { line.held ≡ [] }
    requires fresh { seat.part ≡ fresh_part (OfTask fresh_task) }
    // claim (result): A task's loop makes its turns from 1 on, one after the other: each empties
    //   the box of one node, all in rotation, takes what its link passes on, and makes the next of
    //   its calls if none waits, or asks the next node again if one has waited long enough
    // claim (result): Before each turn of a task it is asked whether the run is over, with that turn
    //   and how many turns the task has made since it has the replies to all its calls. A turn is
    //   made only if the answer is no. Without a fault a task's loop makes exactly the turns that it
    //   was asked for, if no run is ever over, and otherwise all of them or those before the answer
    //   that the run is over
    // claim (result): It is notified that a task's loop ended, and by which fault
    // claim (result): A task's loop makes a prefix of its calls, each asked of its node, and no
    //   others; at least one if there is a call and a turn was made. What it asks went into its box or found
    //   it in use. The turn of the last reply is the one in which the last call got its reply, 0 if
    //   none did
    // claim (result): The packets that a task's loop counts as lost are those of its turns that
    //   found their boxes in use, and the copies that its link lost
    // claim (result): A task's loop ends by the fault of a turn that was not made, after turns
    //   that were, or by the fault that was the answer whether the run is over
    ensures { IsTaskLooped M.next M.answers M.begin E.over E.ended nodes options.entry.turns
        calls.now seat line result }
{
    let so_far = Calls {
        made: 0,
        waits: false,
        last_reply: 0,
        lost: 0,
    };
    let caller = Caller {
        seat,
        link: line,
        so_far,
    };
    let mut task = TaskLoop {
        caller,
        calls,
        nodes,
    };
    let fault = run_turns(&mut task, options);
    task.ended(fault)
}
