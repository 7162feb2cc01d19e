//! The audit: what it knows of each node from the reports that it got.

ghost use Rattle.std.specs.Prelude.{◌≡◌, ◌≤◌, ◌+◌, ◌∷◌, ℕ, List, [], length, replicate, IfOk, IfSome, IfNone, OnOk, OnErr, IsOkUnless};
ghost use Rattle.rp_base.specs.Sets.{Has};
ghost use Rattle.rp_base.specs.declared.fault.Fault.TheVariants as faults;
ghost use Rattle.rp_codec.specs.Message.{IsPacket};
ghost use Rattle.rp_codec.specs.declared.packet.Party.TheVariants as parties;
ghost use Rattle.rp_board.specs.Looks.{HasWorld, WasSent};
ghost use Rattle.rp_board.specs.Moments.{WasNotFull};
ghost use Rattle.rp_board.specs.Seats.{IsFetched, setting_at};
ghost use Rattle.rp_boxes.specs.Audits.{AreAllReported, IsAdded, IsGotReport, IsJoined, known_of, report, with_reported};
ghost use Rattle.rp_boxes.specs.OneOrder.{AreOfOneOrder, ShareOneOrder};

use crate::task_seat::TaskSeat;
use rp_agreement::reports_follow_the_order;
use rp_base::{Action, Fault, MOST_NODES, NodeId, Position};
use rp_board::{AuditSeat, Fetch, order_laws};
use rp_codec::{Body, Party, decode};
use rp_machine::Machine;
use std::alloc::{AllocError, Global};
use std::marker::Model;

/// The outcome of a report: it was added to the actions that are known of its node, or it leaves a
/// gap after them and was not added. `known` is how many actions are known of the node afterwards.
#[derive(Clone, Copy, Debug, PartialEq, Eq)]
pub enum Added {
    Added { node: NodeId, known: u32 },
    Gap { node: NodeId, known: u32 },
}

/// The audit: its seat, and for each node the actions that are known of it.
#[derive(Drop)]
pub struct Audit<M: Machine> {
    pub(crate) seat: AuditSeat<M>,
    pub(crate) known: [Vec<Action>; MOST_NODES as usize],
}

impl<M: Machine> Model for Audit<M> {
    ghost use Rattle.std.specs.Prelude.{map};
    ghost use Rattle.rp_boxes.specs.Audits.{Audited, AreAllReported};
    ghost use Rattle.rp_boxes.specs.OneOrder.{ReportOneOrder};

    ghost Value = { Audited M.Program };

    ghost view = { λ a. record { seat = a.seat; known = map (λ list. list.items) a.known } };

    ghost invariant = { λ a. AreAllReported a.seat.part (map (λ list. list.items) a.known)
        × ReportOneOrder M.next M.answers M.begin a.seat };
}

/// Replaces the actions of the list from a position on by these, if that makes the list longer.
fn put_reported(list: &mut Vec<Action>, first: usize, actions: &[Action]) -> Result<(), AllocError>
    requires { (1 ≤ first) × (first ≤ length list.old.items + 1) }
    ensures ok { OnOk result (list.new.items ≡ with_reported list.old.items first actions.now) }
    ensures err { OnErr result (list.new.items ≡ list.old.items) }
{
    let kept = first - 1;
    let more = list.len() - kept;
    if actions.len() <= more {
        return Ok(());
    }
    list.reserve(actions.len() - more)?;
    list.truncate(kept);
    list.extend_from_slice(actions).unwrap();
    Ok(())
}

/// The audit's seat looks at the table together with a task of the same table: one world contains
/// what the two know.
fn look_with_task<M: Machine>(audit: AuditSeat<M>, task: TaskSeat<M>) -> (AuditSeat<M>, TaskSeat<M>)
    requires { audit.setup.table ≡ task.setup.table }
    ensures same { (result.0 ≡ audit) × (result.1 ≡ task) }
    ensures world { HasWorld (setting_at M.next M.answers M.begin task)
        ((7 + task.setup.number, task.part) ∷ (0, audit.part) ∷ []) }
{
    let TaskSeat { config, task, seat } = task;
    let (audit, seat) = audit.look_with_seat(seat);
    (audit, TaskSeat { config, task, seat })
}

impl<M: Machine> Audit<M> {
    /// An audit that knows nothing. It allocates no memory.
    pub fn new(alloc: Global, seat: AuditSeat<M>) -> Self
        ensures { result ≡ record { seat = seat; known = replicate 7 [] } }
    {
        order_laws::<M>();
        reports_follow_the_order();
        let mut seat = seat;
        seat.look();
        Audit {
            seat,
            known: [
                Vec::new(alloc),
                Vec::new(alloc),
                Vec::new(alloc),
                Vec::new(alloc),
                Vec::new(alloc),
                Vec::new(alloc),
                Vec::new(alloc),
            ],
        }
    }

    /// Takes the packet out of the box from that party to the audit, and returns its text, or
    /// `None` if the box is not full. It is a report, which that party has sent.
    pub fn fetch(&mut self, from: Party) -> Option<Vec<u8>>
        // claim (some, sent, none, missed): A packet that the audit fetches is to it and from the
        //   one asked, which has sent it in a world that keeps the rule and has its seat's view; the
        //   seat has then got it. `None` only if the box was not full
        ensures some { IfSome result (λ text. IsFetched from parties.Audit text.items
            self.old.seat self.new.seat) }
        ensures sent { IfSome result (λ text. WasSent M.next M.answers M.begin from parties.Audit
            text.items self.new.seat) }
        ensures none { IfNone result (self.new.seat ≡ self.old.seat) }
        ensures missed { IfNone result (WasNotFull M.next M.answers M.begin from parties.Audit
            self.new.seat) }
        // claim (report, got): What the audit fetches is a report, and what it got stays got
        ensures report { IfSome result (λ text. IsGotReport self.new.seat.part text.items) }
        ensures got { (text : List ℕ) → IsGotReport self.old.seat.part text
            → IsGotReport self.new.seat.part text }
        ensures known { self.new.known ≡ self.old.known }
    {
        order_laws::<M>();
        reports_follow_the_order();
        self.seat.fetch(from)
    }

    /// Adds a report that the audit got, given as its text. Let n be how many actions are known of
    /// its node. If its first position is greater than n + 1, it leaves a gap, and nothing changes.
    /// Otherwise the list of known actions is overwritten with the report's actions from that
    /// position on, if that makes the list longer. Then the actions known of any two nodes are
    /// prefixes of one order. If memory runs out, nothing changes.
    pub fn add(&mut self, alloc: Global, packet: &[u8]) -> Result<Added, Fault>
        requires { IsGotReport self.old.seat.part packet.now }
        // claim (ok, err, only): A report that the audit got makes what is known of its node the
        //   longer of itself and of what the report has, or leaves a gap and changes nothing; out
        //   of memory changes nothing
        ensures ok { IfOk result (λ added. IsAdded self.old packet.now self.new added) }
        // claim (one): What the audit knows of each node is a prefix of one order, at every moment.
        //   It is the order of a world that contains the audit's part: its action at each position
        //   is decided there, and no call takes effect in it that no task of that world made
        ensures one { AreOfOneOrder M.next M.answers M.begin self.new }
        ensures err { OnErr result (self.new ≡ self.old) }
        ensures only { IsOkUnless result faults.OutOfMemory }
    {
        self.seat.packets_are_right();
        let Ok(packet) = decode(alloc, packet)? else {
            unreachable!()
        };
        let Party::Node(node) = packet.from() else {
            unreachable!()
        };
        let Body::Report { first, actions, .. } = packet.body() else {
            unreachable!()
        };
        Ok(self.join(node, *first, actions.as_slice())?)
    }

    /// Adds the actions that a node reports, from a position on.
    fn join(
        &mut self,
        node: NodeId,
        first: Position,
        actions: &[Action],
    ) -> Result<Added, AllocError>
        requires got { (applied : ℕ)
            × Has (report node first applied actions.now) self.old.seat.part.got
            × IsPacket (report node first applied actions.now) }
        ensures ok { IfOk result (λ added. IsJoined self.old node first actions.now
            self.new added) }
        ensures one { AreOfOneOrder M.next M.answers M.begin self.new }
        ensures err { OnErr result (self.new ≡ self.old) }
    {
        let place = usize::from(node.get()) - 1;
        let first = usize::from(first.get());
        let known = self.known[place].len();
        if first > known + 1 {
            return Ok(Added::Gap {
                node,
                known: known as u32,
            });
        }
        put_reported(&mut self.known[place], first, actions)?;
        let known = self.known[place].len();
        Ok(Added::Added {
            node,
            known: known as u32,
        })
    }

    /// The actions that are known of a node, in order. Each was in a report that the audit got. The
    /// lists of any two nodes are prefixes of one order.
    pub fn known(&self, node: NodeId) -> &[Action]
        // claim (value, stated): Each action that is known of a node was in a report that the audit
        //   got
        ensures value { result.now ≡ known_of self.now.known node }
        ensures stated { AreAllReported self.now.seat.part self.now.known }
        // claim as Audit::add (one)
        ensures one { AreOfOneOrder M.next M.answers M.begin self.now }
    {
        self.known[usize::from(node.get()) - 1].as_slice()
    }

    /// Looks at the table: the actions known of any two nodes are prefixes of one order. Nothing
    /// changes.
    pub fn look(&mut self)
        ensures unchanged { self.new ≡ self.old }
        ensures one { AreOfOneOrder M.next M.answers M.begin self.new }
    {
        order_laws::<M>();
        reports_follow_the_order();
        self.seat.look();
    }

    /// The audit and a task of the same table look at it together: the actions known of each node
    /// are a prefix of one order, and in that order each reply of the task answers its call.
    /// Nothing changes.
    pub fn meet(self, task: TaskSeat<M>) -> (Self, TaskSeat<M>)
        requires { self.seat.setup.table ≡ task.setup.table }
        ensures same { (result.0 ≡ self) × (result.1 ≡ task) }
        // claim (one): The audit and a task of one table share one order, in a world that contains
        //   the parts of both: its action at each position is decided there, and no call takes
        //   effect in it that no task of that world made. What the audit knows of each node is a
        //   prefix of it, and it has the replies and calls of the task as for its seat alone
        ensures one { ShareOneOrder M.next M.answers M.begin result.0 result.1 }
    {
        reports_follow_the_order();
        order_laws::<M>();
        let Audit { seat, known } = self;
        let (seat, task) = look_with_task(seat, task);
        (Audit { seat, known }, task)
    }
}
