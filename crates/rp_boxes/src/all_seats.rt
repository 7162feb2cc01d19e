//! Makes the seats: one table, and a place at it for each node, each task and the audit.

ghost use Rattle.std.specs.Prelude.{◌≡◌, ◌+◌, ◌≤◌, ◌<◌, ◌⊎◌, ◌↔◌, [], All, length, IfOk, IfErr, OnOk, IsErrOf};
ghost use Rattle.rp_base.specs.Config.{IsRightConfig};
ghost use Rattle.rp_base.specs.declared.fault.Fault.TheVariants as faults;
ghost use Rattle.rp_board.specs.Parts.{actor_of};
ghost use Rattle.rp_boxes.specs.FirstSeats.{AreFirstSeats, AreSeats, CanFail, IsFirstPlace, IsRest, IsResourceFault, after_seats, failures_of, first_seat};

use crate::node_seat::NodeSeat;
use crate::task_seat::TaskSeat;
use atomic_table::Table;
use rp_actors::{Task, are_empty};
use rp_agreement::replies_follow_the_order;
use rp_base::{Config, Fault, MOST_NODES, MOST_TASKS, NodeId, TaskId};
use rp_board::{AuditSeat, Board, Place, Seat, Setup, Sits, spare_room, split};
use rp_machine::Machine;
use rp_replica::Replica;
use rp_store::Device;
use std::alloc::{AllocError, Global};
use std::marker::Model;
use std::snapshot::Snapshot;
use std::sync::Arc;

/// How many words the table has: one for each box and one for each actor.
const WORDS: usize = 272;
/// How many slots it has: one for each box.
const SLOTS: usize = 256;
/// The first actor that is a task.
const FIRST_TASK: usize = MOST_NODES as usize + 1;

/// The seats of all nodes and tasks, each in order of their numbers, and of the audit.
#[derive(Drop)]
pub struct AllSeats<M: Machine, D: Device> {
    pub nodes: Vec<NodeSeat<M, D>>,
    pub tasks: Vec<TaskSeat<M>>,
    pub audit: AuditSeat<M>,
}

/// A table with nothing in any box, and the place that knows all actors.
fn new_table<M: Machine>(alloc: Global, setup: &Setup<M>) -> Result<(Board<M>, Place), AllocError>
    requires config { IsRightConfig setup.now.config }
    ensures table { IfOk result (λ new_table.
        IsRest new_table.0.shared.table_id new_table.1.table_id 0 new_table.1.me) }
    ensures shared { IfOk result (λ new_table. new_table.0.shared.key ≡ setup.now) }
{
    replies_follow_the_order::<M>();
    let new_table = Table::vacant(alloc, &[0u64; WORDS], SLOTS, setup)?;
    Ok(new_table)
}

/// A table, and the place of the actors that have no seat yet.
#[derive(Drop)]
struct Unseated<M: Machine> {
    config: Config,
    /// The first of these actors.
    next: usize,
    rest: Place,
    board: Arc<Board<M>, Global>,
}

impl<M: Machine> Model for Unseated<M> {
    ghost use Rattle.std.specs.Prelude.{◌≡◌};
    ghost use Rattle.std.specs.Arc.{arc_value};
    ghost use Rattle.rp_base.specs.Config.{IsRightConfig};
    ghost use Rattle.rp_boxes.specs.FirstSeats.{Unseated as Left, IsRest};

    ghost Value = { Left M.Program };

    ghost view = { λ u. record {
      table = u.rest.table_id;
      config = u.config;
      program = (arc_value u.board).shared.key.program.value;
      next = u.next;
    } };

    ghost invariant = { λ u. IsRest
        (arc_value u.board).shared.table_id u.rest.table_id u.next u.rest.me
        × IsRightConfig u.config × ((arc_value u.board).shared.key.config ≡ u.config) };
}

impl<M: Machine> Unseated<M> {
    /// A new table, at which no actor has a seat yet.
    fn new(alloc: Global, config: Config, program: &M::Program) -> Result<Self, Fault>
        requires { IsRightConfig config }
        ensures ok { IfOk result (λ all. (all.config ≡ config) × (all.program ≡ program.now)
            × (all.next ≡ 0)) }
        ensures only { IfErr result (λ fault. fault ≡ faults.OutOfMemory) }
    {
        let setup = Setup {
            config,
            program: Snapshot::of(program),
        };
        let (table, rest) = new_table::<M>(alloc, &setup)?;
        Ok(Unseated {
            config,
            next: 0,
            rest,
            board: Arc::new(alloc, table)?,
        })
    }

    /// Splits off the place of the next actor.
    fn place(&mut self) -> Place
        requires { self.old.next < 16 }
        ensures place { IsFirstPlace self.old.table result.table_id self.old.next result.me }
        ensures rest { self.new ≡ after_seats 1 self.old }
    {
        let place = split::<M>(&self.board.shared, &mut self.rest);
        self.next += 1;
        place
    }

    /// Skips the actors below this one that have no seat yet: their places are dropped.
    fn skip_to(&mut self, actor: usize)
        requires within { actor ≤ 16 }
        requires above { self.old.next ≤ actor }
        ensures { self.new ≡ record self.old { next = actor } }
    {
        while self.next < actor {
            self.place();
        }
    }

    /// The seat of the next actor at the table.
    fn seat<S: Sits>(&mut self, alloc: Global, number: S) -> Result<Seat<M, S>, AllocError>
        requires next { self.old.next ≡ actor_of (S.party (S.number number)) }
        requires within { self.old.next < 16 }
        ensures ok { IfOk result (λ seat. seat ≡ first_seat self.old.table self.old.config
            self.old.program (S.number number) self.old.next 0) }
        ensures rest { OnOk result (self.new ≡ after_seats 1 self.old) }
    {
        let spares = spare_room(alloc)?;
        let board = Arc::try_clone(&self.board)?;
        let place = self.place();
        Ok(Seat {
            number,
            place,
            board,
            spares,
        })
    }

    /// The seat of the next actor, which is a node, over an empty device.
    fn node<D: Device>(
        &mut self,
        alloc: Global,
        program: &M::Program,
        device: D,
    ) -> Result<NodeSeat<M, D>, Fault>
        requires program { program.now ≡ self.old.program }
        requires node { (1 ≤ self.old.next) × (self.old.next ≤ self.old.config.nodes) }
        requires empty { (D.disk device).contents ≡ [] }
        ensures ok { IfOk result (λ seat. seat ≡ first_seat self.old.table self.old.config
            self.old.program self.old.next self.old.next (D.disk device).failures) }
        ensures rest { OnOk result (self.new ≡ after_seats 1 self.old) }
        ensures only { IfErr result IsResourceFault }
        ensures device { IsErrOf result Fault.Device → CanFail D.disk }
    {
        let config = self.config;
        let node = NodeId::new(self.next as u8).unwrap();
        let seat = self.seat(alloc, node)?;
        match Replica::open(alloc, node, config, program, device) {
            Ok(opening) => {
                Ok(NodeSeat {
                    replica: opening.replica,
                    seat,
                    ends: Vec::new(alloc),
                })
            }
            Err((fault, _)) => Err(fault),
        }
    }

    /// The seats of the nodes in order, each over its own device.
    fn nodes<D: Device>(
        &mut self,
        alloc: Global,
        program: &M::Program,
        devices: Vec<D>,
    ) -> Result<Vec<NodeSeat<M, D>>, Fault>
        requires program { program.now ≡ self.old.program }
        requires next { self.old.next ≡ 1 }
        requires count { length devices.items ≡ self.old.config.nodes }
        requires empty { All (λ device. (D.disk device).contents ≡ []) devices.items }
        ensures size { IfOk result (λ seats. length seats.items ≡ self.old.config.nodes) }
        ensures seats { IfOk result (λ seats. AreFirstSeats self.old.table self.old.config
            self.old.program 1 (failures_of D.disk devices.items) seats.items) }
        ensures rest { OnOk result (self.new ≡ after_seats self.old.config.nodes self.old) }
        ensures only { IfErr result IsResourceFault }
        ensures device { IsErrOf result Fault.Device → CanFail D.disk }
    {
        let mut seats = Vec::new(alloc);
        for device in devices {
            seats.push(self.node(alloc, program, device)?)?;
        }
        Ok(seats)
    }

    /// The seat of the next actor, which is this task.
    fn task(&mut self, alloc: Global, task: TaskId) -> Result<TaskSeat<M>, AllocError>
        requires { self.old.next ≡ 7 + task }
        ensures ok { IfOk result (λ seat. seat ≡ first_seat self.old.table self.old.config
            self.old.program task (7 + task) 0) }
        ensures rest { OnOk result (self.new ≡ after_seats 1 self.old) }
    {
        let seat = self.seat(alloc, task)?;
        Ok(TaskSeat {
            config: self.config,
            task: Task::new(alloc, task),
            seat,
        })
    }

    /// The seats of the eight tasks in order.
    fn tasks(&mut self, alloc: Global) -> Result<Vec<TaskSeat<M>>, AllocError>
        requires { self.old.next ≡ 8 }
        ensures eight { IfOk result (λ seats. length seats.items ≡ 8) }
        ensures seats { IfOk result (λ seats. AreFirstSeats self.old.table self.old.config
            self.old.program 8 [] seats.items) }
        ensures rest { OnOk result (self.new ≡ after_seats 8 self.old) }
    {
        let mut seats = Vec::new(alloc);
        for number in 1..=MOST_TASKS {
            let task = TaskId::new(number).unwrap();
            seats.push(self.task(alloc, task)?)?;
        }
        Ok(seats)
    }
}

/// Makes the seats, from arguments that are already checked.
fn made<M: Machine, D: Device>(
    alloc: Global,
    config: Config,
    program: &M::Program,
    devices: Vec<D>,
) -> Result<AllSeats<M, D>, Fault>
    requires config { IsRightConfig config }
    requires count { length devices.items ≡ config.nodes }
    requires empty { All (λ device. (D.disk device).contents ≡ []) devices.items }
    ensures opened { IfOk result (λ all. AreSeats config program.now
        (failures_of D.disk devices.items) all.nodes.items all.tasks.items all.audit) }
    ensures only { IfErr result IsResourceFault }
    ensures device { IsErrOf result Fault.Device → CanFail D.disk }
{
    let mut unseated = Unseated::<M>::new(alloc, config, program)?;
    let audit = unseated.seat(alloc, ())?;
    let nodes = unseated.nodes(alloc, program, devices)?;
    unseated.skip_to(FIRST_TASK);
    let tasks = unseated.tasks(alloc)?;
    Ok(AllSeats {
        nodes,
        tasks,
        audit,
    })
}

/// Makes the seats of all nodes, over these devices, of the eight tasks and of the audit. All are
/// at one table, and nothing has happened. `BadConfig` if a number is outside its limits, if there
/// are not as many devices as nodes, or if one is not empty. If it is refused, the devices are
/// dropped.
pub fn seats<M: Machine, D: Device>(
    alloc: Global,
    config: Config,
    program: &M::Program,
    devices: Vec<D>,
) -> Result<AllSeats<M, D>, Fault>
    // claim: The seats of a cluster are those of its nodes and of the eight tasks, in order, and of
    //   the audit, all at one table and fresh, with the failure counts of the devices that were
    //   given; they are refused exactly if a cluster is, or out of memory, or by a device that can
    //   fail
    ensures opened { IfOk result (λ all. AreSeats config program.now
        (failures_of D.disk devices.items) all.nodes.items all.tasks.items all.audit) }
    ensures refused { IsErrOf result Fault.BadConfig
        ↔ (¬ (IsRightConfig config × (length devices.items ≡ config.nodes)
        × All (λ device. (D.disk device).contents ≡ []) devices.items)) }
    ensures only { IfErr result (λ fault. (fault ≡ Fault.BadConfig) ⊎ IsResourceFault fault) }
    ensures device { IsErrOf result Fault.Device → CanFail D.disk }
{
    if !config.is_right() || devices.len() != usize::from(config.nodes) || !are_empty(&devices) {
        return Err(Fault::BadConfig);
    }
    let all = made(alloc, config, program, devices)?;
    Ok(all)
}
