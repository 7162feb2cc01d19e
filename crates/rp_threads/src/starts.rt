//! Starts the loop of a node or a task in its own thread.

ghost use Rattle.std.specs.Prelude.{◌≡◌, ◌≤◌, [], IfOk};
ghost use Rattle.rp_board.specs.Parts.{fresh_part, OfTask};
ghost use Rattle.rp_replica.specs.rp_model.specs.Parts.{fresh_task};
ghost use Rattle.rp_threads.specs.Threads.{IsLooped, IsTaskLooped};

use crate::ending::Ending;
use crate::gate::Gate;
use crate::loops::{NodeEnd, node_loop};
use crate::options::LoopOptions;
use crate::tasks::{TaskCall, TaskEnd, task_loop};
use rp_boxes::{NodeSeat, TaskSeat};
use rp_machine::Machine;
use rp_store::Device;
use rp_tasks::FaultLine;
use std::alloc::AllocError;
use std::marker::PhantomData;
use std::snapshot::Snapshot;
use std::thread::{Promise, PromisedHandle, Scope};

/// A node that is to run in its own thread, and the link that delivers its packets.
#[derive(Drop)]
pub struct NodeStart<M: Machine, D: Device> {
    pub seat: NodeSeat<M, D>,
    pub line: FaultLine,
}

/// A task that is to run in its own thread, with the calls that it is to make and the link that
/// delivers its packets.
#[derive(Drop)]
pub struct TaskStart<M: Machine> {
    pub seat: TaskSeat<M>,
    pub calls: Vec<TaskCall>,
    pub line: FaultLine,
}

/// How the loop of a node or a task starts, and what it ensures of its end.
pub(crate) trait Start<G: Gate, E: Ending> {
    ghost use Rattle.std.specs.Prelude.{ℕ};

    /// How the loop ends.
    type End;

    /// What the loop ensures, for these numbers of nodes and of turns.
    ghost ends: { Self → ℕ → ℕ → Self.End → Type 0 };
}

impl<M: Machine, D: Device, G: Gate, E: Ending> Start<G, E> for NodeStart<M, D> {
    type End = NodeEnd<M, D>;

    ghost use Rattle.rp_threads.specs.Runs.{IsNodeEnd};

    ghost ends = { λ start nodes turns end. IsNodeEnd M.next M.answers M.begin G.lets G.heard
        E.over E.ended nodes turns start end };
}

impl<M: Machine, G: Gate, E: Ending> Start<G, E> for TaskStart<M> {
    type End = TaskEnd<M>;

    ghost use Rattle.rp_threads.specs.Runs.{IsTaskEnd};

    ghost ends = { λ start nodes turns end. IsTaskEnd M.next M.answers M.begin E.over E.ended
        nodes turns start end };
}

/// The thread of a node or a task guarantees what its loop ensures, for these numbers of nodes and
/// of turns.
#[derive(Drop)]
pub(crate) struct LoopGuarantee<S: Start<G, E>, G: Gate, E: Ending> {
    pub(crate) start: Snapshot<S>,
    pub(crate) gate: PhantomData<G>,
    pub(crate) ending: PhantomData<E>,
    pub(crate) nodes: u8,
    pub(crate) turns: u64,
}

impl<S: Start<G, E>, G: Gate, E: Ending> Promise<S::End> for LoopGuarantee<S, G, E> {
    ghost kept_by = { λ guarantee end.
        S.ends guarantee.start.value guarantee.nodes guarantee.turns end };
}

/// Starts a node's loop in a thread. If no thread can be made, it is refused and the seat is
/// dropped.
pub(crate) fn start_node<
    's,
    V,
    M: Machine + Send + 's,
    D: Device + Send + 's,
    G: Gate + Sync,
    E: Ending + Sync,
>(
    scope: &Scope<'s, V>,
    start: NodeStart<M, D>,
    nodes: u8,
    options: LoopOptions<'s, G, E>,
) -> Result<PromisedHandle<NodeEnd<M, D>, LoopGuarantee<NodeStart<M, D>, G, E>>, AllocError>
where
    M::Program: Send,
    requires nodes { nodes ≤ 7 }
    requires line { start.line.held ≡ [] }
    ensures start { IfOk result (λ handle. handle.promise.start.value ≡ start) }
    ensures nodes { IfOk result (λ handle. handle.promise.nodes ≡ nodes) }
    ensures turns { IfOk result (λ handle. handle.promise.turns ≡ options.entry.turns) }
{
    let guarantee = LoopGuarantee {
        start: Snapshot::of(&start),
        gate: PhantomData::<G>,
        ending: PhantomData::<E>,
        nodes,
        turns: options.turns,
    };
    let NodeStart { seat, line } = start;
    let handle = scope.spawn_with(
        guarantee,
        move || -> NodeEnd<M, D>
            requires { (nodes ≤ 7) × (line.held ≡ []) }
            ensures { IsLooped M.next M.answers M.begin G.lets G.heard E.over E.ended nodes
                options.entry.turns seat line result }
        { node_loop(seat, line, nodes, options) },
    )?;
    Ok(handle)
}

/// Starts a task's loop in a thread. If no thread can be made, it is refused and the seat is
/// dropped.
pub(crate) fn start_task<'s, V, M: Machine + Send + 's, G: Gate + Sync, E: Ending + Sync>(
    scope: &Scope<'s, V>,
    start: TaskStart<M>,
    nodes: u8,
    options: LoopOptions<'s, G, E>,
) -> Result<PromisedHandle<TaskEnd<M>, LoopGuarantee<TaskStart<M>, G, E>>, AllocError>
where
    M::Program: Send,
    requires nodes { (1 ≤ nodes) × (nodes ≤ 7) }
    requires line { start.line.held ≡ [] }
    requires fresh { start.seat.part ≡ fresh_part (OfTask fresh_task) }
    ensures start { IfOk result (λ handle. handle.promise.start.value ≡ start) }
    ensures nodes { IfOk result (λ handle. handle.promise.nodes ≡ nodes) }
    ensures turns { IfOk result (λ handle. handle.promise.turns ≡ options.entry.turns) }
{
    let guarantee = LoopGuarantee {
        start: Snapshot::of(&start),
        gate: PhantomData::<G>,
        ending: PhantomData::<E>,
        nodes,
        turns: options.turns,
    };
    let TaskStart { seat, calls, line } = start;
    let handle = scope.spawn_with(
        guarantee,
        move || -> TaskEnd<M>
            requires nodes { (1 ≤ nodes) × (nodes ≤ 7) }
            requires line { line.held ≡ [] }
            requires fresh { seat.part ≡ fresh_part (OfTask fresh_task) }
            ensures { IsTaskLooped M.next M.answers M.begin E.over E.ended nodes
                options.entry.turns calls.items seat line result }
        { task_loop(seat, calls.as_slice(), line, nodes, options) },
    )?;
    Ok(handle)
}
