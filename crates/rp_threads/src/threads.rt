//! Runs nodes and tasks in their own threads.

ghost use Rattle.std.specs.Prelude.{◌≡◌, ◌≤◌, [], All, IfOk, OnErr, length, true};
ghost use Rattle.std.specs.List.{AllZip};
ghost use Rattle.rp_board.specs.Parts.{fresh_part, OfTask};
ghost use Rattle.rp_replica.specs.rp_model.specs.Parts.{fresh_task};
ghost use Rattle.rp_threads.specs.Runs.{MayRun, HaveRun, RunsOrStops, IsNodeEnd, IsTaskEnd};

use crate::ending::Ending;
use crate::gate::Gate;
use crate::loops::NodeEnd;
use crate::options::LoopOptions;
use crate::starts::{LoopGuarantee, NodeStart, Start, TaskStart, start_node, start_task};
use crate::tasks::TaskEnd;
use rp_machine::Machine;
use rp_store::Device;
use std::alloc::AllocError;
use std::sync::Wait;
use std::thread;
use std::thread::{PromisedHandle, Scope, Threads};

/// Starts the nodes, each in its own thread.
fn start_nodes<
    's,
    V,
    M: Machine + Send + 's,
    D: Device + Send + 's,
    G: Gate + Sync,
    E: Ending + Sync,
>(
    scope: &Scope<'s, V>,
    starts: Vec<NodeStart<M, D>>,
    nodes: u8,
    options: LoopOptions<'s, G, E>,
) -> Result<Vec<PromisedHandle<NodeEnd<M, D>, LoopGuarantee<NodeStart<M, D>, G, E>>>, AllocError>
where
    M::Program: Send,
    requires nodes { nodes ≤ 7 }
    requires lines { All (λ start. start.line.held ≡ []) starts.items }
    ensures { IfOk result (λ handles. AllZip (λ start handle.
        (handle.promise.start.value ≡ start) × (handle.promise.nodes ≡ nodes)
        × (handle.promise.turns ≡ options.entry.turns)) starts.items handles.items) }
{
    let mut handles = Vec::new(options.alloc);
    for start in starts {
        handles.push(start_node(scope, start, nodes, options)?)?;
    }
    Ok(handles)
}

/// Starts the tasks, each in its own thread.
fn start_tasks<'s, V, M: Machine + Send + 's, G: Gate + Sync, E: Ending + Sync>(
    scope: &Scope<'s, V>,
    starts: Vec<TaskStart<M>>,
    nodes: u8,
    options: LoopOptions<'s, G, E>,
) -> Result<Vec<PromisedHandle<TaskEnd<M>, LoopGuarantee<TaskStart<M>, G, E>>>, AllocError>
where
    M::Program: Send,
    requires nodes { (1 ≤ nodes) × (nodes ≤ 7) }
    requires lines { All (λ start. start.line.held ≡ []) starts.items }
    requires fresh { All (λ start. start.seat.part ≡ fresh_part (OfTask fresh_task)) starts.items }
    ensures { IfOk result (λ handles. AllZip (λ start handle.
        (handle.promise.start.value ≡ start) × (handle.promise.nodes ≡ nodes)
        × (handle.promise.turns ≡ options.entry.turns)) starts.items handles.items) }
{
    let mut handles = Vec::new(options.alloc);
    for start in starts {
        handles.push(start_task(scope, start, nodes, options)?)?;
    }
    Ok(handles)
}

/// Joins the threads of nodes or of tasks.
fn join_all<R: Threads, S: Start<G, E>, G: Gate, E: Ending>(
    rt: &R,
    handles: Vec<PromisedHandle<S::End, LoopGuarantee<S, G, E>>>,
) -> Result<Vec<S::End>, AllocError>
where
    S::End: Drop,
    ensures { IfOk result (λ ends. AllZip (λ handle end. S.ends handle.promise.start.value
        handle.promise.nodes handle.promise.turns end) handles.items ends.items) }
{
    let ends = thread::join_promised(rt, handles)?;
    Ok(ends)
}

/// Starts all threads, and joins them.
fn run_started<
    's,
    V,
    R: Threads,
    M: Machine + Send + 's,
    D: Device + Send + 's,
    G: Gate + Sync,
    E: Ending + Sync,
>(
    scope: &Scope<'s, V>,
    rt: &R,
    nodes: Vec<NodeStart<M, D>>,
    tasks: Vec<TaskStart<M>>,
    options: LoopOptions<'s, G, E>,
) -> Result<(Vec<NodeEnd<M, D>>, Vec<TaskEnd<M>>), AllocError>
where
    M::Program: Send,
    requires { MayRun nodes.items tasks.items }
    ensures { IfOk result (λ ends. HaveRun M.next M.answers M.begin G.lets G.heard E.over E.ended
        options.entry.turns nodes.items tasks.items ends.0.items ends.1.items) }
{
    let count = nodes.len() as u8;
    let nodes = start_nodes(scope, nodes, count, options)?;
    let tasks = start_tasks(scope, tasks, count, options)?;
    let nodes = join_all(rt, nodes)?;
    let tasks = join_all(rt, tasks)?;
    Ok((nodes, tasks))
}

/// Starts all threads, and joins them. If that fails, the ending is notified, so that the threads that
/// were started can end.
fn run_within<
    's,
    V,
    R: Threads,
    M: Machine + Send + 's,
    D: Device + Send + 's,
    G: Gate + Sync,
    E: Ending + Sync,
>(
    scope: &Scope<'s, V>,
    rt: &R,
    nodes: Vec<NodeStart<M, D>>,
    tasks: Vec<TaskStart<M>>,
    options: LoopOptions<'s, G, E>,
) -> Result<(Vec<NodeEnd<M, D>>, Vec<TaskEnd<M>>), AllocError>
where
    M::Program: Send,
    requires { MayRun nodes.items tasks.items }
    ensures ok { IfOk result (λ ends. HaveRun M.next M.answers M.begin G.lets G.heard E.over
        E.ended options.entry.turns nodes.items tasks.items ends.0.items ends.1.items) }
    ensures stopped { OnErr result (E.stopped true) }
{
    match run_started(scope, rt, nodes, tasks, options) {
        Ok(ends) => Ok(ends),
        Err(error) => {
            options.ending.stop();
            Err(error)
        }
    }
}

/// Runs each node and each task in its own thread. It returns once all of them have ended, with
/// their ends in the order of the starts. The nodes are assumed to be those of the numbers 1 to n.
/// A node makes its turns as `node_loop` describes and a task as `task_loop` does, both by the
/// options. `AllocError` if no thread can be made for one of them, or if memory runs out for the
/// list of them: the ending is notified, the threads that were started still run to their end, and no
/// seat is returned.
pub fn run_threads<
    R: Threads + Wait,
    M: Machine + Send,
    D: Device + Send,
    G: Gate + Sync,
    E: Ending + Sync,
>(
    rt: &R,
    nodes: Vec<NodeStart<M, D>>,
    tasks: Vec<TaskStart<M>>,
    options: LoopOptions<'_, G, E>,
) -> Result<(Vec<NodeEnd<M, D>>, Vec<TaskEnd<M>>), AllocError>
where
    M::Program: Send,
    requires count { (1 ≤ length nodes.items) × (length nodes.items ≤ 7) }
    requires node_lines { All (λ start. start.line.held ≡ []) nodes.items }
    requires task_lines { All (λ start. start.line.held ≡ []) tasks.items }
    requires fresh { All (λ start. start.seat.part ≡ fresh_part (OfTask fresh_task)) tasks.items }
    // claim: The results of the nodes and tasks that were to run are, in the order given, each what
    //   its loop ensures
    // claim (stopped): If a thread could not be started the ending is notified of that
    ensures nodes { IfOk result (λ ends. AllZip (IsNodeEnd M.next M.answers M.begin G.lets G.heard
        E.over E.ended (length nodes.items) options.entry.turns) nodes.items ends.0.items) }
    ensures tasks { IfOk result (λ ends. AllZip (IsTaskEnd M.next M.answers M.begin E.over E.ended
        (length nodes.items) options.entry.turns) tasks.items ends.1.items) }
    ensures stopped { OnErr result (E.stopped true) }
{
    thread::scope(
        thread::scope_env(),
        rt,
        |scope| -> Result<(Vec<NodeEnd<M, D>>, Vec<TaskEnd<M>>), AllocError>
            requires { MayRun nodes.items tasks.items }
            ensures { RunsOrStops (λ ends. HaveRun M.next M.answers M.begin G.lets G.heard
                E.over E.ended options.entry.turns nodes.items tasks.items ends.0.items
                ends.1.items) (E.stopped true) result }
        { run_within(scope, rt, nodes, tasks, options) },
    )
}
