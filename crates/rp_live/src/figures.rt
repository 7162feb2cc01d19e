//! How a run went, in numbers for a reader.

ghost use Rattle.std.specs.Prelude.{◌≡◌, map, length};
ghost use Rattle.rp_board.specs.Parts.{task_of};
ghost use Rattle.rp_live.specs.Figures.{figures_of, sum_from, greatest_from};

use rp_machine::Machine;
use rp_store::Device;
use rp_threads::{NodeEnd, TaskEnd};

/// How a run went, in numbers. Each sum saturates at the greatest 64-bit number.
#[derive(Clone, Copy, Debug)]
pub struct Figures {
    /// How many calls the tasks made.
    pub asked: u64,
    /// How many of these calls got their replies.
    pub answered: u64,
    /// The turn of its task in which the last reply arrived, or 0.
    pub last_reply: u64,
    /// How many packets were lost on links and at boxes that were not empty.
    pub lost: u64,
    /// In how many turns nodes led: each begins a ballot.
    pub led: u64,
}

impl Figures {
    /// The figures of nodes and tasks whose threads ended.
    pub(crate) fn of<M: Machine, D: Device>(
        nodes: &[NodeEnd<M, D>],
        tasks: &[TaskEnd<M>],
    ) -> Figures
        ensures { result ≡ figures_of nodes.now tasks.now }
    {
        Figures {
            asked: calls_made(tasks),
            answered: calls_answered(tasks),
            last_reply: last_reply(tasks),
            lost: lost_by_nodes(nodes).saturating_add(lost_by_tasks(tasks)),
            led: turns_led(nodes),
        }
    }
}

/// How many calls the tasks made.
fn calls_made<M: Machine>(tasks: &[TaskEnd<M>]) -> u64
    ensures { result ≡ sum_from 0 (map (λ end. end.made) tasks.now) }
{
    tasks
        .iter()
        .fold(0, |sum: u64, end| sum.saturating_add(end.made as u64))
}

/// How many of these calls got their replies.
fn calls_answered<M: Machine>(tasks: &[TaskEnd<M>]) -> u64
    ensures { result ≡ sum_from 0
        (map (λ end. length (task_of end.seat.part.role).replies) tasks.now) }
{
    tasks.iter().fold(0, |sum: u64, end| {
        sum.saturating_add(end.seat.replies().len() as u64)
    })
}

/// The turn in which the last reply arrived, or 0.
fn last_reply<M: Machine>(tasks: &[TaskEnd<M>]) -> u64
    ensures { result ≡ greatest_from 0 (map (λ end. end.last_reply) tasks.now) }
{
    tasks
        .iter()
        .fold(0, |last: u64, end| last.max(end.last_reply))
}

/// How many packets the loops of nodes count as lost.
fn lost_by_nodes<M: Machine, D: Device>(nodes: &[NodeEnd<M, D>]) -> u64
    ensures { result ≡ sum_from 0 (map (λ end. end.counts.lost) nodes.now) }
{
    nodes
        .iter()
        .fold(0, |sum: u64, end| sum.saturating_add(end.counts.lost))
}

/// How many packets the loops of tasks count as lost.
fn lost_by_tasks<M: Machine>(tasks: &[TaskEnd<M>]) -> u64
    ensures { result ≡ sum_from 0 (map (λ end. end.lost) tasks.now) }
{
    tasks
        .iter()
        .fold(0, |sum: u64, end| sum.saturating_add(end.lost))
}

/// In how many turns nodes led.
fn turns_led<M: Machine, D: Device>(nodes: &[NodeEnd<M, D>]) -> u64
    ensures { result ≡ sum_from 0 (map (λ end. end.counts.led) nodes.now) }
{
    nodes
        .iter()
        .fold(0, |sum: u64, end| sum.saturating_add(end.counts.led))
}
