//! The search over every order, and what it found.

ghost use Rattle.std.specs.Prelude.{◌≡◌, ◌-◌, ◌<◌, ◌≤◌, ◌↔◌, ℕ, false, [], length, None, slice_index_or, IsTrue, IfOk, MatchOption};
ghost use Rattle.rp_base.specs.Number.{IsTask};
ghost use Rattle.rp_base.specs.Sets.{Has, IsSet};
ghost use Rattle.rp_base.specs.declared.reply.Answer.{Answer};
ghost use Rattle.rp_orders.specs.Orders.{AreRight, AreClosed, IsGiven, IsFinal};
ghost use Rattle.rp_explore.specs.Listed.{order_at, AreOrdersOf, AreGuarded, AreSorted, AreDistinct};
ghost use Rattle.rp_explore.specs.declared.giver.Giver.{Giver};
ghost use Rattle.rp_explore.specs.Explored.{greatest_length, IsShortest, IsFirstStuck, IsNeverStuck, IsFirstGiver};

use crate::findings::Findings;
use crate::giver::Giver;
use crate::search::Search;
use crate::tree::OrderTree;
use rp_base::{Action, Answer, TaskId};
use rp_machine::Machine;
use rp_orders::Guard;
use std::alloc::{AllocError, Global};
use std::marker::Model;

/// The orders that were found, each to a state of its own, the shortest first, and what they give.
#[derive(Drop)]
pub struct Explored {
    tree: OrderTree,
    findings: Findings,
}

impl Model for Explored {
    ghost use Rattle.rp_explore.specs.Explored.{Exploration};

    ghost Value = { Exploration };

    ghost view = { λ e. record {
      may = e.tree.may;
      orders = e.tree.orders;
      is_whole = e.findings.is_whole;
      replies = e.findings.given.replies.keys;
      givers = e.findings.given.givers.items;
      finals = e.findings.finals.items;
      stuck = e.findings.stuck;
      depth = e.findings.depth;
    } };
}

/// Finds an order to each state to which an order of what may happen leads, breadth first, at most
/// `most` of them, with the replies that are given and the tasks that wait for ever. A call is made
/// only where its guards let it be.
pub fn explore<M: Machine>(
    alloc: Global,
    program: &M::Program,
    may: &[Action],
    guards: &[Guard],
    most: usize,
) -> Result<Explored, AllocError>
    requires right { AreRight may.now }
    requires room { 0 < most }
    // claim: The orders that a search lists are of actions that may happen, by the guards too, the
    //   empty one is there, no two lead to the same state, and they are no more than was asked
    ensures may { IfOk result (λ e. e.may ≡ may.now) }
    ensures starts { IfOk result (λ e. Has [] e.orders) }
    ensures among { IfOk result (λ e. AreOrdersOf (record { may = may.now; orders = e.orders })) }
    ensures guarded { IfOk result (λ e.
        AreGuarded M.next M.answers (M.begin program.now) guards.now e.orders) }
    ensures distinct { IfOk result (λ e.
        AreDistinct M.next M.answers (M.begin program.now) guards.now e.orders) }
    ensures most { IfOk result (λ e. length e.orders ≤ most) }
    // claim: A search lists the shorter orders first, and no shorter order leads to the same state
    //   as one that it lists
    ensures sorted { IfOk result (λ e. AreSorted e.orders) }
    ensures shortest { IfOk result (λ e. (place : ℕ) → place < length e.orders
        → IsShortest M.next M.answers (M.begin program.now) guards.now may.now e.orders place) }
    // claim: A search is whole exactly if the orders that it lists lead to every state that their
    //   actions lead to, and where it is not, it lists as many as was asked
    ensures whole { IfOk result (λ e. IsTrue e.is_whole
        ↔ AreClosed M.next M.answers (M.begin program.now) guards.now may.now e.orders) }
    ensures full { IfOk result (λ e. e.is_whole ≡ false → length e.orders ≡ most) }
    // claim: The replies of a search are exactly those that its orders and one action more give
    ensures replies { IfOk result (λ e. (answer : Answer) → Has answer e.replies
        ↔ IsGiven M.next M.answers (M.begin program.now) guards.now may.now e.orders answer) }
    ensures once { IfOk result (λ e. IsSet e.replies) }
    // claim: A search says of each reply which of its orders and which action first give it
    ensures sized { IfOk result (λ e. length e.givers ≡ length e.replies) }
    ensures givers { IfOk result (λ e. (k : ℕ) (answer : Answer) (giver : Giver)
        → k < length e.replies
        → IsFirstGiver M.next M.answers (M.begin program.now) guards.now may.now e.orders
        (slice_index_or e.replies k answer) (slice_index_or e.givers k giver)) }
    // claim: A search reports for each task the first of its orders after which the task waits for
    //   ever, if there is one
    ensures waits { IfOk result (λ e. (task : ℕ) → IsTask task
        → MatchOption (slice_index_or e.stuck (task - 1) None)
        (IsNeverStuck M.next M.answers (M.begin program.now) guards.now may.now e.orders task)
        (IsFirstStuck M.next M.answers (M.begin program.now) guards.now may.now e.orders task)) }
    // claim: An order that a search lists is final exactly if no action that may happen after it
    //   changes anything
    ensures finals { IfOk result (λ e. (place : ℕ) → place < length e.orders
        → IsTrue (slice_index_or e.finals place false)
        ↔ IsFinal M.next M.answers (M.begin program.now) guards.now may.now
        (order_at e.orders place)) }
    // claim: The depth of a search is the length of the longest order that it lists
    ensures depth { IfOk result (λ e. e.depth ≡ greatest_length e.orders) }
{
    M::laws();
    let mut search = Search::<M>::new(alloc, program, may, guards, most)?;
    let mut findings = Findings::new(alloc);
    let mut place = 0;
    while place < search.len() {
        search.visit(place, &mut findings)?;
        place += 1;
    }
    Ok(Explored {
        tree: search.into_tree(),
        findings,
    })
}

impl Explored {
    /// How many orders there are, each to a state of its own.
    pub fn len(&self) -> usize
        ensures { result ≡ length self.now.orders }
    {
        self.tree.len()
    }

    /// Whether the orders lead to every state that what may happen leads to.
    pub fn is_whole(&self) -> bool
        ensures { result ≡ self.now.is_whole }
    {
        self.findings.is_whole
    }

    /// The order at a place, from 0.
    pub fn order(&self, alloc: Global, place: usize) -> Result<Vec<Action>, AllocError>
        requires { place < length self.now.orders }
        ensures value { IfOk result (λ order. order.items ≡ order_at self.now.orders place) }
        ensures right { IfOk result (λ order. AreRight order.items) }
    {
        self.tree.order(alloc, place)
    }

    /// The replies that are given, each once, in the order in which they were found.
    pub fn replies(&self) -> &[Answer]
        ensures { result.now ≡ self.now.replies }
    {
        self.findings.given.replies.as_slice()
    }

    /// The first order and action that give the reply with this index.
    pub fn giver(&self, index: usize) -> Giver
        requires { index < length self.now.givers }
        ensures { (giver : Giver) → result ≡ slice_index_or self.now.givers index giver }
    {
        self.findings.given.givers[index]
    }

    /// Whether no action that may happen after the order at the place changes anything.
    pub fn is_final(&self, place: usize) -> bool
        ensures { result ≡ slice_index_or self.now.finals place false }
    {
        match self.findings.finals.get(place) {
            Some(is_final) => *is_final,
            None => false,
        }
    }

    /// The length of the longest order.
    pub fn depth(&self) -> usize
        ensures { result ≡ self.now.depth }
    {
        self.findings.depth
    }

    /// How many actions were tried that count and that the guards let be decided: no contract says
    /// it.
    pub fn steps(&self) -> u64 {
        self.findings.steps
    }

    /// The place of the first order after which the task waits for ever.
    pub fn waits(&self, task: TaskId) -> Option<usize>
        ensures { result ≡ slice_index_or self.now.stuck (task - 1) None }
    {
        self.findings.stuck[usize::from(task.get()) - 1]
    }
}
