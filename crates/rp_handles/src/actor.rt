//! A node or a task, which answers requests.

ghost use Rattle.std.specs.Prelude.{◌≡◌, ◌∷◌};
ghost use Rattle.rp_handles.specs.Handles.{ActorAdvises, ActorAnswers, ActorShows, exchange_of, actor_kind_of, receives_byte};

use rp_object::Objects;
use rp_patience::{Advice, Patience};
use rp_requests::{HandleNode, Lengths, NotTaken, Refusal, Task};
use std::alloc::Global;

/// A node of a deck's protected objects, or a task.
#[derive(Drop)]
pub enum Actor {
    Node(HandleNode<Objects>),
    Task(Task),
}

/// The kind of an actor.
#[derive(Clone, Copy)]
pub enum ActorKind {
    Node,
    Task,
}

/// What a node's last step gave besides the bytes of its answer.
#[derive(Clone, Copy)]
pub struct LastStep {
    /// How many packets it sent.
    pub packets: usize,
    /// What it did not take.
    pub not_taken: NotTaken,
}

impl ActorKind {
    /// The kind with this number, if there is one: 1 is a node, 2 a task.
    pub fn of(number: u8) -> Option<Self>
        ensures { result ≡ actor_kind_of number }
    {
        match number {
            1 => Some(ActorKind::Node),
            2 => Some(ActorKind::Task),
            _ => None,
        }
    }
}

impl Actor {
    /// Answers a request to an actor of this kind, as `HandleNode::call` or `Task::call`; `None` if the
    /// actor is of the other kind.
    #[inline(always)]
    pub(crate) fn call(
        &mut self,
        alloc: Global,
        kind: ActorKind,
        request: &[u8],
        answer: &mut [u8],
    ) -> Option<Result<Lengths, Refusal>>
        ensures { ActorAnswers kind (exchange_of request.now answer.old answer.new)
            self.old self.new result }
    {
        match self {
            Actor::Node(node) => match kind {
                ActorKind::Node => Some(node.call(alloc, request, answer)),
                ActorKind::Task => None,
            },
            Actor::Task(task) => match kind {
                ActorKind::Node => None,
                ActorKind::Task => Some(task.call(alloc, request, answer)),
            },
        }
    }

    /// Answers the request that brings a packet to an actor of this kind, by the packet alone, as
    /// `HandleNode::receive` or `Task::receive`; `None` if the actor is of the other kind.
    pub(crate) fn receive(
        &mut self,
        alloc: Global,
        kind: ActorKind,
        packet: &[u8],
        answer: &mut [u8],
    ) -> Option<Result<Lengths, Refusal>>
        ensures { ActorAnswers kind
            (exchange_of (receives_byte kind ∷ packet.now) answer.old answer.new)
            self.old self.new result }
    {
        match kind {
            ActorKind::Node => match self {
                Actor::Node(node) => Some(node.receive(alloc, packet, answer)),
                Actor::Task(_) => None,
            },
            ActorKind::Task => match self {
                Actor::Node(_) => None,
                Actor::Task(task) => Some(task.receive(alloc, packet, answer)),
            },
        }
    }

    /// What a node is to do after quiet turns, as `HandleNode::advise`; `None` if the actor is a task.
    pub(crate) fn advise(&self, patience: &mut Patience, turns: u64) -> Option<Advice>
        ensures { ActorAdvises self.now turns patience.old patience.new result }
    {
        match self {
            Actor::Node(node) => Some(node.advise(patience, turns)),
            Actor::Task(_) => None,
        }
    }

    /// What the last step of a node gave besides its bytes, and where its packets end, as
    /// `HandleNode::put_ends`; `None` if the actor is a task.
    pub(crate) fn last_step(&self, ends: &mut [usize]) -> Option<LastStep>
        ensures { ActorShows self.now ends.old ends.new result }
    {
        match self {
            Actor::Node(node) => Some(LastStep {
                packets: node.put_ends(ends),
                not_taken: node.not_taken(),
            }),
            Actor::Task(_) => None,
        }
    }
}
