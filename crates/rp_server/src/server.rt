//! The server, and what it may be asked.

ghost use Rattle.std.specs.Prelude.{◌≡◌, ◌<◌, ◌≤◌, ◌++◌, length, nat_lt, IfOk, IsOkUnless};
ghost use Rattle.std.specs.List.{AllByRecursion, list_any};
ghost use Rattle.rp_base.specs.declared.fault.Fault.TheVariants as faults;
ghost use Rattle.rp_base.specs.Action.{IsIndex};
ghost use Rattle.rp_base.specs.Config.{IsRightConfig};
ghost use Rattle.rp_base.specs.Records.{applied_of};
ghost use Rattle.rp_base.specs.Right.{IsRightRecord};
ghost use Rattle.rp_machine.specs.Asked.{last_number, last_occurrence, kept_reply};
ghost use Rattle.rp_machine.specs.Replay.{counted_of, replay_answers, replay_state};
ghost use Rattle.rp_model.specs.Pending.{most_pending, is_same_call};

use crate::heard::Heard;
use crate::pending::Pending;
use rp_acceptor::Acceptor;
use rp_base::{Action, Ballot, Config, Fault, NodeId, Position, Reply, TaskId};
use rp_codec::Header;
use rp_learner::Learner;
use rp_log::Log;
use rp_machine::{Machine, Numbered};
use rp_model::RightAction;
use rp_proposer::Proposer;
use std::alloc::Global;
use std::marker::Model;

/// One server: acceptor, proposer, learner, log and machine of one node, in memory (Lamport, "Paxos
/// Made Simple", sections 2.2, 2.3 and 3). What changes it for good takes the store in which the
/// change is written first.
///
/// To a contract it is its node, the configuration and the machine's start, its records, and what
/// it knows while it runs.
pub struct Roles<M: Machine> {
    pub(crate) me: NodeId,
    pub(crate) config: Config,
    pub(crate) acceptor: Acceptor,
    pub(crate) proposer: Proposer,
    pub(crate) learner: Learner,
    pub(crate) heard: Heard,
    pub(crate) log: Log,
    pub(crate) machine: Numbered<M>,
    pub(crate) pending: Pending,
}

// Not derived, so that to drop it is one step of a proof and not one for each of its parts.
impl<M: Machine> Drop for Roles<M> {
    fn drop(self) {
        let Roles {
            me: _,
            config: _,
            acceptor: _,
            proposer: _,
            learner: _,
            heard: _,
            log: _,
            machine: _,
            pending: _,
        } = self;
    }
}

impl<M: Machine> Model for Roles<M> {
    ghost use Rattle.rp_server.specs.State.{ServerState};
    ghost use Rattle.rp_server.specs.Invariant.{IsServer};

    ghost Value = { ServerState M };

    ghost view = { λ s. record {
      me = s.me;
      config = s.config;
      begin = s.machine.begin;
      records = s.acceptor.records;
      running = record {
        proposals = s.proposer.proposals;
        heard = s.heard;
        pending = s.pending;
        refused = s.proposer.refused;
      };
    } };

    ghost invariant = { λ s. IsServer s.me s.config s.acceptor.records s.proposer s.learner s.heard
        s.log s.machine };
}

impl<M: Machine> Roles<M> {
    /// Its node.
    #[inline(always)]
    pub fn me(&self) -> NodeId
        ensures { result ≡ self.now.me }
    {
        self.me
    }

    /// How many nodes there are, and how many positions the log has.
    #[inline(always)]
    pub fn config(&self) -> Config
        ensures config { result ≡ self.now.config }
        ensures right { IsRightConfig result }
    {
        self.config
    }

    /// How many actions are applied: those learned at the positions up to that number.
    pub fn applied(&self) -> u32
        ensures count { result ≡ length (applied_of self.now.records) }
        ensures within { result < 65536 }
    {
        self.log.applied()
    }

    /// How many items are pending, at most 32.
    #[inline(always)]
    pub fn pending_len(&self) -> usize
        ensures value { result ≡ length self.now.running.pending }
        ensures within { result ≤ most_pending }
    {
        self.pending.len()
    }

    /// The pending items in order of arrival, in two runs.
    pub fn pending(&self) -> (&[RightAction], &[RightAction])
        ensures { result.0.now ++ result.1.now ≡ self.now.running.pending }
    {
        self.pending.as_slices()
    }

    /// Whether the item is a call that is pending.
    #[inline(always)]
    pub fn is_pending(&self, item: Action) -> bool
        ensures { result ≡ list_any (is_same_call item) self.now.running.pending }
    {
        self.pending.has(item)
    }

    /// Whether one more item may become pending.
    #[inline(always)]
    pub fn has_room(&self) -> bool
        ensures { result ≡ nat_lt (length self.now.running.pending) most_pending }
    {
        self.pending.has_room()
    }

    /// Lines that show the machine's state.
    pub fn image(&self, alloc: Global) -> Result<Vec<u8>, Fault>
        ensures image { IfOk result (λ text. text.items ≡ M.image
            (replay_state M.next M.answers self.now.begin (applied_of self.now.records))) }
        ensures only { IsOkUnless result faults.OutOfMemory }
    {
        Ok(self.machine.machine().image(alloc)?)
    }

    /// The last occurrence of a source, 1 to 8, that counted, 0 if none did.
    pub fn last_occurrence(&self, source: u8) -> u32
        requires { IsIndex source }
        ensures { result ≡ last_occurrence source
            (counted_of M.next M.answers self.now.begin (applied_of self.now.records)) }
    {
        self.machine.last_occurrence(source)
    }

    /// The number of the task's last call that counted, 0 if none did.
    pub fn last_number(&self, task: TaskId) -> u32
        ensures { result ≡ last_number task
            (counted_of M.next M.answers self.now.begin (applied_of self.now.records)) }
    {
        self.machine.last(task)
    }

    /// The reply that is kept for a call.
    pub fn kept_reply(&self, task: TaskId, number: u32) -> Option<Reply>
        ensures { let applied = applied_of self.now.records in result ≡ kept_reply task number
            (counted_of M.next M.answers self.now.begin applied)
            (replay_answers M.next M.answers self.now.begin applied) }
    {
        self.machine.kept(task, number)
    }

    /// The header of a packet of this node to another.
    #[inline(always)]
    pub fn header_to(&self, to: NodeId, position: Position, ballot: Ballot) -> Header
        ensures { result
            ≡ record { from = self.now.me; to = to; position = position; ballot = ballot } }
    {
        Header {
            from: self.me,
            to,
            position,
            ballot,
        }
    }

    /// Each record may be sent and written again. It does nothing: its contract is for the proofs
    /// of its callers.
    #[inline(always)]
    pub fn has_right_records(&self)
        ensures { AllByRecursion IsRightRecord self.now.records }
    {
        let _ = &self.acceptor;
    }
}
