//! A server that begins by the records of a node.

ghost use Rattle.std.specs.Prelude.{◌≡◌, ◌≤◌, ℕ, Some, None, [], length, IfOk, IsOkUnless};
ghost use Rattle.std.specs.List.{AllByRecursion};
ghost use Rattle.rp_base.specs.Config.{IsRightConfig};
ghost use Rattle.rp_base.specs.declared.fault.Fault.TheVariants as faults;
ghost use Rattle.rp_base.specs.Right.{IsRightRecord};
ghost use Rattle.rp_log.specs.Recorded.{LearnedAlike};
ghost use Rattle.rp_model.specs.Parts.{fresh_running};
ghost use Rattle.rp_server.specs.Invariant.{IsLearner, AllInLog};

use crate::apply::apply_ready;
use crate::heard::Heard;
use crate::pending::Pending;
use crate::server::Roles;
use crate::window::follow;
use rp_acceptor::Acceptor;
use rp_base::{Config, Fault, NodeId, Rec};
use rp_learner::Learner;
use rp_log::Log;
use rp_machine::{Machine, Numbered};
use rp_proposer::Proposer;
use std::alloc::Global;

impl<M: Machine> Roles<M> {
    /// A server of a node that begins by these records, all of them within the log. Nothing is
    /// proposed, heard or pending. Refused with `OutOfMemory` alone.
    pub fn restart(
        alloc: Global,
        node: NodeId,
        config: Config,
        program: &M::Program,
        records: &[Rec],
    ) -> Result<Roles<M>, Fault>
        requires config { IsRightConfig config }
        requires node { node ≤ config.nodes }
        requires within { AllInLog config.max_positions records.now }
        requires right { AllByRecursion IsRightRecord records.now }
        ensures starts { IfOk result (λ server. server ≡ record {
          me = node;
          config = config;
          begin = M.begin program.now;
          records = records.now;
          running = fresh_running;
        }) }
        ensures only { IsOkUnless result faults.OutOfMemory }
    {
        let acceptor = Acceptor::restore(alloc, records)?;
        let proposer = Proposer::restore(alloc, node, config.nodes, records)?;
        let mut learner = learner_of(alloc, config, records)?;
        let mut machine = Numbered::new(alloc, program)?;
        let pending = Pending::new(alloc)?;
        let mut log = log_of(alloc, records)?;
        apply_ready(&mut machine, &mut log);
        follow(&mut learner, &log);
        Ok(Roles {
            me: node,
            config,
            acceptor,
            proposer,
            learner,
            heard: Heard::new(),
            log,
            machine,
            pending,
        })
    }
}

/// A learner that heard nothing and settled what these records learn, its window from position 1
/// on.
fn learner_of(alloc: Global, config: Config, records: &[Rec]) -> Result<Learner, Fault>
    requires right { IsRightConfig config }
    requires within { AllInLog config.max_positions records.now }
    ensures learner { IfOk result (λ learner. IsLearner config records.now 0 learner []) }
    ensures only { IsOkUnless result faults.OutOfMemory }
{
    let mut learner = Learner::new(alloc, config.nodes, config.max_positions)?;
    for rec in records {
        if let Rec::Learned(position, _) = *rec {
            learner.settled(position);
        }
    }
    Ok(learner)
}

/// The log of these records.
fn log_of(alloc: Global, records: &[Rec]) -> Result<Log, Fault>
    ensures learned { IfOk result (λ log. LearnedAlike records.now log) }
    ensures taken { IfOk result (λ log. log.taken ≡ []) }
    ensures only { IsOkUnless result faults.OutOfMemory }
{
    let mut log = Log::new(alloc);
    for rec in records {
        if let Rec::Learned(position, action) = rec {
            log.reserve(*position)?;
            log.learn(*position, action);
        }
    }
    Ok(log)
}
