//! What a replica is asked by a caller that decides when it leads, and by a task that restarts.

ghost use Rattle.std.specs.Prelude.{◌≡◌, ◌≤◌, length};
ghost use Rattle.rp_base.specs.Records.{applied_of};
ghost use Rattle.rp_model.specs.rp_machine.specs.Asked.{last_number};
ghost use Rattle.rp_model.specs.rp_machine.specs.Replay.{counted_of};
ghost use Rattle.rp_model.specs.Learner.{missing_position};
ghost use Rattle.rp_model.specs.Pending.{most_pending};
ghost use Rattle.rp_replica.specs.State.{server_of};
ghost use Rattle.rp_rules.specs.rp_server.specs.Free.{free_items, has_uncounted};

use crate::replica::Replica;
use rp_base::{NodeId, Position, TaskId};
use rp_machine::Machine;
use rp_server::Roles;
use rp_store::Device;

impl<M: Machine, D: Device> Replica<M, D> {
    /// Its node.
    pub fn node(&self) -> NodeId
        ensures { result ≡ self.now.me }
    {
        self.server.me()
    }

    /// Its server, which answers what it promised and voted, and what is pending.
    pub fn server(&self) -> &Roles<M>
        ensures { result.now ≡ server_of self.now }
    {
        &self.server
    }

    /// How many pending items did not count yet and are the own action of no proposal that runs: a
    /// lead at a position of its own takes the first of them. A call that waits at a closed entry
    /// counted.
    pub fn free_pending(&self) -> usize
        // claim (value): A node returns how many pending items are free: they did not count yet, and
        //   no proposal that it runs has one of them as its own action
        ensures value { result ≡ length (free_items
            (counted_of M.next M.answers self.now.begin (applied_of self.now.records))
            self.now.running.proposals self.now.running.pending) }
        ensures within { result ≤ most_pending }
    {
        self.server.free_pending()
    }

    /// Whether something is pending that did not count yet: it is free, or a proposal that runs has
    /// it as its own action.
    pub fn has_uncounted(&self) -> bool
        // claim: A node returns whether something is pending at it that did not count yet
        ensures { result ≡ has_uncounted
            (counted_of M.next M.answers self.now.begin (applied_of self.now.records))
            self.now.running.pending }
    {
        self.server.has_uncounted()
    }

    /// The first unlearned position, if a learned one lies above it.
    pub fn missing_position(&self) -> Option<Position>
        ensures { result ≡ missing_position self.now.records }
    {
        self.server.missing_position()
    }

    /// The number of the task's last call that counted, 0 if none did.
    pub fn last_number(&self, task: TaskId) -> u32
        // claim: A node returns the number of a task's last call that counted at it
        ensures { result ≡ last_number task
            (counted_of M.next M.answers self.now.begin (applied_of self.now.records)) }
    {
        self.server.last_number(task)
    }
}
