//! Stops and restarts of nodes.

ghost use Rattle.rp_model.specs.World.{part_at, stops, restarts};
ghost use Rattle.rp_actors.specs.Going.{AnswersRestart, AnswersStop};

use crate::effect::{no_effect, opened};
use crate::world::{World, put_back};
use rp_base::{Fault, NodeId};
use rp_machine::Machine;
use rp_model::Effect;
use rp_store::CutDevice;
use std::alloc::Global;

impl<M: Machine, D: CutDevice> World<M, D> {
    /// A node stops, which takes no memory. `BadConfig` above the last node, `NotRunning` where it
    /// is stopped.
    #[inline(never)]
    pub(crate) fn stop(&mut self, node: NodeId) -> Result<Effect, Fault>
        ensures answer { AnswersStop self.old
            (stops self.old.world node (part_at self.old.world.nodes node)) self.new result }
    {
        let first = self.messages() + 1;
        let place = usize::from(node.get()) - 1;
        if place >= self.nodes.len() {
            return Err(Fault::BadConfig);
        }
        let (node, answer) = self.nodes.remove(place).stop();
        put_back(&mut self.nodes, place, node);
        match answer {
            Ok(()) => Ok(no_effect(first)),
            Err(fault) => Err(fault),
        }
    }

    /// A node starts again; one that runs goes on. `BadConfig` above the last node; `OutOfMemory`
    /// or `Device` where it could not: it stays stopped, and some of its torn bytes may be gone.
    #[inline(never)]
    pub(crate) fn restart(&mut self, alloc: Global, node: NodeId) -> Result<Effect, Fault>
        ensures answer { AnswersRestart self.old node
            (restarts self.old.world node (part_at self.old.world.nodes node)) self.new result }
    {
        let first = self.messages() + 1;
        let place = usize::from(node.get()) - 1;
        if place >= self.nodes.len() {
            return Err(Fault::BadConfig);
        }
        let stopped = self.nodes.remove(place);
        let (node, found) = stopped.restart(alloc, node, self.config, &self.program);
        put_back(&mut self.nodes, place, node);
        match found {
            Ok(found) => Ok(opened(first, found)),
            Err(fault) => Err(fault),
        }
    }
}
