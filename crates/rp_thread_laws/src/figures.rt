//! The figures of a run, by the ends of its loops.

ghost use Rattle.std.specs.Prelude.{◌≡◌, ◌+◌, ◌<◌, ◌≤◌, List, All, length, flat_map};
ghost use Rattle.std.specs.List.{sum_by};
ghost use Rattle.rp_threads.specs.rp_base.specs.Sets.{Has};
ghost use Rattle.rp_threads.specs.declared.loops.NodeEnd.{NodeEnd};
ghost use Rattle.rp_threads.specs.declared.tasks.TaskEnd.{TaskEnd};
ghost use Rattle.rp_live.specs.Figures.{figures_of};
ghost use Rattle.rp_live.specs.LiveOutcome.{replies_at};
ghost use Rattle.rp_thread_laws.specs.Figures.{within_64_bits};

use rp_machine::Machine;
use rp_store::Device;

/// Each figure of a run is a sum over the ends of its loops, as far as 64 bits hold it; the turn of
/// the last reply is the greatest of those of the tasks.
pub fn figures_are_sums<M: Machine, D: Device>()
    // claim (asked, answered): The figures of a run say how many calls its tasks made, and how many
    //   replies they have
    ensures asked { (nodes : List (NodeEnd M D M.Program)) (tasks : List (TaskEnd M M.Program))
        → (figures_of nodes tasks).asked ≡ within_64_bits (sum_by (λ end. end.made) tasks) }
    ensures answered { (nodes : List (NodeEnd M D M.Program)) (tasks : List (TaskEnd M M.Program))
        → (figures_of nodes tasks).answered ≡ within_64_bits (length (flat_map replies_at tasks)) }
    // claim (lost, led): The figures of a run say how many packets its loops count as lost, and in
    //   how many turns nodes led
    ensures lost { (nodes : List (NodeEnd M D M.Program)) (tasks : List (TaskEnd M M.Program))
        → (figures_of nodes tasks).lost ≡ within_64_bits
        (sum_by (λ end. end.counts.lost) nodes + sum_by (λ end. end.lost) tasks) }
    ensures led { (nodes : List (NodeEnd M D M.Program)) (tasks : List (TaskEnd M M.Program))
        → (figures_of nodes tasks).led ≡ within_64_bits (sum_by (λ end. end.counts.led) nodes) }
    // claim (no_later, last): The turn of the last reply in the figures is that of a task's last
    //   reply, and no task has a later one
    ensures no_later { (nodes : List (NodeEnd M D M.Program)) (tasks : List (TaskEnd M M.Program))
        → All (λ end. end.last_reply ≤ (figures_of nodes tasks).last_reply) tasks }
    ensures last { (nodes : List (NodeEnd M D M.Program)) (tasks : List (TaskEnd M M.Program))
        → 0 < (figures_of nodes tasks).last_reply
        → (end : TaskEnd M M.Program) × Has end tasks
        × (end.last_reply ≡ (figures_of nodes tasks).last_reply) }
{}
