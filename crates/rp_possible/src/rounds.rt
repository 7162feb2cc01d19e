//! What a leader with a bare majority can decide, in every world.

ghost use Rattle.std.specs.Prelude.{ℕ, suc, ◌≤◌, ◌<◌, ◌^◌, List, length};
ghost use Rattle.rp_base.specs.Config.{IsRightConfig};
ghost use Rattle.rp_base.specs.Records.{first_unlearned};
ghost use Rattle.rp_base.specs.Sets.{Has};
ghost use Rattle.rp_base.specs.declared.action.Action.{Action};
ghost use Rattle.rp_base.specs.declared.record.Rec.{Rec};
ghost use Rattle.rp_model.specs.Effect.{Setting};
ghost use Rattle.rp_model.specs.World.{World};
ghost use Rattle.rp_possible.specs.Rounds.{AreRunning, AreWithinRound, IsBareQuorum, IsRound};
ghost use Rattle.rp_possible.specs.Rounds.{only_pending};

use rp_machine::Machine;

/// In every world, whatever was written and sent before, a leader with a bare majority of nodes that
/// know nothing but their records decides its first unlearned position: what was voted for there, or
/// else its own action. It takes one round of ballots above all that these nodes have on record, and
/// no packet but those that these nodes send meanwhile.
pub fn a_leader_decides_its_next_position<M: Machine>()
    // claim: In every world a leader with a bare majority of nodes that know nothing but their
    //   records can decide its first unlearned position, in a ballot of the next round, with no
    //   packet of before: where none of them voted there, its own action
    ensures { (setting : Setting M) (quorum : List ℕ) (t first : ℕ) (w : World) (x : ℕ)
        (records : ℕ → List Rec) (pending : List Action) (round : ℕ)
        → IsRightConfig setting.config → IsBareQuorum setting quorum x
        → first ≤ length w.sent
        → AreRunning w quorum x records (only_pending pending)
        → first_unlearned (records x) ≤ setting.config.max_positions
        → ((y : ℕ) → Has y quorum → AreWithinRound round (records y))
        → suc round < 2 ^ 32
        → IsRound setting quorum t first w x records pending round }
{}
