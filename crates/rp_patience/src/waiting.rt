//! Waiting ends: a law.

ghost use Rattle.std.specs.Prelude.{◌≡◌, ◌<◌, ◌≤◌, ◌+◌, ℕ, true, false, None, List, [], ◌∷◌, ◌++◌, length, replicate, sum};
ghost use Rattle.rp_base.specs.Number.{IsNode};
ghost use Rattle.rp_patience.specs.Advice.{advice_in_turn};
ghost use Rattle.rp_patience.specs.Patience.{wait_of};
ghost use Rattle.rp_patience.specs.declared.advice.Advice.TheVariants.{Nothing, Lead};
ghost use Rattle.rp_patience.specs.declared.advice.Situation.{Situation};
ghost use Rattle.rp_patience.specs.declared.patience.Patience.{Patience};

/// A node that has something to decide, misses nothing and does not lead on is advised to do nothing
/// while the quiet turns are fewer than its patience says, and the next time to lead, at the first
/// position that it has not applied.
pub fn waiting_ends()
    // claim: A node with something that can count, which misses nothing and does not lead on, is
    //   advised to lead once it has waited as long as its patience says while nothing was applied,
    //   and not before
    ensures { (situation : Situation) (patience : Patience) (before : List ℕ) (turns : ℕ)
        → IsNode situation.node → situation.is_missing ≡ false → situation.has_uncounted ≡ true
        → situation.leads_on ≡ None → situation.applied < situation.positions
        → patience.applied ≡ situation.applied
        → patience.quiet + sum before < wait_of situation.node situation.led_last patience
        → wait_of situation.node situation.led_last patience ≤ patience.quiet + sum before + turns
        → advice_in_turn situation patience (before ++ turns ∷ [])
        ≡ replicate (length before) Nothing ++ Lead (situation.applied + 1) ∷ [] }
{}
