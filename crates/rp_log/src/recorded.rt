//! What a log takes, as the records of its node say.

ghost use Rattle.std.specs.Prelude.{◌≡◌, ℕ, List, [], ◌∷◌, ◌++◌, length};
ghost use Rattle.rp_base.specs.declared.action.Action.{Action};
ghost use Rattle.rp_base.specs.declared.record.Rec.{Rec};
ghost use Rattle.rp_base.specs.Records.{learned_run, applied_of};
ghost use Rattle.rp_log.specs.Contents.{Contents, action_at, with_room, with_action, next_to_take, IsTakenInOrder};
ghost use Rattle.rp_log.specs.Recorded.{LearnedAlike};

/// A log that learns what its node records takes what the records apply: what was taken so far is
/// what is learned at positions 1, 2, 3 and so on, and all that can be applied once nothing is
/// ready.
pub fn taken_as_recorded()
    ensures reserves { (records : List Rec) (log : Contents) (i : ℕ)
        → LearnedAlike records log → LearnedAlike records (with_room log i) }
    ensures learns { (records : List Rec) (log : Contents) (i : ℕ) (v : Action)
        → LearnedAlike records log
        → LearnedAlike (records ++ Rec.Learned i v ∷ []) (with_action log i v) }
    // claim: The actions that were taken are those that the node's records apply
    ensures so_far { (records : List Rec) (log : Contents)
        → LearnedAlike records log → IsTakenInOrder log
        → log.taken ≡ learned_run records (length log.taken) 1 }
    ensures all { (records : List Rec) (log : Contents)
        → LearnedAlike records log → IsTakenInOrder log → action_at log (next_to_take log) ≡ None
        → log.taken ≡ applied_of records }
{}
