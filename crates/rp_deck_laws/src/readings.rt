//! What protected objects do depends on what their deck's text means, and not on how a value that
//! was read from it lies in memory.

ghost use Rattle.std.specs.Prelude.{ℕ, ◌≡◌, List};
ghost use Rattle.std.specs.Arc.{arc_value};
ghost use Rattle.rp_deck.specs.rp_base.specs.declared.action.Action.{Action};
ghost use Rattle.rp_deck.specs.DeckViews.{deck_text};
ghost use Rattle.rp_deck.specs.declared.deck.Deck.{Deck};
ghost use Rattle.rp_object.specs.rp_machine.specs.Replay.{counted_of, replay_answers, replay_state};
ghost use Rattle.rp_object.specs.Image.{objects_image};
ghost use Rattle.rp_object.specs.State.{first_state};
ghost use Rattle.rp_object.specs.Step.{objects_next, objects_answers};
ghost use Rattle.rp_object.specs.declared.program.Program.{Program};
ghost use Rattle.rp_deck_laws.specs.Readings.{IsDeckOfObjects};

/// Two decks that mean the same have one configuration, and their programs behave alike after each
/// log of actions. Two readings of one text are such decks.
pub fn decks_of_one_meaning_behave_alike()
    // claim: Two decks that mean the same have the same nodes and positions
    ensures config { (one other : Deck) → deck_text one ≡ deck_text other
        → one.config ≡ other.config }
    // claim: In the programs of two decks that mean the same the same actions of each log count
    ensures kept { (one other : Deck) (program same : Program) → deck_text one ≡ deck_text other
        → IsDeckOfObjects one program → IsDeckOfObjects other same → (log : List Action)
        → let begin = λ (p : Program). first_state (arc_value p.declarations) in
        counted_of objects_next objects_answers (begin program) log
        ≡ counted_of objects_next objects_answers (begin same) log }
    // claim: The programs of two decks that mean the same give the same answers to each log
    ensures given { (one other : Deck) (program same : Program) → deck_text one ≡ deck_text other
        → IsDeckOfObjects one program → IsDeckOfObjects other same → (log : List Action)
        → let begin = λ (p : Program). first_state (arc_value p.declarations) in
        replay_answers objects_next objects_answers (begin program) log
        ≡ replay_answers objects_next objects_answers (begin same) log }
    // claim: The programs of two decks that mean the same show the same after each log
    ensures shown { (one other : Deck) (program same : Program) → deck_text one ≡ deck_text other
        → IsDeckOfObjects one program → IsDeckOfObjects other same → (log : List Action)
        → let begin = λ (p : Program). first_state (arc_value p.declarations) in
        objects_image (replay_state objects_next objects_answers (begin program) log)
        ≡ objects_image (replay_state objects_next objects_answers (begin same) log) }
{}
