//! What follows from the definitions alone.

ghost use Rattle.std.specs.Prelude.{ℕ, ◌≡◌, ◌≤◌, [], List, Ok, filter, not};
ghost use Rattle.rp_deck.specs.rp_base.specs.Sets.{Has};
ghost use Rattle.rp_deck.specs.ScriptLines.{LineCommand};
ghost use Rattle.rp_deck.specs.Meaning.{texts_of, line_after};
ghost use Rattle.rp_explore_deck.specs.AddedLines.{Added, is_added, plain_text};
ghost use Rattle.rp_explore_deck.specs.GuardLines.{guards_of};
ghost use Rattle.rp_explore_deck.specs.PlannedActions.{HasCall, planned_after};
ghost use Rattle.rp_explore_deck.specs.declared.guard_lines.GuardLine.{GuardLine};
ghost use Rattle.rp_orders.specs.declared.guard.Guard.{Guard};

/// The deck without its added lines has exactly the other lines, and each keeps its number.
pub fn the_other_lines_keep_their_numbers()
    // claim: A deck without its rules and guards has exactly its other lines, each with its number
    ensures lines { (added : Added) (text : List ℕ) → texts_of (plain_text added text)
        ≡ filter (λ line. not (is_added added line.number)) (texts_of text) }
    ensures end { (added : Added) (text : List ℕ)
        → line_after (plain_text added text) ≡ line_after text }
{}

/// Each guard is for a call that the script asks for, and not for the first of its task.
pub fn guards_are_for_calls()
    // claim: Each guard of a plan is for a call that the plan has, and not for the first of its task
    ensures { (script : List LineCommand) (lines : List GuardLine) (guards : List Guard)
        → guards_of (planned_after [] script) [] lines ≡ Ok guards
        → (guard : Guard) → Has guard guards
        → (2 ≤ guard.number) × HasCall (planned_after [] script) guard.task guard.number }
{}
