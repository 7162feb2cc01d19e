//! Laws of what the text of a deck means: each function does nothing, and promises the law.

ghost use Rattle.std.specs.Prelude.{◌≡◌, ◌≤◌, ◌++◌, ℕ, false, codes, List, Ok};
ghost use Rattle.std.specs.List.{AllByRecursion};
ghost use Rattle.rp_deck_declarations.specs.Declaring.{declarations_of};
ghost use Rattle.rp_deck_laws.specs.DraftTexts.{at_object, Declares};
ghost use Rattle.rp_deck_declarations.specs.Drafts.{DraftText, is_in_body, profile_of};
ghost use Rattle.rp_deck_declarations.specs.rp_deck_objects.specs.Objects.{ObjectText};
ghost use Rattle.rp_deck_laws.specs.ObjectTexts.{DeclaredObject, DeclaredHandler, AreObjectsOf, objects_lines, with_objects, AreInterruptsOf, with_interrupts, AreTimersOf, with_timers, handlers_lines, ObjectsText, IsObjectsText, declared_lines, objects_draft, objects_text, objects_deck};
ghost use Rattle.rp_deck_laws.specs.PartTexts.{PartText, ArePartsOf, parts_lines, with_parts, shut};
ghost use Rattle.rp_deck_declarations.specs.rp_deck_bodies.specs.Expressions.{ExprText, CondText, expr_line, cond_line};
ghost use Rattle.rp_deck_laws.specs.ExpressionTexts.{AreComponents, IsExprOf, IsCondOf, expr_nodes, cond_nodes, expr_words, cond_words};
ghost use Rattle.rp_words.specs.Lines.{LineText, lines_of, texts_from};
ghost use Rattle.rp_deck.specs.Meaning.{meaning_of};
ghost use Rattle.rp_deck_laws.specs.TallyTexts.{TallyText, IsTallyText, tally_draft, tally_text, tally_deck};
ghost use Rattle.rp_deck.specs.ScriptLines.{CommandText, command_line, script_of};
ghost use Rattle.rp_deck_declarations.specs.ScriptNames.{DeclaredNames, declared_names};
ghost use Rattle.rp_deck_laws.specs.ScriptText.{numbered_lines, spaced, AreDeclared, IsCommandOf, line_of, command_words, script_text, numbered_commands};
ghost use Rattle.rp_deck_declarations.specs.rp_deck_bodies.specs.declared.names.Component.{Component};
ghost use Rattle.rp_deck.specs.declared.deck.Mode.TheVariants.{Script};

/// Each command that a script may hold has a line, and reading it gives the command back. So no two
/// commands share it.
pub fn commands_are_read_back()
    // claim: Each command that a script may hold has a line, and each script a text; the line and
    //   the text mean that command and that script
    ensures { (d : DeclaredNames) (number : ℕ) (command : CommandText)
        → AreDeclared d → IsCommandOf d command
        → command_line Script d (line_of number (command_words d command)) ≡ Ok command }
{}

/// Each script has a text, and reading it gives the script back, whatever number its first line
/// has. So no two scripts share it.
pub fn scripts_are_read_back()
    // claim as commands_are_read_back
    ensures { (d : DeclaredNames) (number : ℕ) (commands : List CommandText)
        → AreDeclared d → AllByRecursion (IsCommandOf d) commands
        → script_of Script d (texts_from number (lines_of (script_text d commands)))
        ≡ Ok (numbered_commands number commands) }
{}

/// Each expression of at most 32 nodes has a text, and reading it gives the expression back.
pub fn expressions_are_read_back()
    // claim: Each expression and each condition of at most 32 nodes has a text, and reading it
    //   gives it back
    ensures { (names : List (List ℕ)) (declared : List Component) (expr : ExprText)
        → AreComponents names declared → IsExprOf names declared expr → expr_nodes expr ≤ 32
        → expr_line names declared (spaced (expr_words names declared expr)) ≡ Ok expr }
{}

/// Each condition of at most 32 nodes has a text, and reading it gives the condition back.
pub fn conditions_are_read_back()
    // claim as expressions_are_read_back
    ensures { (names : List (List ℕ)) (declared : List Component) (cond : CondText)
        → AreComponents names declared → IsCondOf names declared cond → cond_nodes cond ≤ 32
        → cond_line names declared (spaced (cond_words names declared cond)) ≡ Ok cond }
{}

/// Each deck whose objects are a tally has a text, and that is what the text means. So no two such
/// decks share it.
pub fn tally_decks_are_read_back()
    // claim: Each deck, of a tally or of protected objects, has a text, and that deck is what the
    //   text means. So no two decks share it
    ensures { (t : TallyText) (commands : List CommandText) → IsTallyText t
        → AreDeclared (declared_names (tally_draft t))
        → AllByRecursion (IsCommandOf (declared_names (tally_draft t))) commands
        → meaning_of Script (tally_text t commands) ≡ Ok (tally_deck t commands) }
{}

/// What an object declares has lines, the bodies of its operations too, and reading them adds just
/// that to the last object.
pub fn objects_are_read_back()
    // claim: What an object declares has lines, its components, functions, procedures and entries
    //   with their bodies, and reading them adds exactly that to the last object
    ensures { (d : DraftText) (before : List ObjectText) (o : ObjectText) (parts : List PartText)
        → ArePartsOf (profile_of d) o parts
        → Declares (at_object d before (shut o)) (parts_lines (profile_of d) o parts)
        (at_object d before (shut (with_parts o parts))) }
{}

/// Declared objects, interrupts and timing events have lines, and reading them declares just those.
pub fn declarations_are_read_back()
    // claim: Declared objects, interrupts and timing events have lines, and reading them declares
    //   exactly those; so have the declarations of a deck of protected objects
    ensures objects { (d : DraftText) (objects : List DeclaredObject)
        → is_in_body d ≡ false → d.is_tally ≡ false → AreObjectsOf d objects
        → Declares d (objects_lines (profile_of d) objects) (with_objects d objects) }
    ensures interrupts { (d : DraftText) (interrupts : List DeclaredHandler)
        → is_in_body d ≡ false → d.is_tally ≡ false → AreInterruptsOf d interrupts
        → Declares d (handlers_lines (codes "interrupt") interrupts)
        (with_interrupts d interrupts) }
    ensures timers { (d : DraftText) (timers : List DeclaredHandler)
        → is_in_body d ≡ false → d.is_tally ≡ false → AreTimersOf d timers
        → Declares d (handlers_lines (codes "timer") timers) (with_timers d timers) }
    ensures whole { (last : ℕ) (t : ObjectsText) (rest : List LineText) → IsObjectsText t
        → declarations_of last (numbered_lines 1 (declared_lines t) ++ rest)
        ≡ Ok (objects_draft t, rest) }
{}

/// Each deck of protected objects has a text, and that is what the text means. So no two such decks
/// share it.
pub fn object_decks_are_read_back()
    // claim as tally_decks_are_read_back
    ensures { (t : ObjectsText) (commands : List CommandText) → IsObjectsText t
        → AreDeclared (declared_names (objects_draft t))
        → AllByRecursion (IsCommandOf (declared_names (objects_draft t))) commands
        → meaning_of Script (objects_text t commands) ≡ Ok (objects_deck t commands) }
{}
