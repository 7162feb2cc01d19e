//! What rules mean, and which words say what was found: laws, no code that runs.

ghost use Rattle.std.specs.Prelude.{◌≡◌, ◌↔◌, ◌++◌, IsTrue, ℕ, Bool, List, [], ◌∷◌, true, false, pos, codes, Some, None};
ghost use Rattle.rp_explore.specs.rp_base.specs.declared.reply.Reply.TheVariants.{Value};
ghost use Rattle.rp_explore_deck.specs.RuleLines.{Never, Always, Finally};
ghost use Rattle.rp_explore_deck.specs.RuleViews.{rule_text};
ghost use Rattle.rp_explore_deck.specs.declared.rules.Rule.{Rule};
ghost use Rattle.rp_explore_deck.specs.declared.rules.Truth.{Truth};
ghost use Rattle.rp_script.specs.rp_object.specs.State.{Running};
ghost use Rattle.rp_explore_run.specs.Answers.{verdict_of};
ghost use Rattle.rp_explore_run.specs.Judging.{keeps};
ghost use Rattle.rp_explore_run.specs.Reports.{report_text_of};
ghost use Rattle.rp_explore_run.specs.Rules.{is_true_at};
ghost use Rattle.rp_explore_run.specs.declared.answer.Verdict.TheVariants as verdicts;
ghost use Rattle.rp_explore_run.specs.declared.findings.Judged.{Judged};
ghost use Rattle.rp_explore_run.specs.declared.report_lines.Outcome.TheVariants.{Reply, Waits, Broken};
ghost use Rattle.rp_explore_run.specs.declared.report.Report.{Report};

/// What a rule over two functions asks of a state, by its word.
pub fn rules_mean_their_words()
    // claim (never): A state keeps `never` exactly if not both of two functions are true in it
    ensures never { (running : Running) (rule : Rule) (one two : Truth)
        → rule_text rule ≡ Never (one ∷ two ∷ [])
        → keeps rule running ↔ ¬ (IsTrue (is_true_at running one.object one.operation)
        × IsTrue (is_true_at running two.object two.operation)) }
    // claim (always, finally): A state keeps `always`, or `finally`, exactly if both are true in it
    ensures always { (running : Running) (rule : Rule) (one two : Truth)
        → rule_text rule ≡ Always (one ∷ two ∷ [])
        → keeps rule running ↔ (IsTrue (is_true_at running one.object one.operation)
        × IsTrue (is_true_at running two.object two.operation)) }
    ensures finally { (running : Running) (rule : Rule) (one two : Truth)
        → rule_text rule ≡ Finally (one ∷ two ∷ [])
        → keeps rule running ↔ (IsTrue (is_true_at running one.object one.operation)
        × IsTrue (is_true_at running two.object two.operation)) }
{}

/// The report on a search of a program of eight tasks.
pub fn reports_say_what_was_found()
    // claim (whole, part): Worked: a report says how many states, steps and actions there are, and
    //   whether these are all; each outcome after its number, under the name of its task; and of each
    //   rule that is not broken whether it holds, or holds so far
    ensures whole { (report : Report)
        → report.figures ≡ record { states = 6; steps = 8; depth = 5; is_whole = true }
        → report.outcomes.items ≡ Waits 1 3 ∷ Broken 4 ∷ []
        → report.held.items ≡ 7 ∷ 9 ∷ []
        → report_text_of (codes "a" ∷ codes "b" ∷ []) report
        ≡ codes "states 6 steps 8 depth 5 complete\n1 waits a 3\n2 line 4 broken\nline 7 holds\nline 9 holds\n" }
    ensures part { (report : Report)
        → report.figures ≡ record { states = 7; steps = 8; depth = 9; is_whole = false }
        → report.outcomes.items
        ≡ Reply (record { task = 8; number = 2; reply = Value (pos 7) }) ∷ Waits 8 3 ∷ []
        → report.held.items ≡ 5 ∷ []
        → report_text_of (codes "a" ∷ codes "b" ∷ codes "c" ∷ codes "d" ∷ codes "e" ∷ codes "f"
        ∷ codes "g" ∷ codes "h" ∷ []) report
        ≡ codes "states 7 steps 8 depth 9 incomplete\n1 reply h 2 value 7\n2 waits h 3\nline 5 holds so far\n" }
{}

/// A broken rule decides how a search ends, whether it is complete or not.
pub fn a_broken_rule_is_told_first()
    // claim: A search ends as one that broke a rule if any of its rules is broken, and else by whether
    //   it is complete
    ensures broken { (is_whole : Bool) (before after : List Judged) (judged : Judged) (place : ℕ)
        → judged.broken ≡ Some place
        → verdict_of is_whole (before ++ judged ∷ after) ≡ verdicts.Broken }
    ensures whole { (judged : Judged) → judged.broken ≡ None
        → verdict_of true (judged ∷ []) ≡ verdicts.Complete }
    ensures part { (judged : Judged) → judged.broken ≡ None
        → verdict_of false (judged ∷ []) ≡ verdicts.Incomplete }
{}
