//! Reads a deck for a search.

ghost use Rattle.std.specs.Prelude.{◌≡◌, ◌+◌, ◌^◌, ◌<◌, All, List, Result, length, map, IfOk, IfErr};
ghost use Rattle.rp_deck.specs.Deck.{IsRightDeck};
ghost use Rattle.rp_deck.specs.DeckViews.{deck_text, command_text};
ghost use Rattle.rp_deck.specs.Live.{IsDeckFor};
ghost use Rattle.rp_deck.specs.Meaning.{meaning_of, texts_of};
ghost use Rattle.rp_deck.specs.declared.deck.Mode.TheVariants.{Live};
ghost use Rattle.rp_deck_declarations.specs.Declarations.{IsComplete};
ghost use Rattle.rp_deck_declarations.specs.DeclaredViews.{names_of, program_text};
ghost use Rattle.rp_explore_deck.specs.PlannedActions.{AsksRight, actions_of};
ghost use Rattle.rp_explore_deck.specs.Plans.{plan_text, additions_of, plan_with, planned, plan_of, first_fault};
ghost use Rattle.rp_explore_deck.specs.RuleLines.{PlacedRuleText};
ghost use Rattle.rp_explore_deck.specs.RuleViews.{placed_rule_text};
ghost use Rattle.rp_explore_deck.specs.declared.guard_lines.GuardLine.{GuardLine};
ghost use Rattle.rp_orders.specs.Orders.{AreRight};
ghost use Rattle.rp_words.specs.LineFaults.{BadLine, IsDeckFault, Reads};

use crate::actions::plan_actions;
use crate::added::AddedLines;
use crate::guard_lines::{GuardLine, place_guards, read_guards};
use crate::plan::Plan;
use crate::rules::{PlacedRule, read_rules};
use rp_base::Fault;
use rp_deck::{Deck, Mode, read_deck};
use rp_deck_declarations::{Declared, read_declarations};
use rp_words::Lines;
use std::alloc::Global;

/// What the added lines say by their own words.
#[derive(Drop)]
struct Additions {
    rules: Vec<PlacedRule>,
    guards: Vec<GuardLine>,
}

/// Reads a deck for a search: a deck for live mode, with rules right before `script` and guards
/// after it. Or returns its first bad line: of a declaration, then of any other line by its words,
/// and then of a guard that has no call, which is an `UnknownWord`.
pub fn read_plan(alloc: Global, text: &[u8]) -> Result<Plan, Fault>
    requires { length text.now + 1 < 2 ^ 32 }
    // claim: A deck for a search that is read is what its text means: a deck for live mode, the
    //   actions that its script asks for, the guards of its calls and its rules. Otherwise the
    //   fault is the first bad line and the first reason on it, or `OutOfMemory`
    ensures meaning { Reads plan_text result (plan_of text.now) }
    ensures deck { IfOk result (λ plan. IsRightDeck plan.deck) }
    ensures taken { IfOk result (λ plan. IsDeckFor Live plan.deck) }
    // claim: The actions of a plan are right, so a search over them may begin
    ensures right { IfOk result (λ plan. AreRight (map (λ p. p.action) plan.actions.items)) }
    ensures fault { IfErr result IsDeckFault }
{
    let added = AddedLines::of(alloc, text)?;
    let plain = added.plain(alloc, text)?;
    let declared = read_declarations(alloc, &mut Lines::new(&plain))?;
    let additions = read_additions(alloc, text, &added, &declared);
    read_with(alloc, &plain, additions)
}

/// The plan of a deck without its added lines, and of what was read of these.
fn read_with(
    alloc: Global,
    plain: &[u8],
    additions: Result<Additions, Fault>,
) -> Result<Plan, Fault>
    requires size { length plain.now + 1 < 2 ^ 32 }
    requires fault { IfErr additions IsDeckFault }
    ensures meaning { (said : Result (List PlacedRuleText × List GuardLine) BadLine)
        → Reads (λ a. (map placed_rule_text a.rules.items, a.guards.items)) additions said
        → Reads plan_text result (planned (meaning_of Live plain.now) said) }
    ensures deck { IfOk result (λ plan. IsRightDeck plan.deck) }
    ensures taken { IfOk result (λ plan. IsDeckFor Live plan.deck) }
    ensures right { IfOk result (λ plan. AreRight (map (λ p. p.action) plan.actions.items)) }
    ensures fault { IfErr result IsDeckFault }
{
    let deck = read_deck(alloc, plain, Mode::Live);
    match additions {
        Ok(additions) => plan_with(alloc, deck?, additions),
        Err(fault) => Err(first_of(fault, deck)),
    }
}

/// Reads the added lines by their own words.
#[tactic(auto, unfolding(crate::specs::Plans::additions_of))]
fn read_additions(
    alloc: Global,
    text: &[u8],
    added: &AddedLines,
    declared: &Declared,
) -> Result<Additions, Fault>
    requires size { length text.now + 1 < 2 ^ 32 }
    requires complete { IsComplete declared.now }
    ensures read { Reads (λ a. (map placed_rule_text a.rules.items, a.guards.items)) result
        (additions_of (names_of declared.now) (program_text declared.now.program) added.now
        (texts_of text.now)) }
    ensures fault { IfErr result IsDeckFault }
{
    let rules = read_rules(alloc, text, &added.rules, declared)?;
    let guards = read_guards(alloc, text, &added.guards, declared)?;
    Ok(Additions { rules, guards })
}

/// The plan of a deck with these rules and guards.
#[tactic(auto, unfolding(crate::specs::Plans::plan_with))]
fn plan_with(alloc: Global, deck: Deck, additions: Additions) -> Result<Plan, Fault>
    requires size { length deck.script.items + 1 < 2 ^ 32 }
    requires right { All (λ line. AsksRight (command_text line.command)) deck.script.items }
    ensures read { Reads plan_text result
        (plan_with (deck_text deck) (map placed_rule_text additions.rules.items)
        additions.guards.items) }
    ensures deck { IfOk result (λ plan. plan.deck ≡ deck) }
    ensures actions { IfOk result (λ plan. AreRight (actions_of plan.actions.items)) }
    ensures fault { IfErr result IsDeckFault }
{
    let actions = plan_actions(alloc, &deck.script)?;
    let guards = place_guards(alloc, &actions, &additions.guards)?;
    Ok(Plan {
        deck,
        actions,
        guards,
        rules: additions.rules,
    })
}

/// The fault of an added line, or that of the deck where its line is above or memory ran out.
fn first_of(fault: Fault, deck: Result<Deck, Fault>) -> Fault
    ensures { result ≡ first_fault fault deck }
{
    match (fault, deck) {
        (Fault::BadDeck { line, .. }, Err(Fault::BadDeck { line: other, .. })) if line < other => {
            fault
        }
        (Fault::BadDeck { .. }, Err(other)) => other,
        _ => fault,
    }
}
