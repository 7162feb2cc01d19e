//! What a node is to do now.

ghost use Rattle.std.specs.Prelude.{◌≡◌};
ghost use Rattle.rp_patience.specs.Advice.{advice_after, patience_after, caused_advice, caused_patience, has_cause, idle_advice, idle_patience, leads_at_once, once_waited, to_ask, to_lead};

use crate::patience::Patience;
use rp_base::{NodeId, Position};

/// What a node knows that decides what it is to do.
#[derive(Clone, Copy)]
pub struct Situation {
    pub node: NodeId,
    /// How many actions it has applied.
    pub applied: u32,
    /// How many positions the log has.
    pub positions: u16,
    /// Whether it misses a position below one that it learned.
    pub is_missing: bool,
    /// Whether something is pending that did not count yet.
    pub has_uncounted: bool,
    /// Whether a call came that cannot count at it, and it has applied nothing since.
    pub had_early: bool,
    /// Whether it led last.
    pub led_last: bool,
    /// Where it leads on, if it led last and something is pending for which no proposal of its runs.
    pub leads_on: Option<Position>,
}

/// What a node is to do.
#[derive(Clone, Copy, PartialEq, Eq)]
pub enum Advice {
    Nothing,
    /// It leads at this position.
    Lead(Position),
    /// It asks another node for the positions that it misses.
    Ask,
}

impl Patience {
    /// What a node is to do after quiet turns. A node that led last leads on at once. Otherwise it
    /// leads at the end of its wait, at the first position that it has not applied; if it misses a
    /// position it asks first. If it is to do something, its wait starts again. A node with no cause
    /// to do anything asks once after it was opened, and then from time to time.
    pub fn advise(&mut self, situation: &Situation, turns: u64) -> Advice
        // claim: A node is advised to lead on where it led last, at once and once at each position;
        //   to lead, or to ask for positions that it misses, exactly once it has waited as its
        //   patience says, at the first position that it has not applied; and to ask when it has
        //   been idle as long as its patience says
        ensures advice { result ≡ advice_after turns situation.now self.old }
        ensures patience { self.new ≡ patience_after turns situation.now self.old }
    {
        if has_cause(situation) {
            self.wait(situation.applied, turns);
            self.advise_caused(situation)
        } else {
            self.rest(turns);
            self.advise_idle(situation)
        }
    }

    /// What a node with a cause is to do.
    fn advise_caused(&mut self, situation: &Situation) -> Advice
        ensures advice { result ≡ caused_advice situation.now self.old }
        ensures patience { self.new ≡ caused_patience situation.now self.old }
    {
        if let Some(position) = self.leads_at_once(situation) {
            self.lead_on(position);
            return Advice::Lead(position);
        }
        if !self.has_waited(situation.node, situation.led_last) {
            return Advice::Nothing;
        }
        let advice = self.once_waited(situation);
        if advice != Advice::Nothing {
            self.try_again();
        }
        advice
    }

    /// Where a node leads at once, if it does.
    fn leads_at_once(&self, situation: &Situation) -> Option<Position>
        ensures { result ≡ leads_at_once situation.now self.now }
    {
        if situation.is_missing || !situation.has_uncounted || self.tries != 0 {
            return None;
        }
        match situation.leads_on {
            Some(position) if self.led < u32::from(position.get()) => Some(position),
            _ => None,
        }
    }

    /// What a node is to do at the end of its wait.
    fn once_waited(&self, situation: &Situation) -> Advice
        ensures { result ≡ once_waited situation.now self.now }
    {
        let asks_first = situation.is_missing && !situation.led_last && self.tries == 0;
        if situation.has_uncounted && !asks_first {
            to_lead(situation)
        } else {
            to_ask(situation)
        }
    }

    /// What an idle node is to do.
    fn advise_idle(&mut self, situation: &Situation) -> Advice
        ensures advice { result ≡ idle_advice situation.now self.old }
        ensures patience { self.new ≡ idle_patience situation.now self.old }
    {
        let soon = self.asks_soon(situation.applied, situation.had_early);
        if !self.has_rested(situation.node, soon) {
            return Advice::Nothing;
        }
        self.ask_at(situation.applied);
        to_ask(situation)
    }
}

/// Whether a node misses a position, or has something to decide.
fn has_cause(situation: &Situation) -> bool
    ensures { result ≡ has_cause situation.now }
{
    situation.is_missing || situation.has_uncounted
}

/// To lead at the first position that is not applied, if one is left.
fn to_lead(situation: &Situation) -> Advice
    ensures { result ≡ to_lead situation.now }
{
    if situation.applied >= u32::from(situation.positions) {
        return Advice::Nothing;
    }
    match Position::new(situation.applied as u16 + 1) {
        Some(position) => Advice::Lead(position),
        None => Advice::Nothing,
    }
}

/// To ask, if a position is left.
fn to_ask(situation: &Situation) -> Advice
    ensures { result ≡ to_ask situation.now }
{
    if situation.applied < u32::from(situation.positions) {
        Advice::Ask
    } else {
        Advice::Nothing
    }
}
