//! What a deck for a search asks for.

use crate::actions::PlannedAction;
use crate::rules::PlacedRule;
use rp_deck::Deck;
use rp_orders::Guard;

/// A deck for live mode, the actions that its script asks for, each once, in the order of the
/// lines, the guards of its calls, and its rules.
pub struct Plan {
    pub deck: Deck,
    pub actions: Vec<PlannedAction>,
    pub guards: Vec<Guard>,
    pub rules: Vec<PlacedRule>,
}

// Not derived, so that to drop it is one step of a proof and not one for each of its parts.
impl Drop for Plan {
    fn drop(self) {
        let Plan {
            deck: _,
            actions: _,
            guards: _,
            rules: _,
        } = self;
    }
}
