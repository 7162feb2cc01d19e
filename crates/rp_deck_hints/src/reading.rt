//! For what a text is read.

use rp_deck::Mode;

/// For what a text is read.
#[derive(Clone, Copy)]
pub enum Reading {
    /// As a deck that runs in this mode.
    Deck(Mode),
    /// As a deck for a search.
    Plan,
}
