//! Laws of what a deck means, said by its names: each function does nothing, and promises the law.

ghost use Rattle.std.specs.Prelude.{◌≡◌, Ok};
ghost use Rattle.std.specs.Arc.{arc_value};
ghost use Rattle.rp_deck.specs.DeckViews.{deck_text};
ghost use Rattle.rp_deck.specs.Meaning.{meaning_of};
ghost use Rattle.rp_deck.specs.declared.deck.Deck.{Deck};
ghost use Rattle.rp_deck.specs.declared.deck.Mode.TheVariants.{Script};
ghost use Rattle.rp_deck_laws.specs.Example.{example, example_text};
ghost use Rattle.rp_deck_laws.specs.Named.{NamedDeck};
ghost use Rattle.rp_deck_laws.specs.NamedMeanings.{deck_meant};
ghost use Rattle.rp_deck_laws.specs.NamedPrograms.{IsProgramOf};
ghost use Rattle.rp_deck_laws.specs.NamedTexts.{named_deck_text};
ghost use Rattle.rp_deck_laws.specs.RightDecks.{IsRight};
ghost use Rattle.rp_deck_laws.specs.Tallies.{IsRightTally, NamedTally, tally_meant, tally_text};
ghost use Rattle.rp_deck_laws.specs.Readings.{IsDeckOfObjects};
ghost use Rattle.rp_object.specs.declared.program.Program.{Program};

use crate::{object_decks_are_read_back, tally_decks_are_read_back};

/// The text of each right deck of protected objects means what the deck says: what is named is
/// replaced by its place among what has a name of its kind, and everything else is as it is
/// written.
pub fn decks_mean_what_they_say()
    // claim: The text of each right deck, of protected objects or of a tally, means what the deck
    //   says by its names: each name is replaced by its place among the names of its kind, and
    //   priorities, ceilings, ranges, first values, barriers, queues, bodies and handlers are as
    //   they are written
    ensures { (deck : NamedDeck) → IsRight deck
        → meaning_of Script (named_deck_text deck) ≡ Ok (deck_meant deck) }
{
    object_decks_are_read_back();
}

/// The same of a deck of a tally.
pub fn tallies_mean_what_they_say()
    // claim as decks_mean_what_they_say
    ensures { (tally : NamedTally) → IsRightTally tally
        → meaning_of Script (tally_text tally) ≡ Ok (tally_meant tally) }
{
    tally_decks_are_read_back();
}

/// The program in memory of a deck that means what one says is the program that it says.
pub fn programs_are_as_declared()
    // claim: The program of a deck that means what one says by its names has in memory the
    //   priorities, ceilings, first values, barriers, queues and handlers that it says, as the
    //   rules of protected objects read them, and its functions and bodies do what it says
    ensures { (deck : Deck) (program : Program) (named : NamedDeck)
        → IsDeckOfObjects deck program → deck_text deck ≡ deck_meant named
        → IsProgramOf named (arc_value program.declarations) }
{}

/// An example: such a deck, with its text.
pub fn an_example_is_right()
    // claim: A deck with most kinds of lines is right, and its text is the one that is shown
    ensures right { IsRight example }
    ensures text { named_deck_text example ≡ example_text }
{}
