//! The atomic step that counts an event of an actor.

use crate::board::Known;
use atomic_table::Play;
use std::marker::{Brand, PhantomData};

/// A fact that holds of an actor's part after its event. Each caller chooses it.
pub trait Fact {
    ghost use Rattle.rp_board.specs.Parts.{Part};

    ghost says: { Part → Type 0 };
}

impl Fact for Brand {
    ghost says = { λ part. Unit {0} };
}

/// One event happened.
pub(crate) struct Turns<J> {
    of: PhantomData<J>,
}

impl<J: Fact> Play<Option<Vec<u8>>, Known> for Turns<J> {
    ghost use Rattle.rp_board.specs.Plays.{IsEventNoted};

    ghost then = { λ step old found new. IsEventNoted J.says old.0 new };
}
