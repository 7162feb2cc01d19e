//! The table that all seats share.

use atomic_table::{Seat, Shared, Table, TableRule};
use rp_base::Config;
use rp_machine::Machine;
use std::alloc::Global;
use std::marker::{Model, PhantomData};
use std::snapshot::Snapshot;

/// What a seat knows, for contracts alone. No value of this type is made.
pub struct Known {
    nothing: (),
}

impl Model for Known {
    ghost use Rattle.std.specs.Prelude.{[]};
    ghost use Rattle.rp_board.specs.Parts.{View};

    ghost Value = { View };

    ghost view = { λ k. [] };
}

/// What all nodes share: the configuration, and the program as contracts see it.
#[derive(Drop)]
pub struct Setup<M: Machine> {
    pub config: Config,
    pub program: Snapshot<M::Program>,
}

/// The rule of the table, which each step preserves.
pub struct Law<M> {
    of: PhantomData<M>,
}

impl<M: Machine> TableRule<Option<Vec<u8>>, Known, Setup<M>> for Law<M> {
    ghost use Rattle.rp_agreement.specs.Answered.{setting_for};
    ghost use Rattle.rp_board.specs.Parts.{first_from};
    ghost use Rattle.rp_board.specs.Rule.{Ruled};

    ghost holds = { λ setup. Ruled
        (setting_for M.next M.answers M.begin setup.config setup.program.value) };

    ghost first = { λ setup. first_from 0 16 };
}

/// The table: a word for each actor, and a word and a slot for each box.
pub type Board<M> = Table<Option<Vec<u8>>, Known, Setup<M>, Law<M>, Global>;

/// A place at the table.
pub type Place = Seat<Option<Vec<u8>>, Known>;

/// The words and slots of the table, on which its seats make their atomic steps.
pub type Slots<M> = Shared<Option<Vec<u8>>, Known, Setup<M>, Law<M>>;
