//! What a deck declares and asks for.

use indexmap::{IndexMap, IndexSet};
use rp_base::Config;
use rp_deck_declarations::{DeckProgram, Task};
use rp_model::Event;
use rp_object::Handler;

/// How a deck runs, which says what lines its script may hold.
#[derive(Clone, Copy)]
pub enum Mode {
    /// Line by line, each when the one before is done.
    Script,
    /// All nodes and tasks in threads: calls, interrupts and ticks alone.
    Live,
}

/// What a line of the script asks for.
#[derive(Clone, Copy)]
pub enum Command {
    /// An event of the cluster.
    Take(Event),
    /// The messages of these numbers, from the first to the last, count as settled.
    Lose { first: u64, last: u64 },
    /// Messages are delivered until none is left.
    Drain,
    /// Every node's state is printed.
    Show,
}

/// A line of the script.
#[derive(Clone, Copy)]
pub struct Line {
    /// Counted from 1, among all lines of the deck.
    pub number: u32,
    pub command: Command,
}

/// A deck: a cluster, a program and a script.
#[derive(Drop)]
pub struct Deck {
    pub config: Config,
    pub program: DeckProgram,
    /// In declared order, which numbers them from 1, as each kind of name.
    pub tasks: IndexMap<String, Task>,
    pub objects: IndexSet<String>,
    pub interrupts: IndexMap<String, Handler>,
    pub timers: IndexMap<String, Handler>,
    pub script: Vec<Line>,
}
