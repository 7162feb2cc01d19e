//! How the threads of a run keep pace, and when the run is over.

use rp_base::{Fault, MOST_NODES, MOST_TASKS, NodeId};
use rp_codec::Party;
use rp_threads::{Ending, Gate, is_to_lead};
use std::alloc::{AllocError, Global};
use std::sync::atomic::{AtomicU64, Ordering};
use std::time::{Clock, Duration, Instant};
use std::{io, thread};

/// A thread publishes the number of its turn in every nth turn.
const PERIOD: u64 = 8;

/// At most how many turns a thread is ahead of the slowest.
const MOST_AHEAD: u64 = 16;

/// How often a thread that is ahead waits for others before it assumes that one of them gets no
/// processor.
const MOST_WAITS: u64 = 20_000_000;

/// A yield that takes longer, in microseconds, gave the processor to work outside the run.
const LONG_YIELD: u64 = 500;

/// How long a thread sleeps in place of a yield, in microseconds.
const NAP: u64 = 100;

/// How often a thread sleeps after a long yield before it yields again.
const NAPS: u64 = 200;

/// In this many turns one after the other a node looks into each box that it ever empties. With n
/// nodes a box has its turn every 8 (n + 1) turns, at most 64. Node k skips the turns that are 0
/// modulo 8 + k: those of a box are all skipped, or no two of them one after the other.
const CALM_TURNS: u64 = 128;

/// By this many turns after that of the fastest thread each thread has made `CALM_TURNS` turns. The
/// number of a turn is published up to `PERIOD` turns late, and one turn may have begun before.
const LOOKS_APART: u64 = CALM_TURNS + PERIOD + 1;

/// At most how many nodes there are.
const NODES: usize = MOST_NODES as usize;

/// How many tasks there are.
const TASKS: usize = MOST_TASKS as usize;

/// What is published of a node or a task.
#[derive(Drop)]
struct Actor {
    /// How many turns it is known to have made: at most `PERIOD` fewer than it made, and
    /// `u64::MAX` once its loop ended.
    turns: AtomicU64,
    /// The turn in which it looks at the others again.
    looks: AtomicU64,
    /// The last turn before which it did not rest.
    stirred: AtomicU64,
    /// The sum of all `stirred` that it found last,
    found: AtomicU64,
    /// and the turn by which all have made `CALM_TURNS` turns since then.
    calm: AtomicU64,
    /// How often it still sleeps before it yields again.
    naps: AtomicU64,
}

impl Actor {
    /// Nothing has happened; an actor that has no thread is as one whose loop ended.
    fn new(runs: bool) -> Self {
        Actor {
            turns: AtomicU64::new(if runs { 0 } else { u64::MAX }),
            looks: AtomicU64::new(0),
            stirred: AtomicU64::new(0),
            found: AtomicU64::new(0),
            calm: AtomicU64::new(LOOKS_APART),
            naps: AtomicU64::new(0),
        }
    }
}

/// The gate of a run, which also decides when it is over. A node leads only by its patience: the
/// turns in which its loop would have it lead at the least position that is free for it are skipped.
/// The threads of all nodes and tasks keep pace, so that none has made all its turns while another
/// needs it. Each publishes the number of its turn in every eighth turn, and one that is more than
/// 16 turns ahead of the slowest waits for it. The turn of the slowest determines how many turns a
/// thread may make before it looks again. Once a thread has waited too long, no thread waits any
/// more. Nobody waits for a thread that ended.
///
/// The run is over once nothing can happen any more (`conclude`), and then for each node and task
/// that has rested for `CALM_TURNS` turns, as all of them then have. It is stopped once memory ran
/// out in a thread, or a thread could not be started. It stays over, and stopped.
#[derive(Drop)]
pub(crate) struct Pace<'r, C: Clock> {
    clock: &'r C,
    /// The nodes and then the tasks.
    actors: Vec<Actor>,
    /// Not 0 once a thread has waited too long.
    free: AtomicU64,
    /// Not 0 once nothing can happen any more.
    over: AtomicU64,
    /// Not 0 once the run is stopped.
    stopped: AtomicU64,
}

/// The place of a node or a task among the actors. The audit has none.
fn place_of(actor: Party) -> usize {
    match actor {
        Party::Node(node) => usize::from(node.get()) - 1,
        Party::Task(task) => NODES + usize::from(task.get()) - 1,
        Party::Audit => NODES + TASKS,
    }
}

impl<'r, C: Clock> Pace<'r, C> {
    /// The gate of a run of n nodes and eight tasks.
    pub(crate) fn new(alloc: Global, clock: &'r C, nodes: u8) -> Result<Self, AllocError> {
        let mut actors = Vec::new(alloc);
        for place in 0..NODES + TASKS {
            actors.push(Actor::new(place < usize::from(nodes) || place >= NODES))?;
        }
        Ok(Pace {
            clock,
            actors,
            free: AtomicU64::new(0),
            over: AtomicU64::new(0),
            stopped: AtomicU64::new(0),
        })
    }

    /// Whether nothing can happen any more.
    fn is_concluded(&self) -> bool {
        self.over.load(Ordering::SeqCst) != 0
    }

    /// Whether the run is stopped.
    fn is_stopped(&self) -> bool {
        self.stopped.load(Ordering::SeqCst) != 0
    }

    /// Whether no thread need wait for another any more.
    fn is_free(&self) -> bool {
        self.is_concluded() || self.is_stopped() || self.free.load(Ordering::SeqCst) != 0
    }

    /// Is called before the actor makes this turn, and waits if it is too far ahead.
    fn keep(&self, actor: &Actor, turn: u64, rests: bool) {
        if !rests {
            actor.stirred.store(turn, Ordering::SeqCst);
        }
        if turn % PERIOD == 0 {
            actor.turns.store(turn, Ordering::SeqCst);
        }
        if turn >= actor.looks.load(Ordering::SeqCst) {
            actor.turns.store(turn, Ordering::SeqCst);
            if rests {
                self.conclude(actor);
            }
            actor
                .looks
                .store(self.next_look(actor, turn), Ordering::SeqCst);
        }
    }

    /// The turn of the slowest thread.
    fn slowest(&self) -> u64 {
        let actors = self.actors.iter();
        let turns = actors.map(|actor| actor.turns.load(Ordering::SeqCst));
        turns.min().unwrap_or(u64::MAX)
    }

    /// The turn of the fastest of the threads that have not ended.
    fn fastest(&self) -> u64 {
        self.actors.iter().fold(0, |fastest: u64, actor| {
            let turns = actor.turns.load(Ordering::SeqCst);
            if turns == u64::MAX {
                fastest
            } else {
                fastest.max(turns)
            }
        })
    }

    /// The sum of the turns before which the actors last did not rest.
    fn stirs(&self) -> u64 {
        self.actors.iter().fold(0, |sum: u64, actor| {
            sum.wrapping_add(actor.stirred.load(Ordering::SeqCst))
        })
    }

    /// Ends the run if nothing can happen any more. This looks twice at the turns before which the
    /// actors did not rest. None of them ever falls, so if their sum is the same, so is each. Since
    /// the first look each node then looked into all its boxes, found nothing in them or on its
    /// link, sent nothing, and has nothing pending; and each task has all its replies and sent
    /// nothing. So no packet is left that a node would get, and all further turns would be idle:
    /// the logs are those that the nodes would have after any number of turns. What is read is
    /// older than the moment of the second look, but whoever did more since then had to get a
    /// packet that was there before it.
    fn conclude(&self, actor: &Actor) {
        let reached = self.slowest();
        let stirs = self.stirs();
        if stirs != actor.found.load(Ordering::SeqCst) {
            actor.found.store(stirs, Ordering::SeqCst);
            let calm = self.fastest().saturating_add(LOOKS_APART);
            actor.calm.store(calm, Ordering::SeqCst);
        } else if reached >= actor.calm.load(Ordering::SeqCst) {
            self.over.store(1, Ordering::SeqCst);
        }
    }

    /// Waits until the slowest is near enough to this turn, or no thread need wait. Returns the turn in
    /// which the thread is to look again.
    fn next_look(&self, actor: &Actor, turn: u64) -> u64 {
        for _ in 0..MOST_WAITS {
            let farthest = self.slowest().saturating_add(MOST_AHEAD);
            if turn <= farthest {
                return farthest.saturating_add(1);
            }
            if self.is_free() {
                return turn.saturating_add(MOST_AHEAD);
            }
            self.wait(actor);
        }
        self.free.store(1, Ordering::SeqCst);
        turn.saturating_add(MOST_AHEAD)
    }

    /// Lets other threads run: by a yield, or by short sleeps once a yield took long. A yield puts
    /// the thread behind all that are ready; where other work keeps the processors busy it comes
    /// back only after their time slices, while a thread that slept is run soon.
    fn wait(&self, actor: &Actor) {
        let naps = actor.naps.load(Ordering::SeqCst);
        if naps > 0 {
            actor.naps.store(naps - 1, Ordering::SeqCst);
            thread::sleep(self.clock, Duration::from_micros(NAP));
            return;
        }
        let begun = Instant::now(self.clock);
        thread::yield_now();
        if self.is_long_ago(begun) {
            actor.naps.store(NAPS, Ordering::SeqCst);
        }
    }

    /// Whether more than `LONG_YIELD` microseconds have passed, if the clock could be read.
    fn is_long_ago(&self, begun: io::Result<Instant>) -> bool {
        let Ok(begun) = begun else {
            return false;
        };
        match begun.elapsed(self.clock) {
            Ok(took) => took > Duration::from_micros(LONG_YIELD),
            Err(_) => false,
        }
    }
}

impl<'r, C: Clock> Gate for Pace<'r, C> {
    ghost use Rattle.rp_live.specs.Pace.{heard, lets};

    ghost lets = { lets };

    ghost heard = { heard };

    fn before(&self, node: NodeId, turn: u64) -> bool {
        !is_to_lead(node, turn)
    }

    fn after(&self, _node: NodeId, _turn: u64, _sent: usize) {}
}

impl<'r, C: Clock> Ending for Pace<'r, C> {
    ghost use Rattle.rp_live.specs.Pace.{ended, over, stopped};

    ghost over = { over };

    ghost ended = { ended };

    ghost stopped = { stopped };

    fn is_over(&self, actor: Party, turn: u64, rested: u64) -> Result<bool, Fault> {
        if let Some(actor) = self.actors.get(place_of(actor)) {
            self.keep(actor, turn, rested > 0);
        }
        if self.is_stopped() {
            return Err(Fault::OutOfMemory);
        }
        if rested >= CALM_TURNS && self.is_concluded() {
            return Ok(true);
        }
        Ok(false)
    }

    fn end(&self, actor: Party, fault: Option<Fault>) {
        if let Some(actor) = self.actors.get(place_of(actor)) {
            actor.turns.store(u64::MAX, Ordering::SeqCst);
        }
        if matches!(fault, Some(Fault::OutOfMemory)) {
            self.stop();
        }
    }

    fn stop(&self) {
        self.stopped.store(1, Ordering::SeqCst);
    }
}
