//! What a node learned, and how far it is taken.

ghost use Rattle.std.specs.Prelude.{◌≡◌, ℕ, ◌<◌, ◌≤◌, ◌^◌, [], ◌∷◌, ◌++◌, length, is_some, Some, None, IsSome, IfSome, IfNone, OnOk, OnErr, option_copied, option_map};
ghost use Rattle.std.specs.FinMap.{get};
ghost use Rattle.rp_log.specs.Contents.{empty_log, IsReservedAt, action_at, IsLearned, with_room, with_action, next_to_take, ready_of, IsTakenInOrder};

use crate::front::{learn_ahead, learn_next, learned_at};
use crate::pages::Pages;
use rp_base::{Action, Position};
use std::alloc::{AllocError, Global};
use std::collections::BTreeMap;
use std::marker::Model;

/// The actions that a node learned, by position, and how many of them were taken. Positions may be
/// learned in any order and at any distance; they are taken in order, and none is left out
/// (Lamport, "Paxos Made Simple", section 3).
#[derive(Debug, Drop)]
pub struct Log {
    /// The actions learned at positions 1, 2, 3 and so on, up to the first at which none is.
    front: Pages,
    /// Whether the position after the front is reserved here, and not among those ahead.
    next_reserved: bool,
    /// The reserved positions after the front, each with the action that was learned there.
    ahead: BTreeMap<u32, Option<Action>>,
    /// How many of the front's actions were taken.
    taken: u16,
    /// The greatest position learned, or 0.
    top: u16,
}

impl Model for Log {
    ghost use Rattle.std.specs.Prelude.{take};
    ghost use Rattle.rp_log.specs.Contents.{Contents, contents_code};
    ghost use Rattle.rp_log.specs.Holding.{places_of, Fits};

    ghost Value = { Contents };

    ghost coded = { contents_code };

    ghost view = { λ l. record {
      places = places_of l.front.items l.next_reserved l.ahead.entries;
      taken = take l.taken l.front.items;
    } };

    ghost invariant = { λ l. Fits l.front.items l.next_reserved l.ahead.entries
        l.front.room l.taken l.top };
}

impl Log {
    /// A log with nothing learned and no position reserved. It takes no memory yet.
    pub fn new(alloc: Global) -> Self
        ensures { result ≡ empty_log }
    {
        Log {
            front: Pages::new(alloc),
            next_reserved: false,
            ahead: BTreeMap::new(alloc),
            taken: 0,
            top: 0,
        }
    }

    /// Makes room for learning at the position, and at no other, or is refused memory, which leaves
    /// the log as it was. Where there is room already no memory is asked for.
    #[inline(always)]
    pub fn reserve(&mut self, position: Position) -> Result<(), AllocError>
        // claim (ok, err, refused): Reserving and learning change one position and no other
        ensures ok { OnOk result (self.new ≡ with_room self.old position) }
        ensures room { OnOk result (IsReservedAt self.new position) }
        ensures err { OnErr result (self.new ≡ self.old) }
        ensures refused { OnErr result (¬ IsReservedAt self.old position) }
    {
        if self.has_room(position) {
            return Ok(());
        }
        self.front.reserve(self.ahead.len() + 2)?;
        let number = u32::from(position.get());
        if number == self.front.len() as u32 + 1 {
            self.next_reserved = true;
        } else {
            self.ahead.insert(number, None)?;
        }
        Ok(())
    }

    /// Whether an action can be learned at the position without memory.
    pub fn has_room(&self, position: Position) -> bool
        ensures { result ≡ is_some (get self.now.places position) }
    {
        let number = u32::from(position.get());
        let next = self.front.len() as u32 + 1;
        if number < next {
            return true;
        }
        if number == next && self.next_reserved {
            return true;
        }
        self.ahead.contains_key(&number)
    }

    /// Learns that the action is decided at the position. Where an action was learned already, that
    /// one stays and nothing changes. The first unlearned position moves on past the positions that
    /// are learned ahead of it, each of which it passes once in the log's life.
    #[inline(always)]
    pub fn learn(&mut self, position: Position, action: &Action)
        requires { IsReservedAt self.old position }
        ensures { self.new ≡ with_action self.old position action.now }
    {
        if self.is_learned(position) {
            return;
        }
        let number = u32::from(position.get());
        self.top = self.top.max(position.get());
        if number > self.front.len() as u32 + 1 {
            learn_ahead(&mut self.ahead, number, *action);
            return;
        }
        self.next_reserved = false;
        learn_next(&mut self.front, &mut self.ahead, *action);
    }

    /// Whether an action was learned at the position.
    #[inline(always)]
    pub fn is_learned(&self, position: Position) -> bool
        ensures { result ≡ is_some (action_at self.now position) }
    {
        if usize::from(position.get()) <= self.front.len() {
            return true;
        }
        learned_at(&self.ahead, u32::from(position.get())).is_some()
    }

    /// The action that was learned first at the position, or `None`.
    pub fn get(&self, position: Position) -> Option<Action>
        ensures { result ≡ action_at self.now position }
    {
        if let Some(action) = self.front.get(usize::from(position.get() - 1)) {
            return Some(*action);
        }
        learned_at(&self.ahead, u32::from(position.get()))
    }

    /// The first position at which nothing is learned, 1 to 65,535, or 65,536 where every position
    /// is learned.
    pub fn next_unlearned(&self) -> u32
        ensures in_range { (1 ≤ result) × (result ≤ 65536) }
        ensures below { (i : ℕ) → 1 ≤ i → i < result → IsLearned self.now i }
        ensures unlearned { ¬ IsLearned self.now result }
        // Once nothing is ready it is the position after those that were taken.
        ensures taken { ready_of self.now ≡ None → result ≡ next_to_take self.now }
    {
        self.front.len() as u32 + 1
    }

    /// The greatest position at which an action is learned, or `None` where none is.
    pub fn top(&self) -> Option<Position>
        ensures learned { IfSome result (λ top. IsLearned self.now top) }
        ensures greatest { IfSome result (λ top. (i : ℕ) → IsLearned self.now i → i ≤ top) }
        ensures none { IfNone result ((i : ℕ) → ¬ IsLearned self.now i) }
    {
        Position::new(self.top)
    }

    /// The action of the least position that was not taken yet, where that position is learned: so
    /// the actions come in order and none is left out. It is lent where it lies.
    #[inline(always)]
    pub fn ready(&self) -> Option<&Action>
        // claim (ready): A log returns its learned actions in order, each once and none left out
        ensures ready { option_copied result ≡ ready_of self.now }
    {
        self.front.get(usize::from(self.taken))
    }

    /// Takes the action that is ready.
    #[inline(always)]
    pub fn take(&mut self)
        requires { IsSome (ready_of self.old) }
        ensures taken { Some self.new.taken
            ≡ option_map (λ action. self.old.taken ++ action ∷ []) (ready_of self.old) }
        ensures places { self.new.places ≡ self.old.places }
        ensures few { length self.new.taken < 2 ^ 16 }
    {
        self.taken += 1;
    }

    /// Takes the action that is ready, and returns it with its position; `None` if none is ready.
    pub fn take_ready(&mut self) -> Option<(Position, Action)>
        ensures ready { option_map (λ ready. ready.1) result ≡ ready_of self.old }
        ensures position { IfSome result (λ ready. ready.0 ≡ next_to_take self.old) }
        ensures taken { IfSome result (λ ready. self.new.taken ≡ self.old.taken ++ ready.1 ∷ []) }
        ensures none { IfNone result (self.new ≡ self.old) }
        ensures places { self.new.places ≡ self.old.places }
    {
        let action = *self.ready()?;
        self.take();
        Some((Position::new(self.taken)?, action))
    }

    /// How many actions were taken, at most 65,535: those learned at the positions up to that
    /// number.
    pub fn applied(&self) -> u32
        ensures count { result ≡ length self.now.taken }
        ensures few { result < 2 ^ 16 }
        ensures in_order { IsTakenInOrder self.now }
    {
        u32::from(self.taken)
    }
}
