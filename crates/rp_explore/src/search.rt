//! The orders that were found, and whether one more of them leads to a new state.

ghost use Rattle.std.specs.Prelude.{◌≡◌, ◌+◌, ◌<◌, ◌≤◌, ◌↔◌, ◌⊎◌, ◌++◌, [], ◌∷◌, length, slice_index_or, Some, IsTrue, IfOk, OnOk, MatchOption, MatchBool};
ghost use Rattle.rp_base.specs.declared.action.Action.TheVariants.{Noop};
ghost use Rattle.rp_machine.specs.Numbered.{outcome};
ghost use Rattle.rp_orders.specs.Orders.{AreRight, AreAmong, LeadAlike};
ghost use Rattle.rp_explore.specs.Listed.{order_at, further, AreOrdersOf, AreGuarded, AreDistinct};
ghost use Rattle.rp_explore.specs.Findings.{found_of};
ghost use Rattle.rp_explore.specs.Searched.{Grows, Extends, IsAt, IsMissing, MayFollowAt, AllReached, SomeMissing, AreQuiet, IsLayered, AreNear, AreGivenBefore, AreFindings, given_next};

use crate::findings::{Findings, Given, Tried, note_waits};
use crate::giver::Giver;
use crate::guarded::is_taken;
use crate::key::{Key, key_of};
use crate::pieces::Pieces;
use crate::replays::replayed;
use crate::tree::OrderTree;
use indexmap::IndexSet;
use rp_base::{Action, Answers};
use rp_machine::{Machine, Numbered, replay_may_go_on};
use rp_orders::Guard;
use std::alloc::{AllocError, Global};
use std::marker::Model;

/// The orders that were found, `most` of them at most, each to a state of its own, with a key for
/// each in the table.
pub struct Search<'a, M: Machine> {
    alloc: Global,
    program: &'a M::Program,
    guards: &'a [Guard],
    tree: OrderTree,
    known: Known,
    most: usize,
}

// Not derived, so that to drop it is one step of a proof and not one for each of its parts.
impl<'a, M: Machine> Drop for Search<'a, M> {
    fn drop(self) {
        let Search {
            alloc: _,
            program: _,
            guards: _,
            tree: _,
            known: _,
            most: _,
        } = self;
    }
}

/// The key of each state that was found, at the place of its order, and the lines of the images.
struct Known {
    pieces: Pieces,
    keys: IndexSet<Key>,
}

// Not derived, so that to drop it is one step of a proof and not one for each of its parts.
impl Drop for Known {
    fn drop(self) {
        let Known { pieces: _, keys: _ } = self;
    }
}

/// The order at a place, and the state to which it leads.
#[derive(Drop)]
struct Visited<'b, M: Machine> {
    place: usize,
    order: &'b [Action],
    state: &'b Numbered<M>,
}

/// What one more action gives, and how many were taken so far.
#[derive(Drop)]
struct Trial {
    answers: Answers,
    taken: u64,
}

impl<'a, M: Machine> Model for Search<'a, M> {
    ghost use Rattle.rp_explore.specs.Searched.{Searched};
    ghost use Rattle.rp_explore.specs.Keys.{AreKeys};
    ghost use Rattle.rp_explore.specs.Listed.{AreGuarded};

    ghost Value = { Searched M };

    ghost view = { λ s. record {
      begin = M.begin s.program.now;
      guards = s.guards.now;
      listed = s.tree;
      most = s.most;
    } };

    ghost invariant = { λ s.
        AreKeys M.next M.answers (M.begin s.program.now) s.guards.now M.image
        s.known.pieces s.known.keys.keys s.tree.orders
        × AreGuarded M.next M.answers (M.begin s.program.now) s.guards.now s.tree.orders };
}

impl<'a, M: Machine> Search<'a, M> {
    /// The empty order of the actions that may happen.
    pub fn new(
        alloc: Global,
        program: &'a M::Program,
        may: &[Action],
        guards: &'a [Guard],
        most: usize,
    ) -> Result<Self, AllocError>
        requires { AreRight may.now }
        ensures { IfOk result (λ search. search ≡ record {
          begin = M.begin program.now;
          guards = guards.now;
          listed = record { may = may.now; orders = [] ∷ [] };
          most = most;
        }) }
    {
        let start = Numbered::<M>::new(alloc, program)?;
        let mut known = Known {
            pieces: Pieces::new(alloc),
            keys: IndexSet::new(alloc),
        };
        let key = key_of(alloc, &start, guards, &mut known.pieces, &[])?;
        known.keys.insert(key)?;
        let tree = OrderTree::new(alloc, may)?;
        Ok(Search {
            alloc,
            program,
            guards,
            tree,
            known,
            most,
        })
    }

    /// How many orders there are.
    pub fn len(&self) -> usize
        ensures value { result ≡ length self.now.listed.orders }
        ensures starts { 0 < result }
        ensures empty { order_at self.now.listed.orders 0 ≡ [] }
        ensures among { AreOrdersOf self.now.listed }
        ensures guarded { AreGuarded M.next M.answers self.now.begin self.now.guards
            self.now.listed.orders }
        ensures distinct { AreDistinct M.next M.answers self.now.begin self.now.guards
            self.now.listed.orders }
    {
        let _lines = self.known.pieces.len();
        let _count = self.known.keys.len();
        self.tree.len()
    }

    /// The place of the order that leads to this state, which is that of an order and one action
    /// more: an earlier order's, or its own if there is room for it.
    fn place_of(
        &mut self,
        next: &Numbered<M>,
        before: usize,
        index: usize,
    ) -> Result<Option<usize>, AllocError>
        requires before { before < length self.old.listed.orders }
        requires index { index < length self.old.listed.may }
        requires begin { next.now.begin ≡ self.old.begin }
        requires actions { next.now.actions ≡ further self.old.listed before index }
        requires may_follow { MayFollowAt M.next M.answers self.old before index }
        ensures grows { OnOk result
            (Grows self.old self.new (further self.old.listed before index)) }
        ensures there { IfOk result (λ place. MatchOption place
            (IsMissing M.next M.answers self.new (further self.old.listed before index))
            (IsAt M.next M.answers self.new (further self.old.listed before index))) }
    {
        M::laws();
        replay_may_go_on::<M>();
        let place = self.tree.len();
        let near = lines_at(&self.known.keys, before);
        let key = key_of(self.alloc, next, self.guards, &mut self.known.pieces, near)?;
        let _lines = self.known.pieces.len();
        if let Some(known) = self.known.keys.get_index_of(&key) {
            return Ok(Some(known));
        }
        if place >= self.most {
            return Ok(None);
        }
        self.known.keys.reserve(1)?;
        self.tree.push(before, index)?;
        self.known.keys.insert(key)?;
        Ok(Some(place))
    }

    /// Tries one action more after the order that is visited: whether that leads to a new state,
    /// and which answers it gives.
    fn step(
        &mut self,
        visited: &Visited<M>,
        index: usize,
        trial: &mut Trial,
    ) -> Result<Option<usize>, AllocError>
        requires place { visited.now.place < length self.old.listed.orders }
        requires index { index < length self.old.listed.may }
        requires right { AreRight visited.now.order.now }
        requires order { visited.now.order.now ≡ visited.now.state.now.actions }
        requires begin { visited.now.state.now.begin ≡ self.old.begin }
        requires actions { visited.now.state.now.actions
            ≡ order_at self.old.listed.orders visited.now.place }
        ensures grows { let place = visited.now.place in OnOk result
            (Grows self.old self.new (further self.old.listed place index)) }
        ensures there { let place = visited.now.place in IfOk result (λ at.
            MayFollowAt M.next M.answers self.old place index
            → MatchOption at
            (IsMissing M.next M.answers self.new (further self.old.listed place index))
            (IsAt M.next M.answers self.new (further self.old.listed place index))) }
        ensures stays { let place = visited.now.place in IfOk result (λ at.
            MayFollowAt M.next M.answers self.old place index
            → (at ≡ Some place)
            ↔ LeadAlike M.next M.answers self.old.begin self.old.guards
            (further self.old.listed place index) (order_at self.old.listed.orders place)) }
        ensures skips { let place = visited.now.place in IfOk result (λ at.
            MayFollowAt M.next M.answers self.old place index ⊎ (at ≡ Some place)) }
        ensures answers { OnOk result (trial.new.answers
            ≡ given_next M.next M.answers self.old.guards
            (outcome M.next M.answers visited.now.state.now)
            (slice_index_or self.old.listed.may index Noop)) }
    {
        trial.answers.clear();
        let action = self.tree.may()[index];
        if !is_taken(visited.state, self.guards, &action) {
            return Ok(Some(visited.place));
        }
        trial.taken = trial.taken.saturating_add(1);
        let mut next = replayed::<M>(self.alloc, self.program, visited.order)?;
        next.apply(&action, &mut trial.answers);
        let at = self.place_of(&next, visited.place, index)?;
        let _count = self.len();
        Ok(at)
    }

    /// Tries each action after the order that is visited, and notes the answers.
    fn try_all(&mut self, visited: &Visited<M>, given: &mut Given) -> Result<Tried, AllocError>
        requires place { visited.now.place < length self.old.listed.orders }
        requires room { length self.old.listed.orders ≤ self.old.most }
        requires right { AreRight visited.now.order.now }
        requires order { visited.now.order.now ≡ visited.now.state.now.actions }
        requires begin { visited.now.state.now.begin ≡ self.old.begin }
        requires actions { visited.now.state.now.actions
            ≡ order_at self.old.listed.orders visited.now.place }
        requires layered { IsLayered self.old visited.now.place }
        requires before { AreGivenBefore M.next M.answers self.old visited.now.place 0
            given.old.replies.keys given.old.givers.items }
        ensures extends { OnOk result (Extends self.old self.new) }
        ensures whole { IfOk result (λ tried. MatchBool tried.is_whole
            (AllReached M.next M.answers self.new visited.now.place (length self.old.listed.may))
            (SomeMissing M.next M.answers self.new visited.now.place
            (length self.old.listed.may))) }
        ensures quiet { IfOk result (λ tried. IsTrue tried.is_quiet
            ↔ AreQuiet M.next M.answers self.new visited.now.place (length self.old.listed.may)) }
        ensures given { OnOk result (AreGivenBefore M.next M.answers self.new visited.now.place
            (length self.old.listed.may) given.new.replies.keys given.new.givers.items) }
        ensures layered { OnOk result (IsLayered self.new visited.now.place) }
        ensures near { OnOk result
            (AreNear M.next M.answers self.new visited.now.place (length self.old.listed.may)) }
    {
        let mut trial = Trial {
            answers: Answers::new(),
            taken: 0,
        };
        let mut tried = Tried::new();
        for action in 0..self.tree.may().len() {
            let at = self.step(visited, action, &mut trial)?;
            let giver = Giver {
                place: visited.place,
                action,
            };
            given.note(trial.answers.as_slice(), giver)?;
            tried = tried.with(at, visited.place);
        }
        Ok(Tried {
            steps: trial.taken,
            ..tried
        })
    }

    /// Tries each action after the order at a place, and adds what that gives to what the orders
    /// before it give.
    pub fn visit(&mut self, place: usize, findings: &mut Findings) -> Result<(), AllocError>
        requires place { place < length self.old.listed.orders }
        requires room { length self.old.listed.orders ≤ self.old.most }
        requires before { AreFindings M.next M.answers self.old place (found_of findings.old) }
        ensures extends { OnOk result (Extends self.old self.new) }
        ensures after { OnOk result (AreFindings M.next M.answers self.new (place + 1)
            (found_of findings.new)) }
    {
        let order = self.tree.order(self.alloc, place)?;
        let state = replayed::<M>(self.alloc, self.program, order.as_slice())?;
        let visited = Visited {
            place,
            order: order.as_slice(),
            state: &state,
        };
        let tried = self.try_all(&visited, &mut findings.given)?;
        findings.note_order(tried, order.len())?;
        if !tried.is_quiet {
            return Ok(());
        }
        note_waits(&mut findings.stuck, &state, place);
        Ok(())
    }

    /// The orders that were found.
    pub fn into_tree(self) -> OrderTree
        ensures { result ≡ self.entry.listed }
    {
        let Search {
            alloc: _,
            program: _,
            guards: _,
            tree,
            known: _,
            most: _,
        } = self;
        tree
    }
}

/// The numbers of the lines of the image whose key is at the place, none where there is none.
fn lines_at(keys: &IndexSet<Key>, place: usize) -> &[usize] {
    match keys.get_index(place) {
        Some(key) => key.lines(),
        None => &[],
    }
}
