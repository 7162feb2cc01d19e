//! The positions that a log has learned without a gap, and those ahead of them.

ghost use Rattle.std.specs.Prelude.{◌≡◌, ℕ, ◌+◌, ◌<◌, ◌≤◌, Bool, List, ◌∷◌, ◌++◌, false, None, IsSome, is_some, length, if◌then◌else◌};
ghost use Rattle.std.specs.Ordering.{nat_cmp};
ghost use Rattle.std.specs.BTreeMap.{is_at};
ghost use Rattle.rp_base.specs.declared.action.Action.{Action};
ghost use Rattle.rp_log.specs.Holding.{place_ahead, action_ahead, place_of, IsAhead};

use crate::pages::Pages;
use rp_base::Action;
use std::collections::BTreeMap;

/// The action learned at a position ahead of the front, if any.
pub(crate) fn learned_at(ahead: &BTreeMap<u32, Option<Action>>, position: u32) -> Option<Action>
    ensures { result ≡ action_ahead ahead.now.entries position }
{
    *ahead.get(&position)?
}

/// Learns an action at a position ahead of the front that has a place.
pub(crate) fn learn_ahead(ahead: &mut BTreeMap<u32, Option<Action>>, position: u32, action: Action)
    requires { IsSome (place_ahead ahead.old.entries position) }
    ensures written { (i : ℕ) → place_ahead ahead.new.entries i
        ≡ (if is_at (nat_cmp position) i then Some
        (Some action) else place_ahead ahead.old.entries i) }
    ensures length { length ahead.new.entries ≡ length ahead.old.entries }
{
    if let Some(place) = ahead.get_mut(&position) {
        *place = Some(action);
    }
}

/// Moves the positions that follow the front to its end, as far as they are learned.
pub(crate) fn advance(front: &mut Pages, ahead: &mut BTreeMap<u32, Option<Action>>)
    requires ahead { IsAhead (length front.old.items) ahead.old.entries }
    requires room { length front.old.items + length ahead.old.entries ≤ front.old.room }
    requires bound { length front.old.items ≤ 65535 }
    ensures places { (i : ℕ) → place_of front.new.items false ahead.new.entries i
        ≡ place_of front.old.items false ahead.old.entries i }
    ensures grown { (more : List Action) × (front.new.items ≡ front.old.items ++ more) }
    ensures ahead { IsAhead (length front.new.items) ahead.new.entries }
    ensures gap { action_ahead ahead.new.entries (length front.new.items + 1) ≡ None }
    ensures room { length front.new.items + length ahead.new.entries ≤ front.new.room }
    ensures bound { length front.new.items ≤ 65535 }
{
    while let Some(action) = learned_at(ahead, front.len() as u32 + 1) {
        ahead.remove(&(front.len() as u32 + 1));
        front.push_reserved(action);
    }
}

/// Learns the action of the position after the front, and moves on past the positions that follow.
#[inline(always)]
pub(crate) fn learn_next(
    front: &mut Pages,
    ahead: &mut BTreeMap<u32, Option<Action>>,
    action: Action,
)
    requires ahead { IsAhead (length front.old.items) ahead.old.entries }
    requires room { (fewer : ℕ) → fewer + (if is_some (place_ahead ahead.old.entries
        (length front.old.items + 1)) then 1 else 0) ≡ length ahead.old.entries
        → length front.old.items + 1 + fewer ≤ front.old.room }
    requires bound { length front.old.items < 65535 }
    ensures places { (reserved : Bool) (i : ℕ) → place_of front.new.items false ahead.new.entries i
        ≡ (if is_at (nat_cmp i) (length front.old.items + 1) then Some (Some action)
        else place_of front.old.items reserved ahead.old.entries i) }
    ensures grown { (more : List Action) × (front.new.items ≡ front.old.items ++ action ∷ more) }
    ensures ahead { IsAhead (length front.new.items) ahead.new.entries }
    ensures gap { action_ahead ahead.new.entries (length front.new.items + 1) ≡ None }
    ensures room { length front.new.items + length ahead.new.entries ≤ front.new.room }
    ensures bound { length front.new.items ≤ 65535 }
{
    if ahead.is_empty() {
        front.push_reserved(action);
        return;
    }
    ahead.remove(&(front.len() as u32 + 1));
    front.push_reserved(action);
    advance(front, ahead);
}
