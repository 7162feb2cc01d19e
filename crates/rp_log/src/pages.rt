//! Actions in pages, so that none is moved when one more is added.

ghost use Rattle.std.specs.Prelude.{◌≡◌, ℕ, ◌+◌, ◌^◌, ◌<◌, ◌≤◌, [], ◌∷◌, ◌++◌, length, slice_get, option_copied, OnOk};
ghost use Rattle.rp_log.specs.Pages.{joined, AreFilled};

use rp_base::Action;
use std::alloc::{AllocError, Global};
use std::marker::Model;

/// How many actions a page has.
const PAGE: usize = 64;

/// A list of actions, in pages of 64. Nothing moves when it grows.
#[derive(Debug, Drop)]
pub(crate) struct Pages {
    alloc: Global,
    pages: Vec<Vec<Action>>,
    len: usize,
}

impl Model for Pages {
    ghost use Rattle.rp_log.specs.Pages.{Paged, paged_of, AreFilled};

    ghost Value = { Paged };

    ghost view = { λ p. paged_of p.pages.items };

    ghost invariant = { λ p. AreFilled p.pages.items p.len };
}

impl Pages {
    /// No action yet. It takes no memory.
    pub(crate) fn new(alloc: Global) -> Self
        ensures { result.items ≡ [] }
    {
        Pages {
            alloc,
            pages: Vec::new(alloc),
            len: 0,
        }
    }

    /// How many actions there are.
    #[inline(always)]
    pub(crate) fn len(&self) -> usize
        ensures { result ≡ length self.now.items }
    {
        self.len
    }

    /// The action of a place, from 0.
    #[inline(always)]
    pub(crate) fn get(&self, place: usize) -> Option<&Action>
        ensures { option_copied result ≡ slice_get self.now.items place }
    {
        let page = self.pages.get(place / PAGE)?;
        page.get(place % PAGE)
    }

    /// Makes room for n actions more.
    #[inline(always)]
    pub(crate) fn reserve(&mut self, more: usize) -> Result<(), AllocError>
        requires { length self.old.items + more < 2 ^ 64 }
        ensures items { self.new.items ≡ self.old.items }
        ensures room { OnOk result (length self.new.items + more ≤ self.new.room) }
        ensures kept { self.old.room ≤ self.new.room }
    {
        let count = (self.len + more).div_ceil(PAGE);
        if self.pages.len() < count {
            make_pages(&mut self.pages, self.alloc, count)?;
        }
        Ok(())
    }

    /// One action more, into the room.
    #[inline(always)]
    pub(crate) fn push_reserved(&mut self, action: Action)
        requires room { length self.old.items < self.old.room }
        requires bound { length self.old.items < 65535 }
        ensures items { self.new.items ≡ self.old.items ++ action ∷ [] }
        ensures room { self.new.room ≡ self.old.room }
    {
        self.pages[self.len / PAGE].push_reserved(action);
        self.len += 1;
    }
}

/// Makes pages with no action, until there are n.
#[inline(never)]
fn make_pages(pages: &mut Vec<Vec<Action>>, alloc: Global, count: usize) -> Result<(), AllocError>
    ensures items { joined pages.new.items ≡ joined pages.old.items }
    ensures filled { (actions : ℕ)
        → AreFilled pages.old.items actions → AreFilled pages.new.items actions }
    ensures enough { OnOk result (count ≤ length pages.new.items) }
    ensures kept { length pages.old.items ≤ length pages.new.items }
{
    while pages.len() < count {
        pages.push(Vec::with_capacity(alloc, PAGE)?)?;
    }
    Ok(())
}
