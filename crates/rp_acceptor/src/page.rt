//! What an acceptor keeps for single positions, in pages, each made when a position of it is first
//! reserved.

ghost use Rattle.std.specs.Prelude.{◌≡◌, ◌+◌, ◌<◌, ◌≤◌, [], ℕ, length, slice_set, nat_eq, option_copied, ◌/◌, ◌%◌, OnOk, OnErr, IfOk, IfSome, IfNone};
ghost use Rattle.rp_base.specs.Ballot.{number_of};
ghost use Rattle.rp_base.specs.Sets.{Has};
ghost use Rattle.rp_acceptor.specs.Levels.{IsPromised};
ghost use Rattle.rp_acceptor.specs.Slots.{nothing_kept, kept_or_nothing, bound_of, with_promise, with_vote, with_record, single_in, kept_in_page, page_at, kept_of, HasSlot, HasMore, HasNoVote, IsWhole};

use crate::slot::{ballot_of, index_of_position};
use rp_base::{Ballot, Rec, Vote};
use std::alloc::{AllocError, Global};
use std::marker::Model;

/// How many positions a page has.
pub const PAGE: usize = 64;

/// What is kept for one position: the number of the greatest ballot that was promised for it alone,
/// 0 if none was, and the last vote there.
#[derive(Clone, Copy)]
pub struct Kept {
    promised: u64,
    last: Option<Vote>,
}

impl Model for Kept {
    ghost use Rattle.rp_acceptor.specs.Slots as slots;
    ghost use Rattle.rp_acceptor.specs.Levels.{IsPromised};

    ghost Value = { slots.Kept };

    ghost view = { λ k. record { promised = k.promised; last = k.last } };

    ghost invariant = { λ k. IsPromised k.promised };

    ghost inverse = { λ k. record { promised = k.promised; last = k.last } };
}

impl Kept {
    /// Nothing. It is not inlined, so that a page is filled with stores of whole places.
    #[inline(never)]
    fn nothing() -> Kept
        ensures { result ≡ nothing_kept }
    {
        Kept {
            promised: 0,
            last: None,
        }
    }

    /// The last vote.
    #[inline(always)]
    pub fn last(&self) -> Option<&Vote>
        ensures { option_copied result ≡ self.now.last }
    {
        self.last.as_ref()
    }

    /// The number of the greater of the ballot that was promised and the last vote's, 0 if there
    /// is neither.
    #[inline(always)]
    pub fn bound_number(&self) -> u64
        ensures value { result ≡ bound_of self.now }
        ensures promised { IsPromised result }
    {
        match &self.last {
            Some(vote) => self.promised.max(vote.ballot.get()),
            None => self.promised,
        }
    }

    /// The greater of the ballot that was promised and the last vote's.
    pub fn bound(&self) -> Option<Ballot>
        ensures { number_of result ≡ bound_of self.now }
    {
        ballot_of(self.bound_number())
    }

    /// Notes a promise: the greatest ballot counts.
    #[inline(always)]
    fn promise(&mut self, ballot: Ballot)
        ensures { self.new ≡ with_promise self.old ballot }
    {
        self.promised = self.promised.max(ballot.get());
    }

    /// Notes a vote: the last is the higher one.
    #[inline(always)]
    fn vote(&mut self, vote: Vote)
        ensures { self.new ≡ with_vote self.old vote }
    {
        match &self.last {
            Some(last) if last.ballot.get() >= vote.ballot.get() => {}
            _ => self.last = Some(vote),
        }
    }
}

/// What is kept for 64 positions in a row, or nothing if no position of them was reserved.
pub struct Page {
    places: Vec<Kept>,
}

// Not derived, so that to drop it is one step of a proof and not one for each of its parts.
impl Drop for Page {
    fn drop(self) {
        let Page { places: _ } = self;
    }
}

impl Model for Page {
    ghost use Rattle.std.specs.Prelude.{List};
    ghost use Rattle.rp_acceptor.specs.Slots as slots;

    ghost Value = { List slots.Kept };

    ghost view = { λ p. p.places.items };
}

impl Page {
    /// A page without places, which takes no memory.
    fn absent(alloc: Global) -> Page
        ensures { result ≡ [] }
    {
        Page {
            places: Vec::new(alloc),
        }
    }

    /// A page that keeps nothing.
    fn new(alloc: Global) -> Result<Page, AllocError>
        ensures len { IfOk result (λ page. length page ≡ 64) }
        ensures empty { IfOk result (λ page. (offset : ℕ)
            → kept_in_page page offset ≡ nothing_kept) }
    {
        let mut places = Vec::new(alloc);
        places.resize(PAGE, Kept::nothing())?;
        Ok(Page { places })
    }

    fn is_absent(&self) -> bool
        ensures { result ≡ nat_eq (length self.now) 0 }
    {
        self.places.is_empty()
    }

    /// What is kept at an offset, if there is a place.
    #[inline(always)]
    fn kept(&self, offset: usize) -> Option<&Kept>
        ensures kept { kept_or_nothing (option_copied result) ≡ kept_in_page self.now offset }
        ensures some { IfSome result (λ _. offset < length self.now) }
        ensures none { IfNone result (length self.now ≤ offset) }
    {
        self.places.get(offset)
    }

    /// Notes a promise at an offset.
    #[inline(always)]
    fn note_promise(&mut self, offset: usize, ballot: Ballot)
        requires within { offset < length self.old }
        ensures { self.new ≡ slice_set self.old offset
            (with_promise (kept_in_page self.old offset) ballot) }
    {
        self.places[offset].promise(ballot);
    }

    /// Notes a vote at an offset.
    #[inline(always)]
    fn note_vote(&mut self, offset: usize, vote: Vote)
        requires within { offset < length self.old }
        ensures { self.new ≡ slice_set self.old offset
            (with_vote (kept_in_page self.old offset) vote) }
    {
        self.places[offset].vote(vote);
    }
}

/// What is kept at an index, if there is a place.
#[inline(always)]
pub fn kept_at(pages: &[Page], index: usize) -> Option<&Kept>
    ensures { kept_or_nothing (option_copied result) ≡ kept_of pages.now index }
{
    match pages.get(index / PAGE) {
        Some(page) => page.kept(index % PAGE),
        None => None,
    }
}

/// The number of the ballot that was promised for the position at an index alone, 0 if none was, if
/// there is a place and no vote is kept there.
#[inline(always)]
pub fn promised_without_vote(pages: &[Page], index: usize) -> Option<u64>
    ensures some { IfSome result (λ number. HasNoVote pages.now index number) }
    ensures none { IfNone result (HasSlot pages.now index
        → (number : ℕ) → ¬ HasNoVote pages.now index number) }
{
    let page = pages.get(index / PAGE)?;
    let kept = page.kept(index % PAGE)?;
    if kept.last.is_some() {
        return None;
    }
    Some(kept.promised)
}

/// The places at indices of one page, this many from the first on; none in a page that is absent.
pub fn places_at(pages: &[Page], index: usize, count: usize) -> &[Kept]
    requires whole { (n : ℕ) → IsWhole (page_at pages.now n) }
    requires within { index % 64 + count ≤ 64 }
    ensures few { length result.now ≤ count }
    ensures kept { (k : ℕ) → k < count
        → kept_in_page result.now k ≡ kept_of pages.now (index + k) }
{
    match pages.get(index / PAGE) {
        Some(page) if !page.is_absent() => {
            let offset = index % PAGE;
            &page.places[offset..offset + count]
        }
        _ => &[],
    }
}

/// Makes the pages up to this number, those that are not there absent.
fn grow(pages: &mut Vec<Page>, alloc: Global, number: usize) -> Result<(), AllocError>
    ensures same { (n : ℕ) → page_at pages.new.items n ≡ page_at pages.old.items n }
    ensures len { OnOk result (number < length pages.new.items) }
    ensures full { OnErr result (length pages.new.items ≤ number) }
{
    while pages.len() <= number {
        pages.push(Page::absent(alloc))?;
    }
    Ok(())
}

/// Whether the page of this number is absent.
#[inline(always)]
fn is_absent(pages: &[Page], number: usize) -> bool
    ensures { result ≡ nat_eq (length (page_at pages.now number)) 0 }
{
    match pages.get(number) {
        Some(page) => page.is_absent(),
        None => true,
    }
}

/// Makes the page of an index, unless it is there. Refused for memory, each place stays.
#[inline(always)]
pub fn make(pages: &mut Vec<Page>, alloc: Global, index: usize) -> Result<(), AllocError>
    requires { (n : ℕ) → IsWhole (page_at pages.old.items n) }
    ensures more { HasMore pages.old.items pages.new.items }
    ensures made { OnOk result (HasSlot pages.new.items index) }
    ensures full { OnErr result (length (page_at pages.old.items (index / 64)) ≡ 0) }
{
    let number = index / PAGE;
    if is_absent(pages, number) {
        make_page(pages, alloc, number)
    } else {
        Ok(())
    }
}

/// Makes the page of this number, which is absent. Refused for memory, each place stays.
#[inline(never)]
fn make_page(pages: &mut Vec<Page>, alloc: Global, number: usize) -> Result<(), AllocError>
    requires { length (page_at pages.old.items number) ≡ 0 }
    ensures more { HasMore pages.old.items pages.new.items }
    ensures made { OnOk result (length (page_at pages.new.items number) ≡ 64) }
{
    grow(pages, alloc, number)?;
    pages[number] = Page::new(alloc)?;
    Ok(())
}

/// Notes the vote, or the promise for one position, that a record is, if it is one. The place of
/// its position is there.
#[inline(always)]
pub fn note(pages: &mut Vec<Page>, rec: &Rec)
    requires { (index : ℕ) → Has (index + 1) (single_in rec.now) → HasSlot pages.old.items index }
    ensures len { (n : ℕ) → length (page_at pages.new.items n)
        ≡ length (page_at pages.old.items n) }
    ensures noted { (index : ℕ) → kept_of pages.new.items index
        ≡ with_record (index + 1) rec.now (kept_of pages.old.items index) }
{
    match rec {
        Rec::Promised(position, ballot) => {
            let index = index_of_position(*position);
            pages[index / PAGE].note_promise(index % PAGE, *ballot);
        }
        Rec::Voted(position, ballot, action) => {
            let index = index_of_position(*position);
            let vote = Vote {
                ballot: *ballot,
                action: *action,
            };
            pages[index / PAGE].note_vote(index % PAGE, vote);
        }
        Rec::Started(_) | Rec::Learned(_, _) | Rec::PromisedRange(_, _) => {}
    }
}
