//! The acceptor's questions and notes.

ghost use Rattle.std.specs.Prelude.{◌≡◌, ◌≤◌, ◌<◌, ◌-◌, ℕ, [], ◌∷◌, flat_map, option_copied, if◌then◌else◌, IsTrue, IfOk, IfSome, IfNone, OnOk, OnErr};
ghost use Rattle.rp_acceptor.specs.Levels.{IsPromised};
ghost use Rattle.rp_acceptor.specs.First.{IsFirstPromise, IsFirstVote};
ghost use Rattle.rp_acceptor.specs.Slots.{HasSlot, HasFirstBound};
ghost use Rattle.rp_base.specs.Ballot.{number_of};
ghost use Rattle.rp_base.specs.declared.action.Action.{Action};
ghost use Rattle.rp_base.specs.declared.record.Rec.TheVariants.{Promised, Voted};
ghost use Rattle.rp_base.specs.Records.{bound_at, last_vote_at};
ghost use Rattle.rp_base.specs.Ranges.{positions_of};
ghost use Rattle.rp_base.specs.Sets.{Has};
ghost use Rattle.rp_acceptor.specs.Noted.{nothing_noted, places_in, HasRoom, reserves, reserves_vote, reserves_range, reserves_for, notes, restored_from, restored};
ghost use Rattle.rp_base.specs.Voting.{prepare_answer, vote_answer, accept_answer};

use crate::levels::{Levels, raise_promised, split_ends};
use crate::page::{Page, kept_at, make, note, promised_without_vote};
use crate::slot::{Slot, ballot_of, index_of_position};
use rp_base::{
    AcceptAnswer, Action, Ballot, History, Position, PositionRange, PrepareAnswer, Rec, Vote,
};
use std::alloc::{AllocError, Global};
use std::marker::Model;

/// An acceptor: what the records that it noted say at each position. Questions change nothing and
/// notes take effect, so that a record can be written between the two (Lamport, "Paxos Made
/// Simple", section 2.5). The bound at a position is the greatest of three ballots: the one
/// promised for it alone and the last vote's, which its page keeps, and the one promised for a
/// range, which a level holds for all positions up to the next one.
pub struct Acceptor {
    alloc: Global,
    pub(crate) levels: Levels,
    pub(crate) pages: Vec<Page>,
    reserved: History<Position>,
    votes: History<Position>,
    ranges: History<PositionRange>,
    records: History<Rec>,
}

// Not derived, so that to drop it is one step of a proof and not one for each of its parts.
impl Drop for Acceptor {
    fn drop(self) {
        let Acceptor {
            alloc: _,
            levels: _,
            pages: _,
            reserved: _,
            votes: _,
            ranges: _,
            records: _,
        } = self;
    }
}

impl Model for Acceptor {
    ghost use Rattle.rp_acceptor.specs.Noted.{Noted};

    ghost Value = { Noted };

    ghost use Rattle.rp_acceptor.specs.Slots.{AreKept};

    ghost view = { λ a. record {
      records = a.records;
      reserved = a.reserved;
      votes = a.votes;
      ranges = a.ranges;
    } };

    ghost invariant = { λ a. AreKept a.levels a.pages.items (record {
      records = a.records;
      reserved = a.reserved;
      votes = a.votes;
      ranges = a.ranges;
    }) };
}

impl Acceptor {
    /// An acceptor that has noted nothing, with no room.
    pub fn new(alloc: Global) -> Self
        ensures empty { result ≡ nothing_noted }
    {
        Acceptor {
            alloc,
            levels: Levels::new(alloc),
            pages: Vec::new(alloc),
            reserved: History::new(),
            votes: History::new(),
            ranges: History::new(),
            records: History::new(),
        }
    }

    /// The acceptor that notes these records in order, with room at each position at which one of
    /// them counts. `OutOfMemory` is returned only if one of them is a promise or a vote, and then
    /// there is no acceptor.
    pub fn restore(alloc: Global, records: &[Rec]) -> Result<Self, AllocError>
        // claim (restored): An acceptor that is restored is the one that noted the records in order
        ensures restored { IfOk result (λ acceptor. acceptor ≡ restored records.now) }
        ensures full { OnErr result (¬ (flat_map places_in records.now ≡ [])) }
    {
        let mut acceptor = Acceptor::new(alloc);
        acceptor.reserve_and_note_each(records)?;
        Ok(acceptor)
    }

    /// Makes room for the records and notes them, in order.
    fn reserve_and_note_each(&mut self, records: &[Rec]) -> Result<(), AllocError>
        ensures ok { OnOk result (self.new ≡ restored_from self.old records.now) }
        ensures full { OnErr result (¬ (flat_map places_in records.now ≡ [])) }
    {
        for rec in records {
            self.reserve_and_note(rec)?;
        }
        Ok(())
    }

    /// Makes room for the record and notes it.
    fn reserve_and_note(&mut self, rec: &Rec) -> Result<(), AllocError>
        ensures ok { OnOk result (self.new ≡ notes (reserves_for self.old rec.now) rec.now) }
        ensures full { OnErr result (¬ (places_in rec.now ≡ [])) }
    {
        self.reserve_for(rec)?;
        self.note(rec);
        Ok(())
    }

    /// Makes room for the record.
    fn reserve_for(&mut self, rec: &Rec) -> Result<(), AllocError>
        ensures ok { OnOk result (self.new ≡ reserves_for self.old rec.now) }
        ensures full { OnErr result (¬ (places_in rec.now ≡ [])) }
    {
        match *rec {
            Rec::Promised(position, _) => self.reserve(position),
            Rec::Voted(position, _, _) => self.reserve_vote(position),
            Rec::PromisedRange(range, _) => self.reserve_range(range),
            Rec::Started(_) | Rec::Learned(_, _) => Ok(()),
        }
    }

    /// Makes room, so that records at this position can be noted, however many. `OutOfMemory` comes
    /// only if there was no room yet, and then nothing has changed.
    #[inline(always)]
    pub fn reserve(&mut self, position: Position) -> Result<(), AllocError>
        // claim: Room is made only at the position or the range asked for, and a refusal changes
        //   nothing
        ensures ok { OnOk result (self.new ≡ reserves self.old position) }
        ensures err { OnErr result (self.new ≡ self.old) }
        ensures full { OnErr result (¬ Has position self.old.reserved) }
    {
        make(&mut self.pages, self.alloc, index_of_position(position))?;
        self.reserved.push(&position);
        self.votes.push(&position);
        Ok(())
    }

    /// Makes room, so that votes at this position can be noted, however many; it takes none for
    /// promises. `OutOfMemory` is returned only if there was no room yet, and then nothing has
    /// changed.
    #[inline(always)]
    pub fn reserve_vote(&mut self, position: Position) -> Result<(), AllocError>
        // claim as Acceptor::reserve
        ensures ok { OnOk result (self.new ≡ reserves_vote self.old position) }
        ensures err { OnErr result (self.new ≡ self.old) }
        ensures full { OnErr result (¬ Has position self.old.votes) }
    {
        make(&mut self.pages, self.alloc, index_of_position(position))?;
        self.votes.push(&position);
        Ok(())
    }

    /// Whether a `Prepare` of the ballot at the position is promised with no vote to report, and
    /// then room for the promise: `prepare` and `reserve` by one look-up. Where no room for votes
    /// was made at the position, `false` says nothing, and these two are to be called.
    #[inline(always)]
    pub fn reserve_first_promise(&mut self, position: Position, ballot: Ballot) -> bool
        ensures answer { IsTrue result → IsFirstPromise self.old.records position ballot }
        ensures room { self.new ≡ (if result then reserves self.old position else self.old) }
        ensures fits { IsTrue result → HasRoom self.new (Promised position ballot) }
        ensures usual { Has position self.old.votes
            → IsFirstPromise self.old.records position ballot → IsTrue result }
    {
        let Some(bound) = bound_without_vote(&self.levels, &self.pages, position) else {
            return false;
        };
        if ballot.get() <= bound {
            return false;
        }
        self.reserved.push(&position);
        self.votes.push(&position);
        true
    }

    /// Whether an `Accept` in the ballot at the position gets the first vote there, and then room
    /// for that vote: `accept` and `reserve_vote` by one look-up. Where no room for votes was made
    /// at the position, `false` says nothing, and these two are to be called.
    #[inline(always)]
    pub fn reserve_first_vote(&mut self, position: Position, ballot: Ballot) -> bool
        ensures answer { IsTrue result → IsFirstVote self.old.records position ballot }
        ensures room { self.new ≡ (if result then reserves_vote self.old position else self.old) }
        ensures fits { IsTrue result
            → (action : Action) → HasRoom self.new (Voted position ballot action) }
        ensures usual { Has position self.old.votes
            → IsFirstVote self.old.records position ballot → IsTrue result }
    {
        let Some(bound) = bound_without_vote(&self.levels, &self.pages, position) else {
            return false;
        };
        if ballot.get() < bound {
            return false;
        }
        self.votes.push(&position);
        true
    }

    /// Makes room, so that promises for this range can be noted, however many: two levels at most.
    /// `OutOfMemory` is returned only if there was no room yet, and then nothing has changed.
    pub fn reserve_range(&mut self, range: PositionRange) -> Result<(), AllocError>
        // claim as Acceptor::reserve
        ensures ok { OnOk result (self.new ≡ reserves_range self.old range) }
        ensures err { OnErr result (self.new ≡ self.old) }
        ensures full { OnErr result (¬ Has range self.old.ranges) }
        ensures some { OnErr result (¬ (positions_of range ≡ [])) }
    {
        let first = usize::from(range.first().get());
        split_ends(&mut self.levels, first, range.end() as usize)?;
        self.ranges.push(&range);
        Ok(())
    }

    /// Notes a record that is written. There is room where it counts, if it is a promise or a vote;
    /// a record of another kind changes no answer. It takes no memory.
    #[inline(always)]
    pub fn note(&mut self, rec: &Rec)
        requires room { HasRoom self.old rec.now }
        ensures noted { self.new ≡ notes self.old rec.now }
    {
        raise_promised(&mut self.levels, rec);
        note(&mut self.pages, rec);
        self.records.push(rec);
    }

    /// The bound and the last vote at a position.
    #[inline(always)]
    fn slot(&self, position: Position) -> Slot
        ensures bound { result.bound ≡ bound_at self.now.records position }
        ensures promised { IsPromised result.bound }
        ensures last { option_copied result.last ≡ last_vote_at self.now.records position }
    {
        let promised = self.levels.number(usize::from(position.get()));
        match kept_at(&self.pages, index_of_position(position)) {
            Some(kept) => Slot {
                bound: promised.max(kept.bound_number()),
                last: kept.last(),
            },
            None => Slot {
                bound: promised,
                last: None,
            },
        }
    }

    /// The bound at a position: the greatest ballot that is promised or voted in there.
    pub fn bound(&self, position: Position) -> Option<Ballot>
        ensures { number_of result ≡ bound_at self.now.records position }
    {
        ballot_of(self.slot(position).bound)
    }

    /// The last vote at a position.
    pub fn last_vote(&self, position: Position) -> Option<Vote>
        ensures { result ≡ last_vote_at self.now.records position }
    {
        self.slot(position).last.copied()
    }

    /// What is answered to a `Prepare` of the ballot at the position (section 2.2, phase 1b). The
    /// promise counts once the record that it comes with is written and noted.
    #[inline(always)]
    pub fn prepare(&self, position: Position, ballot: Ballot) -> PrepareAnswer
        // claim: A Prepare and an Accept are answered by the bound and the last vote of all records
        //   noted
        ensures answer { result ≡ prepare_answer self.now.records position ballot }
    {
        let slot = self.slot(position);
        match refusing(slot.bound, ballot) {
            Some(bound) => PrepareAnswer::Nack(bound),
            None if ballot.get() == slot.bound => PrepareAnswer::Silent,
            None => PrepareAnswer::Promise {
                last: slot.last.copied(),
                rec: Rec::Promised(position, ballot),
            },
        }
    }

    /// What is answered to an `Accept` of the action in the ballot at the position (section 2.2,
    /// phase 2b). The vote counts once the record that it comes with is written and noted.
    #[inline(always)]
    pub fn accept(&self, position: Position, ballot: Ballot, action: &Action) -> AcceptAnswer
        // claim as Acceptor::prepare
        ensures answer { result ≡ accept_answer self.now.records position ballot action.now }
    {
        let slot = self.slot(position);
        match refusing(slot.bound, ballot) {
            Some(bound) => AcceptAnswer::Nack(bound),
            None => vote(position, ballot, action, slot.last),
        }
    }
}

/// The number of the bound at a position that has a place, if no vote is kept there.
#[inline(always)]
fn bound_without_vote(levels: &Levels, pages: &[Page], position: Position) -> Option<u64>
    ensures some { IfSome result (λ bound.
        HasFirstBound levels.now pages.now position bound) }
    ensures none { IfNone result (HasSlot pages.now (position - 1)
        → (bound : ℕ) → ¬ HasFirstBound levels.now pages.now position bound) }
{
    let alone = promised_without_vote(pages, index_of_position(position))?;
    let promised = levels.number(usize::from(position.get()));
    Some(promised.max(alone))
}

/// The bound of this number, if the ballot lies below it.
#[inline(always)]
fn refusing(bound: u64, ballot: Ballot) -> Option<Ballot>
    requires { IsPromised bound }
    ensures below { IfSome result (λ found. (found ≡ bound) × (ballot < found)) }
    ensures not_below { IfNone result (bound ≤ ballot) }
{
    if ballot.get() < bound {
        ballot_of(bound)
    } else {
        None
    }
}

/// What is answered in a ballot that is not below the bound.
#[inline(always)]
fn vote(position: Position, ballot: Ballot, action: &Action, last: Option<&Vote>) -> AcceptAnswer
    ensures { result ≡ vote_answer position ballot action.now (option_copied last.entry) }
{
    match last {
        Some(vote) if vote.ballot == ballot => {
            if vote.action == *action {
                AcceptAnswer::Again
            } else {
                AcceptAnswer::Silent
            }
        }
        _ => AcceptAnswer::Vote {
            rec: Rec::Voted(position, ballot, *action),
        },
    }
}
