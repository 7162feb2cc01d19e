//! What a server promised and voted, and how a promise or a vote is written (Lamport, "Paxos Made
//! Simple", section 2.2).

ghost use Rattle.std.specs.Prelude.{◌≡◌, [], ◌∷◌, ◌++◌, OnOk, OnErr, IfOk, IfErr, IfSome, IfNone, false};
ghost use Rattle.rp_acceptor.specs.First.{IsFirstPromise, IsFirstVote};
ghost use Rattle.rp_acceptor.specs.Noted.{HasRoom};
ghost use Rattle.rp_acceptor.specs.Comparing.{compared};
ghost use Rattle.rp_base.specs.Action.{IsRight};
ghost use Rattle.rp_base.specs.PlacedVotes.{last_votes};
ghost use Rattle.rp_base.specs.Ranges.{positions_of};
ghost use Rattle.rp_base.specs.Ballot.{number_of};
ghost use Rattle.rp_base.specs.Records.{bound_at, last_vote_at};
ghost use Rattle.rp_base.specs.declared.record.Rec.TheVariants.{Promised};
ghost use Rattle.rp_base.specs.Right.{IsRightRecord};
ghost use Rattle.rp_base.specs.Voting.{prepare_answer, accept_answer};
ghost use Rattle.rp_base.specs.WriteFaults.{fault_of};
ghost use Rattle.rp_model.specs.rp_codec.specs.Record.{record_text, HasRecordRanges};
ghost use Rattle.rp_model.specs.Says.{writes};
ghost use Rattle.rp_store.specs.Stored.{IsPut, IsNotPut};
ghost use Rattle.rp_server.specs.Invariant.{IsAnswer, vote_record};
ghost use Rattle.rp_server.specs.State.{server_after};

use crate::server::Roles;
use rp_acceptor::{Acceptor, Comparison};
use rp_base::{
    AcceptAnswer, Action, Ballot, PlacedVote, Position, PositionRange, PrepareAnswer, Rec, Vote,
    WriteFault,
};
use rp_machine::Machine;
use rp_store::{Device, Store};
use std::alloc::{AllocError, Global};

impl<M: Machine> Roles<M> {
    /// The bound at a position: the greatest ballot that it promised or voted in there.
    pub fn bound(&self, position: Position) -> Option<Ballot>
        ensures { number_of result ≡ bound_at self.now.records position }
    {
        self.acceptor.bound(position)
    }

    /// Its last vote at a position.
    pub fn last_vote(&self, position: Position) -> Option<Vote>
        ensures { result ≡ last_vote_at self.now.records position }
    {
        self.acceptor.last_vote(position)
    }

    /// What is answered to a `Prepare` of the ballot at the position.
    #[inline(always)]
    pub fn prepare(&self, position: Position, ballot: Ballot) -> PrepareAnswer
        ensures answer { result ≡ prepare_answer self.now.records position ballot }
    {
        self.acceptor.prepare(position, ballot)
    }

    /// How the ballot compares with the bounds at the positions of the range.
    pub fn compare(&self, range: PositionRange, ballot: Ballot) -> Comparison
        ensures { result ≡ compared (bound_at self.now.records) ballot (positions_of range) }
    {
        self.acceptor.compare(range, ballot)
    }

    /// What is answered to an `Accept` of the action in the ballot at the position.
    #[inline(always)]
    pub fn accept(&self, position: Position, ballot: Ballot, action: &Action) -> AcceptAnswer
        ensures answer { result ≡ accept_answer self.now.records position ballot action.now }
    {
        self.acceptor.accept(position, ballot, action)
    }

    /// The last votes at the positions of the range. `OutOfMemory` is returned only if there is
    /// one.
    pub fn last_votes(
        &self,
        alloc: Global,
        range: PositionRange,
    ) -> Result<Vec<PlacedVote>, AllocError>
        ensures votes { IfOk result (λ votes. votes.items ≡ last_votes self.now.records range) }
        ensures full { OnErr result (¬ (last_votes self.now.records range ≡ [])) }
    {
        self.acceptor.list_last_votes(alloc, range)
    }

    /// Writes a promise or a vote to the store, and notes it once it is stable.
    #[inline(always)]
    pub fn keep<D: Device>(&mut self, store: &mut Store<D>, rec: &Rec) -> Result<(), WriteFault>
        requires working { store.old.failed ≡ false }
        requires right { IsRightRecord rec.now }
        requires answer { IsAnswer rec.now }
        ensures put { OnOk result (IsPut D.disk (record_text rec.now) store.old store.new) }
        ensures noted { OnOk result
            (self.new ≡ server_after self.old (writes rec.now self.old.running [])) }
        ensures range { HasRecordRanges rec.now }
        ensures unchanged { OnErr result (self.new ≡ self.old) }
        ensures err { IfErr result (λ fault.
            IsNotPut D.disk (record_text rec.now) store.old (fault_of fault) store.new) }
    {
        write(store, &mut self.acceptor, rec)
    }

    /// Writes the promise of the ballot at the position, if a `Prepare` is answered with it and there
    /// is no vote to report, and notes it once it is stable. `None` says nothing: `prepare` answers.
    #[inline(always)]
    pub fn keep_first_promise<D: Device>(
        &mut self,
        store: &mut Store<D>,
        position: Position,
        ballot: Ballot,
    ) -> Option<Result<(), WriteFault>>
        requires working { store.old.failed ≡ false }
        ensures first { IfSome result (λ _. IsFirstPromise self.old.records position ballot) }
        ensures put { IfSome result (λ done. OnOk done
            (IsPut D.disk (record_text (Promised position ballot)) store.old store.new)) }
        ensures noted { IfSome result (λ done. OnOk done (self.new
            ≡ server_after self.old (writes (Promised position ballot) self.old.running []))) }
        ensures range { HasRecordRanges (Promised position ballot) }
        ensures unchanged { IfSome result (λ done. OnErr done (self.new ≡ self.old)) }
        ensures err { IfSome result (λ done. IfErr done (λ fault. IsNotPut D.disk
            (record_text (Promised position ballot)) store.old (fault_of fault) store.new)) }
        ensures none { IfNone result ((self.new ≡ self.old) × (store.new ≡ store.old)) }
    {
        let rec = Rec::Promised(position, ballot);
        record_in_range(&rec);
        if !self.acceptor.reserve_first_promise(position, ballot) {
            return None;
        }
        Some(put(store, &mut self.acceptor, &rec))
    }

    /// The same of a vote, if it is the first at its position and an `Accept` is answered with it.
    /// This is the text of its record.
    #[inline(always)]
    pub fn keep_first_vote<D: Device>(
        &mut self,
        store: &mut Store<D>,
        placed: &PlacedVote,
        text: &[u8],
    ) -> Option<Result<(), WriteFault>>
        requires working { store.old.failed ≡ false }
        requires right { IsRight placed.now.vote.action }
        requires text { text.now ≡ record_text (vote_record placed.now) }
        ensures first { IfSome result (λ _. IsFirstVote self.old.records
            placed.now.position placed.now.vote.ballot) }
        ensures put { IfSome result (λ done. OnOk done
            (IsPut D.disk (record_text (vote_record placed.now)) store.old store.new)) }
        ensures noted { IfSome result (λ done. OnOk done (self.new
            ≡ server_after self.old (writes (vote_record placed.now) self.old.running []))) }
        ensures range { HasRecordRanges (vote_record placed.now) }
        ensures unchanged { IfSome result (λ done. OnErr done (self.new ≡ self.old)) }
        ensures err { IfSome result (λ done. IfErr done (λ fault. IsNotPut D.disk
            (record_text (vote_record placed.now)) store.old (fault_of fault) store.new)) }
        ensures none { IfNone result ((self.new ≡ self.old) × (store.new ≡ store.old)) }
    {
        let PlacedVote { position, vote } = *placed;
        let rec = Rec::Voted(position, vote.ballot, vote.action);
        record_in_range(&rec);
        if !self.acceptor.reserve_first_vote(position, vote.ballot) {
            return None;
        }
        Some(put_text(store, &mut self.acceptor, &rec, text))
    }
}

/// Makes room to note the record.
#[inline(always)]
fn reserve(acceptor: &mut Acceptor, rec: &Rec) -> Result<(), AllocError>
    ensures room { OnOk result (HasRoom acceptor.new rec.now) }
    ensures records { acceptor.new.records ≡ acceptor.old.records }
{
    match *rec {
        Rec::Promised(position, _) => acceptor.reserve(position),
        Rec::Voted(position, _, _) => acceptor.reserve_vote(position),
        Rec::PromisedRange(range, _) => acceptor.reserve_range(range),
        Rec::Started(_) | Rec::Learned(_, _) => Ok(()),
    }
}

/// Writes the record, and notes it once it is stable.
#[inline(always)]
pub(crate) fn write<D: Device>(
    store: &mut Store<D>,
    acceptor: &mut Acceptor,
    rec: &Rec,
) -> Result<(), WriteFault>
    requires right { IsRightRecord rec.now }
    requires working { store.old.failed ≡ false }
    ensures put { OnOk result (IsPut D.disk (record_text rec.now) store.old store.new) }
    ensures noted { OnOk result (acceptor.new.records ≡ acceptor.old.records ++ rec.now ∷ []) }
    ensures range { HasRecordRanges rec.now }
    ensures unchanged { OnErr result (acceptor.new.records ≡ acceptor.old.records) }
    ensures err { IfErr result (λ fault.
        IsNotPut D.disk (record_text rec.now) store.old (fault_of fault) store.new) }
{
    record_in_range(rec);
    reserve(acceptor, rec)?;
    put(store, acceptor, rec)
}

/// The same, where this is the text of the record.
#[inline(always)]
pub(crate) fn write_text<D: Device>(
    store: &mut Store<D>,
    acceptor: &mut Acceptor,
    rec: &Rec,
    text: &[u8],
) -> Result<(), WriteFault>
    requires right { IsRightRecord rec.now }
    requires text { text.now ≡ record_text rec.now }
    requires working { store.old.failed ≡ false }
    ensures put { OnOk result (IsPut D.disk (record_text rec.now) store.old store.new) }
    ensures noted { OnOk result (acceptor.new.records ≡ acceptor.old.records ++ rec.now ∷ []) }
    ensures range { HasRecordRanges rec.now }
    ensures unchanged { OnErr result (acceptor.new.records ≡ acceptor.old.records) }
    ensures err { IfErr result (λ fault.
        IsNotPut D.disk (record_text rec.now) store.old (fault_of fault) store.new) }
{
    record_in_range(rec);
    reserve(acceptor, rec)?;
    put_text(store, acceptor, rec, text)
}

/// Writes the record and notes it, where there is room to note it.
#[inline(always)]
fn put<D: Device>(
    store: &mut Store<D>,
    acceptor: &mut Acceptor,
    rec: &Rec,
) -> Result<(), WriteFault>
    requires right { IsRightRecord rec.now }
    requires room { HasRoom acceptor.old rec.now }
    ensures put { OnOk result (IsPut D.disk (record_text rec.now) store.old store.new) }
    ensures noted { OnOk result (acceptor.new.records ≡ acceptor.old.records ++ rec.now ∷ []) }
    ensures unchanged { OnErr result (acceptor.new.records ≡ acceptor.old.records) }
    ensures err { IfErr result (λ fault.
        IsNotPut D.disk (record_text rec.now) store.old (fault_of fault) store.new) }
{
    store.put(rec)?;
    acceptor.note(rec);
    Ok(())
}

/// The same, where this is the text of the record.
#[inline(always)]
fn put_text<D: Device>(
    store: &mut Store<D>,
    acceptor: &mut Acceptor,
    rec: &Rec,
    text: &[u8],
) -> Result<(), WriteFault>
    requires right { IsRightRecord rec.now }
    requires room { HasRoom acceptor.old rec.now }
    requires text { text.now ≡ record_text rec.now }
    ensures put { OnOk result (IsPut D.disk (record_text rec.now) store.old store.new) }
    ensures noted { OnOk result (acceptor.new.records ≡ acceptor.old.records ++ rec.now ∷ []) }
    ensures unchanged { OnErr result (acceptor.new.records ≡ acceptor.old.records) }
    ensures err { IfErr result (λ fault.
        IsNotPut D.disk (record_text rec.now) store.old (fault_of fault) store.new) }
{
    store.put_text(text)?;
    acceptor.note(rec);
    Ok(())
}

/// Shows that each position and each ballot of a record is within its range.
pub fn record_in_range(rec: &Rec)
    ensures { HasRecordRanges rec.now }
{
    match rec {
        Rec::Started(ballot) => {
            let _number = ballot.get();
        }
        Rec::Promised(position, ballot) => {
            let _numbers = (position.get(), ballot.get());
        }
        Rec::Voted(position, ballot, _) => {
            let _numbers = (position.get(), ballot.get());
        }
        Rec::Learned(position, _) => {
            let _number = position.get();
        }
        Rec::PromisedRange(range, ballot) => {
            let _numbers = (range.count(), ballot.get());
        }
    }
}
