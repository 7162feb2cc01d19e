//! A promise for a range, committed (Lamport, "Paxos Made Simple", sections 2.2 and 3).

ghost use Rattle.std.specs.Prelude.{◌≡◌, [], ◌∷◌, Some, OnOk, OnErr, IfErr, IfOk, false};
ghost use Rattle.rp_base.specs.PlacedVotes.{last_votes};
ghost use Rattle.rp_base.specs.declared.record.Rec.TheVariants.{PromisedRange};
ghost use Rattle.rp_base.specs.WriteFaults.{fault_of};
ghost use Rattle.rp_codec.specs.declared.packet.Body.TheVariants as bodies;
ghost use Rattle.rp_model.specs.Says.{says, writes};
ghost use Rattle.rp_replica.specs.Committing.{Commits};
ghost use Rattle.rp_replica.specs.State.{server_of};
ghost use Rattle.rp_outbox.specs.Packets.{IsTextOf};
ghost use Rattle.rp_rules.specs.Plans.{MayPromiseRange};
ghost use Rattle.rp_replica.specs.Turning.{Stops};

use crate::replica::Replica;
use rp_base::{Rec, WriteFault};
use rp_codec::{Body, Packet, Party, Votes, encode};
use rp_machine::Machine;
use rp_model::{Dropped, RangePromise};
use rp_outbox::Outbox;
use rp_store::Device;
use std::alloc::{AllocError, Global};

impl<M: Machine, D: Device> Replica<M, D> {
    /// Writes a promise for a range, and sends it to the node that asked, with the last votes of
    /// the range. The packet takes memory, so its text is made first; it is sent once the record is
    /// written.
    #[inline(never)]
    pub(crate) fn promise_range(
        &mut self,
        alloc: Global,
        out: &mut Outbox,
        promise: &RangePromise,
    ) -> Result<(), WriteFault>
        requires working { self.old.failed ≡ false }
        requires may { MayPromiseRange (server_of self.old) promise.now }
        ensures ok { OnOk result
            (Commits (writes (PromisedRange promise.now.range promise.now.ballot)
            self.old.running (says self.old.me
            (bodies.PromiseRange promise.now.range promise.now.ballot
            (last_votes self.old.records promise.now.range)) promise.now.to ∷ []))
            self.old self.new out.old.sent out.new.sent) }
        ensures err { IfErr result (λ fault. Stops (Some
            (PromisedRange promise.now.range promise.now.ballot))
            self.old self.new (fault_of fault)) }
        ensures unsent { OnErr result (out.new.sent ≡ out.old.sent) }
    {
        let text = self.promise_text(alloc, promise)?;
        out.reserve_one(text.len())?;
        self.keep(&Rec::PromisedRange(promise.range, promise.ballot))?;
        out.put_text(&text);
        Ok(())
    }

    /// The text of a promise for a range, with the last votes of the range.
    fn promise_text(&self, alloc: Global, promise: &RangePromise) -> Result<Vec<u8>, AllocError>
        requires may { MayPromiseRange (server_of self.now) promise.now }
        ensures { IfOk result (λ text. IsTextOf text.items (says self.now.me
            (bodies.PromiseRange promise.now.range promise.now.ballot
            (last_votes self.now.records promise.now.range)) promise.now.to)) }
    {
        let RangePromise { to, range, ballot } = *promise;
        let votes = Votes::from_vec(self.server.last_votes(alloc, range)?);
        let stated = Body::PromiseRange {
            range,
            ballot,
            votes,
        };
        let packet = Packet::new(Party::Node(self.server.me()), Party::Node(to), stated);
        let _body = packet.body();
        encode(alloc, &packet)
    }
}
