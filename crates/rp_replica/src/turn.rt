//! A step of a replica: it decides, and then commits.

ghost use Rattle.std.specs.Prelude.{◌≡◌, ◌<◌, Some, Ok, IfErr, IsOk, OnOk, false, length, slice_get};
ghost use Rattle.rp_base.specs.Action.{IsRight};
ghost use Rattle.rp_base.specs.declared.action.Action.TheVariants as actions;
ghost use Rattle.rp_codec.specs.Decoding.{IsLongBody};
ghost use Rattle.rp_codec.specs.Message.{Message};
ghost use Rattle.rp_codec.specs.Reading.{all_of};
ghost use Rattle.rp_model.specs.Effect as inputs;
ghost use Rattle.rp_model.specs.Parts.{Turn};
ghost use Rattle.rp_rules.specs.Inputs.{IsLong, IsRightInput, packet_given};
ghost use Rattle.rp_rules.specs.Plans.{turn_of_plan, MayCommit};
ghost use Rattle.rp_replica.specs.Inputs.{replica_effect, effect_if_given, input_effect};
ghost use Rattle.rp_replica.specs.State.{server_of};
ghost use Rattle.rp_replica.specs.Turning.{Answers, AnswersOnto, IsCertain, StopsIf};

use crate::laws::texts_are_packets;
use crate::replica::Replica;
use crate::sent::Sent;
use rp_base::{Fault, Position, PositionRange};
use rp_machine::Machine;
use rp_model::{Dropped, Plan};
use rp_outbox::Outbox;
use rp_rules::{Input, decide, on_text};
use rp_store::Device;
use std::alloc::Global;
use std::mem::replace;

impl<M: Machine, D: Device> Replica<M, D> {
    /// What the step of an input does, or why there is no step: as `rp_rules` says, or `Failed`
    /// after the device failed. It writes the plan to `plan`, so that none is copied.
    #[inline(always)]
    pub(crate) fn decide(&self, alloc: Global, input: &Input, plan: &mut Plan) -> Result<(), Fault>
        requires right { IsRightInput input.now }
        ensures ok { OnOk result (Ok (turn_of_plan M.next M.answers (server_of self.now) plan.new)
            ≡ input_effect M.next M.answers self.now input.now) }
        ensures may { OnOk result (MayCommit (server_of self.now) plan.new) }
        ensures working { OnOk result (self.now.failed ≡ false) }
        ensures err { IfErr result (λ fault. StopsIf
            (input_effect M.next M.answers self.now input.now) self.now self.now fault) }
        ensures certain { (turn : Turn) → input_effect M.next M.answers self.now input.now ≡ Ok turn
            → (¬ IsLong input.now) → self.now.failed ≡ false → IsOk result }
    {
        if self.has_failed() {
            return Err(Fault::Failed);
        }
        decide(&self.server, alloc, input, plan)
    }

    /// One step of the node: at most one record is written, and the packets are given out once it
    /// is stable. Refused with `BadPacket` if the bytes are no packet's text, with `BallotsSpent`
    /// or `LogFull` if the node cannot lead, with `BadConfig` if it is to ask itself or no node of
    /// the configuration, or with `OutOfMemory`: then nothing has changed. A step that sends no
    /// packet, writes no record, counts no vote and reads no long packet is never out of memory.
    /// After `Device` the device has failed, and each further step is refused with `Failed`.
    pub fn turn(&mut self, alloc: Global, input: &Input) -> Result<Sent, Fault>
        requires right { IsRightInput input.now }
        ensures answer { Answers (input_effect M.next M.answers self.old input.now)
            self.old self.new result }
        ensures certain { (¬ IsLong input.now)
            → IsCertain (input_effect M.next M.answers self.old input.now) self.old result }
    {
        self.turn_with(alloc, Vec::new(alloc), &mut Vec::new(alloc), input)
    }

    /// The same, in buffers that the caller lends in place of new ones, whatever they hold: `bytes`
    /// comes back with the texts of the packets, and `ends` has the memory for the places where
    /// they end, so that steps that use them again take no memory for their packets.
    #[inline(always)]
    pub fn turn_with(
        &mut self,
        alloc: Global,
        bytes: Vec<u8>,
        ends: &mut Vec<usize>,
        input: &Input,
    ) -> Result<Sent, Fault>
        requires right { IsRightInput input.now }
        ensures answer { Answers (input_effect M.next M.answers self.old input.now)
            self.old self.new result }
        ensures certain { (¬ IsLong input.now)
            → IsCertain (input_effect M.next M.answers self.old input.now) self.old result }
    {
        let mut out = Outbox::over(bytes, replace(ends, Vec::new(alloc)));
        let answer = self.turn_into(alloc, &mut out, input);
        let (bytes, places) = out.into_parts();
        let packets = places.len();
        *ends = places;
        Ok(Sent {
            bytes,
            packets,
            dropped: answer?,
        })
    }

    /// The same, whose packets are put after those that were sent before; refused, it puts none.
    #[inline(always)]
    pub fn turn_into(
        &mut self,
        alloc: Global,
        out: &mut Outbox,
        input: &Input,
    ) -> Result<Dropped, Fault>
        requires right { IsRightInput input.now }
        // claim (answer): Each input of a replica has exactly the node's effect that the
        //   definitions give, or is refused for the one reason that they give and changes nothing;
        //   a device that fails holds a cut of the step
        // claim (answer): Bytes that encode a packet are handled as that packet, and refused with
        //   their reason if they encode none
        // claim (answer): If no position is given, the node leads at the least one that is not
        //   learned and at which no proposal runs but a prepared one
        // claim (answer): Interrupts and ticks become pending as the definition says
        // claim (answer): A report has the applied actions from a position on, as many as a packet
        //   takes
        ensures answer { AnswersOnto (input_effect M.next M.answers self.old input.now)
            self.old self.new out.old.sent out.new.sent result }
        // claim: A step that sends no packet, writes no record and counts no vote takes no memory:
        //   at a node that runs it takes effect, unless a long packet is read for it
        ensures certain { (¬ IsLong input.now)
            → IsCertain (input_effect M.next M.answers self.old input.now) self.old result }
    {
        let mut plan = Plan::Pass(Dropped::No);
        self.decide(alloc, input, &mut plan)?;
        self.commit(alloc, out, &plan)?;
        Ok(plan.dropped())
    }

    /// Handles a packet, given as its text. Refused with `BadPacket` if the bytes are no packet's
    /// text, and otherwise as `Replica` says. A packet that is for another node, from a node or for
    /// a position beyond the configuration, or in a ballot that its sender does not own, is
    /// dropped, and nothing happens.
    pub fn receive(&mut self, alloc: Global, bytes: &[u8]) -> Result<Sent, Fault>
        ensures { Answers (effect_if_given M.next M.answers self.old
            (packet_given (all_of bytes.now)))
            self.old self.new result }
    {
        self.turn(alloc, &Input::Receive(bytes))
    }

    /// The command to lead at a position, or with none at the least position that is not learned
    /// and at which no proposal of this node runs but a prepared one. A prepared proposal offers
    /// its action. If the position is learned nothing happens. It is refused with `LogFull`
    /// above the log or 64 positions above the first unlearned one, with `BallotsSpent` if the
    /// node has no ballot left, and then as `Replica` says.
    pub fn lead(&mut self, alloc: Global, choice: Option<Position>) -> Result<Sent, Fault>
        ensures { Answers (replica_effect M.next M.answers self.old (inputs.NodeInput.Lead choice))
            self.old self.new result }
    {
        self.turn(alloc, &Input::Lead(choice))
    }

    /// The command to lead at all positions of a range that are not learned, with one question for
    /// all of them. If all are learned nothing happens. It is refused with `LogFull` if one
    /// of them is above the log or 64 positions above the first unlearned one, with `BallotsSpent`
    /// if the node has no ballot left, and then as `Replica` says.
    pub fn lead_range(&mut self, alloc: Global, range: PositionRange) -> Result<Sent, Fault>
        ensures { Answers (replica_effect M.next M.answers self.old
            (inputs.NodeInput.LeadRange range.first range.count)) self.old self.new result }
    {
        self.turn(alloc, &Input::LeadRange(range))
    }

    /// The node notes an occurrence of an interrupt's source, 1 to 8 and from 1: it becomes pending
    /// unless it or a higher one counted, and is dropped if 32 items are pending. It takes no
    /// memory.
    pub fn interrupt(&mut self, alloc: Global, source: u8, occurrence: u32) -> Result<Sent, Fault>
        requires right { IsRight (actions.Interrupt source occurrence) }
        ensures answer { Answers (replica_effect M.next M.answers self.old
            (inputs.NodeInput.Interrupt source occurrence))
            self.old self.new result }
        ensures certain { self.old.failed ≡ false → IsOk result }
    {
        self.turn(alloc, &Input::Interrupt { source, occurrence })
    }

    /// The node notes a tick of the clock: it becomes pending, and is dropped if 32 items are
    /// pending. It takes no memory.
    pub fn tick(&mut self, alloc: Global, now: u32) -> Result<Sent, Fault>
        ensures answer { Answers (replica_effect M.next M.answers self.old (inputs.NodeInput.Tick now))
            self.old self.new result }
        ensures certain { self.old.failed ≡ false → IsOk result }
    {
        self.turn(alloc, &Input::Tick { now })
    }

    /// A report to the audit of the actions applied at the positions from `first` on, as many as
    /// `report_len` says. It copies what it reports and no more. Refused with `OutOfMemory` or
    /// `Failed`.
    pub fn report(&mut self, alloc: Global, first: Position) -> Result<Sent, Fault>
        ensures { Answers (replica_effect M.next M.answers self.old (inputs.NodeInput.Report first))
            self.old self.new result }
    {
        self.turn(alloc, &Input::Report(first))
    }
}
