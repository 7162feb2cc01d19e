//! A node that answers requests.

ghost use Rattle.std.specs.Prelude.{◌≡◌, ◌≤◌, ◌&&◌, nat_eq, [], ◌∷◌, length, false, Some, IfErr, OnErr, OnOk};
ghost use Rattle.rp_replica.specs.Inputs.{input_effect};
ghost use Rattle.rp_replica.specs.Turning.{StopsIf};
ghost use Rattle.rp_replica.specs.rp_rules.specs.Inputs.{IsRightInput, given_by};
ghost use Rattle.rp_requests.specs.Buffers.{Puts, PutsOr, with_front};
ghost use Rattle.rp_requests.specs.Nodes.{RequestAnswers, GivenAnswers, ImageAnswers, StepAnswers, StepMade, after_early, image_of, is_at_end, positions_left, step_refusal};
ghost use Rattle.rp_requests.specs.Timing.{comes_early, comes_late};
ghost use Rattle.rp_requests.specs.declared.not_taken.NotTaken.TheVariants.{Nothing};
ghost use Rattle.rp_requests.specs.Requests.{IsRightRequest, asked, asked_of};

use crate::buffer::{Lengths, put, put_front, put_parts};
use crate::not_taken::NotTaken;
use crate::refusal::Refusal;
use crate::request::{Request, request_of};
use rp_base::{Config, Fault};
use rp_machine::Machine;
use rp_outbox::Outbox;
use rp_replica::{Input, Replica};
use rp_store::MemDevice;
use std::alloc::Global;
use std::marker::Model;
use std::mem::swap;

/// The fewest bytes of a buffer for the answer of a step.
pub const STEP_BYTES: usize = 8192;

/// A node leads at positions less than this above the first that is not learned.
const WINDOW: u32 = 64;

/// A node with a copy of its device.
#[derive(Drop)]
pub struct HandleNode<M: Machine> {
    pub(crate) replica: Replica<M, MemDevice>,
    /// How many positions the log has.
    pub(crate) positions: u16,
    /// Where on the device the record of the last step begins.
    last_record: usize,
    /// The packets of the last step.
    last_packets: Outbox,
    /// What the node did not take in the last step.
    not_taken: NotTaken,
    /// Whether a call came that could not count, and the node has applied nothing since.
    pub(crate) had_early: bool,
    /// Where the packets of the next step are put, in the memory of those of an earlier one.
    next_packets: Outbox,
}

impl<M: Machine> Model for HandleNode<M> {
    ghost use Rattle.std.specs.Prelude.{◌≡◌, ◌≤◌, drop, length};
    ghost use Rattle.rp_replica.specs.rp_outbox.specs.Packets.{ends_of, texts_of};
    ghost use Rattle.rp_requests.specs.Nodes.{NodeState};

    ghost Value = { NodeState M };

    ghost view = { λ n. record {
      replica = n.replica;
      stored = drop n.last_record n.replica.disk.contents;
      packets = texts_of n.last_packets.sent;
      ends = ends_of 0 n.last_packets.sent;
      not_taken = n.not_taken;
      had_early = n.had_early;
    } };

    ghost invariant = { λ n. (n.last_record ≤ length n.replica.disk.contents)
        × (n.positions ≡ n.replica.config.max_positions) };
}

impl<M: Machine> HandleNode<M> {
    /// A node that was just opened, and has made no step.
    pub(crate) fn new(alloc: Global, replica: Replica<M, MemDevice>, config: Config) -> Self
        requires { config ≡ replica.config }
        ensures { result ≡ record {
          replica = replica;
          stored = [];
          packets = [];
          ends = [];
          not_taken = Nothing;
          had_early = false;
        } }
    {
        let last_record = replica.stored() as usize;
        HandleNode {
            replica,
            positions: config.max_positions,
            last_record,
            last_packets: Outbox::new(alloc),
            not_taken: NotTaken::Nothing,
            had_early: false,
            next_packets: Outbox::new(alloc),
        }
    }

    /// Answers a request. The answer of a step is first the bytes that the caller appends to its
    /// device and syncs, and then the packets that it sends after that; a step's buffer has at
    /// least `STEP_BYTES` bytes. Refused with `BadRequest` if the bytes are no request, with
    /// `ShortAnswer` if the buffer is too short, with `LongAnswer` if the step was made and its
    /// answer is longer than the buffer, and otherwise as `Replica::turn`, but never with `Device`,
    /// and with `TooFar` in place of `LogFull` if the log has not ended.
    #[inline(always)]
    pub fn call(
        &mut self,
        alloc: Global,
        request: &[u8],
        answer: &mut [u8],
    ) -> Result<Lengths, Refusal>
        // claim: A node by handle makes of each request what its bytes ask for: a step has the effect
        //   that the definitions give, and its answer is the record to be stored and then the packets;
        //   a question changes nothing; and what is refused changes nothing
        ensures { RequestAnswers M.next M.answers M.image (asked_of request.now) self.old self.new
            answer.old answer.new result }
    {
        match request {
            [1, packet @ ..] => self.receive(alloc, packet, answer),
            _ => self.answer(alloc, request, answer),
        }
    }

    /// Answers a request of any kind, as `call`, which gives those that bring a packet, by far the
    /// most, to `receive`.
    #[inline(never)]
    fn answer(
        &mut self,
        alloc: Global,
        request: &[u8],
        answer: &mut [u8],
    ) -> Result<Lengths, Refusal>
        ensures { RequestAnswers M.next M.answers M.image (asked_of request.now) self.old self.new
            answer.old answer.new result }
    {
        match request_of(request) {
            Some(request) => self.serve(alloc, &request, answer),
            None => Err(Refusal::BadRequest),
        }
    }

    /// Answers a request that was read.
    fn serve(
        &mut self,
        alloc: Global,
        request: &Request<'_>,
        answer: &mut [u8],
    ) -> Result<Lengths, Refusal>
        requires { IsRightRequest request.now }
        ensures { RequestAnswers M.next M.answers M.image (Some (asked request.now)) self.old self.new
            answer.old answer.new result }
    {
        match request {
            Request::Step(input) => self.step(alloc, input, answer),
            Request::Applied => put(&self.replica.applied().to_be_bytes(), answer),
            Request::Image => self.put_image(alloc, answer),
            Request::LastAnswer => match self.put_last(answer) {
                Ok(lengths) => Ok(lengths),
                Err(needed) => Err(Refusal::ShortAnswer(needed)),
            },
            Request::Left => put(&self.left().to_be_bytes(), answer),
            Request::Pending => put(&self.free_pending().to_be_bytes(), answer),
            Request::Counted(task) => self.put_counted(*task, answer),
            Request::Occurred(source) => self.put_occurred(*source, answer),
        }
    }

    /// Answers the request that brings a packet, as `call`, by the packet alone.
    #[inline(always)]
    #[tactic(auto, unfolding(crate::specs::Requests::asked_of, crate::specs::Requests::asked_of_kind))]
    pub fn receive(
        &mut self,
        alloc: Global,
        packet: &[u8],
        answer: &mut [u8],
    ) -> Result<Lengths, Refusal>
        // claim: A node by handle makes of a packet alone what it makes of the request that brings it
        ensures { RequestAnswers M.next M.answers M.image (asked_of (1 ∷ packet.now)) self.old self.new
            answer.old answer.new result }
    {
        self.step(alloc, &Input::Receive(packet), answer)
    }

    /// Makes a step. A call that cannot count now is not taken: nothing happens, as if its packet
    /// were lost.
    #[inline(always)]
    fn step(
        &mut self,
        alloc: Global,
        input: &Input<'_>,
        answer: &mut [u8],
    ) -> Result<Lengths, Refusal>
        requires { IsRightInput input.now }
        ensures { GivenAnswers (comes_early M.next M.answers self.old.replica (given_by input.now))
            (input_effect M.next M.answers self.old.replica input.now)
            (is_at_end self.old.replica (given_by input.now))
            (comes_late M.next M.answers self.old.replica (given_by input.now))
            self.old self.new answer.old answer.new result }
    {
        if answer.len() < STEP_BYTES {
            return Err(Refusal::ShortAnswer(STEP_BYTES));
        }
        if self.comes_early(alloc, input) {
            self.pass_over();
            return Ok(Lengths { stored: 0, used: 0 });
        }
        self.take(alloc, input, answer)
    }

    /// Makes a step that takes what comes.
    #[inline(always)]
    fn take(
        &mut self,
        alloc: Global,
        input: &Input<'_>,
        answer: &mut [u8],
    ) -> Result<Lengths, Refusal>
        requires right { IsRightInput input.now }
        requires room { 8192 ≤ length answer.old }
        ensures { StepAnswers (input_effect M.next M.answers self.old.replica input.now)
            (is_at_end self.old.replica (given_by input.now))
            (comes_late M.next M.answers self.old.replica (given_by input.now))
            self.old self.new answer.old answer.new result }
    {
        match self.turn(alloc, input) {
            Ok(()) => match self.put_last(answer) {
                Ok(lengths) => Ok(lengths),
                Err(needed) => Err(Refusal::LongAnswer(needed)),
            },
            Err(fault) => Err(step_refusal(fault, self.is_at_end(input))),
        }
    }

    /// Takes no call that cannot count now: there is nothing to store and nothing to send.
    fn pass_over(&mut self)
        ensures { self.new ≡ after_early self.old }
    {
        self.last_record = self.replica.stored() as usize;
        self.last_packets.clear();
        self.not_taken = NotTaken::Early;
        self.had_early = true;
    }

    /// Makes a step of which no answer is put into a buffer yet.
    #[inline(always)]
    fn turn(&mut self, alloc: Global, input: &Input<'_>) -> Result<(), Fault>
        requires { IsRightInput input.now }
        ensures ok { OnOk result (StepMade
            (input_effect M.next M.answers self.old.replica input.now)
            (comes_late M.next M.answers self.old.replica (given_by input.now)) self.old self.new) }
        ensures same { OnErr result (self.new ≡ self.old) }
        ensures err { IfErr result (λ fault. StopsIf
            (input_effect M.next M.answers self.old.replica input.now)
            self.old.replica self.old.replica fault) }
    {
        let stale = self.comes_late(input);
        let before = self.replica.stored() as usize;
        let applied = self.replica.applied();
        self.next_packets.clear();
        let turned = self.replica.turn_into(alloc, &mut self.next_packets, input);
        self.replica.never_failed();
        match turned {
            Ok(dropped) => {
                swap(&mut self.last_packets, &mut self.next_packets);
                self.last_record = before;
                self.not_taken = NotTaken::of(stale, dropped);
                self.had_early = is_still(self.had_early, self.replica.applied(), applied);
                Ok(())
            }
            Err(fault) => Err(fault),
        }
    }

    /// Whether a lead that is out of reach is so for the end of the log.
    fn is_at_end(&self, input: &Input<'_>) -> bool
        ensures { result ≡ is_at_end self.now.replica (given_by input.now) }
    {
        match input {
            Input::Lead(Some(position)) => self.positions < position.get(),
            Input::Lead(None) => self.left() <= WINDOW,
            Input::LeadRange(range) => self.positions < range.last().get(),
            _ => true,
        }
    }

    /// How many positions of the log are not applied.
    fn left(&self) -> u32
        ensures { result ≡ positions_left self.now.replica }
    {
        u32::from(self.positions).saturating_sub(self.replica.applied())
    }

    /// Puts where each packet of the last step ends, counted from the first byte of its packets, at
    /// the front of the array, as many as it has room for; returns how many packets there are.
    pub fn put_ends(&self, ends: &mut [usize]) -> usize
        // claim (ends): A caller learns where each packet of a step ends
        ensures ends { ends.new ≡ with_front self.now.ends ends.old }
        ensures count { result ≡ length self.now.ends }
    {
        let last = self.last_packets.ends();
        put_front(last, ends);
        last.len()
    }

    /// What the node did not take in the last step.
    pub fn not_taken(&self) -> NotTaken
        // claim: A caller learns what a step of its node did not take
        ensures { result ≡ self.now.not_taken }
    {
        self.not_taken
    }

    /// Puts the answer of the last step into the buffer, if it fits; otherwise returns its length.
    #[inline(always)]
    fn put_last(&self, answer: &mut [u8]) -> Result<Lengths, usize>
        ensures { Puts self.now.stored self.now.packets answer.old answer.new result }
    {
        let (_, record) = device_bytes(&self.replica).split_at(self.last_record);
        put_parts(record, self.last_packets.texts(), answer)
    }

    /// Puts the lines that show the objects into the buffer, if they fit.
    fn put_image(&self, alloc: Global, answer: &mut [u8]) -> Result<Lengths, Refusal>
        ensures { ImageAnswers (image_of M.next M.answers M.image self.now)
            answer.old answer.new result }
    {
        match self.replica.image(alloc) {
            Ok(image) => put(&image, answer),
            Err(fault) => Err(Refusal::Fault(fault)),
        }
    }
}

/// The refusal of a step for a fault, by whether a lead that is out of reach is so for the end of the
/// log.
fn step_refusal(fault: Fault, at_end: bool) -> Refusal
    ensures { result ≡ step_refusal at_end fault }
{
    match fault {
        Fault::LogFull if !at_end => Refusal::TooFar,
        _ => Refusal::Fault(fault),
    }
}

/// Whether what was so still is, where nothing was applied since.
fn is_still(so: bool, applied: u32, before: u32) -> bool
    ensures { result ≡ (so && nat_eq applied before) }
{
    so && applied == before
}

/// The bytes of a replica's device, in place.
fn device_bytes<M: Machine>(replica: &Replica<M, MemDevice>) -> &[u8]
    ensures { result.now ≡ replica.now.disk.contents }
{
    replica.device().contents()
}
