//! The packets that are sent, in one run of bytes.

ghost use Rattle.std.specs.Prelude.{◌≡◌, ◌+◌, ◌*◌, ◌^◌, ◌≤◌, ◌<◌, ◌++◌, ◌∷◌, [], ℕ, length, max, take, slice_get, slice_set, Some, option_copied, option_map, OnOk, OnErr, IfSome};
ghost use Rattle.rp_model.specs.rp_base.specs.Action.{IsCount, IsRight};
ghost use Rattle.rp_model.specs.rp_codec.specs.Decoding.{IsLongBody};
ghost use Rattle.rp_model.specs.rp_codec.specs.Message.{Message, IsPacket, IsVoteBelow, MaySay};
ghost use Rattle.rp_model.specs.rp_codec.specs.Tails.{decision_text};
ghost use Rattle.rp_model.specs.rp_codec.specs.Text.{text_of, vote_text};
ghost use Rattle.rp_model.specs.rp_codec.specs.Usual.{IsHeader};
ghost use Rattle.rp_model.specs.rp_codec.specs.declared.packet.Party.TheVariants.{Node};
ghost use Rattle.rp_model.specs.rp_codec.specs.declared.packet.Body.{Body};
ghost use Rattle.rp_model.specs.rp_codec.specs.declared.packet.Body.TheVariants.{Prepare, Promise, Accept, Accepted, Decided, Reply as Answered};
ghost use Rattle.rp_model.specs.Says.{says, says_to_all, says_to_others, says_to_task};
ghost use Rattle.rp_outbox.specs.Packets.{IsTextOf, IsRun, packets_in, ends_of, texts_of, longest_text};

use rp_base::{Action, Answer, NodeId, Reply, Vote};
use rp_codec::{
    Body, DecisionTail, Header, LONGEST_TEXT, Packet, Party, RECEIVER, SentDecision, SentReply,
    VoteTail, accept_text, accepted_by, accepted_text, decided_by, decided_text, encode_onto,
    is_call, prepare_text, promise_text, text_of_packet, value_reply_text,
};
use std::alloc::{AllocError, Global};
use std::marker::Model;

/// How many bytes of room are made at most beyond those that are asked for. Room is cleared when it
/// is made, and more than this is not cleared faster.
const ROOM: usize = 1536;

/// Packets that are sent: their texts in one run of bytes, with the place where each ends. After
/// the texts there is room; what is put into it takes no memory, and moves no more than its bytes.
#[derive(Drop)]
pub struct Outbox {
    bytes: Vec<u8>,
    used: usize,
    ends: Vec<usize>,
}

impl Model for Outbox {
    ghost use Rattle.std.specs.Prelude.{◌-◌, ◌*◌, ◌≤◌, min, nat_eq, if◌then◌else◌, length, take, vec_len, vec_capacity};
    ghost use Rattle.rp_outbox.specs.Packets.{Sending, IsRun, packets_in, longest_text};

    ghost Value = { Sending };

    ghost view = { λ o. record {
      sent = packets_in (length o.ends.items) (take o.used o.bytes.items);
      room = min (length o.bytes.items - o.used)
          (longest_text * (vec_capacity o.ends - vec_len o.ends));
      room_for_one = if nat_eq (vec_capacity o.ends - vec_len o.ends) 0 then 0
          else length o.bytes.items - o.used;
    } };

    ghost invariant = { λ o. (o.used ≤ length o.bytes.items)
        × IsRun (take o.used o.bytes.items) o.ends.items };
}

impl Outbox {
    /// No packet yet. It takes no memory.
    pub fn new(alloc: Global) -> Self
        ensures { result.sent ≡ [] }
    {
        Outbox {
            bytes: Vec::new(alloc),
            used: 0,
            ends: Vec::new(alloc),
        }
    }

    /// No packet yet, in these buffers, in place of what they hold.
    pub fn over(bytes: Vec<u8>, ends: Vec<usize>) -> Self
        ensures { result.sent ≡ [] }
    {
        let mut ends = ends;
        ends.clear();
        Outbox {
            bytes,
            used: 0,
            ends,
        }
    }

    /// The texts, joined in order, and where each ends.
    pub fn into_parts(self) -> (Vec<u8>, Vec<usize>)
        ensures bytes { result.0.items ≡ texts_of self.sent }
        ensures ends { result.1.items ≡ ends_of 0 self.sent }
    {
        let Outbox { bytes, used, ends } = self;
        let mut bytes = bytes;
        bytes.truncate(used);
        (bytes, ends)
    }

    /// No packet any more. The room stays, and grows by what they took.
    pub fn clear(&mut self)
        ensures { self.new.sent ≡ [] }
    {
        self.used = 0;
        self.ends.clear();
    }

    /// The texts, joined in order, in place.
    pub fn texts(&self) -> &[u8]
        ensures { result.now ≡ texts_of self.now.sent }
    {
        let (texts, _) = self.bytes.split_at(self.used);
        texts
    }

    /// Where each text ends, in place.
    pub fn ends(&self) -> &[usize]
        ensures { result.now ≡ ends_of 0 self.now.sent }
    {
        &self.ends
    }

    /// How many packets there are.
    #[inline(always)]
    pub fn count(&self) -> usize
        ensures value { result ≡ length self.now.sent }
        ensures few { result < 2 ^ 63 }
    {
        let _bytes = &self.bytes;
        self.ends.len()
    }

    /// The text of the packet of a place, from 0.
    #[inline(always)]
    pub fn text(&self, place: usize) -> Option<&[u8]>
        // claim: The text of each packet of an outbox is found by its place
        ensures text { option_copied result ≡ option_map text_of (slice_get self.now.sent place) }
        ensures right { (m : Message) → slice_get self.now.sent place ≡ Some m → IsPacket m }
    {
        if place >= self.ends.len() {
            return None;
        }
        Some(text_between(&self.bytes[..self.used], self.ends.as_slice(), place))
    }

    /// Makes room for as many packets more, at most 64 of them, if none takes memory.
    #[inline(always)]
    pub fn reserve(&mut self, packets: usize) -> Result<(), AllocError>
        requires few { packets ≤ 64 }
        ensures sent { self.new.sent ≡ self.old.sent }
        ensures room { OnOk result (longest_text * packets ≤ self.new.room) }
    {
        reserve_bytes(&mut self.bytes, self.used, LONGEST_TEXT * packets)?;
        self.ends.reserve(packets)
    }

    /// Makes room for one packet more, of this many bytes.
    pub fn reserve_one(&mut self, bytes: usize) -> Result<(), AllocError>
        ensures sent { self.new.sent ≡ self.old.sent }
        ensures room { OnOk result (bytes ≤ self.new.room_for_one) }
    {
        reserve_bytes(&mut self.bytes, self.used, bytes)?;
        self.ends.reserve(1)
    }

    /// One packet more, as its text, into the room.
    #[inline(always)]
    pub fn put_text(&mut self, text: &[u8])
        requires packet { (m : Message) × IsTextOf text.now m }
        requires room { length text.now ≤ self.old.room_for_one }
        ensures sent { (m : Message) → IsTextOf text.now m
            → self.new.sent ≡ self.old.sent ++ m ∷ [] }
        ensures room { self.old.room ≤ self.new.room + max longest_text (length text.now) }
    {
        let end = write_text(&mut self.bytes, self.used, text);
        self.used = end;
        self.ends.push_reserved(end);
    }

    /// One packet more. Where memory is refused, the packets stay as they are.
    pub fn push(&mut self, packet: &Packet) -> Result<(), AllocError>
        ensures ok { OnOk result (self.new.sent ≡ self.old.sent ++ packet.now ∷ []) }
        ensures err { OnErr result (self.new.sent ≡ self.old.sent) }
    {
        let _body = packet.body();
        self.ends.reserve(1)?;
        self.bytes.truncate(self.used);
        encode_onto(packet, &mut self.bytes)?;
        let end = self.bytes.len();
        self.used = end;
        self.ends.push_reserved(end);
        Ok(())
    }

    /// The text of one packet more, of at most 40 bytes, into the room.
    #[inline(always)]
    fn put_short(&mut self, text: &[u8])
        requires packet { (m : Message) × IsTextOf text.now m }
        requires short { length text.now ≤ longest_text }
        requires room { longest_text ≤ self.old.room }
        ensures sent { (m : Message) → IsTextOf text.now m
            → self.new.sent ≡ self.old.sent ++ m ∷ [] }
        ensures room { self.old.room ≤ self.new.room + longest_text }
    {
        let end = write_text(&mut self.bytes, self.used, text);
        self.used = end;
        self.ends.push_reserved(end);
    }

    /// A text between nodes, with this node as its receiver, into the room.
    #[inline(always)]
    fn put_to(&mut self, text: &[u8], to: NodeId)
        requires packet { (m : Message) × IsTextOf (slice_set text.now 3 to) m }
        requires receiver { 3 < length text.now }
        requires short { length text.now ≤ longest_text }
        requires room { longest_text ≤ self.old.room }
        ensures sent { (m : Message) → IsTextOf (slice_set text.now 3 to) m
            → self.new.sent ≡ self.old.sent ++ m ∷ [] }
        ensures room { self.old.room ≤ self.new.room + longest_text }
    {
        let receiver = self.used + RECEIVER;
        let end = write_text(&mut self.bytes, self.used, text);
        self.bytes[receiver] = to.get();
        self.used = end;
        self.ends.push_reserved(end);
    }

    /// The text of a packet of a node to itself, with each node as its receiver, into the room.
    #[inline(always)]
    fn put_to_all(&mut self, text: &[u8], nodes: u8)
        requires nodes { nodes ≤ 7 }
        requires packet { (me : ℕ) × ((body : Body) × IsTextOf text.now (says me body me)) }
        requires short { length text.now ≤ longest_text }
        requires room { longest_text * nodes ≤ self.old.room }
        ensures sent { (me : ℕ) (body : Body) → IsTextOf text.now (says me body me)
            → self.new.sent ≡ self.old.sent ++ says_to_all nodes me body }
        ensures room { self.old.room ≤ self.new.room + longest_text * nodes }
    {
        for place in 0..nodes {
            self.put_to(text, node_after(place));
        }
    }

    /// The text of a packet of this node to itself, with each other node as its receiver, into the
    /// room.
    #[inline(always)]
    fn put_to_others(&mut self, text: &[u8], me: NodeId, nodes: u8)
        requires nodes { nodes ≤ 7 }
        requires packet { (body : Body) × IsTextOf text.now (says me body me) }
        requires short { length text.now ≤ longest_text }
        requires room { longest_text * nodes ≤ self.old.room }
        ensures sent { (body : Body) → IsTextOf text.now (says me body me)
            → self.new.sent ≡ self.old.sent ++ says_to_others nodes me body }
        ensures room { self.old.room ≤ self.new.room + longest_text * nodes }
    {
        for place in 0..nodes {
            let to = node_after(place);
            if to != me {
                self.put_to(text, to);
            }
        }
    }

    /// One packet more, which takes no memory, into the room.
    #[inline(always)]
    pub fn put(&mut self, packet: &Packet)
        requires short { ¬ IsLongBody packet.now.body }
        requires room { longest_text ≤ self.old.room }
        ensures sent { self.new.sent ≡ self.old.sent ++ packet.now ∷ [] }
        ensures room { self.old.room ≤ self.new.room + longest_text }
    {
        let _body = packet.body();
        self.put_short(text_of_packet(packet).as_slice());
    }

    /// One packet more, from node to node, which takes no memory, into the room.
    #[inline(always)]
    pub fn say(&mut self, me: NodeId, to: NodeId, body: Body)
        requires may { MaySay (Node me) (Node to) body }
        requires short { ¬ IsLongBody body }
        requires room { longest_text ≤ self.old.room }
        ensures sent { self.new.sent ≡ self.old.sent ++ says me body to ∷ [] }
        ensures room { self.old.room ≤ self.new.room + longest_text }
    {
        self.put(&Packet::new(Party::Node(me), Party::Node(to), body));
    }

    /// A packet to each node, itself too, into the room. Its text is made once.
    pub fn say_to_all(&mut self, me: NodeId, nodes: u8, body: Body)
        requires nodes { nodes ≤ 7 }
        requires may { MaySay (Node me) (Node me) body }
        requires short { ¬ IsLongBody body }
        requires room { longest_text * nodes ≤ self.old.room }
        ensures sent { self.new.sent ≡ self.old.sent ++ says_to_all nodes me body }
        ensures room { self.old.room ≤ self.new.room + longest_text * nodes }
    {
        let packet = Packet::new(Party::Node(me), Party::Node(me), body);
        let _body = packet.body();
        self.put_to_all(text_of_packet(&packet).as_slice(), nodes);
    }

    /// A packet to each other node, into the room. Its text is made once.
    pub fn say_to_others(&mut self, me: NodeId, nodes: u8, body: Body)
        requires nodes { nodes ≤ 7 }
        requires may { MaySay (Node me) (Node me) body }
        requires short { ¬ IsLongBody body }
        requires room { longest_text * nodes ≤ self.old.room }
        ensures sent { self.new.sent ≡ self.old.sent ++ says_to_others nodes me body }
        ensures room { self.old.room ≤ self.new.room + longest_text * nodes }
    {
        let packet = Packet::new(Party::Node(me), Party::Node(me), body);
        let _body = packet.body();
        self.put_to_others(text_of_packet(&packet).as_slice(), me, nodes);
    }

    /// A promise, with the last vote, into the room.
    #[inline(always)]
    pub fn promise(&mut self, header: Header, last: Option<Vote>)
        requires below { IfSome last (IsVoteBelow header.ballot) }
        requires room { longest_text ≤ self.old.room }
        ensures sent { self.new.sent ≡ self.old.sent
            ++ says header.from (Promise header.position header.ballot last) header.to ∷ [] }
        ensures room { self.old.room ≤ self.new.room + longest_text }
    {
        if last.is_none() {
            header_in_range(&header);
            self.put_short(&promise_text(header));
            return;
        }
        let Header {
            from,
            to,
            position,
            ballot,
        } = header;
        self.say(
            from,
            to,
            Body::Promise {
                position,
                ballot,
                last,
            },
        );
    }

    /// A vote, into the room.
    #[inline(always)]
    pub fn accepted(&mut self, header: Header, action: &Action)
        requires right { IsRight action.now }
        requires room { longest_text ≤ self.old.room }
        ensures sent { self.new.sent ≡ self.old.sent
            ++ says header.from (Accepted header.position header.ballot action.now) header.to ∷ [] }
        ensures room { self.old.room ≤ self.new.room + longest_text }
    {
        if is_call(action) {
            header_in_range(&header);
            self.put_short(&accepted_text(header, action));
            return;
        }
        let Header {
            from,
            to,
            position,
            ballot,
        } = header;
        let action = *action;
        self.say(
            from,
            to,
            Body::Accepted {
                position,
                ballot,
                action,
            },
        );
    }

    /// A vote, into the room, whose text is made of how that of the accept ends.
    #[inline(always)]
    pub fn accepted_by(&mut self, header: Header, action: &Action, tail: &VoteTail)
        requires right { IsRight action.now }
        requires tail { tail.now ≡ vote_text header.position header.ballot action.now }
        requires room { longest_text ≤ self.old.room }
        ensures sent { self.new.sent ≡ self.old.sent
            ++ says header.from (Accepted header.position header.ballot action.now) header.to ∷ [] }
        ensures room { self.old.room ≤ self.new.room + longest_text }
    {
        let _action = action;
        header_in_range(&header);
        self.put_short(&accepted_by(header, tail));
    }

    /// A prepare to each node, from the node of the header, itself too, into the room.
    #[inline(always)]
    pub fn prepare_all(&mut self, header: Header, nodes: u8)
        requires itself { header.to ≡ header.from }
        requires nodes { nodes ≤ 7 }
        requires room { longest_text * nodes ≤ self.old.room }
        ensures sent { self.new.sent ≡ self.old.sent
            ++ says_to_all nodes header.from (Prepare header.position header.ballot) }
        ensures room { self.old.room ≤ self.new.room + longest_text * nodes }
    {
        header_in_range(&header);
        self.put_to_all(&prepare_text(header), nodes);
    }

    /// An accept to each node, from the node of the header, itself too, into the room.
    #[inline(always)]
    pub fn accept_all(&mut self, header: Header, action: &Action, nodes: u8)
        requires itself { header.to ≡ header.from }
        requires nodes { nodes ≤ 7 }
        requires right { IsRight action.now }
        requires room { longest_text * nodes ≤ self.old.room }
        ensures sent { self.new.sent ≡ self.old.sent
            ++ says_to_all nodes header.from (Accept header.position header.ballot action.now) }
        ensures room { self.old.room ≤ self.new.room + longest_text * nodes }
    {
        if is_call(action) {
            header_in_range(&header);
            self.put_to_all(&accept_text(header, action), nodes);
            return;
        }
        let Header {
            from,
            position,
            ballot,
            ..
        } = header;
        let action = *action;
        self.say_to_all(
            from,
            nodes,
            Body::Accept {
                position,
                ballot,
                action,
            },
        );
    }

    /// A decision of a node to each other node, into the room.
    #[inline(always)]
    pub fn inform_others(&mut self, decision: &SentDecision, nodes: u8)
        requires itself { decision.now.to ≡ decision.now.from }
        requires nodes { nodes ≤ 7 }
        requires right { IsRight decision.now.action }
        requires room { longest_text * nodes ≤ self.old.room }
        ensures sent { self.new.sent ≡ self.old.sent ++ says_to_others nodes decision.now.from
            (Decided decision.now.position decision.now.action) }
        ensures room { self.old.room ≤ self.new.room + longest_text * nodes }
    {
        let SentDecision {
            from,
            position,
            action,
            ..
        } = *decision;
        if is_call(&action) {
            let _numbers = (from.get(), position.get());
            self.put_to_others(&decided_text(decision), from, nodes);
            return;
        }
        self.say_to_others(from, nodes, Body::Decided { position, action });
    }

    /// A decision of a node to each other node, into the room, whose text is made of how that of a
    /// vote or of a decision ends.
    #[inline(always)]
    pub fn inform_others_by(&mut self, decision: &SentDecision, tail: &DecisionTail, nodes: u8)
        requires itself { decision.now.to ≡ decision.now.from }
        requires nodes { nodes ≤ 7 }
        requires right { IsRight decision.now.action }
        requires tail { tail.now ≡ decision_text decision.now.position decision.now.action }
        requires room { longest_text * nodes ≤ self.old.room }
        ensures sent { self.new.sent ≡ self.old.sent ++ says_to_others nodes decision.now.from
            (Decided decision.now.position decision.now.action) }
        ensures room { self.old.room ≤ self.new.room + longest_text * nodes }
    {
        let SentDecision { from, position, .. } = *decision;
        let _numbers = (from.get(), position.get());
        self.put_to_others(&decided_by(decision, tail), from, nodes);
    }

    /// A reply more, to the call of an answer, into the room.
    pub fn reply(&mut self, me: NodeId, answer: &Answer)
        requires count { IsCount answer.now.number }
        requires room { longest_text ≤ self.old.room }
        ensures sent { self.new.sent ≡ self.old.sent ++ says_to_task me
            (Answered answer.now.number answer.now.reply) answer.now.task ∷ [] }
        ensures room { self.old.room ≤ self.new.room + longest_text }
    {
        let Answer {
            task,
            number,
            reply,
        } = *answer;
        if let Reply::Value(value) = reply {
            let _numbers = (me.get(), task.get());
            let sent = SentReply {
                from: me,
                task,
                number,
                reply,
            };
            self.put_short(&value_reply_text(&sent, value));
            return;
        }
        let body = Body::Reply { number, reply };
        self.put(&Packet::new(Party::Node(me), Party::Task(task), body));
    }
}

/// Makes room for as many bytes more after those that are used. If it is refused, the bytes stay as
/// they are.
#[inline(always)]
fn reserve_bytes(bytes: &mut Vec<u8>, used: usize, more: usize) -> Result<(), AllocError>
    requires used { used ≤ length bytes.old.items }
    ensures used { used ≤ length bytes.new.items }
    ensures kept { take used bytes.new.items ≡ take used bytes.old.items }
    ensures room { OnOk result (used + more ≤ length bytes.new.items) }
{
    if bytes.len() - used >= more {
        return Ok(());
    }
    make_room(bytes, used, more)
}

/// Makes room for as many bytes more after those that are used, and for as many again as are used,
/// but at most `ROOM` of these, so that room is seldom made.
#[cold]
#[inline(never)]
fn make_room(bytes: &mut Vec<u8>, used: usize, more: usize) -> Result<(), AllocError>
    requires used { used ≤ length bytes.old.items }
    requires lacking { length bytes.old.items < used + more }
    ensures used { used ≤ length bytes.new.items }
    ensures kept { take used bytes.new.items ≡ take used bytes.old.items }
    ensures room { OnOk result (used + more ≤ length bytes.new.items) }
{
    let end = used.saturating_add(more);
    bytes.resize(end.saturating_add(used.min(ROOM)), 0)
}

/// Writes a text into the room after the bytes that are used. The result is how many are used then.
#[inline(always)]
fn write_text(bytes: &mut Vec<u8>, used: usize, text: &[u8]) -> usize
    requires room { used + length text.now ≤ length bytes.old.items }
    ensures used { result ≡ used + length text.now }
    ensures length { length bytes.new.items ≡ length bytes.old.items }
    ensures within { result ≤ length bytes.new.items }
    ensures written { take result bytes.new.items ≡ take used bytes.old.items ++ text.now }
{
    let end = used + text.len();
    bytes[used..end].copy_from_slice(text);
    end
}

/// Shows that each number of a header is within its range.
#[inline(always)]
fn header_in_range(header: &Header)
    ensures { IsHeader header.now }
{
    let Header {
        from,
        to,
        position,
        ballot,
    } = *header;
    let _numbers = (from.get(), to.get(), position.get(), ballot.get());
}

/// The node of the number that is one above `header`.
fn node_after(place: u8) -> NodeId
    requires { place < 7 }
    ensures { result ≡ place + 1 }
{
    NodeId::new(place + 1).unwrap()
}

/// The text of a place, from 0, among texts whose ends are known.
#[inline(always)]
fn text_between<'a>(bytes: &'a [u8], ends: &[usize], place: usize) -> &'a [u8]
    requires run { IsRun bytes.now ends.now }
    requires place { place < length ends.now }
    ensures { Some result.now
        ≡ option_map text_of (slice_get (packets_in (length ends.now) bytes.now) place) }
{
    let from = start_between(bytes, ends, place);
    let (_, rest) = bytes.split_at(from);
    let (text, _) = rest.split_at(ends[place] - from);
    text
}

/// Where the text of a place, from 0, begins among texts whose ends are known.
#[inline(always)]
fn start_between(bytes: &[u8], ends: &[usize], place: usize) -> usize
    requires run { IsRun bytes.now ends.now }
    requires place { place < length ends.now }
    ensures { result ≡ length (texts_of (take place (packets_in (length ends.now) bytes.now))) }
{
    let _bytes = bytes;
    if place == 0 { 0 } else { ends[place - 1] }
}
