//! What a node sends, in every state.

ghost use Rattle.std.specs.Prelude.{◌≡◌, ◌≢◌, ◌↔◌, ◌≤◌, ◌<◌, ◌++◌, ◌^◌, ℕ, ℤ, true, Ok, Some, None, [], ◌∷◌};
ghost use Rattle.std.specs.Prelude.{List, Option, length, drop};
ghost use Rattle.rp_base.specs.Ballot.{next_ballot, round_of};
ghost use Rattle.rp_base.specs.Number.{IsNode};
ghost use Rattle.rp_base.specs.Proposals.{Proposal, is_gathering, proposal_at};
ghost use Rattle.rp_base.specs.Records.{applied_of};
ghost use Rattle.rp_base.specs.Sets.{Has};
ghost use Rattle.rp_base.specs.declared.action.Action.{Action};
ghost use Rattle.rp_base.specs.declared.action.Action.TheVariants.{Call};
ghost use Rattle.rp_base.specs.declared.action.Operation.{Operation};
ghost use Rattle.rp_base.specs.declared.record.Rec.{Rec};
ghost use Rattle.rp_base.specs.declared.record.Rec.TheVariants.{Started, Learned};
ghost use Rattle.rp_base.specs.declared.record.Vote.{Vote};
ghost use Rattle.rp_base.specs.declared.reply.Answer.{Answer};
ghost use Rattle.rp_model.specs.rp_codec.specs.Message.{Message};
ghost use Rattle.rp_model.specs.rp_codec.specs.declared.packet.Body.{Body};
ghost use Rattle.rp_model.specs.rp_codec.specs.declared.packet.Body.TheVariants.{Nack, Prepare, Promise, Reply};
ghost use Rattle.rp_model.specs.rp_codec.specs.declared.packet.Party.TheVariants.{Node, Task};
ghost use Rattle.rp_model.specs.rp_machine.specs.Replay.{replay_answers};
ghost use Rattle.rp_model.specs.Effect.{Setting, NodeInput, Receive, Lead, running_effect};
ghost use Rattle.rp_model.specs.Leader.{starts_above};
ghost use Rattle.rp_model.specs.Parts.{Running, Turn};
ghost use Rattle.rp_model.specs.Says.{says, says_to_all};
ghost use Rattle.rp_possible.specs.Refusals.{IsNextInTurn, LeadsAbove};

use rp_machine::Machine;

/// What goes to all nodes goes to each of them, and to nobody else; so does the question for
/// promises of a node that leads.
pub fn all_nodes_are_asked<M: Machine>()
    // claim (everyone, lead): What is sent to all nodes is one packet to each of them, and the
    //   question for promises of a node that leads at a position is
    ensures everyone { (nodes me : ℕ) (body : Body) (m : Message)
        → Has m (says_to_all nodes me body)
        ↔ (k : ℕ) × (1 ≤ k) × (k ≤ nodes)
        × (m ≡ record { from = Node me; to = Node k; body = body }) }
    ensures lead { (setting : Setting M) (me i b k : ℕ) (records : List Rec) (running : Running)
        (turn : Turn)
        → running_effect setting me records running (Lead (Some i)) ≡ Ok turn
        → turn.written ≡ Some (Started b) → 1 ≤ k → k ≤ setting.config.nodes
        → Has (record { from = Node me; to = Node k; body = Prepare i b }) turn.sent }
{}

/// A caller whose call waits at a node gets its reply when the node applies the action that it is
/// answered by, whoever's action that is: it need not ask again.
pub fn a_waiting_caller_is_answered<M: Machine>()
    // claim: A node that learns an action sends a reply to each task whose call waits at it and is
    //   answered by what it applies then
    ensures { (setting : Setting M) (me i object : ℕ) (operation : Operation) (arg : ℤ)
        (records : List Rec) (running : Running) (input : NodeInput) (turn : Turn) (v : Action)
        (answer : Answer)
        → let answers = replay_answers setting.next setting.answers setting.begin in
        let given = answers (applied_of records) in
        running_effect setting me records running input ≡ Ok turn
        → turn.written ≡ Some (Learned i v)
        → Has answer (drop (length given) (answers (applied_of (records ++ Learned i v ∷ []))))
        → Has (Call answer.task answer.number object operation arg) running.pending
        → Has (record {
          from = Node me;
          to = Task answer.task;
          body = Reply answer.number answer.reply;
        }) turn.sent }
{}

/// A refused proposal has ended, and so has each other one of its ballot that gathers promises. A
/// promise that comes later offers nothing, and the next ballot lies above the bound.
pub fn a_refusal_ends_a_proposal<M: Machine>()
    // claim (ends, silent): A refusal of the proposal that runs at a position ends it, and each other
    //   one of its ballot that gathers promises; a promise that comes later leads to no offer
    ensures ends { (setting : Setting M) (me from i b bound : ℕ) (records : List Rec)
        (running : Running) (turn : Turn) (p : Proposal)
        → running_effect setting me records running (Receive (says from (Nack i b bound) me))
        ≡ Ok turn
        → from ≤ setting.config.nodes → i ≤ setting.config.max_positions
        → proposal_at running.proposals i ≡ Some p → p.ballot ≡ b
        → (q : Proposal) → Has q turn.running.proposals
        ↔ (Has q running.proposals × (q.position ≢ i)
        × (¬ ((q.ballot ≡ b) × (is_gathering setting.config.nodes q ≡ true)))) }
    ensures silent { (setting : Setting M) (me from other i b bound : ℕ) (records : List Rec)
        (running : Running) (turn next : Turn) (p : Proposal) (last : Option Vote)
        → running_effect setting me records running (Receive (says from (Nack i b bound) me))
        ≡ Ok turn
        → from ≤ setting.config.nodes → i ≤ setting.config.max_positions
        → proposal_at running.proposals i ≡ Some p → p.ballot ≡ b
        → running_effect setting me records turn.running (Receive (says other (Promise i b last) me))
        ≡ Ok next
        → next.sent ≡ [] }
    // claim (bound): The next ballot of a node lies above the bound by which its proposal was refused
    ensures bound { (setting : Setting M) (me from i b c bound : ℕ) (choice : Option ℕ)
        (records : List Rec) (running : Running) (turn next : Turn) (p : Proposal)
        → running_effect setting me records running (Receive (says from (Nack i b bound) me))
        ≡ Ok turn
        → from ≤ setting.config.nodes → i ≤ setting.config.max_positions → IsNode me
        → proposal_at running.proposals i ≡ Some p → p.ballot ≡ b
        → running_effect setting me records turn.running (Lead choice) ≡ Ok next
        → next.written ≡ Some (Started c)
        → bound < c }
{}

/// A node whose proposal is refused leads at that position once more by one command, though it is
/// told no position, in a ballot above the bound: it need not stop, nor lead twice.
pub fn a_refused_node_leads_again<M: Machine>()
    // claim: A node whose proposal at its next position is refused, and that is told to lead then,
    //   and at no position, leads there above the bound, if a ballot is left to it
    ensures { (setting : Setting M) (me from i b bound : ℕ) (records : List Rec)
        (running : Running) (turn : Turn)
        → running_effect setting me records running (Receive (says from (Nack i b bound) me))
        ≡ Ok turn
        → from ≤ setting.config.nodes → i ≤ setting.config.max_positions → IsNode me
        → IsNextInTurn setting i b records running
        → round_of (next_ballot me (starts_above records turn.running)) < 2 ^ 32
        → (next : Turn) × (running_effect setting me records turn.running (Lead None) ≡ Ok next)
        × LeadsAbove setting me i bound next }
{}
