//! What a node does with an input.

ghost use Rattle.std.specs.Prelude.{◌≡◌, ◌≢◌, ◌↔◌, ◌⊎◌, ◌≤◌, ℕ, ℤ, Bool, true, false, Ok};
ghost use Rattle.std.specs.Prelude.{Some, None, List, [], ◌∷◌, filter};
ghost use Rattle.rp_base.specs.Action.{IsRight};
ghost use Rattle.rp_base.specs.Proposals.{Proposal, proposal_at, takes_promise, with_promise};
ghost use Rattle.rp_base.specs.Proposals.{is_promised, is_prepared};
ghost use Rattle.rp_base.specs.Records.{applied_of, learned_at};
ghost use Rattle.rp_base.specs.Sets.{Has};
ghost use Rattle.rp_base.specs.declared.action.Action.{Action};
ghost use Rattle.rp_base.specs.declared.action.Action.TheVariants.{Call, Interrupt, Tick};
ghost use Rattle.rp_base.specs.declared.action.Operation.{Operation};
ghost use Rattle.rp_base.specs.declared.config.Config.{Config};
ghost use Rattle.rp_base.specs.declared.record.Rec.{Rec};
ghost use Rattle.rp_base.specs.declared.record.Rec.TheVariants.{Learned};
ghost use Rattle.rp_base.specs.declared.reply.Answer.{Answer};
ghost use Rattle.rp_codec.specs.declared.packet.Body.TheVariants.{Accept, Reply};
ghost use Rattle.rp_machine.specs.Asked.{last_number, last_occurrence};
ghost use Rattle.rp_machine.specs.Calls.{call_of};
ghost use Rattle.rp_machine.specs.Replay.{counted_of, replay_answers};
ghost use Rattle.rp_model.specs.Effect as inputs;
ghost use Rattle.rp_model.specs.Effect.{Setting, NodeInput, Receive, Lead, running_effect};
ghost use Rattle.rp_model.specs.Leader.{on_promise, is_out_of_reach};
ghost use Rattle.rp_model.specs.Node.{RunningNode};
ghost use Rattle.rp_model.specs.Parts.{Running, Turn};
ghost use Rattle.rp_model.specs.Plans.{turn_of};
ghost use Rattle.rp_model.specs.declared.plan.CountedPromise.{CountedPromise};
ghost use Rattle.rp_model.specs.Says.{sends, says_to_all, says_to_task};
ghost use Rattle.rp_model.specs.Tasks.{asks};
ghost use Rattle.rp_agreement.specs.Answered.{named, setting_for};
ghost use Rattle.rp_agreement.specs.Over.{IsOver, IsOverOnce, IsTaken, IsCallTaken, AreKept};
ghost use Rattle.rp_agreement.specs.Over.{brought_by};

use rp_machine::{Machine, a_call_has_one_answer};

/// A node that has applied a call and its answer sends the reply again each time that it is asked
/// for the task's last call. So a reply that is lost is not lost for ever.
pub fn an_answered_call_is_answered_again<M: Machine>()
    // claim: A node that is asked again for a task's last call sends its reply again, once what it
    //   has applied gives the answer
    ensures { (config : Config) (program : M.Program) (me task number object : ℕ)
        (operation : Operation) (arg : ℤ) (records : List Rec) (running : Running)
        (answer : Answer)
        → let applied = applied_of records in
        let call : Action = Call task number object operation arg in
        ((action : Action) → Has action applied → IsRight action)
        → 1 ≤ number → call_of answer ≡ named task number
        → Has answer (replay_answers M.next M.answers (M.begin program) applied)
        → last_number task (counted_of M.next M.answers (M.begin program) applied) ≡ number
        → running_effect (setting_for M.next M.answers M.begin config program) me records running
        (Receive (asks task me call))
        ≡ Ok (sends running (says_to_task me (Reply number answer.reply) task ∷ [])) }
{
    a_call_has_one_answer::<M>();
}

/// Where one promise more makes a majority, some action is offered to all nodes, whatever votes the
/// promises report (Lamport, "Paxos Made Simple", section 2.2); so too where a node leads at a
/// position that a majority promised as part of a range.
pub fn a_majority_is_offered<M: Machine>()
    // claim: Once a majority promised, a node offers some action to all nodes, whatever votes the
    //   promises report
    ensures promised { (node : RunningNode M) (promise : CountedPromise) (p : Proposal)
        → let nodes = node.setting.config.nodes in
        proposal_at node.running.proposals promise.position ≡ Some p
        → takes_promise promise.ballot p ≡ true
        → is_promised nodes (with_promise p (promise.from, promise.last)) ≡ true
        → (v : Action) × ((turn_of node (on_promise node promise)).sent
        ≡ says_to_all nodes node.me (Accept promise.position promise.ballot v)) }
    ensures prepared { (setting : Setting M) (me i : ℕ) (records : List Rec) (running : Running)
        (p : Proposal)
        → let nodes = setting.config.nodes in
        learned_at records i ≡ None
        → is_out_of_reach setting.config.max_positions records i ≡ false
        → proposal_at running.proposals i ≡ Some p → is_prepared nodes p ≡ true
        → (turn : Turn) × (v : Action)
        × (running_effect setting me records running (Lead (Some i)) ≡ Ok turn)
        × (turn.sent ≡ says_to_all nodes me (Accept i p.ballot v)) }
{}

/// An item that waits at a node to be proposed waits until it is over, and no longer. So nothing
/// that a node noted is forgotten while it runs, and no node is full of what is over.
pub fn pending_items_stay_until_they_are_over<M: Machine>()
    // claim (learning, ordered, others): What waits at a node to be proposed waits in order until
    //   it is over, and no longer: in a step that learns an action exactly what is over goes, in
    //   any other nothing
    ensures learning { (setting : Setting M) (me i : ℕ) (records : List Rec) (running : Running)
        (input : NodeInput) (turn : Turn) (v item : Action)
        → running_effect setting me records running input ≡ Ok turn
        → turn.written ≡ Some (Learned i v)
        → Has item turn.running.pending
        ↔ (Has item running.pending × (¬ IsOverOnce setting records i v item)) }
    ensures ordered { (setting : Setting M) (me i : ℕ) (records : List Rec) (running : Running)
        (input : NodeInput) (turn : Turn) (v : Action)
        → running_effect setting me records running input ≡ Ok turn
        → turn.written ≡ Some (Learned i v)
        → (test : Action → Bool) × (turn.running.pending ≡ filter test running.pending) }
    ensures others { (setting : Setting M) (me : ℕ) (records : List Rec) (running : Running)
        (input : NodeInput) (turn : Turn)
        → running_effect setting me records running input ≡ Ok turn
        → ((i : ℕ) (v : Action) → turn.written ≢ Some (Learned i v))
        → AreKept running turn (brought_by input) }
    // claim (calls, interrupts, ticks): A node that is given a call, an interrupt or a tick notes
    //   it, unless it is over or 32 items wait
    ensures calls { (setting : Setting M) (me task number object : ℕ) (operation : Operation)
        (arg : ℤ) (records : List Rec) (running : Running) (turn : Turn)
        → let applied = applied_of records in
        let kept = counted_of setting.next setting.answers setting.begin applied in
        let given = replay_answers setting.next setting.answers setting.begin applied in
        let call : Action = Call task number object operation arg in
        running_effect setting me records running (Receive (asks task me call)) ≡ Ok turn
        → IsOver kept given [] call ⊎ IsCallTaken running turn (named task number) }
    ensures interrupts { (setting : Setting M) (me source occurrence : ℕ) (records : List Rec)
        (running : Running) (turn : Turn)
        → running_effect setting me records running (inputs.Interrupt source occurrence) ≡ Ok turn
        → (occurrence ≤ last_occurrence source
        (counted_of setting.next setting.answers setting.begin (applied_of records)))
        ⊎ IsTaken running turn (Interrupt source occurrence) }
    ensures ticks { (setting : Setting M) (me now : ℕ) (records : List Rec) (running : Running)
        (turn : Turn)
        → running_effect setting me records running (inputs.Tick now) ≡ Ok turn
        → IsTaken running turn (Tick now) }
{}
