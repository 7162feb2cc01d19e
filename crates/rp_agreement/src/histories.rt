//! Nodes agree in every history, whatever stops, is cut within a step or starts again.

ghost use Rattle.std.specs.Prelude.{◌≡◌, ℕ, pos, Some, List, [], ◌∷◌, length};
ghost use Rattle.rp_base.specs.Ranges.{Range};
ghost use Rattle.rp_base.specs.Records.{applied_of};
ghost use Rattle.rp_base.specs.declared.action.Action.{Action};
ghost use Rattle.rp_base.specs.declared.action.Action.TheVariants.{Call, Interrupt, Tick};
ghost use Rattle.rp_base.specs.declared.action.Operation.TheVariants.{Procedure};
ghost use Rattle.rp_base.specs.declared.reply.Answer.{Answer};
ghost use Rattle.rp_base.specs.declared.reply.Reply.{Reply};
ghost use Rattle.rp_base.specs.declared.reply.Reply.TheVariants.{Value};
ghost use Rattle.rp_machine.specs.Replay.{replay_of};
ghost use Rattle.rp_machine.specs.TallyRule.{tally_next, tally_answers};
ghost use Rattle.rp_model.specs.Effect.{Setting};
ghost use Rattle.rp_model.specs.Events.{Event};
ghost use Rattle.rp_model.specs.Facts.{IsDecided};
ghost use Rattle.rp_model.specs.World.{World, part_at};
ghost use Rattle.rp_model.specs.Parts.{NodePart};
ghost use Rattle.rp_agreement.specs.Computed.{order_of};
ghost use Rattle.rp_agreement.specs.History.{IsHistory, AreMoments};
ghost use Rattle.rp_agreement.specs.Noted.{IsNoted};
ghost use Rattle.rp_agreement.specs.Order.{IsPrefix, AreAlike};
ghost use Rattle.rp_agreement.specs.Possible.{three_nodes, IsReplied, IsNotedAndApplied};
ghost use Rattle.rp_agreement.specs.Possible.{IsRepliedAfterRestart, IsRepliedInRange};
ghost use Rattle.rp_agreement.specs.Possible.{IsRepliedAfterTakeover, IsCaughtUp};
ghost use Rattle.rp_agreement.specs.Worlds.{IsSoundWorld};

use crate::opening::the_opening_is_sound;
use rp_machine::Machine;

/// Every history leads to a world that satisfies the invariant.
pub fn histories_are_sound<M: Machine>()
    ensures { (setting : Setting M) (events : List Event) (world : World)
        → IsHistory setting events world → IsSoundWorld setting.config.nodes world }
{
    the_opening_is_sound();
}

/// At two moments of a history, now and later: at a position one action at most is decided, and it
/// stays decided; the order grows at its end alone; of what two nodes have applied, the one now and
/// the other later, one is a prefix of the other; and if they have applied equally many actions
/// they are in one state, with the same answers given.
pub fn histories_agree<M: Machine>()
    // claim: Nodes agree in every history of right events
    ensures decided { (setting : Setting M) (now later : World) → AreMoments setting now later
        → let nodes = setting.config.nodes in
        (i : ℕ) (v w : Action)
        → IsDecided nodes now.sent i v → IsDecided nodes later.sent i w → v ≡ w }
    ensures order { (setting : Setting M) (now later : World) → AreMoments setting now later
        → let nodes = setting.config.nodes in
        IsPrefix (order_of nodes now.sent) (order_of nodes later.sent) }
    ensures applied { (setting : Setting M) (now later : World) → AreMoments setting now later
        → (x y : ℕ) (one other : NodePart)
        → part_at now.nodes x ≡ Some one → part_at later.nodes y ≡ Some other
        → AreAlike (applied_of one.records) (applied_of other.records) }
    ensures states { (setting : Setting M) (now later : World) → AreMoments setting now later
        → (x y : ℕ) (one other : NodePart)
        → part_at now.nodes x ≡ Some one → part_at later.nodes y ≡ Some other
        → length (applied_of one.records) ≡ length (applied_of other.records)
        → replay_of setting.next setting.answers setting.begin (applied_of one.records)
        ≡ replay_of setting.next setting.answers setting.begin (applied_of other.records) }
{
    the_opening_is_sound();
}

/// Each call that is decided is one that its task was asked to make, with its object, operation and
/// argument, and each interrupt and each tick was noted at some node: the clock and the sources of
/// interrupts move by what happened alone, and no node has a call, a tick or an interrupt of its own.
pub fn only_noted_actions_are_decided<M: Machine>()
    // claim: An event of the history asked for each call that is decided, with its object, operation
    //   and argument, and noted each interrupt and tick that is decided at some node
    ensures { (setting : Setting M) (events : List Event) (world : World)
        → IsHistory setting events world
        → let nodes = setting.config.nodes in
        (i : ℕ) (v : Action) → IsDecided nodes world.sent i v → IsNoted events v }
{
    the_opening_is_sound();
}

/// The laws are not vacuous: with three nodes, whatever the machine, some history leads to
/// a world in which a task's call is decided.
pub fn some_history_decides<M: Machine>()
    // claim: Some history decides a call: with three nodes nine right events do
    ensures { (begin : M) → (events : List Event) × (world : World)
        × IsHistory (three_nodes 1 M.next M.answers begin) events world
        × IsDecided 3 world.sent 1 (Call 1 1 1 (Procedure 1) (pos 5)) }
{}

/// Replies do occur: with three nodes, whatever the machine, if it answers that call
/// at once, some history brings the task its reply. So task 1 of a tally adds 5 to 0 and gets 5.
pub fn some_history_replies<M: Machine>()
    // claim: Some history brings a task the reply to its call: with three nodes twelve right events
    //   do
    ensures any { (begin : M) (reply : Reply)
        → let answer : Answer = record { task = 1; number = 1; reply = reply } in
        M.answers begin (Call 1 1 1 (Procedure 1) (pos 5)) ≡ answer ∷ []
        → IsReplied (three_nodes 1 M.next M.answers begin) answer }
    ensures tally { let answer : Answer = record { task = 1; number = 1; reply = Value (pos 5) } in
        IsReplied (three_nodes 1 tally_next tally_answers (pos 0 ∷ [])) answer }
{}

/// Nor of clocks and handlers that never move: with three nodes, whatever the machine, in some
/// history a tick that a node noted is decided and applied, and in some history an interrupt is.
pub fn some_history_notes<M: Machine>()
    // claim: In some history a tick that a node noted is decided and applied, and in some history
    //   an interrupt is: with three nodes ten right events do
    ensures tick { (begin : M)
        → IsNotedAndApplied (three_nodes 1 M.next M.answers begin) (Tick 7) }
    ensures interrupt { (begin : M)
        → IsNotedAndApplied (three_nodes 1 M.next M.answers begin) (Interrupt 2 1) }
{}

/// Nor of stops after which nothing goes on: with three nodes, whatever the machine, if it answers
/// that call at once, in some history a node stops within a step, starts again, and the task gets
/// its reply.
pub fn some_history_restarts<M: Machine>()
    // claim: In some history a node stops within a step that writes a record, starts again, and
    //   then a call is decided and its task gets the reply: with three nodes sixteen right events
    //   do
    ensures { (begin : M) (reply : Reply)
        → let call : Action = Call 1 1 1 (Procedure 1) (pos 5) in
        let answer : Answer = record { task = 1; number = 1; reply = reply } in
        M.answers begin call ≡ answer ∷ []
        → IsRepliedAfterRestart (three_nodes 1 M.next M.answers begin) call answer }
{}

/// Nor of ranges that nobody leads: with three nodes, whatever the machine, if it answers that call
/// at once, in some history a node leads a range of two positions, two calls are decided there with
/// no further question for promises, and the task gets its reply.
pub fn some_history_leads_a_range<M: Machine>()
    // claim: In some history a node leads a range of two positions, a call is decided at each with
    //   no further question for promises, and a task gets its reply: with three nodes eighteen
    //   right events do
    ensures { (begin : M) (reply : Reply)
        → let range : Range = record { first = 1; count = 2 } in
        let call : Action = Call 1 1 1 (Procedure 1) (pos 5) in
        let other : Action = Call 2 1 1 (Procedure 1) (pos 7) in
        let answer : Answer = record { task = 1; number = 1; reply = reply } in
        M.answers begin call ≡ answer ∷ []
        → IsRepliedInRange (three_nodes 2 M.next M.answers begin) range call other answer }
{}

/// Nor of positions that nobody can take over: with three nodes, whatever the machine, if it
/// answers that call at once, in some history a node stops once another voted for a call, the other
/// leads, and that call is decided and its task gets the reply.
pub fn some_history_takes_over<M: Machine>()
    // claim: In some history a node that led stops for good once another voted for a call, the
    //   other leads, where another call waits first, and the call that was voted for is decided and
    //   its task gets the reply: with three nodes twenty-three right events do
    ensures { (begin : M) (reply : Reply)
        → let call : Action = Call 1 1 1 (Procedure 1) (pos 5) in
        let other : Action = Call 2 1 1 (Procedure 1) (pos 7) in
        let answer : Answer = record { task = 1; number = 1; reply = reply } in
        M.answers begin call ≡ answer ∷ []
        → IsRepliedAfterTakeover (three_nodes 1 M.next M.answers begin) call other answer }
{}

/// Nor of nodes that never learn what they missed: with three nodes, whatever the machine, if it
/// answers each of two calls at once, in some history a node that a decision did not reach asks for
/// it, and applies both calls.
pub fn some_history_catches_up<M: Machine>()
    // claim: In some history two calls are decided, a node to which the first decision is lost asks
    //   for it, and applies both calls, while one node alone leads: with three nodes twenty-two
    //   right events do
    ensures { (begin : M) (reply second : Reply)
        → let call : Action = Call 1 1 1 (Procedure 1) (pos 5) in
        let other : Action = Call 2 1 1 (Procedure 1) (pos 7) in
        let answer : Answer = record { task = 1; number = 1; reply = reply } in
        let other_answer : Answer = record { task = 2; number = 1; reply = second } in
        M.answers begin call ≡ answer ∷ []
        → M.answers (M.next begin call) other ≡ other_answer ∷ []
        → IsCaughtUp (three_nodes 2 M.next M.answers begin) call other }
{}
