//! What callers do with the handles of a deck's nodes and of tasks is a history of the model.

ghost use Rattle.std.specs.Prelude.{ℕ, List};
ghost use Rattle.std.specs.Arc.{arc_value};
ghost use Rattle.rp_agreement.specs.Answered.{setting_for};
ghost use Rattle.rp_deck.specs.declared.deck.Deck.{Deck};
ghost use Rattle.rp_deck.specs.rp_object.specs.Image.{objects_image};
ghost use Rattle.rp_deck.specs.rp_object.specs.State.{Running, first_state};
ghost use Rattle.rp_deck.specs.rp_object.specs.Step.{objects_next, objects_answers};
ghost use Rattle.rp_deck.specs.rp_object.specs.declared.program.Program.{Program};
ghost use Rattle.rp_requests.specs.Nodes.{NodeState};
ghost use Rattle.rp_installations.specs.Behind.{HasHistory};
ghost use Rattle.rp_installations.specs.Outcomes.{AgreeAs, HasOrder, IsAllSynced, IsOpenAt};
ghost use Rattle.rp_installations.specs.Sites.{Installation, NodeSite};
ghost use Rattle.rp_installations.specs.HandleMoves.{HandleMoves, IsDeckOf};
ghost use Rattle.rp_installations.specs.HandleMoves.{IsHandleInstallation};

use crate::installations_are_histories;
use rp_deck_laws::decks_of_one_meaning_behave_alike;
use rp_object::Objects;

/// Whatever callers do with the handles of the nodes of a deck of protected objects and of tasks,
/// by the rules for devices and packets, is a history of the model. So nodes by handle agree, and
/// the replies that tasks by handle return are those of one order. The deck may be read anew at
/// each opening: what is read means the same.
pub fn handles_agree()
    // claim: What callers do with the handles of a deck's nodes and of tasks, by the rules for
    //   devices and packets, is a history of right events
    ensures history { (text : List ℕ) (deck : Deck) (program : Program)
        (moves : List (Installation Running)) (after : Installation Running)
        → let begin = λ (p : Program). first_state (arc_value p.declarations) in
        let setting = setting_for objects_next objects_answers begin deck.config program in
        IsDeckOf text deck program → IsHandleInstallation text deck moves after
        → HasHistory setting after }
    // claim: Of what two nodes by handle have applied one is a prefix of the other, at any two
    //   moments, where all is synced that the steps of the earlier one gave; and if it is equally
    //   much they show the same objects
    ensures agree { (text : List ℕ) (deck : Deck) (program : Program)
        (moves more : List (Installation Running)) (now later : Installation Running) (x y : ℕ)
        (site other_site : NodeSite Running) (one other : NodeState Running)
        → IsDeckOf text deck program → IsHandleInstallation text deck moves now
        → HandleMoves text deck now more later
        → IsOpenAt now x site one → IsOpenAt later y other_site other → IsAllSynced site
        → AgreeAs objects_next objects_answers objects_image
        (first_state (arc_value program.declarations)) one other }
    // claim: There is one order of what the nodes and tasks of a deck did by handle: what each open
    //   node has applied is a prefix of it, each reply that a task's request returned is the one
    //   that it gives, and a request asked a node to note each interrupt and each tick in it
    ensures ordered { (text : List ℕ) (deck : Deck) (program : Program)
        (moves : List (Installation Running)) (now : Installation Running)
        → let begin = λ (p : Program). first_state (arc_value p.declarations) in
        let setting = setting_for objects_next objects_answers begin deck.config program in
        IsDeckOf text deck program → IsHandleInstallation text deck moves now
        → HasOrder setting now }
{
    installations_are_histories::<Objects>();
    decks_of_one_meaning_behave_alike();
}
