//! Whose name is printed.

ghost use Rattle.std.specs.Prelude.{◌≡◌, ◌++◌, ◌∷◌, ℕ, suc, List, length};
ghost use Rattle.rp_output.specs.rp_base.specs.declared.reply.Answer.{Answer};
ghost use Rattle.rp_output.specs.rp_codec.specs.declared.packet.Party.TheVariants.{Task};
ghost use Rattle.rp_output.specs.Trace.{party_text_of};
ghost use Rattle.rp_run.specs.Items.{Replied};
ghost use Rattle.rp_run.specs.Output.{reply_item};

/// A task's name is the one that stands at the task's number, from 1, among the names of all tasks.
pub fn tasks_have_their_own_names()
    // claim: A reply is printed under the name that is declared for its task, and a packet of a trace
    //   with the names of its parties
    ensures replies { (before after : List (List ℕ)) (name : List ℕ) (answer : Answer)
        → answer.task ≡ suc (length before)
        → reply_item (before ++ name ∷ after) answer ≡ Replied name answer }
    ensures parties { (before after : List (List ℕ)) (name : List ℕ)
        → party_text_of (before ++ name ∷ after) (Task (suc (length before))) ≡ name }
{}
