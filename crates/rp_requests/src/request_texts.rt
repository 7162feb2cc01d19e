//! Texts of requests are read as these requests.

ghost use Rattle.std.specs.Prelude.{◌≡◌, ◌∷◌, Some, Err, ℕ, List, Ok};
ghost use Rattle.rp_base.specs.Number.{IsTask};
ghost use Rattle.rp_base.specs.declared.fault.Fault.TheVariants.{BadPacket};
ghost use Rattle.rp_base.specs.declared.fault.PacketReason.{PacketReason};
ghost use Rattle.rp_codec.specs.Reading.{all_of};
ghost use Rattle.rp_model.specs.Effect.{NodeInput};
ghost use Rattle.rp_base.specs.Action.{IsIndex};
ghost use Rattle.rp_requests.specs.Requests.{Step, Applied, Image, LastAnswer, Left, Pending, Counted, Occurred, asked_of};
ghost use Rattle.rp_requests.specs.TaskRequests.{TaskAsked, task_asked_of};
ghost use Rattle.rp_requests.specs.Texts.{step_text, FitsStep, applied_text, image_text, last_answer_text, left_text, pending_text, counted_text, occurred_text, task_request_text, FitsTaskRequest};

/// The text of each step of a node asks for that step, and that of each question for that answer.
/// A packet that came and is none asks for the refusal with its reason.
pub fn node_requests_are_read_back()
    // claim: Each request to a node has a text, and that is read as that request
    ensures steps { (input : NodeInput) → FitsStep input
        → asked_of (step_text input) ≡ Some (Step (Ok input)) }
    ensures no_packet { (bytes : List ℕ) (reason : PacketReason) → all_of bytes ≡ Err reason
        → asked_of (1 ∷ bytes) ≡ Some (Step (Err (BadPacket reason))) }
    ensures applied { asked_of applied_text ≡ Some Applied }
    ensures image { asked_of image_text ≡ Some Image }
    ensures last { asked_of last_answer_text ≡ Some LastAnswer }
    ensures left { asked_of left_text ≡ Some Left }
    ensures pending { asked_of pending_text ≡ Some Pending }
    ensures counted { (task : ℕ) → IsTask task
        → asked_of (counted_text task) ≡ Some (Counted task) }
    ensures occurred { (source : ℕ) → IsIndex source
        → asked_of (occurred_text source) ≡ Some (Occurred source) }
{}

/// The text of each request to a task asks for that: a call of a function is not one of a procedure,
/// and its object, its index and its argument are those of the text.
pub fn task_requests_are_read_back()
    // claim: Each request to a task has a text, and that is read as that request
    ensures { (request : TaskAsked) → FitsTaskRequest request
        → task_asked_of (task_request_text request) ≡ Some request }
{}
