//! Bytes that are no text of a request ask for nothing.

ghost use Rattle.std.specs.Prelude.{◌≡◌, ◌≢◌, ◌⊎◌, ◌<◌, ◌≤◌, ◌∷◌, [], None, ℕ, List, length};
ghost use Rattle.rp_requests.specs.Requests.{asked_of};
ghost use Rattle.rp_requests.specs.TaskRequests.{task_asked_of};

/// Bytes of no kind, or of another length than the requests of their kind have, ask for nothing, and
/// so does a source, a task or a node that there is not.
pub fn no_other_text_is_a_node_request()
    // claim: Bytes of another kind or length than a request to a node has ask for nothing
    ensures empty { asked_of [] ≡ None }
    ensures kinds { (kind : ℕ) (operands : List ℕ)
        → (kind ≡ 0) ⊎ ((7 < kind) × (kind < 16)) ⊎ (22 < kind)
        → asked_of (kind ∷ operands) ≡ None }
    ensures lead { (operands : List ℕ) → length operands ≢ 0 → length operands ≢ 2
        → asked_of (2 ∷ operands) ≡ None }
    ensures interrupt { (operands : List ℕ) → length operands ≢ 5
        → asked_of (3 ∷ operands) ≡ None }
    ensures tick { (operands : List ℕ) → length operands ≢ 4 → asked_of (4 ∷ operands) ≡ None }
    ensures report { (operands : List ℕ) → length operands ≢ 2 → asked_of (5 ∷ operands) ≡ None }
    ensures range { (operands : List ℕ) → length operands ≢ 3 → asked_of (6 ∷ operands) ≡ None }
    ensures ask { (operands : List ℕ) → length operands ≢ 1 → asked_of (7 ∷ operands) ≡ None }
    ensures counted { (operands : List ℕ) → length operands ≢ 1
        → asked_of (21 ∷ operands) ≡ None }
    ensures occurred { (operands : List ℕ) → length operands ≢ 1
        → asked_of (22 ∷ operands) ≡ None }
    ensures questions { (kind more : ℕ) (rest : List ℕ) → 16 ≤ kind → kind ≤ 20
        → asked_of (kind ∷ more ∷ rest) ≡ None }
    ensures source { (source a b c d : ℕ) → (source ≡ 0) ⊎ (8 < source)
        → asked_of (3 ∷ source ∷ a ∷ b ∷ c ∷ d ∷ []) ≡ None }
    ensures node { (node : ℕ) → (node ≡ 0) ⊎ (7 < node) → asked_of (7 ∷ node ∷ []) ≡ None }
    ensures task { (task : ℕ) → (task ≡ 0) ⊎ (8 < task) → asked_of (21 ∷ task ∷ []) ≡ None }
    ensures source_asked { (source : ℕ) → (source ≡ 0) ⊎ (8 < source)
        → asked_of (22 ∷ source ∷ []) ≡ None }
{}

/// Bytes of no kind, or of another length than the requests of their kind have, ask for nothing, and
/// so does a call through a node that there is not, or of no kind of operation.
pub fn no_other_text_is_a_task_request()
    // claim: Bytes of another kind or length than a request to a task has ask for nothing
    ensures empty { task_asked_of [] ≡ None }
    ensures kinds { (kind : ℕ) (operands : List ℕ) → (kind ≡ 0) ⊎ (3 < kind)
        → task_asked_of (kind ∷ operands) ≡ None }
    ensures again { (operands : List ℕ) → length operands ≢ 1
        → task_asked_of (2 ∷ operands) ≡ None }
    ensures node { (node : ℕ) (operands : List ℕ) → (node ≡ 0) ⊎ (7 < node)
        → task_asked_of (1 ∷ node ∷ operands) ≡ None }
    ensures operation { (node object kind index : ℕ) (arg : List ℕ) → (kind ≡ 0) ⊎ (5 < kind)
        → task_asked_of (1 ∷ node ∷ object ∷ kind ∷ index ∷ arg) ≡ None }
    ensures argument { (node object kind index : ℕ) (arg : List ℕ) → length arg ≢ 8
        → task_asked_of (1 ∷ node ∷ object ∷ kind ∷ index ∷ arg) ≡ None }
{}
