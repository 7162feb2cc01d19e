//! Whose box is emptied, who is asked, and who leads in which turn; and how turns are counted.

ghost use Rattle.std.specs.Prelude.{◌≡◌, ◌≢◌, ◌+◌, ◌*◌, ◌<◌, ℕ, suc, true, false, Some, None, List, [], ◌∷◌};
ghost use Rattle.rp_threads.specs.rp_base.specs.Number.{IsUpTo, IsTask};
ghost use Rattle.rp_threads.specs.rp_codec.specs.declared.packet.Party.TheVariants.{Node, Task};
ghost use Rattle.rp_threads.specs.rp_model.specs.Tasks.{Again};
ghost use Rattle.rp_threads.specs.Loops.{sender_at, node_at, is_to_lead};
ghost use Rattle.rp_threads.specs.TaskRounds.{asked_by};
ghost use Rattle.rp_threads.specs.declared.tasks.TaskCall.{TaskCall};
ghost use Rattle.rp_threads.specs.declared.turns.Turn.TheVariants.{Received, Led, Idle};
ghost use Rattle.rp_live.specs.Pace.{paced};
ghost use Rattle.rp_thread_laws.specs.Turns.{IsAmongTurns, turned, counts_after};

/// A node's loop looks into every box that a packet for its node can lie in, again and again.
pub fn every_box_is_emptied()
    // claim (nodes, tasks): Among n nodes, a node's loop empties the box of each node within each
    //   n + 1 turns, and that of each of the eight tasks within eight times as many
    ensures nodes { (nodes first node : ℕ) → IsUpTo nodes node
        → IsAmongTurns first (nodes + 1) (λ turn. sender_at nodes turn ≡ Node node) }
    ensures tasks { (nodes first task : ℕ) → IsTask task
        → IsAmongTurns first (8 * (nodes + 1)) (λ turn. sender_at nodes turn ≡ Task task) }
{}

/// A task gets packets from every node, and while it waits for a reply it asks every node.
pub fn a_task_asks_every_node()
    // claim (gets, asks): Among n nodes, a task's loop empties the box of each node within each n
    //   turns; while it waits, it asks each node again within each 16 n turns
    ensures gets { (nodes first node : ℕ) → IsUpTo nodes node
        → IsAmongTurns first nodes (λ turn. node_at nodes turn ≡ node) }
    ensures asks { (nodes first node made : ℕ) (calls : List TaskCall) → IsUpTo nodes node
        → IsAmongTurns first (16 * nodes) (λ turn. asked_by true nodes calls made turn
        ≡ Some (Again node)) }
{}

/// Each node is to lead in some turns, in no two that follow one another, and no two nodes equally
/// often. In a live run it skips these turns, and leads by its patience alone.
pub fn each_node_leads_at_its_own_times()
    // claim (leads, rarely, apart): Node n is to lead within each 8 + n turns, and not in two that
    //   follow one another; of two nodes one is to lead in a turn in which the other is not
    ensures leads { (number first : ℕ)
        → IsAmongTurns first (8 + number) (λ turn. is_to_lead number turn ≡ true) }
    ensures rarely { (number turn : ℕ)
        → is_to_lead number turn ≡ true → is_to_lead number (suc turn) ≡ false }
    ensures apart { (one other : ℕ) → one < other
        → (is_to_lead one (8 + one) ≡ true) × (is_to_lead other (8 + one) ≡ false) }
    // claim (makes_turns, by_patience): In a live run a node makes one of two turns that follow one
    //   another, and none in which it would lead by its number
    ensures makes_turns { (number turn : ℕ)
        → paced number turn ≡ false → paced number (suc turn) ≡ true }
    ensures by_patience { (number turn : ℕ)
        → paced number turn ≡ true → is_to_lead number turn ≡ false }
{}

/// Five turns: a packet is received, the node leads, a turn is skipped, one is idle, and the node
/// leads once more.
pub fn turns_count_by_their_kinds()
    // claim: Worked: a loop's counts say how many turns of each kind it made, and how many packets
    //   these lost at boxes
    ensures { counts_after
        (turned Received 2 ∷ turned Led 1 ∷ None ∷ turned Idle 0 ∷ turned Led 4 ∷ [])
        ≡ record { received = 1; led = 2; idle = 1; skipped = 1; lost = 7 } }
{}
