//! How many nodes are a majority.

ghost use Rattle.std.specs.Prelude.{◌≡◌, ℕ, ◌≤◌, List, length};
ghost use Rattle.rp_base.specs.Sets.{Has};
ghost use Rattle.rp_base.specs.Majority.{majority_of, AreNodes};

/// The least number that is more than half of the nodes (Lamport, "Paxos Made Simple", section
/// 2.2).
pub fn majority(nodes: u8) -> u8
    ensures { result ≡ majority_of nodes }
{
    nodes / 2 + 1
}

/// Two majorities of the same nodes have a node in common (Lamport, section 2.2).
pub fn majorities_intersect()
    // claim: A majority is n / 2 + 1, and two sets of that many nodes share one
    ensures { (nodes : ℕ) (xs ys : List ℕ) → AreNodes nodes xs → AreNodes nodes ys
        → majority_of nodes ≤ length xs → majority_of nodes ≤ length ys
        → (node : ℕ) × Has node xs × Has node ys }
{}
