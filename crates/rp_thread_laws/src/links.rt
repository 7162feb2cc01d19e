//! What the link of a party holds and passes on.

ghost use Rattle.std.specs.Prelude.{◌≡◌, ◌%◌, ◌^◌, ◌<◌, ℕ, Some, None, List, [], ◌∷◌, ◌++◌, length, take, slice_get};
ghost use Rattle.rp_threads.specs.rp_codec.specs.Message.{IsParty};
ghost use Rattle.rp_threads.specs.rp_codec.specs.declared.packet.Party.{Party};
ghost use Rattle.rp_threads.specs.rp_tasks.specs.Line.{Line};
ghost use Rattle.rand_chacha.specs.ChaCha.{next_word};
ghost use Rattle.rp_threads.specs.Lines.{line_with, given_on, line_after};
ghost use Rattle.rp_live.specs.Lines.{party_line};
ghost use Rattle.rp_thread_laws.specs.Links.{copies_by_word};

/// Links lose, repeat and reorder packets by their words. Those of two parties, or of runs with two
/// seeds, follow from different keys.
pub fn each_party_has_a_link_of_its_own()
    // claim: The links of two parties of a run, and of one party in runs with two seeds, have
    //   different keys
    ensures { (seed other : ℕ) (one two : Party)
        → seed < 2 ^ 32 → other < 2 ^ 32 → IsParty one → IsParty two
        → (party_line seed one).words.key ≡ (party_line other two).words.key
        → (seed ≡ other) × (one ≡ two) }
{}

/// A link takes a packet that is fetched at fourteen of sixteen words, and passes on one packet a
/// turn, as long as it holds one.
pub fn a_link_passes_on_what_it_holds()
    // claim (takes): At two of sixteen words a link loses the packet that is fetched, at two it takes
    //   it twice, and at twelve once; what finds no place among 16 is lost
    ensures takes { (line : Line) (packet : List ℕ) (copies : List (List ℕ))
        → slice_get (copies_by_word packet) ((next_word 10 line.words).0 % 16) ≡ Some copies
        → (line_with (Some packet) line).held ≡ take 16 (line.held ++ copies) }
    // claim (passes_on, holds_none): A link that holds a packet passes one of them on and keeps the
    //   others, in order; one that holds none passes none on
    ensures passes_on { (line : Line) → 0 < length line.held
        → (before after : List (List ℕ)) × (packet : List ℕ)
        × (given_on line ≡ Some packet) × (line.held ≡ before ++ packet ∷ after)
        × ((line_after line).held ≡ before ++ after) }
    ensures holds_none { (line : Line) → line.held ≡ []
        → (given_on line ≡ None) × (line_after line ≡ line) }
{}
