//! The lines that show a state (`rp_manual` Images).

ghost use Rattle.std.specs.Prelude.{◌≡◌, pos, negsuc, true, false, Some, None, List, [], ◌∷◌, ◌++◌, String, string_bytes, codes};
ghost use Rattle.std.specs.declared.alloc.Global.{Global};
ghost use Rattle.std.proofs.Common.{lit<};
ghost use Rattle.rp_manual.specs.Memory.{Unread};
ghost use Rattle.rp_manual.specs.Gate.{gate, gate_is, first_call};
ghost use Rattle.rp_manual.specs.Gates.{gates, gates_are};
ghost use Rattle.rp_manual.specs.Box.{box, box_is};
ghost use Rattle.rp_manual.specs.Images.{number_named, named, shows};

/// The gate that is up, with a caller that waits, and the gate with two entries, of which one has no
/// caller and the other two.
pub fn gates_are_shown()
    // claim: Worked: a state is shown by its components' names and values and its callers, in order
    ensures one_entry { (unread : Unread) (number boolean entry : String Global)
        → string_bytes unread.name ≡ codes "gate" → string_bytes number ≡ codes "n"
        → string_bytes boolean ≡ codes "up"
        → let called = named unread number boolean (entry ∷ []) (lit< tt) in
        shows (gate called 5 5 (pos 0)) (gate_is called (pos 3) true (first_call 2 ∷ []))
        ≡ codes "object gate n=3 up=true queue task 2 call 1 arg 0\nclock 0\n" }
    ensures two_entries { (unread : Unread) (number boolean entry second : String Global)
        → string_bytes unread.name ≡ codes "gate" → string_bytes number ≡ codes "n"
        → string_bytes boolean ≡ codes "up" → string_bytes entry ≡ codes "pass"
        → string_bytes second ≡ codes "late"
        → let called = named unread number boolean (entry ∷ second ∷ []) (lit< tt) in
        shows (gates called)
        (gates_are called (pos 0) false [] (first_call 3 ∷ first_call 1 ∷ []))
        ≡ codes "object gate n=0 up=false queue pass none queue late task 3 call 1 arg 0"
        ++ codes " task 1 call 1 arg 0\nclock 0\n" }
{}

/// The box, of whose timing events one is set for a time below 0 and the other is not set.
pub fn boxes_are_shown()
    // claim: Worked: the clock and each timing event are shown, set for its time or off
    ensures { (unread : Unread) (number : String Global)
        → string_bytes unread.name ≡ codes "box" → string_bytes number ≡ codes "n"
        → let called = number_named unread number in
        shows (box called) (box_is called (pos 7) (Some (negsuc 4)) None 7)
        ≡ codes "object box n=7\nclock 7\ntimer box at -5\ntimer box off\n" }
{}
