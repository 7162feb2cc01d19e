//! What follows from the meaning of bodies alone.

ghost use Rattle.std.specs.Prelude.{ℤ, List, IsTrue};
ghost use Rattle.rp_body.specs.declared.components.Limits.{Limits};
ghost use Rattle.rp_body.specs.declared.statement.Stmt.{Stmt};
ghost use Rattle.rp_body.specs.Store.{Store};
ghost use Rattle.rp_body.specs.Meaning.{body_effect};
ghost use Rattle.rp_body.specs.Ranges.{KeepsRanges, HasBools, HasBoolsOf};
ghost use Rattle.rp_body.specs.Check.{body_fits};

/// No body changes which whole numbers there are or a range, and values that lie in their ranges
/// still do, also where it raises.
pub fn bodies_keep_ranges()
    // claim: No body changes a range, and values in range stay in range
    ensures { (body : List Stmt) (arg : ℤ) (store : Store)
        → KeepsRanges store (body_effect body arg store).0 }
{}

/// No body that names only components that are there changes which Booleans there are.
pub fn bodies_keep_booleans()
    ensures { (limits : Limits) (body : List Stmt) (arg : ℤ) (store : Store)
        → HasBools limits store → IsTrue (body_fits limits body)
        → HasBoolsOf store (body_effect body arg store).0 }
{}
