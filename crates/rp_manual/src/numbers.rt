//! Values beyond 64 signed bits (`rp_manual` Sums).

ghost use Rattle.std.specs.Prelude.{true, List, [], ◌∷◌};
ghost use Rattle.rp_object.specs.rp_base.specs.declared.reply.Reply.TheVariants.{Value, Truth, ConstraintError};
ghost use Rattle.rp_manual.specs.Memory.{Unread};
ghost use Rattle.rp_manual.specs.Outcomes.{LeadTo, gets};
ghost use Rattle.rp_manual.specs.Sums.{sums, sums_are, greatest_number, computes};

/// Twice the greatest number raises Constraint_Error where it is the result, is compared as it is, and
/// less the number is the number again.
pub fn values_are_exact_until_they_are_returned()
    // claim: Worked: a value may pass 64 signed bits within an expression, and raises as a result
    ensures { (unread : Unread)
        → LeadTo (sums unread) (computes 1 1 ∷ computes 2 2 ∷ computes 3 3 ∷ [])
        (gets 1 1 ConstraintError ∷ gets 1 2 (Truth true) ∷ gets 1 3 (Value greatest_number) ∷ [])
        (sums_are unread) }
{}
