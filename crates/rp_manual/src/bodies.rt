//! What expressions, conditions and statements do (Ada Reference Manual, sections 4.5, 5.1 to 5.3 and
//! 11.4).

ghost use Rattle.std.specs.Prelude.{◌≡◌, ◌⊎◌, ◌↔◌, ℕ, ℤ, pos, ◌<ℤ◌, ◌≤ℤ◌, true, false, Some, Vec, List, [], ◌∷◌, FitsSigned};
ghost use Rattle.std.specs.Int.{w64};
ghost use Rattle.std.specs.declared.alloc.Global.{Global};
ghost use Rattle.std.specs.FinMap.{get};
ghost use Rattle.rp_object.specs.rp_body.specs.declared.components.Ranged.{Ranged};
ghost use Rattle.rp_object.specs.rp_body.specs.declared.expression.Expr.{Expr};
ghost use Rattle.rp_object.specs.rp_body.specs.declared.expression.Cond.{Cond};
ghost use Rattle.rp_object.specs.rp_body.specs.declared.statement.Stmt.{Stmt};
ghost use Rattle.rp_object.specs.rp_body.specs.declared.statement.Stmt.TheVariants.{Set, Put, Out as PutOut, If};
ghost use Rattle.rp_object.specs.rp_body.specs.declared.statement.Outcome.TheVariants.{Out, Raised};
ghost use Rattle.rp_object.specs.rp_body.specs.Store.{Store};
ghost use Rattle.rp_object.specs.rp_body.specs.Expressions.{value_of, truth_of};
ghost use Rattle.rp_object.specs.rp_body.specs.Meaning.{effect_of, effects_of, body_effect};
ghost use Rattle.rp_manual.specs.Expressions.{HasValue, IsMet};
ghost use Rattle.rp_manual.specs.Statements.{Assigns, SetsBoolean};

/// An expression has the value that its words say: numbers, the argument, the out value and
/// components as they are, and sums and differences of these without bounds.
pub fn expressions_mean_their_words()
    // claim: Each expression has the value that its words say, exact and without bounds
    ensures { (expr : Expr) (store : Store) (arg out value : ℤ)
        → HasValue expr store arg out value ↔ (value_of expr store arg out ≡ value) }
{}

/// A condition is True exactly where its words hold: `lt` is less than, `le` at most, `eq` equal,
/// of all whole numbers, and `not`, `and` and `or` are those of logic.
pub fn conditions_mean_their_words()
    // claim: Each condition is True exactly where its words hold, for all whole numbers
    ensures { (cond : Cond) (store : Store) (arg out : ℤ)
        → IsMet cond store arg out ↔ (truth_of cond store arg out ≡ true) }
{}

/// An assignment gives the component the value where that lies in its range, both ends included,
/// and otherwise raises Constraint_Error and changes nothing; no other component changes. The out
/// value has 64 signed bits, and a further one raises.
pub fn assignments_keep_to_their_range()
    // claim: An assignment within the range assigns, and one outside it raises and changes nothing
    ensures within { (arg out : ℤ) (name : ℕ) (expr : Expr) (store : Store) (component : Ranged)
        → get store.ints name ≡ Some component
        → let value = value_of expr store arg out in
        component.low ≤ℤ value → value ≤ℤ component.high
        → let did = effect_of arg (Set name expr) store out in
        Assigns name value store did.0 × (did.1 ≡ Out out) }
    ensures outside { (arg out : ℤ) (name : ℕ) (expr : Expr) (store : Store) (component : Ranged)
        → get store.ints name ≡ Some component
        → let value = value_of expr store arg out in
        (value <ℤ component.low) ⊎ (component.high <ℤ value)
        → effect_of arg (Set name expr) store out ≡ (store, Raised) }
    ensures booleans { (arg out : ℤ) (name : ℕ) (cond : Cond) (store : Store)
        → let did = effect_of arg (Put name cond) store out in
        SetsBoolean name (truth_of cond store arg out) store did.0 × (did.1 ≡ Out out) }
    ensures out { (arg out : ℤ) (expr : Expr) (store : Store)
        → let value = value_of expr store arg out in
        FitsSigned w64 value → effect_of arg (PutOut expr) store out ≡ (store, Out value) }
    ensures beyond { (arg out : ℤ) (expr : Expr) (store : Store)
        → ¬ FitsSigned w64 (value_of expr store arg out)
        → effect_of arg (PutOut expr) store out ≡ (store, Raised) }
{}

/// An `if` runs its first statements where its condition is True, and otherwise its second ones.
pub fn conditions_choose()
    // claim: A conditional statement runs the statements that its condition chooses
    ensures first { (arg out : ℤ) (cond : Cond) (first second : Vec Stmt Global) (store : Store)
        → truth_of cond store arg out ≡ true
        → effect_of arg (If cond first second) store out ≡ effects_of arg first.items store out }
    ensures second { (arg out : ℤ) (cond : Cond) (first second : Vec Stmt Global) (store : Store)
        → truth_of cond store arg out ≡ false
        → effect_of arg (If cond first second) store out ≡ effects_of arg second.items store out }
{}

/// The statements of a body run one after another, each from the components and the out value that
/// the one before left, the first with the out value 0; after an exception none runs, and what was
/// assigned before stays.
pub fn statements_run_in_order()
    // claim: The statements of a body run in order; an exception ends the body, and what was assigned
    //   before it stays
    ensures begins { (body : List Stmt) (arg : ℤ) (store : Store)
        → body_effect body arg store ≡ effects_of arg body store (pos 0) }
    ensures ends { (arg out : ℤ) (store : Store) → effects_of arg [] store out ≡ (store, Out out) }
    ensures goes_on { (arg out next : ℤ) (first : Stmt) (rest : List Stmt) (store after : Store)
        → effect_of arg first store out ≡ (after, Out next)
        → effects_of arg (first ∷ rest) store out ≡ effects_of arg rest after next }
    ensures raises { (arg out : ℤ) (first : Stmt) (rest : List Stmt) (store after : Store)
        → effect_of arg first store out ≡ (after, Raised)
        → effects_of arg (first ∷ rest) store out ≡ (after, Raised) }
{}
