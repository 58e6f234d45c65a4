//! What holds of all conditions.
ghost use Rattle.std.specs.Prelude.{◌≡◌, ◌≢◌, ◌≤◌, ◌<◌, ℕ, ℤ, List, [], ◌∷◌, length, codes, pos, false};
ghost use Rattle.model.specs.Conditions.{compares, meets};
ghost use Rattle.model.specs.Types.{CondOp as Operation, Cmp, Eq as Equals};
ghost use Rattle.rc_conditions.specs.Expressions.{Expression as Tree, IsPostfix, postfix, is_met, NumbersFit};
ghost use Rattle.rc_conditions.specs.Grammar.{Reads};
ghost use Rattle.rc_conditions.specs.Printing.{printed};

/// The canonical text of an expression is read back to its operations, and that of the empty condition to `RC = 0`.
pub fn printed_texts_are_read_back()
    ensures expression { (e : Tree) → NumbersFit e → Reads (printed e) (postfix e) }
    ensures default { Reads (codes "RC = 0") (Cmp Equals (pos 0) ∷ []) }
{}

/// No text is two conditions.
pub fn texts_have_one_reading()
    ensures { (text : List ℕ) → (a b : List Operation) → Reads text a → Reads text b → a ≡ b }
{}

/// A condition of at most 64 operations holds where its expression is met.
pub fn conditions_hold_where_they_are_met()
    ensures { (e : Tree) → (rc : ℤ) → length (postfix e) ≤ 64 → meets (postfix e) rc ≡ is_met e rc }
{}

/// The empty list asks for 0. Any other list that is no postfix expression, and each of more than 64 operations, holds of
/// no return code.
pub fn other_lists_hold_of_nothing()
    ensures empty { (rc : ℤ) → meets [] rc ≡ compares Equals rc (pos 0) }
    ensures no_expression { (ops : List Operation) → (rc : ℤ) → ops ≢ [] → ¬ (IsPostfix ops) → meets ops rc ≡ false }
    ensures too_long { (ops : List Operation) → (rc : ℤ) → 64 < length ops → meets ops rc ≡ false }
{}
