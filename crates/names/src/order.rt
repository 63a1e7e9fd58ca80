//! Laws of the order of names.

ghost use Rattle.std.specs.Prelude.{ℕ, ◌≡◌, ◌<◌, true, List, ◌∷◌, ◌++◌};
ghost use Rattle.std.specs.Cmp.{IsTotalOrder};
ghost use Rattle.std.specs.Ordering.{is_eq};
ghost use Rattle.std.specs.declared.cmp.Ordering.TheVariants.{Less};
ghost use Rattle.fsa_types.specs.CaseTable.{up, same_name, cmp_name};

/// By each case table the order of names is total, and two names are equal in it exactly where
/// they are the same. The first units that differ when upcased decide, by their values; a name
/// stands before each longer one that begins with the same name.
pub fn order_of_names()
    ensures total { (table : List (ℕ × ℕ)) → IsTotalOrder (cmp_name table) }
    ensures same { (table : List (ℕ × ℕ)) (left right : List ℕ) → same_name table left right ≡ is_eq (cmp_name table left right) }
    ensures units { (table : List (ℕ × ℕ)) (front start : List ℕ) (low high : ℕ) (left right : List ℕ) → same_name table front start ≡ true
        → up table low < up table high → cmp_name table (front ++ low ∷ left) (start ++ high ∷ right) ≡ Less }
    ensures prefix { (table : List (ℕ × ℕ)) (name start : List ℕ) (unit : ℕ) (more : List ℕ) → same_name table name start ≡ true
        → cmp_name table name (start ++ unit ∷ more) ≡ Less }
{}
