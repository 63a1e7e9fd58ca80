//! Laws of an index beside a table of rows.

ghost use Rattle.std.specs.Prelude.{ℕ, ◌≡◌, Bool, true, List, ◌∷◌, [], ◌++◌, ◌==◌, ◌&&◌, All, Some, not, filter, find, length, option_map, slice_get};
ghost use Rattle.std.specs.List.{list_any};
ghost use Rattle.fsa_types.specs.Ranges.{without_first};
ghost use Rattle.fsa_types.specs.Rows.{IsNumbered, lives, row_of, with_row_changed, without_row};
ghost use Rattle.key_index.specs.Index.{IsSameByKey, entries_under, has_key, is_entry};
ghost use Rattle.key_index.specs.RowsByKey.{IsIndexOf, pairs, row_passes, rows_of_entries, rows_with};

/// What an index tells of the rows of a table whose numbers it has under their keys. It is kept where a row
/// comes, where one or all of a key go, and where one changes but for its key. The entries of a key are those of
/// the rows that have it, in order, so that the first of them and how many there are is known by the entries
/// alone; each of their numbers is that of a row; and to look for a row that has the key and passes a test, to ask
/// whether there is one, and to count or list those that there are, is the same among the rows of these numbers
/// alone.
pub fn index_of_rows<R>()
    ensures empty { (key : R → ℕ) → IsIndexOf key [] [] }
    ensures added { (key : R → ℕ) (rows : List (ℕ × R)) (old new : List (ℕ × ℕ)) (id : ℕ) (row : R) → IsIndexOf key rows old
        → IsSameByKey new (old ++ (key row, id) ∷ []) → IsIndexOf key (rows ++ (id, row) ∷ []) new }
    ensures removed { (key : R → ℕ) (rows : List (ℕ × R)) (last : ℕ) (entries : List (ℕ × ℕ)) (id : ℕ) (row : R) → IsNumbered rows last → IsIndexOf key rows entries
        → row_of rows id ≡ Some row → IsIndexOf key (without_row rows id) (without_first (is_entry (key row) id) entries) }
    ensures cleared { (key : R → ℕ) (rows : List (ℕ × R)) (entries : List (ℕ × ℕ)) (k : ℕ) → IsIndexOf key rows entries
        → IsIndexOf key (filter (λ row. not (key row.1 == k)) rows) (filter (λ e. not (has_key k e)) entries) }
    ensures changed { (key : R → ℕ) (change : R → R) (rows : List (ℕ × R)) (entries : List (ℕ × ℕ)) (id : ℕ) → ((row : R) → key (change row) ≡ key row) → IsIndexOf key rows entries
        → IsIndexOf key (with_row_changed change rows id) entries }
    ensures entries { (key : R → ℕ) (rows : List (ℕ × R)) (entries : List (ℕ × ℕ)) (k : ℕ) → IsIndexOf key rows entries
        → entries_under entries k ≡ pairs key (rows_with key rows k) }
    ensures live { (key : R → ℕ) (rows : List (ℕ × R)) (entries : List (ℕ × ℕ)) (k : ℕ) → IsIndexOf key rows entries
        → All (λ entry. lives rows entry.1 ≡ true) (entries_under entries k) }
    ensures first { (key : R → ℕ) (rows : List (ℕ × R)) (entries : List (ℕ × ℕ)) (k : ℕ) → IsIndexOf key rows entries
        → option_map (λ row. row.0) (find (λ row. key row.1 == k) rows) ≡ option_map (λ entry. entry.1) (slice_get (entries_under entries k) 0) }
    ensures many { (key : R → ℕ) (rows : List (ℕ × R)) (entries : List (ℕ × ℕ)) (k : ℕ) → IsIndexOf key rows entries
        → length (filter (λ row. key row.1 == k) rows) ≡ length (entries_under entries k) }
    ensures rows { (key : R → ℕ) (rows : List (ℕ × R)) (last : ℕ) (entries : List (ℕ × ℕ)) (k : ℕ) → IsNumbered rows last → IsIndexOf key rows entries
        → rows_of_entries rows (entries_under entries k) ≡ rows_with key rows k }
    ensures listed { (key : R → ℕ) (rows : List (ℕ × R)) (last : ℕ) (entries : List (ℕ × ℕ)) (k : ℕ) (test : ℕ × R → Bool) → IsNumbered rows last → IsIndexOf key rows entries
        → filter (λ row. key row.1 == k && test row) rows ≡ filter test (rows_of_entries rows (entries_under entries k)) }
    ensures found { (key : R → ℕ) (rows : List (ℕ × R)) (last : ℕ) (entries : List (ℕ × ℕ)) (k : ℕ) (test : ℕ × R → Bool) → IsNumbered rows last → IsIndexOf key rows entries
        → option_map (λ row. row.0) (find (λ row. key row.1 == k && test row) rows) ≡ option_map (λ entry. entry.1) (find (row_passes rows test) (entries_under entries k)) }
    ensures any { (key : R → ℕ) (rows : List (ℕ × R)) (last : ℕ) (entries : List (ℕ × ℕ)) (k : ℕ) (test : ℕ × R → Bool) → IsNumbered rows last → IsIndexOf key rows entries
        → list_any (λ row. key row.1 == k && test row) rows ≡ list_any (row_passes rows test) (entries_under entries k) }
    ensures counted { (key : R → ℕ) (rows : List (ℕ × R)) (last : ℕ) (entries : List (ℕ × ℕ)) (k : ℕ) (test : ℕ × R → Bool) → IsNumbered rows last → IsIndexOf key rows entries
        → length (filter (λ row. key row.1 == k && test row) rows) ≡ length (filter (row_passes rows test) (entries_under entries k)) }
{}
