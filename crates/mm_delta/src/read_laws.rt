//! Laws on the number of rows that a change may read. The clauses of the code are upper bounds, so they would still be proved if a
//! definition counted a row too many. These laws would fail then. No code calls them.
ghost use Rattle.std.specs.Prelude.{◌≡◌, ◌+◌, ◌++◌, ◌<◌, ℕ, ℤ, Bool, true, false, All, FitsSigned, List, [], ◌∷◌, Option, Some, None, get_or, length, set};
ghost use Rattle.std.specs.Int.{w64};
ghost use Rattle.mm_store.specs.Tables.{Tables};
ghost use Rattle.mm_value.specs.Storable.{AreStorable};
ghost use Rattle.mm_value.specs.declared.values.Value.{Value};
ghost use Rattle.mm_value.specs.declared.values.Value.TheVariants.{Int};
ghost use Rattle.mm_query.specs.Atoms.{holds};
ghost use Rattle.mm_query.specs.Queries.{Partial, none_fails, value_at};
ghost use Rattle.mm_query.specs.declared.atom.Atom.{Atom};
ghost use Rattle.mm_query.specs.declared.bound_query.BoundQuery.{BoundQuery};
ghost use Rattle.mm_query.specs.declared.bound_query.FieldPlace.{FieldPlace};
ghost use Rattle.mm_delta.specs.Candidates.{Required, asked_by, candidates, has_required, having, required};
ghost use Rattle.mm_delta.specs.Edited.{come_at, gone_at};
ghost use Rattle.mm_delta.specs.Steps.{reads_for, row_reads, term_reads};
ghost use Rattle.mm_delta.specs.Walk.{one_row, other_places};
ghost use Rattle.mm_delta.specs.declared.edited.TableChange.{TableChange};

/// An edited row that is left out reads no other row. Any other edited row reads its candidates.
pub fn left_out_rows_are_not_combined()
    ensures left_out { (query : BoundQuery) (store : Tables) (changes : List TableChange) (tables : List ℕ) (skipped : ℕ → List Value → Bool) (k : ℕ) (row : List Value)
        → skipped k row ≡ true → row_reads query store changes tables skipped k row ≡ 0 }
    ensures others { (query : BoundQuery) (store : Tables) (changes : List TableChange) (tables : List ℕ) (skipped : ℕ → List Value → Bool) (k : ℕ) (row : List Value)
        → skipped k row ≡ false → row_reads query store changes tables skipped k row
        ≡ reads_for query store changes tables k (other_places (length tables) k) (one_row (length tables) k row) }
{}

/// A place of FROM whose table has no edited row reads nothing. If all edited rows of a place are left out, only these rows are read. A
/// place with a single edited row reads it and its candidates.
pub fn each_edited_row_is_read_once()
    ensures unedited { (query : BoundQuery) (store : Tables) (changes : List TableChange) (tables : List ℕ) (skipped : ℕ → List Value → Bool) (k : ℕ)
        → gone_at store changes (get_or tables k 0) ≡ [] → come_at store changes (get_or tables k 0) ≡ []
        → term_reads query store changes tables skipped k ≡ 0 }
    ensures left_out { (query : BoundQuery) (store : Tables) (changes : List TableChange) (tables : List ℕ) (skipped : ℕ → List Value → Bool) (k : ℕ)
        → All (λ row. skipped k row ≡ true) (gone_at store changes (get_or tables k 0) ++ come_at store changes (get_or tables k 0))
        → term_reads query store changes tables skipped k
        ≡ length (gone_at store changes (get_or tables k 0)) + length (come_at store changes (get_or tables k 0)) }
    ensures single { (query : BoundQuery) (store : Tables) (changes : List TableChange) (tables : List ℕ) (skipped : ℕ → List Value → Bool) (k : ℕ) (row : List Value)
        → gone_at store changes (get_or tables k 0) ++ come_at store changes (get_or tables k 0) ≡ row ∷ []
        → term_reads query store changes tables skipped k ≡ 1 + row_reads query store changes tables skipped k row }
{}

/// If an atom is already false, nothing more is read, however many places are still empty. Nothing more is read either once every place has
/// a row. If one place is empty and no atom is false, the rows read are those before the change that have the required value.
pub fn rows_that_fail_have_no_candidates()
    ensures fails { (indexed : ℕ → ℕ → Bool) (atoms : List (Atom FieldPlace)) (before rows : ℕ → List (List Value)) (places : List ℕ) (m : Partial)
        → none_fails atoms m ≡ false → candidates indexed atoms before rows places m ≡ 0 }
    ensures complete { (indexed : ℕ → ℕ → Bool) (atoms : List (Atom FieldPlace)) (before rows : ℕ → List (List Value)) (m : Partial)
        → candidates indexed atoms before rows [] m ≡ 0 }
    ensures one_place { (indexed : ℕ → ℕ → Bool) (atoms : List (Atom FieldPlace)) (before rows : ℕ → List (List Value)) (place : ℕ) (m : Partial)
        → none_fails atoms m ≡ true → candidates indexed atoms before rows (place ∷ []) m
        ≡ length (having (required (indexed place) atoms m place) (before place)) }
{}

/// The first atom that requires a value of a row determines the required value. If no atom requires one, none is required.
pub fn the_first_atom_that_requires_decides()
    ensures first { (indexed : ℕ → Bool) (atom : Atom FieldPlace) (atoms : List (Atom FieldPlace)) (m : Partial) (place : ℕ) (asked : Required)
        → asked_by indexed place m atom atom.comparison ≡ Some asked → required indexed (atom ∷ atoms) m place ≡ Some asked }
    ensures later { (indexed : ℕ → Bool) (atom : Atom FieldPlace) (atoms : List (Atom FieldPlace)) (m : Partial) (place : ℕ)
        → asked_by indexed place m atom atom.comparison ≡ None → required indexed (atom ∷ atoms) m place ≡ required indexed atoms m place }
    ensures none { (indexed : ℕ → Bool) (m : Partial) (place : ℕ) → required indexed [] m place ≡ None }
{}

/// A row has the value that an atom requires exactly if the atom is true of it and of the chosen rows. So each row that is read for an atom
/// satisfies it, and no row that satisfies it is skipped.
pub fn rows_with_what_is_required_meet_the_atom()
    ensures { (indexed : ℕ → Bool) (atom : Atom FieldPlace) (m : Partial) (place : ℕ) (asked : Required) (row : List Value)
        → place < length m → get_or m place None ≡ None → asked_by indexed place m atom atom.comparison ≡ Some asked
        → has_required asked row ≡ holds (value_at (set m place (Some row))) atom }
{}

/// No row of storable values contains a number that does not fit into 64 bits, so looking one up reads no row.
pub fn no_row_has_a_number_past_64_bits()
    ensures { (column : ℕ) (number : ℤ) (rows : List (List Value)) → ¬ FitsSigned w64 number → All AreStorable rows
        → having (Some (column, Int number)) rows ≡ [] }
{}
