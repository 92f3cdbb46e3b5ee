//! Laws of bound commands.
ghost use Rattle.std.specs.Prelude.{◌≡◌, ◌∷◌, ℕ, List, [], Some, map};
ghost use Rattle.mm_value.specs.declared.values.Value.{Value};
ghost use Rattle.mm_query.specs.Atoms.{holds, reads};
ghost use Rattle.mm_query.specs.Binding.{at_first};
ghost use Rattle.mm_query.specs.Edits.{meets};
ghost use Rattle.mm_query.specs.Placing.{mapped_atom};
ghost use Rattle.mm_query.specs.Queries.{none_fails, value_at};
ghost use Rattle.mm_query.specs.declared.atom.Atom.{Atom};

/// A test of a change is equivalent to an atom of a query of its table alone: one holds of a row if and only if the other does. So a row
/// matches all tests if and only if none of the atoms fails.
pub fn tests_are_atoms()
    ensures one { (test : Atom ℕ) (row : List Value) → holds (value_at (Some row ∷ [])) (mapped_atom at_first test) ≡ holds (reads row) test }
    ensures all { (tests : List (Atom ℕ)) (row : List Value) → none_fails (map (mapped_atom at_first) tests) (Some row ∷ []) ≡ meets tests row }
{}
