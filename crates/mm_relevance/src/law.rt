//! Laws of cycles and their inequalities.
ghost use Rattle.std.specs.Prelude.{◌≡◌, ◌∷◌, [], ◌↔◌, ℕ, Bool, true, List, Some, IfSome, get_or, length, map, slice_get};
ghost use Rattle.mm_value.specs.declared.values.Value.{Value as Val};
ghost use Rattle.mm_query.specs.Atoms.{holds};
ghost use Rattle.mm_query.specs.Queries.{bag_of, value_at};
ghost use Rattle.mm_query.specs.declared.atom.Atom.{Atom as Asked};
ghost use Rattle.mm_query.specs.declared.bound_query.BoundQuery.{BoundQuery as Query};
ghost use Rattle.mm_query.specs.declared.bound_query.FieldPlace.{FieldPlace as Field};
ghost use Rattle.mm_relevance.specs.Relevance.{ComparesNumbers, IsCombinationWith, IsCyclic, IsIrrelevant, IsTrueOf, edge_at};
ghost use Rattle.mm_query.specs.Additions.{AddsToNumbers};
ghost use Rattle.mm_relevance.specs.Walks.{name_of};

/// Law: a row with an accepted cycle is irrelevant: no combination with it fits the query.
pub fn cyclic_is_irrelevant()
    ensures { (query : Query) (place : ℕ) (row : List Val) → IsCyclic query place row → IsIrrelevant query place row }
{}

/// Law: the combinations with a cyclic row at its position contribute nothing to the result of a query, if no atom adds a number to a text.
pub fn cyclic_rows_add_nothing()
    ensures { (query : Query) (place : ℕ) (row : List Val) (lists : List (List (List Val))) → IsCyclic query place row
        → length lists ≡ length query.from → slice_get lists place ≡ Some (row ∷ []) → AddsToNumbers query (λ j. get_or lists j [])
        → bag_of query lists ≡ [] }
{}

/// Law: an atom that compares two integers of a combination is true exactly if all of its inequalities are.
pub fn edges_say_what_atoms_say()
    ensures { (query : Query) (place : ℕ) (row : List Val) (combination : List (List Val)) (conjunct : ℕ) (atom : Asked Field)
        → IsCombinationWith query place row combination → slice_get query.atoms conjunct ≡ Some atom → ComparesNumbers (map Some combination) atom
        → (holds (value_at (map Some combination)) atom ≡ true)
        ↔ ((upper : Bool) → IfSome (edge_at query place row (name_of conjunct upper)) (IsTrueOf combination)) }
{}
