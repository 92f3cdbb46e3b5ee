//! The law of the change of a query's bag.
ghost use Rattle.std.specs.Prelude.{◌≡◌, ◌++◌, ◌+ℤ◌, ℕ, List, length, map, pos, IsPermutation};
ghost use Rattle.std.specs.List.{fold, range_with_len};
ghost use Rattle.mm_value.specs.declared.values.Value.{Value};
ghost use Rattle.mm_query.specs.declared.bound_query.BoundQuery.{BoundQuery};
ghost use Rattle.mm_delta.specs.Change.{change_of};
ghost use Rattle.mm_delta.specs.Terms.{term};

/// The change of a row's count is the sum of its terms, one for each place of FROM, whatever tables are changed. Assumes that the rows
/// after the change plus the deleted rows are, in any order, the rows before it plus the inserted rows.
pub fn change_is_the_sum_of_its_terms()
    ensures { (query : BoundQuery) (before after gone come : List ℕ → List (List Value)) (row : List Value)
        → ((name : List ℕ) → IsPermutation (after name ++ gone name) (before name ++ come name))
        → change_of query before after row
        ≡ fold ◌+ℤ◌ (pos 0) (map (λ k. term query before after gone come k row) (range_with_len 0 (length query.from))) }
{}
