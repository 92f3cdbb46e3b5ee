//! Laws of the meaning of queries.
ghost use Rattle.std.specs.Prelude.{◌≡◌, ◌&&◌, ℕ, Bool, List, IsTrue, if◌then◌else◌};
ghost use Rattle.std.specs.Cmp.{IsTotalOrder};
ghost use Rattle.std.specs.List.{count_by, dedup, list_any};
ghost use Rattle.std.specs.List.Sorted.{IsPermutation, IsSorted};
ghost use Rattle.std.proofs.lemmas.Map.Lookups.{CmpEqualImpliesEq};
ghost use Rattle.mm_value.specs.declared.values.Value.{Value};
ghost use Rattle.mm_schema.specs.Refused.{ascend};
ghost use Rattle.mm_schema.specs.Sorting.{in_order};
ghost use Rattle.mm_query.specs.Counting.{pass_each, product_of_counts};
ghost use Rattle.mm_query.specs.Queries.{bag_of, combinations, fits, one_of_each, projected, rows_by_columns, same_row, shown};
ghost use Rattle.mm_query.specs.Resolving.{select_conditions};
ghost use Rattle.mm_query.specs.State.{State};
ghost use Rattle.mm_query.specs.declared.bound_query.BoundQuery.{BoundQuery};
ghost use Rattle.mm_query.specs.declared.query.Query.{Query};

/// The conditions of a query are in the one order of refusals.
pub fn query_conditions_ascend()
    ensures { (query : Query) (state : State) → IsTrue (ascend (select_conditions query state)) }
{}

/// The plain product has each way to choose one element of each list, as often as there are such elements: for any conditions on the
/// elements, the number of combinations that satisfy them is the product of the numbers of elements that do. The count of a row in a bag is
/// the number of matching combinations that yield it.
pub fn combinations_are_counted<T>()
    ensures product { (tests : List (T → Bool)) (lists : List (List T)) → count_by (pass_each tests) (combinations lists) ≡ product_of_counts tests lists }
    ensures bag { (query : BoundQuery) (lists : List (List (List Value))) (row : List Value)
        → count_by (same_row row) (bag_of query lists) ≡ count_by (λ c. fits query c && same_row row (projected query c)) (combinations lists) }
{}

/// DISTINCT keeps exactly one of each row.
pub fn distinct_keeps_one_of_each()
    ensures { (rows : List (List Value)) (row : List Value)
        → count_by (same_row row) (one_of_each rows) ≡ (if list_any (same_row row) rows then 1 else 0) }
{}

/// The shown rows are exactly the given rows, sorted by the columns of ORDER and then as whole rows. This order is total, and only equal
/// rows compare as equal, so there is exactly one such list, also with DISTINCT: it does not depend on the order in which the rows are
/// given. Dropping equal neighbours of sorted rows leaves one of each.
pub fn shown_rows_are_sorted()
    ensures permutation { (query : BoundQuery) (rows : List (List Value)) → IsPermutation rows (shown query rows) }
    ensures sorted { (query : BoundQuery) (rows : List (List Value)) → IsSorted (rows_by_columns query.order) (shown query rows) }
    ensures total { (columns : List ℕ) → IsTotalOrder (rows_by_columns columns) }
    ensures exact { (columns : List ℕ) → CmpEqualImpliesEq (rows_by_columns columns) }
    ensures unique { (columns : List ℕ) (a b : List (List Value)) → IsPermutation a b
        → in_order (rows_by_columns columns) a ≡ in_order (rows_by_columns columns) b }
    ensures unique_once { (columns : List ℕ) (a b : List (List Value)) → IsPermutation a b
        → in_order (rows_by_columns columns) (one_of_each a) ≡ in_order (rows_by_columns columns) (one_of_each b) }
    ensures neighbours { (columns : List ℕ) (rows : List (List Value))
        → in_order (rows_by_columns columns) (one_of_each rows) ≡ dedup same_row (in_order (rows_by_columns columns) rows) }
{}
