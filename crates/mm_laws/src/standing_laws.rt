//! Laws of standing queries.
ghost use Rattle.std.specs.Prelude.{◌≡◌, ℕ, false, None, Some, List};
ghost use Rattle.std.specs.List.{AllByRecursion, list_any};
ghost use Rattle.std.specs.List.Sorted.{IsPermutation, IsSorted};
ghost use Rattle.mm_schema.specs.Name.{same_name};
ghost use Rattle.mm_schema.specs.Refused.{first_refusal};
ghost use Rattle.mm_schema.specs.Instance.{TableEdits};
ghost use Rattle.mm_query.specs.Edits.{edits};
ghost use Rattle.mm_query.specs.Machine.{after_change, change_conditions, step};
ghost use Rattle.mm_query.specs.Queries.{bag, eval, rows_by_columns};
ghost use Rattle.mm_query.specs.Resolving.{selected};
ghost use Rattle.mm_query.specs.Standing.{AreBound, HasQueries, after_unwatch, after_watch, outgrows, query_named, shown_rows, tables_read, watch_conditions};
ghost use Rattle.mm_query.specs.State.{State, first_state, rows_in};
ghost use Rattle.mm_query.specs.declared.bound_query.BoundQuery.{BoundQuery};
ghost use Rattle.mm_query.specs.declared.command.Command.{Command};
ghost use Rattle.mm_query.specs.declared.command.Mutation.{Mutation};
ghost use Rattle.mm_query.specs.declared.query.Query.{Query};

/// Each standing query has its bound query, all of whose tables and columns exist: at first, and after each command if it was so before.
pub fn standing_queries_stay_bound()
    ensures first { HasQueries first_state × AreBound first_state }
    ensures step { (command : Command) (state : State) → HasQueries state → AreBound state
        → HasQueries (step command state).state × AreBound (step command state).state }
{}

/// A standing query shows exactly the rows of its query over the current rows, sorted as by a SELECT: right after it is created, those of
/// that SELECT. Creating or dropping a standing query does not change the rows of the others, and a dropped one no longer exists.
pub fn standing_queries_are_shown()
    ensures permutation { (name : List ℕ) (query : BoundQuery) (state : State) → query_named name state.schema.standing state.queries ≡ Some query
        → IsPermutation (eval query (rows_in state)) (shown_rows name state) }
    ensures sorted { (name : List ℕ) (query : BoundQuery) (state : State) → query_named name state.schema.standing state.queries ≡ Some query
        → IsSorted (rows_by_columns query.order) (shown_rows name state) }
    ensures watch { (name : List ℕ) (query : Query) (state : State) → HasQueries state → first_refusal (watch_conditions name query state) ≡ None
        → shown_rows name (after_watch name query state) ≡ selected query state }
    ensures others_watch { (name : List ℕ) (query : Query) (state : State) (other : List ℕ) → HasQueries state → same_name other name ≡ false
        → shown_rows other (after_watch name query state) ≡ shown_rows other state }
    ensures others_unwatch { (name : List ℕ) (state : State) (other : List ℕ) → same_name name other ≡ false
        → shown_rows other (after_unwatch name state) ≡ shown_rows other state }
    ensures unwatch { (name : List ℕ) (state : State)
        → query_named name (after_unwatch name state).schema.standing (after_unwatch name state).queries ≡ None }
{}

/// No more than 1,048,576 combinations match a standing query over the rows after a successful change, or when a standing query is created,
/// if this held before. A change of tables that a query does not read does not change its combinations.
pub fn standing_queries_stay_within_limit()
    ensures change { (mutation : Mutation) (state : State) → first_refusal (change_conditions mutation state) ≡ None
        → list_any (outgrows (after_change mutation state)) (after_change mutation state).queries ≡ false }
    ensures others { (mutation : Mutation) (state : State) (query : BoundQuery)
        → AllByRecursion (λ (e : TableEdits). list_any (same_name e.table) (tables_read query) ≡ false) (edits mutation state)
        → bag query (rows_in (after_change mutation state)) ≡ bag query (rows_in state) }
    ensures watch { (name : List ℕ) (query : Query) (state : State) → list_any (outgrows state) state.queries ≡ false
        → first_refusal (watch_conditions name query state) ≡ None
        → list_any (outgrows (after_watch name query state)) (after_watch name query state).queries ≡ false }
{}
