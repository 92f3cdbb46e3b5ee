//! Laws of commands that differ only in their literals.
ghost use Rattle.std.specs.Prelude.{◌≡◌, ◌++◌, ◌∷◌, [], Bool, List, Result, ℤ, false, length, neg_ℤ, negsuc, pos, true};
ghost use Rattle.std.specs.List.{flat_map};
ghost use Rattle.mm_schema.specs.Refused.{first_refusal};
ghost use Rattle.mm_schema.specs.Schema.{Schema};
ghost use Rattle.mm_query.specs.Binding.{Binds, binding_conditions};
ghost use Rattle.mm_query.specs.Resolving.{IsQueryWithin, placed_query, query_conditions};
ghost use Rattle.mm_query.specs.declared.bind.BoundChange.{BoundChange};
ghost use Rattle.mm_query.specs.declared.bound_query.BoundQuery.{BoundQuery};
ghost use Rattle.mm_query.specs.declared.command.Command.{Command};
ghost use Rattle.mm_query.specs.declared.command.Command.TheVariants.{Change, Select};
ghost use Rattle.mm_query.specs.declared.command.Mutation.{Mutation};
ghost use Rattle.mm_query.specs.declared.query.Query.{Query};
ghost use Rattle.mm_lang.specs.Reading.{position_literals, query_literals};
ghost use Rattle.mm_statement.specs.Alike.{AreAlike, AreAlikeChanges, blank_bound_change, blank_bound_query};
ghost use Rattle.mm_statement.specs.Alike.{bound_change_literals, bound_query_literals, change_literals};
ghost use Rattle.mm_statement.specs.Filling.{Filled, IsFilling, blank_query, merged};
ghost use Rattle.mm_statement.specs.Holes.{hole_count, hole_places};
ghost use Rattle.mm_statement.specs.Refilling.{BindsFilledChange, BindsFilledQuery, RefillsChange, RefillsQuery};
ghost use Rattle.mm_value.specs.declared.refusal.Refusal.{Refusal as Ref};
ghost use Rattle.mm_value.specs.declared.values.Value.{Value as Val};
ghost use Rattle.mm_value.specs.declared.values.Value.TheVariants.{Int};

/// Worked examples: values fill holes in written order, and other literals are unchanged. A hole after the plus of a shift gets the given
/// number, and a hole after its minus gets the negated number.
pub fn values_come_in_written_order()
    ensures order { (first second literal : Val) → merged (true ∷ false ∷ true ∷ []) (first ∷ second ∷ []) (Int (pos 0) ∷ literal ∷ Int (pos 0) ∷ [])
        ≡ first ∷ literal ∷ second ∷ [] }
    ensures plus { (number : ℤ) → merged (true ∷ []) (Int number ∷ []) (Int (pos 1) ∷ []) ≡ Int number ∷ [] }
    ensures minus { (number : ℤ) → merged (true ∷ []) (Int number ∷ []) (Int (negsuc 0) ∷ []) ≡ Int (neg_ℤ number) ∷ [] }
{}

/// Filling is deterministic: a command filled with values is one command, and filling has one result. The maximum length of a line plays no
/// role.
pub fn commands_are_filled_in_one_way()
    ensures filled { (holes : List Bool) (values : List Val) (command filled other : Command) → Filled holes values command filled
        → Filled holes values command other → filled ≡ other }
    ensures results { (holes : List Bool) (values : List Val) (command : Command) (result other : Result Command Ref)
        → IsFilling holes values command result → IsFilling holes values command other → result ≡ other }
{}

/// Queries that differ only in their literals, which have the same types, have the same refusal.
pub fn alike_queries_have_the_same_refusals()
    ensures { (schema : Schema) (query other : Query) → AreAlike query other
        → first_refusal (query_conditions query schema) ≡ first_refusal (query_conditions other schema) }
{}

/// Resolving the names of a query keeps its literals in order, and commutes with removing its literals.
pub fn placing_keeps_literals()
    ensures literals { (schema : Schema) (query : Query)
        → query_literals query ≡ bound_query_literals (placed_query schema query) ++ flat_map position_literals query.order }
    ensures shape { (schema : Schema) (query : Query)
        → placed_query schema (blank_query query) ≡ blank_bound_query (placed_query schema query) }
{}

/// Substituting literals commutes with resolving the names of a query. If a query names only existing tables and columns, so does that
/// query with other literals.
pub fn alike_queries_are_placed_alike()
    ensures placed { (schema : Schema) (query other : Query) (changed : BoundQuery) → AreAlike query other
        → blank_bound_query changed ≡ blank_bound_query (placed_query schema query)
        → query_literals other ≡ bound_query_literals changed ++ flat_map position_literals other.order
        → changed ≡ placed_query schema other }
    ensures within { (schema : Schema) (query changed : BoundQuery) → blank_bound_query changed ≡ blank_bound_query query
        → IsQueryWithin schema query → IsQueryWithin schema changed }
{}

/// Changes of rows that differ only in their literals, which have the same types, have the same refusal.
pub fn alike_changes_have_the_same_refusals()
    ensures { (schema : Schema) (mutation other : Mutation) → AreAlikeChanges mutation other
        → first_refusal (binding_conditions mutation schema) ≡ first_refusal (binding_conditions other schema) }
{}

/// Substituting literals commutes with binding a change of rows.
pub fn alike_changes_bind_alike()
    ensures { (schema : Schema) (mutation other : Mutation) (bound changed : BoundChange) → AreAlikeChanges mutation other
        → Binds schema mutation bound → blank_bound_change changed ≡ blank_bound_change bound
        → bound_change_literals changed ≡ change_literals other → Binds schema other changed }
{}

/// A bound query with new values in its holes is the bound form of its template with these values. The catalog does not refuse that query
/// either, and it has the same tables.
pub fn refilled_queries_are_bound()
    ensures { (schema : Schema) (template query : Query) (old new : BoundQuery) (holes : List Bool) (earlier values : List Val)
        → BindsFilledQuery schema holes earlier template query old → length values ≡ hole_count holes
        → RefillsQuery (hole_places holes (Select template)) values old new
        → (other : Query) × BindsFilledQuery schema holes values template other new × (other.from ≡ query.from) }
{}

/// A bound change of rows with new values in its holes is the bound form of its template with these values. The catalog does not refuse
/// that change either.
pub fn refilled_changes_are_bound()
    ensures { (schema : Schema) (template mutation : Mutation) (old new : BoundChange) (holes : List Bool) (earlier values : List Val)
        → BindsFilledChange schema holes earlier template mutation old → length values ≡ hole_count holes
        → RefillsChange (hole_places holes (Change template)) values old new
        → (other : Mutation) × BindsFilledChange schema holes values template other new }
{}
