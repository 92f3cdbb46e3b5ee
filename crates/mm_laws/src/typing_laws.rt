//! Laws of the types of rows and of standing queries.
ghost use Rattle.std.specs.Prelude.{◌≡◌, ◌⊎◌, ℕ, false, true, List, [], None, slice_get};
ghost use Rattle.std.specs.Option.{option_map_or};
ghost use Rattle.mm_schema.specs.Instance.{Instance, rows_named};
ghost use Rattle.mm_schema.specs.Refused.{first_refusal};
ghost use Rattle.mm_schema.specs.Schema.{HasDistinctNames, Schema};
ghost use Rattle.mm_query.specs.Binding.{binding_conditions};
ghost use Rattle.mm_query.specs.Machine.{after_change, after_definition, definition_conditions, is_of_index, step};
ghost use Rattle.mm_query.specs.Standing.{AreBound, HasQueries};
ghost use Rattle.mm_query.specs.State.{State, first_state, has_transaction};
ghost use Rattle.mm_query.specs.declared.bound_query.BoundQuery.{BoundQuery};
ghost use Rattle.mm_query.specs.declared.command.Command.{Command};
ghost use Rattle.mm_query.specs.declared.command.Definition.{Definition};
ghost use Rattle.mm_query.specs.declared.command.Mutation.{Mutation};
ghost use Rattle.mm_query.specs.declared.query.FromItem.{FromItem};
ghost use Rattle.mm_query.specs.Additions.{AddsToNumbers};
ghost use Rattle.mm_laws.specs.Typing.{AreTyped, IsTyped, ShiftsNumbers};

/// All rows have the types of their columns, also the saved ones, and the standing queries add numbers only to integer columns: at first;
/// after a successful change of the catalog outside a transaction or of an index; and after each command if no two tables have one name.
/// Both require that the standing queries are bound. Rows also remain typed by a change that the catalog does not refuse, even if its rows
/// or a standing query refuse it later.
pub fn types_are_kept()
    ensures first { IsTyped first_state }
    ensures definition { (definition : Definition) (state : State) → (has_transaction state ≡ false) ⊎ (is_of_index definition ≡ true)
        → first_refusal (definition_conditions definition state) ≡ None → HasQueries state → AreBound state → IsTyped state
        → IsTyped (after_definition definition state) }
    ensures change { (mutation : Mutation) (state : State) → HasDistinctNames state.schema
        → first_refusal (binding_conditions mutation state.schema) ≡ None → AreTyped state.schema.tables state.rows
        → AreTyped state.schema.tables (after_change mutation state).rows }
    ensures step { (command : Command) (state : State) → HasDistinctNames state.schema → HasQueries state → AreBound state → IsTyped state
        → IsTyped (step command state).state }
{}

/// A query that adds numbers only to integer columns adds none to a text of rows that have the types of their columns.
pub fn bound_queries_add_to_numbers()
    ensures { (schema : Schema) (rows : Instance) (query : BoundQuery) → AreTyped schema.tables rows → ShiftsNumbers schema query
        → AddsToNumbers query (λ place. option_map_or (λ (item : FromItem). rows_named item.table schema.tables rows) (slice_get query.from place) []) }
{}
