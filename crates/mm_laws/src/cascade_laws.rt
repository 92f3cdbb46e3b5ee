//! Laws of cascading deletes.
ghost use Rattle.std.specs.Prelude.{◌≡◌, ℕ, Bool, true, false, Contains, List};
ghost use Rattle.mm_schema.specs.References.{cascading_of, refers};
ghost use Rattle.mm_schema.specs.Schema.{key_named};
ghost use Rattle.mm_schema.specs.declared.table.Table.{Table};
ghost use Rattle.mm_value.specs.declared.values.Value.{Value};
ghost use Rattle.mm_query.specs.Binding.{tests_for};
ghost use Rattle.mm_query.specs.Edits.{edits, is_cascaded, meets, old_rows};
ghost use Rattle.mm_query.specs.Machine.{after_all, after_change};
ghost use Rattle.mm_query.specs.State.{State, first_state, rows_in};
ghost use Rattle.mm_query.specs.declared.atom.Atom.{Atom};
ghost use Rattle.mm_query.specs.declared.command.Command.{Command};
ghost use Rattle.mm_query.specs.declared.command.Mutation.TheVariants.{Delete};

/// In every state that commands lead to from the first, a DELETE deletes all rows that it cascades to: no remaining row has the key of a
/// deleted row in a CASCADE column.
pub fn cascades_leave_none_behind()
    ensures { (commands : List Command) (name : List ℕ) (tests : List (Atom (List ℕ))) (table : Table) (row : List Value)
        → let state = after_all commands first_state in
        Contains state.schema.tables table → Contains (rows_in (after_change (Delete name tests) state) table.definition.name) row
        → is_cascaded state.schema (edits (Delete name tests) state) table.definition.columns row ≡ false }
{}

/// A DELETE deletes no other rows. Consider any property of the rows that satisfy its tests, and of each row that has the key of a row with
/// the property in a CASCADE column. All deleted rows have this property.
pub fn cascades_take_no_others()
    ensures { (passes : List ℕ → List Value → Bool) (name : List ℕ) (tests : List (Atom (List ℕ))) (state : State)
        → ((row : List Value) → meets (tests_for name state.schema tests) row ≡ true → passes name row ≡ true)
        → ((table : Table) (row target : List Value) (r : ℕ × List ℕ) → Contains (cascading_of table.definition.columns) r
        → refers r.0 (key_named r.1 state.schema) row target ≡ true → passes r.1 target ≡ true → passes table.definition.name row ≡ true)
        → (table : List ℕ) (row : List Value) → Contains (old_rows table (edits (Delete name tests) state)) row → passes table row ≡ true }
{}
