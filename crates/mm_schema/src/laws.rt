//! Laws of the definitions of this crate, which the contracts here and in other crates use.
ghost use Rattle.std.specs.Prelude.{◌≡◌, ◌⊎◌, ℕ, false, List, Option, Some, None, Contains};
ghost use Rattle.std.specs.Cmp.{IsTotalOrder};
ghost use Rattle.std.specs.List.Sorted.{IsPermutation, IsSorted};
ghost use Rattle.std.specs.declared.cmp.Ordering.{Ordering};
ghost use Rattle.std.specs.declared.cmp.Ordering.TheVariants.{Equal};
ghost use Rattle.mm_value.specs.declared.values.Value.{Value};
ghost use Rattle.mm_schema.specs.Indexes.{with_index, without_index};
ghost use Rattle.mm_schema.specs.References.{HasTargets, RefersToOthers};
ghost use Rattle.mm_schema.specs.Refused.{first_refusal};
ghost use Rattle.mm_schema.specs.Rows.{Pair, changed, column_cmp};
ghost use Rattle.mm_schema.specs.Schema.{Schema, drop_table_conditions, table_conditions, with_table, without_table};
ghost use Rattle.mm_schema.specs.Sorting.{in_order};
ghost use Rattle.mm_schema.specs.Standing.{ReadsTables, lacks_some_table, with_standing, without_standing};
ghost use Rattle.mm_schema.specs.declared.index.IndexDef.{IndexDef};
ghost use Rattle.mm_schema.specs.declared.standing.StandingDef.{StandingDef};
ghost use Rattle.mm_schema.specs.declared.table.TableDef.{TableDef};

/// Sorting: `in_order` returns the same elements, and none is less than the previous one, in any total order, even if elements compare as
/// equal.
pub fn in_order_sorts<T>()
    ensures permutation { (cmp : T → T → Ordering) (xs : List T) → IsPermutation xs (in_order cmp xs) }
    ensures sorted { (cmp : T → T → Ordering) → IsTotalOrder cmp → (xs : List T) → IsSorted cmp (in_order cmp xs) }
{}

/// The rows after a change are exactly those that it keeps and those that it inserts. It keeps each row whose key no old row of the change
/// has, and inserts each new row.
pub fn changes_are_exact()
    ensures stays { (key : ℕ) (pairs : List Pair) (rows : List (List Value)) (row : List Value) → Contains rows row
        → ((old : List Value) (new : Option (List Value)) → Contains pairs (Some old, new) → column_cmp key row old ≡ Equal → ⊥)
        → Contains (changed key pairs rows) row }
    ensures comes { (key : ℕ) (pairs : List Pair) (rows : List (List Value)) (old : Option (List Value)) (new : List Value)
        → Contains pairs (old, Some new) → Contains (changed key pairs rows) new }
    ensures no_other { (key : ℕ) (pairs : List Pair) (rows : List (List Value)) (row : List Value) → Contains (changed key pairs rows) row
        → ((old : Option (List Value)) × Contains pairs (old, Some row))
        ⊎ (Contains rows row × ((old : List Value) (new : Option (List Value)) → Contains pairs (Some old, new) → column_cmp key row old ≡ Equal → ⊥)) }
{}

/// Foreign keys have targets: if each column that refers to a table refers to an existing one, every change of the catalog that nothing
/// refuses preserves this.
pub fn references_have_targets()
    ensures table { (definition : TableDef) (schema : Schema) → HasTargets schema → first_refusal (table_conditions definition schema) ≡ None
        → HasTargets (with_table definition schema) }
    ensures no_table { (name : List ℕ) (schema : Schema) → HasTargets schema → first_refusal (drop_table_conditions name schema) ≡ None
        → HasTargets (without_table name schema) }
    ensures index { (index : IndexDef) (schema : Schema) → HasTargets schema → HasTargets (with_index index schema) }
    ensures no_index { (name : List ℕ) (schema : Schema) → HasTargets schema → HasTargets (without_index name schema) }
    ensures standing { (query : StandingDef) (schema : Schema) → HasTargets schema → HasTargets (with_standing query schema) }
    ensures no_standing { (name : List ℕ) (schema : Schema) → HasTargets schema → HasTargets (without_standing name schema) }
{}

/// Tables refer to other tables: if no column refers to its own table, every change of the catalog that nothing refuses preserves this.
pub fn tables_refer_to_others()
    ensures table { (definition : TableDef) (schema : Schema) → RefersToOthers schema → first_refusal (table_conditions definition schema) ≡ None
        → RefersToOthers (with_table definition schema) }
    ensures no_table { (name : List ℕ) (schema : Schema) → RefersToOthers schema → RefersToOthers (without_table name schema) }
    ensures index { (index : IndexDef) (schema : Schema) → RefersToOthers schema → RefersToOthers (with_index index schema) }
    ensures no_index { (name : List ℕ) (schema : Schema) → RefersToOthers schema → RefersToOthers (without_index name schema) }
    ensures standing { (query : StandingDef) (schema : Schema) → RefersToOthers schema → RefersToOthers (with_standing query schema) }
    ensures no_standing { (name : List ℕ) (schema : Schema) → RefersToOthers schema → RefersToOthers (without_standing name schema) }
{}

/// Standing queries read existing tables: if each reads only such tables, every change of the catalog that nothing refuses preserves this.
/// A new standing query must read only such tables.
pub fn standing_queries_read_tables()
    ensures table { (definition : TableDef) (schema : Schema) → ReadsTables schema → ReadsTables (with_table definition schema) }
    ensures no_table { (name : List ℕ) (schema : Schema) → ReadsTables schema → first_refusal (drop_table_conditions name schema) ≡ None
        → ReadsTables (without_table name schema) }
    ensures index { (index : IndexDef) (schema : Schema) → ReadsTables schema → ReadsTables (with_index index schema) }
    ensures no_index { (name : List ℕ) (schema : Schema) → ReadsTables schema → ReadsTables (without_index name schema) }
    ensures standing { (query : StandingDef) (schema : Schema) → ReadsTables schema → lacks_some_table query.tables schema ≡ false
        → ReadsTables (with_standing query schema) }
    ensures no_standing { (name : List ℕ) (schema : Schema) → ReadsTables schema → ReadsTables (without_standing name schema) }
{}
