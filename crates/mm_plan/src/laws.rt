//! Laws of chosen steps, of their keys, and of their names.
ghost use Rattle.std.specs.Prelude.{◌≡◌, ◌≢◌, ◌∷◌, ◌<◌, ℕ, ℤ, pos, All, List, [], None, Some, length, map, slice_get};
ghost use Rattle.mm_join.specs.Equated.{IsJoin, plain_key};
ghost use Rattle.mm_join.specs.Keys.{key_of};
ghost use Rattle.mm_join.specs.declared.key.JoinKey.{JoinKey};
ghost use Rattle.mm_join.specs.declared.key.Shift.TheVariants.{Minus, Plus};
ghost use Rattle.mm_plan.specs.Choosing.{steps_of};
ghost use Rattle.mm_plan.specs.Kept.{AreKept, HaveOneKey, instance_of};
ghost use Rattle.mm_plan.specs.Naming.{named_steps, names_of};
ghost use Rattle.mm_plan.specs.declared.step.Step.TheVariants.{NestedLoops};
ghost use Rattle.mm_query.specs.Plans.{plan_of};
ghost use Rattle.mm_query.specs.Resolving.{placed_query, places_in, query_conditions};
ghost use Rattle.mm_query.specs.declared.atom.Atom.{Atom};
ghost use Rattle.mm_query.specs.declared.atom.Comparison.TheVariants.{Equal};
ghost use Rattle.mm_query.specs.declared.atom.Operand.TheVariants.{Column, Literal, Shifted};
ghost use Rattle.mm_query.specs.declared.bound_query.FieldPlace.{FieldPlace};
ghost use Rattle.mm_query.specs.declared.query.Query.{Query};
ghost use Rattle.mm_schema.specs.Refused.{first_refusal};
ghost use Rattle.mm_schema.specs.Schema.{Schema};
ghost use Rattle.mm_store.specs.Tables.{Tables};
ghost use Rattle.mm_value.specs.declared.values.Value.{Value};

/// Law: `=` between a column of a table and one of an earlier table is a join equality of the table, in either order, with a shift or
/// without. It requires the earlier field's value in the table's column. An atom with another comparison, with a literal on its right side,
/// or without a field of the table is not a join equality.
pub fn join_equalities_ask_for_earlier_values()
    ensures plain { (own earlier : FieldPlace) → earlier.place < own.place
        → key_of own.place (record { left = own; comparison = Equal; right = Column earlier }) ≡ Some (plain_key own.column earlier) }
    ensures turned { (own earlier : FieldPlace) → earlier.place < own.place
        → key_of own.place (record { left = earlier; comparison = Equal; right = Column own })
        ≡ Some (record { column = own.column; field = earlier; shift = Minus (pos 0) }) }
    ensures shifted { (own earlier : FieldPlace) (by : ℤ) → earlier.place < own.place
        → key_of own.place (record { left = own; comparison = Equal; right = Shifted earlier by })
        ≡ Some (record { column = own.column; field = earlier; shift = Plus by }) }
    ensures shifted_turned { (own earlier : FieldPlace) (by : ℤ) → earlier.place < own.place
        → key_of own.place (record { left = earlier; comparison = Equal; right = Shifted own by })
        ≡ Some (record { column = own.column; field = earlier; shift = Minus by }) }
    ensures meant { (atom : Atom FieldPlace) (outers : List ℕ) (key : JoinKey) → key_of (length outers) atom ≡ Some key
        → IsJoin (atom ∷ []) outers key }
    ensures equal { (place : ℕ) (atom : Atom FieldPlace) (key : JoinKey) → key_of place atom ≡ Some key → atom.comparison ≡ Equal }
    ensures literal { (place : ℕ) (left : FieldPlace) (value : Value)
        → key_of place (record { left = left; comparison = Equal; right = Literal value }) ≡ None }
    ensures neither { (place : ℕ) (left right : FieldPlace) → left.place ≢ place → right.place ≢ place
        → key_of place (record { left = left; comparison = Equal; right = Column right }) ≡ None }
{}

/// Law: nested loops are chosen for a table only if no atom is a join equality of the table.
pub fn nested_loops_are_for_no_join_equality()
    ensures { (store : Tables) (atoms : List (Atom FieldPlace)) (tables : List ℕ) (place : ℕ)
        → slice_get (steps_of store atoms tables) place ≡ Some NestedLoops → All (λ atom. key_of place atom ≡ None) atoms }
{}

/// Law: the chosen steps of a query that nothing refuses are its plan, if the store keeps the tables of the catalog. With aliases, and with
/// the names of indexes, columns and fields at their positions in the catalog, the steps are the lines that the rules choose by names.
pub fn steps_by_names_are_the_plan()
    ensures { (schema : Schema) (store : Tables) (query : Query) → AreKept schema store → HaveOneKey schema.tables
        → first_refusal (query_conditions query schema) ≡ None
        → named_steps (names_of schema query.from) (placed_query schema query).atoms
        (steps_of store (placed_query schema query).atoms (places_in schema query.from))
        ≡ plan_of schema (map length (instance_of store.tables)) query }
{}
