//! Laws of the number of rows that steps may read. The contracts of the code bound the reads from above, so they would also hold if a
//! definition counted a row too many. These laws exclude that. No code calls them.
ghost use Rattle.std.specs.Prelude.{◌≡◌, ℕ, List, [], ◌∷◌, Some, length};
ghost use Rattle.std.specs.List.{count_by};
ghost use Rattle.mm_plan.specs.ReadExamples.{number_compares, reads_from_t, reads_from_u, reads_of_u};
ghost use Rattle.mm_plan.specs.Steps.{plan_reads};
ghost use Rattle.mm_plan.specs.declared.step.Step.TheVariants.{BuiltHash, HashJoin, LookUp, NestedLoops, Precomputed, Range, Scan, TreeJoin, TreeMerge};
ghost use Rattle.mm_query.specs.declared.atom.Comparison.TheVariants.{Equal, GreaterOrEqual, LessOrEqual};
ghost use Rattle.mm_select.specs.Accesses.{has, lies_between};
ghost use Rattle.mm_select.specs.Asked.{compares};
ghost use Rattle.mm_store.specs.declared.index_ref.IndexRef.{IndexRef};
ghost use Rattle.mm_value.specs.declared.values.Value.{Value};

/// Law: a query of one table reads all rows by a scan, and the rows with the value by a look-up. By a range it reads the rows between the
/// bounds of its atoms.
pub fn queries_of_one_table_read_along_their_step()
    ensures scan { (column : ℕ) (value : Value) (rows : List (List Value))
        → plan_reads (compares column Equal value ∷ []) (Scan ∷ []) (rows ∷ []) ≡ length rows }
    ensures look_up { (index : IndexRef) (column : ℕ) (value : Value) (rows : List (List Value))
        → plan_reads (compares column Equal value ∷ []) (LookUp index 0 ∷ []) (rows ∷ []) ≡ count_by (has column value) rows }
    ensures range { (index : IndexRef) (column : ℕ) (low high : Value) (rows : List (List Value))
        → plan_reads (compares column GreaterOrEqual low ∷ compares column LessOrEqual high ∷ []) (Range index 0 ∷ []) (rows ∷ [])
        ≡ count_by (lies_between column (Some low) (Some high)) rows }
{}

/// Law, a worked example. The rows of `u` have the numbers 1, 1, 4 and 2. A look-up of 1 reads the 2 rows with this number, and a look-up
/// of 3 reads none. A range from 2 reads 2 rows, a range up to 2 reads 3, and a range from 2 to 3 reads 1. A scan reads all 4.
pub fn selections_of_four_rows_read_0_to_4()
    ensures scan { reads_of_u (number_compares Equal 1 ∷ []) Scan ≡ 4 }
    ensures look_up { (index : IndexRef) → reads_of_u (number_compares Equal 1 ∷ []) (LookUp index 0) ≡ 2 }
    ensures absent { (index : IndexRef) → reads_of_u (number_compares Equal 3 ∷ []) (LookUp index 0) ≡ 0 }
    ensures from { (index : IndexRef) → reads_of_u (number_compares GreaterOrEqual 2 ∷ []) (Range index 0) ≡ 2 }
    ensures up_to { (index : IndexRef) → reads_of_u (number_compares LessOrEqual 2 ∷ []) (Range index 0) ≡ 3 }
    ensures between { (index : IndexRef)
        → reads_of_u (number_compares GreaterOrEqual 2 ∷ number_compares LessOrEqual 3 ∷ []) (Range index 0) ≡ 1 }
{}

/// Law, a worked example. The rows of `t` have the keys 1, 2 and 4, and the rows of `u` refer to 1, 1, 4 and 2. `SELECT a.id, b.id FROM t
/// a, u b WHERE b.k = a.id` reads the 3 rows of `t` first. Nested loops read 5 more rows for each of them, the row itself and all of `u`:
/// 18 in all. Along an index each row of `t` is read once more with its matches: 10 in all. A built hash table also reads each row of `u`
/// once: 14 in all. So does a merge of two trees, which also reads a prefix of each row of `t`: 17 in all.
pub fn joins_of_three_rows_and_four_read_10_to_18()
    ensures nested_loops { reads_from_t NestedLoops ≡ 18 }
    ensures tree { (index : IndexRef) → reads_from_t (TreeJoin index 0) ≡ 10 }
    ensures hash { (index : IndexRef) → reads_from_t (HashJoin index 0) ≡ 10 }
    ensures merge { (outer inner : IndexRef) → reads_from_t (TreeMerge outer inner 0) ≡ 17 }
    ensures built_hash { reads_from_t (BuiltHash 0) ≡ 14 }
{}

/// Law, a worked example. `FROM u b, t a` joins in the other direction, along the foreign key. It reads the 4 rows of `u`, and each once
/// more with the row that it refers to: 12 in all.
pub fn foreign_keys_of_four_rows_read_12()
    ensures { reads_from_u (Precomputed 0) ≡ 12 }
{}
