//! Laws of how many rows the steps of a query may read, in worked examples with three tables and with texts.
ghost use Rattle.std.specs.Prelude.{◌≡◌, [], ◌∷◌, codes};
ghost use Rattle.mm_plan.specs.declared.step.Step.TheVariants.{BuiltHash, HashJoin, LookUp, NestedLoops, Precomputed, Range, TreeJoin, TreeMerge};
ghost use Rattle.mm_query.specs.declared.atom.Comparison.TheVariants.{Equal, GreaterOrEqual, LessOrEqual};
ghost use Rattle.mm_store.specs.declared.index_ref.IndexRef.{IndexRef};
ghost use Rattle.plan_laws.specs.Examples.{name_compares, reads_from_t_to_v, reads_from_trees, reads_from_v_to_t, reads_of_sites};

/// A worked example of three tables. The rows of `v` refer to the keys 10, 12, 12, 13 and 10 of `u`.
/// `SELECT a.id, b.id, c.id FROM t a, u b, v c WHERE b.k = a.id AND c.k = b.id` reads 10 rows for `t` and `u` along an index, as above.
/// Their 4 combinations have 2 rows each. Along an index, `v` adds these 8 rows and the 5 partners: 23 rows in all. A hash table that is
/// built reads each row of `v` once more: 28 rows. Nested loops read all of `v` for each combination: 38 rows, or 46 if `u` is reached by
/// nested loops too.
pub fn joins_of_three_tables_read_23_to_46()
    ensures tree { (index other : IndexRef) → reads_from_t_to_v (TreeJoin index 0) (TreeJoin other 1) ≡ 23 }
    ensures hash { (index other : IndexRef) → reads_from_t_to_v (HashJoin index 0) (HashJoin other 1) ≡ 23 }
    ensures built_hash { (index : IndexRef) → reads_from_t_to_v (TreeJoin index 0) (BuiltHash 1) ≡ 28 }
    ensures nested_loops { (index : IndexRef) → reads_from_t_to_v (TreeJoin index 0) NestedLoops ≡ 38 }
    ensures all_nested { reads_from_t_to_v NestedLoops NestedLoops ≡ 46 }
{}

/// The same query in the other direction, along the foreign keys: `FROM v c, u b, t a` reads the 5 rows of `v`, then 10 rows for `u`, a row
/// of each table for each of the 5 combinations, and 15 rows for `t`: 30 rows in all.
pub fn foreign_keys_of_three_tables_read_30()
    ensures { reads_from_v_to_t (Precomputed 0) (Precomputed 1) ≡ 30 }
{}

/// A worked example with texts. The names of the trees are `oak`, `mountain ash` and `mountain pine`, and those of the sites `oak`,
/// `mountain pine`, `mountain elm` and `elm`. A look-up of `oak` reads the one site that has it. A range up to `elm` reads 1 site, and one
/// from `mountain` on reads 3.
/// `SELECT a.id, b.id FROM trees a, sites b WHERE b.name = a.name` reads the 3 trees first. Along an index each is read once more, with its
/// partners, so 8 rows in all. A hash table that is built reads each of the 4 sites once more: 12 rows. A merge of two trees reads these
/// 4 and a prefix of each tree, and finds the partners by the first 8 bytes of a name; two sites have those of `mountain ash` and of
/// `mountain pine`: 18 rows. Nested loops read 18 rows too.
pub fn texts_read_along_their_step()
    ensures look_up { (index : IndexRef) → reads_of_sites (name_compares Equal (codes "oak") ∷ []) (LookUp index 0) ≡ 1 }
    ensures up_to { (index : IndexRef) → reads_of_sites (name_compares LessOrEqual (codes "elm") ∷ []) (Range index 0) ≡ 1 }
    ensures from { (index : IndexRef) → reads_of_sites (name_compares GreaterOrEqual (codes "mountain") ∷ []) (Range index 0) ≡ 3 }
    ensures tree { (index : IndexRef) → reads_from_trees (TreeJoin index 0) ≡ 8 }
    ensures hash { (index : IndexRef) → reads_from_trees (HashJoin index 0) ≡ 8 }
    ensures built_hash { reads_from_trees (BuiltHash 0) ≡ 12 }
    ensures merge { (outer inner : IndexRef) → reads_from_trees (TreeMerge outer inner 0) ≡ 18 }
    ensures nested_loops { reads_from_trees NestedLoops ≡ 18 }
{}
