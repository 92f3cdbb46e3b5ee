//! Laws on the number of rows that a change may read for a standing query. The clauses of the code are upper bounds, so they would still be
//! proved if a definition counted a row too many. These laws would fail then. No code calls them.
ghost use Rattle.std.specs.Prelude.{◌≡◌, Bool, true, false, All, List};
ghost use Rattle.mm_store.specs.Tables.{Tables};
ghost use Rattle.mm_value.specs.declared.values.Value.{Value};
ghost use Rattle.mm_relevance.specs.Relevance.{IsCyclic};
ghost use Rattle.mm_delta.specs.Edited.{has_index};
ghost use Rattle.mm_delta.specs.declared.edited.TableChange.{TableChange};
ghost use Rattle.mm_standing.specs.Queries.{StandingQuery};
ghost use Rattle.mm_standing.specs.ReadExamples.{AddsBesideFour, AddsThirdFive, LeavesTable, below_some_below_5, equal_pairs, equal_triples, row_of};
ghost use Rattle.mm_standing.specs.Reads.{AreOfCyclicRows, RowTests, query_reads};

/// A standing query reads nothing if none of its tables is edited.
pub fn unedited_tables_are_not_read()
    ensures { (store : Tables) (changes : List TableChange) (skipped : RowTests) (standing : StandingQuery)
        → All (LeavesTable store changes) standing.tables → query_reads store changes skipped standing ≡ 0 }
{}

/// A worked example. `SELECT a.id, b.id FROM t a, t b WHERE a.k = b.k` is over a table with the rows (1, 5), (2, 5) and (4, 9). With an
/// index on `k`, it reads 6 rows at most when the row (3, 5) is inserted: at each place of FROM the new row and the two with its number.
/// Without the index it reads 8: at each place the new row and all three. Such tables exist, with the index and without it.
pub fn pairs_of_equal_numbers_read_6_or_8()
    ensures along_index { (store : Tables) (changes : List TableChange) (skipped : RowTests) → AreOfCyclicRows skipped → AddsThirdFive store changes
        → has_index store 0 1 ≡ true → query_reads store changes skipped equal_pairs ≡ 6 }
    ensures without_index { (store : Tables) (changes : List TableChange) (skipped : RowTests) → AreOfCyclicRows skipped → AddsThirdFive store changes
        → has_index store 0 1 ≡ false → query_reads store changes skipped equal_pairs ≡ 8 }
    ensures there_are { (indexed : Bool) → (store : Tables) × (changes : List TableChange) × AddsThirdFive store changes × (has_index store 0 1 ≡ indexed) }
{}

/// A worked example with three places. `SELECT a.id, b.id, c.id FROM t a, t b, t c WHERE a.k = b.k AND b.k = c.k` reads 27 rows at most for
/// that row, along the index. At the first place these are the new row, the two with its number for `b`, and for each of them the same two
/// for `c`. At the second place they are the new row, these two for `a`, and for each of them and for the new row these two for `c`. At the
/// third place they are the new row and all three for `a`, since no required number is known for `a`. For each of these four rows those for
/// `b` with its number are read too: two, two, one and two.
pub fn triples_of_equal_numbers_read_27()
    ensures { (store : Tables) (changes : List TableChange) (skipped : RowTests) → AreOfCyclicRows skipped → AddsThirdFive store changes
        → has_index store 0 1 ≡ true → query_reads store changes skipped equal_triples ≡ 27 }
{}

/// A worked example. `SELECT a.id FROM t a, u b WHERE a.k < b.k AND b.k < 5` is over tables where (1, 4) is the only row of `u`. When the
/// row (1, 4) is inserted into `t`, it reads 1 row: the new row. That row has a cycle, since no integer is between 4 and 5, and is left
/// out. When (2, 3) is inserted, the query reads 2 rows: the new one and that of `u`. Such tables exist.
pub fn irrelevant_rows_read_1_and_others_2()
    ensures cyclic { IsCyclic below_some_below_5.query 0 (row_of 1 4) }
    ensures irrelevant { (store : Tables) (changes : List TableChange) (skipped : RowTests) → AddsBesideFour store changes (row_of 1 4)
        → skipped below_some_below_5.query 0 (row_of 1 4) ≡ true → query_reads store changes skipped below_some_below_5 ≡ 1 }
    ensures relevant { (store : Tables) (changes : List TableChange) (skipped : RowTests) → AreOfCyclicRows skipped
        → AddsBesideFour store changes (row_of 2 3) → query_reads store changes skipped below_some_below_5 ≡ 2 }
    ensures there_are { (row : List Value) → (store : Tables) × (changes : List TableChange) × AddsBesideFour store changes row }
{}
