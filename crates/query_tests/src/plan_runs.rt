//! Queries run by their plans: the steps that the rules determine, and the number of rows read along them.
ghost use Rattle.std.specs.Prelude.{◌<◌, ◌≤◌, length, All};
ghost use Rattle.query_tests.specs.Sample.{IsSample};

use crate::assertions::assert_same;
use crate::atoms::{
    INNER_KEY, INNER_VALUE, OUTER_KEY, OUTER_VALUE, compared, equal, equal_sum, is_seven, stands,
};
use crate::samples::{Values, sample};
use mm_plan::{Step, plan_steps, run_plan};
use mm_query::{Atom, BoundQuery, Comparison, FieldPlace, ShortList};
use mm_schema::IndexKind;
use mm_store::{IndexRef, Store};
use mm_value::{Few, Refusal};
use std::alloc::{AllocError, Global};
use std::process::Abort;
use std::test::Fail;

/// Returns the query of these tests. Tries again once if an allocation fails.
fn query_of<const N: usize>(
    alloc: Global,
    tests: [Atom<FieldPlace>; N],
) -> Result<BoundQuery, AllocError>
    requires { N ≤ 16 }
{
    let mut atoms = Vec::new(alloc);
    if atoms.reserve(N).is_err() {
        atoms.reserve(N)?;
    }
    for test in tests {
        atoms.push(test)?;
    }
    Ok(BoundQuery {
        distinct: false,
        fields: ShortList::from_vec(Vec::new(alloc)),
        from: Few::from_vec(Vec::new(alloc)),
        atoms: ShortList::from_vec(atoms),
        order: ShortList::from_vec(Vec::new(alloc)),
    })
}

/// The result of running a query.
#[derive(Drop)]
struct Ran {
    /// The steps of its plan.
    steps: ShortList<Step, 4>,
    /// The number of combinations of rows in its result.
    found: usize,
    /// The number of rows that were read to find them.
    reads: u64,
}

/// Runs a query over these tables by its plan.
fn run_once(
    alloc: Global,
    store: &Store,
    tables: &[usize],
    query: &BoundQuery,
) -> Result<Ran, Refusal>
    requires there { All (λ table. table < length store.now.tables) tables.now }
    requires few { length tables.now ≤ 4 }
{
    let mut view = store.view();
    let steps = plan_steps(alloc, &view, query, tables)?;
    let list = run_plan(alloc, &mut view, query, tables, steps.as_slice())?;
    let (found, reads) = (list.len(), view.reads());
    Ok(Ran {
        steps,
        found,
        reads,
    })
}

/// Runs a query over these tables by its plan. Tries again once if an allocation fails.
fn run_again(
    alloc: Global,
    store: &Store,
    tables: &[usize],
    query: &BoundQuery,
) -> Result<Ran, Refusal>
    requires there { All (λ table. table < length store.now.tables) tables.now }
    requires few { length tables.now ≤ 4 }
{
    match run_once(alloc, store, tables, query) {
        Ok(ran) => Ok(ran),
        Err(_) => run_once(alloc, store, tables, query),
    }
}

/// The expected result of running a query.
#[derive(Clone, Copy)]
struct Wanted<'a> {
    /// The places of its tables in the store.
    tables: &'a [usize],
    steps: &'a [Step],
    found: usize,
    reads: u64,
}

/// Finds the combinations of rows that match the tests, and asserts that the result is as expected. Tries again once if an allocation
/// fails.
fn runs<const N: usize>(
    rt: &impl Abort,
    alloc: Global,
    store: &Store,
    tests: [Atom<FieldPlace>; N],
    wanted: Wanted,
) -> Result<(), Fail>
    requires there { All (λ table. table < length store.now.tables) wanted.tables.now }
    requires few { length wanted.tables.now ≤ 4 }
    requires tests { N ≤ 16 }
{
    let query = query_of(alloc, tests)?;
    let ran = run_again(alloc, store, wanted.tables, &query)?;
    assert_same(rt, ran.steps.as_slice(), wanted.steps);
    assert_same(rt, ran.found, wanted.found);
    assert_same(rt, ran.reads, wanted.reads);
    Ok(())
}

/// Finds the combinations of rows of a new sample that match the tests, and asserts that the result is as expected.
fn runs_over<const N: usize>(
    rt: &(impl Abort + AllocGlobal),
    kind: IndexKind,
    counts: [u32; 2],
    values: Values,
    tests: [Atom<FieldPlace>; N],
    wanted: Wanted,
) -> Result<(), Fail>
    requires there { All (λ table. table < 2) wanted.tables.now }
    requires few { length wanted.tables.now ≤ 4 }
    requires tests { N ≤ 16 }
{
    let store = sample(rt.alloc(), kind, counts, values)?;
    runs(rt, rt.alloc(), &store, tests, wanted)
}

/// The step to the row with key 7, which the first atom requires.
const TO_SEVEN: Step = Step::LookUp {
    index: IndexRef::Key,
    atom: 0,
};

/// The first HASH index of a sample.
const HASH: IndexRef = IndexRef::Hash(0);

/// The first tree of a sample besides the one on the key.
const TREE: IndexRef = IndexRef::Tree(0);

#[test]
fn look_ups_read_no_row(rt: HostRuntime) -> Result<(), Fail> {
    let by_hash = Wanted {
        tables: &[0],
        steps: &[Step::LookUp {
            index: HASH,
            atom: 0,
        }],
        found: 1,
        reads: 0,
    };
    let value = compared(OUTER_VALUE, Comparison::Equal, 7);
    let (kind, counts, values) = (IndexKind::Hash, [1000, 0], Values::Keys);
    runs_over(&rt, kind, counts, values, [value], by_hash)?;

    let by_key = Wanted {
        steps: &[TO_SEVEN],
        ..by_hash
    };
    runs_over(&rt, kind, counts, values, [is_seven()], by_key)
}

#[test]
fn look_up_reads_a_row_for_a_further_atom(rt: HostRuntime) -> Result<(), Fail> {
    let wanted = Wanted {
        tables: &[0],
        steps: &[TO_SEVEN],
        found: 0,
        reads: 1,
    };
    let tests = [is_seven(), compared(OUTER_VALUE, Comparison::Less, 7)];
    runs_over(&rt, IndexKind::Hash, [1000, 0], Values::Keys, tests, wanted)
}

#[test]
fn scan_reads_each_row_for_an_atom(rt: HostRuntime) -> Result<(), Fail> {
    let wanted = Wanted {
        tables: &[0],
        steps: &[Step::Scan],
        found: 6,
        reads: 1000,
    };
    let (kind, counts, values) = (IndexKind::Hash, [1000, 0], Values::Keys);
    let test = compared(OUTER_VALUE, Comparison::Less, 7);
    runs_over(&rt, kind, counts, values, [test], wanted)?;

    let of_all = Wanted {
        found: 1000,
        reads: 0,
        ..wanted
    };
    runs_over(&rt, kind, counts, values, [], of_all)
}

/// Selects the keys of a range. Its rows are read unless the ends show that all of them match.
fn select_ranges(rt: &impl Abort, alloc: Global, store: &Store) -> Result<(), Fail>
    requires { IsSample store.now }
{
    let included = Wanted {
        tables: &[0],
        steps: &[Step::Range {
            index: IndexRef::Key,
            atom: 0,
        }],
        found: 6,
        reads: 0,
    };
    let low = compared(OUTER_KEY, Comparison::GreaterOrEqual, 990);
    let high = compared(OUTER_KEY, Comparison::LessOrEqual, 995);
    runs(rt, alloc, store, [low, high], included)?;

    let low = compared(OUTER_KEY, Comparison::Greater, 990);
    let high = compared(OUTER_KEY, Comparison::LessOrEqual, 995);
    let without_low = Wanted {
        found: 5,
        reads: 6,
        ..included
    };
    runs(rt, alloc, store, [low, high], without_low)?;

    let high = compared(OUTER_KEY, Comparison::Less, 5);
    let below_high = Wanted {
        found: 4,
        reads: 5,
        ..included
    };
    runs(rt, alloc, store, [high], below_high)
}

#[test]
fn ranges_read_few_rows(rt: HostRuntime) -> Result<(), Fail> {
    let alloc = rt.alloc();
    let store = sample(alloc, IndexKind::Hash, [1000, 0], Values::Keys)?;
    select_ranges(&rt, alloc, &store)
}

/// Returns the atoms for a value below 5 and a key of at least 10.
fn two_bounds() -> [Atom<FieldPlace>; 2] {
    [
        compared(OUTER_VALUE, Comparison::Less, 5),
        compared(OUTER_KEY, Comparison::GreaterOrEqual, 10),
    ]
}

#[test]
fn first_atom_that_fits_a_rule_is_taken(rt: HostRuntime) -> Result<(), Fail> {
    // The values have no tree, so the range is one of keys, from 10 to 1,000.
    let of_keys = Wanted {
        tables: &[0],
        steps: &[Step::Range {
            index: IndexRef::Key,
            atom: 1,
        }],
        found: 0,
        reads: 991,
    };
    let (counts, values) = ([1000, 0], Values::Keys);
    runs_over(&rt, IndexKind::Hash, counts, values, two_bounds(), of_keys)?;

    // Both columns have a tree, so the range is one of values, whose atom is the first.
    let of_values = Wanted {
        steps: &[Step::Range {
            index: TREE,
            atom: 0,
        }],
        reads: 5,
        ..of_keys
    };
    runs_over(
        &rt,
        IndexKind::Tree,
        counts,
        values,
        two_bounds(),
        of_values,
    )
}

/// Returns the steps of these joins by look-ups in an index. The table with fewer rows is first, so a tree on the values is searched.
fn joined_by(kind: IndexKind) -> [Step; 2] {
    let join = match kind {
        IndexKind::Hash => Step::HashJoin {
            index: HASH,
            atom: 1,
        },
        IndexKind::Tree => Step::TreeJoin {
            index: TREE,
            atom: 1,
        },
    };
    [TO_SEVEN, join]
}

/// Joins the row with key 7 of a table of 10 rows, by an index of this kind, with those of another table whose values match a test.
fn join_seven(
    rt: &(impl Abort + AllocGlobal),
    kind: IndexKind,
    test: Atom<FieldPlace>,
    found: usize,
    reads: u64,
) -> Result<(), Fail> {
    let steps = joined_by(kind);
    let wanted = Wanted {
        tables: &[1, 0],
        steps: &steps,
        found,
        reads,
    };
    runs_over(
        rt,
        kind,
        [1000, 10],
        Values::Keys,
        [is_seven(), test],
        wanted,
    )
}

#[test]
fn look_up_joins_read_both_rows(rt: HostRuntime) -> Result<(), Fail> {
    join_seven(&rt, IndexKind::Hash, equal(INNER_VALUE, OUTER_KEY), 1, 2)?;
    join_seven(&rt, IndexKind::Tree, equal(INNER_VALUE, OUTER_KEY), 1, 2)
}

/// Joins the row with key 7, by an index of this kind, with those whose values are a sum and a difference.
fn join_shifted(rt: &(impl Abort + AllocGlobal), kind: IndexKind) -> Result<(), Fail> {
    join_seven(rt, kind, equal_sum(INNER_VALUE, OUTER_KEY, 3), 1, 2)?;
    join_seven(rt, kind, equal_sum(OUTER_KEY, INNER_VALUE, 3), 1, 2)
}

#[test]
fn shifted_joins_read_both_rows(rt: HostRuntime) -> Result<(), Fail> {
    join_shifted(&rt, IndexKind::Hash)?;
    join_shifted(&rt, IndexKind::Tree)
}

#[test]
fn shift_past_64_bits_reads_no_row_of_the_inner_table(rt: HostRuntime) -> Result<(), Fail> {
    let past = equal_sum(INNER_VALUE, OUTER_KEY, i64::MAX);
    join_seven(&rt, IndexKind::Hash, past, 0, 1)?;
    let past = equal_sum(INNER_VALUE, OUTER_KEY, i64::MAX);
    join_seven(&rt, IndexKind::Tree, past, 0, 1)
}

#[test]
fn built_hash_reads_each_row_once_to_build(rt: HostRuntime) -> Result<(), Fail> {
    let of_one = Wanted {
        tables: &[0, 0],
        steps: &[TO_SEVEN, Step::BuiltHash { atom: 1 }],
        found: 1,
        reads: 1002,
    };
    let tests = [is_seven(), equal(INNER_VALUE, OUTER_KEY)];
    runs_over(&rt, IndexKind::Tree, [1000, 0], Values::Keys, tests, of_one)?;

    let of_all = Wanted {
        tables: &[0, 1],
        steps: &[Step::Scan, Step::BuiltHash { atom: 0 }],
        found: 1000,
        reads: 3000,
    };
    let test = equal(INNER_KEY, OUTER_VALUE);
    let counts = [1000, 1000];
    runs_over(
        &rt,
        IndexKind::Hash,
        counts,
        Values::Falling,
        [test],
        of_all,
    )
}

/// Returns atoms that are true if the value of the second table equals a column of the first one, neither of them a join equality.
fn bounded_by(column: FieldPlace) -> [Atom<FieldPlace>; 2] {
    [
        stands(INNER_VALUE, Comparison::LessOrEqual, column),
        stands(INNER_VALUE, Comparison::GreaterOrEqual, column),
    ]
}

#[test]
fn nested_loops_read_each_pair(rt: HostRuntime) -> Result<(), Fail> {
    let of_one = Wanted {
        tables: &[0, 0],
        steps: &[TO_SEVEN, Step::NestedLoops],
        found: 1,
        reads: 1001,
    };
    let [low, high] = bounded_by(OUTER_KEY);
    let tests = [is_seven(), low, high];
    runs_over(&rt, IndexKind::Tree, [1000, 0], Values::Keys, tests, of_one)?;

    let of_all = Wanted {
        tables: &[0, 1],
        steps: &[Step::Scan, Step::NestedLoops],
        found: 100,
        reads: 10_100,
    };
    let tests = bounded_by(OUTER_VALUE);
    let counts = [100, 100];
    runs_over(&rt, IndexKind::Tree, counts, Values::Falling, tests, of_all)
}

#[test]
fn precomputed_join_reads_both_rows(rt: HostRuntime) -> Result<(), Fail> {
    let wanted = Wanted {
        tables: &[1, 0],
        steps: &[TO_SEVEN, Step::Precomputed { atom: 1 }],
        found: 1,
        reads: 2,
    };
    let tests = [is_seven(), equal(INNER_KEY, OUTER_VALUE)];
    let counts = [1000, 1000];
    runs_over(&rt, IndexKind::Hash, counts, Values::Keys, tests, wanted)
}

/// The steps of a merge along the trees on the values.
const MERGE: [Step; 2] = [
    Step::Scan,
    Step::TreeMerge {
        outer: TREE,
        inner: TREE,
        atom: 0,
    },
];

#[test]
fn merge_reads_both_rows_of_a_pair_twice(rt: HostRuntime) -> Result<(), Fail> {
    // The values are in another order than the keys, so a merge visits both tables in the order of the values. Each row is read for its
    // prefix, and then for its value.
    let wanted = Wanted {
        tables: &[0, 1],
        steps: &MERGE,
        found: 1000,
        reads: 4000,
    };
    let test = equal(INNER_VALUE, OUTER_VALUE);
    let counts = [1000, 1000];
    runs_over(
        &rt,
        IndexKind::Tree,
        counts,
        Values::Falling,
        [test],
        wanted,
    )
}

/// Merges a table of 1,000 rows and one of 10, in either order, by a test for which each row of the second matches one of the first. Each
/// row is read for its prefix, and only matching rows for their values.
fn merge_with_few(
    rt: &(impl Abort + AllocGlobal),
    tables: [usize; 2],
    test: Atom<FieldPlace>,
) -> Result<(), Fail>
    requires { All (λ table. table < 2) tables }
{
    let wanted = Wanted {
        tables: &tables,
        steps: &MERGE,
        found: 10,
        reads: 1030,
    };
    let counts = [1000, 10];
    runs_over(rt, IndexKind::Tree, counts, Values::Keys, [test], wanted)
}

#[test]
fn merge_reads_rows_without_partner_for_their_prefix(rt: HostRuntime) -> Result<(), Fail> {
    merge_with_few(&rt, [0, 1], equal(INNER_VALUE, OUTER_VALUE))?;
    merge_with_few(&rt, [1, 0], equal(INNER_VALUE, OUTER_VALUE))?;

    // Both operands of the equality are exchanged.
    merge_with_few(&rt, [0, 1], equal(OUTER_VALUE, INNER_VALUE))
}

#[test]
fn merge_pairs_all_rows_of_one_value(rt: HostRuntime) -> Result<(), Fail> {
    let wanted = Wanted {
        tables: &[0, 1],
        steps: &MERGE,
        found: 6,
        reads: 14,
    };
    let test = equal(INNER_VALUE, OUTER_VALUE);
    runs_over(&rt, IndexKind::Tree, [3, 2], Values::Ones, [test], wanted)
}
