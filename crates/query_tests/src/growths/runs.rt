//! Queries run by the steps of their plans: each selection and each join.
ghost use Rattle.std.specs.Prelude.{◌≡◌, ◌<◌, ◌≤◌, length, All, IfOk};
ghost use Rattle.mm_plan.specs.Steps.{AreSteps};
ghost use Rattle.mm_templist.specs.Combos.{AreLive};
ghost use Rattle.query_tests.specs.Sample.{IsSample};

use super::{are_pairs, asked_again, query_of};
use crate::assertions::{assert_same, assert_that};
use crate::atoms::{INNER_KEY, INNER_VALUE, OUTER_KEY, OUTER_VALUE, compared, equal, stands};
use crate::samples::{Values, sample};
use mm_plan::{Step, plan_steps, run_plan};
use mm_query::{Atom, BoundQuery, Comparison, FieldPlace};
use mm_schema::IndexKind;
use mm_store::{IndexRef, Store, View};
use mm_templist::TempList;
use mm_value::Refusal;
use std::alloc::Global;
use std::process::Abort;
use std::test::Fail;

/// Runs a query by steps, again if an allocation fails.
fn run_again<'a>(
    rt: &(impl Abort + Print),
    alloc: Global,
    view: &mut View<'_>,
    query: &'a BoundQuery,
    tables: &'a [usize],
    steps: &[Step],
) -> Result<TempList<'a>, Fail>
    requires there { All (λ table. table < length view.old.store.tables) tables.now }
    requires few { length tables.now ≤ 4 }
    requires steps { AreSteps view.old.store query.now.atoms tables.now steps.now }
    ensures live { IfOk result (λ list. All (AreLive view.old.store list.tables) list.combos) }
    ensures same { view.new.store ≡ view.old.store }
{
    match run_plan(alloc, view, query, tables, steps) {
        Ok(list) => Ok(list),
        Err(refusal) => {
            asked_again(rt)?;
            assert_same(rt, refusal, Refusal::Memory);
            let list = run_plan(alloc, view, query, tables, steps)?;
            Ok(list)
        }
    }
}

/// The expected result of a query over a store.
#[derive(Clone, Copy)]
struct Case<'a> {
    /// The places of its tables.
    tables: &'a [usize],
    /// The step of the last table.
    last: Step,
    /// The rows in the order of the first field.
    pairs: &'a [(i64, i64)],
}

/// Runs a query by its plan, and checks the last step and the rows.
fn runs(
    rt: &(impl Abort + Print),
    alloc: Global,
    store: &Store,
    query: &BoundQuery,
    case: Case,
) -> Result<(), Fail>
    requires there { All (λ table. table < length store.now.tables) case.tables.now }
    requires few { length case.tables.now ≤ 4 }
{
    let mut view = store.view();
    let Ok(steps) = plan_steps(alloc, &view, query, case.tables) else {
        return Ok(());
    };
    assert_same(rt, steps.as_slice().last().copied(), Some(case.last));
    let list = run_again(rt, alloc, &mut view, query, case.tables, steps.as_slice())?;
    let Ok(rows) = list.project_sorted(alloc, &mut view, false, &[0]) else {
        return Ok(());
    };
    assert_that(rt, are_pairs(rows.as_slice(), case.pairs));
    Ok(())
}

/// Finds the keys and values of the rows of the first table that match an atom, along a step.
fn selects(
    rt: &(impl Abort + Print),
    alloc: Global,
    store: &Store,
    atom: Atom<FieldPlace>,
    step: Step,
    pairs: &[(i64, i64)],
) -> Result<(), Fail>
    requires { IsSample store.now }
{
    let case = Case {
        tables: &[0],
        last: step,
        pairs,
    };
    match query_of(alloc, [OUTER_KEY, OUTER_VALUE], [atom]) {
        Ok(query) => runs(rt, alloc, store, &query, case),
        Err(_) => Ok(()),
    }
}

#[test]
fn scan_growths(rt: HostRuntime) -> Result<(), Fail> {
    let alloc = rt.alloc();
    let atom = compared(OUTER_VALUE, Comparison::GreaterOrEqual, 2);
    let pairs = [(1, 6), (2, 5), (3, 4), (4, 3), (5, 2)];
    match sample(alloc, IndexKind::Hash, [6, 0], Values::Falling) {
        Ok(store) => selects(&rt, alloc, &store, atom, Step::Scan, &pairs),
        Err(_) => Ok(()),
    }
}

#[test]
fn look_up_growths(rt: HostRuntime) -> Result<(), Fail> {
    let alloc = rt.alloc();
    let atom = compared(OUTER_VALUE, Comparison::Equal, 1);
    let step = Step::LookUp {
        index: IndexRef::Hash(0),
        atom: 0,
    };
    let pairs = [(1, 1), (2, 1), (3, 1), (4, 1), (5, 1), (6, 1)];
    match sample(alloc, IndexKind::Hash, [6, 0], Values::Ones) {
        Ok(store) => selects(&rt, alloc, &store, atom, step, &pairs),
        Err(_) => Ok(()),
    }
}

#[test]
fn range_growths(rt: HostRuntime) -> Result<(), Fail> {
    let alloc = rt.alloc();
    let atom = compared(OUTER_VALUE, Comparison::GreaterOrEqual, 2);
    let step = Step::Range {
        index: IndexRef::Tree(0),
        atom: 0,
    };
    let pairs = [(1, 6), (2, 5), (3, 4), (4, 3), (5, 2)];
    match sample(alloc, IndexKind::Tree, [6, 0], Values::Falling) {
        Ok(store) => selects(&rt, alloc, &store, atom, step, &pairs),
        Err(_) => Ok(()),
    }
}

/// Joins two tables whose values decrease as their keys increase: the first has 6 rows, and the second 5. Asserts that the keys are those
/// of the case.
fn joins<const N: usize>(
    rt: &(impl Abort + Print),
    alloc: Global,
    kind: IndexKind,
    atoms: [Atom<FieldPlace>; N],
    case: Case,
) -> Result<(), Fail>
    requires there { All (λ table. table < 2) case.tables.now }
    requires few { length case.tables.now ≤ 4 }
    requires atoms { N ≤ 16 }
{
    let Ok(query) = query_of(alloc, [OUTER_KEY, INNER_KEY], atoms) else {
        return Ok(());
    };
    match sample(alloc, kind, [6, 5], Values::Falling) {
        Ok(store) => runs(rt, alloc, &store, &query, case),
        Err(_) => Ok(()),
    }
}

/// The keys of the rows with one value: each row of the first table from 2 on matches one whose key is less by 1.
const OF_ONE_VALUE: [(i64, i64); 5] = [(2, 1), (3, 2), (4, 3), (5, 4), (6, 5)];

/// The keys of the rows of the first table whose values are keys of the second.
const OF_VALUE_AND_KEY: [(i64, i64); 5] = [(2, 5), (3, 4), (4, 3), (5, 2), (6, 1)];

#[test]
fn nested_loops_growths(rt: HostRuntime) -> Result<(), Fail> {
    let case = Case {
        tables: &[0, 1],
        last: Step::NestedLoops,
        pairs: &OF_ONE_VALUE,
    };
    let atoms = [
        stands(INNER_VALUE, Comparison::LessOrEqual, OUTER_VALUE),
        stands(INNER_VALUE, Comparison::GreaterOrEqual, OUTER_VALUE),
    ];
    joins(&rt, rt.alloc(), IndexKind::Hash, atoms, case)
}

#[test]
fn built_hash_growths(rt: HostRuntime) -> Result<(), Fail> {
    let case = Case {
        tables: &[0, 1],
        last: Step::BuiltHash { atom: 0 },
        pairs: &OF_VALUE_AND_KEY,
    };
    let atoms = [equal(INNER_KEY, OUTER_VALUE)];
    joins(&rt, rt.alloc(), IndexKind::Hash, atoms, case)
}

#[test]
fn hash_join_growths(rt: HostRuntime) -> Result<(), Fail> {
    let case = Case {
        tables: &[0, 1],
        last: Step::HashJoin {
            index: IndexRef::Hash(0),
            atom: 0,
        },
        pairs: &OF_ONE_VALUE,
    };
    let atoms = [equal(INNER_VALUE, OUTER_VALUE)];
    joins(&rt, rt.alloc(), IndexKind::Hash, atoms, case)
}

#[test]
fn tree_merge_growths(rt: HostRuntime) -> Result<(), Fail> {
    let case = Case {
        tables: &[0, 1],
        last: Step::TreeMerge {
            outer: IndexRef::Tree(0),
            inner: IndexRef::Tree(0),
            atom: 0,
        },
        pairs: &OF_ONE_VALUE,
    };
    let atoms = [equal(INNER_VALUE, OUTER_VALUE)];
    joins(&rt, rt.alloc(), IndexKind::Tree, atoms, case)
}

#[test]
fn precomputed_growths(rt: HostRuntime) -> Result<(), Fail> {
    // The values of the query's first table are keys of its second table.
    let case = Case {
        tables: &[1, 0],
        last: Step::Precomputed { atom: 0 },
        pairs: &[(1, 5), (2, 4), (3, 3), (4, 2), (5, 1)],
    };
    let atoms = [equal(INNER_KEY, OUTER_VALUE)];
    joins(&rt, rt.alloc(), IndexKind::Hash, atoms, case)
}

/// Joins the two rows of the first table along the tree on the values of the second, which has six.
fn joins_few(rt: &(impl Abort + Print), alloc: Global, store: &Store) -> Result<(), Fail>
    requires { IsSample store.now }
{
    let case = Case {
        tables: &[0, 1],
        last: Step::TreeJoin {
            index: IndexRef::Tree(0),
            atom: 1,
        },
        pairs: &[
            (1, 1),
            (1, 2),
            (1, 3),
            (1, 4),
            (1, 5),
            (1, 6),
            (2, 1),
            (2, 2),
            (2, 3),
            (2, 4),
            (2, 5),
            (2, 6),
        ],
    };
    let atoms = [
        compared(OUTER_KEY, Comparison::GreaterOrEqual, 1),
        equal(INNER_VALUE, OUTER_VALUE),
    ];
    match query_of(alloc, [OUTER_KEY, INNER_KEY], atoms) {
        Ok(query) => runs(rt, alloc, store, &query, case),
        Err(_) => Ok(()),
    }
}

#[test]
fn tree_join_growths(rt: HostRuntime) -> Result<(), Fail> {
    let alloc = rt.alloc();
    match sample(alloc, IndexKind::Tree, [2, 6], Values::Ones) {
        Ok(store) => joins_few(&rt, alloc, &store),
        Err(_) => Ok(()),
    }
}
