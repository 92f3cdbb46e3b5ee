//! Plans.
ghost use Rattle.std.specs.Prelude.{◌≡◌, length};

use super::{asked_again, query_of};
use crate::assertions::assert_same;
use crate::atoms::{INNER_KEY, INNER_VALUE, OUTER_KEY, OUTER_VALUE, equal};
use crate::samples::empty;
use mm_plan::{Step, plan_steps};
use mm_query::{BoundQuery, ShortList};
use mm_store::Store;
use std::alloc::Global;
use std::process::Abort;
use std::test::Fail;

/// Returns the steps of a query over five tables, again if an allocation fails. Five steps are more than are stored inline.
fn plan_again(
    rt: &(impl Abort + Print),
    alloc: Global,
    store: &Store,
    query: &BoundQuery,
) -> Result<ShortList<Step, 4>, Fail>
    requires { length store.now.tables ≡ 2 }
{
    let view = store.view();
    match plan_steps(alloc, &view, query, &[0, 1, 0, 1, 0]) {
        Ok(steps) => Ok(steps),
        Err(_) => {
            asked_again(rt)?;
            Ok(plan_steps(alloc, &view, query, &[0, 1, 0, 1, 0])?)
        }
    }
}

/// Asserts the steps of a query that compares the values of the first two of its tables. These have no index, so a hash table is built over
/// those of the second table, and no atom leads to the rows of the other tables.
fn ask_for_plan(rt: &(impl Abort + Print), alloc: Global, store: &Store) -> Result<(), Fail>
    requires { length store.now.tables ≡ 2 }
{
    let atoms = [equal(INNER_VALUE, OUTER_VALUE)];
    let Ok(query) = query_of(alloc, [OUTER_KEY, INNER_KEY], atoms) else {
        return Ok(());
    };
    let steps = plan_again(rt, alloc, store, &query)?;
    let wanted = [
        Step::Scan,
        Step::BuiltHash { atom: 0 },
        Step::NestedLoops,
        Step::NestedLoops,
        Step::NestedLoops,
    ];
    assert_same(rt, steps.as_slice(), wanted.as_slice());
    Ok(())
}

#[test]
fn plan_growths(rt: HostRuntime) -> Result<(), Fail> {
    let alloc = rt.alloc();
    match empty(alloc) {
        Ok(store) => ask_for_plan(&rt, alloc, &store),
        Err(_) => Ok(()),
    }
}
