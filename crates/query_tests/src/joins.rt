//! Joins over references.
ghost use Rattle.std.specs.Prelude.{ℕ};
ghost use Rattle.mm_join.specs.Equated.{IsJoin};
ghost use Rattle.mm_join.specs.Joined.{IsNext};
ghost use Rattle.mm_join.specs.Joins.{CanJoin};
ghost use Rattle.query_tests.specs.Sample.{IsSample};

use crate::assertions::{assert_same, assert_that};
use crate::atoms::{INNER_VALUE, OUTER_VALUE, equal};
use crate::samples::{Values, empty, sample};
use mm_join::{Join, JoinKey, Shift, join_key};
use mm_query::{Atom, Comparison, FieldPlace, Operand};
use mm_schema::IndexKind;
use mm_select::{Access, select};
use mm_store::Store;
use mm_templist::{Descriptor, TempList};
use mm_value::Refusal;
use std::alloc::Global;
use std::process::Abort;
use std::test::Fail;

/// Joins a list without combinations by nested loops. Tries again once if an allocation fails.
fn loops_over_none(rt: &impl Abort, alloc: Global, store: &Store, join: Join) -> Result<(), Fail>
    requires { (table : ℕ) × CanJoin store.now join table }
{
    let mut view = store.view();
    let list = match join.nested_loops(alloc, &mut view) {
        Ok(list) => list,
        Err(_) => join.nested_loops(alloc, &mut view)?,
    };
    assert_same(rt, list.len(), 0);
    assert_same(rt, list.descriptor().tables, [0, 1].as_slice());
    assert_same(rt, view.reads(), 0);
    Ok(())
}

#[test]
fn joins_a_list_of_no_combinations(rt: HostRuntime) -> Result<(), Fail> {
    let alloc = rt.alloc();
    let store = empty(alloc)?;
    let of_one = Descriptor {
        tables: &[0],
        fields: &[],
    };
    let of_both = Descriptor {
        tables: &[0, 1],
        fields: &[],
    };
    let outer = TempList::new(alloc, of_one);
    let join = Join {
        outer: &outer,
        descriptor: of_both,
        atoms: &[],
        cap: 0,
    };
    loops_over_none(&rt, alloc, &store, join)
}

/// Joins a list without combinations by a new hash table. Tries again once if an allocation fails.
fn builds_for_none(
    rt: &impl Abort,
    alloc: Global,
    store: &Store,
    join: Join,
    key: JoinKey,
) -> Result<(), Fail>
    requires next { (table : ℕ) × CanJoin store.now join table }
    requires asked { (table : ℕ) → IsNext store.now join.outer.now.tables join.descriptor.tables.now table
        → IsJoin join.atoms.now join.outer.now.tables key }
{
    let mut view = store.view();
    let list = match join.built_hash(alloc, &mut view, key) {
        Ok(list) => list,
        Err(_) => join.built_hash(alloc, &mut view, key)?,
    };
    assert_same(rt, list.len(), 0);
    assert_same(rt, view.reads(), 0);
    Ok(())
}

#[test]
fn builds_a_hash_table_of_no_rows(rt: HostRuntime) -> Result<(), Fail> {
    let alloc = rt.alloc();
    let store = empty(alloc)?;
    let of_one = Descriptor {
        tables: &[0],
        fields: &[],
    };
    let of_both = Descriptor {
        tables: &[0, 1],
        fields: &[],
    };
    let outer = TempList::new(alloc, of_one);
    let field = FieldPlace {
        place: 0,
        column: 1,
    };
    let atoms = [Atom {
        left: field,
        comparison: Comparison::Equal,
        right: Operand::Shifted(
            FieldPlace {
                place: 1,
                column: 0,
            },
            3,
        ),
    }];
    let key = join_key(&atoms[0], 1).expect(&rt, "a join equality");
    let shift = Shift::Minus(3);
    let wanted = JoinKey {
        column: 0,
        field,
        shift,
    };
    assert_same(&rt, key, wanted);
    let join = Join {
        outer: &outer,
        descriptor: of_both,
        atoms: &atoms,
        cap: 0,
    };
    builds_for_none(&rt, alloc, &store, join, key)
}

/// Returns the number of combinations of a merge of two tables along the trees on their values, with a cap.
fn try_capped(rt: &impl Abort, alloc: Global, store: &Store, cap: u64) -> Result<usize, Refusal>
    requires { IsSample store.now }
{
    let of_one = Descriptor {
        tables: &[0],
        fields: &[],
    };
    let of_both = Descriptor {
        tables: &[0, 1],
        fields: &[],
    };
    let mut view = store.view();
    let atoms = [equal(INNER_VALUE, OUTER_VALUE)];
    let key = join_key(&atoms[0], 1).expect(rt, "a join equality");
    let tree = view.tree_on(1, key.column);
    let tree = tree.expect(rt, "a tree on the values");
    let outer = select(alloc, &mut view, of_one, &atoms, Access::Scan)?;
    let join = Join {
        outer: &outer,
        descriptor: of_both,
        atoms: &atoms,
        cap,
    };
    let list = join.tree_merge(alloc, &mut view, tree, key)?;
    Ok(list.len())
}

/// Returns the number of combinations of a merge with a cap. Tries again once if an allocation fails.
fn capped(rt: &impl Abort, alloc: Global, store: &Store, cap: u64) -> Result<usize, Refusal>
    requires { IsSample store.now }
{
    match try_capped(rt, alloc, store, cap) {
        Err(Refusal::Memory) => try_capped(rt, alloc, store, cap),
        done => done,
    }
}

#[test]
fn merge_has_a_cap(rt: HostRuntime) -> Result<(), Fail> {
    let alloc = rt.alloc();
    let store = sample(alloc, IndexKind::Tree, [3, 2], Values::Ones)?;
    assert_same(&rt, capped(&rt, alloc, &store, 6)?, 6);
    let refused = capped(&rt, alloc, &store, 5);
    assert_that(&rt, matches!(refused, Err(Refusal::ResultTooLarge)));
    Ok(())
}
