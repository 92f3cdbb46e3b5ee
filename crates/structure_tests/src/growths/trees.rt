//! T-trees of several nodes, and their pool of nodes.
ghost use Rattle.structure_tests.specs.Orders.{IsByPlace};

use crate::assertions::{assert_same, assert_that};
use crate::growths::asked_again;
use crate::orders::append_all;
use crate::references::ascending;
use crate::trees::assert_goes_over;
use mm_order::OrderedRefs;
use mm_value::RowRef;
use std::process::Abort;
use std::test::Fail;
use ttree::TTree;
use ttree_node::Spares;

/// Returns a tree over references in order, again if an allocation fails.
fn build_again(rt: &(impl Abort + AllocGlobal + Print), refs: &[RowRef]) -> Result<TTree, Fail> {
    match TTree::from_sorted(rt.alloc(), refs) {
        Ok(tree) => Ok(tree),
        Err(_) => {
            asked_again(rt)?;
            Ok(TTree::from_sorted(rt.alloc(), refs)?)
        }
    }
}

/// Asserts that a tree of 40 references has the least possible height, and that its references are these.
fn assert_built(rt: &impl Abort, tree: &TTree, refs: &[RowRef]) {
    assert_same(rt, (tree.len(), tree.height(), tree.spare()), (40, 2, 0));
    assert_goes_over(rt, tree, refs);
}

#[test]
fn from_sorted_growths(rt: HostRuntime) -> Result<(), Fail> {
    let Ok(refs) = ascending(rt.alloc(), 40) else {
        return Ok(());
    };
    let tree = build_again(&rt, &refs)?;
    assert_built(&rt, &tree, &refs);
    Ok(())
}

/// Appends copies of all references of a tree to an empty list, again if an allocation fails, and asserts that they are these.
fn copy_again(
    rt: &(impl Abort + AllocGlobal + Print),
    tree: &TTree,
    refs: &[RowRef],
    out: &mut Vec<RowRef>,
) -> Result<(), Fail>
    requires { IsByPlace tree.now.refs }
{
    if append_all(rt.alloc(), tree, out).is_err() {
        asked_again(rt)?;
        assert_that(rt, out.is_empty());
        append_all(rt.alloc(), tree, out)?;
    }
    assert_same(rt, out.as_slice(), refs);
    Ok(())
}

/// Copies the nodes of a tree over references in order.
fn copy_nodes(rt: &(impl Abort + AllocGlobal + Print), refs: &[RowRef]) -> Result<(), Fail>
    requires { IsByPlace refs.now }
{
    let Ok(tree) = TTree::from_sorted(rt.alloc(), refs) else {
        return Ok(());
    };
    let mut out = Vec::new(rt.alloc());
    copy_again(rt, &tree, refs, &mut out)
}

// The range covers three nodes, whose entries are appended node by node.
#[test]
fn nodes_copy_growths(rt: HostRuntime) -> Result<(), Fail> {
    let Ok(refs) = ascending(rt.alloc(), 40) else {
        return Ok(());
    };
    copy_nodes(&rt, &refs)
}

// After a failed reservation the pool keeps the nodes that it has.
#[test]
fn spares_growths(rt: HostRuntime) -> Result<(), Fail> {
    let alloc = rt.alloc();
    let mut spares = Spares::new(alloc);
    if spares.reserve(alloc, 2).is_err() {
        return Ok(());
    }
    if spares.reserve(alloc, 5).is_err() {
        asked_again(&rt)?;
        assert_that(&rt, (2..5).contains(&spares.len()));
        spares.reserve(alloc, 5)?;
    }
    assert_same(&rt, spares.len(), 5);
    Ok(())
}
