//! Ordered lists of references: sorted ones and T-trees.
ghost use Rattle.std.specs.Prelude.{◌≡◌, []};
ghost use Rattle.structure_tests.specs.Orders.{IsByPlace};

use crate::assertions::{assert_same, assert_that};
use crate::growths::asked_again;
use crate::orders::{append_all, append_part};
use crate::references::numbered;
use crate::samples::ByPlace;
use mm_order::{OrderedRefs, SortedRefs};
use mm_value::RowRef;
use std::alloc::{AllocError, Global};
use std::process::Abort;
use std::test::Fail;
use ttree::TTree;

/// Inserts the references 3 and 70 into an empty list.
fn put_two<R: OrderedRefs>(alloc: Global, refs: &mut R) -> Result<(), AllocError>
    requires { R.refs refs.old ≡ [] }
    ensures { IsByPlace (R.refs refs.new) }
{
    refs.reserve(alloc, 2)?;
    refs.insert(&ByPlace, numbered(70));
    refs.insert(&ByPlace, numbered(3));
    Ok(())
}

/// Asserts that a list has the references of `put_two`, in order.
fn assert_two<R: OrderedRefs>(rt: &impl Abort, alloc: Global, refs: &R) -> Result<(), AllocError>
    requires { IsByPlace (R.refs refs.now) }
{
    let mut held = Vec::new(alloc);
    append_all(alloc, refs, &mut held)?;
    assert_same(rt, held.as_slice(), &[numbered(3), numbered(70)]);
    Ok(())
}

/// Reserves capacity for 20 more references besides those of `put_two`.
fn assert_reserves<R: OrderedRefs>(
    rt: &(impl Abort + Print),
    alloc: Global,
    refs: &mut R,
) -> Result<(), Fail>
    requires { IsByPlace (R.refs refs.old) }
{
    let spare = refs.spare();
    if refs.reserve(alloc, 20).is_err() {
        asked_again(rt)?;
        assert_same(rt, refs.len(), 2);
        assert_that(rt, spare <= refs.spare());
        assert_that(rt, refs.spare() < 20);
        assert_two(rt, alloc, refs)?;
        refs.reserve(alloc, 20)?;
    }
    assert_that(rt, refs.spare() >= 20);
    let _ = assert_two(rt, alloc, refs);
    Ok(())
}

/// Returns the references after which others are appended.
fn front() -> [RowRef; 4] {
    [numbered(1), numbered(0), numbered(1), numbered(0)]
}

/// Appends the references of `put_two` in the partition of 70 to those of `front`.
fn copy_behind<R: OrderedRefs>(
    rt: &(impl Abort + Print),
    alloc: Global,
    refs: &R,
    out: &mut Vec<RowRef>,
) -> Result<(), Fail>
    requires { IsByPlace (R.refs refs.now) }
{
    let front = front();
    if append_part(alloc, refs, 1, out).is_err() {
        asked_again(rt)?;
        assert_same(rt, out.as_slice(), &front);
        assert_two(rt, alloc, refs)?;
        append_part(alloc, refs, 1, out)?;
    }
    let [a, b, c, d] = front;
    assert_same(rt, out.as_slice(), &[a, b, c, d, numbered(70)]);
    Ok(())
}

/// Appends references to others, of which there are enough that the list must grow.
fn assert_copies<R: OrderedRefs>(
    rt: &(impl Abort + Print),
    alloc: Global,
    refs: &R,
) -> Result<(), Fail>
    requires { IsByPlace (R.refs refs.now) }
{
    let mut out = Vec::new(alloc);
    if out.extend_from_slice(&front()).is_err() {
        return Ok(());
    }
    copy_behind(rt, alloc, refs, &mut out)
}

#[test]
fn sorted_reserve_growths(rt: HostRuntime) -> Result<(), Fail> {
    let alloc = rt.alloc();
    let mut refs = SortedRefs::new(alloc);
    if put_two(alloc, &mut refs).is_err() {
        return Ok(());
    }
    assert_reserves(&rt, alloc, &mut refs)
}

#[test]
fn sorted_copy_growths(rt: HostRuntime) -> Result<(), Fail> {
    let alloc = rt.alloc();
    let mut refs = SortedRefs::new(alloc);
    if put_two(alloc, &mut refs).is_err() {
        return Ok(());
    }
    assert_copies(&rt, alloc, &refs)
}

#[test]
fn tree_reserve_growths(rt: HostRuntime) -> Result<(), Fail> {
    let alloc = rt.alloc();
    let mut refs = TTree::new(alloc);
    if put_two(alloc, &mut refs).is_err() {
        return Ok(());
    }
    assert_reserves(&rt, alloc, &mut refs)
}

#[test]
fn tree_copy_growths(rt: HostRuntime) -> Result<(), Fail> {
    let alloc = rt.alloc();
    let mut refs = TTree::new(alloc);
    if put_two(alloc, &mut refs).is_err() {
        return Ok(());
    }
    assert_copies(&rt, alloc, &refs)
}
