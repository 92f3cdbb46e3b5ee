//! Ordered lists of references, and searches that count their comparisons.
ghost use Rattle.std.specs.Prelude.{◌≡◌, []};
ghost use Rattle.structure_tests.specs.Orders.{IsByPlace};

use crate::assertions::{assert_same, assert_that};
use crate::references::numbered;
use crate::samples::{Anywhere, ByPlace, InPartition, reserve};
use mm_order::{AtReference, OrderedRefs, Probe, Seek, SortedRefs};
use mm_value::RowRef;
use std::alloc::{AllocError, Global};
use std::cmp::Ordering;
use std::process::Abort;
use std::test::Fail;

/// Appends all references of a list.
pub fn append_all<R: OrderedRefs>(
    alloc: Global,
    refs: &R,
    out: &mut Vec<RowRef>,
) -> Result<(), AllocError>
    requires { IsByPlace (R.refs refs.now) }
{
    refs.copy_range(alloc, &ByPlace, &Anywhere, &Anywhere, out)
}

/// Appends the references of a list in a partition.
pub fn append_part<R: OrderedRefs>(
    alloc: Global,
    refs: &R,
    part: u32,
    out: &mut Vec<RowRef>,
) -> Result<(), AllocError>
    requires { IsByPlace (R.refs refs.now) }
{
    let probe = InPartition(part);
    refs.copy_range(alloc, &ByPlace, &probe, &probe, out)
}

/// Appends copies of all references to an empty list, again if an allocation fails; then the list is still empty.
fn copy_all(
    rt: &impl Abort,
    alloc: Global,
    refs: &SortedRefs,
    all: &mut Vec<RowRef>,
) -> Result<(), AllocError>
    requires { IsByPlace refs.now.refs }
{
    if append_all(alloc, refs, all).is_err() {
        assert_same(rt, all.len(), 0);
        append_all(alloc, refs, all)?;
    }
    Ok(())
}

/// Asserts that these are the references 1 to 17, in order.
fn assert_are_17(rt: &impl Abort, refs: &[RowRef]) {
    assert_same(rt, refs.len(), 17);
    for (held, n) in refs.iter().zip(1..18) {
        assert_same(rt, *held, numbered(n));
    }
}

/// Asserts that a list has the references 1 to 17, in order.
fn assert_up_to_17(rt: &impl Abort, alloc: Global, refs: &SortedRefs) -> Result<(), AllocError>
    requires { IsByPlace refs.now.refs }
{
    let mut all = Vec::new(alloc);
    copy_all(rt, alloc, refs, &mut all)?;
    assert_are_17(rt, &all);
    Ok(())
}

/// Inserts the references 1 to 17 into an empty list.
fn put_17(rt: &impl Abort, alloc: Global, refs: &mut SortedRefs) -> Result<(), AllocError>
    requires { refs.old.refs ≡ [] }
    ensures { IsByPlace refs.new.refs }
{
    reserve(rt, refs, alloc, 17)?;
    for n in 1..18 {
        refs.insert(&ByPlace, numbered(n));
    }
    Ok(())
}

/// Asserts that a list has the references 1 to 17 in order, and removes the last one.
fn take_last(rt: &impl Abort, alloc: Global, refs: &mut SortedRefs) -> Result<(), AllocError>
    requires { IsByPlace refs.old.refs }
{
    assert_same(rt, refs.len(), 17);
    assert_up_to_17(rt, alloc, refs)?;
    assert_that(rt, refs.remove(&ByPlace, numbered(17)));
    assert_that(rt, !refs.remove(&ByPlace, numbered(17)));
    assert_that(rt, 1 <= refs.spare());
    Ok(())
}

#[test]
fn holds_references_in_order(rt: HostRuntime) -> Result<(), Fail> {
    let alloc = rt.alloc();
    let mut refs = SortedRefs::new(alloc);
    put_17(&rt, alloc, &mut refs)?;
    take_last(&rt, alloc, &mut refs)?;
    Ok(())
}

/// Appends copies of the references of a partition to others, again if an allocation fails; then the others are as before.
fn copy_part(
    rt: &impl Abort,
    alloc: Global,
    refs: &SortedRefs,
    part: u32,
    out: &mut Vec<RowRef>,
) -> Result<(), AllocError>
    requires { IsByPlace refs.now.refs }
{
    let before = out.len();
    if append_part(alloc, refs, part, out).is_err() {
        assert_same(rt, out.len(), before);
        append_part(alloc, refs, part, out)?;
    }
    Ok(())
}

/// Appends copies of the references of the first three partitions to an empty list: the references 3 and 70.
fn copy_parts(
    rt: &impl Abort,
    alloc: Global,
    refs: &SortedRefs,
    out: &mut Vec<RowRef>,
) -> Result<(), AllocError>
    requires { IsByPlace refs.now.refs }
{
    for part in 0..3 {
        copy_part(rt, alloc, refs, part, out)?;
    }
    assert_same(rt, out.as_slice(), &[numbered(3), numbered(70)]);
    Ok(())
}

/// Inserts the references 3 and 70 into an empty list.
fn put_two(rt: &impl Abort, alloc: Global, refs: &mut SortedRefs) -> Result<(), AllocError>
    requires { refs.old.refs ≡ [] }
    ensures { IsByPlace refs.new.refs }
{
    reserve(rt, refs, alloc, 2)?;
    refs.insert(&ByPlace, numbered(70));
    refs.insert(&ByPlace, numbered(3));
    Ok(())
}

#[test]
fn copies_a_range(rt: HostRuntime) -> Result<(), Fail> {
    let alloc = rt.alloc();
    let mut refs = SortedRefs::new(alloc);
    put_two(&rt, alloc, &mut refs)?;
    let mut out = Vec::new(alloc);
    copy_parts(&rt, alloc, &refs, &mut out)?;
    Ok(())
}

#[test]
fn counts_each_question(rt: HostRuntime) {
    let probe = InPartition(1);
    let mut seek = Seek::new(&probe);
    assert_same(&rt, seek.count(), 0);
    assert_same(&rt, seek.place(numbered(3)), Ordering::Less);
    assert_same(&rt, seek.place(numbered(64)), Ordering::Equal);
    assert_same(&rt, seek.place(numbered(128)), Ordering::Greater);
    assert_same(&rt, seek.count(), 3);
}

#[test]
fn tells_where_a_reference_lies(rt: HostRuntime) {
    let probe = AtReference {
        order: &ByPlace,
        sought: numbered(6),
    };
    assert_same(&rt, probe.place(numbered(5)), Ordering::Less);
    assert_same(&rt, probe.place(numbered(6)), Ordering::Equal);
    assert_same(&rt, probe.place(numbered(8)), Ordering::Greater);
}
