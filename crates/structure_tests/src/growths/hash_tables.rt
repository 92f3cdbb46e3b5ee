//! Multisets of references by hash.
ghost use Rattle.std.specs.Prelude.{◌<◌};

use crate::assertions::{assert_same, assert_that};
use crate::growths::asked_again;
use crate::hash_tables::slot;
use crate::references::are;
use mlhash::HashRefs;
use mm_value::RowRef;
use std::alloc::{AllocError, Global};
use std::process::Abort;
use std::test::Fail;

/// Inserts references of the hash 4 into a hash table, and one of the hash 9.
fn put_three(alloc: Global, refs: &mut HashRefs) -> Result<(), AllocError> {
    refs.reserve(alloc, 3)?;
    refs.insert(4, slot(1));
    refs.insert(9, slot(2));
    refs.insert(4, slot(3));
    Ok(())
}

/// Appends all references of `put_three` to an empty list, and then those of the hash 4.
fn find_three(
    rt: &impl Abort,
    alloc: Global,
    refs: &HashRefs,
    found: &mut Vec<RowRef>,
) -> Result<(), AllocError> {
    refs.copy_all(alloc, found)?;
    assert_that(rt, are(found, &[slot(1), slot(2), slot(3)]));
    found.clear();
    refs.matches(alloc, 4, found)?;
    assert_that(rt, are(found, &[slot(1), slot(3)]));
    Ok(())
}

/// Asserts that a hash table has exactly the three references of `put_three`.
fn assert_three(rt: &impl Abort, alloc: Global, refs: &HashRefs) -> Result<(), AllocError> {
    let mut found = Vec::new(alloc);
    find_three(rt, alloc, refs, &mut found)
}

/// Inserts a reference into a hash table with capacity for it, and removes it. Then there is capacity for 40 besides those of `put_three`.
fn use_room(rt: &impl Abort, alloc: Global, refs: &mut HashRefs)
    requires { 0 < refs.old.spare }
{
    refs.insert(9, slot(4));
    assert_that(rt, refs.remove(9, slot(4)));
    assert_that(rt, refs.spare() >= 40);
    let _ = assert_three(rt, alloc, refs);
}

/// Reserves capacity, again if an allocation fails, and uses it. The hash table does without bucket heads and directory entries whose
/// allocation fails.
fn reserve_again(rt: &(impl Abort + AllocGlobal + Print), refs: &mut HashRefs) -> Result<(), Fail> {
    if put_three(rt.alloc(), refs).is_err() {
        return Ok(());
    }
    let spare = refs.spare();
    if refs.reserve(rt.alloc(), 40).is_err() {
        asked_again(rt)?;
        assert_same(rt, (refs.len(), refs.spare()), (3, spare));
        assert_three(rt, rt.alloc(), refs)?;
        refs.reserve(rt.alloc(), 40)?;
    }
    use_room(rt, rt.alloc(), refs);
    Ok(())
}

#[test]
fn hash_reserve_growths(rt: HostRuntime) -> Result<(), Fail> {
    let mut refs = HashRefs::new(rt.alloc());
    reserve_again(&rt, &mut refs)
}

/// Finds the references of a hash, again if an allocation fails.
fn match_again(
    rt: &(impl Abort + AllocGlobal + Print),
    refs: &mut HashRefs,
    found: &mut Vec<RowRef>,
) -> Result<(), Fail> {
    if put_three(rt.alloc(), refs).is_err() {
        return Ok(());
    }
    if refs.matches(rt.alloc(), 4, found).is_err() {
        asked_again(rt)?;
        assert_that(rt, found.is_empty());
        assert_three(rt, rt.alloc(), refs)?;
        refs.matches(rt.alloc(), 4, found)?;
    }
    assert_that(rt, are(found, &[slot(1), slot(3)]));
    Ok(())
}

#[test]
fn hash_matches_growths(rt: HostRuntime) -> Result<(), Fail> {
    let mut refs = HashRefs::new(rt.alloc());
    let mut found = Vec::new(rt.alloc());
    match_again(&rt, &mut refs, &mut found)
}

/// Returns a full list of one reference, which must grow for the next.
fn full_list(alloc: Global) -> Result<Vec<RowRef>, AllocError> {
    let mut list = Vec::with_capacity(alloc, 1)?;
    list.push(slot(0))?;
    Ok(list)
}

/// Appends copies of all references to a list of one, again if an allocation fails.
fn copy_again(
    rt: &(impl Abort + AllocGlobal + Print),
    refs: &HashRefs,
    found: &mut Vec<RowRef>,
) -> Result<(), Fail> {
    if refs.copy_all(rt.alloc(), found).is_err() {
        asked_again(rt)?;
        assert_that(rt, are(found, &[slot(0)]));
        assert_three(rt, rt.alloc(), refs)?;
        refs.copy_all(rt.alloc(), found)?;
    }
    let wanted = [slot(0), slot(1), slot(2), slot(3)];
    assert_that(rt, are(found, &wanted));
    Ok(())
}

/// Fills an empty hash table, and copies its references.
fn copy_three(rt: &(impl Abort + AllocGlobal + Print), refs: &mut HashRefs) -> Result<(), Fail> {
    if put_three(rt.alloc(), refs).is_err() {
        return Ok(());
    }
    let Ok(mut found) = full_list(rt.alloc()) else {
        return Ok(());
    };
    copy_again(rt, refs, &mut found)
}

#[test]
fn hash_copy_growths(rt: HostRuntime) -> Result<(), Fail> {
    let mut refs = HashRefs::new(rt.alloc());
    copy_three(&rt, &mut refs)
}
