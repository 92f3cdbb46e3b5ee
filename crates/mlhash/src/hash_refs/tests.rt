//! Tests for what no contract states and no public call shows: the bucket of each entry, where the directory leads, and the size of a node.
ghost use Rattle.std.specs.Prelude.{◌<◌};
ghost use Rattle.mlhash.specs.Bag.{IsSmall};

use crate::chains::find;
use crate::hash_refs::HashRefs;
use crate::node::{NIL, Node};
use mm_value::RowRef;
use std::process::Abort;
use std::test::Fail;

/// Returns the reference to a slot that fits into 16 bits.
fn slot(slot: u16) -> RowRef
    ensures { IsSmall result }
{
    RowRef {
        slot: u32::from(slot),
    }
}

/// Returns whether the directory leads to a node with this pair.
fn is_led_to(refs: &HashRefs, hash: u64, reference: RowRef) -> bool {
    let hint = refs.directory.hint(reference);
    refs.nodes
        .get(hint as usize)
        .is_some_and(|node| node.is_live() && node.has(hash, reference))
}

/// Returns whether the pair is in this bucket.
fn stands_in(refs: &HashRefs, bucket: usize, hash: u64, reference: RowRef) -> bool {
    bucket < refs.heads.len() && find(&refs.nodes, refs.heads.get(bucket), hash, reference) != NIL
}

/// Inserts a pair. Fails the test if there is no capacity for it.
fn insert(rt: &impl Abort, refs: &mut HashRefs, hash: u64, reference: RowRef)
    requires { IsSmall reference }
{
    assert!(rt; refs.spare() > 0, "no room for {hash}");
    refs.insert(hash, reference);
}

#[test]
fn splits_and_merges_one_bucket_at_a_time(rt: HostRuntime) -> Result<(), Fail> {
    let alloc = rt.alloc();
    let mut refs = HashRefs::new(alloc);
    refs.reserve(alloc, 9)?;
    for hash in 0..9u16 {
        assert_eq!(rt; refs.heads.len(), 4, "before {hash}");
        insert(&rt, &mut refs, u64::from(hash), slot(hash));
    }
    assert_eq!(rt; refs.heads.len(), 5);
    for (hash, bucket) in [(8, 0), (0, 0), (4, 4), (5, 1), (1, 1), (7, 3)] {
        assert!(rt;
            stands_in(&refs, bucket, u64::from(hash), slot(hash)),
            "{hash}"
        );
    }
    for hash in 0..6u16 {
        assert!(rt; refs.remove(u64::from(hash), slot(hash)), "{hash}");
    }
    assert_eq!(rt; (refs.len(), refs.heads.len()), (3, 5));
    assert!(rt; refs.remove(8, slot(8)));
    assert_eq!(rt; (refs.len(), refs.heads.len()), (2, 4));
    Ok(())
}

#[test]
fn keeps_two_entries_a_bucket_over_many_levels(rt: HostRuntime) -> Result<(), Fail> {
    let alloc = rt.alloc();
    let mut refs = HashRefs::new(alloc);
    refs.reserve(alloc, 1000)?;
    for i in 0..1000u64 {
        insert(
            &rt,
            &mut refs,
            i.wrapping_mul(0x9e37_79b9_7f4a_7c15),
            slot(7),
        );
    }
    assert_eq!(rt; (refs.len(), refs.heads.len()), (1000, 500));
    let room = refs.spare();
    for i in 0..1000u64 {
        assert!(rt;
            refs.remove(i.wrapping_mul(0x9e37_79b9_7f4a_7c15), slot(7)),
            "{i}"
        );
    }
    // From 249 entries on, each removal merged one bucket.
    assert_eq!(rt; (refs.len(), refs.heads.len()), (0, 250));
    assert_eq!(rt; refs.spare(), room + 1000);
    Ok(())
}

#[test]
fn is_led_to_each_pair_of_one_hash(rt: HostRuntime) -> Result<(), Fail> {
    let alloc = rt.alloc();
    let mut refs = HashRefs::new(alloc);
    for number in 0..1000u16 {
        refs.reserve(alloc, 1)?;
        insert(&rt, &mut refs, 5, slot(number));
    }
    // 7 and 1000 are coprime: each number occurs once.
    for step in 0..1000u16 {
        let gone = slot(step * 7 % 1000);
        assert!(rt; is_led_to(&refs, 5, gone), "{step}");
        assert!(rt; refs.remove(5, gone), "{step}");
        assert!(rt; !refs.remove(5, gone), "{step}");
    }
    assert_eq!(rt; refs.len(), 0);
    Ok(())
}

#[test]
fn removes_references_past_the_directory(rt: HostRuntime) -> Result<(), Fail> {
    let alloc = rt.alloc();
    let mut refs = HashRefs::new(alloc);
    refs.reserve(alloc, 4)?;
    // The last slot is the greatest that an entry can have.
    let far = [64_000_003, u32::MAX - 1];
    for slot in far {
        insert(&rt, &mut refs, 9, RowRef { slot });
    }
    for slot in far {
        let gone = RowRef { slot };
        assert!(rt; !is_led_to(&refs, 9, gone));
        assert!(rt; refs.remove(9, gone));
        assert!(rt; !refs.remove(9, gone));
    }
    assert_eq!(rt; refs.len(), 0);
    Ok(())
}

#[test]
fn removes_no_reference_that_is_not_small(rt: HostRuntime) -> Result<(), Fail> {
    let alloc = rt.alloc();
    let mut refs = HashRefs::new(alloc);
    refs.reserve(alloc, 4)?;
    insert(&rt, &mut refs, 0, slot(0));
    insert(&rt, &mut refs, 0, slot(63));
    // A free node remains, with hash 0 and the greatest reference.
    assert!(rt; refs.remove(0, slot(0)));
    assert!(rt; !refs.remove(0, RowRef { slot: u32::MAX }));
    assert_eq!(rt; refs.len(), 1);
    Ok(())
}

#[test]
fn gives_the_references_of_one_hash(rt: HostRuntime) -> Result<(), Fail> {
    let alloc = rt.alloc();
    let mut refs = HashRefs::new(alloc);
    refs.reserve(alloc, 100)?;
    for number in 0..100u16 {
        insert(&rt, &mut refs, u64::from(number % 8), slot(number));
    }
    let mut count = 0u32;
    for reference in refs.matching(3) {
        assert_eq!(rt; reference.slot % 8, 3);
        count = count.wrapping_add(1);
    }
    assert_eq!(rt; count, 13);
    assert!(rt; refs.matching(8).next().is_none());
    Ok(())
}

#[test]
fn keeps_an_entry_in_16_bytes(rt: HostRuntime) {
    assert_eq!(rt; size_of::<Node>(), 16);
}

#[test]
fn removes_one_of_the_pairs_of_a_reference(rt: HostRuntime) -> Result<(), Fail> {
    let alloc = rt.alloc();
    let mut refs = HashRefs::new(alloc);
    refs.reserve(alloc, 4)?;
    for hash in [1, 2, 2, 3] {
        insert(&rt, &mut refs, hash, slot(0));
    }
    // The directory leads to the pair inserted last, and to no other.
    assert!(rt; is_led_to(&refs, 3, slot(0)));
    for (hash, left) in [(1, 3), (2, 2), (2, 1), (3, 0)] {
        assert!(rt; refs.remove(hash, slot(0)), "{hash}");
        assert_eq!(rt; refs.len(), left);
    }
    assert!(rt; !refs.remove(2, slot(0)));
    Ok(())
}

#[test]
fn clears_all_buckets(rt: HostRuntime) -> Result<(), Fail> {
    let alloc = rt.alloc();
    let mut refs = HashRefs::new(alloc);
    refs.reserve(alloc, 100)?;
    for number in 0..100u16 {
        insert(&rt, &mut refs, u64::from(number), slot(number));
    }
    let room = refs.spare();
    refs.clear();
    assert_eq!(rt;
        (refs.len(), refs.heads.len(), refs.spare()),
        (0, 4, room + 100)
    );
    // The directory still names the old nodes of the references.
    for number in 0..50u16 {
        insert(&rt, &mut refs, 7, slot(99 - number));
    }
    assert!(rt; !refs.remove(3, slot(3)));
    for number in 0..50u16 {
        assert!(rt; refs.remove(7, slot(99 - number)), "{number}");
    }
    assert_eq!(rt; refs.len(), 0);
    Ok(())
}
