//! The nodes of a T-tree: their rotations, their entries, and the pool of free nodes.
ghost use Rattle.std.specs.Prelude.{◌≡◌, ◌^◌, ◌<◌, length, max, OnOk};
ghost use Rattle.ttree_node.specs.Slide.{IsNextTo, child};
ghost use Rattle.ttree_node.specs.Tree.{fork, height_of};

use crate::assertions::{assert_same, assert_that};
use crate::references::numbered;
use std::alloc::{AllocError, Global};
use std::process::Abort;
use std::test::Fail;
use ttree_node::{Node, Side, Spares, Subtree};

/// Returns a pool of at least `n` nodes. A failed reservation leaves no fewer than before.
fn reserve(rt: &impl Abort, alloc: Global, spares: &mut Spares, n: usize) -> Result<(), AllocError>
    ensures { OnOk result (spares.new ≡ max spares.old n) }
{
    let before = spares.len();
    if spares.reserve(alloc, n).is_err() {
        assert_that(rt, spares.len() >= before);
        assert_that(rt, spares.len() < n);
        spares.reserve(alloc, n)?;
    }
    Ok(())
}

/// Inserts the entries 0 to 14 before those of a node.
fn fill(rt: &impl Abort, node: &mut Subtree)
    ensures left { node.new.left ≡ node.old.left }
    ensures right { node.new.right ≡ node.old.right }
{
    for number in 0..15u32 {
        let place = number as usize;
        assert_that(rt, node.entries().len() < 16);
        assert_that(rt, place < node.entries().len());
        node.put_entry(place, numbered(number));
    }
}

/// Appends the numbers of the entries from left to right.
fn write_numbers(tree: Option<&Node>, numbers: &mut Vec<u32>) -> Result<(), AllocError> {
    let Some(tree) = tree else {
        return Ok(());
    };
    write_numbers(tree.left(), numbers)?;
    for entry in tree.entries().iter() {
        numbers.push(entry.slot)?;
    }
    write_numbers(tree.right(), numbers)
}

/// Asserts that a tree has entries of these numbers from left to right.
fn assert_numbers(
    rt: &impl Abort,
    alloc: Global,
    tree: Option<&Node>,
    want: &[u32],
) -> Result<(), AllocError> {
    let mut numbers = Vec::new(alloc);
    write_numbers(tree, &mut numbers)?;
    assert_same(rt, numbers.as_slice(), want);
    Ok(())
}

/// Asserts that a tree of three levels has this number at its root, and the numbers 1 to 4 from left to right.
fn assert_four(rt: &impl Abort, alloc: Global, tree: &Subtree, root: u32) -> Result<(), AllocError>
    requires some { 0 < length tree.now.entries }
    requires low { height_of (fork tree.now) < 2 ^ 16 }
{
    assert_same(rt, (tree.height(), tree.entries().get(0).slot), (3, root));
    assert_numbers(rt, alloc, Some(tree.node()), &[1, 2, 3, 4])
}

/// Rotates a tree of four of the free nodes to the left and back. If the test may end early, it owns none of them.
fn turn_four(rt: &impl Abort, alloc: Global, spares: &mut Spares) -> Result<(), AllocError>
    requires { spares.old ≡ 4 }
{
    let mut first = Subtree::leaf(spares, numbered(1));
    let mut second = Subtree::leaf(spares, numbered(3));
    second.set_left(Some(Subtree::leaf(spares, numbered(2))));
    second.set_right(Some(Subtree::leaf(spares, numbered(4))));
    first.set_right(Some(second));
    let before = assert_four(rt, alloc, &first, 1);
    let turned = first.rotate_left();
    let between = assert_four(rt, alloc, &turned, 3);
    let back = turned.rotate_right();
    let after = assert_four(rt, alloc, &back, 1);
    back.free_into(spares);
    assert_same(rt, spares.len(), 4);
    before.and(between).and(after)
}

#[test]
fn rotations_keep_the_order(rt: HostRuntime) -> Result<(), Fail> {
    let alloc = rt.alloc();
    let mut spares = Spares::new(alloc);
    reserve(&rt, alloc, &mut spares, 4)?;
    turn_four(&rt, alloc, &mut spares)?;
    Ok(())
}

/// Fills a node and slides its entries to the child of 100 on a side.
fn slide(rt: &impl Abort, alloc: Global, node: &mut Subtree, side: Side) -> Result<(), AllocError>
    requires { IsNextTo side (child side node.old) }
{
    fill(rt, node);
    node.slide(side);
    assert_same(rt, node.entries().len(), 3);
    match side {
        Side::Left => {
            let want = [100, 0, 1, 2, 3, 4, 5, 6, 7, 8, 9, 10, 11, 12];
            assert_numbers(rt, alloc, node.left(), &want)
        }
        Side::Right => {
            let want = [3, 4, 5, 6, 7, 8, 9, 10, 11, 12, 13, 14, 15, 100];
            assert_numbers(rt, alloc, node.right(), &want)
        }
    }
}

#[test]
fn entries_move_to_a_leaf(rt: HostRuntime) -> Result<(), Fail> {
    for side in [Side::Left, Side::Right] {
        let alloc = rt.alloc();
        let mut spares = Spares::new(alloc);
        reserve(&rt, alloc, &mut spares, 2)?;
        let leaf = Subtree::leaf(&mut spares, numbered(100));
        let mut node = Subtree::leaf(&mut spares, numbered(15));
        match side {
            Side::Left => node.set_left(Some(leaf)),
            Side::Right => node.set_right(Some(leaf)),
        }
        slide(&rt, alloc, &mut node, side)?;
    }
    Ok(())
}

#[test]
fn entries_shift(rt: HostRuntime) -> Result<(), Fail> {
    let alloc = rt.alloc();
    let mut spares = Spares::new(alloc);
    reserve(&rt, alloc, &mut spares, 1)?;
    let mut node = Subtree::leaf(&mut spares, numbered(2));
    node.put_entry(0, numbered(1));
    node.put_entry(2, numbered(3));
    assert_same(&rt, node.take_entry(1).slot, 2);
    assert_numbers(&rt, alloc, Some(node.node()), &[1, 3])?;
    Ok(())
}

#[test]
fn long_pools_are_dropped(rt: HostRuntime) -> Result<(), Fail> {
    let alloc = rt.alloc();
    let mut spares = Spares::new(alloc);
    spares.reserve(alloc, 200_000)?;
    spares.trim(100_000);
    assert_same(&rt, spares.len(), 100_000);
    Ok(())
}
