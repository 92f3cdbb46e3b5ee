//! T-trees: their references, their height, and the places of entries in the nodes.
ghost use Rattle.std.specs.Prelude.{◌≡◌, ◌≤◌, [], IfOk};
ghost use Rattle.std.specs.Ordering.{nat_cmp};
ghost use Rattle.structure_tests.specs.Orders.{IsByPlace};

use crate::assertions::{assert_same, assert_that};
use crate::orders::append_all;
use crate::references::{ascending, numbered};
use crate::samples::{At, ByPlace, reserve};
use mm_order::{OrderedRefs, Probe, Seek, SortedRefs};
use mm_value::RowRef;
use std::alloc::{AllocError, Global};
use std::cell::Cell;
use std::cmp::Ordering;
use std::process::Abort;
use std::test::Fail;
use ttree::TTree;

/// The reference of a number. Counts the comparisons, and keeps the numbers of the first four references compared.
#[derive(Drop)]
struct Counting {
    number: u32,
    asked: Cell<usize>,
    about: Cell<[u32; 4]>,
}

impl Probe for Counting {
    ghost covers = { λ _ _. Unit {0} };

    ghost place_of = { λ p at. nat_cmp at.slot p.number };

    fn place(&self, at: RowRef) -> Ordering {
        let asked = self.asked.get();
        let mut about = self.about.get();
        if let Some(kept) = about.get_mut(asked) {
            *kept = at.slot;
        }
        self.about.set(about);
        self.asked.set(asked.wrapping_add(1));
        at.slot.cmp(&self.number)
    }
}

fn counting_at(number: u32) -> Counting
    ensures { result.number ≡ number }
{
    Counting {
        number,
        asked: Cell::new(0),
        about: Cell::new([0; 4]),
    }
}

/// Removes the reference of 16 from a tree of 17, where it is the only entry of a second node.
fn empty_second_node(rt: &impl Abort, tree: &mut TTree)
    requires { IsByPlace tree.old.refs }
{
    assert_same(rt, tree.height(), 2);
    assert_that(rt, tree.remove(&ByPlace, numbered(16)));
    assert_that(rt, !tree.remove(&ByPlace, numbered(16)));
    assert_same(rt, (tree.height(), tree.len()), (1, 16));
    tree.trim_spares(1);
    assert_same(rt, tree.spare(), 1);
}

/// Inserts 17 references into an empty tree, and removes the last one.
fn fill_first_node(rt: &(impl Abort + AllocGlobal), tree: &mut TTree) -> Result<(), Fail>
    requires { tree.old.refs ≡ [] }
{
    reserve(rt, tree, rt.alloc(), 17)?;
    for number in 0..16 {
        tree.insert(&ByPlace, numbered(number));
    }
    assert_same(rt, tree.height(), 1);
    tree.insert(&ByPlace, numbered(16));
    empty_second_node(rt, tree);
    Ok(())
}

#[test]
fn height_follows_the_count(rt: HostRuntime) -> Result<(), Fail> {
    let mut tree = TTree::new(rt.alloc());
    fill_first_node(&rt, &mut tree)
}

/// Asserts that a tree without references has the nodes of 2,000.
fn assert_cleared(rt: &impl Abort, tree: &TTree) {
    assert_goes_over(rt, tree, &[]);
    assert_same(rt, tree.height(), 0);
    assert_that(rt, tree.spare() >= 600);
}

#[test]
fn clears(rt: HostRuntime) -> Result<(), Fail> {
    let mut tree = grown(&rt, rt.alloc())?;
    tree.clear();
    assert_cleared(&rt, &tree);
    fill_first_node(&rt, &mut tree)
}

/// Returns a tree of the references of the numbers below 2,000, the lower half of which was inserted from the greatest to the least.
fn grown(rt: &impl Abort, alloc: Global) -> Result<TTree, AllocError>
    ensures { IfOk result (λ tree. IsByPlace tree.refs) }
{
    let mut tree = TTree::new(alloc);
    'down: for i in 0..1000 {
        reserve(rt, &mut tree, alloc, 1)?;
        tree.insert(&ByPlace, numbered(999 - i));
    }
    'up: for number in 1000..2000 {
        reserve(rt, &mut tree, alloc, 1)?;
        tree.insert(&ByPlace, numbered(number));
    }
    Ok(tree)
}

/// Asserts that these are the references of `count` numbers, in order from `first` on.
fn assert_from(rt: &impl Abort, refs: &[RowRef], first: u32, count: usize) {
    assert_same(rt, refs.len(), count);
    for (i, held) in refs.iter().enumerate() {
        assert_same(rt, held.slot.wrapping_sub(first) as usize, i);
    }
}

/// Asserts that a tree has `count` of the numbers up to `last`, and that they are those from `first` on.
fn assert_up_to(
    rt: &impl Abort,
    alloc: Global,
    tree: &TTree,
    last: u32,
    first: u32,
    count: usize,
) -> Result<(), AllocError>
    requires { IsByPlace tree.now.refs }
{
    let mut out = Vec::new(alloc);
    tree.copy_range(alloc, &ByPlace, &At(0), &At(last), &mut out)?;
    assert_from(rt, &out, first, count);
    Ok(())
}

/// Returns the reference of a number that a tree finds, if it finds one, and the number of comparisons.
fn found(tree: &TTree, number: u32) -> (Option<RowRef>, u64)
    requires { IsByPlace tree.now.refs }
{
    let probe = At(number);
    let mut seek = Seek::new(&probe);
    let found = tree.find(&ByPlace, &mut seek);
    (found, seek.count())
}

#[test]
fn grows(rt: HostRuntime) -> Result<(), Fail> {
    let tree = grown(&rt, rt.alloc())?;
    assert_same(&rt, tree.len(), 2000);
    assert_that(&rt, tree.height() <= 9);
    assert_up_to(&rt, rt.alloc(), &tree, 1999, 0, 2000)?;
    Ok(())
}

/// Asserts that the height of a tree suits its 100 references, and that it finds them with few comparisons.
fn assert_shrunk(rt: &impl Abort, tree: &TTree)
    requires { IsByPlace tree.now.refs }
{
    assert_same(rt, tree.len(), 100);
    assert_that(rt, tree.height() <= 4);
    let (at, questions) = found(tree, 1925);
    assert_same(rt, at, Some(numbered(1925)));
    assert_that(rt, questions <= 11);
    assert_same(rt, found(tree, 5).0, None);
}

/// Removes 1,900 of 2,000 references.
fn shrink(rt: &(impl Abort + AllocGlobal), tree: &mut TTree) -> Result<(), Fail>
    requires { IsByPlace tree.old.refs }
{
    for number in 0..1900 {
        assert_that(rt, tree.remove(&ByPlace, numbered(number)));
    }
    assert_shrunk(rt, tree);
    assert_up_to(rt, rt.alloc(), tree, 1949, 1900, 50)?;
    Ok(())
}

#[test]
fn shrinks(rt: HostRuntime) -> Result<(), Fail> {
    let mut tree = grown(&rt, rt.alloc())?;
    shrink(&rt, &mut tree)
}

/// Removes a reference if the list has it, and inserts it otherwise.
fn toggle<R: OrderedRefs>(refs: &mut R, alloc: Global, toggled: RowRef) -> Result<(), AllocError>
    requires { IsByPlace (R.refs refs.old) }
    ensures { IsByPlace (R.refs refs.new) }
{
    if refs.remove(&ByPlace, toggled) {
        return Ok(());
    }
    refs.reserve(alloc, 1)?;
    refs.insert(&ByPlace, toggled);
    Ok(())
}

/// Returns the number of references of a tree in a range.
fn count_between(
    alloc: Global,
    tree: &TTree,
    low: &Counting,
    high: &Counting,
) -> Result<usize, AllocError>
    requires { IsByPlace tree.now.refs }
{
    let mut out = Vec::new(alloc);
    tree.copy_range(alloc, &ByPlace, low, high, &mut out)?;
    Ok(out.len())
}

/// Asserts that a tree has three nodes, and that these are the numbers of the first and the last entry of the root, of its left child and
/// of its right child. A range over all references compares the ends of the root to see that they overlap, and then those of each node to
/// see that the range contains it.
fn assert_ends(
    rt: &impl Abort,
    alloc: Global,
    tree: &TTree,
    ends: [(u32, u32); 3],
) -> Result<(), AllocError>
    requires { IsByPlace tree.now.refs }
{
    let low = counting_at(0);
    let high = counting_at(u32::MAX);
    let held = count_between(alloc, tree, &low, &high)?;
    assert_same(rt, held, tree.len());
    assert_same(rt, (low.asked.get(), high.asked.get()), (4, 4));
    let [root, left, right] = ends;
    assert_same(rt, low.about.get(), [root.1, root.0, left.0, right.0]);
    assert_same(rt, high.about.get(), [root.0, root.1, left.1, right.1]);
    Ok(())
}

/// Returns all references of a list, in order.
fn all_of<R: OrderedRefs>(alloc: Global, refs: &R) -> Result<Vec<RowRef>, AllocError>
    requires { IsByPlace (R.refs refs.now) }
{
    let mut all = Vec::new(alloc);
    append_all(alloc, refs, &mut all)?;
    Ok(all)
}

/// Asserts the numbers of references.
fn assert_each(rt: &impl Abort, refs: &[RowRef], want: &[u32]) {
    assert_same(rt, refs.len(), want.len());
    for (held, number) in refs.iter().zip(want) {
        assert_same(rt, held.slot, *number);
    }
}

/// Asserts the numbers of the references of a tree.
fn assert_numbers(
    rt: &impl Abort,
    alloc: Global,
    tree: &TTree,
    want: &[u32],
) -> Result<(), AllocError>
    requires { IsByPlace tree.now.refs }
{
    let held = all_of(alloc, tree)?;
    assert_each(rt, &held, want);
    Ok(())
}

/// Asserts that a walk along a tree visits exactly these references.
pub fn assert_goes_over(rt: &impl Abort, tree: &TTree, want: &[RowRef]) {
    assert_that(rt, tree.len() <= 1_048_576);
    assert_same(rt, [tree.len(), tree.iter().count()], [want.len(); 2]);
    for (held, want) in tree.iter().zip(want.iter()) {
        assert_same(rt, held, *want);
    }
}

/// Asserts that a tree has these references in the same order, and that a walk visits them.
fn assert_holds(
    rt: &impl Abort,
    alloc: Global,
    tree: &TTree,
    want: &[RowRef],
) -> Result<(), AllocError>
    requires { IsByPlace tree.now.refs }
{
    let held = all_of(alloc, tree)?;
    assert_same(rt, held.as_slice(), want);
    assert_goes_over(rt, tree, want);
    Ok(())
}

/// Asserts that both have the same references in the same order.
fn assert_alike(
    rt: &impl Abort,
    alloc: Global,
    tree: &TTree,
    sorted: &SortedRefs,
) -> Result<(), AllocError>
    requires tree { IsByPlace tree.now.refs }
    requires sorted { IsByPlace sorted.now.refs }
{
    let want = all_of(alloc, sorted)?;
    assert_holds(rt, alloc, tree, &want)
}

/// Asserts that a tree that was filled in order has a third level from 49 references on.
fn assert_low(rt: &impl Abort, tree: &TTree) {
    match tree.len() {
        33 | 48 => assert_same(rt, tree.height(), 2),
        49 => assert_same(rt, tree.height(), 3),
        _ => {}
    }
}

/// Inserts the references of `count` numbers into an empty tree, in order.
fn fill_in_order(
    rt: &impl Abort,
    alloc: Global,
    tree: &mut TTree,
    count: u32,
) -> Result<(), AllocError>
    requires { tree.old.refs ≡ [] }
    ensures { IsByPlace tree.new.refs }
{
    for number in 0..count {
        reserve(rt, tree, alloc, 1)?;
        tree.insert(&ByPlace, numbered(number));
        assert_low(rt, tree);
    }
    Ok(())
}

#[test]
fn ascending_references_fill_the_nodes(rt: HostRuntime) -> Result<(), Fail> {
    let alloc = rt.alloc();
    let mut tree = TTree::new(alloc);
    fill_in_order(&rt, alloc, &mut tree, 1_048_576)?;
    assert_same(&rt, tree.len(), 1_048_576);
    assert_that(&rt, tree.height() <= 28);
    Ok(())
}

/// Asserts that a range over the numbers from 100 to 1,899 compares few of the references of a tree.
fn assert_asks_few(rt: &impl Abort, alloc: Global, tree: &TTree) -> Result<(), AllocError>
    requires { IsByPlace tree.now.refs }
{
    let low = counting_at(100);
    let high = counting_at(1899);
    let held = count_between(alloc, tree, &low, &high)?;
    assert_same(rt, held, 1800);
    // Two comparisons for each node of 16 are 225; the others are in the nodes on the paths to the two ends.
    assert_that(rt, low.asked.get() <= 200);
    assert_that(rt, high.asked.get() <= 200);
    Ok(())
}

#[test]
fn a_range_asks_about_the_ends_of_a_node(rt: HostRuntime) -> Result<(), Fail> {
    let alloc = rt.alloc();
    let mut tree = TTree::new(alloc);
    fill_in_order(&rt, alloc, &mut tree, 2000)?;
    assert_asks_few(&rt, alloc, &tree)?;
    Ok(())
}

/// Toggles the reference of each number from `first` on, below `end`.
fn toggle_each(tree: &mut TTree, alloc: Global, first: u32, end: u32) -> Result<(), AllocError>
    requires { IsByPlace tree.old.refs }
    ensures { IsByPlace tree.new.refs }
{
    for number in first..end {
        toggle(tree, alloc, numbered(number))?;
    }
    Ok(())
}

/// The numbers 1 to 15, 50, 60 and 101 to 116.
const ROTATED: [u32; 33] = [
    1, 2, 3, 4, 5, 6, 7, 8, 9, 10, 11, 12, 13, 14, 15, 50, 60, 101, 102, 103, 104, 105, 106, 107,
    108, 109, 110, 111, 112, 113, 114, 115, 116,
];

/// Asserts that a tree has the numbers 1 to 15, 50, 60 and 101 to 116, in three nodes.
fn assert_rotated(rt: &impl Abort, alloc: Global, tree: &TTree) -> Result<(), AllocError>
    requires { IsByPlace tree.now.refs }
{
    assert_same(rt, tree.height(), 2);
    // The list in order is in the three nodes: 1 to 3, then 4 to 15 with 50 and 60, then 101 to 116.
    assert_ends(rt, alloc, tree, [(4, 60), (1, 3), (101, 116)])?;
    assert_numbers(rt, alloc, tree, &ROTATED)
}

/// Inserts references into an empty tree, the last of which causes a rotation of two nodes.
fn turn_twice(alloc: Global, tree: &mut TTree) -> Result<(), AllocError>
    requires { IsByPlace tree.old.refs }
    ensures { IsByPlace tree.new.refs }
{
    toggle_each(tree, alloc, 101, 117)?;
    toggle(tree, alloc, numbered(50))?;
    toggle_each(tree, alloc, 1, 16)?;
    toggle(tree, alloc, numbered(60))
}

#[test]
fn double_rotation_fills_the_new_root(rt: HostRuntime) -> Result<(), Fail> {
    let alloc = rt.alloc();
    let mut tree = TTree::new(alloc);
    turn_twice(alloc, &mut tree)?;
    assert_rotated(&rt, alloc, &tree)?;
    Ok(())
}

/// Toggles the same references in both, and asserts at intervals that both have the same.
fn toggle_both(
    rt: &impl Abort,
    alloc: Global,
    tree: &mut TTree,
    sorted: &mut SortedRefs,
) -> Result<(), AllocError>
    requires tree { IsByPlace tree.old.refs }
    requires sorted { IsByPlace sorted.old.refs }
{
    let mut seed: u32 = 1;
    for step in 0..100_000 {
        seed = seed.wrapping_mul(1_664_525).wrapping_add(1_013_904_223);
        let toggled = numbered((seed >> 16) % 16_000);
        toggle(tree, alloc, toggled)?;
        toggle(sorted, alloc, toggled)?;
        if step % 5000 == 0 {
            assert_alike(rt, alloc, tree, sorted)?;
        }
    }
    assert_alike(rt, alloc, tree, sorted)
}

#[test]
fn holds_what_the_sorted_list_holds(rt: HostRuntime) -> Result<(), Fail> {
    let alloc = rt.alloc();
    let mut tree = TTree::new(alloc);
    let mut sorted = SortedRefs::new(alloc);
    toggle_both(&rt, alloc, &mut tree, &mut sorted)?;
    Ok(())
}

/// Asserts that a tree over the first `count` references has them all in order, and has this height.
fn assert_built(
    rt: &impl Abort,
    alloc: Global,
    count: u32,
    height: usize,
) -> Result<TTree, AllocError>
    ensures { IfOk result (λ tree. IsByPlace tree.refs) }
{
    let refs = ascending(alloc, count)?;
    let tree = TTree::from_sorted(alloc, refs.as_slice())?;
    assert_same(
        rt,
        (tree.len(), tree.height(), tree.spare()),
        (count as usize, height, 0),
    );
    assert_goes_over(rt, &tree, &refs);
    Ok(tree)
}

/// Asserts that a tree of one node finds the numbers below `count` and no others, with one comparison on the way down and seven inside.
fn assert_found_in_one_node(rt: &impl Abort, tree: &TTree, count: u32)
    requires { IsByPlace tree.now.refs }
{
    for number in 0..count {
        assert_same(rt, found(tree, number), (Some(numbered(number)), 8));
    }
    assert_same(rt, found(tree, count), (None, 8));
}

#[test]
fn each_entry_is_found_in_a_node_of_any_length(rt: HostRuntime) -> Result<(), Fail> {
    for count in 1..17 {
        let tree = assert_built(&rt, rt.alloc(), count, 1)?;
        assert_found_in_one_node(&rt, &tree, count);
    }
    Ok(())
}

/// Removes the odd numbers from a tree of one node, and asserts that each is no longer found.
fn remove_odd_numbers(rt: &impl Abort, tree: &mut TTree)
    requires { IsByPlace tree.old.refs }
{
    for half in 0..8 {
        let number = 2 * half + 1;
        assert_that(rt, tree.remove(&ByPlace, numbered(number)));
        assert_same(rt, found(tree, number), (None, 8));
        assert_same(rt, found(tree, 2 * half), (Some(numbered(2 * half)), 8));
    }
}

#[test]
fn no_entry_is_found_between_two(rt: HostRuntime) -> Result<(), Fail> {
    let mut tree = assert_built(&rt, rt.alloc(), 16, 1)?;
    remove_odd_numbers(&rt, &mut tree);
    assert_same(&rt, (tree.height(), tree.len()), (1, 8));
    Ok(())
}

#[test]
fn a_list_in_order_fills_the_nodes(rt: HostRuntime) -> Result<(), Fail> {
    let alloc = rt.alloc();
    for (count, height) in [
        (0, 0),
        (1, 1),
        (16, 1),
        (17, 2),
        (48, 2),
        (112, 3),
        (113, 4),
        (1_048_576, 17),
    ] {
        assert_built(&rt, alloc, count, height)?;
    }
    let tree = assert_built(&rt, alloc, 40, 2)?;
    assert_ends(&rt, alloc, &tree, [(16, 31), (0, 15), (32, 39)])?;
    Ok(())
}

/// Removes 14 references from the root of a tree of three full nodes. From the third on, the root borrows the greatest entry of its left
/// side for each, so that it keeps 14.
fn drain_root(rt: &impl Abort, alloc: Global, tree: &mut TTree) -> Result<(), AllocError>
    requires { IsByPlace tree.old.refs }
{
    for number in 18..32 {
        assert_that(rt, tree.remove(&ByPlace, numbered(number)));
    }
    assert_ends(rt, alloc, tree, [(4, 17), (0, 3), (32, 47)])
}

#[test]
fn an_internal_node_keeps_14_entries(rt: HostRuntime) -> Result<(), Fail> {
    let alloc = rt.alloc();
    let mut tree = assert_built(&rt, alloc, 48, 2)?;
    drain_root(&rt, alloc, &mut tree)?;
    Ok(())
}

/// Leaves one reference in the node left of the root of a tree of four full nodes, and none on the right. The node becomes the root, and
/// receives entries of the old root, so that it has 14.
fn drain_right_side(rt: &impl Abort, alloc: Global, tree: &mut TTree) -> Result<(), AllocError>
    requires { IsByPlace tree.old.refs }
{
    for number in 16..31 {
        assert_that(rt, tree.remove(&ByPlace, numbered(number)));
    }
    for number in 48..52 {
        assert_that(rt, tree.remove(&ByPlace, numbered(number)));
    }
    assert_ends(rt, alloc, tree, [(31, 44), (0, 15), (45, 47)])
}

#[test]
fn single_rotation_fills_the_new_root(rt: HostRuntime) -> Result<(), Fail> {
    let alloc = rt.alloc();
    let mut tree = assert_built(&rt, alloc, 52, 3)?;
    drain_right_side(&rt, alloc, &mut tree)?;
    Ok(())
}

/// Asserts that a tree of 48 references with capacity for `asked` more has capacity for `room` more.
fn assert_room(
    rt: &impl Abort,
    tree: &mut TTree,
    alloc: Global,
    asked: usize,
    room: usize,
) -> Result<(), AllocError> {
    tree.reserve(alloc, asked)?;
    assert_same(rt, tree.spare(), room);
    tree.trim_spares(0);
    assert_same(rt, tree.spare(), 0);
    Ok(())
}

#[test]
fn room_for_many_takes_fewer_nodes(rt: HostRuntime) -> Result<(), Fail> {
    let alloc = rt.alloc();
    let mut tree = assert_built(&rt, alloc, 48, 2)?;
    // One node each for a few; 22 and 212 nodes in all for more.
    for (asked, room) in [(1, 1), (8, 8), (9, 9), (50, 54), (1000, 1004)] {
        assert_room(&rt, &mut tree, alloc, asked, room)?;
    }
    Ok(())
}
