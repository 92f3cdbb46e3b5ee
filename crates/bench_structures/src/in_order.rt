//! Measures the ordered lists of references.
ghost use Rattle.std.specs.Prelude.{◌≡◌, [], OnOk};
ghost use Rattle.mm_order.specs.Order.{IsOrdered};
ghost use Rattle.bench_structures.specs.Keys.{by_key};

use crate::by_key::ByKey;
use crate::entries::{Entry, key_of, shuffled};
use crate::report::{Pass, print};
use mm_order::{AtReference, OrderedRefs, Seek, SortedRefs};
use mm_value::RowRef;
use std::alloc::{AllocError, Global};
use std::time::Instant;
use ttree::TTree;

/// The most references that a tree iterates over.
const MAX_WALKED: usize = 1_048_576;

/// Fills a T-tree with `n` references, searches each, walks along them and removes them.
pub(crate) fn measure_tree(rt: &HostRuntime, n: u32) -> anyhow::Result<()> {
    let alloc = rt.alloc();
    measure_ascending(rt, "TTree", &mut TTree::new(alloc), n)?;
    let sought = shuffled(alloc, n)?;
    let keys = keys_below(alloc, n)?;
    let order = ByKey {
        keys: keys.as_slice(),
    };
    time_tree(rt, &mut TTree::new(alloc), &order, n, sought.as_slice())
}

/// Fills a sorted vector with `n` references, searches each and removes them.
pub(crate) fn measure_vector(rt: &HostRuntime, n: u32) -> anyhow::Result<()> {
    let alloc = rt.alloc();
    measure_ascending(rt, "SortedRefs", &mut SortedRefs::new(alloc), n)?;
    let sought = shuffled(alloc, n)?;
    let keys = keys_below(alloc, n)?;
    let order = ByKey {
        keys: keys.as_slice(),
    };
    let mut list = SortedRefs::new(alloc);
    time_vector(rt, &mut list, &order, n, sought.as_slice())
}

/// Fills an empty list with references in ascending order.
fn measure_ascending<L: OrderedRefs>(
    rt: &HostRuntime,
    structure: &str,
    list: &mut L,
    n: u32,
) -> anyhow::Result<()>
    requires { L.refs list.old ≡ [] }
{
    let keys = ascending_below(rt.alloc(), n)?;
    let order = ByKey {
        keys: keys.as_slice(),
    };
    let pass = Pass::new(structure, "ascending", n as usize);
    time_fill(rt, &pass, list, &order, n)
}

fn time_tree(
    rt: &HostRuntime,
    tree: &mut TTree,
    order: &ByKey,
    n: u32,
    sought: &[Entry],
) -> anyhow::Result<()>
    requires { tree.old.refs ≡ [] }
{
    let pass = Pass::new("TTree", "insert", sought.len());
    time_fill(rt, &pass, tree, order, n)?;
    time_ask_tree(rt, tree, order, sought)?;
    time_walk(rt, tree)?;
    time_empty(rt, "TTree", tree, order, sought)
}

fn time_vector(
    rt: &HostRuntime,
    list: &mut SortedRefs,
    order: &ByKey,
    n: u32,
    sought: &[Entry],
) -> anyhow::Result<()>
    requires { list.old.refs ≡ [] }
{
    let pass = Pass::new("SortedRefs", "insert", sought.len());
    time_fill(rt, &pass, list, order, n)?;
    time_ask_vector(rt, list, order, sought)?;
    time_empty(rt, "SortedRefs", list, order, sought)
}

fn time_fill<L: OrderedRefs>(
    rt: &HostRuntime,
    pass: &Pass,
    list: &mut L,
    order: &ByKey,
    n: u32,
) -> anyhow::Result<()>
    requires { L.refs list.old ≡ [] }
    ensures { OnOk result (IsOrdered (λ _. Unit {0}) (by_key order.now.keys.now) (L.refs list.new)) }
{
    let alloc = rt.alloc();
    let start = Instant::now(rt)?;
    fill(alloc, list, order, n)?;
    print(rt, pass, start.elapsed(rt)?, 0)?;
    Ok(())
}

fn time_ask_tree(
    rt: &HostRuntime,
    tree: &TTree,
    order: &ByKey,
    sought: &[Entry],
) -> anyhow::Result<()>
    requires { IsOrdered (λ _. Unit {0}) (by_key order.now.keys.now) tree.now.refs }
{
    let start = Instant::now(rt)?;
    let found = ask_tree(tree, order, sought);
    let pass = Pass::new("TTree", "look-up", sought.len());
    print(rt, &pass, start.elapsed(rt)?, found)?;
    Ok(())
}

fn time_ask_vector(
    rt: &HostRuntime,
    list: &SortedRefs,
    order: &ByKey,
    sought: &[Entry],
) -> anyhow::Result<()>
    requires { IsOrdered (λ _. Unit {0}) (by_key order.now.keys.now) list.now.refs }
{
    let alloc = rt.alloc();
    let start = Instant::now(rt)?;
    let found = ask_vector(alloc, list, order, sought)?;
    let pass = Pass::new("SortedRefs", "look-up", sought.len());
    print(rt, &pass, start.elapsed(rt)?, found)?;
    Ok(())
}

fn time_walk(rt: &HostRuntime, tree: &TTree) -> anyhow::Result<()> {
    let start = Instant::now(rt)?;
    let walked = walk(tree);
    let pass = Pass::new("TTree", "walk", tree.len());
    print(rt, &pass, start.elapsed(rt)?, walked)?;
    Ok(())
}

fn time_empty<L: OrderedRefs>(
    rt: &HostRuntime,
    structure: &str,
    list: &mut L,
    order: &ByKey,
    sought: &[Entry],
) -> anyhow::Result<()>
    requires { IsOrdered (λ _. Unit {0}) (by_key order.now.keys.now) (L.refs list.old) }
{
    let start = Instant::now(rt)?;
    let gone = empty(list, order, sought);
    let pass = Pass::new(structure, "remove", sought.len());
    print(rt, &pass, start.elapsed(rt)?, gone)?;
    Ok(())
}

/// Returns the sum of the slots of a tree's references, read in order, or 0 if the tree has too many.
fn walk(tree: &TTree) -> usize {
    if tree.len() > MAX_WALKED {
        return 0;
    }
    let mut sum = 0usize;
    for reference in tree.iter() {
        sum = sum.wrapping_add(reference.slot as usize);
    }
    sum
}

/// Returns the numbers below `n`.
fn ascending_below(alloc: Global, n: u32) -> Result<Vec<u64>, AllocError> {
    let mut keys = Vec::with_capacity(alloc, n as usize)?;
    for number in 0..n {
        keys.push(u64::from(number))?;
    }
    Ok(keys)
}

fn keys_below(alloc: Global, n: u32) -> Result<Vec<u64>, AllocError> {
    let mut keys = Vec::with_capacity(alloc, n as usize)?;
    for number in 0..n {
        keys.push(key_of(number))?;
    }
    Ok(keys)
}

#[tactic(auto, using(crate::proofs::Orders::apart_from_earlier))]
fn fill<L: OrderedRefs>(
    alloc: Global,
    list: &mut L,
    order: &ByKey,
    n: u32,
) -> Result<(), AllocError>
    requires { L.refs list.old ≡ [] }
    ensures { OnOk result (IsOrdered (λ _. Unit {0}) (by_key order.now.keys.now) (L.refs list.new)) }
{
    for number in 0..n {
        list.reserve(alloc, 1)?;
        list.insert(order, RowRef { slot: number });
    }
    Ok(())
}

#[tactic(auto, using(crate::proofs::Orders::monotone_by_key))]
fn ask_tree(tree: &TTree, order: &ByKey, sought: &[Entry]) -> usize
    requires { IsOrdered (λ _. Unit {0}) (by_key order.now.keys.now) tree.now.refs }
{
    let mut sum = 0usize;
    for entry in sought {
        let probe = AtReference {
            order: &*order,
            sought: entry.reference,
        };
        if let Some(reference) = tree.find(order, &mut Seek::new(&probe)) {
            sum = sum.wrapping_add(reference.slot as usize);
        }
    }
    sum
}

#[tactic(auto, using(crate::proofs::Orders::monotone_by_key))]
fn ask_vector(
    alloc: Global,
    list: &SortedRefs,
    order: &ByKey,
    sought: &[Entry],
) -> Result<usize, AllocError>
    requires { IsOrdered (λ _. Unit {0}) (by_key order.now.keys.now) list.now.refs }
{
    let mut found = Vec::new(alloc);
    let mut sum = 0usize;
    for entry in sought {
        let probe = AtReference {
            order: &*order,
            sought: entry.reference,
        };
        found.clear();
        list.copy_range(alloc, order, &probe, &probe, &mut found)?;
        if let Some(reference) = found.first() {
            sum = sum.wrapping_add(reference.slot as usize);
        }
    }
    Ok(sum)
}

fn empty<L: OrderedRefs>(list: &mut L, order: &ByKey, sought: &[Entry]) -> usize
    requires { IsOrdered (λ _. Unit {0}) (by_key order.now.keys.now) (L.refs list.old) }
{
    let mut sum = 0usize;
    for entry in sought {
        if list.remove(order, entry.reference) {
            sum = sum.wrapping_add(1);
        }
    }
    sum
}
