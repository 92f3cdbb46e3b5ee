//! Chains: walks along the links of the nodes.
ghost use Rattle.std.specs.Prelude.{◌≡◌, ◌≢◌, ℕ};
ghost use Rattle.mlhash.specs.Pairs.{node_at};
ghost use Rattle.mlhash.specs.Chain.{IsLinked, HasAll, Finds, refs_along, Deals, chain, AreApart};

use crate::directory::Directory;
use crate::node::{NIL, Node};
use mm_value::RowRef;

/// Returns a node of the chain with this hash and reference, or `NIL` if the chain has none.
pub(crate) fn find(nodes: &[Node], head: u32, hash: u64, reference: RowRef) -> u32
    requires { IsLinked nodes.now head }
    ensures found { Finds nodes.now head hash reference result }
{
    let mut at = head;
    while at != NIL {
        let node = &nodes[at as usize];
        if node.has(hash, reference) {
            return at;
        }
        at = node.next;
    }
    NIL
}

/// Returns a node with this hash and reference of a chain that has all entries of this hash, or `NIL` if the chain has none. Checks the
/// chain's first node and the node that the directory names, and walks the chain only if neither has the entry.
pub(crate) fn find_by_hint(
    nodes: &[Node],
    directory: &Directory,
    head: u32,
    hash: u64,
    reference: RowRef,
) -> u32
    requires linked { IsLinked nodes.now head }
    requires all { HasAll nodes.now head hash }
    ensures found { Finds nodes.now head hash reference result }
{
    if head != NIL && nodes[head as usize].has(hash, reference) {
        return head;
    }
    let hint = directory.hint(reference);
    if (hint as usize) < nodes.len() {
        let node = &nodes[hint as usize];
        if node.is_live() && node.has(hash, reference) {
            return hint;
        }
    }
    find(nodes, head, hash, reference)
}

/// Returns the first node of the chain with this hash, or `NIL` if the chain has none.
pub(crate) fn first_of(nodes: &[Node], head: u32, hash: u64) -> u32
    requires { IsLinked nodes.now head }
    ensures linked { IsLinked nodes.now result }
    ensures same { refs_along nodes.now result hash ≡ refs_along nodes.now head hash }
    ensures here { result ≢ NIL → (node_at nodes.now result).hash ≡ hash }
{
    let mut at = head;
    while at != NIL {
        let node = &nodes[at as usize];
        if node.hash == hash {
            return at;
        }
        at = node.next;
    }
    NIL
}

/// Distributes the nodes of the chain `from`: those whose hash under `mask` is `stay` are prepended to the chain `onto`, the others form a
/// chain of their own. Returns the heads of both chains.
pub(crate) fn deal(nodes: &mut [Node], from: u32, mask: u64, stay: u64, onto: u32) -> (u32, u32)
    requires from { IsLinked nodes.old from }
    requires onto { IsLinked nodes.old onto }
    requires apart { AreApart (chain nodes.old from) (chain nodes.old onto) }
    ensures { Deals nodes.old from mask stay onto nodes.new result.0 result.1 }
{
    let mut staying = onto;
    let mut leaving = NIL;
    let mut at = from;
    while at != NIL {
        let node = &mut nodes[at as usize];
        let next = node.next;
        if node.hash & mask == stay {
            node.next = staying;
            staying = at;
        } else {
            node.next = leaving;
            leaving = at;
        }
        at = next;
    }
    (staying, leaving)
}
