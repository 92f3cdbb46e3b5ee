//! Subtrees, and operations at their root.
ghost use Rattle.std.specs.Prelude.{◌≡◌, ◌+◌, ◌^◌, ◌<◌, ◌≤◌, [], ◌∷◌, ◌++◌, None, length, take, drop, insert, remove, slice_get, Some, IfOk};
ghost use Rattle.std.specs.Option.{option_copied};
ghost use Rattle.ttree_node.specs.Nodes.{short_height};
ghost use Rattle.ttree_node.specs.Tree.{Empty, fork, tree_of, height_of, node_count};

use crate::entries::Entries;
use crate::owned::{MaybeOwned, Owned};
use crate::pool::Spares;
use mm_value::RowRef;
use std::alloc::{AllocError, Global};
use std::marker::Model;
use std::mem;

/// A nonempty T-tree: a node of at most 16 entries, with a left and a right subtree (Lehman and Carey, VLDB 1986).
pub struct Subtree {
    pub(crate) root: Owned<Node, Global>,
}

/// The root of a nonempty T-tree, in place: one allocation.
///
/// The node stores the height of each subtree in 16 bits, 0 for an empty one. So a link needs no tag beside its pointer, and a node takes
/// 88 bytes, or 96 with the overhead of `malloc`. The fields are in memory in this order: a search that passes a node reads the links,
/// their heights and the first entry, which are within the first 28 bytes.
#[derive(Drop)]
pub struct Node {
    pub(crate) left: MaybeOwned<Node, Global>,
    pub(crate) right: MaybeOwned<Node, Global>,
    pub(crate) left_height: u16,
    pub(crate) right_height: u16,
    pub(crate) entries: Entries,
    alloc: Global,
}

const _: () = prove!(size_of::<Node>() == 88);

impl Model for Node {
    ghost use Rattle.ttree_node.specs.Tree.{Root};
    ghost use Rattle.ttree_node.specs.TreeCode.{root_code};

    ghost Value = { Root };

    ghost coded = { root_code };

    ghost use Rattle.ttree_node.specs.Nodes.{IsHeightKept};
    ghost use Rattle.ttree_node.specs.Tree.{tree_of};

    ghost view = { λ n. record { left = tree_of n.left.value; entries = n.entries; right = tree_of n.right.value } };

    ghost invariant = { λ n. IsHeightKept n.left_height n.left.value n.right_height n.right.value };

    ghost use Rattle.ttree_node.specs.Tree.{fork, node_count};

    ghost size = { λ r. node_count (fork r) };

    ghost use Rattle.std.proofs.Common.{arith};

    ghost size_decreases = { λ a h. Prim.grind arith };
}

impl Model for Subtree {
    ghost use Rattle.ttree_node.specs.Tree.{Root};
    ghost use Rattle.ttree_node.specs.TreeCode.{root_code};

    ghost Value = { Root };

    ghost coded = { root_code };

    ghost view = { λ s. s.root.value };
}

impl Drop for Subtree {
    /// Frees both subtrees too.
    fn drop(mut self) {
        if let Some(left) = self.take_left() {
            drop(left);
        }
        if let Some(right) = self.take_right() {
            drop(right);
        }
        let Subtree { root: _ } = self;
    }
}

/// Removes and returns the subtree of a link.
fn unlink(height: &mut u16, link: &mut MaybeOwned<Node, Global>, alloc: Global) -> Option<Subtree>
    requires { height.old ≡ short_height link.old.value }
    ensures taken { result ≡ link.old.value }
    ensures height { height.new ≡ 0 }
    ensures rest { link.new.value ≡ None }
{
    if *height == 0 {
        return None;
    }
    *height = 0;
    let taken = mem::replace(link, MaybeOwned::none(alloc));
    Some(Subtree {
        root: taken.into_owned(),
    })
}

/// Sets an empty link to a tree, or to none, and stores its height.
fn link_to(height: &mut u16, link: &mut MaybeOwned<Node, Global>, tree: Option<Subtree>)
    requires height { height.old ≡ 0 }
    requires vacant { link.old.value ≡ None }
    ensures height { height.new ≡ short_height link.new.value }
    ensures tree { link.new.value ≡ tree }
{
    if let Some(subtree) = tree {
        *height = subtree.root.as_ref().short_height();
        *link = subtree.into_root().into_maybe();
    }
}

impl Node {
    /// Returns the entries of the root in order, at most 16.
    #[inline]
    pub fn entries(&self) -> &Entries
        ensures value { result.now ≡ self.now.entries }
        ensures at_most_16 { length result.now ≤ 16 }
    {
        // The length is at most 16.
        let _len = self.entries.len();
        &self.entries
    }

    /// Returns the left subtree, or `None` if it is empty.
    #[inline]
    pub fn left(&self) -> Option<&Node>
        ensures { tree_of (option_copied result) ≡ self.now.left }
    {
        if self.left_height == 0 {
            return None;
        }
        Some(self.left.as_ref())
    }

    /// Returns the right subtree, or `None` if it is empty.
    #[inline]
    pub fn right(&self) -> Option<&Node>
        ensures { tree_of (option_copied result) ≡ self.now.right }
    {
        if self.right_height == 0 {
            return None;
        }
        Some(self.right.as_ref())
    }

    /// Returns the height: the number of nodes on a longest path from the root down. Requires a height less than 2^16.
    pub fn height(&self) -> usize
        requires { height_of (fork self.now) < 2 ^ 16 }
        ensures { result ≡ height_of (fork self.now) }
    {
        self.left_height.max(self.right_height) as usize + 1
    }

    /// Returns the height as a link stores it: 65,535 if it is greater.
    fn short_height(&self) -> u16
        ensures { result ≡ short_height (Some self.now) }
    {
        self.left_height.max(self.right_height).saturating_add(1)
    }
}

impl Subtree {
    /// Returns a node without entries, in a new allocation. Fails with `AllocError` if the allocation fails.
    pub(crate) fn blank(alloc: Global) -> Result<Subtree, AllocError>
        ensures { IfOk result (λ s. s ≡ record { left = Empty; entries = []; right = Empty }) }
    {
        let root = Owned::new(
            alloc,
            Node {
                left: MaybeOwned::none(alloc),
                right: MaybeOwned::none(alloc),
                left_height: 0,
                right_height: 0,
                entries: Entries::new(),
                alloc,
            },
        )?;
        Ok(Subtree { root })
    }

    /// Returns the owner of the root, with both subtrees.
    fn into_root(self) -> Owned<Node, Global>
        ensures { result.value ≡ self }
    {
        let Subtree { root } = self;
        root
    }

    /// Returns a node with one entry, taken from the free nodes.
    pub fn leaf(spares: &mut Spares, entry: RowRef) -> Subtree
        requires { 0 < spares.old }
        ensures one_entry { result ≡ record { left = Empty; entries = entry ∷ []; right = Empty } }
        ensures one_spare { spares.new + 1 ≡ spares.old }
    {
        let mut leaf = spares.take();
        let node = leaf.root.as_mut();
        node.entries.clear();
        node.entries.push(entry);
        leaf
    }

    /// Returns every node to the pool.
    pub fn free_into(mut self, spares: &mut Spares)
        requires { spares.old + node_count (fork self) ≤ 2 ^ 32 }
        ensures { spares.new ≡ spares.old + node_count (fork self) }
    {
        if let Some(left) = self.take_left() {
            left.free_into(spares);
        }
        if let Some(right) = self.take_right() {
            right.free_into(spares);
        }
        spares.put(self);
    }

    /// Returns the root in place.
    #[inline]
    pub fn node(&self) -> &Node
        ensures { result.now ≡ self.now }
    {
        self.root.as_ref()
    }

    /// Returns the entries of the root in order, at most 16.
    #[inline]
    pub fn entries(&self) -> &Entries
        ensures value { result.now ≡ self.now.entries }
        ensures at_most_16 { length result.now ≤ 16 }
    {
        self.root.as_ref().entries()
    }

    /// Returns the left subtree, or `None` if it is empty.
    #[inline]
    pub fn left(&self) -> Option<&Node>
        ensures { tree_of (option_copied result) ≡ self.now.left }
    {
        self.root.as_ref().left()
    }

    /// Returns the right subtree, or `None` if it is empty.
    #[inline]
    pub fn right(&self) -> Option<&Node>
        ensures { tree_of (option_copied result) ≡ self.now.right }
    {
        self.root.as_ref().right()
    }

    /// Returns the height: the number of nodes on a longest path from the root down. Requires a height less than 2^16.
    pub fn height(&self) -> usize
        requires { height_of (fork self.now) < 2 ^ 16 }
        ensures { result ≡ height_of (fork self.now) }
    {
        self.root.as_ref().height()
    }

    /// Inserts an entry before the one at position `i` of the root.
    pub fn put_entry(&mut self, i: usize, entry: RowRef)
        requires room { length self.old.entries < 16 }
        requires in_bounds { i ≤ length self.old.entries }
        ensures { self.new ≡ record self.old { entries = insert self.old.entries i entry } }
    {
        let node = self.root.as_mut();
        node.entries.insert(i, entry);
    }

    /// Removes and returns the entry at position `i` of the root, even if it is the only one.
    pub fn take_entry(&mut self, i: usize) -> RowRef
        requires { i < length self.old.entries }
        ensures taken { slice_get self.old.entries i ≡ Some result }
        ensures rest { self.new ≡ record self.old { entries = remove self.old.entries i } }
    {
        let node = self.root.as_mut();
        node.entries.remove(i)
    }

    /// Removes and returns the left subtree, or returns `None` if it is empty.
    pub fn take_left(&mut self) -> Option<Subtree>
        ensures taken { tree_of result ≡ self.old.left }
        ensures rest { self.new ≡ record self.old { left = Empty } }
    {
        let node = self.root.as_mut();
        unlink(&mut node.left_height, &mut node.left, node.alloc)
    }

    /// Removes and returns the right subtree, or returns `None` if it is empty.
    pub fn take_right(&mut self) -> Option<Subtree>
        ensures taken { tree_of result ≡ self.old.right }
        ensures rest { self.new ≡ record self.old { right = Empty } }
    {
        let node = self.root.as_mut();
        unlink(&mut node.right_height, &mut node.right, node.alloc)
    }

    /// Sets the left subtree, which must be empty before.
    pub fn set_left(&mut self, left: Option<Subtree>)
        requires { self.old.left ≡ Empty }
        ensures { self.new ≡ record self.old { left = tree_of left } }
    {
        let node = self.root.as_mut();
        link_to(&mut node.left_height, &mut node.left, left);
    }

    /// Sets the right subtree, which must be empty before.
    pub fn set_right(&mut self, right: Option<Subtree>)
        requires { self.old.right ≡ Empty }
        ensures { self.new ≡ record self.old { right = tree_of right } }
    {
        let node = self.root.as_mut();
        link_to(&mut node.right_height, &mut node.right, right);
    }

    /// Inserts entries before those of the root. Requires capacity for them.
    pub fn put_in_front(&mut self, front: &Entries)
        requires { length front.now + length self.old.entries ≤ 16 }
        ensures { self.new ≡ record self.old { entries = front.now ++ self.old.entries } }
    {
        let node = self.root.as_mut();
        node.entries.prepend(front);
    }

    /// Appends entries to those of the root. Requires capacity for them.
    pub fn put_behind(&mut self, behind: &Entries)
        requires { length self.old.entries + length behind.now ≤ 16 }
        ensures { self.new ≡ record self.old { entries = self.old.entries ++ behind.now } }
    {
        let node = self.root.as_mut();
        node.entries.append(behind);
    }

    /// Removes and returns the entries of the root from position `at` on.
    pub(crate) fn split_off(&mut self, at: usize) -> Entries
        requires { at ≤ length self.old.entries }
        ensures taken { result ≡ drop at self.old.entries }
        ensures rest { self.new ≡ record self.old { entries = take at self.old.entries } }
    {
        let node = self.root.as_mut();
        node.entries.split_off(at)
    }

    /// Removes and returns the first `n` entries of the root.
    pub(crate) fn take_first(&mut self, n: usize) -> Entries
        requires { n ≤ length self.old.entries }
        ensures taken { result ≡ take n self.old.entries }
        ensures rest { self.new ≡ record self.old { entries = drop n self.old.entries } }
    {
        let node = self.root.as_mut();
        node.entries.take_first(n)
    }
}
