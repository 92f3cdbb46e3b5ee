//! The T-tree itself.
ghost use Rattle.std.specs.Prelude.{◌≡◌, ◌≢◌, ◌+◌, ◌≤◌, min, [], length, All, Contains, IfSome, IfNone, IfOk};
ghost use Rattle.std.specs.Int.{div_ceil};
ghost use Rattle.std.specs.Option.{option_copied};
ghost use Rattle.std.specs.declared.cmp.Ordering.TheVariants.{Equal};
ghost use Rattle.mm_order.specs.Order.{IsOrdered};
ghost use Rattle.mm_order.specs.Probe.{IsMonotone};
ghost use Rattle.ttree.specs.Lowest.{IsLowest};

use crate::builds::{FULL, build};
use crate::in_place::{insert_in_place, remove_in_place};
use crate::inserts::insert_into;
use crate::iters::Iter;
use crate::look_up::find_in;
use crate::ranges::copy_range_of;
use crate::removes::remove_from;
use mm_order::{OrderedRefs, Probe, RefOrder, Seek};
use mm_value::RowRef;
use std::alloc::{AllocError, Global};
use std::marker::Model;
use ttree_node::{Node, Spares, Subtree};

/// The maximum number of nodes: their number fits into 32 bits, and the height into 16. A table has fewer rows, and each node has an entry.
const MAX_NODES: usize = 1 << 31;

/// A tree of n nodes has more than 5 n - 9 entries, since its internal nodes have at least 14. So nodes for that many entries suffice,
/// whatever shape the tree gets.
const ENTRIES_PER_NODE: usize = 5;

/// Returns the root of a tree in place, or `None` if the tree is empty.
#[inline]
fn root_of(tree: &Option<Subtree>) -> Option<&Node>
    ensures { option_copied result ≡ tree.now }
{
    match tree {
        None => None,
        Some(tree) => Some(tree.node()),
    }
}

/// Ordered references in a T-tree: a balanced binary tree whose nodes hold up to 16 references in order (Lehman and Carey, VLDB 1986),
/// internal ones 14 to 16. The tree keeps free nodes, so that an insert does not allocate.
#[derive(Drop)]
pub struct TTree {
    root: Option<Subtree>,
    spares: Spares,
    len: usize,
    /// The number of nodes of the tree, free ones included.
    nodes: usize,
}

impl Model for TTree {
    ghost use Rattle.ttree_node.specs.Tree.{tree_of, in_order, height_of};
    ghost use Rattle.ttree.specs.Held.{Held, spare_of};
    ghost use Rattle.ttree.specs.Whole.{IsWhole};

    ghost Value = { Held };

    ghost view = { λ t. record {
      refs = in_order (tree_of t.root);
      height = height_of (tree_of t.root);
      spare = spare_of t.len t.nodes t.spares;
    } };

    ghost invariant = { λ t. IsWhole (tree_of t.root) t.len t.nodes t.spares };
}

impl TTree {
    /// Returns a tree without references. Allocates nothing.
    pub fn new(alloc: Global) -> TTree
        ensures { result ≡ record { refs = []; height = 0; spare = 0 } }
    {
        TTree {
            root: None,
            spares: Spares::new(alloc),
            len: 0,
            nodes: 0,
        }
    }

    /// Returns the tree with the references of a sorted list. All its nodes are full, except the last. Makes no comparison. Returns
    /// `AllocError` if an allocation fails.
    pub fn from_sorted(alloc: Global, refs: &[RowRef]) -> Result<TTree, AllocError>
        ensures refs { IfOk result (λ tree. tree.refs ≡ refs.now) }
        ensures lowest { IfOk result (λ tree. IsLowest (div_ceil (length refs.now) 16) tree.height) }
    {
        let nodes = refs.len().div_ceil(FULL);
        if nodes > MAX_NODES {
            return Err(AllocError);
        }
        let mut spares = Spares::new(alloc);
        spares.reserve(alloc, nodes)?;
        let root = build(refs, nodes, &mut spares);
        Ok(TTree {
            root,
            spares,
            len: refs.len(),
            nodes,
        })
    }

    /// Returns the number of nodes on a longest path from the root down.
    #[tactic(auto, using(crate::proofs::Sizes::height_at_most_28))]
    pub fn height(&self) -> usize
        ensures height { result ≡ self.now.height }
        ensures at_most_28 { length self.now.refs ≤ 1048576 → result ≤ 28 }
    {
        match &self.root {
            None => 0,
            Some(root) => root.height(),
        }
    }

    /// Returns a matching entry, or `None` if no entry matches. Makes at most one comparison per level and seven more, so at most 35 for up
    /// to 1,048,576 references.
    #[tactic(auto, using(crate::proofs::Sizes::height_at_most_28))]
    pub fn find<O: RefOrder, P: Probe>(&self, order: &O, seek: &mut Seek<P>) -> Option<RowRef>
        requires ordered { IsOrdered (O.covers order.now) (O.cmp order.now) self.now.refs }
        requires monotone { IsMonotone (O.covers order.now) (O.cmp order.now) (P.covers seek.old.probe) (P.place_of seek.old.probe) }
        ensures held { IfSome result (Contains self.now.refs) }
        ensures fits { IfSome result (λ r. P.place_of seek.old.probe r ≡ Equal) }
        ensures none { IfNone result (All (λ a. P.place_of seek.old.probe a ≢ Equal) self.now.refs) }
        ensures probe { seek.new.probe ≡ seek.old.probe }
        ensures steps { seek.new.count ≤ seek.old.count + self.now.height + 7 }
        ensures at_most_35 { length self.now.refs ≤ 1048576 → seek.new.count ≤ seek.old.count + 35 }
    {
        find_in(root_of(&self.root), order, seek)
    }

    /// Iterates over the references in order, without a copy. Requires at most 1,048,576 references.
    #[tactic(auto, using(crate::proofs::Sizes::height_at_most_28))]
    pub fn iter(&self) -> Iter<'_>
        requires { length self.now.refs ≤ 1048576 }
        ensures { result ≡ self.now.refs }
    {
        Iter::new(root_of(&self.root))
    }

    /// Removes all references. Their nodes become free nodes, so nothing is allocated or freed.
    pub fn clear(&mut self)
        ensures empty { self.new ≡ record { refs = []; height = 0; spare = self.new.spare } }
        ensures spare { self.old.spare ≤ self.new.spare }
    {
        if let Some(root) = self.root.take() {
            root.free_into(&mut self.spares);
        }
        self.len = 0;
    }

    /// Frees free nodes until there is capacity for at most `n` more references, or for up to four fewer. So at most `n` free nodes remain.
    #[tactic(auto, using(crate::proofs::Sizes::nodes_by_entries))]
    pub fn trim_spares(&mut self, n: usize)
        ensures rest { self.new ≡ record self.old { spare = self.new.spare } }
        ensures few { self.new.spare ≤ n }
        ensures fewer { self.new.spare ≤ self.old.spare }
        ensures kept { min self.old.spare n ≤ self.new.spare + 4 }
    {
        let free = self.spares.len();
        let taken = self.nodes - free;
        let enough = (self.len.saturating_add(n).saturating_add(8)
            / ENTRIES_PER_NODE).saturating_sub(taken);
        self.spares.trim(free.min(n).min(enough));
        self.nodes = taken + self.spares.len();
    }
}

impl OrderedRefs for TTree {
    ghost refs = { λ t. t.refs };

    ghost spare = { λ t. t.spare };

    fn len(&self) -> usize {
        self.len
    }

    #[tactic(auto, using(crate::proofs::Sizes::entries_at_most))]
    fn spare(&self) -> usize {
        let room = (ENTRIES_PER_NODE * self.nodes).saturating_sub(self.len + 8);
        self.spares.len().max(room)
    }

    #[tactic(auto, using(crate::proofs::Sizes::nodes_at_most))]
    fn reserve(&mut self, alloc: Global, n: usize) -> Result<(), AllocError> {
        if n <= self.spare() {
            return Ok(());
        }
        let entries = self.len.saturating_add(n);
        if entries > MAX_NODES {
            return Err(AllocError);
        }
        let taken = self.nodes - self.spares.len();
        let enough = (entries + 8)
            .div_ceil(ENTRIES_PER_NODE)
            .saturating_sub(taken);
        let reserved = self.spares.reserve(alloc, n.min(enough));
        self.nodes = taken + self.spares.len();
        reserved
    }

    #[tactic(auto, using(crate::proofs::Sizes::height_at_most_52, crate::proofs::Sizes::entries_at_most, crate::proofs::Sizes::nodes_by_entries))]
    fn insert<O: RefOrder>(&mut self, order: &O, added: RowRef) {
        if insert_in_place(&mut self.root, order, added) {
            self.len += 1;
            return;
        }
        let Ok(root) = insert_into(self.root.take(), order, None, added, &mut self.spares) else {
            unreachable!()
        };
        self.root = Some(root);
        self.len += 1;
    }

    #[tactic(auto, using(crate::proofs::Sizes::height_at_most_52))]
    fn remove<O: RefOrder>(&mut self, order: &O, gone: RowRef) -> bool {
        if remove_in_place(&mut self.root, order, gone) {
            self.len -= 1;
            return true;
        }
        let (root, held) = remove_from(self.root.take(), order, gone, &mut self.spares);
        self.root = root;
        if held {
            self.len -= 1;
        }
        held
    }

    fn copy_range<O: RefOrder, L: Probe, H: Probe>(
        &self,
        _alloc: Global,
        order: &O,
        low: &L,
        high: &H,
        out: &mut Vec<RowRef>,
    ) -> Result<(), AllocError> {
        let before = out.len();
        let copied = copy_range_of(root_of(&self.root), order, low, high, out);
        if copied.is_err() {
            out.truncate(before);
        }
        copied
    }
}
