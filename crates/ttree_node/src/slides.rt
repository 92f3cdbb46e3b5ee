//! Moving entries from a node to its child.
ghost use Rattle.std.specs.Prelude.{◌≡◌};
ghost use Rattle.ttree_node.specs.Tree.{fork, in_order, height_of};
ghost use Rattle.ttree_node.specs.Slide.{IsNextTo, child, handed_on, slid, slid_to_left, slid_to_right};
ghost use Rattle.ttree_node.specs.declared.slides.Side.TheVariants.{Left, Right};

use crate::nodes::Subtree;

/// A side of a node.
#[derive(Clone, Copy, Debug, Default, PartialEq, Eq)]
pub enum Side {
    /// The side of the entries before those of the node.
    #[default]
    Left,
    /// The side of the entries after those of the node.
    Right,
}

/// Returns the number of entries that move from a node of `n` entries to a child of `m` entries.
fn count_to_hand_on(n: usize, m: usize) -> usize
    ensures { result ≡ handed_on n m }
{
    n.saturating_sub(1).min(14usize.saturating_sub(m))
}

impl Subtree {
    /// Moves the nearest entries of the root to its child on a side, until the child has 14 entries or the root has one left. Requires that
    /// no entry is between those of the root and of the child. Called before the child becomes the root.
    pub fn slide(&mut self, side: Side)
        requires { IsNextTo side (child side self.old) }
        ensures shape { self.new ≡ slid side self.old }
        ensures same_entries { in_order (fork self.new) ≡ in_order (fork self.old) }
        ensures same_height { height_of (fork self.new) ≡ height_of (fork self.old) }
    {
        match side {
            Side::Left => self.slide_left(),
            Side::Right => self.slide_right(),
        }
    }

    fn slide_left(&mut self)
        requires { IsNextTo Left self.old.left }
        ensures { self.new ≡ slid_to_left self.old.left self.old }
    {
        let Some(mut child) = self.take_left() else {
            unreachable!()
        };
        let n = count_to_hand_on(self.entries().len(), child.entries().len());
        child.put_behind(&self.take_first(n));
        self.set_left(Some(child));
    }

    fn slide_right(&mut self)
        requires { IsNextTo Right self.old.right }
        ensures { self.new ≡ slid_to_right self.old.right self.old }
    {
        let Some(mut child) = self.take_right() else {
            unreachable!()
        };
        let kept = self.entries().len()
            - count_to_hand_on(self.entries().len(), child.entries().len());
        child.put_in_front(&self.split_off(kept));
        self.set_right(Some(child));
    }
}
