//! Rotations.
ghost use Rattle.std.specs.Prelude.{◌≡◌};
ghost use Rattle.ttree_node.specs.Tree.{IsFork, fork, in_order};
ghost use Rattle.ttree_node.specs.Turn.{rotated_left, rotated_right};

use crate::nodes::Subtree;

impl Subtree {
    /// Rotates to the left: the right child becomes the root, with the old root as its left child.
    pub fn rotate_left(mut self) -> Subtree
        requires { IsFork self.right }
        ensures shape { result ≡ rotated_left self }
        ensures same_entries { in_order (fork result) ≡ in_order (fork self) }
    {
        let Some(mut top) = self.take_right() else {
            unreachable!()
        };
        let middle = top.take_left();
        self.set_right(middle);
        top.set_left(Some(self));
        top
    }

    /// Rotates to the right: the left child becomes the root, with the old root as its right child.
    pub fn rotate_right(mut self) -> Subtree
        requires { IsFork self.left }
        ensures shape { result ≡ rotated_right self }
        ensures same_entries { in_order (fork result) ≡ in_order (fork self) }
    {
        let Some(mut top) = self.take_left() else {
            unreachable!()
        };
        let middle = top.take_right();
        self.set_left(middle);
        top.set_right(Some(self));
        top
    }
}
