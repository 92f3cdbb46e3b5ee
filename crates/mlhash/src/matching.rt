//! An iterator over the references of one hash.
ghost use Rattle.std.specs.Prelude.{◌≡◌};
ghost use Rattle.std.specs.Iterator.{YieldsFirst, item_count};
ghost use Rattle.mlhash.specs.Chain.{IsLinked, refs_along};

use crate::chains::first_of;
use crate::node::{NIL, Node};
use mm_value::RowRef;
use std::iter::FusedIterator;
use std::marker::Model;

/// The references of one hash in a table, with multiplicity, in no specified order. Its model is the list of the remaining references.
#[derive(Drop)]
pub struct Matching<'a> {
    nodes: &'a [Node],
    // The rest of the chain.
    at: u32,
    hash: u64,
}

impl<'a> Model for Matching<'a> {
    ghost use Rattle.std.specs.Prelude.{List};
    ghost use Rattle.mm_value.specs.declared.row_ref.RowRef.{RowRef as Ref};
    ghost use Rattle.mlhash.specs.Chain.{IsLinked, refs_along};

    ghost Value = { List Ref };

    ghost view = { λ m. refs_along m.nodes.now m.at m.hash };

    ghost invariant = { λ m. IsLinked m.nodes.now m.at };
}

impl<'a> Matching<'a> {
    /// Returns an iterator over the references of a hash along a chain.
    pub(crate) fn along(nodes: &'a [Node], head: u32, hash: u64) -> Self
        requires { IsLinked nodes.now head }
        ensures { result ≡ refs_along nodes.now head hash }
    {
        Matching {
            nodes,
            at: head,
            hash,
        }
    }
}

impl<'a> Iterator for Matching<'a> {
    type Item = RowRef;

    ghost next_gives = { YieldsFirst (λ rest. rest) };

    ghost remaining = { item_count (λ rest. rest) };

    #[tactic(auto, using(crate::proofs::AlongLemmas::next_along, crate::proofs::AlongLemmas::none_along))]
    fn next(&mut self) -> Option<RowRef> {
        let at = first_of(self.nodes, self.at, self.hash);
        if at == NIL {
            self.at = NIL;
            return None;
        }
        let node = &self.nodes[at as usize];
        self.at = node.next;
        Some(node.reference)
    }
}

impl<'a> FusedIterator for Matching<'a> {}
