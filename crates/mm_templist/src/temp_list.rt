//! Temporary lists.
ghost use Rattle.std.specs.Prelude.{◌≡◌, ◌+◌, ◌++◌, ◌∷◌, ◌<◌, [], Some, length, map, slice_get, OnErr, OnOk};

use mm_indexed::FoundRefs;
use mm_query::FieldPlace;
use mm_value::RowRef;
use smallvec::SmallVec;
use std::alloc::{AllocError, Global};
use std::marker::Model;

/// The tables of a temporary list, and the fields of its result.
#[derive(Clone, Copy)]
pub struct Descriptor<'a> {
    /// The positions in the store of the tables whose rows are combined, in FROM order.
    pub tables: &'a [usize],
    /// The fields of the result, from left to right.
    pub fields: &'a [FieldPlace],
}

/// Combinations of references to rows, one row of each table (a temporary list of Lehman and Carey, SIGMOD 1986). No row is copied: the
/// descriptor says which fields of the rows are in the result.
///
/// The references are in one vector, combination by combination, so a combination has no allocation of its own. Up to four references are
/// stored inline, so a single combination needs no allocation.
#[derive(Drop)]
pub struct TempList<'a> {
    descriptor: Descriptor<'a>,
    /// A reference for each table, for each combination.
    refs: FoundRefs,
    /// The number of combinations.
    len: usize,
}

impl<'a> Model for TempList<'a> {
    ghost use Rattle.std.specs.Prelude.{◌≡◌, ◌*◌, length};
    ghost use Rattle.mm_templist.specs.Combos.{Combos};
    ghost use Rattle.mm_templist.specs.Pieces.{pieces};

    ghost Value = { Combos };

    ghost view = { λ t. record {
      tables = t.descriptor.tables.now;
      fields = t.descriptor.fields.now;
      combos = pieces (length t.descriptor.tables.now) t.len t.refs.items;
    } };

    ghost invariant = { λ t. length t.refs.items ≡ t.len * length t.descriptor.tables.now };
}

impl<'a> TempList<'a> {
    /// Returns an empty list with this descriptor. Allocates nothing.
    pub fn new(alloc: Global, descriptor: Descriptor<'a>) -> TempList<'a>
        ensures { result ≡ record { tables = descriptor.entry.tables.now; fields = descriptor.entry.fields.now; combos = [] } }
    {
        TempList {
            descriptor,
            refs: SmallVec::new(alloc),
            len: 0,
        }
    }

    /// Returns a list with the combination of no tables, from which joins start. Allocates nothing.
    pub fn unit(alloc: Global, fields: &'a [FieldPlace]) -> TempList<'a>
        ensures { result ≡ record { tables = []; fields = fields.now; combos = [] ∷ [] } }
    {
        TempList {
            descriptor: Descriptor {
                tables: &[],
                fields,
            },
            refs: SmallVec::new(alloc),
            len: 1,
        }
    }

    /// Returns a list with a combination for each of these references to rows of one table, in order. Allocates nothing.
    pub fn of_refs(descriptor: Descriptor<'a>, refs: FoundRefs) -> TempList<'a>
        requires { length descriptor.tables.now ≡ 1 }
        ensures { result ≡ record { tables = descriptor.entry.tables.now; fields = descriptor.entry.fields.now; combos = map (λ at. at ∷ []) refs.items } }
    {
        let len = refs.len();
        TempList {
            descriptor,
            refs,
            len,
        }
    }

    /// Returns the tables of the list, and the fields of its result.
    pub fn descriptor(&self) -> Descriptor<'a>
        ensures tables { result.tables.now ≡ self.now.tables }
        ensures fields { result.fields.now ≡ self.now.fields }
    {
        self.descriptor
    }

    /// Returns the number of combinations.
    pub fn len(&self) -> usize
        ensures { result ≡ length self.now.combos }
    {
        self.len
    }

    /// Returns the combination at a position, from 0: a reference for each table.
    pub fn combo(&self, i: usize) -> &[RowRef]
        requires { i < length self.now.combos }
        ensures { slice_get self.now.combos i ≡ Some result.now }
    {
        let width = self.descriptor.tables.len();
        let refs = self.refs.as_slice();
        let start = i * width;
        &refs[start..start + width]
    }

    /// Appends the combination of the references `front` followed by `at`. Fails with `AllocError` if an allocation fails; then nothing
    /// changes.
    pub fn push(&mut self, front: &[RowRef], at: RowRef) -> Result<(), AllocError>
        requires { length front.now + 1 ≡ length self.old.tables }
        ensures ok { OnOk result (self.new ≡ record self.old { combos = self.old.combos ++ (front.now ++ at ∷ []) ∷ [] }) }
        ensures err { OnErr result (self.new ≡ self.old) }
    {
        // The length of a slice bounds the number of references, so the number of combinations does not overflow.
        let _counted = self.refs.as_slice();
        self.refs.reserve(front.len() + 1)?;
        self.refs.extend_from_slice(front)?;
        self.refs.push_reserved(at);
        self.len += 1;
        Ok(())
    }
}
