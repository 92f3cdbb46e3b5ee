//! Definitions of indexes.
ghost use Rattle.std.specs.Prelude.{◌≡◌, ◌++◌, [], ◌∷◌, not, filter, position, IfErr, IfOk, OnOk, OnErr};
ghost use Rattle.std.specs.List.{list_any};
ghost use Rattle.mm_schema.specs.Name.{same_name};
ghost use Rattle.mm_value.specs.declared.refusal.Refusal.TheVariants.{Memory};

use crate::name::Name;
use mm_value::Refusal;
use std::alloc::{AllocError, Global};
use std::marker::Model;

/// The kind of an index.
#[derive(Clone, Copy, Debug, PartialEq, Eq)]
pub enum IndexKind {
    /// A tree, in the order of the values.
    Tree,
    /// A hash table, by the hashes of the values.
    Hash,
}

/// The definition of an index.
#[derive(Debug, Drop)]
pub struct IndexDef {
    /// The name, which no other index of any table has.
    pub name: Name,
    /// The indexed table.
    pub table: Name,
    /// The indexed column.
    pub column: Name,
    /// The kind.
    pub kind: IndexKind,
}

impl IndexDef {
    /// Returns a copy of the definition. Allocates nothing.
    fn copy(&self) -> IndexDef
        ensures { result ≡ self.now }
    {
        IndexDef {
            name: self.name.copy(),
            table: self.table.copy(),
            column: self.column.copy(),
            kind: self.kind,
        }
    }
}

/// The identity of an index.
#[derive(Debug, PartialEq, Eq, Drop)]
pub enum IndexId {
    /// The index on the key that each table has, written `#key`.
    Key,
    /// The index with this name.
    Named(Name),
}

/// The indexes of a table, in order of creation.
#[derive(Debug, Drop)]
pub struct Indexes {
    items: Vec<IndexDef>,
}

impl Model for Indexes {
    ghost use Rattle.std.specs.Prelude.{List};
    ghost use Rattle.mm_schema.specs.declared.index.IndexDef.{IndexDef as Index};

    ghost Value = { List Index };

    ghost view = { λ i. i.items.items };
}

impl Indexes {
    /// Returns an empty list. Allocates nothing.
    pub(crate) fn new(alloc: Global) -> Indexes
        ensures { result ≡ [] }
    {
        Indexes {
            items: Vec::new(alloc),
        }
    }

    /// Returns a copy of the definitions. Fails with `AllocError` if an allocation fails.
    pub(crate) fn copy(&self, alloc: Global) -> Result<Indexes, AllocError>
        ensures { IfOk result (λ copy. copy ≡ self.now) }
    {
        let mut items = Vec::with_capacity(alloc, self.items.len())?;
        for index in self.as_slice() {
            items.push(index.copy())?;
        }
        Ok(Indexes { items })
    }

    /// Returns the indexes in order.
    pub fn as_slice(&self) -> &[IndexDef]
        ensures { result.now ≡ self.now }
    {
        &self.items
    }

    /// Returns whether any index has the name.
    pub(crate) fn has(&self, name: &Name) -> bool
        ensures { result ≡ list_any (λ index. same_name name.now index.name) self.now }
    {
        self.items.iter().any(|index| *name == index.name)
    }

    /// Returns the position of the index with a name, counted from 0, or `None` if there is none.
    pub fn place_of(&self, name: &Name) -> Option<usize>
        ensures { result ≡ position (λ index. same_name name.now index.name) self.now }
    {
        self.items.iter().position(|index| *name == index.name)
    }

    /// Appends an index. Fails only with `Memory`, if an allocation fails; nothing changes then.
    pub(crate) fn push(&mut self, index: IndexDef) -> Result<(), Refusal>
        ensures ok { OnOk result (self.new ≡ self.old ++ index ∷ []) }
        ensures err { OnErr result (self.new ≡ self.old) }
        ensures memory { IfErr result (λ refusal. refusal ≡ Memory) }
    {
        self.items.push(index)?;
        Ok(())
    }

    /// Removes each index with the name. Allocates nothing.
    pub(crate) fn remove(&mut self, name: &Name)
        ensures { self.new ≡ filter (λ index. not (same_name name.now index.name)) self.old }
    {
        self.items.retain(|index| *name != index.name);
    }
}
