//! Tables in the catalog.
ghost use Rattle.std.specs.Prelude.{◌≡◌, IfOk};

use crate::column::Columns;
use crate::index::Indexes;
use crate::name::Name;
use std::alloc::{AllocError, Global};

/// The definition of a table.
#[derive(Debug, Drop)]
pub struct TableDef {
    /// The name.
    pub name: Name,
    /// The columns.
    pub columns: Columns,
}

/// A table of the catalog.
#[derive(Debug, Drop)]
pub struct Table {
    /// The definition.
    pub definition: TableDef,
    /// The indexes, in order of creation.
    pub indexes: Indexes,
}

impl TableDef {
    /// Returns a copy of the definition. Fails with `AllocError` if an allocation fails.
    fn copy(&self, alloc: Global) -> Result<TableDef, AllocError>
        ensures { IfOk result (λ copy. copy ≡ self.now) }
    {
        let columns = self.columns.copy(alloc)?;
        Ok(TableDef {
            name: self.name.copy(),
            columns,
        })
    }
}

impl Table {
    /// Returns a copy of the definitions of the table and its indexes. Fails with `AllocError` if an allocation fails.
    pub fn copy(&self, alloc: Global) -> Result<Table, AllocError>
        ensures { IfOk result (λ copy. copy ≡ self.now) }
    {
        let definition = self.definition.copy(alloc)?;
        let indexes = self.indexes.copy(alloc)?;
        Ok(Table {
            definition,
            indexes,
        })
    }
}
