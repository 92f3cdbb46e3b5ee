//! The columns by which rows of a table may be looked up.
ghost use Rattle.std.specs.Prelude.{◌≡◌, ◌<◌, length, OnErr};

use mm_query::{Atom, BoundQuery, Comparison, FieldPlace, Operand};
use mm_store::View;
use std::alloc::{AllocError, Global};

/// A table in FROM.
#[derive(Drop)]
struct FromTable<'s, 'a> {
    view: &'s View<'a>,
    tables: &'s [usize],
    table: usize,
}

impl FromTable<'_, '_> {
    /// Returns whether a field is a column of the table that has an index.
    fn is_indexed(&self, field: FieldPlace) -> bool
        requires { self.now.table < length self.now.view.now.store.tables }
    {
        match self.tables.get(field.place) {
            Some(table) if *table == self.table => {
                self.view.index_on(self.table, field.column).is_some()
            }
            _ => false,
        }
    }

    /// Appends the column of a field of the table if it has an index and is not in the list yet. Fails with `AllocError` if an allocation
    /// fails.
    fn add_column(&self, columns: &mut Vec<usize>, field: FieldPlace) -> Result<(), AllocError>
        requires { self.now.table < length self.now.view.now.store.tables }
    {
        if self.is_indexed(field) && !columns.contains(&field.column) {
            columns.push(field.column)?;
        }
        Ok(())
    }

    /// Appends the columns that an equality names. Fails with `AllocError` if an allocation fails.
    fn add_columns(
        &self,
        columns: &mut Vec<usize>,
        atom: &Atom<FieldPlace>,
    ) -> Result<(), AllocError>
        requires { self.now.table < length self.now.view.now.store.tables }
    {
        let Comparison::Equal = atom.comparison else {
            return Ok(());
        };
        self.add_column(columns, atom.left)?;
        match &atom.right {
            Operand::Literal(_) => Ok(()),
            Operand::Column(field) | Operand::Shifted(field, _) => self.add_column(columns, *field),
        }
    }
}

/// Returns the indexed columns of a table that equalities of a query name, each once. No other columns are looked up. Fails with
/// `AllocError` if an allocation fails.
pub(crate) fn asked_columns(
    alloc: Global,
    view: &View<'_>,
    query: &BoundQuery,
    tables: &[usize],
    table: usize,
) -> Result<Vec<usize>, AllocError>
    requires { table < length view.now.store.tables }
{
    let from_table = FromTable {
        view,
        tables,
        table,
    };
    let mut columns = Vec::new(alloc);
    for atom in query.atoms.as_slice() {
        from_table.add_columns(&mut columns, atom)?;
    }
    Ok(columns)
}
