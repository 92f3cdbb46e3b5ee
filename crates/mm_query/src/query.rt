//! Queries, with all names as written.
ghost use Rattle.std.specs.Prelude.{◌≡◌};

use crate::atom::Atom;
use mm_schema::{Name, NameRef};
use mm_value::Few;

/// A column of a table of FROM as written: `alias.column`. `N` is the type of a name: an owned name, or a slice of the line.
#[derive(Debug, Drop)]
pub struct FieldName<N> {
    /// The alias of the table.
    pub alias: N,
    /// The name of the column.
    pub column: N,
}

impl FieldName<Name> {
    /// Returns a copy of the field name. Allocates nothing.
    pub fn copy(&self) -> FieldName<Name>
        ensures { result ≡ self.now }
    {
        FieldName {
            alias: self.alias.copy(),
            column: self.column.copy(),
        }
    }
}

/// A table of FROM.
#[derive(Debug, Drop)]
pub struct FromItem {
    /// The name of the table.
    pub table: Name,
    /// The alias by which fields refer to the table.
    pub alias: Name,
}

/// A SELECT. The names of its fields are slices of the line that it was read from.
#[derive(Debug, Drop)]
pub struct Query<'l> {
    /// Whether equal rows are kept only once.
    pub distinct: bool,
    /// The fields whose values form a row of the result, from left to right.
    pub fields: Few<FieldName<NameRef<'l>>>,
    /// The tables whose rows are combined. A table may occur more than once.
    pub from: Few<FromItem>,
    /// The conditions on a combination of rows.
    pub atoms: Few<Atom<FieldName<NameRef<'l>>>>,
    /// The fields by which the result is sorted, as positions counted from 1.
    pub order: Few<usize>,
}
