//! Changes of rows as they are run.
use mm_query::{Assignment, Atom, FieldPlace, RowList};

/// A bound change of rows for [`Db::change_bound`](crate::Db::change_bound). Unlike a [`BoundChange`](mm_query::BoundChange), it borrows
/// the parts of an UPDATE or a DELETE, so that these can be run again; it owns the rows of an INSERT.
#[derive(Debug, Drop)]
pub enum ChangeToRun<'b> {
    /// Inserts rows into a table.
    Insert {
        /// The table's place in the catalog's order of creation.
        table: usize,
        /// The rows, each of which has a value of the right type for each column.
        tuples: RowList,
    },
    /// Updates the rows of a table that satisfy all tests.
    Update {
        /// The table's place in the catalog's order of creation.
        table: usize,
        /// The columns that get new values, by their places.
        assignments: &'b [Assignment<usize>],
        /// The tests of a row: the atoms of a query of this table alone.
        tests: &'b [Atom<FieldPlace>],
    },
    /// Deletes the rows of a table that satisfy all tests.
    Delete {
        /// The table's place in the catalog's order of creation.
        table: usize,
        /// The tests of a row: the atoms of a query of this table alone.
        tests: &'b [Atom<FieldPlace>],
    },
}
