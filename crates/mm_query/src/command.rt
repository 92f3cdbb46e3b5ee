//! Commands, with all names as written.
use crate::atom::{Assignment, Atom};
use crate::query::Query;
use crate::row_list::RowList;
use mm_schema::{IndexDef, Name, NameRef, TableDef};
use mm_value::Few;

/// A change of the rows of a table. The names of its columns are slices of the line that it was read from.
#[derive(Debug, Drop)]
pub enum Mutation<'l> {
    /// Inserts all these rows into a table, or none.
    Insert {
        /// The name of the table.
        table: Name,
        /// One row for each tuple.
        tuples: RowList,
    },
    /// Updates the rows of a table that match all tests.
    Update {
        /// The name of the table.
        table: Name,
        /// The assignments.
        assignments: Few<Assignment<NameRef<'l>>>,
        /// The conditions on a row, as it was before the change.
        tests: Few<Atom<NameRef<'l>>>,
    },
    /// Deletes the rows of a table that match all tests.
    Delete {
        /// The name of the table.
        table: Name,
        /// The conditions on a row.
        tests: Few<Atom<NameRef<'l>>>,
    },
}

/// A query, and the name of the standing query that it becomes.
#[derive(Debug, Drop)]
pub struct NamedQuery<'l> {
    /// The name.
    pub name: Name,
    /// The query.
    pub query: Query<'l>,
}

/// A change of the catalog.
#[derive(Debug, Drop)]
pub enum Definition<'l> {
    /// Creates a table with no rows.
    Table(TableDef),
    /// Drops the table with this name, its rows and its indexes.
    DropTable(Name),
    /// Creates an index.
    Index(IndexDef),
    /// Drops the index with this name.
    DropIndex(Name),
    /// Creates a standing query.
    Watch(NamedQuery<'l>),
    /// Drops the standing query with this name.
    Unwatch(Name),
}

/// A command, as read from a line.
#[derive(Debug, Drop)]
pub enum Command<'l> {
    /// An empty line or a comment. It has no reply.
    Nothing,
    /// A change of the catalog.
    Define(Definition<'l>),
    /// A change of rows.
    Change(Mutation<'l>),
    /// Returns all rows of the table with this name, in key order.
    Scan(Name),
    /// Returns all rows of the table of the index with this name, ordered by the indexed column, then by key.
    ScanIndex(Name),
    /// Returns the rows of a query.
    Select(Query<'l>),
    /// Returns the plan of a query, with one line for each of its tables.
    Explain(Query<'l>),
    /// Returns the rows of the standing query with this name.
    Show(Name),
    /// Returns all tables, indexes and standing queries, and the numbers of rows of the tables and standing queries.
    Tables,
    /// Opens a transaction.
    Begin,
    /// Commits the open transaction.
    Commit,
    /// Rolls the open transaction back.
    Rollback,
    /// Sets a savepoint with this name in the open transaction.
    Savepoint(Name),
    /// Rolls back to the latest savepoint with this name, and keeps the savepoint.
    RollbackTo(Name),
}
