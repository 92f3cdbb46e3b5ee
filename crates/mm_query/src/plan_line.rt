//! Lines of plans.
ghost use Rattle.std.specs.Prelude.{◌≡◌};
ghost use Rattle.mm_query.specs.Plans.{line_alias};

use crate::query::FieldName;
use mm_schema::{IndexId, Name};

/// A line of a plan: how the rows of one table of FROM, identified by its alias, are found. The first two tables are joined, then the
/// result and the third, and so on (the access paths and join methods of Lehman and Carey, SIGMOD 1986).
#[derive(Debug, Drop)]
pub enum PlanLine {
    /// Scans all rows of the first table.
    Scan {
        /// The first table.
        alias: Name,
    },
    /// Looks up the rows of the first table with a value in a HASH index.
    Hash {
        /// The first table.
        alias: Name,
        /// The index.
        index: Name,
    },
    /// Looks up the rows of the first table with a value in a tree.
    TreeEqual {
        /// The first table.
        alias: Name,
        /// The tree.
        index: IndexId,
    },
    /// Finds the rows of the first table on one side of a bound in a tree.
    TreeRange {
        /// The first table.
        alias: Name,
        /// The tree.
        index: IndexId,
    },
    /// Follows the reference of an earlier row to its row.
    Precomputed {
        /// The table.
        alias: Name,
        /// The REF column of an earlier table that references the table.
        field: FieldName<Name>,
    },
    /// Merges the first two tables in the order of the compared values, along one tree of each.
    TreeMerge {
        /// The second table.
        alias: Name,
        /// The tree of the first table.
        outer: IndexId,
        /// The tree of the second table.
        inner: IndexId,
    },
    /// Finds the matches of each row of the first table in a tree of the second.
    TreeJoin {
        /// The second table.
        alias: Name,
        /// The tree.
        index: IndexId,
    },
    /// Finds the matches of each earlier combination in a HASH index.
    HashJoin {
        /// The table.
        alias: Name,
        /// The index.
        index: Name,
    },
    /// Finds the matches of each earlier combination in a hash table that the query builds over all rows.
    BuiltHash {
        /// The table.
        alias: Name,
        /// The column whose values are hashed.
        column: Name,
    },
    /// Tests all rows of the table for each earlier combination.
    NestedLoops {
        /// The table.
        alias: Name,
    },
}

impl PlanLine {
    /// Returns the alias of the table whose rows the line finds.
    pub fn alias(&self) -> &Name
        ensures { result.now ≡ line_alias self.now }
    {
        match self {
            PlanLine::Scan { alias } | PlanLine::NestedLoops { alias } => alias,
            PlanLine::Hash { alias, .. } | PlanLine::HashJoin { alias, .. } => alias,
            PlanLine::TreeEqual { alias, .. } | PlanLine::TreeRange { alias, .. } => alias,
            PlanLine::TreeJoin { alias, .. } | PlanLine::TreeMerge { alias, .. } => alias,
            PlanLine::Precomputed { alias, .. } | PlanLine::BuiltHash { alias, .. } => alias,
        }
    }
}

/// An atom that requires a column of a table of FROM to equal a column of an earlier table.
#[derive(Debug, Drop)]
pub struct JoinEquality {
    /// The column of the table.
    pub own: FieldName<Name>,
    /// The column of the earlier table.
    pub earlier: FieldName<Name>,
    /// Whether a number, which may be 0, is added to one of them.
    pub is_shifted: bool,
}
