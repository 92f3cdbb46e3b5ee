//! Steps of a plan.
use mm_store::IndexRef;

/// A step of a plan: the access path of the first table, or the join method of a further one (Lehman and Carey, SIGMOD 1986). `atom` is the
/// position of an atom in the query, from 0.
#[derive(Clone, Copy, Debug, Default, PartialEq, Eq)]
pub enum Step {
    /// Reads each row of the first table.
    #[default]
    Scan,
    /// Looks up the value that an atom requires, in the first table.
    LookUp {
        index: IndexRef,
        atom: usize,
    },
    /// Walks along a tree of the first table on the column that an atom bounds, between the bounds of all atoms.
    Range {
        index: IndexRef,
        atom: usize,
    },
    /// Follows the foreign key of an atom to a further table.
    Precomputed {
        atom: usize,
    },
    /// Walks along trees of the first and the second table together.
    TreeMerge {
        outer: IndexRef,
        inner: IndexRef,
        atom: usize,
    },
    /// Searches a tree of a further table for each combination.
    TreeJoin {
        index: IndexRef,
        atom: usize,
    },
    /// Looks up each combination in a HASH index of a further table.
    HashJoin {
        index: IndexRef,
        atom: usize,
    },
    /// Builds a hash table of a further table, and looks up each combination in it.
    BuiltHash {
        atom: usize,
    },
    /// Compares each combination with each row of a further table.
    NestedLoops,
}
