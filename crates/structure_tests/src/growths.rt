//! Calls whose allocations fail, as `tests/refused_growths.py` lets them: in each run of a test one allocation, or all from one to the line
//! that reports a failed call. Then the call has changed nothing, and is repeated.
//!
//! Any other allocation that fails before that line ends the test, as passed.
mod foreign_keys;
mod hash_tables;
mod orders;
mod partitions;
mod trees;
mod tuples;
mod values;

use std::io;

/// Writes to standard output that a tested call failed. All later allocations of the run succeed.
pub fn asked_again(rt: &impl Print) -> io::Result<()> {
    rt.println("refused")
}
