//! The lines that are printed.
use std::io;
use std::time::Duration;

/// One pass over all entries of a structure.
#[derive(Drop)]
pub(crate) struct Pass<'a> {
    structure: &'a str,
    name: &'a str,
    entries: usize,
}

impl<'a> Pass<'a> {
    pub(crate) fn new(structure: &'a str, name: &'a str, entries: usize) -> Self {
        Pass {
            structure,
            name,
            entries,
        }
    }
}

/// Prints the structure, the pass, the number of entries, the nanoseconds of the pass, and the sum of the values found.
pub(crate) fn print(rt: &HostRuntime, pass: &Pass, spent: Duration, sum: usize) -> io::Result<()> {
    let structure = pass.structure;
    let name = pass.name;
    let entries = pass.entries;
    let nanoseconds = spent.as_nanos();
    println!(rt; "{structure} {name} {entries} {nanoseconds} {sum}")
}
