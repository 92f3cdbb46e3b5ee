//! Measures the hash table of references.
ghost use Rattle.std.specs.Prelude.{◌≡◌};

use crate::entries::{Entry, after, key_of};
use crate::report::{Pass, print};
use mlhash::HashRefs;
use mm_value::RowRef;
use std::alloc::{AllocError, Global};
use std::time::Instant;

/// The number of hashes that the entries of the second table share.
const FEW: u32 = 25;

/// The hashes of the entries of a table.
#[derive(Clone, Copy, Drop)]
enum Hashes {
    /// A hash for each entry.
    Distinct,
    /// Few hashes, each for the same number of entries.
    Few,
}

/// Fills, searches and empties a table of `n` entries, and fills and empties one of few hashes.
pub(crate) fn measure(rt: &HostRuntime, n: u32) -> anyhow::Result<()> {
    measure_distinct(rt, n)?;
    measure_few(rt, n)
}

fn measure_distinct(rt: &HostRuntime, n: u32) -> anyhow::Result<()> {
    let alloc = rt.alloc();
    let sought = shuffled(alloc, n, Hashes::Distinct)?;
    let mut bag = HashRefs::new(alloc);
    time_fill(rt, "HashRefs", &mut bag, n, Hashes::Distinct)?;
    time_ask(rt, "HashRefs", &bag, sought.as_slice())?;
    time_empty(rt, "HashRefs", &mut bag, sought.as_slice())
}

fn measure_few(rt: &HostRuntime, n: u32) -> anyhow::Result<()> {
    let alloc = rt.alloc();
    let sought = shuffled(alloc, n, Hashes::Few)?;
    let mut bag = HashRefs::new(alloc);
    time_fill(rt, "HashRefs_of_25", &mut bag, n, Hashes::Few)?;
    time_empty(rt, "HashRefs_of_25", &mut bag, sought.as_slice())
}

/// Returns the entry of a number.
fn entry_of(number: u32, hashes: Hashes) -> Entry
    ensures { result.reference.slot ≡ number }
{
    Entry {
        key: match hashes {
            Hashes::Distinct => key_of(number),
            Hashes::Few => key_of(number % FEW),
        },
        reference: RowRef { slot: number },
    }
}

/// Returns the entries of the numbers below `n`, shuffled.
fn shuffled(alloc: Global, n: u32, hashes: Hashes) -> Result<Vec<Entry>, AllocError> {
    let mut entries = Vec::with_capacity(alloc, n as usize)?;
    let mut number = 0;
    for _ in 0..n {
        entries.push(entry_of(number, hashes))?;
        number = after(number as usize, n as usize) as u32;
    }
    Ok(entries)
}

fn time_fill(
    rt: &HostRuntime,
    structure: &str,
    bag: &mut HashRefs,
    n: u32,
    hashes: Hashes,
) -> anyhow::Result<()> {
    let alloc = rt.alloc();
    let start = Instant::now(rt)?;
    for number in 0..n {
        let entry = entry_of(number, hashes);
        bag.reserve(alloc, 1)?;
        bag.insert(entry.key, entry.reference);
    }
    let pass = Pass::new(structure, "insert", n as usize);
    print(rt, &pass, start.elapsed(rt)?, 0)?;
    Ok(())
}

fn time_ask(
    rt: &HostRuntime,
    structure: &str,
    bag: &HashRefs,
    sought: &[Entry],
) -> anyhow::Result<()> {
    let alloc = rt.alloc();
    let start = Instant::now(rt)?;
    let found = ask(alloc, bag, sought)?;
    let pass = Pass::new(structure, "look-up", sought.len());
    print(rt, &pass, start.elapsed(rt)?, found)?;
    Ok(())
}

fn ask(alloc: Global, bag: &HashRefs, sought: &[Entry]) -> Result<usize, AllocError> {
    let mut found = Vec::new(alloc);
    let mut sum = 0usize;
    for entry in sought {
        found.clear();
        bag.matches(alloc, entry.key, &mut found)?;
        if let Some(reference) = found.first() {
            sum = sum.wrapping_add(reference.slot as usize);
        }
    }
    Ok(sum)
}

fn time_empty(
    rt: &HostRuntime,
    structure: &str,
    bag: &mut HashRefs,
    sought: &[Entry],
) -> anyhow::Result<()> {
    let start = Instant::now(rt)?;
    let mut gone = 0usize;
    for entry in sought {
        if bag.remove(entry.key, entry.reference) {
            gone = gone.wrapping_add(1);
        }
    }
    let pass = Pass::new(structure, "remove", sought.len());
    print(rt, &pass, start.elapsed(rt)?, gone)?;
    Ok(())
}
