//! Times inserts, look-ups and removals of the structures that contain references, or the search that proves rows irrelevant.
//!
//! With the word `irrelevance` as its argument, times the search, and with any other word, the structures. Prints a line for each structure
//! and number of entries, or for each search. Without a word it does nothing, since no two runs print the same times.
#![tactic(auto)]

mod by_hash;
mod by_key;
mod entries;
mod in_order;
mod in_rows;
mod irrelevance;
mod report;

use std::env;

/// The most references of a vector that is filled and emptied in random order, since each edit moves half of it.
const MOST_IN_A_VECTOR: u32 = 100_000;

fn main(rt: HostRuntime) -> anyhow::Result<()> {
    let mut words = env::args(&rt)?;
    let Some(word) = words.nth(1) else {
        return Ok(());
    };
    if word.as_str() == "irrelevance" {
        return irrelevance::measure(&rt);
    }
    for n in [10_000u32, 100_000, 1_048_576] {
        by_hash::measure(&rt, n)?;
        in_order::measure_tree(&rt, n)?;
        in_rows::measure(&rt, n as usize)?;
        if n <= MOST_IN_A_VECTOR {
            in_order::measure_vector(&rt, n)?;
        }
    }
    Ok(())
}
