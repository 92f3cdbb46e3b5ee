//! Searches in entries with ascending prefixes.
ghost use Rattle.std.specs.Prelude.{◌≡◌, ◌==◌, ◌<◌, ◌≤◌, All, OnOk, drop, filter, length, map, take};
ghost use Rattle.mm_join.specs.Entries.{AreRising};

use mm_value::RowRef;
use std::alloc::AllocError;

/// A row of a walk along a tree, with the prefix of its value in the tree's column.
#[derive(Clone, Copy)]
pub(crate) struct Entry {
    pub prefix: u64,
    pub at: RowRef,
}

/// Returns where the search for a prefix begins: where the last one ended, if all entries before that position are less, and otherwise 0.
fn start(entries: &[Entry], prefix: u64, last: usize) -> usize
    requires rising { AreRising entries.now }
    requires bound { last ≤ length entries.now }
    ensures bound { result ≤ length entries.now }
    ensures before { All (λ entry. entry.prefix < prefix) (take result entries.now) }
{
    if last > 0 && entries[last - 1].prefix >= prefix {
        return 0;
    }
    last
}

/// Returns the number of entries that are less than a prefix. The first `start` entries must be less. As long as all entries compared so
/// far are less, each step is as long as the distance covered (Bentley and Yao, Information Processing Letters 1976).
fn skip_less(entries: &[Entry], prefix: u64, start: usize) -> usize
    requires rising { AreRising entries.now }
    requires bound { start ≤ length entries.now }
    requires before { All (λ entry. entry.prefix < prefix) (take start entries.now) }
    ensures bound { result ≤ length entries.now }
    ensures before { All (λ entry. entry.prefix < prefix) (take result entries.now) }
    ensures rest { All (λ entry. prefix ≤ entry.prefix) (drop result entries.now) }
{
    let mut low = start;
    let mut high = entries.len();
    let mut step: usize = 0;
    while low < high {
        // Once an entry is not less, it bounds the rest, and half of the rest becomes the shorter step.
        let middle = low + step.min((high - low) / 2);
        if entries[middle].prefix < prefix {
            low = middle + 1;
            step = middle - start;
        } else {
            high = middle;
        }
    }
    low
}

/// Returns the number of entries that are less than a prefix, where the last search ended at `last`.
pub(crate) fn first_of(entries: &[Entry], prefix: u64, last: usize) -> usize
    requires rising { AreRising entries.now }
    requires bound { last ≤ length entries.now }
    ensures bound { result ≤ length entries.now }
    ensures before { All (λ entry. entry.prefix < prefix) (take result entries.now) }
    ensures rest { All (λ entry. prefix ≤ entry.prefix) (drop result entries.now) }
{
    let start = start(entries, prefix, last);
    skip_less(entries, prefix, start)
}

/// Replaces the contents of `found` by the references of the entries with a prefix. No entry may be less. Fails with `AllocError` if an
/// allocation fails.
pub(crate) fn copy_run(
    entries: &[Entry],
    prefix: u64,
    found: &mut Vec<RowRef>,
) -> Result<(), AllocError>
    requires rising { AreRising entries.now }
    requires rest { All (λ entry. prefix ≤ entry.prefix) entries.now }
    ensures { OnOk result (found.new.items ≡ map (λ entry. entry.at) (filter (λ entry. entry.prefix == prefix) entries.now)) }
{
    found.clear();
    for entry in entries {
        if entry.prefix > prefix {
            return Ok(());
        }
        found.push(entry.at)?;
    }
    Ok(())
}
