//! Finding the slot of a row by the hash of its values.
ghost use Rattle.std.specs.Prelude.{◌≡◌, ◌≢◌, ℕ, IfNone, IfSome, IsPermutation};
ghost use Rattle.std.specs.Bool.{Decides};
ghost use Rattle.mm_multiset.specs.RowHash.{row_hash};
ghost use Rattle.mm_multiset.specs.Slots.{pairs_from};
ghost use Rattle.mm_partition.specs.Places.{Live, content_at, slot_at};
ghost use Rattle.mm_partition.specs.Views.{viewed};

use mlhash::HashRefs;
use mm_partition::{Partitions, RowView};
use mm_value::{Row, RowRef, compare, hash64};

/// 2^64 divided by the golden ratio, made odd (multiplicative hashing of Knuth, The Art of Computer Programming, volume 3, section 6.4).
const MULTIPLIER: u64 = 11400714819323198485;

/// Returns the hash of a row. The hash of each value is combined by an exclusive or and a product. A product changes only bits above those
/// that differ, so at the end the high half is combined into the low half, which selects the bucket of a hash table.
pub(crate) fn hash_of(row: &Row) -> u64
    ensures { result ≡ row_hash row.now }
{
    let mut hash = 0u64;
    for value in row.values() {
        hash = (hash ^ hash64(value)).wrapping_mul(MULTIPLIER);
    }
    hash ^ (hash >> 32)
}

/// Returns the reference of the equal row, if there is one. Compares only rows with this hash.
pub(crate) fn find(rows: &Partitions, by_hash: &HashRefs, hash: u64, row: &Row) -> Option<RowRef>
    requires hash { hash ≡ row_hash row.now }
    requires hashed { IsPermutation by_hash.now.entries (pairs_from 0 rows.now.slots) }
    ensures found { IfSome result (λ at. slot_at rows.now at ≡ Live row.now) }
    ensures none { IfNone result ((i : ℕ) → content_at rows.now i ≢ Live row.now) }
{
    for at in by_hash.matching(hash) {
        if is_same(rows.get(at), row) {
            return Some(at);
        }
    }
    None
}

/// Returns whether a stored row equals another one.
fn is_same(stored: RowView<'_>, row: &Row) -> bool
    ensures { Decides result (viewed stored.entry ≡ row.now) }
{
    let width = row.len();
    if stored.len() != width {
        return false;
    }
    for i in 0..width {
        if compare(&stored.value(i), row.value(i)).is_ne() {
            return false;
        }
    }
    true
}
