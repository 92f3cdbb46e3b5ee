//! Access paths to the rows of a table.
ghost use Rattle.std.specs.Prelude.{◌≡◌, ◌<◌, ◌≤◌, true, All, IfOk, IsOk, IsOkAnd, filter, length};
ghost use Rattle.std.specs.Option.{option_copied, option_map};
ghost use Rattle.mm_partition.specs.Places.{IsLive, slot_at};
ghost use Rattle.mm_indexed.specs.Kept.{StoredRows};
ghost use Rattle.mm_indexed.specs.Reads.{AreMatches};
ghost use Rattle.mm_select.specs.Accesses.{AreAlong, IsServed, all_stand, all_stand_to, is_in_key_order, is_met_along, refs_along, stand_from, stand_up_to};
ghost use Rattle.mm_select.specs.declared.access.Access.TheVariants as access;
ghost use Rattle.mm_store.specs.Looked.{IsHash};
ghost use Rattle.mm_store.specs.Tables.{IsAt};
ghost use Rattle.mm_value.specs.Views.{value_of};

use mm_query::{Atom, Comparison, FieldPlace, Operand};
use mm_store::{IndexRef, View};
use mm_templist::FoundRefs;
use mm_value::{Value, ValueRef, compare};
use smallvec::SmallVec;
use std::alloc::{AllocError, Global};
use std::cmp::Ordering;

/// An access path to rows of a table.
#[derive(Clone, Copy)]
pub enum Access<'q> {
    /// A scan of all rows, in key order.
    Scan,
    /// A look-up of a value in an index on a column.
    Equal {
        index: IndexRef,
        column: usize,
        value: &'q Value,
    },
    /// A range along a tree on a column, between inclusive bounds. A side without a bound is open.
    Range {
        index: IndexRef,
        column: usize,
        low: Option<&'q Value>,
        high: Option<&'q Value>,
    },
}

impl Access<'_> {
    /// Returns whether the rows along the access path are found in key order.
    pub fn is_in_key_order(self) -> bool
        ensures { result ≡ is_in_key_order self.entry }
    {
        match self {
            Access::Scan => true,
            Access::Equal { .. } => false,
            Access::Range { index, .. } => matches!(index, IndexRef::Key),
        }
    }
}

/// Returns whether an atom compares a column of the first table with a literal and holds for every row along an access path. If so, no row
/// must be read to evaluate it.
pub(crate) fn is_met_along(access: Access<'_>, atom: &Atom<FieldPlace>) -> bool
    ensures { result ≡ is_met_along access.entry atom.now }
{
    let all_stand = match &atom.right {
        Operand::Literal(value) => all_stand(access, atom.left.column, atom.comparison, value),
        _ => false,
    };
    atom.left.place == 0 && all_stand
}

/// Returns whether a comparison with a value holds for the column of every row along an access path.
fn all_stand(access: Access<'_>, column: usize, comparison: Comparison, value: &Value) -> bool
    ensures { result ≡ all_stand access.entry column comparison value.now }
{
    match access {
        Access::Scan => false,
        Access::Equal {
            column: on,
            value: at,
            ..
        } => column == on && comparison.accepts(compare(at, value)),
        Access::Range {
            column: on,
            low,
            high,
            ..
        } => {
            column == on
                && (stand_from(low, comparison, value) || stand_up_to(high, comparison, value))
        }
    }
}

/// Returns whether a comparison with a value holds for every value from a lower bound up.
fn stand_from(low: Option<&Value>, comparison: Comparison, value: &Value) -> bool
    ensures { result ≡ stand_from (option_copied low.entry) comparison value.now }
{
    match low {
        Some(low) => {
            comparison.accepts(Ordering::Greater) && comparison.accepts(compare(low, value))
        }
        None => false,
    }
}

/// Returns whether a comparison with a value holds for every value up to an upper bound.
fn stand_up_to(high: Option<&Value>, comparison: Comparison, value: &Value) -> bool
    ensures { result ≡ stand_up_to (option_copied high.entry) comparison value.now }
{
    match high {
        Some(high) => {
            comparison.accepts(Ordering::Less) && comparison.accepts(compare(high, value))
        }
        None => false,
    }
}

/// Returns the reference of the row with a key, if there is one. Allocates nothing.
fn row_of_key(alloc: Global, view: &View<'_>, table: usize, key: &Value) -> FoundRefs
    requires { table < length view.now.store.tables }
    ensures found { (stored : StoredRows) → IsAt view.now.store table stored
        → AreMatches stored.key (slot_at stored.places) key.now stored.refs result.items }
    ensures live { (stored : StoredRows) → IsAt view.now.store table stored → All (IsLive stored.places) result.items }
    ensures one { length result.items ≤ 1 }
{
    let mut found = SmallVec::new(alloc);
    if let Some(at) = view.find(table, key.as_ref()) {
        found.push_reserved(at);
    }
    found
}

/// Returns the references of the rows with a value in the column of any index. Fails with `AllocError` if an allocation fails.
fn matches_along(
    alloc: Global,
    view: &View<'_>,
    table: usize,
    index: IndexRef,
    column: usize,
    value: &Value,
) -> Result<FoundRefs, AllocError>
    requires there { table < length view.now.store.tables }
    requires served { (stored : StoredRows) → IsAt view.now.store table stored → IsServed stored (access.Equal index column value) }
    ensures along { (stored : StoredRows) → IsAt view.now.store table stored
        → IfOk result (λ found. AreAlong stored (access.Equal index column value.entry) found.items) }
    ensures live { (stored : StoredRows) → IsAt view.now.store table stored → IfOk result (λ found. All (IsLive stored.places) found.items) }
{
    let mut found = Vec::new(alloc);
    view.matches(alloc, table, index, value.as_ref(), &mut found)?;
    Ok(SmallVec::from_vec(found))
}

/// Returns the references of the rows with a value in the column of an index. Along the key, finds at most one and allocates nothing; along
/// a HASH index, allocates nothing for up to four. Fails with `AllocError` if an allocation fails.
pub(crate) fn equal_to(
    alloc: Global,
    view: &View<'_>,
    table: usize,
    index: IndexRef,
    column: usize,
    value: &Value,
) -> Result<FoundRefs, AllocError>
    requires there { table < length view.now.store.tables }
    requires served { (stored : StoredRows) → IsAt view.now.store table stored → IsServed stored (access.Equal index column value) }
    ensures along { (stored : StoredRows) → IsAt view.now.store table stored
        → IfOk result (λ found. AreAlong stored (access.Equal index column value.entry) found.items) }
    ensures live { (stored : StoredRows) → IsAt view.now.store table stored → IfOk result (λ found. All (IsLive stored.places) found.items) }
    ensures by_key { index ≡ IndexRef.Key → IsOkAnd result (λ found. length found.items ≤ 1) }
    ensures few { IsHash index → (stored : StoredRows) → IsAt view.now.store table stored
        → length (refs_along stored (access.Equal index column value.entry)) ≤ 4 → IsOk result }
{
    match index {
        IndexRef::Key => Ok(row_of_key(alloc, view, table, value)),
        IndexRef::Tree(_) => matches_along(alloc, view, table, index, column, value),
        IndexRef::Hash(place) => view.find_by_hash(alloc, table, place, value.as_ref()),
    }
}

/// Returns a reference to a bound of a range, if there is one.
fn end_ref(end: Option<&Value>) -> Option<ValueRef<'_>>
    ensures { option_map value_of result ≡ option_copied end.entry }
{
    match end {
        Some(value) => Some(value.as_ref()),
        None => None,
    }
}

/// Returns the references of the rows between two inclusive bounds along a tree; along the tree on the key, in key order. Fails with
/// `AllocError` if an allocation fails.
pub(crate) fn between(
    alloc: Global,
    view: &View<'_>,
    table: usize,
    index: IndexRef,
    column: usize,
    low: Option<&Value>,
    high: Option<&Value>,
) -> Result<FoundRefs, AllocError>
    requires there { table < length view.now.store.tables }
    requires served { (stored : StoredRows) → IsAt view.now.store table stored → IsServed stored (access.Range index column low high) }
    ensures along { (stored : StoredRows) → IsAt view.now.store table stored
        → IfOk result (λ found. AreAlong stored (access.Range index column low.entry high.entry) found.items) }
    ensures live { (stored : StoredRows) → IsAt view.now.store table stored → IfOk result (λ found. All (IsLive stored.places) found.items) }
    ensures ordered { (stored : StoredRows) → IsAt view.now.store table stored → is_in_key_order (access.Range index column low.entry high.entry) ≡ true
        → IfOk result (λ found. found.items ≡ refs_along stored (access.Range index column low.entry high.entry)) }
{
    let mut found = Vec::new(alloc);
    view.range(alloc, table, index, end_ref(low), end_ref(high), &mut found)?;
    Ok(SmallVec::from_vec(found))
}
