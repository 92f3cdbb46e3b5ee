//! Queries and rows for tests. Each table has a key and a number.
ghost use Rattle.std.specs.Prelude.{IfOk};
ghost use Rattle.mm_partition.specs.Types.{HasTypes};
ghost use Rattle.store_tests.specs.SampleStore.{plain_types};

use mm_partition::RowView;
use mm_query::{Atom, BoundQuery, Comparison, FieldPlace, FromItem, Operand, ShortList};
use mm_schema::Name;
use mm_templist::ShownRows;
use mm_value::{Few, Refusal, Row, Value, ValueRef, compare};
use std::alloc::{AllocError, Global};

/// Returns the field of the key of the row at a place.
pub fn key(place: usize) -> FieldPlace {
    FieldPlace { place, column: 0 }
}

/// Returns the field of the number of the row at a place.
pub fn number(place: usize) -> FieldPlace {
    FieldPlace { place, column: 1 }
}

/// Returns the atom that compares the numbers of the rows at the first two places.
pub fn numbers_compare(comparison: Comparison) -> Atom<FieldPlace> {
    Atom {
        left: number(0),
        comparison,
        right: Operand::Column(number(1)),
    }
}

/// Returns a FROM of `tables` tables with one name.
fn from_tables(alloc: Global, tables: usize) -> Result<Vec<FromItem>, Refusal> {
    let name = Name::new(b"t").ok_or(Refusal::Syntax)?;
    let mut from = Vec::new(alloc);
    for _ in 0..tables {
        from.push(FromItem {
            table: name.copy(),
            alias: name.copy(),
        })?;
    }
    Ok(from)
}

/// Returns a query with these fields over `tables` tables, for all combinations of rows.
pub fn query<const N: usize>(
    alloc: Global,
    tables: usize,
    fields: [FieldPlace; N],
) -> Result<BoundQuery, Refusal> {
    let fields = Vec::from_array(alloc, fields)?;
    let from = from_tables(alloc, tables)?;
    Ok(BoundQuery {
        distinct: false,
        fields: ShortList::from_vec(fields),
        from: Few::from_vec(from),
        atoms: ShortList::from_vec(Vec::new(alloc)),
        order: ShortList::from_vec(Vec::new(alloc)),
    })
}

/// Returns a query over two tables for the combinations that satisfy some atoms.
pub fn pairs<const N: usize, const M: usize>(
    alloc: Global,
    fields: [FieldPlace; N],
    atoms: [Atom<FieldPlace>; M],
) -> Result<BoundQuery, Refusal> {
    let atoms = Vec::from_array(alloc, atoms)?;
    let mut query = query(alloc, 2, fields)?;
    query.atoms = ShortList::from_vec(atoms);
    Ok(query)
}

/// Returns a query for the pairs of keys of rows with the same number, of the first table and of the second.
pub fn joined(alloc: Global) -> Result<BoundQuery, Refusal> {
    pairs(
        alloc,
        [key(0), key(1)],
        [numbers_compare(Comparison::Equal)],
    )
}

/// Returns the row of a key and a number. Fails with `AllocError` if an allocation fails.
pub fn row(alloc: Global, key: i64, number: i64) -> Result<Row, AllocError>
    ensures { IfOk result (HasTypes plain_types) }
{
    let values = vec![in alloc; Value::Int(key), Value::Int(number)]?;
    Ok(Row::new(values))
}

/// Returns whether the values of a shown row are these numbers.
fn has_numbers(row: &[ValueRef<'_>], numbers: &[i64]) -> bool {
    row.len() == numbers.len()
        && row.iter().zip(numbers.iter()).all(|(value, number)| compare(
            value,
            &Value::Int(*number),
        ).is_eq())
}

/// Returns whether exactly these rows are shown, in this order.
pub fn are_shown(shown: &ShownRows<'_>, rows: &[&[i64]]) -> bool {
    if shown.len() != rows.len() {
        return false;
    }
    for (i, numbers) in rows.iter().enumerate() {
        if !has_numbers(shown.row(i), numbers) {
            return false;
        }
    }
    true
}

/// Returns whether a row has exactly these numbers.
pub fn is_row_of(row: &Row, numbers: &[i64]) -> bool {
    row.values().len() == numbers.len()
        && row.values().iter().zip(numbers.iter()).all(|(value, number)| compare(
            value,
            &Value::Int(*number),
        ).is_eq())
}

/// Returns whether a row, read in place, has exactly these numbers.
pub fn is_view_of(row: RowView<'_>, numbers: &[i64]) -> bool {
    if row.len() != numbers.len() {
        return false;
    }
    for (i, number) in numbers.iter().enumerate() {
        if compare(&row.value(i), &Value::Int(*number)).is_ne() {
            return false;
        }
    }
    true
}
