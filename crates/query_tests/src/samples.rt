//! Stores for tests.
ghost use Rattle.std.specs.Prelude.{◌≡◌, ◌<◌, length, IfOk};
ghost use Rattle.query_tests.specs.Sample.{IsSample};

use mm_schema::{IndexKind, Reference};
use mm_store::Store;
use mm_value::{ColType, Refusal};
use std::alloc::{AllocError, Global};
use store_tests::row_edits::insertions;

/// The types of the two columns of each table.
const TYPES: &[ColType] = &[ColType::Int, ColType::Int];

/// The values of the second table are keys of the first.
const VALUE_TO_KEY: Reference = Reference {
    from: 1,
    column: 1,
    to: 0,
};

/// The values in the rows of a table.
#[derive(Clone, Copy)]
pub enum Values {
    /// Equal to the keys.
    Keys,
    /// The keys from the greatest to the least, so that the values decrease as the keys increase.
    Falling,
    /// 1 in all rows.
    Ones,
}

/// Returns two tables of two columns without rows.
fn try_empty(alloc: Global) -> Result<Store, AllocError>
    ensures { IfOk result (λ store. length store.tables ≡ 2) }
{
    let mut store = Store::new(alloc);
    store.add_table(alloc, TYPES, 0, &[])?;
    store.add_table(alloc, TYPES, 0, &[])?;
    Ok(store)
}

/// Returns two tables of two columns without rows. Tries again once if an allocation fails.
pub fn empty(alloc: Global) -> Result<Store, AllocError>
    ensures { IfOk result (λ store. length store.tables ≡ 2) }
{
    match try_empty(alloc) {
        Ok(store) => Ok(store),
        Err(_) => try_empty(alloc),
    }
}

/// Returns the rows with the keys from 1 to `count` and these values.
fn rows_of(alloc: Global, count: u32, values: Values) -> Result<Vec<(i64, i64)>, AllocError> {
    let mut rows = Vec::with_capacity(alloc, count as usize)?;
    for earlier in 0..count {
        let key = i64::from(earlier) + 1;
        let value = match values {
            Values::Keys => key,
            Values::Falling => i64::from(count - earlier),
            Values::Ones => 1,
        };
        rows.push((key, value))?;
    }
    Ok(rows)
}

/// Inserts rows of a key and a value into a table. If this is refused, some of them may stay staged.
fn insert(
    store: &mut Store,
    alloc: Global,
    table: usize,
    rows: &[(i64, i64)],
) -> Result<(), Refusal>
    requires there { table < 2 }
    requires sample { IsSample store.old }
    ensures { IsSample store.new }
{
    let edits = insertions(store, alloc, table, rows)?;
    store.make(alloc, table, edits.as_slice())
}

/// Inserts rows with the keys from 1 to `count` and these values into a table, and then appends an index of this kind on the values.
fn fill(
    store: &mut Store,
    alloc: Global,
    table: usize,
    kind: IndexKind,
    count: u32,
    values: Values,
) -> Result<(), Refusal>
    requires there { table < 2 }
    requires sample { IsSample store.old }
    ensures { IsSample store.new }
{
    let rows = rows_of(alloc, count, values)?;
    insert(store, alloc, table, rows.as_slice())?;
    store.add_index(alloc, table, 1, kind)?;
    Ok(())
}

/// Returns two tables with these numbers of rows and these values, which have an index of this kind. The values of the second table refer
/// to keys of the first.
fn try_sample(
    alloc: Global,
    kind: IndexKind,
    counts: [u32; 2],
    values: Values,
) -> Result<Store, Refusal>
    ensures { IfOk result IsSample }
{
    let mut store = Store::new(alloc);
    store.add_table(alloc, TYPES, 0, &[])?;
    store.add_table(alloc, TYPES, 0, &[VALUE_TO_KEY])?;
    fill(&mut store, alloc, 0, kind, counts[0], values)?;
    fill(&mut store, alloc, 1, kind, counts[1], values)?;
    Ok(store)
}

/// Returns the sample of `try_sample`. Tries again once if an allocation fails.
pub fn sample(
    alloc: Global,
    kind: IndexKind,
    counts: [u32; 2],
    values: Values,
) -> Result<Store, Refusal>
    ensures { IfOk result IsSample }
{
    match try_sample(alloc, kind, counts, values) {
        Ok(store) => Ok(store),
        Err(_) => try_sample(alloc, kind, counts, values),
    }
}
