//! Invariants of each table, and the number of its rows.
ghost use Rattle.std.specs.Prelude.{◌≡◌, ◌+◌, ◌<◌, ◌≤◌, length, map, nat_lt, IfOk};
ghost use Rattle.mm_schema.specs.Rows.{most_rows};
ghost use Rattle.mm_indexed.specs.Twins.{AreApart};
ghost use Rattle.mm_indexed.specs.RowLists.{rows_of};
ghost use Rattle.mm_partition.specs.Places.{extent_of, slot_at};
ghost use Rattle.mm_tables.specs.Tables.{HoldsAt, extent_in, key_in, keys_of, shape_of, slots_in, state_of};
ghost use Rattle.mm_base.specs.Bases.{AreLawful, IsWhole};
ghost use Rattle.mm_base.specs.Joined.{types_at};
ghost use Rattle.mm_base.specs.Orphans.{rows_at};
ghost use Rattle.mm_base.specs.RowLists.{rows_in, AreSmall};

use mm_indexed::IndexedRows;
use mm_schema::MAX_ROWS;
use mm_tables::Tables;
use std::alloc::AllocError;

/// Lemma: the rows of a table have the types of its columns and values that a program can have, and its indexes contain exactly their
/// references. The call does nothing.
pub fn is_whole(rows: &IndexedRows)
    ensures { IsWhole rows.now }
{
    rows.is_kept();
    rows.are_storable();
    rows.are_references_small();
}

/// Returns the rows of a table with their indexes.
pub fn read(tables: &Tables, table: usize) -> &IndexedRows
    requires { table < length tables.now.tables }
    ensures table { HoldsAt (λ x. result.now ≡ x.rows) tables.now.tables table }
    ensures slots { slot_at result.now.places ≡ slots_in tables.now.tables table }
    ensures key { result.now.key ≡ key_in tables.now.tables table }
    ensures types { result.now.places.types ≡ types_at (map shape_of tables.now.tables) table }
    ensures extent { extent_of result.now.places ≡ extent_in tables.now.tables table }
{
    tables.table(table)
}

/// Returns the number of slots of a table after `rows` new rows, each in a new slot. Fails with `AllocError` if this number overflows.
pub fn slots_with(tables: &Tables, table: usize, rows: usize) -> Result<usize, AllocError>
    requires { table < length tables.now.tables }
    ensures { IfOk result (λ slots. slots ≡ extent_in tables.now.tables table + rows) }
{
    let extent = read(tables, table).extent();
    extent.checked_add(rows).ok_or(AllocError)
}

/// Returns the rows of a lawful table. In the order of the key they are `rows_at`.
pub fn lawful_rows(tables: &Tables, table: usize) -> &IndexedRows
    requires within { table < length tables.now.tables }
    requires lawful { AreLawful (keys_of tables.now.tables) (state_of tables.now.tables) }
    ensures table { HoldsAt (λ x. result.now ≡ x.rows) tables.now.tables table }
    ensures whole { IsWhole result.now }
    ensures slots { slot_at result.now.places ≡ slots_in tables.now.tables table }
    ensures key { result.now.key ≡ key_in tables.now.tables table }
    ensures rows { rows_of result.now ≡ rows_at tables.now.tables table }
    ensures few { length result.now.refs ≤ most_rows }
{
    let rows = read(tables, table);
    is_whole(rows);
    rows
}

/// Lemma: a lawful table has at most 1,048,576 rows. The call does nothing.
pub fn are_few(tables: &Tables, table: usize)
    requires within { table < length tables.now.tables }
    requires lawful { AreLawful (keys_of tables.now.tables) (state_of tables.now.tables) }
    ensures { HoldsAt (λ x. length x.rows.refs ≤ most_rows) tables.now.tables table }
{
    lawful_rows(tables, table);
}

/// Lemma: the slot of each row in use of a table is below 2^32 - 1. The call does nothing.
pub fn are_small(tables: &Tables, table: usize)
    requires { table < length tables.now.tables }
    ensures { AreSmall (slots_in tables.now.tables table) }
{
    is_whole(tables.table(table));
}

/// Returns whether a table has more than 1,048,576 rows.
pub fn has_too_many(tables: &Tables, table: usize) -> bool
    requires within { table < length tables.now.tables }
    requires apart { AreApart (key_in tables.now.tables table) (slots_in tables.now.tables table) }
    ensures { result ≡ nat_lt most_rows (length (rows_in (key_in tables.now.tables table) (slots_in tables.now.tables table))) }
{
    let rows = tables.table(table);
    is_whole(rows);
    rows.len() > MAX_ROWS
}
