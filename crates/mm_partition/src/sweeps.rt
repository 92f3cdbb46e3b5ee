//! Changes of one slot in all columns.
ghost use Rattle.std.specs.Prelude.{◌≡◌, ◌≢◌, ◌+◌, ◌<◌, ◌≤◌, ℕ, OnOk, All, length};
ghost use Rattle.mm_partition.specs.Cells.{types_of, row_of, Fits, IsEmptied, RowsExchanged, size_of};
ghost use Rattle.mm_partition.specs.Types.{HasTypes};

use crate::columns::Column;
use mm_value::Value;
use std::alloc::AllocError;

/// Reserves capacity for at least `n` more slots in each column. Fails with `AllocError` if an allocation fails. The cells are unchanged in
/// any case.
pub fn reserve_each(columns: &mut Vec<Column>, n: usize) -> Result<(), AllocError>
    ensures types { types_of columns.new.items ≡ types_of columns.old.items }
    ensures rows { (k : ℕ) → row_of columns.new.items k ≡ row_of columns.old.items k }
    ensures stays { (size spare : ℕ) → All (Fits size spare) columns.old.items → All (Fits size spare) columns.new.items }
    ensures room { OnOk result ((size spare : ℕ)
        → All (Fits size spare) columns.old.items → All (Fits size n) columns.new.items) }
{
    for i in 0..columns.len() {
        columns[i].reserve(n)?;
    }
    Ok(())
}

/// Appends a slot with this index, and moves these values there.
pub fn push_each(columns: &mut Vec<Column>, index: usize, values: &mut [Value])
    requires room { All (Fits index 1) columns.old.items }
    requires typed { HasTypes (types_of columns.old.items) values.old }
    ensures types { types_of columns.new.items ≡ types_of columns.old.items }
    ensures here { row_of columns.new.items index ≡ values.old }
    ensures others { (k : ℕ) → k ≢ index → row_of columns.new.items k ≡ row_of columns.old.items k }
    ensures fits { (spare : ℕ) → All (Fits index (spare + 1)) columns.old.items → All (Fits (index + 1) spare) columns.new.items }
{
    for i in 0..columns.len() {
        columns[i].push(&mut values[i]);
    }
}

/// Exchanges the values in a slot with these values.
pub fn swap_each(columns: &mut Vec<Column>, index: usize, values: &mut [Value])
    requires within { All (λ c. index < size_of c) columns.old.items }
    requires typed { HasTypes (types_of columns.old.items) values.old }
    ensures types { types_of columns.new.items ≡ types_of columns.old.items }
    ensures here { row_of columns.new.items index ≡ values.old }
    ensures others { (k : ℕ) → k ≢ index → row_of columns.new.items k ≡ row_of columns.old.items k }
    ensures fits { (size spare : ℕ) → All (Fits size spare) columns.old.items → All (Fits size spare) columns.new.items }
    ensures values { values.new ≡ row_of columns.old.items index }
{
    for i in 0..columns.len() {
        columns[i].swap(index, &mut values[i]);
    }
}

/// Exchanges the values in two slots.
pub fn exchange_each(columns: &mut Vec<Column>, a: usize, b: usize)
    requires a { All (λ c. a < size_of c) columns.old.items }
    requires b { All (λ c. b < size_of c) columns.old.items }
    ensures types { types_of columns.new.items ≡ types_of columns.old.items }
    ensures cells { RowsExchanged columns.old.items columns.new.items a b }
    ensures fits { (size spare : ℕ) → All (Fits size spare) columns.old.items → All (Fits size spare) columns.new.items }
{
    for i in 0..columns.len() {
        columns[i].exchange(a, b);
    }
}

/// Drops the texts of a slot: its text cells become empty.
pub fn clear_each(columns: &mut Vec<Column>, index: usize)
    requires { All (λ c. index < size_of c) columns.old.items }
    ensures types { types_of columns.new.items ≡ types_of columns.old.items }
    ensures emptied { All (λ c. IsEmptied c index) columns.new.items }
    ensures others { (k : ℕ) → k ≢ index → row_of columns.new.items k ≡ row_of columns.old.items k }
    ensures fits { (size spare : ℕ) → All (Fits size spare) columns.old.items → All (Fits size spare) columns.new.items }
{
    for i in 0..columns.len() {
        columns[i].clear(index);
    }
}

/// Removes the slots from index `n` on in each column, and frees excess capacity.
pub fn truncate_each(columns: &mut Vec<Column>, n: usize)
    requires { All (λ c. n ≤ size_of c) columns.old.items }
    ensures types { types_of columns.new.items ≡ types_of columns.old.items }
    ensures rows { (k : ℕ) → k < n → row_of columns.new.items k ≡ row_of columns.old.items k }
    ensures fits { All (Fits n 0) columns.new.items }
{
    for i in 0..columns.len() {
        columns[i].truncate(n);
    }
}
