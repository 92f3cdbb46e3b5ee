//! Columns as arrays of values, and their rows.
ghost use Rattle.std.specs.Prelude.{◌≡◌, ◌⊎◌, ◌<◌, ◌↔◌, Err, IfErr, IfOk, IsTrue, Ok, length};
ghost use Rattle.mm_session.specs.ColumnArrays.{AreColumns, AreOffsets, IsColumn, row_at, row_count, rows_in, value_at, value_count};
ghost use Rattle.mm_value.specs.declared.refusal.Refusal.TheVariants.{Memory};

use mm_value::{Few, Refusal, Text, Tuple, Value};
use std::alloc::Global;
use thiserror::Error;

/// The values of a column as arrays: numbers, or texts. The text at an index is the part of `bytes` from the offset at that index up to the
/// next offset, so `offsets` has one item more than there are texts. A column of texts has no numbers, and a column of numbers no offsets.
#[repr(C)]
#[derive(Clone, Copy)]
pub struct ColumnArray<'c> {
    /// The numbers.
    pub numbers: &'c [i64],
    /// The places in `bytes` where the texts begin and end, in bytes. They never decrease.
    pub offsets: &'c [u32],
    /// The bytes of the texts.
    pub bytes: &'c [u8],
}

/// Arrays are not columns of rows: their numbers of values differ, or one has numbers and offsets, or its offsets decrease or lie past the
/// end of its bytes. The session is unchanged.
#[derive(Clone, Copy, Debug, Drop, Error, PartialEq, Eq)]
#[error("the arrays are not columns of rows")]
pub struct NotColumns;

impl ColumnArray<'_> {
    /// Returns the number of values.
    fn len(&self) -> usize
        ensures { result ≡ value_count self.now }
    {
        if self.offsets.is_empty() {
            return self.numbers.len();
        }
        self.offsets.len() - 1
    }

    /// Returns whether the arrays are a column of `count` values.
    fn is_column(&self, count: usize) -> bool
        ensures { IsTrue result ↔ IsColumn count self.now }
    {
        if self.len() != count {
            return false;
        }
        if self.offsets.is_empty() {
            return true;
        }
        self.numbers.is_empty() && are_offsets(self.offsets, self.bytes.len())
    }

    /// Returns the value at an index. Fails with `TextTooLong` for a text of more than 64 bytes, with `Syntax` for a shorter text with a
    /// line feed, and with `Memory` if an allocation fails.
    fn value(&self, alloc: Global, at: usize) -> Result<Value, Refusal>
        requires { IsColumn (value_count self.now) self.now × (at < value_count self.now) }
        ensures ok { IfOk result (λ value. value_at self.now at ≡ Ok value) }
        ensures err { IfErr result (λ refusal. (value_at self.now at ≡ Err refusal) ⊎ (refusal ≡ Memory)) }
    {
        if self.offsets.is_empty() {
            return Ok(Value::Int(self.numbers[at]));
        }
        let start = self.offsets[at] as usize;
        let end = self.offsets[at + 1] as usize;
        Ok(Value::Text(Text::new(alloc, &self.bytes[start..end])?))
    }
}

/// Returns whether offsets never decrease and none is more than `length`.
fn are_offsets(offsets: &[u32], length: usize) -> bool
    ensures { IsTrue result ↔ AreOffsets length offsets.now }
{
    match offsets.last() {
        Some(last) => *last as usize <= length && offsets.is_sorted(),
        None => true,
    }
}

/// Returns the number of rows: that of the values of the first column.
fn row_count(columns: &[ColumnArray<'_>]) -> usize
    ensures { result ≡ row_count columns.now }
{
    match columns.first() {
        Some(column) => column.len(),
        None => 0,
    }
}

/// Returns whether arrays are columns of rows.
pub(crate) fn are_columns(columns: &[ColumnArray<'_>]) -> bool
    ensures { IsTrue result ↔ AreColumns columns.now }
{
    let count = row_count(columns);
    columns.iter().all(|column| column.is_column(count))
}

/// Returns the values of columns at an index. Fails as [`ColumnArray::value`] does, at the first column whose value is no value.
fn row(alloc: Global, columns: &[ColumnArray<'_>], at: usize) -> Result<Tuple, Refusal>
    requires { AreColumns columns.now × (at < row_count columns.now) }
    ensures ok { IfOk result (λ row. row_at columns.now at ≡ Ok row) }
    ensures err { IfErr result (λ refusal. (row_at columns.now at ≡ Err refusal) ⊎ (refusal ≡ Memory)) }
{
    let mut row = Tuple::with_capacity(alloc, columns.len())?;
    for column in columns {
        row.push(column.value(alloc, at)?)?;
    }
    Ok(row)
}

/// Returns the rows of columns. Fails as [`ColumnArray::value`] does, at the first row with a value that is no value.
pub(crate) fn rows(alloc: Global, columns: &[ColumnArray<'_>]) -> Result<Few<Tuple>, Refusal>
    requires { AreColumns columns.now }
    ensures ok { IfOk result (λ rows. rows_in columns.now ≡ Ok rows) }
    ensures err { IfErr result (λ refusal. (rows_in columns.now ≡ Err refusal) ⊎ (refusal ≡ Memory)) }
{
    let count = row_count(columns);
    let mut rows = Few::with_capacity(alloc, count)?;
    for at in 0..count {
        rows.push(alloc, row(alloc, columns, at)?)?;
    }
    Ok(rows)
}
