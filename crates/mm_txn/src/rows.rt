//! Rows of an answer, read in place.
ghost use Rattle.std.specs.Prelude.{◌≡◌, ◌++◌, OnErr, OnOk, length, map, take};
ghost use Rattle.mm_partition.specs.Views.{viewed};
ghost use Rattle.mm_txn.specs.Sources.{rows_to_read};
ghost use Rattle.mm_value.specs.Views.{value_of};

use mm_partition::RowView;
use mm_query::RowBuffer;
use mm_store::{StoredRows, TableRows};
use mm_templist::ShownRows;
use mm_value::ValueRef;
use std::alloc::{AllocError, Global};
use std::marker::Model;

/// Where rows are stored.
#[derive(Drop)]
enum Source<'a> {
    /// In a table.
    Stored(TableRows<'a>),
    /// In the result of a query or in the list of a standing query, as references to their values.
    Shown(ShownRows<'a>),
}

/// The rows of an answer, as their list. None is copied: a [`RowReader`] reads them in place.
#[derive(Drop)]
pub struct Rows<'a> {
    source: Source<'a>,
}

impl<'a> Model for Rows<'a> {
    ghost use Rattle.std.specs.Prelude.{List};
    ghost use Rattle.mm_value.specs.declared.values.Value.{Value as Val};
    ghost use Rattle.mm_txn.specs.Sources.{source_rows};

    ghost Value = { List (List Val) };

    ghost view = { λ r. source_rows r.source };
}

impl<'a> Rows<'a> {
    /// Returns the rows of a table, in their order.
    pub(crate) fn stored(rows: TableRows<'a>) -> Rows<'a>
        ensures { result ≡ rows.entry }
    {
        Rows {
            source: Source::Stored(rows),
        }
    }

    /// Returns the rows of the result of a query or of a standing query.
    pub(crate) fn shown(rows: ShownRows<'a>) -> Rows<'a>
        ensures { result ≡ rows.entry }
    {
        Rows {
            source: Source::Shown(rows),
        }
    }

    /// Returns the number of rows.
    pub fn len(&self) -> usize
        ensures { result ≡ length self.now }
    {
        match &self.source {
            Source::Stored(rows) => rows.len(),
            Source::Shown(rows) => rows.len(),
        }
    }

    /// Appends copies of the rows, in their order, to a buffer. Fails with `AllocError` if an allocation fails; then some of the rows may
    /// have been appended, and the rows before them are unchanged.
    pub fn copy_into(&self, alloc: Global, buffer: &mut RowBuffer) -> Result<(), AllocError>
        ensures ok { OnOk result (buffer.new ≡ buffer.old ++ self.now) }
        ensures err { OnErr result (take (length buffer.old) buffer.new ≡ buffer.old) }
    {
        match &self.source {
            Source::Stored(rows) => copy_stored(alloc, rows.reader(), buffer),
            Source::Shown(rows) => rows.copy_into(alloc, buffer),
        }
    }

    /// Returns a reader of the rows, from the first one on.
    pub fn reader(&self) -> RowReader<'_>
        ensures { rows_to_read result ≡ self.now }
    {
        match &self.source {
            Source::Stored(rows) => RowReader::Stored(rows.reader()),
            Source::Shown(rows) => RowReader::Shown(rows),
        }
    }
}

/// Reads rows in place.
#[derive(Drop)]
pub enum RowReader<'a> {
    /// Rows of a table.
    Stored(StoredRows<'a>),
    /// Rows of the result of a query or of a standing query, as references to their values.
    Shown(&'a ShownRows<'a>),
}

/// Appends copies of the unread rows of a table to a buffer. Fails with `AllocError` if an allocation fails; then some of them may have
/// been appended.
fn copy_stored(
    alloc: Global,
    mut rows: StoredRows<'_>,
    buffer: &mut RowBuffer,
) -> Result<(), AllocError>
    ensures ok { OnOk result (buffer.new ≡ buffer.old ++ rows.entry) }
    ensures err { OnErr result (take (length buffer.old) buffer.new ≡ buffer.old) }
{
    let mut values = Vec::new(alloc);
    while let Some(row) = rows.next() {
        read_values(row, &mut values)?;
        buffer.push(alloc, values.as_slice())?;
    }
    Ok(())
}

/// Replaces `values` by references to the values of a row. Fails with `AllocError` if an allocation fails.
fn read_values<'s>(row: RowView<'s>, values: &mut Vec<ValueRef<'s>>) -> Result<(), AllocError>
    ensures { OnOk result (map value_of values.new.items ≡ viewed row.entry) }
{
    values.clear();
    for i in 0..row.len() {
        values.push(row.value(i))?;
    }
    Ok(())
}
