//! The lines that insert the rows of a table.
ghost use Rattle.std.specs.Prelude.{◌≡◌, ◌≤◌, ◌+◌, ◌==◌, ◌++◌, ◌∷◌, [], OnOk, codes, count_by, false, length, min};
ghost use Rattle.mm_value.specs.Device.{Writes};
ghost use Rattle.mm_value.specs.Literal.{quoted};
ghost use Rattle.mm_value.specs.Views.{value_of};
ghost use Rattle.mm_value.specs.Watched.{has_failed};
ghost use Rattle.mm_value.specs.Written.{row_text, value_text};
ghost use Rattle.mm_dump.specs.Inserts.{has_room, line_end, put_text, table_of, used_after, used_bytes};
ghost use Rattle.mm_dump.specs.Texts.{insert_text};

use crate::open_line::{MAX_COUNTED_BYTES, OpenLine};
use itoa::Buffer;
use mm_lang::write_row;
use mm_schema::{Name, NameRef};
use mm_value::{AsRow, ValueRef, Watched, WriteError, put_all};
use std::io::Write;

/// The INSERT lines of the rows of one table. Several rows share a line if it has at most 4,096 bytes. The writer keeps no row.
#[derive(Drop)]
pub struct InsertLines<'t> {
    table: NameRef<'t>,
    line: OpenLine,
}

impl<'t> InsertLines<'t> {
    /// Returns a writer with no open line.
    pub fn new(table: &'t Name) -> InsertLines<'t>
        ensures table { table_of result ≡ table.now }
        ensures used { used_bytes result ≡ 0 }
    {
        InsertLines {
            table: table.as_ref(),
            line: OpenLine::of(0),
        }
    }

    /// Writes a row: after a comma in the open line if the row fits there, and otherwise in a new line. Allocates nothing. After
    /// `WriteError` the writer has failed, and a prefix of this was written.
    pub fn add_row<R: AsRow, W: Write>(
        &mut self,
        row: &R,
        writer: &mut Watched<W>,
    ) -> Result<(), WriteError>
        requires { has_failed writer.old ≡ false }
        ensures table { table_of self.new ≡ table_of self.old }
        ensures used { OnOk result (used_bytes self.new ≡ used_after (table_of self.old) (used_bytes self.old) (R.AsRow.row row.now)) }
        ensures written { Writes W.contents writer.old writer.new result (put_text (table_of self.old) (used_bytes self.old) (R.AsRow.row row.now)) }
    {
        let len = row_len(row);
        if self.line.has_room(len) {
            self.join_line(row, len, writer)
        } else {
            self.begin_line(row, len, writer)
        }
    }

    /// Returns whether a line is open and the row fits into it.
    pub fn has_room<R: AsRow>(&self, row: &R) -> bool
        ensures { result ≡ has_room (used_bytes self.now) (R.AsRow.row row.now) }
    {
        self.line.has_room(row_len(row))
    }

    /// Writes the end of the open line, if a line is open. Allocates nothing. After `WriteError` the writer has failed.
    pub fn finish<W: Write>(self, writer: &mut Watched<W>) -> Result<(), WriteError>
        requires { has_failed writer.old ≡ false }
        ensures { Writes W.contents writer.old writer.new result (line_end (used_bytes self.entry)) }
    {
        write_line_end(&self.line, writer)
    }

    // Writes a row of `len` bytes in the open line.
    fn join_line<R: AsRow, W: Write>(
        &mut self,
        row: &R,
        len: usize,
        writer: &mut Watched<W>,
    ) -> Result<(), WriteError>
        requires failed { has_failed writer.old ≡ false }
        requires room { used_bytes self.old + len + 2 ≤ 4096 }
        ensures table { table_of self.new ≡ table_of self.old }
        ensures used { OnOk result (used_bytes self.new ≡ used_bytes self.old + len + 2) }
        ensures written { Writes W.contents writer.old writer.new result (codes ", " ++ row_text (R.AsRow.row row.now)) }
    {
        write_next_row(row, writer)?;
        self.line.count_row(len);
        Ok(())
    }

    // Ends the open line, and writes a row of `len` bytes in a new one.
    fn begin_line<R: AsRow, W: Write>(
        &mut self,
        row: &R,
        len: usize,
        writer: &mut Watched<W>,
    ) -> Result<(), WriteError>
        requires failed { has_failed writer.old ≡ false }
        requires counted { len ≤ 4097 }
        ensures table { table_of self.new ≡ table_of self.old }
        ensures used { OnOk result (used_bytes self.new ≡ min (length (table_of self.old) + 8 + len) 4097) }
        ensures written { Writes W.contents writer.old writer.new result
            (line_end (used_bytes self.old) ++ insert_text (table_of self.old) (R.AsRow.row row.now ∷ [])) }
    {
        write_line_end(&self.line, writer)?;
        write_insert(self.table.bytes(), row, writer)?;
        let used = self.table.bytes().len() + 8 + len;
        self.line = OpenLine::of(used.min(MAX_COUNTED_BYTES));
        Ok(())
    }
}

// Writes the end of the line, if it is open.
fn write_line_end<W: Write>(line: &OpenLine, writer: &mut Watched<W>) -> Result<(), WriteError>
    requires { has_failed writer.old ≡ false }
    ensures { Writes W.contents writer.old writer.new result (line_end line.now) }
{
    let end: &[u8] = if line.is_open() { b"\n" } else { b"" };
    put_all(writer, end)
}

// Writes a row after another one.
fn write_next_row<R: AsRow, W: Write>(row: &R, writer: &mut Watched<W>) -> Result<(), WriteError>
    requires { has_failed writer.old ≡ false }
    ensures { Writes W.contents writer.old writer.new result (codes ", " ++ row_text (R.AsRow.row row.now)) }
{
    put_all(writer, b", ")?;
    write_row(row, writer)
}

// Writes an INSERT of one row.
fn write_insert<R: AsRow, W: Write>(
    table: &[u8],
    row: &R,
    writer: &mut Watched<W>,
) -> Result<(), WriteError>
    requires { has_failed writer.old ≡ false }
    ensures { Writes W.contents writer.old writer.new result (insert_text table.now (R.AsRow.row row.now ∷ [])) }
{
    put_all(writer, b"INSERT ")?;
    put_all(writer, table)?;
    put_all(writer, b" ")?;
    write_row(row, writer)
}

// Returns the number of bytes of a row, or 4,097 if it has more.
fn row_len<R: AsRow>(row: &R) -> usize
    ensures { result ≡ min (length (row_text (R.AsRow.row row.now))) 4097 }
{
    if row.len() == 0 {
        return 2;
    }
    let mut len = 0;
    for i in 0..row.len() {
        len = MAX_COUNTED_BYTES.min(len + value_len(row.value(i)) + 2);
    }
    len
}

// Returns the number of bytes of a value.
fn value_len(value: ValueRef<'_>) -> usize
    ensures len { result ≡ length (value_text (value_of value.entry)) }
    ensures bound { result ≤ 130 }
{
    match value {
        ValueRef::Int(number) => {
            let mut buffer = Buffer::new();
            buffer.format(number).len()
        }
        ValueRef::Text(text) => quoted_len(text.bytes()),
    }
}

// Returns the number of bytes of a text in quotes, with each quote in it doubled.
#[tactic(auto, using(crate::proofs::Lengths::length_of_quoted, crate::proofs::Lengths::quoted_bound))]
fn quoted_len(bytes: &[u8]) -> usize
    requires { length bytes.now ≤ 64 }
    ensures len { result ≡ length (quoted bytes.now) }
    ensures bound { result ≤ 130 }
{
    bytes.len() + count_quotes(bytes) + 2
}

fn count_quotes(bytes: &[u8]) -> usize
    ensures { result ≡ count_by (λ b. b == 39) bytes.now }
{
    bytes.iter().filter(|b| **b == b'\'').count()
}
