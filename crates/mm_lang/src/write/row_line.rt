//! Buffered lines of rows.
ghost use Rattle.std.specs.Prelude.{◌≡◌, ◌<◌, [], ◌∷◌, ◌++◌, OnOk, codes, decimal, false, length, map};
ghost use Rattle.mm_lang.specs.Buffered.{WritesBuffered};
ghost use Rattle.mm_value.specs.Device.{Writes};
ghost use Rattle.mm_value.specs.Literal.{doubled, quoted};
ghost use Rattle.mm_value.specs.Views.{value_of};
ghost use Rattle.mm_value.specs.Watched.{has_failed};
ghost use Rattle.mm_value.specs.Written.{row_text, value_text, values_text};

use crate::write::reply_text::write_row_count;
use crate::write::value_row::ValueRow;
use arrayvec::ArrayVec;
use bstr::ByteSlice;
use itoa::Buffer;
use mm_value::{AsRow, Value, ValueRef, Watched, WriteError, put_all};
use std::io::Write;
use std::marker::Model;

/// The maximum number of buffered bytes.
const MAX_BUFFERED_BYTES: usize = 512;

type BufferedBytes = ArrayVec<u8, MAX_BUFFERED_BYTES>;

/// Lines of rows, buffered up to 512 bytes, so that a writer is called once for many rows. The model is the buffered bytes.
#[derive(Drop)]
pub struct RowLines {
    buffered: BufferedBytes,
}

impl Model for RowLines {
    ghost use Rattle.std.specs.Prelude.{List, ℕ};

    ghost Value = { List ℕ };

    ghost view = { λ lines. lines.buffered.items };
}

impl RowLines {
    /// Returns an empty buffer.
    pub fn new() -> RowLines
        ensures { result ≡ [] }
    {
        RowLines {
            buffered: ArrayVec::new(),
        }
    }

    /// Appends the line of a row. If a piece of the line does not fit into the buffer, the buffered bytes are written first. Allocates
    /// nothing. After `WriteError` the writer has failed, and a prefix of the buffered lines and the new one was written.
    pub fn add_row<R: AsRow, W: Write>(
        &mut self,
        row: &R,
        writer: &mut Watched<W>,
    ) -> Result<(), WriteError>
        requires { has_failed writer.old ≡ false }
        ensures { WritesBuffered W.contents writer.old self.old writer.new self.new result (row_text (R.AsRow.row row.now) ++ 10 ∷ []) }
    {
        self.put(b"(", writer)?;
        self.put_values(row, writer)?;
        self.put(b")\n", writer)
    }

    /// Appends the line of a row as [`RowLines::add_row`] does, from references to its values.
    pub fn add_tuple<W: Write>(
        &mut self,
        values: &[ValueRef<'_>],
        writer: &mut Watched<W>,
    ) -> Result<(), WriteError>
        requires { has_failed writer.old ≡ false }
        ensures { WritesBuffered W.contents writer.old self.old writer.new self.new result (row_text (map value_of values.now) ++ 10 ∷ []) }
    {
        self.add_row(&ValueRow { values }, writer)
    }

    /// Appends the line of a row as [`RowLines::add_row`] does, from its values.
    pub(crate) fn add_values<W: Write>(
        &mut self,
        values: &[Value],
        writer: &mut Watched<W>,
    ) -> Result<(), WriteError>
        requires { has_failed writer.old ≡ false }
        ensures { WritesBuffered W.contents writer.old self.old writer.new self.new result (row_text values.now ++ 10 ∷ []) }
    {
        self.add_row(&ValueRow { values }, writer)
    }

    /// Writes the buffered lines, and then a line with the number of rows. Allocates nothing. After `WriteError` the writer has failed, and
    /// a prefix of these lines was written.
    pub fn finish<W: Write>(
        mut self,
        count: usize,
        writer: &mut Watched<W>,
    ) -> Result<(), WriteError>
        requires { has_failed writer.old ≡ false }
        ensures { Writes W.contents writer.old writer.new result (self ++ (codes "rows " ++ decimal count ++ 10 ∷ [])) }
    {
        self.write_out(writer)?;
        write_row_count(count, writer)
    }

    /// Writes the buffered bytes, and clears the buffer.
    fn write_out<W: Write>(&mut self, writer: &mut Watched<W>) -> Result<(), WriteError>
        requires { has_failed writer.old ≡ false }
        ensures written { Writes W.contents writer.old writer.new result self.old }
        ensures empty { OnOk result (self.new ≡ []) }
    {
        put_all(writer, self.buffered.as_slice())?;
        self.buffered.clear();
        Ok(())
    }

    /// Buffers bytes. If they do not fit, the buffered bytes are written first.
    #[inline(always)]
    fn put<W: Write>(&mut self, bytes: &[u8], writer: &mut Watched<W>) -> Result<(), WriteError>
        requires { has_failed writer.old ≡ false }
        ensures { WritesBuffered W.contents writer.old self.old writer.new self.new result bytes.now }
    {
        if self.buffered.try_extend_from_slice(bytes).is_ok() {
            return Ok(());
        }
        self.put_past(bytes, writer)
    }

    /// Writes the buffered bytes. Then buffers the new bytes, or writes them if they are longer than the buffer.
    fn put_past<W: Write>(
        &mut self,
        bytes: &[u8],
        writer: &mut Watched<W>,
    ) -> Result<(), WriteError>
        requires { has_failed writer.old ≡ false }
        ensures { WritesBuffered W.contents writer.old self.old writer.new self.new result bytes.now }
    {
        self.write_out(writer)?;
        if self.buffered.try_extend_from_slice(bytes).is_ok() {
            return Ok(());
        }
        put_all(writer, bytes)
    }

    /// Buffers the values of a row, separated by a comma and a space.
    fn put_values<R: AsRow, W: Write>(
        &mut self,
        row: &R,
        writer: &mut Watched<W>,
    ) -> Result<(), WriteError>
        requires { has_failed writer.old ≡ false }
        ensures { WritesBuffered W.contents writer.old self.old writer.new self.new result (values_text (R.AsRow.row row.now)) }
    {
        if row.len() == 0 {
            return Ok(());
        }
        self.put_value(row.value(0), writer)?;
        for i in 1..row.len() {
            self.put_next(row.value(i), writer)?;
        }
        Ok(())
    }

    /// Buffers a comma, a space and a value.
    fn put_next<W: Write>(
        &mut self,
        value: ValueRef<'_>,
        writer: &mut Watched<W>,
    ) -> Result<(), WriteError>
        requires { has_failed writer.old ≡ false }
        ensures { WritesBuffered W.contents writer.old self.old writer.new self.new result (44 ∷ 32 ∷ value_text (value_of value.entry)) }
    {
        self.put(b", ", writer)?;
        self.put_value(value, writer)
    }

    /// Buffers a value.
    fn put_value<W: Write>(
        &mut self,
        value: ValueRef<'_>,
        writer: &mut Watched<W>,
    ) -> Result<(), WriteError>
        requires { has_failed writer.old ≡ false }
        ensures { WritesBuffered W.contents writer.old self.old writer.new self.new result (value_text (value_of value.entry)) }
    {
        match value {
            ValueRef::Int(number) => {
                let mut buffer = Buffer::new();
                self.put(buffer.format(number).as_bytes(), writer)
            }
            ValueRef::Text(text) => self.put_quoted(text.bytes(), writer),
        }
    }

    /// Buffers a text between quotes, with each quote in it doubled.
    fn put_quoted<W: Write>(
        &mut self,
        text: &[u8],
        writer: &mut Watched<W>,
    ) -> Result<(), WriteError>
        requires { has_failed writer.old ≡ false }
        ensures { WritesBuffered W.contents writer.old self.old writer.new self.new result (quoted text.now) }
    {
        self.put(b"'", writer)?;
        self.put_doubled(text, writer)?;
        self.put(b"'", writer)
    }

    /// Buffers a text with each quote in it doubled, piece by piece from quote to quote.
    fn put_doubled<W: Write>(
        &mut self,
        text: &[u8],
        writer: &mut Watched<W>,
    ) -> Result<(), WriteError>
        requires { has_failed writer.old ≡ false }
        ensures { WritesBuffered W.contents writer.old self.old writer.new self.new result (doubled text.now) }
    {
        let mut rest = text;
        while let Some(quote) = rest.find_byte(b'\'') {
            let (piece, others) = rest.split_at(quote);
            self.put_to_quote(piece, writer)?;
            rest = &others[1..];
        }
        self.put(rest, writer)
    }

    /// Buffers a piece that ends before a quote, and that quote doubled.
    fn put_to_quote<W: Write>(
        &mut self,
        piece: &[u8],
        writer: &mut Watched<W>,
    ) -> Result<(), WriteError>
        requires { has_failed writer.old ≡ false }
        ensures { WritesBuffered W.contents writer.old self.old writer.new self.new result (piece.now ++ 39 ∷ 39 ∷ []) }
    {
        self.put(piece, writer)?;
        self.put(b"''", writer)
    }
}

/// Writes a row without a line feed. Allocates nothing. After `WriteError` the writer has failed, and a prefix of the row's text was
/// written.
pub fn write_row<R: AsRow, W: Write>(row: &R, writer: &mut Watched<W>) -> Result<(), WriteError>
    requires { has_failed writer.old ≡ false }
    ensures { Writes W.contents writer.old writer.new result (row_text (R.AsRow.row row.now)) }
{
    let mut line = RowLines::new();
    line.put(b"(", writer)?;
    line.put_values(row, writer)?;
    line.put(b")", writer)?;
    line.write_out(writer)
}

/// Writes a value as a literal.
pub(crate) fn write_literal<W: Write>(
    value: &Value,
    writer: &mut Watched<W>,
) -> Result<(), WriteError>
    requires { has_failed writer.old ≡ false }
    ensures { Writes W.contents writer.old writer.new result (value_text value.now) }
{
    let mut line = RowLines::new();
    line.put_value(value.as_ref(), writer)?;
    line.write_out(writer)
}
