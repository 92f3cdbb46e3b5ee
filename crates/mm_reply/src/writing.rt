//! Writers as sinks of replies.
ghost use Rattle.std.specs.Prelude.{◌≡◌, Some, false, is_err, length};
ghost use Rattle.std.specs.Io.KnownBytes.{Keeps};
ghost use Rattle.mm_lang.specs.ReplyText.{rows_text};
ghost use Rattle.mm_query.specs.declared.reply.Reply.TheVariants.{Rows as RowReply};
ghost use Rattle.mm_reply.specs.Writing.{WritesReply};
ghost use Rattle.mm_value.specs.Device.{Writes};
ghost use Rattle.mm_value.specs.Watched.{has_failed, inner_of};

use crate::sink::ReplySink;
use mm_lang::{RowLines, write_reply};
use mm_query::{Bound, Reply};
use mm_txn::{Db, RowReader, Rows, ShownRows, StoredRows};
use mm_value::{Watched, WriteError};
use std::alloc::Global;
use std::io::Write;

/// A writer writes the text of each reply and is flushed, and returns whether the reply is an `error`. Fails with `WriteError` if the writer
/// fails.
impl<W: Write> ReplySink for Watched<W> {
    type Taken = Result<bool, WriteError>;

    ghost can_take = { λ writer. has_failed writer ≡ false };

    ghost takes = { λ old new reply result. WritesReply W.contents old new reply result };

    fn take(&mut self, reply: Option<Reply>) -> Result<bool, WriteError> {
        match &reply {
            Some(reply) => send(reply, self),
            None => Ok(false),
        }
    }

    fn take_rows(&mut self, _alloc: Global, rows: &Rows<'_>) -> Result<bool, WriteError> {
        send_rows(rows, self)
    }

    fn take_selected(
        &mut self,
        alloc: Global,
        database: &Db,
        bound: &Bound,
    ) -> Result<bool, WriteError> {
        let mut reads = 0;
        match database.select_bound(alloc, bound, &mut reads) {
            Ok(rows) => send_shown(&rows, self),
            Err(refusal) => send(&Reply::Refused(refusal), self),
        }
    }
}

/// Writes a reply and flushes the writer, and returns whether the reply is an `error`.
fn send<W: Write>(reply: &Reply, writer: &mut Watched<W>) -> Result<bool, WriteError>
    requires { has_failed writer.old ≡ false }
    ensures { WritesReply W.contents writer.old writer.new (Some reply.now) result }
{
    write_reply(reply, writer)?;
    flush(writer)?;
    Ok(matches!(reply, Reply::Refused(_)))
}

/// Writes the reply of rows and flushes the writer. The reply is no `error`.
fn send_rows<W: Write>(rows: &Rows<'_>, writer: &mut Watched<W>) -> Result<bool, WriteError>
    requires { has_failed writer.old ≡ false }
    ensures { WritesReply W.contents writer.old writer.new (Some (RowReply rows.now)) result }
{
    write_rows(rows, writer)?;
    flush(writer)?;
    Ok(false)
}

/// Writes the reply of rows that are shown and flushes the writer. The reply is no `error`.
fn send_shown<W: Write>(rows: &ShownRows<'_>, writer: &mut Watched<W>) -> Result<bool, WriteError>
    requires { has_failed writer.old ≡ false }
    ensures { WritesReply W.contents writer.old writer.new (Some (RowReply rows.now)) result }
{
    write_shown(rows, writer)?;
    flush(writer)?;
    Ok(false)
}

/// Writes the lines of rows, and their number.
fn write_rows<W: Write>(rows: &Rows<'_>, writer: &mut Watched<W>) -> Result<(), WriteError>
    requires { has_failed writer.old ≡ false }
    ensures { Writes W.contents writer.old writer.new result (rows_text rows.now) }
{
    match rows.reader() {
        RowReader::Stored(stored) => write_stored(stored, rows.len(), writer),
        RowReader::Shown(shown) => write_shown(shown, writer),
    }
}

/// Writes the lines of rows of a table, and their number.
fn write_stored<W: Write>(
    mut rows: StoredRows<'_>,
    count: usize,
    writer: &mut Watched<W>,
) -> Result<(), WriteError>
    requires unfailed { has_failed writer.old ≡ false }
    requires counted { count ≡ length rows }
    ensures { Writes W.contents writer.old writer.new result (rows_text rows.entry) }
{
    let mut lines = RowLines::new();
    while let Some(row) = rows.next() {
        lines.add_row(&row, writer)?;
    }
    lines.finish(count, writer)
}

/// Writes the lines of rows that are shown, and their number.
fn write_shown<W: Write>(rows: &ShownRows<'_>, writer: &mut Watched<W>) -> Result<(), WriteError>
    requires { has_failed writer.old ≡ false }
    ensures { Writes W.contents writer.old writer.new result (rows_text rows.now) }
{
    let mut lines = RowLines::new();
    for i in 0..rows.len() {
        lines.add_tuple(rows.row(i), writer)?;
    }
    lines.finish(rows.len(), writer)
}

/// Flushes a writer.
fn flush<W: Write>(writer: &mut Watched<W>) -> Result<(), WriteError>
    ensures kept { Keeps (W.contents (inner_of writer.old)) (W.contents (inner_of writer.new)) }
    ensures failed { has_failed writer.new ≡ is_err result }
{
    match writer.flush() {
        Ok(()) => Ok(()),
        Err(_) => Err(WriteError),
    }
}
