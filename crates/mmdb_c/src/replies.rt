//! Reading a reply: its rows, their number, and its text.
ghost use Rattle.std.specs.Prelude.{◌≡◌, ◌+◌, ◌^◌, ◌<◌, ◌≤◌, Some, IfSome, IfNone, OnSome, length, slice_get, false};
ghost use Rattle.mm_lang.specs.ReplyText.{text_of};
ghost use Rattle.mm_session.specs.Replies.{reply_lent};
ghost use Rattle.mm_value.specs.Device.{Writes};
ghost use Rattle.mm_value.specs.Watched.{has_failed};
ghost use Rattle.mmdb_c.specs.Replies.{ReadsRows, count_of, rows_of};
ghost use Rattle.mmdb_c.specs.steps.Reading.{WritesCells};

use crate::cell::Cell;
use mm_lang::{write_buffered_rows, write_reply};
use mm_query::Reply;
use mm_session::LastReply;
use mm_value::{Tuple, Value, Watched, WriteError};
use std::io::Write;

/// Returns the number of rows that a reply has or counts: 0 for any other reply.
pub(crate) fn count_of(reply: &LastReply<'_>) -> usize
    ensures { result ≡ count_of (reply_lent reply.now) }
{
    match reply {
        LastReply::Rows(rows) => rows.len(),
        LastReply::Other(Reply::Count(count)) => *count,
        LastReply::Other(Reply::Rows(rows)) => rows.as_slice().len(),
        _ => 0,
    }
}

/// Returns the row at an index of a reply, if there is one.
fn row_at<'s>(reply: &LastReply<'s>, place: usize) -> Option<&'s [Value]>
    ensures some { IfSome result (λ row. slice_get (rows_of (reply_lent reply.now)) place ≡ Some row.now) }
    ensures none { IfNone result (length (rows_of (reply_lent reply.now)) ≤ place) }
    ensures next { OnSome result (place + 1 < 2 ^ 64) }
{
    match reply {
        LastReply::Rows(rows) if place < rows.len() => Some(rows.row(place)),
        LastReply::Other(Reply::Rows(rows)) => rows.as_slice().get(place).map(Tuple::values),
        _ => None,
    }
}

/// Stores the values of a row in cells, starting at an index.
fn set_cells(cells: &mut [Cell], place: usize, row: &[Value])
    requires { place + length row.now ≤ length cells.old }
    ensures { WritesCells place row.now cells.old cells.new }
{
    for i in 0..row.len() {
        cells[place + i].set(&row[i]);
    }
}

/// Copies rows of a reply into cells, starting at row `first`: as many whole rows as fit. Returns the number of rows copied.
pub(crate) fn read_rows(reply: &LastReply<'_>, first: usize, cells: &mut [Cell]) -> usize
    ensures { ReadsRows (rows_of (reply_lent reply.now)) first cells.old cells.new result }
{
    let mut count = 0;
    let mut place = 0;
    while let Some(row) = row_at(reply, first + count) {
        if cells.len() - place < row.len() {
            break;
        }
        set_cells(cells, place, row);
        place += row.len();
        count += 1;
    }
    count
}

/// Writes the text of a reply, as the program does. Allocates nothing itself. After `WriteError` the writer has failed, and a prefix of the
/// text was written.
pub(crate) fn write_text<W: Write>(
    reply: &LastReply<'_>,
    writer: &mut Watched<W>,
) -> Result<(), WriteError>
    requires { has_failed writer.old ≡ false }
    ensures { Writes W.contents writer.old writer.new result (text_of (reply_lent reply.now)) }
{
    match reply {
        LastReply::Nothing => Ok(()),
        LastReply::Rows(rows) => write_buffered_rows(rows, writer),
        LastReply::Other(reply) => write_reply(reply, writer),
    }
}
