//! The text of buffered rows.
ghost use Rattle.std.specs.Prelude.{◌≡◌, false};
ghost use Rattle.mm_lang.specs.ReplyText.{rows_text};
ghost use Rattle.mm_value.specs.Device.{Writes};
ghost use Rattle.mm_value.specs.Watched.{has_failed};

use crate::write::row_line::RowLines;
use mm_query::RowBuffer;
use mm_value::{Watched, WriteError};
use std::io::Write;

/// Writes the reply with the rows of a buffer: their lines, and their number. Allocates nothing. After `WriteError` the writer has failed,
/// and a prefix of the text was written.
pub fn write_buffered_rows<W: Write>(
    rows: &RowBuffer,
    writer: &mut Watched<W>,
) -> Result<(), WriteError>
    requires { has_failed writer.old ≡ false }
    ensures { Writes W.contents writer.old writer.new result (rows_text rows.now) }
{
    let mut lines = RowLines::new();
    for i in 0..rows.len() {
        lines.add_values(rows.row(i), writer)?;
    }
    lines.finish(rows.len(), writer)
}
