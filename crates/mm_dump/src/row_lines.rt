//! INSERT lines of rows that are read one after another.
ghost use Rattle.std.specs.Prelude.{◌≡◌, ◌+◌, ◌-◌, ◌<◌, ◌≤◌, ◌^◌, ◌++◌, ◌∷◌, [], IfNone, IfOk, IfSome, IsTrue, MatchOption, Some};
ghost use Rattle.std.specs.Prelude.{drop, false, length, take, true, vec_len};
ghost use Rattle.mm_value.specs.Watched.{has_failed, inner_of};
ghost use Rattle.mm_value.specs.declared.values.Value.{Value as Val};
ghost use Rattle.mm_dump.specs.Inserts.{has_room, put_texts, used_bytes};
ghost use Rattle.mm_dump.specs.RowLines.{AreTaken, rows_left};

use crate::insert_lines::InsertLines;
use mm_schema::Name;
use mm_value::{AsRow, Watched, WriteError};
use std::mem::replace;

/// Rows that are read one after another.
pub trait RowReader {
    ghost use Rattle.std.specs.Prelude.{List};

    type Row: AsRow + Drop;

    /// The rows that remain to be read.
    ghost rows: { Self → List (List Val) };

    /// Removes and returns the next row, or `None` at the end.
    fn next(&mut self) -> Option<Self::Row>
        ensures { MatchOption result (rows self.old ≡ []) (λ row. rows self.old ≡ Self.Row.AsRow.row row ∷ rows self.new) };
}

/// A line that was written: its number of rows, and the row after the line, which has been read.
#[derive(Drop)]
struct RowLine<R: Drop> {
    rows: usize,
    next: Option<R>,
}

/// Appends as many INSERT lines as fit into `room` bytes, and adds the number of their rows to `row`. Returns whether these are all rows.
pub fn add_row_lines<R: RowReader>(
    table: &Name,
    reader: &mut R,
    row: &mut usize,
    room: usize,
    bytes: &mut Vec<u8>,
) -> bool
    requires { row.old + length (R.rows reader.old) < 2 ^ 64 }
    ensures further { row.old ≤ row.new }
    ensures whole { IsTrue result → bytes.new.items ≡ bytes.old.items ++ put_texts table.now (R.rows reader.old) }
    ensures part { result ≡ false → bytes.new.items ++ put_texts table.now (drop (row.new - row.old) (R.rows reader.old))
        ≡ bytes.old.items ++ put_texts table.now (R.rows reader.old) }
    ensures room { length bytes.old.items ≤ room → length bytes.new.items ≤ room }
{
    let mut next = reader.next();
    while let Some(first) = next {
        match add_row_line(table, &first, reader, room, bytes) {
            Some(line) => {
                *row += line.rows;
                next = line.next;
            }
            None => return false,
        }
    }
    true
}

/// Appends one INSERT line, if it fits into `room` bytes: the row `first`, which has been read, and the rows after it that fit into the
/// line.
fn add_row_line<R: RowReader>(
    table: &Name,
    first: &R::Row,
    reader: &mut R,
    room: usize,
    bytes: &mut Vec<u8>,
) -> Option<RowLine<R::Row>>
    ensures some { IfSome result (λ line. bytes.new.items ++ put_texts table.now (rows_left R.Row.AsRow.row line.next (R.rows reader.new))
        ≡ bytes.old.items ++ put_texts table.now (R.Row.AsRow.row first.now ∷ R.rows reader.old)) }
    ensures rows { IfSome result (λ line. AreTaken line.rows (R.Row.AsRow.row first.now ∷ R.rows reader.old)
        (rows_left R.Row.AsRow.row line.next (R.rows reader.new))) }
    ensures fewer { IfSome result (λ line. 0 < line.rows) }
    ensures none { IfNone result (bytes.new.items ≡ bytes.old.items) }
    ensures room { length bytes.old.items ≤ room → length bytes.new.items ≤ room }
{
    let before = bytes.len();
    let alloc = *bytes.allocator();
    let mut writer = Watched::new(replace(bytes, Vec::new(alloc)));
    let written = write_row_line(table, first, reader, &mut writer);
    *bytes = writer.into_inner();
    match written {
        Ok(line) if bytes.len() <= room => Some(line),
        _ => {
            bytes.truncate(before);
            None
        }
    }
}

/// Writes one INSERT line: the row `first`, which has been read, and the rows after it that fit into the line.
fn write_row_line<R: RowReader>(
    table: &Name,
    first: &R::Row,
    reader: &mut R,
    writer: &mut Watched<Vec<u8>>,
) -> Result<RowLine<R::Row>, WriteError>
    requires { has_failed writer.old ≡ false }
    ensures kept { take (vec_len (inner_of writer.old)) (inner_of writer.new).items ≡ (inner_of writer.old).items }
    ensures ok { IfOk result (λ line. (inner_of writer.new).items ++ put_texts table.now (rows_left R.Row.AsRow.row line.next (R.rows reader.new))
        ≡ (inner_of writer.old).items ++ put_texts table.now (R.Row.AsRow.row first.now ∷ R.rows reader.old)) }
    ensures rows { IfOk result (λ line. AreTaken line.rows (R.Row.AsRow.row first.now ∷ R.rows reader.old)
        (rows_left R.Row.AsRow.row line.next (R.rows reader.new))) }
    ensures some { IfOk result (λ line. 0 < line.rows) }
{
    let mut lines = InsertLines::new(table);
    lines.add_row(first, writer)?;
    let mut rows = 1;
    let mut next = reader.next();
    while let Some(row) = joining(&lines, &next) {
        lines.add_row(row, writer)?;
        rows += 1;
        next = reader.next();
    }
    lines.finish(writer)?;
    Ok(RowLine { rows, next })
}

/// Returns the row, if there is one and it fits into the open line.
fn joining<'r, R: AsRow>(lines: &InsertLines<'_>, next: &'r Option<R>) -> Option<&'r R>
    ensures some { IfSome result (λ row. (next.now ≡ Some row.now) × (has_room (used_bytes lines.now) (R.AsRow.row row.now) ≡ true)) }
    ensures none { IfNone result (IfSome next.now (λ row. has_room (used_bytes lines.now) (R.AsRow.row row) ≡ false)) }
{
    match next {
        Some(row) if lines.has_room(row) => Some(row),
        _ => None,
    }
}
