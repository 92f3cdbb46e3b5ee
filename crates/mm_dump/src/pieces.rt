//! The dump of a state, in pieces of whole lines.
ghost use Rattle.std.specs.Prelude.{◌≡◌, ◌≤◌, ◌++◌, [], IfOk, IsTrue, OnOk, drop, false, length};
ghost use Rattle.std.specs.Option.{option_copied};
ghost use Rattle.mm_value.specs.Device.{Writes};
ghost use Rattle.mm_value.specs.Watched.{has_failed};
ghost use Rattle.mm_query.specs.Standing.{query_named};
ghost use Rattle.mm_query.specs.State.{State, rows_in};
ghost use Rattle.mm_dump.specs.DumpText.{watch_script};
ghost use Rattle.mm_dump.specs.Inserts.{put_texts};
ghost use Rattle.mm_dump.specs.Parts.{line_of, part_of};
ghost use Rattle.mm_dump.specs.Places.{IsPiece, dump_rest, part_text};

use crate::definition_lines::{write_index, write_table, write_watch};
use crate::parts::{Line, Part, part_at};
use crate::place::DumpPlace;
use mm_query::BoundQuery;
use mm_schema::{Catalog, Name, StandingDef};
use mm_value::{Refusal, Watched, WriteError};
use std::io::Write;
use std::mem::replace;

/// A state to dump: its catalog, and the source of its rows and of the queries of its standing queries.
pub trait DumpSource {
    ghost state: { Self → State };

    /// Returns the catalog.
    fn catalog(&self) -> &Catalog
        ensures { result.now ≡ (state self.now).schema };

    /// Appends INSERT lines of the rows of a table in key order, from row number `row` on: as many whole lines as fit into `room` bytes.
    /// Returns whether these are all rows. If not, sets `row` to the first row that is missing.
    fn add_rows(&self, table: &Name, row: &mut usize, room: usize, bytes: &mut Vec<u8>) -> bool
        ensures whole { IsTrue result
            → bytes.new.items ≡ bytes.old.items ++ put_texts table.now (drop row.old (rows_in (state self.now) table.now)) }
        ensures part { result ≡ false → bytes.new.items ++ put_texts table.now (drop row.new (rows_in (state self.now) table.now))
            ≡ bytes.old.items ++ put_texts table.now (drop row.old (rows_in (state self.now) table.now)) }
        ensures room { length bytes.old.items ≤ room → length bytes.new.items ≤ room };

    /// Returns the query of the standing query with a name, or `None` if there is none.
    fn standing_query(&self, name: &Name) -> Option<&BoundQuery>
        ensures { option_copied result ≡ query_named name.now (state self.now).schema.standing (state self.now).queries };
}

/// Appends the next piece of the dump of a state: as many whole lines from a place on as fit into `room` bytes. Returns the place after
/// them. Appends no line only at the end of the dump. Fails with `Memory` if the next line cannot be appended: an allocation failed, or the
/// line is longer than `room`.
pub fn add_piece<S: DumpSource>(
    source: &S,
    from: DumpPlace,
    room: usize,
    bytes: &mut Vec<u8>,
) -> Result<DumpPlace, Refusal>
    requires { bytes.old.items ≡ [] }
    ensures piece { IfOk result (λ to. IsPiece (S.state source.now) bytes.new.items from to) }
    ensures end { OnOk result (bytes.new.items ≡ [] → dump_rest (S.state source.now) from ≡ []) }
    ensures room { length bytes.new.items ≤ room }
{
    let catalog = source.catalog();
    let mut place = from;
    while let Some(part) = part_at(catalog, place.part) {
        if !add_part(source, part, &mut place.row, room, bytes) {
            return if bytes.is_empty() {
                Err(Refusal::Memory)
            } else {
                Ok(place)
            };
        }
        let next = place.part.checked_add(1).ok_or(Refusal::Memory)?;
        place = DumpPlace { part: next, row: 0 };
    }
    Ok(place)
}

/// Appends as many whole lines of a part as fit into `room` bytes; of rows, from row number `row` on. Returns whether these are all lines.
/// If not, sets `row` to the first row that is missing.
fn add_part<S: DumpSource>(
    source: &S,
    part: Part<'_>,
    row: &mut usize,
    room: usize,
    bytes: &mut Vec<u8>,
) -> bool
    ensures whole { IsTrue result → bytes.new.items ≡ bytes.old.items ++ part_text (S.state source.now) row.old (part_of part.entry) }
    ensures part { result ≡ false → bytes.new.items ++ part_text (S.state source.now) row.new (part_of part.entry)
        ≡ bytes.old.items ++ part_text (S.state source.now) row.old (part_of part.entry) }
    ensures room { length bytes.old.items ≤ room → length bytes.new.items ≤ room }
{
    match part {
        Part::Line(line) => add_line(source, line, room, bytes),
        Part::Rows(table) => source.add_rows(&table.definition.name, row, room, bytes),
    }
}

/// Appends a line, if it fits into `room` bytes. Returns whether it was appended.
fn add_line<S: DumpSource>(source: &S, line: Line<'_>, room: usize, bytes: &mut Vec<u8>) -> bool
    ensures whole { IsTrue result → bytes.new.items ≡ bytes.old.items ++ part_text (S.state source.now) 0 (line_of line.entry) }
    ensures none { result ≡ false → bytes.new.items ≡ bytes.old.items }
    ensures room { length bytes.old.items ≤ room → length bytes.new.items ≤ room }
{
    let before = bytes.len();
    let alloc = *bytes.allocator();
    let mut writer = Watched::new(replace(bytes, Vec::new(alloc)));
    let written = write_line(source, line, &mut writer);
    *bytes = writer.into_inner();
    let fits = written.is_ok() && bytes.len() <= room;
    if !fits {
        bytes.truncate(before);
    }
    fits
}

/// Writes a line.
fn write_line<S: DumpSource, W: Write>(
    source: &S,
    line: Line<'_>,
    writer: &mut Watched<W>,
) -> Result<(), WriteError>
    requires { has_failed writer.old ≡ false }
    ensures { Writes W.contents writer.old writer.new result (part_text (S.state source.now) 0 (line_of line.entry)) }
{
    match line {
        Line::Table(table) => write_table(&table.definition, writer),
        Line::Index(index) => write_index(index, writer),
        Line::Watch(standing) => write_standing(source, standing, writer),
    }
}

/// Writes the line that creates a standing query, if it has a query.
fn write_standing<S: DumpSource, W: Write>(
    source: &S,
    standing: &StandingDef,
    writer: &mut Watched<W>,
) -> Result<(), WriteError>
    requires { has_failed writer.old ≡ false }
    ensures { Writes W.contents writer.old writer.new result (watch_script (S.state source.now) standing.now) }
{
    match source.standing_query(&standing.name) {
        Some(query) => write_watch(&standing.name, source.catalog(), query, writer),
        None => Ok(()),
    }
}
