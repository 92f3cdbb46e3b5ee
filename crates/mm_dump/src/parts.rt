//! The parts of a dump.
ghost use Rattle.std.specs.Prelude.{◌≡◌, ◌+◌, MatchResult, Some, length, map, slice_get};
ghost use Rattle.std.specs.Option.{option_map};
ghost use Rattle.mm_schema.specs.Indexes.{indexes_of};
ghost use Rattle.mm_dump.specs.Parts.{part_of};
ghost use Rattle.mm_dump.specs.Places.{Watched, parts_of};

use mm_schema::{Catalog, IndexDef, StandingDef, Table};

/// A part of a dump.
#[derive(Clone, Copy)]
pub(crate) enum Part<'s> {
    /// One line.
    Line(Line<'s>),
    /// The lines with the rows of a table.
    Rows(&'s Table),
}

/// A line of a dump.
#[derive(Clone, Copy)]
pub(crate) enum Line<'s> {
    /// Creates a table.
    Table(&'s Table),
    /// Creates an index.
    Index(&'s IndexDef),
    /// Creates a standing query.
    Watch(&'s StandingDef),
}

/// Returns the part with a number, or `None` past the end of the dump.
pub(crate) fn part_at(catalog: &Catalog, number: usize) -> Option<Part<'_>>
    ensures { option_map part_of result ≡ slice_get (parts_of catalog.now) number }
{
    let tables = catalog.tables();
    if number < tables.len() {
        return Some(Part::Line(Line::Table(&tables[number])));
    }
    let filled = number - tables.len();
    if filled < tables.len() {
        return Some(Part::Rows(&tables[filled]));
    }
    match index_at(tables, filled - tables.len()) {
        Ok(index) => Some(Part::Line(Line::Index(index))),
        Err(left) => watch_at(catalog.standing(), left),
    }
}

/// Returns the index with a number among those of all tables, or by how much the number exceeds their count.
fn index_at(tables: &[Table], number: usize) -> Result<&IndexDef, usize>
    ensures { MatchResult result (λ index. slice_get (indexes_of tables.now) number ≡ Some index.now)
        (λ left. length (indexes_of tables.now) + left ≡ number) }
{
    let mut left = number;
    for table in tables {
        let indexes = table.indexes.as_slice();
        if left < indexes.len() {
            return Ok(&indexes[left]);
        }
        left -= indexes.len();
    }
    Err(left)
}

/// Returns the line of the standing query with a number, if there is one.
fn watch_at(standing: &[StandingDef], number: usize) -> Option<Part<'_>>
    ensures { option_map part_of result ≡ slice_get (map Watched standing.now) number }
{
    let query = standing.get(number)?;
    Some(Part::Line(Line::Watch(query)))
}
