//! The lines that create tables, indexes and standing queries.
ghost use Rattle.std.specs.Prelude.{◌++◌, ◌≡◌, ◌∷◌, [], false};
ghost use Rattle.mm_value.specs.Device.{Writes};
ghost use Rattle.mm_value.specs.Watched.{has_failed};
ghost use Rattle.mm_lang.specs.QueryText.{named_query};
ghost use Rattle.mm_dump.specs.Entries.{Index, Table, Watch, entry_text};

use mm_query::BoundQuery;
use mm_schema::{Catalog, IndexDef, Name, TableDef};
use mm_value::{Watched, WriteError, put_all};
use std::io::Write;

/// Writes the line that creates a table, with its line feed. Allocates nothing. After `WriteError` the writer has failed, and a prefix of
/// the line was written.
pub fn write_table<W: Write>(
    definition: &TableDef,
    writer: &mut Watched<W>,
) -> Result<(), WriteError>
    requires { has_failed writer.old ≡ false }
    ensures { Writes W.contents writer.old writer.new result (entry_text (Table definition.now) ++ 10 ∷ []) }
{
    mm_lang::write_table_definition(definition, writer)?;
    put_all(writer, b"\n")
}

/// Writes the line that creates an index, with its line feed. Allocates nothing. After `WriteError` the writer has failed, and a prefix of
/// the line was written.
pub fn write_index<W: Write>(index: &IndexDef, writer: &mut Watched<W>) -> Result<(), WriteError>
    requires { has_failed writer.old ≡ false }
    ensures { Writes W.contents writer.old writer.new result (entry_text (Index index.now) ++ 10 ∷ []) }
{
    mm_lang::write_index(index, writer)
}

/// Writes the line that creates a standing query from its bound query, with its line feed. The names of columns are those of the catalog.
/// Allocates nothing. After `WriteError` the writer has failed, and a prefix of the line was written.
pub fn write_watch<W: Write>(
    name: &Name,
    catalog: &Catalog,
    query: &BoundQuery,
    writer: &mut Watched<W>,
) -> Result<(), WriteError>
    requires { has_failed writer.old ≡ false }
    ensures { Writes W.contents writer.old writer.new result (entry_text (Watch name.now (named_query catalog.now query.now)) ++ 10 ∷ []) }
{
    put_all(writer, b"WATCH ")?;
    put_all(writer, name.bytes())?;
    put_all(writer, b" SELECT ")?;
    mm_lang::write_query(catalog, query, writer)?;
    put_all(writer, b"\n")
}
