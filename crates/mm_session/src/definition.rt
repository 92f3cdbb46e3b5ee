//! The lines that define tables, indexes and standing queries.
ghost use Rattle.std.specs.Prelude.{◌≡◌, ◌++◌, ◌∷◌, [], OnOk, Some, false};
ghost use Rattle.std.specs.Option.{option_map};
ghost use Rattle.mm_dump.specs.Entries.{entry_text};
ghost use Rattle.mm_schema.specs.Refused.{AnswersDue};
ghost use Rattle.mm_session.specs.Definitions.{definition_refusal, entry_named, refusal_of_none};
ghost use Rattle.mm_session.specs.steps.Defined.{entry_of};
ghost use Rattle.mm_value.specs.Device.{Writes};
ghost use Rattle.mm_value.specs.Watched.{has_failed};

use mm_dump::{write_index, write_table, write_watch};
use mm_query::BoundQuery;
use mm_schema::{Catalog, IndexDef, Name, TableDef};
use mm_txn::Db;
use mm_value::{Refusal, Watched, WriteError};
use std::io::Write;
use std::mem::replace;

/// The kind of object that a definition creates.
#[derive(Clone, Copy, Debug, PartialEq, Eq)]
pub enum DefinitionKind {
    Table,
    Index,
    StandingQuery,
}

/// A table, an index or a standing query of a database.
#[derive(Clone, Copy)]
enum Defined<'d> {
    Table(&'d TableDef),
    Index(&'d IndexDef),
    StandingQuery(&'d BoundQuery),
}

/// Appends the line that defines the object with a name, as [`crate::Session::definition`] does.
pub(crate) fn add_definition(
    database: &Db,
    kind: DefinitionKind,
    name: &[u8],
    bytes: &mut Vec<u8>,
) -> Result<(), Refusal>
    requires { bytes.old.items ≡ [] }
    ensures refusal { AnswersDue (definition_refusal kind name.now database.now) result }
    ensures text { OnOk result (option_map entry_text (entry_named kind name.now database.now) ≡ Some bytes.new.items) }
{
    let name = Name::new(name).ok_or(Refusal::Syntax)?;
    let defined = find(database, kind, &name).ok_or(absent(kind))?;
    let alloc = *bytes.allocator();
    let mut writer = Watched::new(replace(bytes, Vec::new(alloc)));
    let written = write_line(&name, database.catalog(), defined, &mut writer);
    *bytes = writer.into_inner();
    if written.is_err() {
        return Err(Refusal::Memory);
    }
    let _line_feed = bytes.pop();
    Ok(())
}

/// Finds the object with a name.
fn find<'d>(database: &'d Db, kind: DefinitionKind, name: &Name) -> Option<Defined<'d>>
    ensures { option_map (entry_of name.now database.now.schema) result ≡ entry_named kind name.now database.now }
{
    match kind {
        DefinitionKind::Table => {
            let table = database.catalog().find_table(name)?;
            Some(Defined::Table(&table.definition))
        }
        DefinitionKind::Index => database.catalog().find_index(name).map(Defined::Index),
        DefinitionKind::StandingQuery => {
            database.standing_query(name).map(Defined::StandingQuery)
        }
    }
}

/// Returns the refusal if no object has the name.
fn absent(kind: DefinitionKind) -> Refusal
    ensures { result ≡ refusal_of_none kind }
{
    match kind {
        DefinitionKind::Table => Refusal::NoSuchTable,
        DefinitionKind::Index => Refusal::NoSuchIndex,
        DefinitionKind::StandingQuery => Refusal::NoSuchStandingQuery,
    }
}

/// Writes the line that defines an object with a name, with its line feed.
fn write_line<W: Write>(
    name: &Name,
    catalog: &Catalog,
    defined: Defined<'_>,
    writer: &mut Watched<W>,
) -> Result<(), WriteError>
    requires { has_failed writer.old ≡ false }
    ensures { Writes W.contents writer.old writer.new result (entry_text (entry_of name.now catalog.now defined.entry) ++ 10 ∷ []) }
{
    match defined {
        Defined::Table(table) => write_table(table, writer),
        Defined::Index(index) => write_index(index, writer),
        Defined::StandingQuery(query) => write_watch(name, catalog, query, writer),
    }
}
