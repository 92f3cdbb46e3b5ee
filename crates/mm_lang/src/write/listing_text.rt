//! The text of the reply of TABLES.
ghost use Rattle.std.specs.Prelude.{◌≡◌, false, ◌∷◌, ◌++◌, codes};
ghost use Rattle.std.specs.List.{flat_map};
ghost use Rattle.mm_value.specs.Device.{Writes};
ghost use Rattle.mm_value.specs.Watched.{has_failed};
ghost use Rattle.mm_lang.specs.ReplyText.{column_text, columns_text, index_line, listing_text, on_delete_text, query_line, role_text, table_line, table_lines, table_listed};
ghost use Rattle.mm_lang.specs.Spelling.{kind_word, type_word};
ghost use Rattle.mm_lang.specs.Words.{keyword_text};
ghost use Rattle.mm_lang.specs.declared.read.keyword.Keyword.TheVariants.{Ref};

use crate::read::keyword::Keyword;
use crate::write::reply_text::{write_after_space, write_count, write_four, write_two};
use mm_query::{ListedQuery, ListedTable, Listing};
use mm_schema::{Column, IndexDef, IndexKind, OnDelete, Role, TableDef};
use mm_value::{ColType, Watched, WriteError, put_all};
use std::io::Write;

/// Writes the listing of a catalog. Each table has a line with its columns and its number of rows, followed by a line for each of its
/// indexes. Then follow a line for each standing query with its number of rows, and the number of tables. Allocates nothing. After
/// `WriteError` the writer has failed, and a prefix of the text was written.
pub(crate) fn write_listing<W: Write>(
    listing: &Listing,
    writer: &mut Watched<W>,
) -> Result<(), WriteError>
    requires { has_failed writer.old ≡ false }
    ensures { Writes W.contents writer.old writer.new result (listing_text listing.now) }
{
    let tables = listing.tables.as_slice();
    write_tables(tables, writer)?;
    write_queries(listing.standing.as_slice(), writer)?;
    write_count(b"tables ", tables.len(), writer)
}

/// Writes the lines of tables and of their indexes.
fn write_tables<W: Write>(tables: &[ListedTable], writer: &mut Watched<W>) -> Result<(), WriteError>
    requires { has_failed writer.old ≡ false }
    ensures { Writes W.contents writer.old writer.new result (flat_map table_lines tables.now) }
{
    for table in tables {
        write_table(table, writer)?;
    }
    Ok(())
}

/// Writes the line of a table, and those of its indexes.
fn write_table<W: Write>(listed: &ListedTable, writer: &mut Watched<W>) -> Result<(), WriteError>
    requires { has_failed writer.old ≡ false }
    ensures { Writes W.contents writer.old writer.new result (table_lines listed.now) }
{
    write_table_line(listed, writer)?;
    write_indexes(listed.table.indexes.as_slice(), writer)
}

/// Writes the line of a table.
fn write_table_line<W: Write>(
    listed: &ListedTable,
    writer: &mut Watched<W>,
) -> Result<(), WriteError>
    requires { has_failed writer.old ≡ false }
    ensures { Writes W.contents writer.old writer.new result (table_line listed.now) }
{
    write_table_definition(&listed.table.definition, writer)?;
    write_count(b" rows ", listed.rows, writer)
}

/// Writes a table as the TABLE that creates it, without a line feed. Allocates nothing. After `WriteError` the writer has failed, and a
/// prefix of the text was written.
pub fn write_table_definition<W: Write>(
    definition: &TableDef,
    writer: &mut Watched<W>,
) -> Result<(), WriteError>
    requires { has_failed writer.old ≡ false }
    ensures { Writes W.contents writer.old writer.new result (table_listed definition.now) }
{
    write_two(b"TABLE ", definition.name.bytes(), writer)?;
    write_columns(definition.columns.as_slice(), writer)
}

/// Writes a space, and columns in parentheses.
fn write_columns<W: Write>(columns: &[Column], writer: &mut Watched<W>) -> Result<(), WriteError>
    requires { has_failed writer.old ≡ false }
    ensures { Writes W.contents writer.old writer.new result (codes " (" ++ columns_text columns.now ++ codes ")") }
{
    put_all(writer, b" (")?;
    write_column_list(columns, writer)?;
    put_all(writer, b")")
}

/// Writes columns, separated by a comma and a space.
fn write_column_list<W: Write>(
    columns: &[Column],
    writer: &mut Watched<W>,
) -> Result<(), WriteError>
    requires { has_failed writer.old ≡ false }
    ensures { Writes W.contents writer.old writer.new result (columns_text columns.now) }
{
    let Some((first, others)) = columns.split_first() else {
        return Ok(());
    };
    write_column(first, writer)?;
    for column in others {
        write_next_column(column, writer)?;
    }
    Ok(())
}

/// Writes a comma, a space and a column.
fn write_next_column<W: Write>(column: &Column, writer: &mut Watched<W>) -> Result<(), WriteError>
    requires { has_failed writer.old ≡ false }
    ensures { Writes W.contents writer.old writer.new result (44 ∷ 32 ∷ column_text column.now) }
{
    put_all(writer, b", ")?;
    write_column(column, writer)
}

/// Writes a column as in TABLE.
fn write_column<W: Write>(column: &Column, writer: &mut Watched<W>) -> Result<(), WriteError>
    requires { has_failed writer.old ≡ false }
    ensures { Writes W.contents writer.old writer.new result (column_text column.now) }
{
    put_all(writer, column.name.bytes())?;
    write_after_space(type_text(column.col_type), writer)?;
    write_role(&column.role, writer)
}

/// Writes the role of a column as in TABLE.
fn write_role<W: Write>(role: &Role, writer: &mut Watched<W>) -> Result<(), WriteError>
    requires { has_failed writer.old ≡ false }
    ensures { Writes W.contents writer.old writer.new result (role_text role.now) }
{
    match role {
        Role::Key => write_after_space(Keyword::Key.text(), writer),
        Role::Plain => Ok(()),
        Role::Reference { table, on_delete } => write_reference(table.bytes(), *on_delete, writer),
    }
}

/// Writes the reference of a column to a table, and CASCADE if it cascades.
fn write_reference<W: Write>(
    table: &[u8],
    on_delete: OnDelete,
    writer: &mut Watched<W>,
) -> Result<(), WriteError>
    requires { has_failed writer.old ≡ false }
    ensures { Writes W.contents writer.old writer.new result (32 ∷ keyword_text Ref ++ 32 ∷ table.now ++ on_delete_text on_delete) }
{
    write_after_space(Keyword::Ref.text(), writer)?;
    write_after_space(table, writer)?;
    write_on_delete(on_delete, writer)
}

/// Writes CASCADE if a reference cascades, as in TABLE.
fn write_on_delete<W: Write>(on_delete: OnDelete, writer: &mut Watched<W>) -> Result<(), WriteError>
    requires { has_failed writer.old ≡ false }
    ensures { Writes W.contents writer.old writer.new result (on_delete_text on_delete) }
{
    match on_delete {
        OnDelete::Restrict => Ok(()),
        OnDelete::Cascade => write_after_space(Keyword::Cascade.text(), writer),
    }
}

/// Returns the word of a type.
fn type_text(col_type: ColType) -> &'static [u8]
    ensures { result.now ≡ keyword_text (type_word col_type) }
{
    match col_type {
        ColType::Int => Keyword::Int.text(),
        ColType::Text => Keyword::Text.text(),
    }
}

/// Writes the lines of indexes.
fn write_indexes<W: Write>(indexes: &[IndexDef], writer: &mut Watched<W>) -> Result<(), WriteError>
    requires { has_failed writer.old ≡ false }
    ensures { Writes W.contents writer.old writer.new result (flat_map index_line indexes.now) }
{
    for index in indexes {
        write_index(index, writer)?;
    }
    Ok(())
}

/// Writes the line of an index: the INDEX that creates it, and a line feed. Allocates nothing. After `WriteError` the writer has failed,
/// and a prefix of the line was written.
pub fn write_index<W: Write>(index: &IndexDef, writer: &mut Watched<W>) -> Result<(), WriteError>
    requires { has_failed writer.old ≡ false }
    ensures { Writes W.contents writer.old writer.new result (index_line index.now) }
{
    write_four(
        b"INDEX ",
        index.name.bytes(),
        b" ON ",
        index.table.bytes(),
        writer,
    )?;
    write_four(
        b" (",
        index.column.bytes(),
        b") ",
        kind_text(index.kind),
        writer,
    )?;
    put_all(writer, b"\n")
}

/// Returns the word of a kind of index.
fn kind_text(kind: IndexKind) -> &'static [u8]
    ensures { result.now ≡ keyword_text (kind_word kind) }
{
    match kind {
        IndexKind::Tree => Keyword::Tree.text(),
        IndexKind::Hash => Keyword::Hash.text(),
    }
}

/// Writes the lines of standing queries.
fn write_queries<W: Write>(
    queries: &[ListedQuery],
    writer: &mut Watched<W>,
) -> Result<(), WriteError>
    requires { has_failed writer.old ≡ false }
    ensures { Writes W.contents writer.old writer.new result (flat_map query_line queries.now) }
{
    for query in queries {
        write_query(query, writer)?;
    }
    Ok(())
}

/// Writes the line of a standing query.
fn write_query<W: Write>(listed: &ListedQuery, writer: &mut Watched<W>) -> Result<(), WriteError>
    requires { has_failed writer.old ≡ false }
    ensures { Writes W.contents writer.old writer.new result (query_line listed.now) }
{
    write_two(b"WATCH ", listed.name.bytes(), writer)?;
    write_count(b" rows ", listed.rows, writer)
}
