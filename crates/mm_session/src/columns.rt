//! The columns of the rows that a command returns.
ghost use Rattle.std.specs.Prelude.{◌≡◌, ◌++◌, ◌⊎◌, [], Err, IfErr, IfOk, OnOk, find, map};
ghost use Rattle.std.specs.List.{cons_option};
ghost use Rattle.std.specs.Option.{option_copied};
ghost use Rattle.mm_schema.specs.Columns.{column_named};
ghost use Rattle.mm_schema.specs.Name.{same_name};
ghost use Rattle.mm_schema.specs.Schema.{columns_named};
ghost use Rattle.mm_query.specs.declared.query.FromItem.{FromItem as AnyItem};
ghost use Rattle.mm_lang.specs.Templates.{template_of};
ghost use Rattle.mm_value.specs.declared.refusal.Refusal.TheVariants.{Memory};
ghost use Rattle.mm_session.specs.Columns.{AreColumnsOf, bound_columns, columns_of, column_at_place, column_of_field, query_columns};

use mm_lang::prepare;
use mm_query::{BoundQuery, Command, FieldName, FieldPlace, FromItem, Query};
use mm_schema::{Catalog, Column, Name, NameRef};
use mm_txn::Db;
use mm_value::Refusal;
use std::alloc::{AllocError, Global};

/// Returns the columns of the rows that a line returns: none if it returns no rows. The line may have holes. Fails as
/// [`mm_lang::prepare`] does, and with `Memory` if an allocation fails.
pub(crate) fn columns_of_line<'c>(
    alloc: Global,
    database: &'c Db,
    line: &[u8],
) -> Result<Vec<&'c Column>, Refusal>
    ensures ok { IfOk result (λ found. AreColumnsOf line.now database.now (map (λ column. column.now) found.items)) }
    ensures err { IfErr result (λ refusal. (template_of line.now ≡ Err refusal) ⊎ (refusal ≡ Memory)) }
{
    let template = prepare(alloc, line)?;
    let columns = columns_of_command(alloc, database, &template.command)?;
    Ok(columns)
}

/// Returns the columns of the rows that a command returns: none if it returns no rows. Fails if an allocation fails.
fn columns_of_command<'c>(
    alloc: Global,
    database: &'c Db,
    command: &Command<'_>,
) -> Result<Vec<&'c Column>, AllocError>
    ensures { IfOk result (λ found. map (λ column. column.now) found.items ≡ columns_of command.now database.now) }
{
    let catalog = database.catalog();
    match command {
        Command::Scan(table) => table_columns(alloc, catalog, table),
        Command::ScanIndex(index) => match catalog.find_index(index) {
            Some(found) => table_columns(alloc, catalog, &found.table),
            None => Ok(Vec::new(alloc)),
        },
        Command::Select(query) => query_columns(alloc, catalog, query),
        Command::Show(name) => match database.standing_query(name) {
            Some(query) => bound_columns(alloc, catalog, query),
            None => Ok(Vec::new(alloc)),
        },
        _ => Ok(Vec::new(alloc)),
    }
}

/// Returns the columns of a table: none if it does not exist. Fails if an allocation fails.
fn table_columns<'c>(
    alloc: Global,
    catalog: &'c Catalog,
    name: &Name,
) -> Result<Vec<&'c Column>, AllocError>
    ensures { IfOk result (λ found. map (λ column. column.now) found.items ≡ columns_named name.now catalog.now) }
{
    let mut found = Vec::new(alloc);
    let Some(table) = catalog.find_table(name) else {
        return Ok(found);
    };
    for column in table.definition.columns.as_slice() {
        found.push(column)?;
    }
    Ok(found)
}

/// Returns the columns that the fields of a query name. Fails if an allocation fails.
fn query_columns<'c>(
    alloc: Global,
    catalog: &'c Catalog,
    query: &Query<'_>,
) -> Result<Vec<&'c Column>, AllocError>
    ensures { IfOk result (λ found. map (λ column. column.now) found.items ≡ query_columns catalog.now query.now) }
{
    let from = query.from.as_slice();
    let mut found = Vec::new(alloc);
    for field in query.fields.as_slice() {
        push_found(&mut found, column_of_field(catalog, from, field))?;
    }
    Ok(found)
}

/// Returns the columns at the places of a bound query's fields. Fails if an allocation fails.
fn bound_columns<'c>(
    alloc: Global,
    catalog: &'c Catalog,
    query: &BoundQuery,
) -> Result<Vec<&'c Column>, AllocError>
    ensures { IfOk result (λ found. map (λ column. column.now) found.items ≡ bound_columns catalog.now query.now) }
{
    let from = query.from.as_slice();
    let mut found = Vec::new(alloc);
    for place in query.fields.as_slice() {
        push_found(&mut found, column_at_place(catalog, from, place))?;
    }
    Ok(found)
}

/// Appends a column, if there is one. Fails if an allocation fails.
fn push_found<'c>(
    columns: &mut Vec<&'c Column>,
    found: Option<&'c Column>,
) -> Result<(), AllocError>
    ensures { OnOk result (map (λ column. column.now) columns.new.items
        ≡ map (λ column. column.now) columns.old.items ++ cons_option (option_copied found.entry) []) }
{
    if let Some(column) = found {
        columns.push(column)?;
    }
    Ok(())
}

/// Returns the first item of FROM with an alias.
fn find_item<'f>(from: &'f [FromItem], alias: &NameRef<'_>) -> Option<&'f FromItem>
    ensures { option_copied result ≡ find (λ (item : AnyItem). same_name alias.now item.alias) from.now }
{
    from.iter().find(|item| *alias == item.alias.as_ref())
}

/// Returns the first column with a name.
pub(crate) fn find_column<'c>(columns: &'c [Column], name: &NameRef<'_>) -> Option<&'c Column>
    ensures { option_copied result ≡ column_named name.now columns.now }
{
    columns.iter().find(|column| *name == column.name.as_ref())
}

/// Returns the column that a field names, or `None` if its alias or column does not exist.
pub(crate) fn column_of_field<'c>(
    catalog: &'c Catalog,
    from: &[FromItem],
    field: &FieldName<NameRef<'_>>,
) -> Option<&'c Column>
    ensures { option_copied result ≡ column_of_field catalog.now from.now field.now }
{
    let item = find_item(from, &field.alias)?;
    let table = catalog.find_table(&item.table)?;
    find_column(table.definition.columns.as_slice(), &field.column)
}

/// Returns the column at a place, or `None` if its table or column does not exist.
fn column_at_place<'c>(
    catalog: &'c Catalog,
    from: &[FromItem],
    place: &FieldPlace,
) -> Option<&'c Column>
    ensures { option_copied result ≡ column_at_place catalog.now from.now place.now }
{
    let item = from.get(place.place)?;
    let table = catalog.find_table(&item.table)?;
    table.definition.columns.as_slice().get(place.column)
}
