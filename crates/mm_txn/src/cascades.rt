//! The rows that a DELETE cascades to (the CASCADE of SQL's referential actions).
ghost use Rattle.std.specs.Prelude.{◌≡◌, ◌<◌, ◌∷◌, [], All, filter, length, map, slice_get, IfOk, OnOk, None, Some};
ghost use Rattle.std.specs.Option.{option_copied, option_map};
ghost use Rattle.mm_indexed.specs.Kept.{StoredRows};
ghost use Rattle.mm_schema.specs.Columns.{cascading_target};
ghost use Rattle.mm_schema.specs.Schema.{HasDistinctNames};
ghost use Rattle.mm_schema.specs.declared.table.Table.{Table};
ghost use Rattle.mm_store.specs.Looked.{IsFirstOn, IsIndexOn};
ghost use Rattle.mm_store.specs.Tables.{IsAt, rows_at};
ghost use Rattle.mm_query.specs.Edits.{is_cascaded, removals_of, with_cascades};
ghost use Rattle.mm_txn.specs.Cascades.{AddsCascaded, IsCascade, cascade_to, cascades_from, placed_cascade};
ghost use Rattle.mm_plan.specs.Kept.{AreKept, instance_of};
ghost use Rattle.mm_txn.specs.PlacedEdits.{AreEdits, FitsAt, edits_at, named, pairs_at, placed};
ghost use Rattle.mm_txn.specs.RowEdits.{BringNone};

use crate::edits::RelationEdits;
use crate::row_edits::removals_at;
use mm_delta::{references_of_gone, row_gone};
use mm_schema::{Catalog, Column, Name};
use mm_store::{IndexRef, Store, View};
use mm_tables::Edit;
use mm_value::{Few, RowRef};
use std::alloc::{AllocError, Global};

/// A CASCADE column of a table, and the deleted rows of the table that it refers to.
#[derive(Drop)]
struct Cascade<'a> {
    /// The place of the column, counted from 0.
    column: usize,
    /// The place of the table that it refers to.
    to: usize,
    /// The deletions in that table.
    gone: &'a [Edit],
}

/// Returns the deletions to which a DELETE in a table cascades: of each row, in any table, that has the key of a deleted row in a CASCADE
/// column. A column refers to an older table, so one pass over the tables in the order of creation finds all. The deletions are in that
/// order, and no list is empty. Fails with `AllocError` if an allocation fails.
pub(crate) fn cascades(
    alloc: Global,
    catalog: &Catalog,
    store: &Store,
    own: &RelationEdits,
) -> Result<Vec<RelationEdits>, AllocError>
    requires kept { AreKept catalog.now store.now }
    requires distinct { HasDistinctNames catalog.now }
    requires fit { FitsAt store.now (placed own.now) }
    requires removals { BringNone own.now.edits }
    ensures are { IfOk result (λ cascaded. AreEdits store.now (placed own.now ∷ map placed cascaded.items)) }
    ensures cascades { IfOk result (λ cascaded. map (named catalog.now store.now.tables) (placed own.now ∷ map placed cascaded.items)
        ≡ with_cascades catalog.now catalog.now.tables (instance_of store.now.tables) (named catalog.now store.now.tables (placed own.now) ∷ [])) }
{
    let mut cascaded = Vec::new(alloc);
    let count = catalog.tables().len();
    for table in own.table + 1..count {
        let edits = cascaded_edits(alloc, catalog, store, table, own, cascaded.as_slice())?;
        if !edits.as_slice().is_empty() {
            cascaded.push(RelationEdits { table, edits })?;
        } else {
            drop(edits);
        }
    }
    Ok(cascaded)
}

/// Returns the deletions in a table to which deletions in older tables cascade. Fails with `AllocError` if an allocation fails.
fn cascaded_edits(
    alloc: Global,
    catalog: &Catalog,
    store: &Store,
    table: usize,
    own: &RelationEdits,
    cascaded: &[RelationEdits],
) -> Result<Few<Edit>, AllocError>
    requires kept { AreKept catalog.now store.now }
    requires distinct { HasDistinctNames catalog.now }
    requires there { table < length catalog.now.tables }
    requires are { AreEdits store.now (placed own.now ∷ map placed cascaded.now) }
    ensures fit { IfOk result (λ edits. FitsAt store.now (table, edits)) }
    ensures removals { IfOk result (λ edits. BringNone edits) }
    ensures pairs { IfOk result (λ edits. (t : Table) → slice_get catalog.now.tables table ≡ Some t
        → pairs_at store.now.tables (table, edits)
        ≡ removals_of (filter (is_cascaded catalog.now (map (named catalog.now store.now.tables) (placed own.now ∷ map placed cascaded.now))
        t.definition.columns)
        (rows_at store.now.tables table))) }
{
    let columns = cascading_columns(alloc, catalog, table, own, cascaded)?;
    let mut view = store.view();
    let mut found = Vec::new(alloc);
    for cascade in &columns {
        add_referrers(alloc, &mut view, table, cascade, &mut found)?;
    }
    removals_at(alloc, &mut view, table, found)
}

/// Returns the CASCADE columns of a table that refer to tables with deleted rows. Fails with `AllocError` if an allocation fails.
fn cascading_columns<'a>(
    alloc: Global,
    catalog: &Catalog,
    table: usize,
    own: &'a RelationEdits,
    cascaded: &'a [RelationEdits],
) -> Result<Vec<Cascade<'a>>, AllocError>
    requires there { table < length catalog.now.tables }
    ensures { IfOk result (λ found. (t : Table) → slice_get catalog.now.tables table ≡ Some t
        → map placed_cascade found.items ≡ cascades_from catalog.now (placed own.entry.now ∷ map placed cascaded.entry.now) 0 t.definition.columns) }
{
    let columns = &catalog.table_at(table).definition.columns;
    let mut found = Vec::new(alloc);
    for (place, column) in columns.as_slice().iter().enumerate() {
        if let Some(cascade) = cascade_of(catalog, place, column, own, cascaded) {
            found.push(cascade)?;
        }
    }
    Ok(found)
}

/// Returns the column at a place of its table, if it is a CASCADE column and refers to a table with deleted rows.
fn cascade_of<'a>(
    catalog: &Catalog,
    place: usize,
    column: &Column,
    own: &'a RelationEdits,
    cascaded: &'a [RelationEdits],
) -> Option<Cascade<'a>>
    ensures { option_map placed_cascade result
        ≡ cascade_to catalog.now (placed own.entry.now ∷ map placed cascaded.entry.now) place (cascading_target column.now) }
{
    let target = cascading_target(column)?;
    let to = catalog.place_of(target).unwrap_or(0);
    let gone = removals_of(own, cascaded, to);
    if gone.is_empty() {
        return None;
    }
    Some(Cascade {
        column: place,
        to,
        gone,
    })
}

/// Returns the name of the table that a CASCADE column refers to, or `None` if the column is not a CASCADE column.
fn cascading_target(column: &Column) -> Option<&Name>
    ensures { option_copied result ≡ cascading_target column.now }
{
    if column.cascades() {
        column.target()
    } else {
        None
    }
}

/// Returns the deletions in the table at a place.
fn removals_of<'a>(
    own: &'a RelationEdits,
    cascaded: &'a [RelationEdits],
    place: usize,
) -> &'a [Edit]
    ensures { result.now ≡ edits_at (placed own.entry.now ∷ map placed cascaded.entry.now) place }
{
    if own.table == place {
        return own.edits.as_slice();
    }
    for removals in cascaded {
        if removals.table == place {
            return removals.edits.as_slice();
        }
    }
    &[]
}

/// Appends the references of the rows of a table to which deletions cascade by a CASCADE column: found along an index of the column if
/// there is one, else by one pass over the rows. Fails with `AllocError` if an allocation fails.
fn add_referrers(
    alloc: Global,
    view: &mut View<'_>,
    table: usize,
    cascade: &Cascade,
    found: &mut Vec<RowRef>,
) -> Result<(), AllocError>
    requires there { table < length view.old.store.tables }
    requires cascade { IsCascade view.old.store table cascade.now.column (cascade.now.to, cascade.now.gone.now) }
    ensures found { OnOk result (AddsCascaded view.old.store table (placed_cascade cascade.now) found.old.items found.new.items) }
    ensures same { view.new.store ≡ view.old.store }
{
    match view.index_on(table, cascade.column) {
        Some(index) => add_by_index(alloc, view, table, index, cascade, found),
        None => add_by_scan(alloc, view, table, cascade, found),
    }
}

/// Appends the references of the rows to which deletions cascade, found along an index of the column: for each deleted row, the rows that
/// have its key in the column. Fails with `AllocError` if an allocation fails.
fn add_by_index(
    alloc: Global,
    view: &mut View<'_>,
    table: usize,
    index: IndexRef,
    cascade: &Cascade,
    found: &mut Vec<RowRef>,
) -> Result<(), AllocError>
    requires there { table < length view.old.store.tables }
    requires cascade { IsCascade view.old.store table cascade.now.column (cascade.now.to, cascade.now.gone.now) }
    requires index { (stored : StoredRows) → IsAt view.old.store table stored → IsIndexOn stored cascade.now.column index }
    ensures found { OnOk result (AddsCascaded view.old.store table (placed_cascade cascade.now) found.old.items found.new.items) }
    ensures same { view.new.store ≡ view.old.store }
{
    let column = view.key_of(cascade.to);
    for edit in cascade.gone {
        if let Some(at) = row_gone(edit) {
            let key = view.row(cascade.to, at).value(column);
            view.matches(alloc, table, index, key, found)?;
        }
    }
    Ok(())
}

/// Appends the references of the rows to which deletions cascade, for a column without an index: one pass over the table checks whether the
/// row that each row refers to is deleted, and reads neither of the two rows. Fails with `AllocError` if an allocation fails.
fn add_by_scan(
    alloc: Global,
    view: &View<'_>,
    table: usize,
    cascade: &Cascade,
    found: &mut Vec<RowRef>,
) -> Result<(), AllocError>
    requires there { table < length view.now.store.tables }
    requires cascade { IsCascade view.now.store table cascade.now.column (cascade.now.to, cascade.now.gone.now) }
    requires unindexed { (stored : StoredRows) → IsAt view.now.store table stored → IsFirstOn stored cascade.now.column None }
    ensures { OnOk result (AddsCascaded view.now.store table (placed_cascade cascade.now) found.old.items found.new.items) }
{
    let gone = references_of_gone(alloc, cascade.gone)?;
    for at in view.walk(table, IndexRef::Key) {
        let target = view.follow(table, cascade.column, at);
        if gone.contains(&target.slot) {
            found.push(at)?;
        }
    }
    Ok(())
}
