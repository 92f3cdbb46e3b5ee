//! Changes of the catalog, and of the relations of its tables. All but those of indexes require that no transaction is open.
ghost use Rattle.std.specs.Prelude.{◌≡◌, true, false, [], IfOk, OnOk, OnErr, map};
ghost use Rattle.mm_schema.specs.Indexes.{drop_index_conditions, index_conditions};
ghost use Rattle.mm_schema.specs.Refused.{AnswersDue, first_refusal};
ghost use Rattle.mm_schema.specs.Schema.{drop_table_conditions, table_conditions};
ghost use Rattle.mm_query.specs.Machine.{after_definition, definition_conditions, is_of_index};
ghost use Rattle.mm_query.specs.declared.command.Definition.TheVariants as define;
ghost use Rattle.mm_txn.specs.Contents.{state_held};
ghost use Rattle.mm_laws.specs.Typing.{AreTyped};
ghost use Rattle.mm_plan.specs.Kept.{AreKept, instance_of};
ghost use Rattle.mm_txn.specs.Kept.{state_of};
ghost use Rattle.mm_txn.specs.Saved.{IsSettled, KeepsLog};

use crate::contents::Contents;
use mm_query::Definition;
use mm_schema::{Catalog, Column, IndexDef, Name, TableDef};
use mm_store::Store;
use mm_value::{ColType, Refusal};
use std::alloc::{AllocError, Global};

/// Returns whether a change of the catalog concerns only an index, and so no row.
pub(crate) fn is_of_index(definition: &Definition<'_>) -> bool
    ensures { result ≡ is_of_index definition.now }
{
    matches!(definition, Definition::Index(_) | Definition::DropIndex(_))
}

impl Contents {
    /// Changes the catalog. Fails with the first refusal that is due, or with `Memory` if an allocation fails. The log can still be undone
    /// afterwards. Requires every row to match its column types, and both logs to be empty unless the change concerns only an index.
    pub(crate) fn define(
        &mut self,
        alloc: Global,
        definition: Definition<'_>,
    ) -> Result<(), Refusal>
        requires typed { AreTyped self.old.schema.tables (instance_of self.old.store.tables) }
        requires settled { is_of_index definition ≡ false → IsSettled self.old.store self.old.lists }
        ensures due { AnswersDue (first_refusal (definition_conditions definition.entry (state_held self.old))) result }
        ensures ok { OnOk result (state_held self.new ≡ after_definition definition.entry (state_held self.old)) }
        ensures err { OnErr result (state_held self.new ≡ state_held self.old) }
        ensures settled { is_of_index definition.entry ≡ false → IsSettled self.new.store self.new.lists }
        ensures lists { is_of_index definition.entry ≡ true → self.new.lists ≡ self.old.lists }
        ensures log { is_of_index definition.entry ≡ true → KeepsLog self.old.store self.new.store }
    {
        match definition {
            Definition::Table(definition) => {
                add_table(alloc, &mut self.catalog, &mut self.store, definition)
            }
            Definition::DropTable(name) => self.drop_table(&name),
            Definition::Index(index) => {
                add_index(alloc, &mut self.catalog, &mut self.store, index)
            }
            Definition::DropIndex(name) => drop_index(&mut self.catalog, &mut self.store, &name),
            Definition::Watch(named) => self.watch(alloc, named),
            Definition::Unwatch(name) => self.unwatch(&name),
        }
    }

    /// Drops a table with its rows and indexes; the tables after it move forward. Fails as [`Catalog::drop_table`] does.
    fn drop_table(&mut self, name: &Name) -> Result<(), Refusal>
        requires { IsSettled self.old.store self.old.lists }
        ensures due { AnswersDue (first_refusal (drop_table_conditions name.now self.old.schema)) result }
        ensures ok { OnOk result (state_held self.new ≡ after_definition (define.DropTable name.now) (state_held self.old)) }
        ensures err { OnErr result (state_held self.new ≡ state_held self.old) }
        ensures settled { IsSettled self.new.store self.new.lists }
    {
        let place = self.catalog.place_of(name).ok_or(Refusal::NoSuchTable)?;
        self.catalog.drop_table(name)?;
        self.store.drop_table(place);
        self.standing.table_dropped(place);
        Ok(())
    }
}

/// Appends a table with no rows. Fails as [`Catalog::add_table`] does.
fn add_table(
    alloc: Global,
    catalog: &mut Catalog,
    store: &mut Store,
    definition: TableDef,
) -> Result<(), Refusal>
    requires kept { AreKept catalog.old store.old }
    requires log { store.old.stored.log ≡ [] }
    ensures due { AnswersDue (first_refusal (table_conditions definition catalog.old)) result }
    ensures ok { OnOk result
        (state_of catalog.new store.new.tables ≡ after_definition (define.Table definition) (state_of catalog.old store.old.tables)) }
    ensures err { OnErr result (state_of catalog.new store.new.tables ≡ state_of catalog.old store.old.tables) }
    ensures kept { AreKept catalog.new store.new }
    ensures log { store.new.stored.log ≡ [] }
{
    if let Some(refusal) = catalog.table_refusal(&definition) {
        return Err(refusal);
    }
    let references = catalog.references(alloc, &definition.columns)?;
    let types = types_of(alloc, definition.columns.as_slice())?;
    let key = definition.columns.key();
    store.add_table(alloc, types.as_slice(), key, references.as_slice())?;
    if let Err(refusal) = catalog.add_table(definition) {
        store.drop_table(store.len() - 1);
        return Err(refusal);
    }
    Ok(())
}

/// Returns the types of columns, from left to right. Fails with `AllocError` if an allocation fails.
fn types_of(alloc: Global, columns: &[Column]) -> Result<Vec<ColType>, AllocError>
    ensures { IfOk result (λ types. types.items ≡ map (λ column. column.col_type) columns.now) }
{
    columns.iter().map(|column| column.col_type).collect(alloc)
}

/// Builds an index over the existing rows. Fails as [`Catalog::add_index`] does.
fn add_index(
    alloc: Global,
    catalog: &mut Catalog,
    store: &mut Store,
    index: IndexDef,
) -> Result<(), Refusal>
    requires { AreKept catalog.old store.old }
    ensures due { AnswersDue (first_refusal (index_conditions index catalog.old)) result }
    ensures ok { OnOk result
        (state_of catalog.new store.new.tables ≡ after_definition (define.Index index) (state_of catalog.old store.old.tables)) }
    ensures err { OnErr result (state_of catalog.new store.new.tables ≡ state_of catalog.old store.old.tables) }
    ensures kept { AreKept catalog.new store.new }
    ensures log { KeepsLog store.old store.new }
{
    let place = catalog.place_of(&index.table).ok_or(Refusal::NoSuchTable)?;
    let columns = &catalog.table_at(place).definition.columns;
    let column = columns
        .place_of(&index.column.as_ref())
        .ok_or(Refusal::NoSuchColumn)?;
    let (name, kind) = (index.name.copy(), index.kind);
    catalog.add_index(index)?;
    if let Err(AllocError) = store.add_index(alloc, place, column, kind) {
        let _ = catalog.drop_index(&name);
        return Err(Refusal::Memory);
    }
    Ok(())
}

/// Drops an index. Fails with `NoSuchIndex` if none has the name.
fn drop_index(catalog: &mut Catalog, store: &mut Store, name: &Name) -> Result<(), Refusal>
    requires { AreKept catalog.old store.old }
    ensures due { AnswersDue (first_refusal (drop_index_conditions name.now catalog.old)) result }
    ensures ok { OnOk result
        (state_of catalog.new store.new.tables ≡ after_definition (define.DropIndex name.now) (state_of catalog.old store.old.tables)) }
    ensures err { OnErr result (state_of catalog.new store.new.tables ≡ state_of catalog.old store.old.tables) }
    ensures kept { AreKept catalog.new store.new }
    ensures log { KeepsLog store.old store.new }
{
    let table = catalog.place_with_index(name).ok_or(Refusal::NoSuchIndex)?;
    let indexes = &catalog.table_at(table).indexes;
    let index = indexes.place_of(name).ok_or(Refusal::NoSuchIndex)?;
    catalog.drop_index(name)?;
    store.drop_index(table, index);
    Ok(())
}
