//! All rows of a table, in an order.
ghost use Rattle.std.specs.Prelude.{◌≡◌, Some, None, IfOk, MatchResult};
ghost use Rattle.mm_query.specs.Machine.{conditions, rows_by_index};
ghost use Rattle.mm_query.specs.State.{rows_in};
ghost use Rattle.mm_query.specs.declared.command.Command.TheVariants.{Scan, ScanIndex};
ghost use Rattle.mm_indexed.specs.Kept.{StoredRows};
ghost use Rattle.mm_schema.specs.Refused.{AnswersDue, first_refusal};
ghost use Rattle.mm_store.specs.Ordered.{rows_in_order};
ghost use Rattle.mm_store.specs.Tables.{IsAt};
ghost use Rattle.mm_txn.specs.Contents.{state_held};
ghost use Rattle.mm_txn.specs.IndexPlaces.{IsThere};

use crate::contents::Contents;
use crate::index_place::IndexPlace;
use mm_schema::Name;
use mm_store::TableRows;
use mm_value::Refusal;
use std::alloc::Global;

impl Contents {
    /// Returns the rows of a table, in the order of its key. Fails with `NoSuchTable` if none has the name. Allocates nothing.
    pub(crate) fn scan(&self, table: &Name) -> Result<TableRows<'_>, Refusal>
        ensures due { MatchResult result (λ _. first_refusal (conditions (Scan table.now) (state_held self.now)) ≡ None)
            (λ refusal. first_refusal (conditions (Scan table.now) (state_held self.now)) ≡ Some refusal) }
        ensures rows { IfOk result (λ rows. rows ≡ rows_in (state_held self.now) table.now) }
    {
        let place = self.catalog.place_of(table).ok_or(Refusal::NoSuchTable)?;
        Ok(self.store.rows_by_key(place))
    }

    /// Returns the position of the index with a name. Fails with `NoSuchIndex` if none has the name. Allocates nothing.
    fn place_of_index(&self, name: &Name) -> Result<IndexPlace, Refusal>
        ensures due { MatchResult result (λ _. first_refusal (conditions (ScanIndex name.now) (state_held self.now)) ≡ None)
            (λ refusal. first_refusal (conditions (ScanIndex name.now) (state_held self.now)) ≡ Some refusal) }
        ensures there { IfOk result (IsThere self.now.store) }
        ensures rows { IfOk result (λ index. (stored : StoredRows) → IsAt self.now.store index.table stored
            → rows_in_order index.column stored ≡ rows_by_index (state_held self.now) name.now) }
    {
        let index = self.catalog.find_index(name).ok_or(Refusal::NoSuchIndex)?;
        let at = self
            .catalog
            .place_of(&index.table)
            .ok_or(Refusal::NoSuchIndex)?;
        let table = self.catalog.table_at(at);
        let place = table.indexes.place_of(name).ok_or(Refusal::NoSuchIndex)?;
        let columns = &table.definition.columns;
        let column = columns
            .place_of(&index.column.as_ref())
            .ok_or(Refusal::NoSuchIndex)?;
        Ok(IndexPlace {
            table: at,
            place,
            column,
            kind: index.kind,
        })
    }

    /// Returns the rows of a table, in the order of the index with a name. Fails with `NoSuchIndex` if none has the name; for a HASH index
    /// also with `Memory` if an allocation fails.
    pub(crate) fn scan_index(&self, alloc: Global, name: &Name) -> Result<TableRows<'_>, Refusal>
        ensures due { AnswersDue (first_refusal (conditions (ScanIndex name.now) (state_held self.now))) result }
        ensures rows { IfOk result (λ rows. rows ≡ rows_by_index (state_held self.now) name.now) }
    {
        let index = self.place_of_index(name)?;
        let rows = self
            .store
            .rows_by_index(alloc, index.table, index.place, index.column, index.kind)?;
        Ok(rows)
    }
}
