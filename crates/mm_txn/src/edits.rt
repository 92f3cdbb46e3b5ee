//! The edits of a change of rows.
ghost use Rattle.std.specs.Prelude.{◌≡◌, ◌++◌, ◌∷◌, map, IfOk, OnErr};
ghost use Rattle.mm_schema.specs.Refused.{AnswersDue, first_refusal};
ghost use Rattle.mm_schema.specs.Schema.{HasDistinctNames, Schema};
ghost use Rattle.mm_query.specs.Binding.{binding_conditions};
ghost use Rattle.mm_query.specs.Edits.{value_conditions};
ghost use Rattle.mm_query.specs.declared.command.Mutation.{Mutation};
ghost use Rattle.mm_plan.specs.Kept.{AreKept, AreOf};
ghost use Rattle.mm_store.specs.Marks.{mark_of};
ghost use Rattle.mm_txn.specs.Bound.{IsBoundChange, bound_of};
ghost use Rattle.mm_txn.specs.Kept.{KeepsState, state_of};
ghost use Rattle.mm_txn.specs.PlacedEdits.{AreEditsOf, AreOwnEditsOf, placed, placed_change};

use crate::bound::ChangeToRun;
use crate::cascades::cascades;
use crate::contents::Contents;
use crate::row_edits::{additions, removals, updates};
use mm_delta::TableChange;
use mm_schema::Catalog;
use mm_store::Store;
use mm_tables::Edit;
use mm_value::{Few, Refusal};
use std::alloc::Global;

/// Edits of the relation of one table.
#[derive(Drop)]
pub(crate) struct RelationEdits {
    /// The table's place in the order of creation.
    pub(crate) table: usize,
    /// The edits, no two of which have a slot in common. Their new rows are staged.
    pub(crate) edits: Few<Edit>,
}

impl RelationEdits {
    /// Returns the edits in the form that the lists of standing queries read.
    pub(crate) fn as_change(&self) -> TableChange<'_>
        ensures { placed_change result ≡ placed self.now }
    {
        TableChange {
            table: self.table,
            edits: self.edits.as_slice(),
        }
    }
}

/// The edits of all tables that a change affects.
#[derive(Drop)]
pub(crate) struct ChangeEdits {
    /// The edits of the table that the change names.
    pub(crate) own: RelationEdits,
    /// The deletions to which a DELETE cascades, in the order of the tables' creation. Empty for any other change.
    pub(crate) cascaded: Vec<RelationEdits>,
}

impl Contents {
    /// Returns the edits of a bound change. Their new rows are staged, and all else is as before. Fails as [`updates`] does, or with
    /// `Memory` if an allocation fails; then nothing changes.
    pub(crate) fn edits_of(
        &mut self,
        alloc: Global,
        change: ChangeToRun<'_>,
    ) -> Result<ChangeEdits, Refusal>
        requires { (mutation : Mutation) × IsBoundChange self.old.schema mutation (bound_of change) }
        ensures due { (mutation : Mutation) → IsBoundChange self.old.schema mutation (bound_of change.entry)
            → AnswersDue (first_refusal (binding_conditions mutation self.old.schema
            ++ value_conditions mutation (state_of self.old.schema self.old.store.tables))) result }
        ensures ok { IfOk result (λ e. (mutation : Mutation) → IsBoundChange self.old.schema mutation (bound_of change.entry)
            → AreEditsOf mutation self.new.schema self.new.store (placed e.own) (map placed e.cascaded.items)) }
        ensures schema { self.new.schema ≡ self.old.schema }
        ensures store { KeepsState self.old.store self.new.store }
        ensures lists { self.new.lists ≡ self.old.lists }
        ensures err { OnErr result (mark_of self.new.store ≡ mark_of self.old.store) }
    {
        let mark = self.store.mark();
        match staged_edits(alloc, &self.catalog, &mut self.store, change) {
            Ok(edits) => Ok(edits),
            Err(refusal) => {
                self.store.revert(mark);
                Err(refusal)
            }
        }
    }
}

/// Returns the edits of a bound change. Fails as [`Contents::edits_of`] does; then some of the rows may be staged.
fn staged_edits(
    alloc: Global,
    catalog: &Catalog,
    store: &mut Store,
    change: ChangeToRun<'_>,
) -> Result<ChangeEdits, Refusal>
    requires kept { AreKept catalog.now store.old }
    requires bound { (mutation : Mutation) × IsBoundChange catalog.now mutation (bound_of change) }
    ensures due { (mutation : Mutation) → IsBoundChange catalog.now mutation (bound_of change.entry)
        → AnswersDue (first_refusal (binding_conditions mutation catalog.now
        ++ value_conditions mutation (state_of catalog.now store.old.tables))) result }
    ensures ok { IfOk result (λ e. (mutation : Mutation) → IsBoundChange catalog.now mutation (bound_of change.entry)
        → AreEditsOf mutation catalog.now store.new (placed e.own) (map placed e.cascaded.items)) }
    ensures store { KeepsState store.old store.new }
{
    let cascades_rows = matches!(change, ChangeToRun::Delete { .. });
    let own = own_edits(alloc, store, change)?;
    let cascaded = if cascades_rows {
        cascades(alloc, catalog, store, &own)?
    } else {
        Vec::new(alloc)
    };
    Ok(ChangeEdits { own, cascaded })
}

/// Returns the edits of the table that a bound change names. Fails as [`Contents::edits_of`] does; then some of the rows may be staged.
fn own_edits(
    alloc: Global,
    store: &mut Store,
    change: ChangeToRun<'_>,
) -> Result<RelationEdits, Refusal>
    requires { (schema : Schema) × (mutation : Mutation) × AreOf schema.tables store.old.tables × IsBoundChange schema mutation (bound_of change) }
    ensures due { (schema : Schema) (mutation : Mutation) → AreOf schema.tables store.old.tables → IsBoundChange schema mutation (bound_of change.entry)
        → AnswersDue (first_refusal (binding_conditions mutation schema ++ value_conditions mutation (state_of schema store.old.tables))) result }
    ensures ok { IfOk result (λ e. (schema : Schema) (mutation : Mutation) → AreOf schema.tables store.old.tables
        → IsBoundChange schema mutation (bound_of change.entry) → AreOwnEditsOf mutation schema store.new.tables e.table e.edits) }
    ensures store { KeepsState store.old store.new }
{
    match change {
        ChangeToRun::Insert { table, tuples } => {
            let edits = additions(alloc, store, table, tuples.into_rows())?;
            Ok(RelationEdits { table, edits })
        }
        ChangeToRun::Update {
            table,
            assignments,
            tests,
        } => {
            store.keeps_tables();
            let edits = updates(alloc, store, table, assignments, tests)?;
            Ok(RelationEdits { table, edits })
        }
        ChangeToRun::Delete { table, tests } => {
            let mut view = store.view();
            let edits = removals(alloc, &mut view, table, tests)?;
            Ok(RelationEdits { table, edits })
        }
    }
}
