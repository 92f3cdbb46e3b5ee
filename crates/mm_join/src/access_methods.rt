//! Access methods for the rows of the inner table that may match a combination.
ghost use Rattle.std.specs.Prelude.{◌≤◌, ◌≡◌, ℕ, ◌<◌, true, [], Contains, OnOk, Some, length, map, slice_index, slice_index_or};
ghost use Rattle.mm_partition.specs.Views.{viewed};
ghost use Rattle.mm_query.specs.Queries.{rows_read};
ghost use Rattle.mm_join.specs.Equated.{IsPartner};
ghost use Rattle.mm_join.specs.AccessMethods.{AreCandidates, IsAccessMethod, found_behind, listed, with_prefix};
ghost use Rattle.mm_join.specs.declared.access_methods.AccessMethod.TheVariants.{Sought};
ghost use Rattle.mm_partition.specs.Places.{IsLive};
ghost use Rattle.mm_indexed.specs.Kept.{StoredRows};
ghost use Rattle.mm_store.specs.Tables.{IsAt, rows_at};
ghost use Rattle.mm_templist.specs.Combos.{AreLive, rows_of_combo};

use crate::inner::{Inner, Outer};
use crate::key::JoinKey;
use crate::look_up::{Among, LookUp};
use mm_partition::RowView;
use mm_query::FieldPlace;
use mm_store::View;
use mm_value::RowRef;
use std::alloc::{AllocError, Global};

/// The way in which a join finds the rows of the inner table that may match a combination.
#[derive(Drop)]
pub(crate) enum AccessMethod {
    /// All rows may match: their references.
    All(Vec<RowRef>),
    /// The row that the combination's row refers to by this foreign key.
    Followed(FieldPlace),
    /// The rows that a look-up finds.
    Sought(LookUp),
}

impl AccessMethod {
    /// Returns the access method that looks up the value required by a key.
    pub fn by(among: Among, key: JoinKey) -> AccessMethod
        ensures { result ≡ Sought (record { among = among; key = key }) }
    {
        AccessMethod::Sought(LookUp { among, key })
    }

    /// Returns `true` only if a prefix shows that no row matches the combination.
    pub fn has_none(&mut self, view: &mut View<'_>, _inner: &Inner<'_>, outer: Outer<'_>) -> bool
        requires there { _inner.now.table < length view.old.store.tables }
        requires live { AreLive view.old.store outer.tables.now outer.refs.now }
        requires method { IsAccessMethod view.old.store outer.tables.now _inner.now self.old }
        ensures none { result ≡ true → AreCandidates view.old.store _inner.now.table _inner.now.atoms.now
            (rows_of_combo view.old.store outer.entry.tables.now outer.entry.refs.now) 0 [] }
        ensures reads { view.new.reads ≤ with_prefix self.old view.old.reads }
        ensures store { view.new.store ≡ view.old.store }
        ensures same { self.new ≡ self.old }
    {
        match self {
            AccessMethod::Sought(look_up) => look_up.has_none(view, outer),
            _ => false,
        }
    }

    /// Replaces the contents of `found` by the references of the rows of the inner table that may match a combination; if all rows may
    /// match, `found` is unchanged. `rows` has the rows of the combination. Reads no row. Fails with `AllocError` if an allocation fails.
    pub fn find(
        &mut self,
        alloc: Global,
        view: &View<'_>,
        inner: &Inner<'_>,
        outer: Outer<'_>,
        rows: &[Option<RowView<'_>>],
        found: &mut Vec<RowRef>,
    ) -> Result<(), AllocError>
        requires there { inner.now.table < length view.now.store.tables }
        requires live { AreLive view.now.store outer.tables.now outer.refs.now }
        requires rows { rows_read viewed rows.now ≡ map Some (rows_of_combo view.now.store outer.tables.now outer.refs.now) }
        requires method { IsAccessMethod view.now.store outer.tables.now inner.now self.old }
        ensures found { OnOk result (AreCandidates view.now.store inner.now.table inner.now.atoms.now
            (rows_of_combo view.now.store outer.entry.tables.now outer.entry.refs.now)
            (found_behind self.old (rows_at view.now.store.tables inner.now.table)
            (rows_of_combo view.now.store outer.entry.tables.now outer.entry.refs.now))
            (listed self.old found.new.items)) }
        ensures same { self.new ≡ self.old }
    {
        match self {
            AccessMethod::All(_) => Ok(()),
            AccessMethod::Followed(field) => {
                found.clear();
                found.push(partner(view, outer, *field))?;
                Ok(())
            }
            AccessMethod::Sought(look_up) => look_up.find_partners(
                alloc,
                view,
                inner.table,
                rows,
                found,
            ),
        }
    }

    /// Returns the references in `found`, or those of all rows if all rows may match each combination.
    pub fn candidates<'f>(&'f self, found: &'f [RowRef]) -> &'f [RowRef]
        ensures { result.now ≡ listed self.now found.now }
    {
        match self {
            AccessMethod::All(refs) => refs.as_slice(),
            _ => found,
        }
    }
}

/// Returns the reference of the row that a combination's row refers to by a foreign key.
fn partner(view: &View<'_>, outer: Outer<'_>, field: FieldPlace) -> RowRef
    requires table { field.place < length outer.tables.now }
    requires reference { field.place < length outer.refs.now }
    requires there { slice_index outer.tables.now field.place < length view.now.store.tables }
    requires refers { (to : ℕ) × Contains view.now.store.links (record { from = slice_index outer.tables.now field.place; column = field.column; to = to }) }
    requires live { (stored : StoredRows) → IsAt view.now.store (slice_index outer.tables.now field.place) stored
        → IsLive stored.places (slice_index_or outer.refs.now field.place (record { slot = 0 })) }
    ensures { IsPartner view.now.store (slice_index outer.entry.tables.now field.place) field.column
        (slice_index_or outer.entry.refs.now field.place (record { slot = 0 })) result }
{
    view.follow(
        outer.tables[field.place],
        field.column,
        outer.refs[field.place],
    )
}
