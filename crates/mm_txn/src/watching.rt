//! Creating and dropping standing queries. Requires that no transaction is open.
ghost use Rattle.std.specs.Prelude.{◌≡◌, None, Some, map, IfOk, OnErr, OnOk};
ghost use Rattle.mm_laws.specs.Typing.{AreTyped, type_at};
ghost use Rattle.mm_plan.specs.Kept.{instance_of};
ghost use Rattle.mm_query.specs.Resolving.{IsQueryWithin, placed_query, places_in};
ghost use Rattle.mm_query.specs.Standing.{after_unwatch, after_watch, watch_conditions};
ghost use Rattle.mm_query.specs.declared.query.FromItem.{FromItem as Item};
ghost use Rattle.mm_schema.specs.Refused.{AnswersDue, first_refusal};
ghost use Rattle.mm_schema.specs.Standing.{drop_standing_conditions, standing_conditions};
ghost use Rattle.mm_txn.specs.Contents.{state_held};
ghost use Rattle.mm_txn.specs.Rest.{earlier_refusal, naming_conditions};
ghost use Rattle.mm_txn.specs.Saved.{IsSettled};

use crate::contents::Contents;
use mm_query::{Bound, BoundQuery, FieldPlace, FromItem, NamedQuery, Query, bind_query};
use mm_schema::{Catalog, Name, TableNames};
use mm_value::{ColType, Refusal};
use std::alloc::{AllocError, Global};

impl Contents {
    /// Appends a standing query and materializes its rows. Fails with the first refusal that is due, or with `Memory` if an allocation
    /// fails. Requires every row to match its column types, and both logs to be empty.
    pub(crate) fn watch(&mut self, alloc: Global, named: NamedQuery<'_>) -> Result<(), Refusal>
        requires settled { IsSettled self.old.store self.old.lists }
        requires typed { AreTyped self.old.schema.tables (instance_of self.old.store.tables) }
        ensures due { AnswersDue (first_refusal (watch_conditions named.entry.name named.entry.query (state_held self.old))) result }
        ensures ok { OnOk result (state_held self.new ≡ after_watch named.entry.name named.entry.query (state_held self.old)) }
        ensures err { OnErr result (state_held self.new ≡ state_held self.old) }
        ensures settled { IsSettled self.new.store self.new.lists }
    {
        prove!(self.catalog.standing().len() == self.standing.len());
        let NamedQuery { name, query } = named;
        let bound = bind_named(alloc, &self.catalog, &name, query)?;
        let names = names_of(alloc, bound.query.from.as_slice())?;
        let tables = copy_places(alloc, bound.tables.as_slice())?;
        let types = field_types(alloc, &self.catalog, &bound.query)?;
        self.catalog.add_standing(name.copy(), names)?;
        if let Err(refusal) = self
            .standing
            .watch(alloc, &self.store, bound.query, tables, types)
        {
            let _ = self.catalog.drop_standing(&name);
            return Err(refusal);
        }
        Ok(())
    }

    /// Drops a standing query. Fails with `NoSuchStandingQuery` if none has the name.
    pub(crate) fn unwatch(&mut self, name: &Name) -> Result<(), Refusal>
        requires { IsSettled self.old.store self.old.lists }
        ensures due { AnswersDue (first_refusal (drop_standing_conditions name.now self.old.schema)) result }
        ensures ok { OnOk result (state_held self.new ≡ after_unwatch name.now (state_held self.old)) }
        ensures err { OnErr result (state_held self.new ≡ state_held self.old) }
        ensures settled { IsSettled self.new.store self.new.lists }
    {
        let place = self
            .catalog
            .standing_place_of(name)
            .ok_or(Refusal::NoSuchStandingQuery)?;
        self.catalog.drop_standing(name)?;
        self.standing.unwatch(place);
        Ok(())
    }
}

/// Returns the query of a new standing query, with its fields resolved. Fails with the first refusal that is due by the catalog: that of a
/// taken name comes after missing tables, columns and positions, and before all others. Or with `Memory` if an allocation fails.
fn bind_named(
    alloc: Global,
    catalog: &Catalog,
    name: &Name,
    query: Query<'_>,
) -> Result<Bound, Refusal>
    ensures due { AnswersDue (first_refusal (naming_conditions name.now query.entry catalog.now)) result }
    ensures ok { IfOk result (λ bound. bound.query ≡ placed_query catalog.now query.entry) }
    ensures tables { IfOk result (λ bound. bound.tables ≡ places_in catalog.now query.entry.from) }
    ensures within { IfOk result (λ bound. IsQueryWithin catalog.now bound.query) }
    ensures free { OnOk result (first_refusal (standing_conditions name.now catalog.now) ≡ None) }
{
    let taken = catalog.standing_refusal(name);
    match bind_query(alloc, catalog, query) {
        Err(refusal) => Err(earlier_refusal(refusal, taken)),
        Ok(bound) => match taken {
            Some(refusal) => Err(refusal),
            None => Ok(bound),
        },
    }
}

/// Returns the refusal that is due, given that of a query and, if there is one, that of its name. A `Memory` of the query is returned.
fn earlier_refusal(of_query: Refusal, of_name: Option<Refusal>) -> Refusal
    ensures { result ≡ earlier_refusal of_query of_name }
{
    match (of_query, of_name) {
        (Refusal::NoSuchTable | Refusal::NoSuchColumn | Refusal::Memory, _) => of_query,
        (_, Some(Refusal::NameTaken)) => Refusal::NameTaken,
        _ => of_query,
    }
}

/// Returns the types of the fields of a query, from left to right. Fails with `AllocError` if an allocation fails.
fn field_types(
    alloc: Global,
    catalog: &Catalog,
    query: &BoundQuery,
) -> Result<Vec<ColType>, AllocError>
    requires { IsQueryWithin catalog.now query.now }
    ensures { IfOk result (λ types. map Some types.items ≡ map (type_at catalog.now query.now.from) query.now.fields) }
{
    let from = query.from.as_slice();
    let fields = query.fields.as_slice();
    let mut types = Vec::with_capacity(alloc, fields.len())?;
    for field in fields {
        let Some(col_type) = type_at(catalog, from, field) else {
            unreachable!()
        };
        types.push(col_type)?;
    }
    Ok(types)
}

/// Returns the type of the column of a field, or `None` if there is no such column.
fn type_at(catalog: &Catalog, from: &[FromItem], field: &FieldPlace) -> Option<ColType>
    ensures { result ≡ type_at catalog.now from.now field.now }
{
    let item = from.get(field.place)?;
    let table = catalog.find_table(&item.table)?;
    let column = table.definition.columns.as_slice().get(field.column)?;
    Some(column.col_type)
}

/// Returns the names of the tables of FROM. Fails with `AllocError` if an allocation fails.
fn names_of(alloc: Global, from: &[FromItem]) -> Result<TableNames, AllocError>
    ensures { IfOk result (λ names. names ≡ map (λ (item : Item). item.table) from.now) }
{
    let mut names = Vec::with_capacity(alloc, from.len())?;
    for item in from {
        names.push(item.table.copy())?;
    }
    Ok(TableNames::new(names))
}

/// Returns a copy of these places, in their order. Fails with `AllocError` if an allocation fails.
fn copy_places(alloc: Global, places: &[usize]) -> Result<Vec<usize>, AllocError>
    ensures { IfOk result (λ copied. copied.items ≡ places.now) }
{
    places.iter().copied().collect(alloc)
}
