//! Resolution of the names of a change against the catalog.
ghost use Rattle.std.specs.Prelude.{◌≡◌, not, Some, None, IfOk, MatchResult, zip};
ghost use Rattle.std.specs.List.{list_any};
ghost use Rattle.mm_value.specs.Types.{type_of};
ghost use Rattle.mm_schema.specs.Columns.{same_type};
ghost use Rattle.mm_schema.specs.Refused.{AnswersDue, first_refusal};
ghost use Rattle.mm_schema.specs.Schema.{HasDistinctNames};
ghost use Rattle.mm_query.specs.Binding.{Binds, binding_conditions, has_other_length, has_type_mismatch};
ghost use Rattle.mm_query.specs.declared.command.Mutation.TheVariants.{Insert, Update, Delete};

use crate::atom::{Assignment, Atom};
use crate::bound_query::FieldPlace;
use crate::command::Mutation;
use crate::place::{form_faults, place_assignments, place_tests};
use crate::row_list::RowList;
use crate::short_list::ShortList;
use mm_schema::{Catalog, Column, Name, NameRef};
use mm_value::{Few, Refusal, Tuple, Value};
use std::alloc::Global;

/// A change whose names are resolved against a catalog.
#[derive(Debug, Drop)]
pub enum BoundChange {
    /// Inserts rows into a table.
    Insert {
        /// The position of the table in the catalog's order of creation.
        table: usize,
        /// The rows. Each has one value of the right type for each column.
        tuples: RowList,
    },
    /// Updates the rows of a table that match all tests.
    Update {
        /// The position of the table in the catalog's order of creation.
        table: usize,
        /// The assignments, with positions of columns.
        assignments: ShortList<Assignment<usize>, 2>,
        /// The tests, as atoms of a query of this table alone.
        tests: ShortList<Atom<FieldPlace>, 2>,
    },
    /// Deletes the rows of a table that match all tests.
    Delete {
        /// The position of the table in the catalog's order of creation.
        table: usize,
        /// The tests, as atoms of a query of this table alone.
        tests: ShortList<Atom<FieldPlace>, 2>,
    },
}

/// Returns a change with its names resolved, and checks its values and tests against the columns. Looks up each name once. Fails with the
/// first of these refusals whose condition holds over the whole command:
///
/// - `NoSuchTable`.
/// - `NoSuchColumn`.
/// - `NameTaken`: a column occurs twice in SET.
/// - `TypeMismatch`.
/// - `WrongNumberOfValues`.
/// - `TooMany`: there are more than 16 tests.
///
/// May instead fail with `Memory`, but an INSERT allocates nothing here.
pub fn bind_change(
    alloc: Global,
    catalog: &Catalog,
    mutation: Mutation<'_>,
) -> Result<BoundChange, Refusal>
    ensures due { AnswersDue (first_refusal (binding_conditions mutation.entry catalog.now)) result }
    ensures ok { IfOk result (Binds catalog.now mutation.entry) }
    ensures distinct { HasDistinctNames catalog.now }
{
    match mutation {
        Mutation::Insert { table, tuples } => bind_insert(catalog, &table, tuples),
        Mutation::Update {
            table,
            assignments,
            tests,
        } => bind_update(alloc, catalog, &table, assignments, tests),
        Mutation::Delete { table, tests } => bind_delete(alloc, catalog, &table, tests),
    }
}

/// Resolves the table of an UPDATE, and the columns of its assignments and tests. Fails as [`bind_change`] does.
fn bind_update(
    alloc: Global,
    catalog: &Catalog,
    name: &Name,
    assignments: Few<Assignment<NameRef<'_>>>,
    tests: Few<Atom<NameRef<'_>>>,
) -> Result<BoundChange, Refusal>
    ensures due { AnswersDue (first_refusal (binding_conditions (Update name.now assignments.entry tests.entry) catalog.now)) result }
    ensures ok { IfOk result (Binds catalog.now (Update name.now assignments.entry tests.entry)) }
    ensures distinct { HasDistinctNames catalog.now }
{
    let Some(table) = catalog.place_of(name) else {
        return Err(Refusal::NoSuchTable);
    };
    let columns = &catalog.table_at(table).definition.columns;
    let mut faults = form_faults(assignments.as_slice(), tests.as_slice());
    let assignments = place_assignments(alloc, columns, assignments, &mut faults)?;
    let tests = place_tests(alloc, columns, tests, &mut faults)?;
    match faults.refusal(Refusal::NameTaken) {
        Some(refusal) => Err(refusal),
        None => Ok(BoundChange::Update {
            table,
            assignments,
            tests,
        }),
    }
}

/// Resolves the table of a DELETE, and the columns of its tests. Fails as [`bind_change`] does.
fn bind_delete(
    alloc: Global,
    catalog: &Catalog,
    name: &Name,
    tests: Few<Atom<NameRef<'_>>>,
) -> Result<BoundChange, Refusal>
    ensures due { AnswersDue (first_refusal (binding_conditions (Delete name.now tests.entry) catalog.now)) result }
    ensures ok { IfOk result (Binds catalog.now (Delete name.now tests.entry)) }
    ensures distinct { HasDistinctNames catalog.now }
{
    let Some(table) = catalog.place_of(name) else {
        return Err(Refusal::NoSuchTable);
    };
    let columns = &catalog.table_at(table).definition.columns;
    let mut faults = form_faults(&[], tests.as_slice());
    let tests = place_tests(alloc, columns, tests, &mut faults)?;
    match faults.refusal(Refusal::NameTaken) {
        Some(refusal) => Err(refusal),
        None => Ok(BoundChange::Delete { table, tests }),
    }
}

/// Resolves the table of an INSERT, and checks its tuples against the columns. Fails as [`bind_change`] does. Allocates nothing.
#[tactic(auto, using(crate::proofs::Tuples::due_nowhere))]
fn bind_insert(catalog: &Catalog, name: &Name, tuples: RowList) -> Result<BoundChange, Refusal>
    ensures due { MatchResult result (λ _. first_refusal (binding_conditions (Insert name.now tuples) catalog.now) ≡ None)
        (λ refusal. first_refusal (binding_conditions (Insert name.now tuples) catalog.now) ≡ Some refusal) }
    ensures ok { IfOk result (Binds catalog.now (Insert name.now tuples)) }
    ensures distinct { HasDistinctNames catalog.now }
{
    let Some(place) = catalog.place_of(name) else {
        return Err(Refusal::NoSuchTable);
    };
    let columns = catalog.table_at(place).definition.columns.as_slice();
    if have_type_mismatch(columns, tuples.as_slice()) {
        return Err(Refusal::TypeMismatch);
    }
    if have_other_length(columns, tuples.as_slice()) {
        return Err(Refusal::WrongNumberOfValues);
    }
    Ok(BoundChange::Insert {
        table: place,
        tuples,
    })
}

/// Returns whether any value of any tuple differs in type from its column.
fn have_type_mismatch(columns: &[Column], tuples: &[Tuple]) -> bool
    ensures { result ≡ list_any (has_type_mismatch columns.now) tuples.now }
{
    tuples
        .iter()
        .any(|tuple| has_type_mismatch(columns, tuple.values()))
}

/// Returns whether any tuple has more or fewer values than there are columns.
fn have_other_length(columns: &[Column], tuples: &[Tuple]) -> bool
    ensures { result ≡ list_any (has_other_length columns.now) tuples.now }
{
    tuples.iter().any(|tuple| tuple.len() != columns.len())
}

/// Returns whether any value differs in type from its column. Ignores values that have no column.
#[tactic(auto, using(crate::proofs::Tuples::mismatch_in_pairs))]
fn has_type_mismatch(columns: &[Column], values: &[Value]) -> bool
    ensures { result ≡ has_type_mismatch columns.now values.now }
{
    has_unequal_pair(columns, values)
}

/// Returns whether a column and the value at its position differ in type.
fn has_unequal_pair(columns: &[Column], values: &[Value]) -> bool
    ensures { result ≡ list_any (λ p. not (same_type p.0.col_type (type_of p.1))) (zip columns.now values.now) }
{
    columns
        .iter()
        .zip(values)
        .any(|(column, value)| column.col_type != value.col_type())
}
