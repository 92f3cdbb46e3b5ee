//! The new rows of edits, by their values in a column.
ghost use Rattle.std.specs.Prelude.{◌≡◌, ◌++◌, [], ◌∷◌, false, if◌then◌else◌, map, true, List, IfOk, OnOk, Some};
ghost use Rattle.mm_partition.specs.Views.{viewed};
ghost use Rattle.mm_value.specs.Equality.{same_value};
ghost use Rattle.mm_value.specs.declared.values.Value.{Value as AnyValue};
ghost use Rattle.mm_delta.specs.Candidates.{having};
ghost use Rattle.mm_delta.specs.EditIndex.{AreUnder, HasNonePast, rows_under};
ghost use Rattle.mm_delta.specs.Wanted.{value_wanted};

use crate::known::value_in;
use crate::wanted::{Wanted, number_value};
use indexmap::IndexMap;
use mm_partition::RowView;
use mm_value::Value;
use std::alloc::{AllocError, Global};

/// A hash index over the new rows of edits.
#[derive(Drop)]
pub(crate) struct ComingIndex<'c> {
    /// The column by whose values the rows are found, counted from 0.
    pub(crate) column: usize,
    /// The rows with each value, in the order of their edits.
    pub(crate) rows: IndexMap<Value, Vec<RowView<'c>>>,
}

impl<'c> ComingIndex<'c> {
    /// Returns an index on a column over the new rows of edits. Fails with `AllocError` if an allocation fails.
    pub(crate) fn new(
        alloc: Global,
        come: &[RowView<'c>],
        column: usize,
    ) -> Result<ComingIndex<'c>, AllocError>
        ensures column { IfOk result (λ index. index.column ≡ column) }
        ensures rows { IfOk result (λ index. AreUnder column (map viewed come.now) index.rows.entries) }
        ensures past { IfOk result (λ index. HasNonePast index.rows.entries) }
    {
        let mut rows = IndexMap::new(alloc);
        for row in come {
            add_coming(alloc, &mut rows, column, *row)?;
        }
        Ok(ComingIndex { column, rows })
    }

    /// Appends the rows that have a value in the column. Fails with `AllocError` if an allocation fails.
    pub(crate) fn add_rows(
        &self,
        value: &Value,
        rows: &mut Vec<RowView<'c>>,
    ) -> Result<(), AllocError>
        ensures { OnOk result (map viewed rows.new.items ≡ map viewed rows.old.items ++ rows_under value.now self.now.rows.entries) }
    {
        if let Some(found) = self.rows.get(value) {
            rows.extend_from_slice(found)?;
        }
        Ok(())
    }

    /// Appends the rows that have a wanted value in the column. Fails with `AllocError` if an allocation fails.
    pub(crate) fn add_wanted(
        &self,
        wanted: &Wanted,
        rows: &mut Vec<RowView<'c>>,
    ) -> Result<(), AllocError>
        requires { HasNonePast self.now.rows.entries }
        ensures { OnOk result (map viewed rows.new.items ≡ map viewed rows.old.items ++ rows_under (value_wanted wanted.now) self.now.rows.entries) }
    {
        match wanted {
            Wanted::Value(value) => self.add_rows(value, rows),
            Wanted::Sum(sum) => match number_value(*sum) {
                Some(value) => self.add_rows(&value, rows),
                None => Ok(()),
            },
        }
    }
}

/// Appends a row to those with its value in a column. Fails with `AllocError` if an allocation fails.
fn add_coming<'c>(
    alloc: Global,
    rows: &mut IndexMap<Value, Vec<RowView<'c>>>,
    column: usize,
    row: RowView<'c>,
) -> Result<(), AllocError>
    ensures added { OnOk result ((value : AnyValue) → rows_under value rows.new.entries
        ≡ rows_under value rows.old.entries ++ having (Some (column, value)) (viewed row.entry ∷ [])) }
    ensures past { OnOk result (HasNonePast rows.old.entries → HasNonePast rows.new.entries) }
{
    let value = value_in(row, column).copy(alloc)?;
    value.is_storable();
    add_row(alloc, rows, value, row)
}

/// Appends a row to those with a value. Fails with `AllocError` if an allocation fails.
fn add_row<'c>(
    alloc: Global,
    rows: &mut IndexMap<Value, Vec<RowView<'c>>>,
    value: Value,
    row: RowView<'c>,
) -> Result<(), AllocError>
    ensures { OnOk result ((other : AnyValue) → rows_under other rows.new.entries
        ≡ rows_under other rows.old.entries ++ (if same_value value other then viewed row.entry ∷ [] else [])) }
{
    if add_found(rows, &value, row)? {
        return Ok(());
    }
    let mut list = Vec::new(alloc);
    list.push(row)?;
    rows.insert(value, list)?;
    Ok(())
}

/// Appends a row to those with a value if the value has an entry, and returns whether it has one. Fails with `AllocError` if an allocation
/// fails.
fn add_found<'c>(
    rows: &mut IndexMap<Value, Vec<RowView<'c>>>,
    value: &Value,
    row: RowView<'c>,
) -> Result<bool, AllocError>
    ensures added { IfOk result (λ found. found ≡ true → (other : AnyValue) → rows_under other rows.new.entries
        ≡ rows_under other rows.old.entries ++ (if same_value value.now other then viewed row.entry ∷ [] else [])) }
    ensures absent { IfOk result (λ found. found ≡ false → rows_under value.now rows.old.entries ≡ []) }
    ensures kept { IfOk result (λ found. found ≡ false → rows.new ≡ rows.old) }
{
    match rows.get_mut(value) {
        Some(list) => {
            list.push(row)?;
            Ok(true)
        }
        None => Ok(false),
    }
}
