//! The results of temporary lists.
ghost use Rattle.std.specs.Prelude.{◌≡◌, ◌+◌, ◌++◌, ◌*◌, ◌∷◌, ◌≤◌, [], All, IfOk, OnErr, OnOk, Some, length, map, pos, take};
ghost use Rattle.std.specs.Option.{unwrap_or};
ghost use Rattle.mm_value.specs.Views.{value_of};
ghost use Rattle.mm_value.specs.declared.values.Value.TheVariants.{Int};
ghost use Rattle.mm_partition.specs.Views.{viewed};
ghost use Rattle.mm_query.specs.Queries.{rows_read, value_at, values_of};
ghost use Rattle.mm_templist.specs.Combos.{AreLive, rows_of_combo};
ghost use Rattle.mm_templist.specs.Pieces.{pieces};
ghost use Rattle.mm_templist.specs.Results.{projected_rows, result_rows};
ghost use Rattle.mm_templist.specs.Runs.{referred};

use crate::shown::ShownRows;
use crate::temp_list::TempList;
use mm_partition::RowView;
use mm_query::{FieldPlace, RowBuffer};
use mm_store::View;
use mm_value::{Row, RowRef, ValueRef};
use smallvec::SmallVec;
use std::alloc::{AllocError, Global};

/// The most values of a single row that is copied without an intermediate allocation: the most fields that a query has.
const FEW_VALUES: usize = 16;

/// The rows of a combination. A query has at most four tables.
type Chosen<'s> = SmallVec<Option<RowView<'s>>, 4>;

impl<'a> TempList<'a> {
    /// Returns the rows of the result: for each combination a row of the values of the fields. The rows are sorted by their values in the
    /// columns of `order`, from 0, and then as whole rows. With `distinct`, equal rows are returned once. Copies no value. A field without
    /// a row, or past the end of its row, counts as 0. Each reference counts as one read. Fails with `AllocError` if an allocation fails.
    pub fn shown<'s>(
        &self,
        alloc: Global,
        view: &mut View<'s>,
        distinct: bool,
        order: &[usize],
    ) -> Result<ShownRows<'s>, AllocError>
        requires live { All (AreLive view.old.store self.now.tables) self.now.combos }
        ensures ok { IfOk result (λ rows. rows ≡ result_rows view.old.store self.now distinct order.now) }
        ensures reads { view.new.reads ≤ view.old.reads + length self.now.combos * length self.now.tables }
        ensures same { view.new.store ≡ view.old.store }
    {
        let width = self.descriptor().fields.len();
        let values = self.projected(alloc, view)?;
        ShownRows::sorted(alloc, values, width, self.len(), distinct, order)
    }

    /// Returns copies of the rows of the result, those of `shown`. Fails with `AllocError` if an allocation fails.
    pub fn project_sorted(
        &self,
        alloc: Global,
        view: &mut View<'_>,
        distinct: bool,
        order: &[usize],
    ) -> Result<Vec<Row>, AllocError>
        requires live { All (AreLive view.old.store self.now.tables) self.now.combos }
        ensures ok { IfOk result (λ rows. rows.items ≡ result_rows view.old.store self.now distinct order.now) }
        ensures reads { view.new.reads ≤ view.old.reads + length self.now.combos * length self.now.tables }
        ensures same { view.new.store ≡ view.old.store }
    {
        let shown = self.shown(alloc, view, distinct, order)?;
        copy_rows(alloc, &shown)
    }

    /// Appends copies of the rows of the result, those of `shown`, to a buffer. A single row of at most 16 values is copied directly, so
    /// that only the buffer allocates. Fails with `AllocError` if an allocation fails; then the previous rows of the buffer are unchanged,
    /// and some of the result may follow them.
    pub fn copy_into(
        &self,
        alloc: Global,
        view: &mut View<'_>,
        distinct: bool,
        order: &[usize],
        buffer: &mut RowBuffer,
    ) -> Result<(), AllocError>
        requires live { All (AreLive view.old.store self.now.tables) self.now.combos }
        ensures ok { OnOk result (buffer.new ≡ buffer.old ++ result_rows view.old.store self.now distinct order.now) }
        ensures err { OnErr result (take (length buffer.old) buffer.new ≡ buffer.old) }
        ensures reads { view.new.reads ≤ view.old.reads + length self.now.combos * length self.now.tables }
        ensures same { view.new.store ≡ view.old.store }
    {
        match self.len() {
            0 => Ok(()),
            1 if self.descriptor().fields.len() <= FEW_VALUES => {
                self.copy_only(alloc, view, buffer)
            }
            _ => self.copy_sorted(alloc, view, distinct, order, buffer),
        }
    }

    /// Copies as [`TempList::copy_into`] does. A separate function, so that a single row moves no list of values.
    #[inline(never)]
    fn copy_sorted(
        &self,
        alloc: Global,
        view: &mut View<'_>,
        distinct: bool,
        order: &[usize],
        buffer: &mut RowBuffer,
    ) -> Result<(), AllocError>
        requires live { All (AreLive view.old.store self.now.tables) self.now.combos }
        ensures ok { OnOk result (buffer.new ≡ buffer.old ++ result_rows view.old.store self.now distinct order.now) }
        ensures err { OnErr result (take (length buffer.old) buffer.new ≡ buffer.old) }
        ensures reads { view.new.reads ≤ view.old.reads + length self.now.combos * length self.now.tables }
        ensures same { view.new.store ≡ view.old.store }
    {
        let shown = self.shown(alloc, view, distinct, order)?;
        shown.copy_into(alloc, buffer)
    }

    /// Appends a copy of the row of the only combination to a buffer. Fails with `AllocError` if an allocation fails; then the rows are
    /// unchanged.
    fn copy_only(
        &self,
        alloc: Global,
        view: &mut View<'_>,
        buffer: &mut RowBuffer,
    ) -> Result<(), AllocError>
        requires live { All (AreLive view.old.store self.now.tables) self.now.combos }
        requires only { length self.now.combos ≡ 1 }
        requires few { length self.now.fields ≤ 16 }
        ensures ok { OnOk result (buffer.new ≡ buffer.old ++ projected_rows view.old.store self.now) }
        ensures err { OnErr result (buffer.new ≡ buffer.old) }
        ensures reads { view.new.reads ≤ view.old.reads + length self.now.tables }
        ensures same { view.new.store ≡ view.old.store }
    {
        let descriptor = self.descriptor();
        let combo = self.combo(0);
        if descriptor.tables.len() == 1 {
            let row = view.row(descriptor.tables[0], combo[0]);
            return copy_values(alloc, descriptor.fields, &[Some(row)], buffer);
        }
        let mut chosen = SmallVec::with_capacity(alloc, descriptor.tables.len())?;
        choose_rows(view, descriptor.tables, combo, &mut chosen)?;
        copy_values(alloc, descriptor.fields, chosen.as_slice(), buffer)
    }

    /// Returns the values of the fields, combination by combination, as references to where they are stored. Fails with `AllocError` if an
    /// allocation fails.
    fn projected<'s>(
        &self,
        alloc: Global,
        view: &mut View<'s>,
    ) -> Result<Vec<ValueRef<'s>>, AllocError>
        requires live { All (AreLive view.old.store self.now.tables) self.now.combos }
        ensures rows { IfOk result (λ values. pieces (length self.now.fields) (length self.now.combos) (referred values.items)
            ≡ projected_rows view.old.store self.now) }
        ensures whole { IfOk result (λ values. length values.items ≡ length self.now.combos * length self.now.fields) }
        ensures reads { view.new.reads ≤ view.old.reads + length self.now.combos * length self.now.tables }
        ensures same { view.new.store ≡ view.old.store }
    {
        let descriptor = self.descriptor();
        let mut chosen = SmallVec::with_capacity(alloc, descriptor.tables.len())?;
        let room = self.len().saturating_mul(descriptor.fields.len());
        let mut values = Vec::with_capacity(alloc, room)?;
        for i in 0..self.len() {
            choose_rows(view, descriptor.tables, self.combo(i), &mut chosen)?;
            push_values(&mut values, descriptor.fields, chosen.as_slice())?;
        }
        Ok(values)
    }
}

/// Appends the values of fields of these rows. Fails with `AllocError` if an allocation fails.
fn push_values<'s>(
    values: &mut Vec<ValueRef<'s>>,
    fields: &[FieldPlace],
    rows: &[Option<RowView<'s>>],
) -> Result<(), AllocError>
    ensures { OnOk result (referred values.new.items ≡ referred values.old.items ++ values_of fields.now (rows_read viewed rows.now)) }
{
    for field in fields {
        values.push(value_at(rows, *field))?;
    }
    Ok(())
}

/// Appends the row of the values of fields of these rows to a buffer. Fails with `AllocError` if an allocation fails; then the buffer's
/// rows are unchanged.
fn copy_values(
    alloc: Global,
    fields: &[FieldPlace],
    rows: &[Option<RowView<'_>>],
    buffer: &mut RowBuffer,
) -> Result<(), AllocError>
    requires few { length fields.now ≤ 16 }
    ensures ok { OnOk result (buffer.new ≡ buffer.old ++ values_of fields.now (rows_read viewed rows.now) ∷ []) }
    ensures err { OnErr result (buffer.new ≡ buffer.old) }
{
    let mut values = [ValueRef::Int(0); FEW_VALUES];
    for (i, field) in fields.iter().enumerate() {
        values[i] = value_at(rows, *field);
    }
    buffer.push(alloc, &values[..fields.len()])
}

/// Returns the value of a field, and 0 if there is no such row or the row ends before the field.
fn value_at<'s>(rows: &[Option<RowView<'s>>], field: FieldPlace) -> ValueRef<'s>
    ensures { value_of result ≡ unwrap_or (value_at (rows_read viewed rows.now) field) (Int (pos 0)) }
{
    match rows.get(field.place) {
        Some(Some(row)) => row.get(field.column).unwrap_or(ValueRef::Int(0)),
        _ => ValueRef::Int(0),
    }
}

/// Returns copies of all rows. Fails with `AllocError` if an allocation fails.
fn copy_rows(alloc: Global, shown: &ShownRows) -> Result<Vec<Row>, AllocError>
    ensures { IfOk result (λ rows. rows.items ≡ shown.now) }
{
    let mut rows = Vec::with_capacity(alloc, shown.len())?;
    for i in 0..shown.len() {
        rows.push(copy_row(alloc, shown.row(i))?)?;
    }
    Ok(rows)
}

/// Returns a row of copies of values. Fails with `AllocError` if an allocation fails.
fn copy_row(alloc: Global, values: &[ValueRef<'_>]) -> Result<Row, AllocError>
    ensures { IfOk result (λ row. row ≡ referred values.now) }
{
    let mut row = Vec::with_capacity(alloc, values.len())?;
    for value in values {
        row.push(value.copy(alloc)?)?;
    }
    Ok(Row::new(row))
}

/// Replaces the contents of `chosen` by the rows of a combination, one from each table. Fails with `AllocError` if an allocation fails.
fn choose_rows<'s>(
    view: &mut View<'s>,
    tables: &[usize],
    combo: &[RowRef],
    chosen: &mut Chosen<'s>,
) -> Result<(), AllocError>
    requires { AreLive view.old.store tables.now combo.now }
    ensures rows { OnOk result (rows_read viewed chosen.new.items ≡ map Some (rows_of_combo view.old.store tables.now combo.now)) }
    ensures reads { view.new.reads ≤ view.old.reads + length tables.now }
    ensures same { view.new.store ≡ view.old.store }
{
    chosen.clear();
    for (i, table) in tables.iter().enumerate() {
        chosen.push(Some(view.row(*table, combo[i])))?;
    }
    Ok(())
}
