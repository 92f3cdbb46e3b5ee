//! Rows in partitions, and the sort keys of a column.
ghost use Rattle.std.specs.Prelude.{◌≡◌, ◌≢◌, ◌≤◌, ◌+◌, ◌∷◌, [], List, IfOk, OnOk};
ghost use Rattle.mm_value.specs.declared.col_type.ColType.TheVariants.{Int, Text as OfText};
ghost use Rattle.mm_value.specs.declared.row_ref.RowRef.{RowRef};
ghost use Rattle.mm_partition.specs.Places.{Free, slot_at, IsLive, IsUnchanged, ChangesOnly};
ghost use Rattle.mm_partition.specs.Types.{HasTypes};

use crate::assertions::{assert_same, assert_that};
use mm_partition::{ColumnKeys, Partitions};
use mm_value::{AsRow, ColType, Row, RowRef, Text, Value, ValueRef};
use std::alloc::Global;
use std::process::Abort;
use std::test::Fail;

/// Returns partitions with columns of these types. Tries again once if an allocation fails.
fn partitions_of(alloc: Global, types: &[ColType]) -> Result<Partitions, Fail>
    ensures { IfOk result (λ rows. rows.types ≡ types.now) }
{
    match Partitions::new(alloc, types) {
        Ok(rows) => Ok(rows),
        Err(_) => Ok(Partitions::new(alloc, types)?),
    }
}

/// Returns the row of this number. Tries again once if an allocation fails.
fn row_of(alloc: Global, number: i64) -> Result<Row, Fail>
    ensures { IfOk result (HasTypes (Int ∷ [])) }
{
    let mut values = Vec::new(alloc);
    if values.reserve(1).is_err() {
        values.reserve(1)?;
    }
    values.push(Value::Int(number))?;
    Ok(Row::new(values))
}

/// Reserves capacity for rows. Tries again once if an allocation fails.
fn reserve(alloc: Global, rows: &mut Partitions, n: usize) -> Result<(), Fail>
    ensures room { OnOk result (n ≤ rows.new.room) }
    ensures rows { IsUnchanged rows.old rows.new }
    ensures types { rows.new.types ≡ rows.old.types }
{
    if rows.reserve(alloc, n).is_err() {
        rows.reserve(alloc, n)?;
    }
    Ok(())
}

/// Inserts the row of this number.
fn place_row(alloc: Global, rows: &mut Partitions, number: i64) -> Result<RowRef, Fail>
    requires room { 1 ≤ rows.old.room }
    requires types { rows.old.types ≡ Int ∷ [] }
    ensures fresh { IfOk result (λ at. slot_at rows.old at ≡ Free) }
    ensures live { IfOk result (IsLive rows.new) }
    ensures others { IfOk result (λ at. (other : RowRef) → other ≢ at → slot_at rows.new other ≡ slot_at rows.old other) }
    ensures room { OnOk result (rows.new.room + 1 ≡ rows.old.room) }
    ensures types { rows.new.types ≡ rows.old.types }
{
    let row = row_of(alloc, number)?;
    row.is_storable();
    Ok(rows.place(row.into_values().as_mut_slice()))
}

/// Returns the number in a row of one number.
fn number_in(row: &impl AsRow) -> Option<i64> {
    if row.len() != 1 {
        return None;
    }
    match row.value(0) {
        ValueRef::Int(number) => Some(number),
        ValueRef::Text(_) => None,
    }
}

/// Hides and shows the row of 2, and releases it.
fn hide_and_show(rt: &impl Abort, rows: &mut Partitions, at: RowRef)
    requires { IsLive rows.old at }
{
    rows.hide(at);
    rows.unhide(at);
    assert_same(rt, number_in(&rows.get(at)), Some(2));

    rows.hide(at);
    rows.release(at);
}

/// Inserts a row, replaces it, hides and shows it, and releases it.
fn keep_a_row(rt: &(impl Abort + AllocGlobal), rows: &mut Partitions) -> Result<(), Fail>
    requires { rows.old.types ≡ Int ∷ [] }
{
    let alloc = rt.alloc();
    reserve(alloc, rows, 1)?;
    let at = place_row(alloc, rows, 1)?;
    assert_same(rt, number_in(&rows.get(at)), Some(1));

    let was = rows.replace(at, row_of(alloc, 2)?);
    assert_same(rt, number_in(&was), Some(1));

    hide_and_show(rt, rows, at);
    Ok(())
}

#[test]
fn keeps_a_row_by_its_reference(rt: HostRuntime) -> Result<(), Fail> {
    let mut rows = partitions_of(rt.alloc(), &[ColType::Int])?;
    keep_a_row(&rt, &mut rows)
}

/// Inserts the rows of 1 and 2 at two references.
fn place_two(
    rt: &(impl Abort + AllocGlobal),
    rows: &mut Partitions,
) -> Result<(RowRef, RowRef), Fail>
    requires { rows.old.types ≡ Int ∷ [] }
    ensures one { IfOk result (λ placed. IsLive rows.new placed.0) }
    ensures two { IfOk result (λ placed. IsLive rows.new placed.1) }
    ensures apart { IfOk result (λ placed. placed.0 ≢ placed.1) }
    ensures types { rows.new.types ≡ rows.old.types }
{
    let alloc = rt.alloc();
    reserve(alloc, rows, 2)?;
    let one = place_row(alloc, rows, 1)?;
    let two = place_row(alloc, rows, 2)?;
    assert_that(rt, one != two);
    Ok((one, two))
}

/// Asserts that two references have the rows of 1 and 2.
fn assert_two(rt: &impl Abort, rows: &Partitions, one: RowRef, two: RowRef)
    requires one { IsLive rows.now one }
    requires two { IsLive rows.now two }
{
    let numbers = [number_in(&rows.get(one)), number_in(&rows.get(two))];
    assert_same(rt, numbers, [Some(1), Some(2)]);
}

/// Inserts 200 rows after those of 1 and 2, past the end of the first partition.
fn place_behind(
    rt: &(impl Abort + AllocGlobal),
    rows: &mut Partitions,
    one: RowRef,
    two: RowRef,
) -> Result<(), Fail>
    requires one { IsLive rows.old one }
    requires two { IsLive rows.old two }
    requires types { rows.old.types ≡ Int ∷ [] }
{
    let alloc = rt.alloc();
    reserve(alloc, rows, 200)?;
    assert_same(rt, number_in(&rows.get(one)), Some(1));
    for _ in 0..200usize {
        place_row(alloc, rows, 3)?;
    }
    assert_same(rt, number_in(&rows.get(two)), Some(2));
    Ok(())
}

#[test]
fn gives_each_row_its_own_place(rt: HostRuntime) -> Result<(), Fail> {
    let mut rows = partitions_of(rt.alloc(), &[ColType::Int])?;
    let (one, two) = place_two(&rt, &mut rows)?;
    assert_two(&rt, &rows, one, two);
    place_behind(&rt, &mut rows, one, two)
}

/// Frees the slot of a row.
fn free(rows: &mut Partitions, at: RowRef)
    requires { IsLive rows.old at }
    ensures freed { ChangesOnly rows.old rows.new at Free }
    ensures room { rows.new.room ≡ rows.old.room + 1 }
    ensures types { rows.new.types ≡ rows.old.types }
{
    rows.hide(at);
    rows.release(at);
}

/// Inserts two rows, frees their slots, and inserts two others.
fn free_two(rt: &(impl Abort + AllocGlobal), rows: &mut Partitions) -> Result<(), Fail>
    requires { rows.old.types ≡ Int ∷ [] }
{
    let alloc = rt.alloc();
    let (one, two) = place_two(rt, rows)?;
    free(rows, one);
    free(rows, two);

    // The slot freed last is used first.
    assert_same(rt, place_row(alloc, rows, 3)?, two);
    assert_same(rt, place_row(alloc, rows, 4)?, one);
    Ok(())
}

#[test]
fn gives_freed_slots_again_before_new_ones(rt: HostRuntime) -> Result<(), Fail> {
    let mut rows = partitions_of(rt.alloc(), &[ColType::Int])?;
    free_two(&rt, &mut rows)
}

/// Inserts a row after a hidden one, and one more after the hidden row was released.
fn hide_one(rt: &(impl Abort + AllocGlobal), rows: &mut Partitions) -> Result<(), Fail>
    requires { rows.old.types ≡ Int ∷ [] }
{
    let alloc = rt.alloc();
    reserve(alloc, rows, 2)?;
    let one = place_row(alloc, rows, 1)?;
    rows.hide(one);
    let two = place_row(alloc, rows, 2)?;
    assert_that(rt, one != two);

    rows.unhide(one);
    assert_two(rt, rows, one, two);

    // The released slot is used next.
    free(rows, one);
    assert_same(rt, place_row(alloc, rows, 3)?, one);
    Ok(())
}

#[test]
fn leaves_a_hidden_slot_alone(rt: HostRuntime) -> Result<(), Fail> {
    let mut rows = partitions_of(rt.alloc(), &[ColType::Int])?;
    hide_one(&rt, &mut rows)
}

/// Inserts 130 rows.
fn fill_partitions(rt: &(impl Abort + AllocGlobal), rows: &mut Partitions) -> Result<(), Fail>
    requires { rows.old.types ≡ Int ∷ [] }
{
    let alloc = rt.alloc();
    reserve(alloc, rows, 130)?;
    let first = place_row(alloc, rows, 0)?;
    for k in 1..130usize {
        let at = place_row(alloc, rows, k as i64)?;
        assert_that(rt, at != first);
        assert_same(rt, number_in(&rows.get(at)), Some(k as i64));
    }
    assert_same(rt, number_in(&rows.get(first)), Some(0));
    Ok(())
}

#[test]
fn finds_each_row_of_several_partitions(rt: HostRuntime) -> Result<(), Fail> {
    let mut rows = partitions_of(rt.alloc(), &[ColType::Int])?;
    fill_partitions(&rt, &mut rows)
}

/// Returns the row of this number and this text. Tries again once if an allocation fails.
fn row_with_text(alloc: Global, number: i64, text: &[u8]) -> Result<Row, Fail>
    ensures { IfOk result (HasTypes (Int ∷ OfText ∷ [])) }
{
    let mut values = Vec::new(alloc);
    if values.reserve(2).is_err() {
        values.reserve(2)?;
    }
    values.push(Value::Int(number))?;
    values.push(Value::Text(Text::new(alloc, text)?))?;
    Ok(Row::new(values))
}

/// Tracks a column. Tries again once if an allocation fails.
fn track(alloc: Global, rows: &mut Partitions, column: usize) -> Result<(), Fail>
    ensures { rows.new ≡ rows.old }
{
    if rows.track(alloc, column).is_err() {
        rows.track(alloc, column)?;
    }
    Ok(())
}

/// Returns the numbers of a column, if it has any.
fn numbers_in(rows: &Partitions, column: usize) -> Option<&[i64]> {
    match rows.keys(column) {
        ColumnKeys::Numbers(numbers) => Some(numbers),
        _ => None,
    }
}

/// Returns the prefixes of a column, if they are kept.
fn prefixes_in(rows: &Partitions, column: usize) -> Option<&[u64]> {
    match rows.keys(column) {
        ColumnKeys::Prefixes(prefixes) => Some(prefixes),
        _ => None,
    }
}

/// Returns whether neither numbers nor prefixes of a column are kept.
fn has_no_keys(rows: &Partitions, column: usize) -> bool {
    matches!(rows.keys(column), ColumnKeys::None)
}

/// Inserts the row of this number and this text.
fn place_with_text(
    alloc: Global,
    rows: &mut Partitions,
    number: i64,
    text: &[u8],
) -> Result<RowRef, Fail>
    requires room { 1 ≤ rows.old.room }
    requires types { rows.old.types ≡ Int ∷ OfText ∷ [] }
    ensures live { IfOk result (IsLive rows.new) }
    ensures room { OnOk result (rows.new.room + 1 ≡ rows.old.room) }
    ensures types { rows.new.types ≡ rows.old.types }
{
    let row = row_with_text(alloc, number, text)?;
    row.is_storable();
    Ok(rows.place(row.into_values().as_mut_slice()))
}

/// Tracks a column of texts, with one row inserted before and one after.
fn track_texts(rt: &(impl Abort + AllocGlobal), rows: &mut Partitions) -> Result<(), Fail>
    requires { rows.old.types ≡ Int ∷ OfText ∷ [] }
{
    let alloc = rt.alloc();
    reserve(alloc, rows, 2)?;
    place_with_text(alloc, rows, 5, b"abcdefgh")?;
    assert_that(rt, has_no_keys(rows, 1));
    track(alloc, rows, 1)?;
    place_with_text(alloc, rows, i64::MAX, b"")?;
    assert_same(
        rt,
        prefixes_in(rows, 1),
        Some(&[0xb0b131b232b333b4u64, 0x8000000000000000]),
    );
    Ok(())
}

#[test]
fn keeps_the_prefixes_of_tracked_texts(rt: HostRuntime) -> Result<(), Fail> {
    let mut rows = partitions_of(rt.alloc(), &[ColType::Int, ColType::Text])?;
    track_texts(&rt, &mut rows)
}

/// Replaces a row, and inserts one into the slot that it frees.
fn overwrite(rt: &(impl Abort + AllocGlobal), rows: &mut Partitions) -> Result<(), Fail>
    requires { rows.old.types ≡ Int ∷ OfText ∷ [] }
{
    let alloc = rt.alloc();
    reserve(alloc, rows, 1)?;
    let one = place_with_text(alloc, rows, 5, b"a")?;
    track(alloc, rows, 1)?;
    rows.replace(one, row_with_text(alloc, 6, b"b")?);
    assert_same(rt, prefixes_in(rows, 1), Some(&[0xb100000000000000u64]));
    assert_same(rt, numbers_in(rows, 0), Some(&[6i64]));

    // The freed slot is reused.
    free(rows, one);
    place_with_text(alloc, rows, 7, b"")?;
    assert_same(rt, prefixes_in(rows, 1), Some(&[0x8000000000000000u64]));
    assert_same(rt, numbers_in(rows, 0), Some(&[7i64]));
    Ok(())
}

#[test]
fn overwrites_the_cells_of_a_slot(rt: HostRuntime) -> Result<(), Fail> {
    let mut rows = partitions_of(rt.alloc(), &[ColType::Int, ColType::Text])?;
    overwrite(&rt, &mut rows)
}

/// Tracks each column twice, and then none.
fn track_and_untrack(rt: &(impl Abort + AllocGlobal), rows: &mut Partitions) -> Result<(), Fail> {
    let alloc = rt.alloc();
    for column in 0..3usize {
        track(alloc, rows, column)?;
        track(alloc, rows, column)?;
    }
    assert_that(rt, prefixes_in(rows, 1).is_some());
    for column in 0..3usize {
        rows.untrack(column);
    }
    assert_that(rt, has_no_keys(rows, 1));
    // The numbers of a column are kept in any case, and there is no column past the last one.
    assert_that(rt, numbers_in(rows, 0).is_some());
    assert_that(rt, has_no_keys(rows, 2));
    Ok(())
}

#[test]
fn forgets_a_column_that_is_not_tracked_any_more(rt: HostRuntime) -> Result<(), Fail> {
    let mut rows = partitions_of(rt.alloc(), &[ColType::Int, ColType::Text])?;
    track_and_untrack(&rt, &mut rows)
}

/// Tracks a column of texts, and inserts 130 rows.
fn track_and_fill(rt: &(impl Abort + AllocGlobal), rows: &mut Partitions) -> Result<(), Fail>
    requires { rows.old.types ≡ Int ∷ OfText ∷ [] }
{
    let alloc = rt.alloc();
    track(alloc, rows, 1)?;
    for k in 0..130usize {
        reserve(alloc, rows, 1)?;
        place_with_text(alloc, rows, k as i64, b"")?;
    }
    assert_same(rt, prefixes_in(rows, 1).unwrap_or(&[]).len(), 130);
    let numbers = numbers_in(rows, 0).unwrap_or(&[]);
    assert_same(rt, numbers.len(), 130);
    for (k, number) in numbers.iter().enumerate() {
        assert_same(rt, *number, k as i64);
    }
    Ok(())
}

#[test]
fn keeps_keys_of_the_rows_to_come(rt: HostRuntime) -> Result<(), Fail> {
    let mut rows = partitions_of(rt.alloc(), &[ColType::Int, ColType::Text])?;
    track_and_fill(&rt, &mut rows)
}
