//! Tables of texts: which prefixes are kept, and searches among texts with the same prefix.
ghost use Rattle.std.specs.Prelude.{◌≡◌, ◌∷◌, [], IfOk};
ghost use Rattle.mm_value.specs.declared.col_type.ColType.TheVariants.{Text as OfText};
ghost use Rattle.mm_partition.specs.Types.{HasTypes};

use crate::assertions::{assert_same, assert_that};
use crate::samples::show;
use mm_indexed::IndexedRows;
use mm_schema::{IndexKind, MAX_ROWS};
use mm_value::{ColType, Row, RowRef, Text, Value, ValueRef};
use std::alloc::{AllocError, Global};
use std::process::Abort;
use std::test::Fail;

/// Returns a table of two texts without rows. The first text is the key.
fn texts_of(alloc: Global) -> Result<IndexedRows, AllocError>
    ensures { IfOk result (λ table. table.places.types ≡ OfText ∷ OfText ∷ []) }
{
    IndexedRows::new(alloc, &[ColType::Text, ColType::Text], 0)
}

/// Returns a text of at most 64 bytes.
fn text_of(alloc: Global, bytes: &[u8]) -> Result<Text, AllocError> {
    match Text::new(alloc, bytes) {
        Ok(text) => Ok(text),
        Err(_) => Err(AllocError),
    }
}

/// Returns the row of two texts.
fn row_of(alloc: Global, key: &[u8], mark: &[u8]) -> Result<Row, AllocError>
    ensures { IfOk result (HasTypes (OfText ∷ OfText ∷ [])) }
{
    let key = text_of(alloc, key)?;
    let mark = text_of(alloc, mark)?;
    Ok(Row::new(vec![in alloc; Value::Text(key), Value::Text(mark)]?))
}

/// Inserts the row of two texts.
fn add(
    rt: &(impl Abort + AllocGlobal),
    table: &mut IndexedRows,
    key: &[u8],
    mark: &[u8],
) -> Result<RowRef, AllocError>
    requires { table.old.places.types ≡ OfText ∷ OfText ∷ [] }
    ensures { table.new.places.types ≡ OfText ∷ OfText ∷ [] }
{
    let row = row_of(rt.alloc(), key, mark)?;
    row.is_storable();
    table.reserve(rt.alloc(), 1, 0, 0)?;
    let at = table.stage(row.into_values().as_mut_slice());
    show(rt, table, at)?;
    Ok(at)
}

/// Returns the slot of the row that `find` returns for a key.
fn slot_of(table: &IndexedRows, alloc: Global, key: &[u8]) -> Result<Option<u32>, AllocError> {
    let key = text_of(alloc, key)?;
    match table.find(ValueRef::Text(&key)) {
        Some(at) => Ok(Some(at.slot)),
        None => Ok(None),
    }
}

/// Returns whether the prefix of the row that has a key is kept in each of the two columns.
fn with_prefixes(
    table: &IndexedRows,
    alloc: Global,
    key: &[u8],
) -> Result<(bool, bool), AllocError> {
    table.is_kept();
    let key = text_of(alloc, key)?;
    match table.find(ValueRef::Text(&key)) {
        Some(at) => Ok((
            table.prefix_of(0, at).is_some(),
            table.prefix_of(1, at).is_some(),
        )),
        None => Ok((false, false)),
    }
}

/// Inserts rows whose keys differ only after their prefixes, and finds each.
fn find_texts(rt: &(impl Abort + AllocGlobal), table: &mut IndexedRows) -> Result<(), AllocError>
    requires { table.old.places.types ≡ OfText ∷ OfText ∷ [] }
    ensures { table.new.places.types ≡ OfText ∷ OfText ∷ [] }
{
    let second = add(rt, table, b"longer than a prefix: 2", b"x")?;
    let first = add(rt, table, b"longer than a prefix: 1", b"y")?;
    assert_same(
        rt,
        slot_of(table, rt.alloc(), b"longer than a prefix: 1")?,
        Some(first.slot),
    );
    assert_same(
        rt,
        slot_of(table, rt.alloc(), b"longer than a prefix: 2")?,
        Some(second.slot),
    );
    assert_same(
        rt,
        slot_of(table, rt.alloc(), b"longer than a prefix: 3")?,
        None,
    );
    Ok(())
}

/// Adds a TREE index on the second column and drops it. The prefixes of its column are kept only while the index exists.
fn add_and_drop_tree(
    rt: &(impl Abort + AllocGlobal),
    table: &mut IndexedRows,
) -> Result<(), AllocError>
    requires { table.old.places.types ≡ OfText ∷ OfText ∷ [] }
{
    let key = b"longer than a prefix: 1";
    assert_same(rt, with_prefixes(table, rt.alloc(), key)?, (true, false));
    assert_that(rt, table.len() <= MAX_ROWS);
    table.add_index(rt.alloc(), 1, IndexKind::Tree, 0)?;
    assert_same(rt, with_prefixes(table, rt.alloc(), key)?, (true, true));
    if let Some(index) = table.index_of(1, IndexKind::Tree) {
        table.drop_index(index);
    }
    assert_same(rt, with_prefixes(table, rt.alloc(), key)?, (true, false));
    Ok(())
}

/// Makes both tests in a new table.
fn use_texts(rt: &(impl Abort + AllocGlobal)) -> Result<(), AllocError> {
    let mut table = texts_of(rt.alloc())?;
    find_texts(rt, &mut table)?;
    add_and_drop_tree(rt, &mut table)
}

#[test]
fn keeps_prefixes_of_texts(rt: HostRuntime) -> Result<(), Fail> {
    use_texts(&rt)?;
    Ok(())
}
