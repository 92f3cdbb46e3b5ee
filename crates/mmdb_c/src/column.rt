//! Columns in their C layout.
ghost use Rattle.std.specs.Prelude.{◌≡◌, ◌++◌, drop, length, map, take};
ghost use Rattle.mmdb_c.specs.Columns.{WritesColumns, column_cell, kind_of};

use crate::cell::{NUMBER_KIND, TEXT_KIND};
use mm_schema::Column;
use mm_value::ColType;

/// A column in its C layout: the kind of its cells, and its name, padded with zeros.
#[repr(C)]
#[derive(Clone, Copy)]
pub struct ColumnCell {
    kind: u8,
    len: u8,
    name: [u8; 32],
}

impl ColumnCell {
    /// Returns a column in its C layout.
    fn of(column: &Column) -> ColumnCell
        ensures { result ≡ column_cell column.now }
    {
        let bytes = column.name.bytes();
        let mut name = [0; 32];
        name[..bytes.len()].copy_from_slice(bytes);
        ColumnCell {
            kind: kind_of(column.col_type),
            len: bytes.len() as u8,
            name,
        }
    }
}

/// Returns the kind of cells with values of a type.
fn kind_of(col_type: ColType) -> u8
    ensures { result ≡ kind_of col_type }
{
    match col_type {
        ColType::Int => NUMBER_KIND,
        ColType::Text => TEXT_KIND,
    }
}

/// Writes as many columns as fit. The other cells are unchanged.
fn set_columns(cells: &mut [ColumnCell], columns: &[&Column])
    ensures { cells.new ≡ map (λ column. column_cell column.now) (take (length cells.old) columns.now) ++ drop (length columns.now) cells.old }
{
    for i in 0..columns.len().min(cells.len()) {
        cells[i] = ColumnCell::of(columns[i]);
    }
}

/// Writes as many columns as fit, and the number of all columns.
pub(crate) fn write_columns(columns: &[&Column], cells: &mut [ColumnCell], count: &mut usize)
    ensures { WritesColumns (map (λ column. column.now) columns.now) cells.old cells.new count.new }
{
    set_columns(cells, columns);
    *count = columns.len();
}
