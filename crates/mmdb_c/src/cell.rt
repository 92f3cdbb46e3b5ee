//! Values in their C layout.
ghost use Rattle.std.specs.Prelude.{◌≡◌, IfOk, IsErrOf, List, OnOk, ℕ};
ghost use Rattle.mm_value.specs.declared.values.Value.{Value};
ghost use Rattle.mmdb_c.specs.Cells.{NeedsMemory, StandFor, StandUpTo, StandsFor};

use mm_value::{MAX_TEXT_BYTES, Refusal, Text, Value};
use std::alloc::{AllocFailed, Global};
use thiserror::Error;

/// The kind of a cell with a number.
pub(crate) const NUMBER_KIND: u8 = 0;
/// The kind of a cell with a text.
pub(crate) const TEXT_KIND: u8 = 1;

/// A value in its C layout: a number, or a text in the first bytes of `text`.
#[repr(C)]
#[derive(Clone, Copy)]
pub struct Cell {
    kind: u8,
    len: u8,
    number: i64,
    text: [u8; 64],
}

/// Why reading cells failed.
#[derive(Debug, Drop, Error)]
pub(crate) enum CellError {
    /// A cell is not a value.
    #[error("a cell is not a value")]
    NoValue,
    /// An allocation failed.
    #[error("an allocation failed")]
    Memory,
}

impl<T: Drop> From<AllocFailed<T>> for CellError {
    ghost use Rattle.mmdb_c.specs.declared.cell.CellError.TheVariants.{Memory};

    ghost from_gives = { λ _ e. e ≡ Memory };

    fn from(_error: AllocFailed<T>) -> CellError {
        CellError::Memory
    }
}

impl Cell {
    /// Returns the value of the cell. Fails with `NoValue` if the kind is unknown, or the text is too long or contains a line feed. Fails
    /// with `Memory` only for a text of more than 16 bytes.
    fn value(&self, alloc: Global) -> Result<Value, CellError>
        ensures ok { IfOk result (λ value. StandsFor self.now value) }
        ensures none { IsErrOf result CellError.NoValue → (value : Value) → StandsFor self.now value → ⊥ }
        ensures memory { IsErrOf result CellError.Memory → (value : Value) × StandsFor self.now value × NeedsMemory value }
    {
        match self.kind {
            NUMBER_KIND => Ok(Value::Int(self.number)),
            TEXT_KIND => self.text_value(alloc),
            _ => Err(CellError::NoValue),
        }
    }

    /// Returns the value of a cell whose kind is `TEXT_KIND`. Fails as `value` does.
    fn text_value(&self, alloc: Global) -> Result<Value, CellError>
        requires { self.now.kind ≡ 1 }
        ensures ok { IfOk result (λ value. StandsFor self.now value) }
        ensures none { IsErrOf result CellError.NoValue → (value : Value) → StandsFor self.now value → ⊥ }
        ensures memory { IsErrOf result CellError.Memory → (value : Value) × StandsFor self.now value × NeedsMemory value }
    {
        let len = usize::from(self.len);
        if len > MAX_TEXT_BYTES {
            return Err(CellError::NoValue);
        }
        match Text::new(alloc, &self.text[..len]) {
            Ok(text) => Ok(Value::Text(text)),
            Err(Refusal::Memory) => Err(CellError::Memory),
            Err(_) => Err(CellError::NoValue),
        }
    }

    /// Stores a value in the cell. Fields that the value does not need are unchanged.
    pub(crate) fn set(&mut self, value: &Value)
        ensures { StandsFor self.new value.now }
    {
        match value {
            Value::Int(number) => {
                self.kind = NUMBER_KIND;
                self.number = *number;
            }
            Value::Text(text) => {
                let bytes = text.bytes();
                self.kind = TEXT_KIND;
                self.len = bytes.len() as u8;
                self.text[..bytes.len()].copy_from_slice(bytes);
            }
        }
    }
}

/// Replaces the contents of a buffer with the values of cells. Fails with `NoValue` if a cell is not a value, and with `Memory` if an
/// allocation for a cell's value fails; that cell and those before it are values then. After an error the buffer has the values so far.
pub(crate) fn read_cells(
    alloc: Global,
    cells: &[Cell],
    values: &mut Vec<Value>,
) -> Result<(), CellError>
    ensures ok { OnOk result (StandFor cells.now values.new.items) }
    ensures none { IsErrOf result CellError.NoValue → (values : List Value) → StandFor cells.now values → ⊥ }
    ensures memory { IsErrOf result CellError.Memory → (place : ℕ) × StandUpTo place cells.now }
{
    values.clear();
    for cell in cells {
        values.push(cell.value(alloc)?)?;
    }
    Ok(())
}
