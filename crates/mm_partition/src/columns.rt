//! The columns of a table.
ghost use Rattle.std.specs.Prelude.{◌≡◌, ◌≢◌, ℕ, ◌+◌, ◌<◌, ◌≤◌, OnOk};
ghost use Rattle.mm_value.specs.Types.{type_of};
ghost use Rattle.mm_value.specs.Views.{value_of};

use crate::text_column::TextColumn;
use crate::trimming::cut;
use mm_value::{ColType, Value, ValueRef};
use std::alloc::{AllocError, Global};
use std::mem;

/// The values of one column: a cell for each slot.
#[derive(Drop)]
pub enum Column {
    /// A column of integers.
    Numbers(Vec<i64>),
    /// A column of texts.
    Texts(TextColumn),
}

impl Column {
    ghost use Rattle.mm_partition.specs.Cells.{type_in, size_of, room_of, cell, Writes, Exchanges, IsEmptied};

    /// Returns a column without cells. Allocates nothing.
    pub fn new(alloc: Global, col_type: ColType) -> Column
        ensures typed { type_in result ≡ col_type }
        ensures size { size_of result ≡ 0 }
    {
        match col_type {
            ColType::Int => Column::Numbers(Vec::new(alloc)),
            ColType::Text => Column::Texts(TextColumn::new(alloc)),
        }
    }

    /// Returns the type of the values.
    pub fn col_type(&self) -> ColType
        ensures { result ≡ type_in self.now }
    {
        match self {
            Column::Numbers(_) => ColType::Int,
            Column::Texts(_) => ColType::Text,
        }
    }

    /// Reserves capacity for at least `n` more cells. Fails with `AllocError` if an allocation fails. The cells are unchanged in any case.
    pub fn reserve(&mut self, n: usize) -> Result<(), AllocError>
        ensures typed { type_in self.new ≡ type_in self.old }
        ensures size { size_of self.new ≡ size_of self.old }
        ensures cells { (i : ℕ) → cell self.new i ≡ cell self.old i }
        ensures room { room_of self.old ≤ room_of self.new }
        ensures ok { OnOk result (size_of self.new + n ≤ room_of self.new) }
    {
        match self {
            Column::Numbers(numbers) => numbers.reserve(n),
            Column::Texts(texts) => texts.reserve(n),
        }
    }

    /// Returns the value in a cell.
    #[inline(always)]
    pub fn value(&self, index: usize) -> ValueRef<'_>
        requires { index < size_of self.now }
        ensures { value_of result ≡ cell self.now index }
    {
        match self {
            Column::Numbers(numbers) => ValueRef::Int(numbers[index]),
            Column::Texts(texts) => ValueRef::Text(texts.text(index)),
        }
    }

    /// Appends the cell of a new slot. The value moves there, and `value` becomes 0.
    pub fn push(&mut self, value: &mut Value)
        requires room { size_of self.old < room_of self.old }
        requires typed { type_of value.old ≡ type_in self.old }
        ensures typed { type_in self.new ≡ type_in self.old }
        ensures size { size_of self.new ≡ size_of self.old + 1 }
        ensures room { room_of self.new ≡ room_of self.old }
        ensures cells { Writes self.old self.new (size_of self.old) value.old }
    {
        match (self, mem::replace(value, Value::Int(0))) {
            (Column::Numbers(numbers), Value::Int(number)) => numbers.push_reserved(number),
            (Column::Texts(texts), Value::Text(text)) => texts.push(text),
            _ => unreachable!(),
        }
    }

    /// Exchanges the value in a cell with `value`.
    pub fn swap(&mut self, index: usize, value: &mut Value)
        requires within { index < size_of self.old }
        requires typed { type_of value.old ≡ type_in self.old }
        ensures typed { type_in self.new ≡ type_in self.old }
        ensures size { size_of self.new ≡ size_of self.old }
        ensures room { room_of self.new ≡ room_of self.old }
        ensures cells { Writes self.old self.new index value.old }
        ensures value { value.new ≡ cell self.old index }
    {
        match (self, value) {
            (Column::Numbers(numbers), Value::Int(number)) => {
                mem::swap(&mut numbers[index], number)
            }
            (Column::Texts(texts), Value::Text(text)) => texts.swap(index, text),
            _ => unreachable!(),
        }
    }

    /// Exchanges the values in two cells.
    pub fn exchange(&mut self, a: usize, b: usize)
        requires a { a < size_of self.old }
        requires b { b < size_of self.old }
        ensures typed { type_in self.new ≡ type_in self.old }
        ensures size { size_of self.new ≡ size_of self.old }
        ensures room { room_of self.new ≡ room_of self.old }
        ensures cells { Exchanges self.old self.new a b }
    {
        match self {
            Column::Numbers(numbers) => numbers.swap(a, b),
            Column::Texts(texts) => texts.exchange(a, b),
        }
    }

    /// Drops the text in a cell, which becomes empty. A number is unchanged.
    pub fn clear(&mut self, index: usize)
        requires { index < size_of self.old }
        ensures typed { type_in self.new ≡ type_in self.old }
        ensures size { size_of self.new ≡ size_of self.old }
        ensures room { room_of self.new ≡ room_of self.old }
        ensures emptied { IsEmptied self.new index }
        ensures cells { (k : ℕ) → k ≢ index → cell self.new k ≡ cell self.old k }
    {
        match self {
            Column::Numbers(_) => {}
            Column::Texts(texts) => texts.clear(index),
        }
    }

    /// Removes the cells from position `n` on, and frees excess capacity.
    pub fn truncate(&mut self, n: usize)
        requires { n ≤ size_of self.old }
        ensures typed { type_in self.new ≡ type_in self.old }
        ensures size { size_of self.new ≡ n }
        ensures cells { (i : ℕ) → i < n → cell self.new i ≡ cell self.old i }
        ensures room { size_of self.new ≤ room_of self.new }
    {
        match self {
            Column::Numbers(numbers) => cut(numbers, n),
            Column::Texts(texts) => texts.truncate(n),
        }
    }

    /// Stores the prefixes of texts from now on. Does nothing for numbers, which need none. Fails with `AllocError` if an allocation fails;
    /// then nothing changes.
    pub fn track(&mut self, alloc: Global) -> Result<(), AllocError>
        ensures typed { type_in self.new ≡ type_in self.old }
        ensures size { size_of self.new ≡ size_of self.old }
        ensures cells { (i : ℕ) → cell self.new i ≡ cell self.old i }
        ensures room { room_of self.old ≤ room_of self.new }
    {
        match self {
            Column::Numbers(_) => Ok(()),
            Column::Texts(texts) => texts.track(alloc),
        }
    }

    /// Drops the prefixes, if they are stored.
    pub fn untrack(&mut self)
        ensures typed { type_in self.new ≡ type_in self.old }
        ensures size { size_of self.new ≡ size_of self.old }
        ensures cells { (i : ℕ) → cell self.new i ≡ cell self.old i }
        ensures room { room_of self.old ≤ room_of self.new }
    {
        match self {
            Column::Numbers(_) => {}
            Column::Texts(texts) => texts.untrack(),
        }
    }
}
