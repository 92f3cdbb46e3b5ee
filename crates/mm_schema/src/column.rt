//! Columns.
ghost use Rattle.std.specs.Prelude.{◌≡◌, ◌↔◌, ◌<◌, IsSome, IfOk, IfSome, length, position};
ghost use Rattle.std.specs.List.{list_any};
ghost use Rattle.mm_schema.specs.Name.{same_name};
ghost use Rattle.std.specs.Option.{option_copied};
ghost use Rattle.mm_schema.specs.Columns.{cascades, column_place, differs_from_key, has_duplicate_names, is_cascade, is_key, key_count, key_place, refers_to, target_of};

use crate::name::{Name, NameRef};
use mm_value::ColType;
use std::alloc::{AllocError, Global};
use std::marker::Model;

/// The rule of a foreign key for deleting a referenced row.
#[derive(Clone, Copy, Debug, PartialEq, Eq)]
pub enum OnDelete {
    /// A row is not deleted as long as a row refers to it.
    Restrict,
    /// The rows that refer to a deleted row are deleted too.
    Cascade,
}

/// The role of a column.
#[derive(Debug, PartialEq, Eq, Drop)]
pub enum Role {
    /// Its value is the row's key: no two rows of the table have the same one.
    Key,
    /// No role but to store a value.
    Plain,
    /// A foreign key: each value is the key of a row of another table.
    Reference {
        /// The name of the other table.
        table: Name,
        /// The rule for deleting a referenced row.
        on_delete: OnDelete,
    },
}

/// A column of a table.
#[derive(Debug, Drop)]
pub struct Column {
    /// The name, which no other column of the table has.
    pub name: Name,
    /// The type of its values.
    pub col_type: ColType,
    /// The role.
    pub role: Role,
}

impl OnDelete {
    /// Returns whether the rows that refer to a row are deleted with it.
    pub(crate) fn is_cascade(self) -> bool
        ensures { result ≡ is_cascade self }
    {
        match self {
            OnDelete::Restrict => false,
            OnDelete::Cascade => true,
        }
    }
}

impl Role {
    /// Returns a copy of the role. Allocates nothing.
    fn copy(&self) -> Role
        ensures { result ≡ self.now }
    {
        match self {
            Role::Key => Role::Key,
            Role::Plain => Role::Plain,
            Role::Reference { table, on_delete } => Role::Reference {
                table: table.copy(),
                on_delete: *on_delete,
            },
        }
    }
}

impl Column {
    /// Returns a copy of the column. Allocates nothing.
    fn copy(&self) -> Column
        ensures { result ≡ self.now }
    {
        Column {
            name: self.name.copy(),
            col_type: self.col_type,
            role: self.role.copy(),
        }
    }

    /// Returns whether the column is the key.
    pub fn is_key(&self) -> bool
        ensures { result ≡ is_key self.now }
    {
        match self.role {
            Role::Key => true,
            Role::Plain | Role::Reference { .. } => false,
        }
    }

    /// Returns the table that the column refers to, or `None` if it is not a foreign key.
    pub fn target(&self) -> Option<&Name>
        ensures { option_copied result ≡ target_of self.now }
    {
        match &self.role {
            Role::Key | Role::Plain => None,
            Role::Reference { table, .. } => Some(table),
        }
    }

    /// Returns whether a row is deleted with the row that it refers to by this column.
    pub fn cascades(&self) -> bool
        ensures { result ≡ cascades self.now }
    {
        match &self.role {
            Role::Key | Role::Plain => false,
            Role::Reference { on_delete, .. } => on_delete.is_cascade(),
        }
    }

    /// Returns whether the column refers to the table with a name.
    fn refers_to(&self, name: &Name) -> bool
        ensures { result ≡ refers_to name.now self.now }
    {
        self.target().is_some_and(|table| *name == *table)
    }
}

/// The columns of a table from left to right. Exactly one of them is the key.
#[derive(Debug, Drop)]
pub struct Columns {
    items: Vec<Column>,
    key: usize,
}

impl Model for Columns {
    ghost use Rattle.std.specs.Prelude.{◌≡◌, List};
    ghost use Rattle.mm_schema.specs.declared.column.Column.{Column as Col};
    ghost use Rattle.mm_schema.specs.Columns.{key_count, key_place};

    ghost Value = { List Col };

    ghost view = { λ c. c.items.items };

    ghost invariant = { λ c. (key_count c.items.items ≡ 1) × (c.key ≡ key_place c.items.items) };
}

impl Columns {
    /// Returns these columns, or `None` unless exactly one of them is the key.
    #[tactic(auto, using(crate::proofs::Keys::key_is_there, crate::proofs::Keys::place_of_key))]
    pub fn new(items: Vec<Column>) -> Option<Columns>
        ensures variant { IsSome result ↔ (key_count items.items ≡ 1) }
        ensures value { IfSome result (λ columns. columns ≡ items.items) }
    {
        if count_keys(&items) != 1 {
            return None;
        }
        let key = find_key(&items)?;
        Some(Columns { items, key })
    }

    /// Returns a copy of the columns. Fails with `AllocError` if an allocation fails.
    pub(crate) fn copy(&self, alloc: Global) -> Result<Columns, AllocError>
        ensures { IfOk result (λ copy. copy ≡ self.now) }
    {
        let mut items = Vec::with_capacity(alloc, self.items.len())?;
        for column in self.as_slice() {
            items.push(column.copy())?;
        }
        Ok(Columns {
            items,
            key: self.key,
        })
    }

    /// Returns the columns from left to right. Exactly one of them is the key.
    pub fn as_slice(&self) -> &[Column]
        ensures value { result.now ≡ self.now }
        ensures one_key { key_count self.now ≡ 1 }
    {
        &self.items
    }

    /// Returns whether any two columns have the same name.
    pub(crate) fn has_duplicate_names(&self) -> bool
        ensures { result ≡ has_duplicate_names self.now }
    {
        let columns = self.items.as_slice();
        for (i, column) in columns.iter().enumerate() {
            if has_name(&columns[i + 1..], &column.name) {
                return true;
            }
        }
        false
    }

    /// Returns the position of the key column, counted from 0.
    #[tactic(auto, using(crate::proofs::Keys::key_within))]
    pub fn key(&self) -> usize
        ensures place { result ≡ key_place self.now }
        ensures within { result < length self.now }
    {
        self.key
    }

    /// Returns the position of the column with a name, counted from 0, or `None` if there is none.
    pub fn place_of(&self, name: &NameRef<'_>) -> Option<usize>
        ensures { result ≡ column_place name.now self.now }
    {
        self.items
            .iter()
            .position(|column| *name == column.name.as_ref())
    }

    /// Returns whether the key column has another type.
    pub(crate) fn key_differs_from(&self, col_type: ColType) -> bool
        ensures { result ≡ differs_from_key col_type self.now }
    {
        self.items[self.key].col_type != col_type
    }

    /// Returns whether any column refers to the table with a name.
    pub(crate) fn refer_to(&self, name: &Name) -> bool
        ensures { result ≡ list_any (refers_to name.now) self.now }
    {
        self.items.iter().any(|column| column.refers_to(name))
    }
}

/// Returns the number of columns that are the key.
fn count_keys(columns: &[Column]) -> usize
    ensures { result ≡ key_count columns.now }
{
    columns.iter().filter(|column| column.is_key()).count()
}

/// Returns the position of the first column that is the key.
fn find_key(columns: &[Column]) -> Option<usize>
    ensures { result ≡ position is_key columns.now }
{
    columns.iter().position(|column| column.is_key())
}

/// Returns whether any column has the name.
fn has_name(columns: &[Column], name: &Name) -> bool
    ensures { result ≡ list_any (λ column. same_name name.now column.name) columns.now }
{
    columns.iter().any(|column| *name == column.name)
}
