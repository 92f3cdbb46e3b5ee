//! The index by which the rows at a place are found.
ghost use Rattle.std.specs.Prelude.{◌≡◌, ◌<◌, length, map, is_some, IfOk, IfSome};
ghost use Rattle.mm_partition.specs.Views.{viewed};
ghost use Rattle.mm_indexed.specs.Kept.{StoredRows};
ghost use Rattle.mm_store.specs.Looked.{IsIndexOn};
ghost use Rattle.mm_store.specs.Tables.{IsAt};
ghost use Rattle.mm_query.specs.Queries.{rows_read, value_at};
ghost use Rattle.mm_query.specs.Atoms.{operand_of};
ghost use Rattle.mm_delta.specs.Candidates.{asked_by, asked_of, asked_of_right, required};
ghost use Rattle.mm_delta.specs.Edited.{has_index};
ghost use Rattle.mm_delta.specs.Steps.{IsServed, asked};

use crate::known::{copied, field_value, known_operand, lowered};
use crate::wanted::Wanted;
use mm_partition::RowView;
use mm_query::{Atom, Comparison, FieldPlace, Operand};
use mm_store::{IndexRef, View};
use std::alloc::{AllocError, Global};

/// A look-up of a value in an index.
#[derive(Drop)]
pub(crate) struct LookUp {
    /// The column of the index, counted from 0.
    pub(crate) column: usize,
    /// The index.
    pub(crate) index: IndexRef,
    /// The value that a row must have there.
    pub(crate) wanted: Wanted,
}

/// What is known when rows are looked up.
#[derive(Drop)]
pub(crate) struct Site<'s, 'a> {
    /// The store.
    pub(crate) view: &'s View<'a>,
    /// The table.
    pub(crate) table: usize,
    /// Its place in FROM.
    pub(crate) place: usize,
    /// The rows chosen at the other places.
    pub(crate) rows: &'s [Option<RowView<'s>>],
}

impl Site<'_, '_> {
    /// Returns the index on a column, if there is one.
    fn index_of(&self, column: usize) -> Option<IndexRef>
        requires { self.now.table < length self.now.view.now.store.tables }
        ensures there { is_some result ≡ has_index self.now.view.now.store self.now.table column }
        ensures served { IfSome result (λ index. (stored : StoredRows) → IsAt self.now.view.now.store self.now.table stored → IsIndexOn stored column index) }
    {
        self.view.index_on(self.table, column)
    }

    /// Returns the look-up of the value that an equality requires of its left side. Fails with `AllocError` if an allocation fails.
    fn by_left(&self, alloc: Global, atom: &Atom<FieldPlace>) -> Result<Option<LookUp>, AllocError>
        requires { self.now.table < length self.now.view.now.store.tables }
        ensures ok { IfOk result (λ found. asked found ≡ asked_of (has_index self.now.view.now.store self.now.table) self.now.place atom.now.left
            (operand_of (value_at (rows_read viewed self.now.rows.now)) atom.now.right)) }
        ensures served { IfOk result (λ found. IfSome found (IsServed self.now.view.now.store self.now.table)) }
    {
        if atom.left.place != self.place {
            return Ok(None);
        }
        let column = atom.left.column;
        let Some(index) = self.index_of(column) else {
            return Ok(None);
        };
        let Some(wanted) = known_operand(alloc, &atom.right, self.rows)? else {
            return Ok(None);
        };
        Ok(Some(LookUp {
            column,
            index,
            wanted,
        }))
    }

    /// Returns the look-up of the value that an equality requires of its right side. Fails with `AllocError` if an allocation fails.
    fn by_right(&self, alloc: Global, atom: &Atom<FieldPlace>) -> Result<Option<LookUp>, AllocError>
        requires { self.now.table < length self.now.view.now.store.tables }
        ensures ok { IfOk result (λ found. asked found ≡ asked_of_right (has_index self.now.view.now.store self.now.table) self.now.place
            (value_at (rows_read viewed self.now.rows.now) atom.now.left) atom.now.right) }
        ensures served { IfOk result (λ found. IfSome found (IsServed self.now.view.now.store self.now.table)) }
    {
        let (field, by) = match &atom.right {
            Operand::Literal(_) => return Ok(None),
            Operand::Column(field) => (*field, None),
            Operand::Shifted(field, by) => (*field, Some(*by)),
        };
        if field.place != self.place {
            return Ok(None);
        }
        let column = field.column;
        let Some(index) = self.index_of(column) else {
            return Ok(None);
        };
        let left = field_value(self.rows, atom.left);
        let wanted = match by {
            None => copied(alloc, left)?,
            Some(by) => lowered(alloc, left, by)?,
        };
        Ok(wanted.map(|wanted| LookUp {
            column,
            index,
            wanted,
        }))
    }

    /// Returns the look-up of the value that an atom requires. Fails with `AllocError` if an allocation fails.
    fn by_atom(&self, alloc: Global, atom: &Atom<FieldPlace>) -> Result<Option<LookUp>, AllocError>
        requires { self.now.table < length self.now.view.now.store.tables }
        ensures ok { IfOk result (λ found. asked found ≡ asked_by (has_index self.now.view.now.store self.now.table) self.now.place
            (rows_read viewed self.now.rows.now) atom.now atom.now.comparison) }
        ensures served { IfOk result (λ found. IfSome found (IsServed self.now.view.now.store self.now.table)) }
    {
        let Comparison::Equal = atom.comparison else {
            return Ok(None);
        };
        match self.by_left(alloc, atom)? {
            Some(found) => Ok(Some(found)),
            None => self.by_right(alloc, atom),
        }
    }

    /// Returns the look-up of the value that the first such atom requires of a row there, if there is such an atom. Fails with `AllocError`
    /// if an allocation fails.
    pub(crate) fn look_up(
        &self,
        alloc: Global,
        atoms: &[Atom<FieldPlace>],
    ) -> Result<Option<LookUp>, AllocError>
        requires { self.now.table < length self.now.view.now.store.tables }
        ensures ok { IfOk result (λ found. asked found ≡ required (has_index self.now.view.now.store self.now.table) atoms.now
            (rows_read viewed self.now.rows.now) self.now.place) }
        ensures served { IfOk result (λ found. IfSome found (IsServed self.now.view.now.store self.now.table)) }
    {
        for atom in atoms {
            if let Some(found) = self.by_atom(alloc, atom)? {
                return Ok(Some(found));
            }
        }
        Ok(None)
    }
}
