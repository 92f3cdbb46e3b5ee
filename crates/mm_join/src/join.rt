//! Joins of a temporary list with the rows of a further table.
ghost use Rattle.std.specs.Prelude.{◌≡◌, ℕ, ◌+◌, ◌++◌, ◌∷◌, ◌<◌, ◌≤◌, [], IfOk, length, slice_index};
ghost use Rattle.std.specs.List.{sum_by};
ghost use Rattle.mm_join.specs.Equated.{IsJoin, plain_key};
ghost use Rattle.mm_join.specs.Joined.{IsNext};
ghost use Rattle.mm_join.specs.Joins.{CanJoin, Joins};
ghost use Rattle.mm_join.specs.Reads.{any_row, has_hash, has_sought, merge_reads, reads_of};
ghost use Rattle.mm_join.specs.AccessMethods.{IsAccessMethod, inner_of, reads_along};
ghost use Rattle.mm_indexed.specs.Kept.{StoredRows};
ghost use Rattle.mm_base.specs.Columns.{IsReference};
ghost use Rattle.mm_store.specs.Looked.{IsIndexOn, IsTree};
ghost use Rattle.mm_store.specs.Tables.{IsAt, rows_at};
ghost use Rattle.mm_templist.specs.Combos.{combo_rows};

use crate::access_methods::AccessMethod;
use crate::built::hashed_rows;
use crate::cursor::Cursor;
use crate::inner::{Inner, Outer, choose};
use crate::key::JoinKey;
use crate::look_up::Among;
use mm_query::{Atom, FieldPlace};
use mm_store::{IndexRef, View};
use mm_templist::{Descriptor, TempList};
use mm_value::{Refusal, RowRef};
use std::alloc::{AllocError, Global};
use ttree::Iter;

/// A join of an outer list with the rows of a further table. Each method returns the combinations of both for which no atom is false, in no
/// particular order. It fails with `ResultTooLarge` if there are more than `cap`. If an allocation fails, the result may be `Memory`
/// instead.
#[derive(Clone, Copy)]
pub struct Join<'j, 'a> {
    /// The combinations of rows of the tables before the further one.
    pub outer: &'j TempList<'a>,
    /// The descriptor of the result: the tables of the outer list, and then the further one.
    pub descriptor: Descriptor<'a>,
    pub atoms: &'j [Atom<FieldPlace>],
    /// The maximum number of combinations in the result.
    pub cap: u64,
}

impl<'j, 'a> Join<'j, 'a> {
    /// Joins by comparing each pair (the nested loops join of Lehman and Carey, SIGMOD 1986).
    pub fn nested_loops(&self, alloc: Global, view: &mut View<'_>) -> Result<TempList<'a>, Refusal>
        requires next { (table : ℕ) × CanJoin view.old.store self.now table }
        ensures joins { (table : ℕ) → IsNext view.old.store self.now.outer.now.tables self.now.descriptor.tables.now table
            → Joins view.old.store self.now table result }
        ensures reads { (table : ℕ) → IsNext view.old.store self.now.outer.now.tables self.now.descriptor.tables.now table
            → view.new.reads ≤ view.old.reads + reads_of view.old.store self.now table any_row }
        ensures same { view.new.store ≡ view.old.store }
    {
        let all = copy_refs(alloc, view.walk(self.inner().table, IndexRef::Key))?;
        self.along(alloc, view, &mut AccessMethod::All(all))
    }

    /// Joins along a foreign key: each combination with the row that it refers to (the precomputed join of Lehman and Carey, SIGMOD 1986).
    /// Follows the reference that the store keeps, without a search. `field` must be a foreign key to the further table, and the atoms must
    /// imply that the further table's key equals it.
    pub fn precomputed(
        &self,
        alloc: Global,
        view: &mut View<'_>,
        field: FieldPlace,
    ) -> Result<TempList<'a>, Refusal>
        requires next { (table : ℕ) × CanJoin view.old.store self.now table }
        requires asked { (table : ℕ) (stored : StoredRows)
            → IsNext view.old.store self.now.outer.now.tables self.now.descriptor.tables.now table → IsAt view.old.store table stored
            → (field.place < length self.now.outer.now.tables)
            × IsReference view.old.store.links (slice_index self.now.outer.now.tables field.place) field.column table
            × IsJoin self.now.atoms.now self.now.outer.now.tables (plain_key stored.key field) }
        ensures joins { (table : ℕ) → IsNext view.old.store self.now.outer.now.tables self.now.descriptor.tables.now table
            → Joins view.old.store self.now table result }
        ensures reads { (table : ℕ) → IsNext view.old.store self.now.outer.now.tables self.now.descriptor.tables.now table
            → view.new.reads ≤ view.old.reads + sum_by (λ combination. length combination + 1) (combo_rows view.old.store self.now.outer.now) }
        ensures same { view.new.store ≡ view.old.store }
    {
        self.along(alloc, view, &mut AccessMethod::Followed(field))
    }

    /// Joins by a look-up in an index of the further table for each combination. This is the hash join over an existing index, or the tree
    /// join (Lehman and Carey, SIGMOD 1986). The atoms must imply that the index's column has the key's value.
    pub fn look_up(
        &self,
        alloc: Global,
        view: &mut View<'_>,
        index: IndexRef,
        key: JoinKey,
    ) -> Result<TempList<'a>, Refusal>
        requires next { (table : ℕ) × CanJoin view.old.store self.now table }
        requires served { (table : ℕ) (stored : StoredRows)
            → IsNext view.old.store self.now.outer.now.tables self.now.descriptor.tables.now table → IsAt view.old.store table stored
            → IsIndexOn stored key.column index × IsJoin self.now.atoms.now self.now.outer.now.tables key }
        ensures joins { (table : ℕ) → IsNext view.old.store self.now.outer.now.tables self.now.descriptor.tables.now table
            → Joins view.old.store self.now table result }
        ensures reads { (table : ℕ) → IsNext view.old.store self.now.outer.now.tables self.now.descriptor.tables.now table
            → view.new.reads ≤ view.old.reads + reads_of view.old.store self.now table (has_sought key) }
        ensures same { view.new.store ≡ view.old.store }
    {
        self.along(alloc, view, &mut AccessMethod::by(Among::Index(index), key))
    }

    /// Joins by a walk along a tree of the further table (the tree merge join of Lehman and Carey, SIGMOD 1986). The atoms must imply that
    /// the tree's column has the key's value. An outer list in the order of the key's field passes the walk once. For another order the
    /// result is the same, but the walk starts again whenever a value follows a greater one.
    pub fn tree_merge(
        &self,
        alloc: Global,
        view: &mut View<'_>,
        index: IndexRef,
        key: JoinKey,
    ) -> Result<TempList<'a>, Refusal>
        requires next { (table : ℕ) × CanJoin view.old.store self.now table }
        requires served { (table : ℕ) (stored : StoredRows)
            → IsNext view.old.store self.now.outer.now.tables self.now.descriptor.tables.now table → IsAt view.old.store table stored
            → IsIndexOn stored key.column index × IsTree index × IsJoin self.now.atoms.now self.now.outer.now.tables key }
        ensures joins { (table : ℕ) → IsNext view.old.store self.now.outer.now.tables self.now.descriptor.tables.now table
            → Joins view.old.store self.now table result }
        ensures reads { (table : ℕ) → IsNext view.old.store self.now.outer.now.tables self.now.descriptor.tables.now table
            → view.new.reads ≤ view.old.reads + length (rows_at view.old.store.tables table)
            + sum_by (merge_reads key (rows_at view.old.store.tables table)) (combo_rows view.old.store self.now.outer.now) }
        ensures same { view.new.store ≡ view.old.store }
    {
        let cursor = Cursor::new(alloc, view, self.inner().table, index, key.column)?;
        self.along(alloc, view, &mut AccessMethod::by(Among::Walk(cursor), key))
    }

    /// Joins by building a hash table over a column of the further table, and looking up each combination in it (the hash join of Lehman
    /// and Carey, SIGMOD 1986). The atoms must imply that this column has the key's value.
    pub fn built_hash(
        &self,
        alloc: Global,
        view: &mut View<'_>,
        key: JoinKey,
    ) -> Result<TempList<'a>, Refusal>
        requires next { (table : ℕ) × CanJoin view.old.store self.now table }
        requires asked { (table : ℕ) → IsNext view.old.store self.now.outer.now.tables self.now.descriptor.tables.now table
            → IsJoin self.now.atoms.now self.now.outer.now.tables key }
        ensures joins { (table : ℕ) → IsNext view.old.store self.now.outer.now.tables self.now.descriptor.tables.now table
            → Joins view.old.store self.now table result }
        ensures reads { (table : ℕ) → IsNext view.old.store self.now.outer.now.tables self.now.descriptor.tables.now table
            → view.new.reads ≤ view.old.reads + length (rows_at view.old.store.tables table)
            + reads_of view.old.store self.now table (has_hash key) }
        ensures same { view.new.store ≡ view.old.store }
    {
        let pairs = hashed_rows(alloc, view, self.inner().table, key.column)?;
        self.along(alloc, view, &mut AccessMethod::by(Among::Built(pairs), key))
    }

    /// Returns the inner side: the table that follows those of the outer list.
    fn inner(&self) -> Inner<'j>
        requires { (table : ℕ) × (self.now.descriptor.tables.now ≡ self.now.outer.now.tables ++ table ∷ []) }
        ensures { (table : ℕ) → self.now.descriptor.tables.now ≡ self.now.outer.now.tables ++ table ∷ [] → result ≡ inner_of self.now table }
    {
        Inner {
            table: self.descriptor.tables[self.outer.descriptor().tables.len()],
            atoms: self.atoms,
            cap: self.cap,
        }
    }

    /// Joins by an access method, which finds the rows of the further table that may match each combination.
    fn along(
        &self,
        alloc: Global,
        view: &mut View<'_>,
        method: &mut AccessMethod,
    ) -> Result<TempList<'a>, Refusal>
        requires next { (table : ℕ) × CanJoin view.old.store self.now table
            × IsAccessMethod view.old.store self.now.outer.now.tables (inner_of self.now table) method.old }
        ensures joins { (table : ℕ) → IsNext view.old.store self.now.outer.now.tables self.now.descriptor.tables.now table
            → Joins view.old.store self.now table result }
        ensures reads { (table : ℕ) → IsNext view.old.store self.now.outer.now.tables self.now.descriptor.tables.now table
            → view.new.reads ≤ view.old.reads
            + sum_by (reads_along method.old (rows_at view.old.store.tables table)) (combo_rows view.old.store self.now.outer.now) }
        ensures same { view.new.store ≡ view.old.store }
    {
        let inner = self.inner();
        let tables = self.outer.descriptor().tables;
        let mut rows = Vec::with_capacity(alloc, self.descriptor.tables.len())?;
        let mut found = Vec::new(alloc);
        let mut list = TempList::new(alloc, self.descriptor);
        for i in 0..self.outer.len() {
            let refs = self.outer.combo(i);
            let outer = Outer { tables, refs };
            if method.has_none(view, &inner, outer) {
                continue;
            }
            choose(view, outer, &mut rows)?;
            method.find(alloc, view, &inner, outer, &rows, &mut found)?;
            let candidates = method.candidates(found.as_slice());
            inner.add_all(view, &mut rows, refs, candidates, &mut list)?;
        }
        Ok(list)
    }
}

/// Returns a copy of these references, in order. Fails with `AllocError` if an allocation fails.
fn copy_refs(alloc: Global, refs: Iter<'_>) -> Result<Vec<RowRef>, AllocError>
    ensures { IfOk result (λ copied. copied.items ≡ refs.entry) }
{
    refs.collect(alloc)
}
