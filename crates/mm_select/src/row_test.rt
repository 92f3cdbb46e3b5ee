//! Tests of atoms on rows of the first table.
ghost use Rattle.std.specs.Prelude.{◌≡◌, ◌+◌, ◌≤◌, ◌∷◌, ◌<◌, [], false, true, Some, length};
ghost use Rattle.std.specs.List.{list_any};
ghost use Rattle.mm_partition.specs.Places.{IsLive};
ghost use Rattle.mm_query.specs.Queries.{none_fails};
ghost use Rattle.mm_indexed.specs.Kept.{StoredRows};
ghost use Rattle.mm_select.specs.Accesses.{asks_along, is_along};
ghost use Rattle.mm_select.specs.Alone.{asks_of_first};
ghost use Rattle.mm_store.specs.Tables.{IsAt};
ghost use Rattle.mm_templist.specs.Combos.{row_of};

use crate::access::{Access, is_met_along};
use mm_query::{Atom, FieldPlace, Operand, none_fails};
use mm_store::View;
use mm_value::RowRef;

/// Atoms to evaluate on the rows of the first table along an access path.
#[derive(Clone, Copy)]
pub(crate) struct RowTest<'q> {
    /// The position of the table in the store.
    pub table: usize,
    pub atoms: &'q [Atom<FieldPlace>],
    pub access: Access<'q>,
    /// Whether some atom tests this table alone and is not implied by the access path. If there is none, every row passes without being
    /// read.
    pub asks: bool,
    ghost told: { asks ≡ list_any (asks_along access) atoms.now },
}

impl RowTest<'_> {
    /// Returns whether no atom is false for a row along the access path. Reads the row only if some atom must be evaluated.
    pub fn admits(&self, view: &mut View<'_>, at: RowRef) -> bool
        requires there { self.now.table < length view.old.store.tables }
        requires live { (stored : StoredRows) → IsAt view.old.store self.now.table stored → IsLive stored.places at }
        requires along { is_along self.now.access (row_of view.old.store self.now.table at) ≡ true }
        ensures told { result ≡ none_fails self.now.atoms.now (Some (row_of view.old.store self.now.table at) ∷ []) }
        ensures reads { view.new.reads ≤ view.old.reads + 1 }
        ensures unread { list_any (asks_along self.now.access) self.now.atoms.now ≡ false → view.new.reads ≡ view.old.reads }
        ensures same { view.new.store ≡ view.old.store }
    {
        if !self.asks {
            return true;
        }
        let row = view.row(self.table, at);
        none_fails(self.atoms, &[Some(row)])
    }
}

/// Returns whether an atom compares a column of the first table with a literal or with another column of that table.
fn asks_of_first(atom: &Atom<FieldPlace>) -> bool
    ensures { result ≡ asks_of_first atom.now }
{
    let reads_first = match &atom.right {
        Operand::Literal(_) => true,
        Operand::Column(field) => field.place == 0,
        Operand::Shifted(field, _) => field.place == 0,
    };
    atom.left.place == 0 && reads_first
}

/// Returns whether an atom tests the first table alone, and some row along an access path may fail it.
fn asks_along(access: Access<'_>, atom: &Atom<FieldPlace>) -> bool
    ensures { result ≡ asks_along access.entry atom.now }
{
    asks_of_first(atom) && !is_met_along(access, atom)
}

/// Returns whether some atom tests the first table alone, and some row along an access path may fail it.
pub(crate) fn some_asks_along(access: Access<'_>, atoms: &[Atom<FieldPlace>]) -> bool
    ensures { result ≡ list_any (asks_along access.entry) atoms.now }
{
    atoms.iter().any(|atom| asks_along(access, atom))
}
