//! The maximum number of combinations of a query's first tables.
ghost use Rattle.std.specs.Prelude.{◌≡◌, ℕ, ◌<◌, ◌≤◌, ◌↔◌, All, IsTrue, drop, length};
ghost use Rattle.std.specs.List.{list_all};
ghost use Rattle.mm_plan.specs.Growing.{HaveRows, IsCap, names_first};

use mm_query::{Atom, FieldPlace, MAX_COMBINATIONS};
use mm_store::View;

/// Returns whether an atom names only fields of the first `tables` tables.
fn names_first(atom: &Atom<FieldPlace>, tables: usize) -> bool
    ensures { result ≡ names_first tables atom.now }
{
    let is_right_first = match atom.right.column() {
        Some(field) => field.place < tables,
        None => true,
    };
    atom.left.place < tables && is_right_first
}

/// Returns whether every atom names only fields of the first `tables` tables.
fn all_name_first(atoms: &[Atom<FieldPlace>], tables: usize) -> bool
    ensures { result ≡ list_all (names_first tables) atoms.now }
{
    atoms.iter().all(|atom| names_first(atom, tables))
}

/// Returns whether each of the tables has a row.
fn have_rows(view: &View<'_>, tables: &[usize]) -> bool
    requires { All (λ table. table < length view.now.store.tables) tables.now }
    ensures { IsTrue result ↔ HaveRows view.now.store tables.now }
{
    for &table in tables {
        if view.len_of(table) == 0 {
            return false;
        }
    }
    true
}

/// Returns the maximum number of combinations of the first `first` tables. This is the limit of the result if no table is left, or if each
/// combination is certainly part of one in the result. So a product that is too large is refused early and not stored. Otherwise the number
/// is unlimited.
pub(crate) fn cap_of(
    view: &View<'_>,
    atoms: &[Atom<FieldPlace>],
    tables: &[usize],
    first: usize,
) -> u64
    requires there { All (λ table. table < length view.now.store.tables) tables.now }
    requires within { first ≤ length tables.now }
    ensures { IsCap view.now.store atoms.now tables.now first result }
{
    let later = &tables[first..];
    if later.is_empty() || (all_name_first(atoms, first) && have_rows(view, later)) {
        MAX_COMBINATIONS as u64
    } else {
        u64::MAX
    }
}
