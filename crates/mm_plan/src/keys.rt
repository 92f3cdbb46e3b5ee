//! The keys of join equalities.
ghost use Rattle.std.specs.Prelude.{◌≡◌, ℕ, ◌<◌, List, length};
ghost use Rattle.mm_join.specs.Equated.{IsJoin};
ghost use Rattle.mm_plan.specs.Steps.{HasKey};

use mm_join::{JoinKey, join_key};
use mm_query::{Atom, FieldPlace};

/// Returns the key of an atom for the table at a position in FROM. The atom must be a join equality of that table.
pub(crate) fn key_at(atoms: &[Atom<FieldPlace>], place: usize, atom: usize) -> JoinKey
    requires { HasKey atoms.now place atom (λ key. Unit {0}) }
    ensures is { HasKey atoms.now place atom (λ key. key ≡ result) }
    ensures asked { (outers : List ℕ) → length outers ≡ place → IsJoin atoms.now outers result }
    ensures earlier { result.field.place < place }
{
    match join_key(&atoms[atom], place) {
        Some(key) => key,
        None => unreachable!(),
    }
}
