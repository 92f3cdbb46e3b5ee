//! The first table of a query.
ghost use Rattle.std.specs.Prelude.{◌≡◌, ℕ, ◌+◌, ◌<◌, ◌≤◌, [], All, IfOk, List, Some, length, slice_get};
ghost use Rattle.std.specs.List.{count_by};
ghost use Rattle.mm_plan.specs.Begun.{IsBegun};
ghost use Rattle.mm_plan.specs.Finding.{finds_in_key_order};
ghost use Rattle.mm_plan.specs.Steps.{AreSteps, Reaches, may_look};
ghost use Rattle.mm_plan.specs.declared.step.Step.TheVariants.{LookUp};
ghost use Rattle.mm_indexed.specs.Kept.{StoredRows};
ghost use Rattle.mm_select.specs.Accesses.{Asks, IsOfKey, IsServed, is_along, is_in_key_order};
ghost use Rattle.mm_store.specs.Tables.{rows_at};
ghost use Rattle.mm_store.specs.declared.index_ref.IndexRef.TheVariants.{Key};
ghost use Rattle.mm_value.specs.declared.values.Value.{Value as AnyValue};

use crate::ends::{high_end, low_end};
use crate::keys::key_at;
use crate::step::Step;
use mm_query::{Atom, BoundQuery, FieldPlace, Operand};
use mm_select::{Access, select};
use mm_store::View;
use mm_templist::{Descriptor, TempList};
use std::alloc::{AllocError, Global};

/// Returns the combinations of the first table's rows that fit so far, found by the table's step. Before a tree merge with the second table
/// the rows are found along the first table's tree, in its order. Fails with `AllocError` if an allocation fails.
pub(crate) fn begin<'a>(
    alloc: Global,
    view: &mut View<'_>,
    query: &'a BoundQuery,
    tables: &'a [usize],
    steps: &[Step],
) -> Result<TempList<'a>, AllocError>
    requires there { All (λ table. table < length view.old.store.tables) tables.now }
    requires few { length tables.now ≤ 4 }
    requires some { 0 < length tables.now }
    requires steps { AreSteps view.old.store query.now.atoms tables.now steps.now }
    ensures begun { IfOk result (λ list. IsBegun view.old.store query.now tables.entry.now list) }
    ensures alone { IfOk result (λ list. length list.tables ≡ 1) }
    ensures reads { (table : ℕ) (own : Step) → slice_get tables.entry.now 0 ≡ Some table → slice_get steps.now 0 ≡ Some own
        → view.new.reads ≤ view.old.reads + count_by (may_look query.now.atoms 0 own []) (rows_at view.old.store.tables table) }
    ensures same { view.new.store ≡ view.old.store }
{
    let atoms = query.atoms.as_slice();
    let access = match steps {
        [Step::Scan, Step::TreeMerge { outer, atom, .. }, ..] => Access::Range {
            index: *outer,
            column: key_at(atoms, 1, *atom).field.column,
            low: None,
            high: None,
        },
        _ => access_by(atoms, steps[0]),
    };
    let descriptor = Descriptor {
        tables: &tables[..1],
        fields: query.fields.as_slice(),
    };
    Ok(select(alloc, view, descriptor, atoms, access)?)
}

/// Returns the access path of a step of the first table.
pub(crate) fn access_by(atoms: &[Atom<FieldPlace>], step: Step) -> Access<'_>
    requires { (stored : StoredRows) × Reaches stored atoms.now step }
    ensures served { (stored : StoredRows) → Reaches stored atoms.now step → IsServed stored result }
    ensures asked { Asks atoms.now result }
    ensures along { (row : List AnyValue) → is_along result row ≡ may_look atoms.now 0 step [] row }
    ensures ordered { is_in_key_order result ≡ finds_in_key_order step }
    ensures by_key { (atom : ℕ) → step ≡ LookUp Key atom → IsOfKey result }
{
    match step {
        Step::Scan => Access::Scan,
        Step::LookUp { index, atom } => {
            let own = &atoms[atom];
            let Operand::Literal(value) = &own.right else {
                unreachable!();
            };
            Access::Equal {
                index,
                column: own.left.column,
                value,
            }
        }
        Step::Range { index, atom } => {
            let column = atoms[atom].left.column;
            Access::Range {
                index,
                column,
                low: low_end(atoms, column),
                high: high_end(atoms, column),
            }
        }
        _ => unreachable!(),
    }
}
