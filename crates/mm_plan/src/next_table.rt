//! The second and later tables of a query.
ghost use Rattle.std.specs.Prelude.{◌≡◌, ◌⊎◌, ℕ, ◌+◌, ◌<◌, ◌≤◌, Some, length, map, slice_get, All, IfErr, IfOk};
ghost use Rattle.mm_join.specs.Joined.{IsNext};
ghost use Rattle.mm_join.specs.Joins.{CanJoin, Joins as IsJoined};
ghost use Rattle.mm_plan.specs.Begun.{IsBegun};
ghost use Rattle.mm_plan.specs.Steps.{Joins, step_reads};
ghost use Rattle.mm_query.specs.Queries.{bag_of, size_conditions};
ghost use Rattle.mm_schema.specs.Refused.{first_refusal};
ghost use Rattle.mm_store.specs.Tables.{rows_at};
ghost use Rattle.mm_templist.specs.Combos.{combo_rows};
ghost use Rattle.mm_value.specs.declared.refusal.Refusal.TheVariants.{Memory};

use crate::caps::cap_of;
use crate::keys::key_at;
use crate::step::Step;
use mm_join::Join;
use mm_query::BoundQuery;
use mm_store::View;
use mm_templist::{Descriptor, TempList};
use mm_value::Refusal;
use std::alloc::Global;

/// Joins the next table of a query, by its step, to a list of combinations of the tables before it. Fails with the refusal of the query, or
/// with `Memory`.
pub(crate) fn join_next<'a>(
    alloc: Global,
    view: &mut View<'_>,
    list: &TempList<'a>,
    query: &'a BoundQuery,
    tables: &'a [usize],
    step: Step,
) -> Result<TempList<'a>, Refusal>
    requires there { All (λ table. table < length view.old.store.tables) tables.now }
    requires few { length tables.now ≤ 4 }
    requires begun { IsBegun view.old.store query.now tables.now list.now }
    requires left { length list.now.tables < length tables.now }
    requires joins { (table : ℕ) → slice_get tables.now (length list.now.tables) ≡ Some table
        → Joins view.old.store query.now.atoms list.now.tables table step }
    ensures due { IfErr result (λ refusal.
        (first_refusal (size_conditions (bag_of query.now (map (rows_at view.old.store.tables) tables.entry.now))) ≡ Some refusal)
        ⊎ (refusal ≡ Memory)) }
    ensures begun { IfOk result (λ next. IsBegun view.old.store query.now tables.entry.now next) }
    ensures longer { IfOk result (λ next. length next.tables ≡ length list.now.tables + 1) }
    ensures reads { (table : ℕ) → slice_get tables.entry.now (length list.now.tables) ≡ Some table → view.new.reads ≤ view.old.reads
        + step_reads query.now.atoms (length list.now.tables) step (rows_at view.old.store.tables table) (combo_rows view.old.store list.now) }
    ensures same { view.new.store ≡ view.old.store }
{
    let joined = list.descriptor().tables.len();
    let atoms = query.atoms.as_slice();
    let join = Join {
        outer: list,
        descriptor: Descriptor {
            tables: &tables[..joined + 1],
            fields: query.fields.as_slice(),
        },
        atoms,
        cap: cap_of(view, atoms, tables, joined + 1),
    };
    join_by(alloc, view, &join, step)
}

/// Executes a join by a step.
fn join_by<'a>(
    alloc: Global,
    view: &mut View<'_>,
    join: &Join<'_, 'a>,
    step: Step,
) -> Result<TempList<'a>, Refusal>
    requires next { (table : ℕ) × CanJoin view.old.store join.now table }
    requires joins { (table : ℕ) → IsNext view.old.store join.now.outer.now.tables join.now.descriptor.tables.now table
        → Joins view.old.store join.now.atoms.now join.now.outer.now.tables table step }
    ensures joined { (table : ℕ) → IsNext view.old.store join.now.outer.now.tables join.now.descriptor.tables.now table
        → IsJoined view.old.store join.now table result }
    ensures reads { (table : ℕ) → IsNext view.old.store join.now.outer.now.tables join.now.descriptor.tables.now table
        → view.new.reads ≤ view.old.reads + step_reads join.now.atoms.now (length join.now.outer.now.tables) step
        (rows_at view.old.store.tables table) (combo_rows view.old.store join.now.outer.now) }
    ensures same { view.new.store ≡ view.old.store }
{
    let place = join.outer.descriptor().tables.len();
    match step {
        Step::NestedLoops => join.nested_loops(alloc, view),
        Step::Precomputed { atom } => {
            let key = key_at(join.atoms, place, atom);
            join.precomputed(alloc, view, key.field)
        }
        Step::TreeMerge { inner, atom, .. } => {
            let key = key_at(join.atoms, place, atom);
            join.tree_merge(alloc, view, inner, key)
        }
        Step::TreeJoin { index, atom } | Step::HashJoin { index, atom } => {
            let key = key_at(join.atoms, place, atom);
            join.look_up(alloc, view, index, key)
        }
        Step::BuiltHash { atom } => {
            let key = key_at(join.atoms, place, atom);
            join.built_hash(alloc, view, key)
        }
        _ => unreachable!(),
    }
}
