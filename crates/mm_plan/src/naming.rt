//! The names of steps.
ghost use Rattle.std.specs.Prelude.{◌≡◌, ℕ, ◌<◌, ◌≤◌, IfOk, length, slice_get};
ghost use Rattle.mm_plan.specs.Naming.{AreNamesThere, IsColumnThere, IsFieldThere, IsIndexThere, alias_at, column_at, field_named, index_at, named, named_steps, names_in, tree_named};
ghost use Rattle.mm_plan.specs.declared.step.Step.{Step as PlanStep};
ghost use Rattle.mm_store.specs.declared.index_ref.IndexRef.TheVariants.{Tree};

use crate::keys::key_at;
use crate::step::Step;
use mm_query::{Atom, FieldName, FieldPlace, FromItem, ItemList, PlanLine};
use mm_schema::{Catalog, IndexId, Name};
use mm_store::IndexRef;
use std::alloc::{AllocError, Global};

/// The source of names.
#[derive(Clone, Copy)]
pub struct Naming<'n> {
    pub catalog: &'n Catalog,
    pub from: &'n [FromItem],
    /// The positions of the tables of FROM in the catalog.
    pub tables: &'n [usize],
}

impl Naming<'_> {
    /// Returns the lines of a plan, one for each step. The step at a position is that of the table at this position in FROM. Looks up no
    /// name. Fails with `AllocError` if an allocation fails.
    pub fn lines(
        &self,
        alloc: Global,
        atoms: &[Atom<FieldPlace>],
        steps: &[Step],
    ) -> Result<ItemList<PlanLine>, AllocError>
        requires few { length steps.now ≤ length self.now.from.now }
        requires there { (place : ℕ) (own : PlanStep) → slice_get steps.now place ≡ Some own → AreNamesThere (names_in self.now) atoms.now place own }
        ensures { IfOk result (λ lines. lines ≡ named_steps (names_in self.now) atoms.now steps.now) }
    {
        let mut lines = Vec::with_capacity(alloc, steps.len())?;
        for (place, step) in steps.iter().enumerate() {
            lines.push(self.line(atoms, place, *step))?;
        }
        Ok(ItemList::new(lines))
    }

    /// Returns the line of the step of the table at a position in FROM.
    fn line(&self, atoms: &[Atom<FieldPlace>], place: usize, step: Step) -> PlanLine
        requires alias { place < length self.now.from.now }
        requires there { AreNamesThere (names_in self.now) atoms.now place step }
        ensures { result ≡ named (names_in self.now) atoms.now place step }
    {
        let alias = self.alias_at(place);
        match step {
            Step::Scan => PlanLine::Scan { alias },
            Step::LookUp {
                index: IndexRef::Hash(number),
                ..
            } => {
                let index = self.index_at(place, number);
                PlanLine::Hash { alias, index }
            }
            Step::LookUp { index, .. } => {
                let index = self.tree_at(place, index);
                PlanLine::TreeEqual { alias, index }
            }
            Step::Range { index, .. } => {
                let index = self.tree_at(place, index);
                PlanLine::TreeRange { alias, index }
            }
            Step::Precomputed { atom } => {
                let key = key_at(atoms, place, atom);
                let field = self.field(key.field);
                PlanLine::Precomputed { alias, field }
            }
            Step::TreeMerge { outer, inner, .. } => PlanLine::TreeMerge {
                alias,
                outer: self.tree_at(0, outer),
                inner: self.tree_at(place, inner),
            },
            Step::TreeJoin { index, .. } => {
                let index = self.tree_at(place, index);
                PlanLine::TreeJoin { alias, index }
            }
            Step::HashJoin {
                index: IndexRef::Hash(number),
                ..
            } => {
                let index = self.index_at(place, number);
                PlanLine::HashJoin { alias, index }
            }
            Step::HashJoin { .. } => unreachable!(),
            Step::BuiltHash { atom } => {
                let key = key_at(atoms, place, atom);
                let column = self.column_at(place, key.column);
                PlanLine::BuiltHash { alias, column }
            }
            Step::NestedLoops => PlanLine::NestedLoops { alias },
        }
    }

    /// Returns the alias at a position in FROM.
    fn alias_at(&self, place: usize) -> Name
        requires { place < length self.now.from.now }
        ensures { result ≡ alias_at (names_in self.now) place }
    {
        self.from[place].alias.copy()
    }

    /// Returns the name of a column of the table at a position in FROM.
    fn column_at(&self, place: usize, column: usize) -> Name
        requires { IsColumnThere (names_in self.now) place column }
        ensures { result ≡ column_at (names_in self.now) place column }
    {
        let table = self.catalog.table_at(self.tables[place]);
        table.definition.columns.as_slice()[column].name.copy()
    }

    /// Returns the name of an index of the table at a position in FROM. `number` is the index's position in the table.
    fn index_at(&self, place: usize, number: usize) -> Name
        requires { IsIndexThere (names_in self.now) place (Tree number) }
        ensures { result ≡ index_at (names_in self.now) place number }
    {
        let table = self.catalog.table_at(self.tables[place]);
        table.indexes.as_slice()[number].name.copy()
    }

    /// Returns a tree of the table at a position in FROM: its name, or that it is on the key.
    fn tree_at(&self, place: usize, index: IndexRef) -> IndexId
        requires { IsIndexThere (names_in self.now) place index }
        ensures { result ≡ tree_named (names_in self.now) place index }
    {
        match index {
            IndexRef::Key => IndexId::Key,
            IndexRef::Tree(number) | IndexRef::Hash(number) => {
                IndexId::Named(self.index_at(place, number))
            }
        }
    }

    /// Returns the alias and the column name of a field.
    fn field(&self, field: FieldPlace) -> FieldName<Name>
        requires { IsFieldThere (names_in self.now) field }
        ensures { result ≡ field_named (names_in self.now) field }
    {
        FieldName {
            alias: self.alias_at(field.place),
            column: self.column_at(field.place, field.column),
        }
    }
}
