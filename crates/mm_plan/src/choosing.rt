//! The steps of a query, chosen by fixed rules.
ghost use Rattle.std.specs.Prelude.{◌≡◌, ◌*◌, ◌<◌, All, IfOk, length, nat_lt};
ghost use Rattle.mm_plan.specs.Choosing.{bounded_column, compared_column, count_at, equated_column, first_from, first_rule, first_step, follows_scan, follows_shorter, hash_at, is_plain, is_referred, join_rule, joined_by, merge_of, next_step, step_for, steps_of, tree_at};
ghost use Rattle.mm_plan.specs.Steps.{AreSteps};

use crate::step::Step;
use mm_join::{JoinKey, join_key};
use mm_query::{Atom, BoundQuery, Comparison, FieldPlace, Operand, ShortList};
use mm_store::{IndexRef, View};
use std::alloc::{AllocError, Global};

/// A rule for the first table.
#[derive(Clone, Copy)]
pub enum FirstRule {
    /// An atom `column = literal` whose column has a HASH index.
    Hash,
    /// An atom `column = literal` whose column has a tree.
    Tree,
    /// An atom `column < literal` (or `<=`, `>`, `>=`) whose column has a tree.
    Range,
}

/// A rule for a further table.
#[derive(Clone, Copy)]
pub enum JoinRule {
    /// The table's key is the target of a reference of an earlier table.
    Precomputed,
    /// The table is the second one, the first is scanned, and both columns have trees.
    TreeMerge,
    /// The table is the second one, the first has less than half as many rows, and the column has a tree.
    TreeJoin,
    /// The column has a HASH index.
    HashJoin,
    /// The table has a join equality.
    BuiltHash,
}

/// Returns the steps of a query, one for each table. `tables` has the positions of its tables in the store, in FROM order. Of the atoms
/// that satisfy a rule, the first written is used, and for it the index created first. The tree on the key counts as the table's first.
/// Reads no row. Fails with `AllocError` if an allocation fails. Lehman and Carey (SIGMOD 1986) describe the access paths and join methods.
pub fn plan_steps(
    alloc: Global,
    view: &View<'_>,
    query: &BoundQuery,
    tables: &[usize],
) -> Result<ShortList<Step, 4>, AllocError>
    requires { All (λ table. table < length view.now.store.tables) tables.now }
    ensures steps { IfOk result (λ steps. steps ≡ steps_of view.now.store query.now.atoms tables.now) }
    ensures allowed { IfOk result (λ steps. AreSteps view.now.store query.now.atoms tables.now steps) }
{
    let chooser = Chooser {
        view,
        atoms: query.atoms.as_slice(),
    };
    let mut steps = ShortList::with_capacity(alloc, tables.len())?;
    for (place, table) in tables.iter().enumerate() {
        steps.push(chooser.step_for(&tables[..place], *table))?;
    }
    Ok(steps)
}

/// The input of the rules: the current tables, and the atoms of a query.
#[derive(Clone, Copy)]
pub(crate) struct Chooser<'c, 'v> {
    pub view: &'c View<'v>,
    pub atoms: &'c [Atom<FieldPlace>],
}

impl Chooser<'_, '_> {
    // The view's contract says that no index of the kind was created before the one returned. These functions show that it is the index of
    // the rules.

    /// Returns the tree on a column of a table that was created first.
    fn tree_on(&self, table: usize, column: usize) -> Option<IndexRef>
        requires { table < length self.now.view.now.store.tables }
        ensures { result ≡ tree_at self.now.view.now.store table column }
    {
        self.view.tree_on(table, column)
    }

    /// Returns the HASH index on a column of a table that was created first.
    fn hash_on(&self, table: usize, column: usize) -> Option<IndexRef>
        requires { table < length self.now.view.now.store.tables }
        ensures { result ≡ hash_at self.now.view.now.store table column }
    {
        self.view.hash_on(table, column)
    }

    /// Returns the number of rows of a table.
    fn count_of(&self, table: usize) -> usize
        requires { table < length self.now.view.now.store.tables }
        ensures { result ≡ count_at self.now.view.now.store table }
    {
        self.view.len_of(table)
    }

    /// Returns the step of a table, given the tables before it.
    fn step_for(&self, outers: &[usize], table: usize) -> Step
        requires outers { All (λ outer. outer < length self.now.view.now.store.tables) outers.now }
        requires there { table < length self.now.view.now.store.tables }
        ensures { result ≡ step_for self.now.view.now.store self.now.atoms.now outers.now table }
    {
        match outers {
            [] => self.first_step(table),
            _ => Further {
                chooser: *self,
                outers,
                table,
            }
            .step(),
        }
    }

    /// Returns the step that a rule chooses for the atom at `place`, or `None` if the atom does not satisfy the rule.
    fn first_rule(
        &self,
        rule: FirstRule,
        table: usize,
        place: usize,
        atom: &Atom<FieldPlace>,
    ) -> Option<Step>
        requires { table < length self.now.view.now.store.tables }
        ensures { result ≡ first_rule rule self.now.view.now.store table place atom.now }
    {
        match rule {
            FirstRule::Hash => {
                let index = self.hash_on(table, equated_column(atom)?)?;
                Some(Step::LookUp { index, atom: place })
            }
            FirstRule::Tree => {
                let index = self.tree_on(table, equated_column(atom)?)?;
                Some(Step::LookUp { index, atom: place })
            }
            FirstRule::Range => {
                let index = self.tree_on(table, bounded_column(atom)?)?;
                Some(Step::Range { index, atom: place })
            }
        }
    }

    /// Returns the step that a rule chooses for the first atom that satisfies it.
    fn first_by(&self, rule: FirstRule, table: usize) -> Option<Step>
        requires { table < length self.now.view.now.store.tables }
        ensures { result ≡ first_from (first_rule rule self.now.view.now.store table) 0 self.now.atoms.now }
    {
        for (place, atom) in self.atoms.iter().enumerate() {
            if let Some(step) = self.first_rule(rule, table, place, atom) {
                return Some(step);
            }
        }
        None
    }

    /// Returns the step of the first table.
    pub(crate) fn first_step(&self, table: usize) -> Step
        requires { table < length self.now.view.now.store.tables }
        ensures { result ≡ first_step self.now.view.now.store self.now.atoms.now table }
    {
        if let Some(step) = self.first_by(FirstRule::Hash, table) {
            return step;
        }
        if let Some(step) = self.first_by(FirstRule::Tree, table) {
            return step;
        }
        if let Some(step) = self.first_by(FirstRule::Range, table) {
            return step;
        }
        Step::Scan
    }
}

/// A table of FROM other than the first.
#[derive(Clone, Copy)]
struct Further<'c, 'v> {
    chooser: Chooser<'c, 'v>,
    /// The positions in the store of the tables before this one.
    outers: &'c [usize],
    /// The table's position in the store.
    table: usize,
}

impl Further<'_, '_> {
    /// Returns whether exactly one table precedes this one, and that table is scanned.
    fn follows_scan(&self) -> bool
        requires { All (λ outer. outer < length self.now.chooser.view.now.store.tables) self.now.outers.now }
        ensures { result ≡ follows_scan self.now.chooser.view.now.store self.now.chooser.atoms.now self.now.outers.now }
    {
        match self.outers {
            [first] => matches!(self.chooser.first_step(*first), Step::Scan),
            _ => false,
        }
    }

    /// Returns whether exactly one table precedes this one, with less than half as many rows.
    fn follows_shorter(&self) -> bool
        requires outers { All (λ outer. outer < length self.now.chooser.view.now.store.tables) self.now.outers.now }
        requires there { self.now.table < length self.now.chooser.view.now.store.tables }
        ensures { result ≡ follows_shorter self.now.chooser.view.now.store self.now.outers.now self.now.table }
    {
        match self.outers {
            [first] => is_below_half(
                self.chooser.count_of(*first),
                self.chooser.count_of(self.table),
            ),
            _ => false,
        }
    }

    /// Returns whether the key's column is this table's key, and the key's field is a foreign key to this table only.
    fn is_referred(&self, key: JoinKey) -> bool
        requires there { self.now.table < length self.now.chooser.view.now.store.tables }
        requires earlier { key.field.place < length self.now.outers.now }
        ensures { result ≡ is_referred self.now.chooser.view.now.store self.now.outers.now self.now.table key }
    {
        let view = self.chooser.view;
        let from = self.outers[key.field.place];
        key.column == view.key_of(self.table)
            && view.refers_only_to(from, key.field.column, self.table)
    }

    /// Returns the tree merge along the trees on both columns of a key, or `None` if a tree is missing.
    fn merge_of(&self, place: usize, key: JoinKey) -> Option<Step>
        requires outers { All (λ outer. outer < length self.now.chooser.view.now.store.tables) self.now.outers.now }
        requires there { self.now.table < length self.now.chooser.view.now.store.tables }
        requires earlier { key.field.place < length self.now.outers.now }
        ensures { result ≡ merge_of self.now.chooser.view.now.store self.now.outers.now self.now.table place key }
    {
        let earlier = self.outers[key.field.place];
        let outer = self.chooser.tree_on(earlier, key.field.column)?;
        let inner = self.chooser.tree_on(self.table, key.column)?;
        Some(Step::TreeMerge {
            outer,
            inner,
            atom: place,
        })
    }

    /// Returns the step that a rule chooses for the key of the atom at `place`.
    fn join_rule(
        &self,
        rule: JoinRule,
        place: usize,
        right: &Operand<FieldPlace>,
        key: JoinKey,
    ) -> Option<Step>
        requires outers { All (λ outer. outer < length self.now.chooser.view.now.store.tables) self.now.outers.now }
        requires there { self.now.table < length self.now.chooser.view.now.store.tables }
        requires earlier { key.field.place < length self.now.outers.now }
        ensures { result ≡ join_rule rule self.now.chooser.view.now.store self.now.chooser.atoms.now self.now.outers.now self.now.table
            place right.now key }
    {
        let atom = place;
        match rule {
            JoinRule::Precomputed if is_plain(right) && self.is_referred(key) => {
                Some(Step::Precomputed { atom })
            }
            JoinRule::TreeMerge if self.follows_scan() => self.merge_of(place, key),
            JoinRule::TreeJoin if self.follows_shorter() => {
                let index = self.chooser.tree_on(self.table, key.column)?;
                Some(Step::TreeJoin { index, atom })
            }
            JoinRule::Precomputed | JoinRule::TreeMerge | JoinRule::TreeJoin => None,
            JoinRule::HashJoin => {
                let index = self.chooser.hash_on(self.table, key.column)?;
                Some(Step::HashJoin { index, atom })
            }
            JoinRule::BuiltHash => Some(Step::BuiltHash { atom }),
        }
    }

    /// Returns the step that a rule chooses for the atom at `place`, or `None` if the atom is not a join equality of the table.
    fn joined_by(&self, rule: JoinRule, place: usize, atom: &Atom<FieldPlace>) -> Option<Step>
        requires outers { All (λ outer. outer < length self.now.chooser.view.now.store.tables) self.now.outers.now }
        requires there { self.now.table < length self.now.chooser.view.now.store.tables }
        ensures { result ≡ joined_by rule self.now.chooser.view.now.store self.now.chooser.atoms.now self.now.outers.now self.now.table
            place atom.now }
    {
        let key = join_key(atom, self.outers.len())?;
        self.join_rule(rule, place, &atom.right, key)
    }

    /// Returns the step that a rule chooses for the first join equality of the table that satisfies it.
    fn first_by(&self, rule: JoinRule) -> Option<Step>
        requires outers { All (λ outer. outer < length self.now.chooser.view.now.store.tables) self.now.outers.now }
        requires there { self.now.table < length self.now.chooser.view.now.store.tables }
        ensures { result ≡ first_from (joined_by rule self.now.chooser.view.now.store self.now.chooser.atoms.now self.now.outers.now self.now.table)
            0 self.now.chooser.atoms.now }
    {
        for (place, atom) in self.chooser.atoms.iter().enumerate() {
            if let Some(step) = self.joined_by(rule, place, atom) {
                return Some(step);
            }
        }
        None
    }

    /// Returns the step of the table.
    fn step(&self) -> Step
        requires outers { All (λ outer. outer < length self.now.chooser.view.now.store.tables) self.now.outers.now }
        requires there { self.now.table < length self.now.chooser.view.now.store.tables }
        ensures { result ≡ next_step self.now.chooser.view.now.store self.now.chooser.atoms.now self.now.outers.now self.now.table }
    {
        if let Some(step) = self.first_by(JoinRule::Precomputed) {
            return step;
        }
        if let Some(step) = self.first_by(JoinRule::TreeMerge) {
            return step;
        }
        if let Some(step) = self.first_by(JoinRule::TreeJoin) {
            return step;
        }
        if let Some(step) = self.first_by(JoinRule::HashJoin) {
            return step;
        }
        if let Some(step) = self.first_by(JoinRule::BuiltHash) {
            return step;
        }
        Step::NestedLoops
    }
}

/// Returns the column of the first table that an atom compares with a literal.
fn compared_column(atom: &Atom<FieldPlace>) -> Option<usize>
    ensures { result ≡ compared_column atom.now.left atom.now.right }
{
    match &atom.right {
        Operand::Literal(_) if atom.left.place == 0 => Some(atom.left.column),
        _ => None,
    }
}

/// Returns the column of the first table that an atom requires to equal a literal.
fn equated_column(atom: &Atom<FieldPlace>) -> Option<usize>
    ensures { result ≡ equated_column atom.now }
{
    match atom.comparison {
        Comparison::Equal => compared_column(atom),
        _ => None,
    }
}

/// Returns the column of the first table that an atom requires to be above or below a literal.
fn bounded_column(atom: &Atom<FieldPlace>) -> Option<usize>
    ensures { result ≡ bounded_column atom.now }
{
    match atom.comparison {
        Comparison::Equal => None,
        _ => compared_column(atom),
    }
}

/// Returns whether an operand is a column without a shift.
fn is_plain(operand: &Operand<FieldPlace>) -> bool
    ensures { result ≡ is_plain operand.now }
{
    matches!(operand, Operand::Column(_))
}

/// Returns whether a count is less than half of another one.
fn is_below_half(count: usize, other: usize) -> bool
    ensures { result ≡ nat_lt (2 * count) other }
{
    count.saturating_mul(2) < other
}
