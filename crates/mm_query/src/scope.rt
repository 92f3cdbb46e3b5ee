//! The tables of FROM, by which the names of a query are resolved. Each name is looked up once.
ghost use Rattle.std.specs.Prelude.{◌≡◌, ◌||◌, ◌∷◌, [], false, map, IfOk, OnOk};
ghost use Rattle.std.specs.List.{list_any};
ghost use Rattle.std.specs.Option.{option_map_or};
ghost use Rattle.mm_schema.specs.Name.{same_name};
ghost use Rattle.mm_schema.specs.Refused.{AnswersDue, first_refusal};
ghost use Rattle.mm_schema.specs.Schema.{lacks_table};
ghost use Rattle.mm_value.specs.declared.refusal.Refusal.TheVariants.{NoSuchTable};
ghost use Rattle.mm_query.specs.Faults.{noted};
ghost use Rattle.mm_query.specs.Fields.{FieldName as Field};
ghost use Rattle.mm_query.specs.Placing.{differ, mapped_atom, mapped_operand, mismatches, operand_type, shifts_text};
ghost use Rattle.mm_query.specs.Resolving.{alias_place, column_of, field_lacks_column, field_type, has_duplicate_aliases, lacks_alias, lacks_position, exceeds_query_limits, placed_field, places_in, some_side};
ghost use Rattle.mm_query.specs.declared.atom.Atom.{Atom as Test};
ghost use Rattle.mm_query.specs.declared.query.FromItem.{FromItem as Item};

use crate::atom::{Atom, Operand};
use crate::bound_query::FieldPlace;
use crate::faults::{Faults, Resolved};
use crate::place::resolve_column;
use crate::query::{FieldName, FromItem, Query};
use crate::short_list::ShortList;
use mm_schema::{Catalog, Name, NameRef};
use mm_value::{ColType, Few, Refusal};
use std::alloc::{AllocError, Global};

/// The maximum number of tables in FROM.
pub const MAX_FROM: usize = 4;

/// The maximum number of fields, of atoms, and of positions of ORDER.
pub const MAX_PARTS: usize = 16;

/// The tables of FROM with their aliases. All tables exist in the catalog.
#[derive(Drop)]
pub(crate) struct Scope<'a> {
    /// The catalog.
    pub catalog: &'a Catalog,
    /// The tables and their aliases.
    pub from: Few<FromItem>,
    /// The positions of the tables in the catalog's order of creation.
    pub tables: ShortList<usize, 4>,
    ghost there: { list_any (λ (item : Item). lacks_table item.table catalog.now) from ≡ false },
    ghost places: { tables ≡ places_in catalog.now from },
}

/// Returns the positions of tables in the catalog's order of creation. Fails with `NoSuchTable` if a table does not exist, and with
/// `Memory` if an allocation fails.
fn find_tables(
    alloc: Global,
    catalog: &Catalog,
    from: &[FromItem],
) -> Result<ShortList<usize, 4>, Refusal>
    ensures due { AnswersDue (first_refusal
        (record { holds = list_any (λ (item : Item). lacks_table item.table catalog.now) from.now; refusal = NoSuchTable } ∷ [])) result }
    ensures ok { IfOk result (λ tables. tables ≡ places_in catalog.now from.now) }
{
    let mut tables = ShortList::with_capacity(alloc, from.len())?;
    for item in from {
        let Some(place) = catalog.place_of(&item.table) else {
            return Err(Refusal::NoSuchTable);
        };
        tables.push(place)?;
    }
    Ok(tables)
}

impl<'a> Scope<'a> {
    /// Looks up the tables of FROM in the catalog. Fails with `NoSuchTable` if a table does not exist, and with `Memory` if an allocation
    /// fails.
    pub(crate) fn find(
        alloc: Global,
        catalog: &'a Catalog,
        from: Few<FromItem>,
    ) -> Result<Scope<'a>, Refusal>
        ensures due { AnswersDue (first_refusal
            (record { holds = list_any (λ (item : Item). lacks_table item.table catalog.now) from; refusal = NoSuchTable } ∷ [])) result }
        ensures catalog { IfOk result (λ scope. scope.catalog.now ≡ catalog.now) }
        ensures from { IfOk result (λ scope. scope.from ≡ from) }
    {
        let tables = find_tables(alloc, catalog, from.as_slice())?;
        Ok(Scope {
            catalog,
            from,
            tables,
        })
    }

    /// Returns the position of an alias in FROM, counted from 0: the first one if it occurs twice.
    fn place_of(&self, alias: &NameRef<'_>) -> Option<usize>
        ensures { result ≡ alias_place self.now.from alias.now }
    {
        self.from
            .as_slice()
            .iter()
            .position(|item| *alias == item.alias.as_ref())
    }

    /// Resolves a field. Records an error if its alias or its column does not exist.
    fn resolve(&self, field: &FieldName<NameRef<'_>>, faults: &mut Faults) -> Resolved<FieldPlace>
        ensures place { result.place ≡ placed_field self.now.catalog.now self.now.from field.now }
        ensures col_type { result.col_type ≡ field_type self.now.catalog.now self.now.from field.now }
        ensures faults { faults.new ≡ noted (field_lacks_column self.now.catalog.now self.now.from field.now)
            (lacks_alias self.now.from field.now) false faults.old }
    {
        let Some(place) = self.place_of(&field.alias) else {
            faults.alias = true;
            return Resolved {
                place: FieldPlace {
                    place: 0,
                    column: 0,
                },
                col_type: None,
            };
        };
        let table = self.catalog.table_at(self.tables.as_slice()[place]);
        let column = resolve_column(&table.definition.columns, &field.column, faults);
        Resolved {
            place: FieldPlace {
                place,
                column: column.place,
            },
            col_type: column.col_type,
        }
    }

    /// Resolves fields, and records their errors. Fails with `AllocError` if an allocation fails.
    pub(crate) fn place_fields(
        &self,
        alloc: Global,
        fields: &[FieldName<NameRef<'_>>],
        faults: &mut Faults,
    ) -> Result<ShortList<FieldPlace, 4>, AllocError>
        ensures ok { IfOk result (λ placed. placed ≡ map (placed_field self.now.catalog.now self.now.from) fields.now) }
        ensures faults { OnOk result (faults.new ≡ noted (list_any (field_lacks_column self.now.catalog.now self.now.from) fields.now)
            (list_any (lacks_alias self.now.from) fields.now) false faults.old) }
    {
        let mut placed = ShortList::with_capacity(alloc, fields.len())?;
        for field in fields {
            placed.push(self.resolve(field, faults).place)?;
        }
        Ok(placed)
    }

    /// Resolves the field of an operand, whose other side has the type `left`, and records its errors.
    fn place_operand(
        &self,
        operand: Operand<FieldName<NameRef<'_>>>,
        left: Option<ColType>,
        faults: &mut Faults,
    ) -> Operand<FieldPlace>
        ensures place { result ≡ mapped_operand (placed_field self.now.catalog.now self.now.from) operand.entry }
        ensures faults { faults.new ≡ noted
            (option_map_or (field_lacks_column self.now.catalog.now self.now.from) (column_of operand.entry) false)
            (option_map_or (lacks_alias self.now.from) (column_of operand.entry) false)
            (differ left (operand_type (field_type self.now.catalog.now self.now.from) operand.entry)
            || shifts_text (field_type self.now.catalog.now self.now.from) operand.entry)
            faults.old }
    {
        match operand {
            Operand::Literal(value) => {
                faults.compare(left, Some(value.col_type()));
                Operand::Literal(value)
            }
            Operand::Column(field) => {
                let right = self.resolve(&field, faults);
                faults.compare(left, right.col_type);
                Operand::Column(right.place)
            }
            Operand::Shifted(field, shift) => {
                let right = self.resolve(&field, faults);
                faults.compare_shifted(left, right.col_type);
                Operand::Shifted(right.place, shift)
            }
        }
    }

    /// Resolves the fields of an atom, and records its errors.
    fn place_atom(
        &self,
        atom: Atom<FieldName<NameRef<'_>>>,
        faults: &mut Faults,
    ) -> Atom<FieldPlace>
        ensures place { result ≡ mapped_atom (placed_field self.now.catalog.now self.now.from) atom.entry }
        ensures faults { faults.new ≡ noted (some_side (field_lacks_column self.now.catalog.now self.now.from) atom.entry)
            (some_side (lacks_alias self.now.from) atom.entry)
            (mismatches (field_type self.now.catalog.now self.now.from) atom.entry.left atom.entry.right) faults.old }
    {
        let left = self.resolve(&atom.left, faults);
        Atom {
            left: left.place,
            comparison: atom.comparison,
            right: self.place_operand(atom.right, left.col_type, faults),
        }
    }

    /// Resolves the fields of atoms, and records their errors. Fails with `AllocError` if an allocation fails.
    pub(crate) fn place_atoms(
        &self,
        alloc: Global,
        atoms: Few<Atom<FieldName<NameRef<'_>>>>,
        faults: &mut Faults,
    ) -> Result<ShortList<Atom<FieldPlace>, 2>, AllocError>
        ensures ok { IfOk result (λ placed. placed ≡ map (mapped_atom (placed_field self.now.catalog.now self.now.from)) atoms.entry) }
        ensures faults { OnOk result (faults.new ≡ noted
            (list_any (some_side (field_lacks_column self.now.catalog.now self.now.from)) atoms.entry)
            (list_any (some_side (lacks_alias self.now.from)) atoms.entry)
            (list_any (λ (a : Test Field). mismatches (field_type self.now.catalog.now self.now.from) a.left a.right) atoms.entry)
            faults.old) }
    {
        let mut placed = ShortList::with_capacity(alloc, atoms.as_slice().len())?;
        for atom in atoms {
            placed.push(self.place_atom(atom, faults))?;
        }
        Ok(placed)
    }
}

/// Returns the errors of a query that do not depend on its tables and fields: positions of ORDER, duplicate aliases, and counts that exceed
/// their limits.
pub(crate) fn form_faults(query: &Query<'_>) -> Faults
    ensures { result ≡ record {
      column = list_any (lacks_position query.now.fields) query.now.order;
      duplicate = has_duplicate_aliases query.now.from;
      alias = false;
      mismatch = false;
      too_many = exceeds_query_limits query.now;
    } }
{
    Faults {
        column: misses_position(query),
        duplicate: has_duplicate_aliases(query.from.as_slice()),
        alias: false,
        mismatch: false,
        too_many: exceeds_limits(query),
    }
}

/// Returns whether an alias occurs twice.
fn has_duplicate_aliases(from: &[FromItem]) -> bool
    ensures { result ≡ has_duplicate_aliases from.now }
{
    for (i, item) in from.iter().enumerate() {
        if has_alias(&from[i + 1..], &item.alias) {
            return true;
        }
    }
    false
}

/// Returns whether any item has the alias.
fn has_alias(from: &[FromItem], alias: &Name) -> bool
    ensures { result ≡ list_any (λ (item : Item). same_name alias.now item.alias) from.now }
{
    from.iter().any(|item| *alias == item.alias)
}

/// Returns whether a position of ORDER is 0 or exceeds the number of fields.
fn misses_position(query: &Query<'_>) -> bool
    ensures { result ≡ list_any (lacks_position query.now.fields) query.now.order }
{
    let count = query.fields.as_slice().len();
    let positions = query.order.as_slice();
    positions
        .iter()
        .any(|position| *position == 0 || *position > count)
}

/// Returns whether a query has too many tables, fields, atoms or positions of ORDER.
fn exceeds_limits(query: &Query<'_>) -> bool
    ensures { result ≡ exceeds_query_limits query.now }
{
    query.from.as_slice().len() > MAX_FROM
        || query.fields.as_slice().len() > MAX_PARTS
        || query.atoms.as_slice().len() > MAX_PARTS
        || query.order.as_slice().len() > MAX_PARTS
}
