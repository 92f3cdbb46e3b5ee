//! Resolution of tests and assignments against the columns of their table. Each name is looked up once.
ghost use Rattle.std.specs.Prelude.{◌≡◌, ◌||◌, ℕ, List, false, IfOk, OnOk, length, map, nat_lt};
ghost use Rattle.std.specs.List.{list_any};
ghost use Rattle.mm_schema.specs.Name.{same_name};
ghost use Rattle.mm_query.specs.Binding.{at_first};
ghost use Rattle.mm_query.specs.Faults.{noted};
ghost use Rattle.mm_query.specs.Placing.{assignment_lacks_column, atom_lacks_column, differ, has_duplicate_targets, lacks_column, mapped_atom, mapped_operand, mismatches, operand_lacks_column, operand_type, placed, placed_assignment, placed_atom, placed_operand, shifts_text, type_named};
ghost use Rattle.mm_query.specs.declared.atom.Assignment.{Assignment as Assigned};
ghost use Rattle.mm_query.specs.declared.atom.Atom.{Atom as Test};

use crate::atom::{Assignment, Atom, Operand};
use crate::bound_query::FieldPlace;
use crate::faults::{Faults, Resolved};
use crate::short_list::ShortList;
use mm_schema::{Columns, NameRef};
use mm_value::{ColType, Few};
use std::alloc::{AllocError, Global};

/// The maximum number of tests of a change.
pub const MAX_TESTS: usize = 16;

/// Returns the errors of a change that do not depend on its columns: duplicates in SET, and too many tests. A DELETE has no assignments.
pub(crate) fn form_faults(
    assignments: &[Assignment<NameRef<'_>>],
    tests: &[Atom<NameRef<'_>>],
) -> Faults
    ensures { result ≡ record {
      column = false;
      duplicate = has_duplicate_targets assignments.now;
      alias = false;
      mismatch = false;
      too_many = nat_lt 16 (length tests.now);
    } }
{
    Faults {
        column: false,
        duplicate: has_duplicate_targets(assignments),
        alias: false,
        mismatch: false,
        too_many: tests.len() > MAX_TESTS,
    }
}

/// Returns whether a column occurs twice in SET.
fn has_duplicate_targets(assignments: &[Assignment<NameRef<'_>>]) -> bool
    ensures { result ≡ has_duplicate_targets assignments.now }
{
    for (i, assignment) in assignments.iter().enumerate() {
        if assigns_to(&assignments[i + 1..], &assignment.column) {
            return true;
        }
    }
    false
}

/// Returns whether any assignment is to the column with a name.
fn assigns_to(assignments: &[Assignment<NameRef<'_>>], name: &NameRef<'_>) -> bool
    ensures { result ≡ list_any (λ (a : Assigned (List ℕ)). same_name name.now a.column) assignments.now }
{
    assignments
        .iter()
        .any(|assignment| *name == assignment.column)
}

/// Resolves the name of a column. Records an error if the column does not exist.
pub(crate) fn resolve_column(
    columns: &Columns,
    name: &NameRef<'_>,
    faults: &mut Faults,
) -> Resolved<usize>
    ensures place { result.place ≡ placed columns.now name.now }
    ensures col_type { result.col_type ≡ type_named columns.now name.now }
    ensures faults { faults.new ≡ noted (lacks_column columns.now name.now) false false faults.old }
{
    let Some(place) = columns.place_of(name) else {
        faults.column = true;
        return Resolved {
            place: 0,
            col_type: None,
        };
    };
    Resolved {
        place,
        col_type: Some(columns.as_slice()[place].col_type),
    }
}

/// Resolves the column of an operand, whose other side has the type `left`, and records its errors.
fn place_operand(
    columns: &Columns,
    operand: Operand<NameRef<'_>>,
    left: Option<ColType>,
    faults: &mut Faults,
) -> Operand<usize>
    ensures place { result ≡ placed_operand columns.now operand.entry }
    ensures faults { faults.new ≡ noted (operand_lacks_column columns.now operand.entry) false
        (differ left (operand_type (type_named columns.now) operand.entry) || shifts_text (type_named columns.now) operand.entry) faults.old }
{
    match operand {
        Operand::Literal(value) => {
            faults.compare(left, Some(value.col_type()));
            Operand::Literal(value)
        }
        Operand::Column(name) => {
            let right = resolve_column(columns, &name, faults);
            faults.compare(left, right.col_type);
            Operand::Column(right.place)
        }
        Operand::Shifted(name, shift) => {
            let right = resolve_column(columns, &name, faults);
            faults.compare_shifted(left, right.col_type);
            Operand::Shifted(right.place, shift)
        }
    }
}

/// Resolves the columns of an assignment, and records its errors.
fn place_assignment(
    columns: &Columns,
    assignment: Assignment<NameRef<'_>>,
    faults: &mut Faults,
) -> Assignment<usize>
    ensures place { result ≡ placed_assignment columns.now assignment.entry }
    ensures faults { faults.new ≡ noted (assignment_lacks_column columns.now assignment.entry) false
        (mismatches (type_named columns.now) assignment.entry.column assignment.entry.source) faults.old }
{
    let column = resolve_column(columns, &assignment.column, faults);
    Assignment {
        column: column.place,
        source: place_operand(columns, assignment.source, column.col_type, faults),
    }
}

/// Returns a column as a field of the only table of a query.
fn at_first(column: usize) -> FieldPlace
    ensures { result ≡ at_first column }
{
    FieldPlace { place: 0, column }
}

/// Returns an operand of a change as an operand of a query of its table alone.
fn operand_at_first(operand: Operand<usize>) -> Operand<FieldPlace>
    ensures { result ≡ mapped_operand at_first operand }
{
    match operand {
        Operand::Literal(value) => Operand::Literal(value),
        Operand::Column(column) => Operand::Column(at_first(column)),
        Operand::Shifted(column, shift) => Operand::Shifted(at_first(column), shift),
    }
}

/// Returns a test as an atom of a query of its table alone, and records its errors.
fn place_test(columns: &Columns, test: Atom<NameRef<'_>>, faults: &mut Faults) -> Atom<FieldPlace>
    ensures place { result ≡ mapped_atom at_first (placed_atom columns.now test.entry) }
    ensures faults { faults.new ≡ noted (atom_lacks_column columns.now test.entry) false
        (mismatches (type_named columns.now) test.entry.left test.entry.right) faults.old }
{
    let left = resolve_column(columns, &test.left, faults);
    let right = place_operand(columns, test.right, left.col_type, faults);
    Atom {
        left: at_first(left.place),
        comparison: test.comparison,
        right: operand_at_first(right),
    }
}

/// Returns tests as atoms of a query of their table alone, and records their errors. Fails with `AllocError` if an allocation fails.
pub(crate) fn place_tests(
    alloc: Global,
    columns: &Columns,
    tests: Few<Atom<NameRef<'_>>>,
    faults: &mut Faults,
) -> Result<ShortList<Atom<FieldPlace>, 2>, AllocError>
    ensures ok { IfOk result (λ atoms. atoms ≡ map (mapped_atom at_first) (map (placed_atom columns.now) tests.entry)) }
    ensures faults { OnOk result (faults.new ≡ noted (list_any (atom_lacks_column columns.now) tests.entry) false
        (list_any (λ (t : Test (List ℕ)). mismatches (type_named columns.now) t.left t.right) tests.entry) faults.old) }
{
    let mut atoms = ShortList::with_capacity(alloc, tests.as_slice().len())?;
    for test in tests {
        atoms.push(place_test(columns, test, faults))?;
    }
    Ok(atoms)
}

/// Resolves the columns of assignments, and records their errors. Fails with `AllocError` if an allocation fails.
pub(crate) fn place_assignments(
    alloc: Global,
    columns: &Columns,
    assignments: Few<Assignment<NameRef<'_>>>,
    faults: &mut Faults,
) -> Result<ShortList<Assignment<usize>, 2>, AllocError>
    ensures ok { IfOk result (λ placed. placed ≡ map (placed_assignment columns.now) assignments.entry) }
    ensures faults { OnOk result (faults.new ≡ noted (list_any (assignment_lacks_column columns.now) assignments.entry) false
        (list_any (λ (a : Assigned (List ℕ)). mismatches (type_named columns.now) a.column a.source) assignments.entry) faults.old) }
{
    let mut placed = ShortList::with_capacity(alloc, assignments.as_slice().len())?;
    for assignment in assignments {
        placed.push(place_assignment(columns, assignment, faults))?;
    }
    Ok(placed)
}
