//! Binding a line that was just read, before there are values for its holes.
ghost use Rattle.std.specs.Prelude.{◌≡◌, IfSome, None, length};
ghost use Rattle.mm_lang.specs.Reading.{first_fault, literals_of};
ghost use Rattle.mm_session.specs.steps.Forms.{IsFormOf};
ghost use Rattle.mm_statement.specs.Holes.{hole_count};

use crate::bound_form::{BoundForm, bind};
use crate::columns::{column_of_field, find_column};
use mm_query::{Atom, Command, Mutation, Operand};
use mm_schema::{Catalog, Column, Name, NameRef};
use mm_statement::{Holes, fill};
use mm_txn::Db;
use mm_value::{ColType, Text, Value};
use std::alloc::Global;

/// Binds a command with values in its holes that have the types of the columns. Returns `None` for a command that has no bound form, if the
/// catalog refuses the command, and if an allocation fails.
pub(crate) fn bind_template(
    alloc: Global,
    database: &Db,
    command: Command<'_>,
    holes: &Holes,
) -> Option<BoundForm>
    requires flags { length holes.now.are_holes ≡ length (literals_of command) }
    requires within { first_fault (literals_of command) ≡ None }
    ensures { IfSome result (IsFormOf database.now.schema holes.now.are_holes command.entry) }
{
    let samples = sample_values(alloc, database.catalog(), &command, holes)?;
    let command = fill(alloc, command, holes.as_slice(), samples).ok()?;
    bind(alloc, database, command).ok()?
}

/// Returns a value for each hole of a command, of the type of the column that it is compared with or written to. Returns `None` if a table
/// or a column does not exist, and if an allocation fails.
fn sample_values(
    alloc: Global,
    catalog: &Catalog,
    command: &Command<'_>,
    holes: &Holes,
) -> Option<Vec<Value>>
    ensures { IfSome result (λ values. length values.items ≡ hole_count holes.now.are_holes) }
{
    let mut samples = Samples {
        are_holes: holes.as_slice(),
        values: Vec::new(alloc),
    };
    if holes.count() > 0 {
        sample_command(alloc, catalog, command, &mut samples)?;
    }
    if samples.values.len() == holes.count() {
        Some(samples.values)
    } else {
        None
    }
}

/// Appends values for the holes of a SELECT or of a change of rows as [`sample_values`] does.
fn sample_command(
    alloc: Global,
    catalog: &Catalog,
    command: &Command<'_>,
    samples: &mut Samples<'_>,
) -> Option<()> {
    match command {
        Command::Select(query) => {
            let from = query.from.as_slice();
            for atom in query.atoms.as_slice() {
                let column = column_of_field(catalog, from, &atom.left)?;
                samples.add_operand(alloc, column, &atom.right)?;
            }
            Some(())
        }
        Command::Change(mutation) => sample_change(alloc, catalog, mutation, samples),
        _ => None,
    }
}

/// Appends values for the holes of a change of rows as [`sample_values`] does.
fn sample_change(
    alloc: Global,
    catalog: &Catalog,
    mutation: &Mutation<'_>,
    samples: &mut Samples<'_>,
) -> Option<()> {
    match mutation {
        Mutation::Insert { table, tuples } => {
            let columns = columns_named(catalog, table)?;
            for tuple in tuples.as_slice() {
                for place in 0..tuple.len() {
                    samples.add(alloc, columns.get(place)?.col_type)?;
                }
            }
        }
        Mutation::Update {
            table,
            assignments,
            tests,
        } => {
            let columns = columns_named(catalog, table)?;
            for assignment in assignments.as_slice() {
                let column = find_column(columns, &assignment.column)?;
                samples.add_operand(alloc, column, &assignment.source)?;
            }
            samples.add_tests(alloc, columns, tests.as_slice())?;
        }
        Mutation::Delete { table, tests } => {
            let columns = columns_named(catalog, table)?;
            samples.add_tests(alloc, columns, tests.as_slice())?;
        }
    }
    Some(())
}

/// Returns the columns of a table, if it exists.
fn columns_named<'c>(catalog: &'c Catalog, table: &Name) -> Option<&'c [Column]> {
    let table = catalog.find_table(table)?;
    Some(table.definition.columns.as_slice())
}

/// Values for the holes among the literals of a command, in written order.
#[derive(Drop)]
struct Samples<'h> {
    /// Whether each remaining literal is a hole.
    are_holes: &'h [bool],
    values: Vec<Value>,
}

impl Samples<'_> {
    /// Appends a value of a type, if the next literal is a hole.
    fn add(&mut self, alloc: Global, col_type: ColType) -> Option<()> {
        let (is_hole, left) = self.are_holes.split_first()?;
        self.are_holes = left;
        if *is_hole {
            let value = match col_type {
                ColType::Int => Value::Int(0),
                ColType::Text => Value::Text(Text::empty(alloc)),
            };
            self.values.push(value).ok()?;
        }
        Some(())
    }

    /// Appends a value for the literal of an operand that has the type of a column, if that literal is a hole.
    fn add_operand<C>(
        &mut self,
        alloc: Global,
        column: &Column,
        operand: &Operand<C>,
    ) -> Option<()> {
        match operand {
            Operand::Literal(_) => self.add(alloc, column.col_type),
            Operand::Column(_) => Some(()),
            Operand::Shifted(_, _) => self.add(alloc, ColType::Int),
        }
    }

    /// Appends values for the holes of tests of a table's rows.
    fn add_tests(
        &mut self,
        alloc: Global,
        columns: &[Column],
        tests: &[Atom<NameRef<'_>>],
    ) -> Option<()> {
        for test in tests {
            let column = find_column(columns, &test.left)?;
            self.add_operand(alloc, column, &test.right)?;
        }
        Some(())
    }
}
