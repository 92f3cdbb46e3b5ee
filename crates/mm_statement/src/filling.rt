//! Filling the holes of a command with values.
ghost use Rattle.std.specs.Prelude.{◌≡◌, None, count_by, length};
ghost use Rattle.mm_lang.specs.Reading.{definition_literals, first_fault, literals_of, query_literals};
ghost use Rattle.mm_statement.specs.Alike.{change_literals};
ghost use Rattle.mm_statement.specs.Filling.{AnswersFilling, blank, blank_definition, blank_mutation, blank_query};
ghost use Rattle.mm_statement.specs.steps.Fills.{FillsPart};

use crate::filler::Filler;
use crate::parts::{fill_few, fill_tuples};
use mm_query::{Command, Definition, Mutation, NamedQuery, Query};
use mm_value::{Refusal, Value};
use std::alloc::Global;

/// Returns the command with the values in its holes, in written order. `holes` has a flag for each literal: whether it is a hole. Moves the
/// values, and copies only the other literals of a tuple. Fails with `Syntax` if a text is given for the number of a shift, or a value for
/// a position of ORDER that is not the position itself. Otherwise fails with `NumberOutOfRange` if -2^63 is given for a hole after a minus.
/// May instead fail with `Memory`.
pub fn fill<'l>(
    alloc: Global,
    command: Command<'l>,
    holes: &[bool],
    values: Vec<Value>,
) -> Result<Command<'l>, Refusal>
    requires flags { length holes.now ≡ length (literals_of command) }
    requires values { length values.items ≡ count_by (λ hole. hole) holes.now }
    requires within { first_fault (literals_of command) ≡ None }
    ensures { AnswersFilling holes.now values.items command.entry result }
{
    if values.is_empty() {
        return Ok(command);
    }
    let mut filler = Filler {
        holes,
        values: values.into_iter(),
        is_out_of_range: false,
    };
    let filled = fill_command(alloc, &mut filler, command)?;
    if filler.is_out_of_range {
        return Err(Refusal::NumberOutOfRange);
    }
    Ok(filled)
}

/// Fills a command with the next values. Fails with `Syntax` if a value does not fit its hole, and with `Memory` if an allocation fails.
fn fill_command<'l>(
    alloc: Global,
    filler: &mut Filler<'_>,
    command: Command<'l>,
) -> Result<Command<'l>, Refusal>
    requires { first_fault (literals_of command) ≡ None }
    ensures { FillsPart blank literals_of filler.old filler.new command.entry result }
{
    match command {
        Command::Define(definition) => {
            let definition = fill_definition(alloc, filler, definition)?;
            Ok(Command::Define(definition))
        }
        Command::Change(mutation) => {
            let mutation = fill_mutation(alloc, filler, mutation)?;
            Ok(Command::Change(mutation))
        }
        Command::Select(query) => {
            let selected = fill_query(alloc, filler, query)?;
            Ok(Command::Select(selected))
        }
        Command::Explain(query) => {
            let explained = fill_query(alloc, filler, query)?;
            Ok(Command::Explain(explained))
        }
        other => Ok(other),
    }
}

/// Fills a change of the catalog with the next values. Fails with `Syntax` if a value does not fit its hole, and with `Memory` if an
/// allocation fails.
fn fill_definition<'l>(
    alloc: Global,
    filler: &mut Filler<'_>,
    definition: Definition<'l>,
) -> Result<Definition<'l>, Refusal>
    requires { first_fault (definition_literals definition) ≡ None }
    ensures { FillsPart blank_definition definition_literals filler.old filler.new definition.entry result }
{
    match definition {
        Definition::Watch(NamedQuery { name, query }) => {
            let query = fill_query(alloc, filler, query)?;
            Ok(Definition::Watch(NamedQuery { name, query }))
        }
        other => Ok(other),
    }
}

/// Fills a change of rows with the next values. Fails with `Syntax` if a value does not fit its hole, and with `Memory` if an allocation
/// fails.
fn fill_mutation<'l>(
    alloc: Global,
    filler: &mut Filler<'_>,
    mutation: Mutation<'l>,
) -> Result<Mutation<'l>, Refusal>
    ensures { FillsPart blank_mutation change_literals filler.old filler.new mutation.entry result }
{
    match mutation {
        Mutation::Insert { table, tuples } => {
            let tuples = fill_tuples(alloc, filler, tuples)?;
            Ok(Mutation::Insert { table, tuples })
        }
        Mutation::Update {
            table,
            assignments,
            tests,
        } => {
            let assignments = fill_few(alloc, filler, assignments)?;
            let tests = fill_few(alloc, filler, tests)?;
            Ok(Mutation::Update {
                table,
                assignments,
                tests,
            })
        }
        Mutation::Delete { table, tests } => {
            let asked = fill_few(alloc, filler, tests)?;
            Ok(Mutation::Delete {
                table,
                tests: asked,
            })
        }
    }
}

/// Fills a query with the next values. Fails with `Syntax` if a value does not fit its hole, and with `Memory` if an allocation fails.
fn fill_query<'l>(
    alloc: Global,
    filler: &mut Filler<'_>,
    query: Query<'l>,
) -> Result<Query<'l>, Refusal>
    requires { first_fault (query_literals query) ≡ None }
    ensures { FillsPart blank_query query_literals filler.old filler.new query.entry result }
{
    let Query {
        distinct,
        fields,
        from,
        atoms,
        order,
    } = query;
    let atoms = fill_few(alloc, filler, atoms)?;
    if !filler.keeps_positions(order.as_slice()) {
        return Err(Refusal::Syntax);
    }
    Ok(Query {
        distinct,
        fields,
        from,
        atoms,
        order,
    })
}
