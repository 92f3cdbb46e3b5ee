//! Catalogs, rows and databases made from lines, and their replies as text.
//!
//! Here and in the other modules, a command, an answer or a database is dropped by a call of `drop`: its proof is needed once, that of the
//! end of a scope at each place.
ghost use Rattle.std.specs.Prelude.{◌≡◌, false, IfOk};
ghost use Rattle.mm_schema.specs.Standing.{lacks_some_table};

use mm_lang::{Reply, RowLines, parse, write_reply};
use mm_query::{
    BoundChange, BoundQuery, Command, Definition, Mutation, Query, RowList, bind_query,
};
use mm_schema::{Catalog, Columns, IndexDef, IndexKind, Name, TableDef, TableNames};
use mm_txn::{Answer, Db, RowReader, Rows, ShownRows, StoredRows, is_question};
use mm_value::{Refusal, Row, Watched, WriteError};
use std::alloc::{AllocError, Global};

/// Returns the command of a line.
pub fn command(alloc: Global, line: &str) -> Result<Command<'_>, Refusal> {
    parse(alloc, line.as_bytes())
}

/// Returns the table of a `TABLE`.
pub fn table(alloc: Global, line: &str) -> Result<TableDef, Refusal> {
    match command(alloc, line)? {
        Command::Define(Definition::Table(table)) => Ok(table),
        other => {
            drop(other);
            Err(Refusal::Syntax)
        }
    }
}

/// Returns an index with a name on the keys of the table a.
pub fn index(name: &Name) -> Option<IndexDef> {
    Some(IndexDef {
        name: name.copy(),
        table: Name::new(b"a")?,
        column: Name::new(b"id")?,
        kind: IndexKind::Tree,
    })
}

/// Returns the query of a `SELECT`.
pub fn selected(alloc: Global, line: &str) -> Result<Query<'_>, Refusal> {
    match command(alloc, line)? {
        Command::Select(query) => Ok(query),
        other => {
            drop(other);
            Err(Refusal::Syntax)
        }
    }
}

/// Returns the change of an `INSERT`, an `UPDATE` or a `DELETE`.
pub fn change(alloc: Global, line: &str) -> Result<Mutation<'_>, Refusal> {
    match command(alloc, line)? {
        Command::Change(mutation) => Ok(mutation),
        other => {
            drop(other);
            Err(Refusal::Syntax)
        }
    }
}

/// Returns the rows of an `INSERT`.
pub fn inserted<'c>(command: &'c Command<'_>) -> Result<&'c RowList, Refusal> {
    match command {
        Command::Change(Mutation::Insert { tuples, .. }) => Ok(tuples),
        _other => Err(Refusal::Syntax),
    }
}

/// Returns the catalog of these tables.
pub fn catalog(alloc: Global, lines: &[&str]) -> Result<Catalog, Refusal> {
    let mut catalog = Catalog::new(alloc);
    add_tables(alloc, &mut catalog, lines)?;
    Ok(catalog)
}

/// Adds tables to a catalog.
fn add_tables(alloc: Global, catalog: &mut Catalog, lines: &[&str]) -> Result<(), Refusal> {
    for line in lines {
        catalog.add_table(table(alloc, line)?)?;
    }
    Ok(())
}

/// Returns the tables of a standing query that reads one table. Fails with `NoSuchTable` if there is no such table.
pub fn reading(alloc: Global, catalog: &Catalog, table: &Name) -> Result<TableNames, Refusal>
    ensures { IfOk result (λ names. lacks_some_table names catalog.now ≡ false) }
{
    if catalog.find_table(table).is_none() {
        return Err(Refusal::NoSuchTable);
    }
    let mut names = Vec::new(alloc);
    names.push(table.copy())?;
    Ok(TableNames::new(names))
}

/// Returns the query of a join of a table of keys with itself, whose result has each two keys that differ by two.
pub fn bound_query(alloc: Global) -> Result<BoundQuery, Refusal> {
    let catalog = catalog(alloc, &["TABLE a (id INT KEY)"])?;
    bind_line(
        alloc,
        &catalog,
        "SELECT x.id, y.id FROM a x, a y WHERE y.id = x.id + 2",
    )
}

/// Binds the query of a line.
fn bind_line(alloc: Global, catalog: &Catalog, line: &str) -> Result<BoundQuery, Refusal> {
    let query = selected(alloc, line)?;
    Ok(bind_query(alloc, catalog, query)?.query)
}

/// Returns the place of the table of a change, and the lengths of its lists.
pub fn sizes_of_bound(bound: &BoundChange) -> [usize; 3] {
    match bound {
        BoundChange::Insert { table, tuples } => [*table, tuples.as_slice().len(), 0],
        BoundChange::Update {
            table,
            assignments,
            tests,
        } => [*table, assignments.as_slice().len(), tests.as_slice().len()],
        BoundChange::Delete { table, tests } => [*table, 0, tests.as_slice().len()],
    }
}

/// Returns the lines of rows, and their number, as text. Fails with `AllocError` if an allocation fails.
pub fn text_of_rows(alloc: Global, rows: &[Row]) -> Result<Vec<u8>, AllocError> {
    let mut text = Vec::new(alloc);
    match write_rows(rows, &mut text) {
        Ok(()) => Ok(text),
        Err(WriteError) => Err(AllocError),
    }
}

/// Writes the lines of rows, and their number.
fn write_rows(rows: &[Row], told: &mut Vec<u8>) -> Result<(), WriteError> {
    let mut lines = RowLines::new();
    for row in rows {
        lines.add_row(row, &mut Watched::new(&mut *told))?;
    }
    lines.finish(rows.len(), &mut Watched::new(told))
}

/// Returns the database after these lines.
pub fn database(alloc: Global, lines: &[&str]) -> Result<Db, Refusal> {
    opened(alloc, lines, &[])
}

/// Returns the database after some lines, and then others.
pub fn opened(alloc: Global, lines: &[&str], inside: &[&str]) -> Result<Db, Refusal> {
    let mut database = Db::new(alloc);
    match give_both(alloc, &mut database, lines, inside) {
        Ok(()) => Ok(database),
        Err(refusal) => {
            drop(database);
            Err(refusal)
        }
    }
}

/// Executes lines on a database, and then others.
fn give_both(
    alloc: Global,
    database: &mut Db,
    lines: &[&str],
    inside: &[&str],
) -> Result<(), Refusal> {
    give_all(alloc, database, lines)?;
    give_all(alloc, database, inside)
}

/// Executes lines on a database.
fn give_all(alloc: Global, database: &mut Db, lines: &[&str]) -> Result<(), Refusal> {
    for line in lines {
        give_line(alloc, database, line)?;
    }
    Ok(())
}

/// Executes a line that is not a question on a database, and returns the number of rows that it changed.
pub fn give_line(alloc: Global, database: &mut Db, line: &str) -> Result<usize, Refusal> {
    give(alloc, database, command(alloc, line)?)
}

/// Executes a command that is not a question on a database, and returns the number of rows that it changed.
pub fn give(alloc: Global, database: &mut Db, command: Command<'_>) -> Result<usize, Refusal> {
    let mut reads = 0;
    execute(alloc, database, command, &mut reads)
}

/// Executes a command on a database, and returns the number of rows that it changed. Sets `reads` to the number of rows that it read for
/// the lists. Fails with `Syntax` if the command is a question.
pub fn execute(
    alloc: Global,
    database: &mut Db,
    command: Command<'_>,
    reads: &mut u64,
) -> Result<usize, Refusal> {
    if is_question(&command) {
        drop(command);
        return Err(Refusal::Syntax);
    }
    match database.execute(alloc, command, reads) {
        None | Some(Reply::Done) => Ok(0),
        Some(Reply::Count(count)) => Ok(count),
        Some(Reply::Refused(refusal)) => Err(refusal),
        other => {
            drop(other);
            Err(Refusal::Syntax)
        }
    }
}

/// Returns the answer of a database to a question. Sets `reads` to the number of rows that it read. Fails with `Syntax` if the command is
/// not a question.
pub fn ask<'s>(
    alloc: Global,
    database: &'s Db,
    question: Command<'_>,
    reads: &mut u64,
) -> Result<Answer<'s>, Refusal> {
    if !is_question(&question) {
        drop(question);
        return Err(Refusal::Syntax);
    }
    match database.ask(alloc, question, reads) {
        Answer::Refused(refusal) => Err(refusal),
        answer => Ok(answer),
    }
}

/// Returns the answer of a database to the question of a line.
pub fn ask_line<'s>(alloc: Global, database: &'s Db, line: &str) -> Result<Answer<'s>, Refusal> {
    let mut reads = 0;
    ask(alloc, database, command(alloc, line)?, &mut reads)
}

/// Returns the answers of a database to these questions, one after another, as text.
pub fn told(alloc: Global, database: &Db, questions: &[&str]) -> Result<Vec<u8>, Refusal> {
    let mut told = Vec::new(alloc);
    tell_each(alloc, database, questions, &mut told)?;
    Ok(told)
}

/// Appends the answers of a database to these questions to a text.
fn tell_each(
    alloc: Global,
    database: &Db,
    questions: &[&str],
    told: &mut Vec<u8>,
) -> Result<(), Refusal> {
    for question in questions {
        tell_line(alloc, database, question, told)?;
    }
    Ok(())
}

/// Appends the answer of a database to the question of a line to a text.
fn tell_line(alloc: Global, database: &Db, line: &str, told: &mut Vec<u8>) -> Result<(), Refusal> {
    write(ask_line(alloc, database, line)?, told)?;
    Ok(())
}

/// Returns the text of an answer. Fails with `AllocError` if an allocation fails.
pub fn text_of(alloc: Global, answer: Answer<'_>) -> Result<Vec<u8>, AllocError> {
    let mut text = Vec::new(alloc);
    write(answer, &mut text)?;
    Ok(text)
}

/// Appends an answer to a text. Fails with `AllocError` if an allocation fails.
fn write(answer: Answer<'_>, told: &mut Vec<u8>) -> Result<(), AllocError> {
    let written = match answer {
        Answer::Rows(rows) => write_answered(&rows, told),
        Answer::Steps(lines) => write_reply(&Reply::Steps(lines), &mut Watched::new(told)),
        Answer::Listing(listing) => write_reply(&Reply::Listing(listing), &mut Watched::new(told)),
        Answer::Refused(refusal) => write_reply(&Reply::Refused(refusal), &mut Watched::new(told)),
    };
    match written {
        Ok(()) => Ok(()),
        Err(WriteError) => Err(AllocError),
    }
}

/// Writes the rows of an answer, and their number.
fn write_answered(rows: &Rows<'_>, told: &mut Vec<u8>) -> Result<(), WriteError> {
    match rows.reader() {
        RowReader::Stored(stored) => write_stored(stored, rows.len(), told),
        RowReader::Shown(shown) => write_shown(shown, told),
    }
}

/// Writes rows of a table, and their number.
fn write_stored(
    mut rows: StoredRows<'_>,
    count: usize,
    told: &mut Vec<u8>,
) -> Result<(), WriteError> {
    let mut lines = RowLines::new();
    for _ in 0..count {
        let Some(row) = rows.next() else {
            break;
        };
        lines.add_row(&row, &mut Watched::new(&mut *told))?;
    }
    lines.finish(count, &mut Watched::new(told))
}

/// Writes the rows of a result, and their number.
fn write_shown(rows: &ShownRows<'_>, told: &mut Vec<u8>) -> Result<(), WriteError> {
    let mut lines = RowLines::new();
    for i in 0..rows.len() {
        lines.add_tuple(rows.row(i), &mut Watched::new(&mut *told))?;
    }
    lines.finish(rows.len(), &mut Watched::new(told))
}

/// Returns the lengths of the lists of a command, from left to right.
pub fn sizes(command: &Command<'_>) -> [usize; 4] {
    match command {
        Command::Define(Definition::Table(table)) => [count(&table.columns), 0, 0, 0],
        Command::Define(Definition::Watch(named)) => sizes_of_query(&named.query),
        Command::Change(mutation) => sizes_of_change(mutation),
        Command::Select(query) | Command::Explain(query) => sizes_of_query(query),
        _ => [0; 4],
    }
}

fn count(columns: &Columns) -> usize {
    columns.as_slice().len()
}

fn sizes_of_change(mutation: &Mutation<'_>) -> [usize; 4] {
    match mutation {
        Mutation::Insert { tuples, .. } => {
            let tuples = tuples.as_slice();
            let values = tuples.first().map_or(0, |tuple| tuple.len());
            [tuples.len(), values, 0, 0]
        }
        Mutation::Update {
            assignments,
            tests,
            ..
        } => [assignments.as_slice().len(), tests.as_slice().len(), 0, 0],
        Mutation::Delete { tests, .. } => [tests.as_slice().len(), 0, 0, 0],
    }
}

fn sizes_of_query(query: &Query<'_>) -> [usize; 4] {
    [
        query.fields.as_slice().len(),
        query.from.as_slice().len(),
        query.atoms.as_slice().len(),
        query.order.as_slice().len(),
    ]
}
