//! Parsing of a line as a command.
ghost use Rattle.std.specs.Prelude.{◌≡◌, false, Err};
ghost use Rattle.std.specs.List.{list_all};
ghost use Rattle.mm_lang.specs.Grammar.{command_behind, command_of, delete, drop, dropped, index, insert, rollback, savepoint, scan, show, table, unwatch, update};
ghost use Rattle.mm_lang.specs.Reading.{Reads, is_comment, is_nothing, literals_of, read_as};
ghost use Rattle.mm_lang.specs.Tokens.{tokens, is_blank};
ghost use Rattle.mm_lang.specs.steps.Parsing.{AnswersReading, ReadsPhrase, ReadsWithoutMemory, is_control_keyword};
ghost use Rattle.mm_value.specs.declared.refusal.Refusal.TheVariants.{Memory};

use crate::read::atoms::{AssignmentPhrase, read_tests};
use crate::read::columns::ColumnPhrase;
use crate::read::hole::has_hole;
use crate::read::keyword::Keyword;
use crate::read::phrase::{Separator, read_in_parentheses, read_items};
use crate::read::reader::Reader;
use crate::read::select::{read_explain, read_select, read_watch};
use crate::read::token::is_blank;
use crate::read::tuples::TuplePhrase;
use mm_query::{Command, Definition, Mutation, RowList};
use mm_schema::{Columns, IndexDef, TableDef};
use mm_value::Refusal;
use std::alloc::Global;

/// The maximum length of a line in bytes, without its line feed and carriage return.
pub const MAX_LINE_BYTES: usize = 4096;

/// Returns the command that a line, without its line feed and carriage return, reads as. An empty line, a line of blanks, and a line that
/// begins with `--` read as `Nothing`. Any other line must have one of these forms, where `[ ]` is optional:
///
/// - `TABLE name (column, ..)`. A column is `name type [KEY | REF name [CASCADE]]`, and a type is `INT` or `TEXT`. Exactly one column has
///   `KEY`.
/// - `INDEX name ON name (name) kind`. A kind is `TREE` or `HASH`.
/// - `DROP TABLE name` or `DROP INDEX name`.
/// - `INSERT name (literal, ..), ..`.
/// - `UPDATE name SET name = value, .. [WHERE test AND ..]` or `DELETE name [WHERE test AND ..]`. A test is `name op value`, an op is `=`,
///   `<`, `<=`, `>` or `>=`, and a value is `literal`, `name`, `name + digits` or `name - digits`.
/// - `SELECT [DISTINCT] field, .. FROM name name, .. [WHERE test AND ..] [ORDER digits, ..]`. A field is `name . name`, and replaces the
///   names of columns in tests.
/// - `EXPLAIN` or `WATCH name`, followed by a `SELECT`.
/// - `SCAN name`, `SCAN INDEX name`, `SHOW name`, `UNWATCH name` or `TABLES`.
/// - `BEGIN`, `COMMIT`, `ROLLBACK`, `SAVEPOINT name` or `ROLLBACK TO name`.
///
/// Fails with `LineTooLong` if the line has more than 4,096 bytes, and with `Syntax` if it has no such form or has a `?` outside a text.
/// Otherwise fails with `NumberOutOfRange` or `TextTooLong` if the first literal past its limit is a number or a text. Digits after a minus
/// are a negative number, and the digits of ORDER are numbers too. May instead fail with `Memory`, but not if the result is `LineTooLong`,
/// `Nothing`, `Begin`, `Commit`, `Rollback` or `RollbackTo`. Allocates only what the command keeps: the names of fields, and of columns
/// that are tested or assigned, are references into the line.
pub fn parse(alloc: Global, line: &[u8]) -> Result<Command<'_>, Refusal>
    ensures { Reads line.now result }
{
    if line.len() > MAX_LINE_BYTES {
        return Err(Refusal::LineTooLong);
    }
    if is_nothing(line) {
        return Ok(Command::Nothing);
    }
    if has_hole(line) {
        return Err(Refusal::Syntax);
    }
    read_command(alloc, line)
}

/// Returns whether a line has no command: it is empty or a comment.
pub(crate) fn is_nothing(line: &[u8]) -> bool
    ensures { result ≡ is_nothing line.now }
{
    is_empty_line(line) || is_comment(line)
}

fn is_empty_line(line: &[u8]) -> bool
    ensures { result ≡ list_all is_blank line.now }
{
    line.iter().all(|b| is_blank(*b))
}

fn is_comment(line: &[u8]) -> bool
    ensures { result ≡ is_comment line.now }
{
    matches!(line, [b'-', b'-', ..])
}

/// Returns the command that the tokens of a line read as, with a number in place of each hole. Fails with `Syntax` if there is none, and
/// otherwise with `NumberOutOfRange` or `TextTooLong` for the first literal past its limit. May instead fail with `Memory`, as [`parse`]
/// does.
pub(crate) fn read_command(alloc: Global, line: &[u8]) -> Result<Command<'_>, Refusal>
    ensures { AnswersReading (read_as (command_of (tokens line.now))) result }
{
    let mut reader = Reader::new(alloc, line);
    let keyword = reader.keyword()?;
    let command = read_behind(keyword, &mut reader)?;
    reader.finish()?;
    Ok(command)
}

// Reads the rest of a command after its first keyword. Allocates nothing for a command that begins or ends a transaction, or rolls back in
// it.
#[tactic(auto, using(crate::proofs::CommandReadings::whole_given))]
pub(crate) fn read_behind<'l>(
    keyword: Keyword,
    reader: &mut Reader<'l>,
) -> Result<Command<'l>, Refusal>
    ensures reads { ReadsPhrase (command_behind keyword) literals_of reader.old reader.new result }
    ensures memory { result ≡ Err Memory → is_control_keyword keyword ≡ false }
{
    match keyword {
        Keyword::Begin => Ok(Command::Begin),
        Keyword::Commit => Ok(Command::Commit),
        Keyword::Delete => read_delete(reader),
        Keyword::Drop => read_drop(reader),
        Keyword::Explain => read_explain(reader),
        Keyword::Index => read_index(reader),
        Keyword::Insert => read_insert(reader),
        Keyword::Rollback => read_rollback(reader),
        Keyword::Savepoint => read_savepoint(reader),
        Keyword::Scan => read_scan(reader),
        Keyword::Select => read_select(reader),
        Keyword::Show => read_show(reader),
        Keyword::Table => read_table(reader),
        Keyword::Tables => Ok(Command::Tables),
        Keyword::Unwatch => read_unwatch(reader),
        Keyword::Update => read_update(reader),
        Keyword::Watch => read_watch(reader),
        _ => Err(Refusal::Syntax),
    }
}

fn read_delete<'l>(reader: &mut Reader<'l>) -> Result<Command<'l>, Refusal>
    ensures { ReadsPhrase delete literals_of reader.old reader.new result }
{
    let table = reader.name()?;
    let tests = read_tests(reader)?;
    Ok(Command::Change(Mutation::Delete { table, tests }))
}

fn read_update<'l>(reader: &mut Reader<'l>) -> Result<Command<'l>, Refusal>
    ensures { ReadsPhrase update literals_of reader.old reader.new result }
{
    let table = reader.name()?;
    reader.expect_keyword(Keyword::Set)?;
    let assignments = read_items(&mut AssignmentPhrase, Separator::Comma, reader)?;
    let tests = read_tests(reader)?;
    Ok(Command::Change(Mutation::Update {
        table,
        assignments,
        tests,
    }))
}

fn read_drop<'l>(reader: &mut Reader<'l>) -> Result<Command<'l>, Refusal>
    ensures { ReadsPhrase drop literals_of reader.old reader.new result }
{
    let keyword = reader.keyword()?;
    read_dropped(keyword, reader)
}

// Reads the name of the table or index to drop, by the keyword before it.
fn read_dropped<'l>(keyword: Keyword, reader: &mut Reader<'l>) -> Result<Command<'l>, Refusal>
    ensures { ReadsPhrase (dropped keyword) literals_of reader.old reader.new result }
{
    match keyword {
        Keyword::Table => Ok(Command::Define(Definition::DropTable(reader.name()?))),
        Keyword::Index => Ok(Command::Define(Definition::DropIndex(reader.name()?))),
        _ => Err(Refusal::Syntax),
    }
}

fn read_index<'l>(reader: &mut Reader<'l>) -> Result<Command<'l>, Refusal>
    ensures { ReadsPhrase index literals_of reader.old reader.new result }
{
    let name = reader.name()?;
    reader.expect_keyword(Keyword::On)?;
    let table = reader.name()?;
    let column = reader.name_in_parentheses()?;
    let kind = reader.index_kind()?;
    let index = IndexDef {
        name,
        table,
        column,
        kind,
    };
    Ok(Command::Define(Definition::Index(index)))
}

fn read_insert<'l>(reader: &mut Reader<'l>) -> Result<Command<'l>, Refusal>
    ensures { ReadsPhrase insert literals_of reader.old reader.new result }
{
    let table = reader.name()?;
    let tuples = read_items(&mut TuplePhrase, Separator::Comma, reader)?;
    let tuples = RowList::new(tuples);
    Ok(Command::Change(Mutation::Insert { table, tuples }))
}

fn read_scan<'l>(reader: &mut Reader<'l>) -> Result<Command<'l>, Refusal>
    ensures { ReadsPhrase scan literals_of reader.old reader.new result }
{
    let by_index = reader.skip_keyword(Keyword::Index);
    let name = reader.name()?;
    if by_index {
        Ok(Command::ScanIndex(name))
    } else {
        Ok(Command::Scan(name))
    }
}

fn read_savepoint<'l>(reader: &mut Reader<'l>) -> Result<Command<'l>, Refusal>
    ensures { ReadsPhrase savepoint literals_of reader.old reader.new result }
{
    let name = reader.name()?;
    Ok(Command::Savepoint(name))
}

fn read_rollback<'l>(reader: &mut Reader<'l>) -> Result<Command<'l>, Refusal>
    ensures { ReadsWithoutMemory rollback literals_of reader.old reader.new result }
{
    if !reader.skip_keyword(Keyword::To) {
        return Ok(Command::Rollback);
    }
    let name = reader.name()?;
    Ok(Command::RollbackTo(name))
}

fn read_show<'l>(reader: &mut Reader<'l>) -> Result<Command<'l>, Refusal>
    ensures { ReadsPhrase show literals_of reader.old reader.new result }
{
    let name = reader.name()?;
    Ok(Command::Show(name))
}

fn read_unwatch<'l>(reader: &mut Reader<'l>) -> Result<Command<'l>, Refusal>
    ensures { ReadsPhrase unwatch literals_of reader.old reader.new result }
{
    let name = reader.name()?;
    Ok(Command::Define(Definition::Unwatch(name)))
}

fn read_table<'l>(reader: &mut Reader<'l>) -> Result<Command<'l>, Refusal>
    ensures { ReadsPhrase table literals_of reader.old reader.new result }
{
    let name = reader.name()?;
    let mut items = Vec::new(reader.alloc());
    read_in_parentheses(&mut ColumnPhrase, reader, &mut items)?;
    let Some(columns) = Columns::new(items) else {
        return Err(Refusal::Syntax);
    };
    Ok(Command::Define(Definition::Table(TableDef { name, columns })))
}
