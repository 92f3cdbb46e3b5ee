//! Sessions.
ghost use Rattle.std.specs.Prelude.{◌≡◌, ◌≤◌, ◌⊎◌, [], Err, IfErr, IfOk, None, Ok, OnOk, Some, is_some, length, map};

use crate::appending::append_rows;
use crate::column_array::{ColumnArray, NotColumns};
use crate::columns::columns_of_line;
use crate::definition::{DefinitionKind, add_definition};
use crate::dumping::add_dump;
use crate::lines::execute_line;
use crate::loading::{LoadError, refusal_in};
use crate::misuse::{ColumnsError, Misuse};
use crate::refused_place::place_of_refusal;
use crate::replies::{KeptReply, LastReply};
use crate::script::split_line;
use crate::slots::{add, columns_at, explain_at, kind, parameters, remove, run_at};
use crate::statement::Statement;
use crate::statement_kind::StatementKind;
use crate::templates::Templates;
use mm_dump::DumpPlace;
use mm_reply::ReplySink;
use mm_schema::{Column, Name};
use mm_txn::Db;
use mm_value::{Refusal, Value};
use std::alloc::Global;
use std::marker::Model;

/// A database, its prepared statements, the reply to the last call, and a count of changed rows. Each call is a step of the machine of
/// row lists.
#[derive(Drop)]
pub struct Session {
    database: Db,
    /// The statements by number; `None` if one was deleted.
    statements: Vec<Option<Statement>>,
    last: KeptReply,
    /// The number of rows that all calls changed, modulo 2^64.
    changes: u64,
    /// The templates of lines that occurred more than once.
    templates: Templates,
}

impl Model for Session {
    ghost use Rattle.std.specs.List.{All};
    ghost use Rattle.std.specs.Prelude.{map};
    ghost use Rattle.mm_session.specs.Session.{SessionState};
    ghost use Rattle.mm_session.specs.steps.Forms.{IsReady};
    ghost use Rattle.mm_session.specs.steps.Places.{line_in};
    ghost use Rattle.mm_session.specs.steps.Templates.{AreReady};

    ghost Value = { SessionState };

    ghost view = { λ s. record {
      state = s.database;
      lines = map line_in s.statements.items;
      reply = s.last;
      changes = s.changes;
    } };

    ghost invariant = { λ s. All (IsReady s.database.schema) s.statements.items × AreReady s.database.schema s.templates };
}

impl Session {
    ghost use Rattle.std.specs.Option.{option_map};
    ghost use Rattle.mm_dump.specs.Entries.{entry_text};
    ghost use Rattle.mm_dump.specs.Places.{IsPiece, dump_rest};
    ghost use Rattle.mm_lang.specs.Templates.{template_of};
    ghost use Rattle.mm_query.specs.State.{first_state};
    ghost use Rattle.mm_reply.specs.Sinks.{Delivers, IsAnswerTo};
    ghost use Rattle.mm_schema.specs.Refused.{AnswersDue};
    ghost use Rattle.mm_session.specs.Appending.{Appends};
    ghost use Rattle.mm_session.specs.Columns.{AreColumnsOf};
    ghost use Rattle.mm_session.specs.Definitions.{definition_refusal, entry_named};
    ghost use Rattle.mm_session.specs.Loading.{Loads};
    ghost use Rattle.mm_session.specs.Replies.{reply_lent};
    ghost use Rattle.mm_value.specs.declared.refusal.Refusal.TheVariants.{Memory};
    ghost use Rattle.mm_session.specs.Session.{AnswersLine, ExplainsStatement, Finalizes, IsPrepared, Releases, RunsStatement};
    ghost use Rattle.mm_session.specs.Statements.{AreColumnsFound, IsKindOf, LacksColumns, line_at, parameters_at};

    /// Returns a session with an empty database, no statements and no reply. Allocates nothing.
    pub fn new(alloc: Global) -> Session
        ensures { result ≡ record { state = first_state; lines = []; reply = None; changes = 0 } }
    {
        Session {
            database: Db::new(alloc),
            statements: Vec::new(alloc),
            last: KeptReply::new(alloc),
            changes: 0,
            templates: Templates::new(alloc),
        }
    }

    /// Executes a line, without its line feed and carriage return, and stores the reply. The line is read as [`mm_lang::parse`] does. A
    /// line that differs from earlier ones only in its literals is not read again if its template is kept.
    pub fn execute(&mut self, alloc: Global, line: &[u8])
        ensures { AnswersLine line.now self.old self.new }
    {
        execute_line(
            alloc,
            &mut self.database,
            &mut self.statements,
            &mut self.templates,
            line,
            &mut self.last,
        );
        self.last.count_changes(&mut self.changes);
    }

    /// Executes a line as [`Session::execute`] does, and passes the reply to a sink. The last reply and the count of changed rows are
    /// unchanged.
    pub fn execute_to<S: ReplySink>(&mut self, alloc: Global, line: &[u8], sink: &mut S) -> S::Taken
        requires { S.can_take sink.old }
        ensures delivers { Delivers S.takes sink.old sink.new result self.new.state (IsAnswerTo line.now self.old.state) }
        ensures kept { self.new ≡ record self.old { state = self.new.state } }
    {
        execute_line(
            alloc,
            &mut self.database,
            &mut self.statements,
            &mut self.templates,
            line,
            sink,
        )
    }

    /// Executes the lines of a script one after another, as [`Session::execute`] does, and returns their number. A line ends with a line
    /// feed; the last line needs none. One carriage return at the end of a line is dropped. Stops at the first line that is refused: the
    /// lines before it stay executed, and the refusal is the reply. If the script has no lines, the reply is unchanged.
    pub fn load(&mut self, alloc: Global, script: &[u8]) -> Result<usize, LoadError>
        ensures { Loads script.now self.old self.new result }
    {
        let mut lines = 0;
        let mut rest = script;
        while let Some((line, behind)) = split_line(rest) {
            self.execute(alloc, line);
            if let Some(refusal) = refusal_in(&self.reply()) {
                return Err(LoadError { lines, refusal });
            }
            lines += 1;
            rest = behind;
        }
        Ok(lines)
    }

    /// Inserts the rows of columns into the table with a name, all or none, and stores the reply, which is that of the INSERT of these rows.
    /// A text of more than 64 bytes is refused with `TextTooLong`, and one with a line feed with `Syntax`. The number of bytes is not
    /// limited. Fails with `NotColumns` if the arrays are not columns of rows; nothing changes then.
    pub fn append(
        &mut self,
        alloc: Global,
        table: &[u8],
        columns: &[ColumnArray<'_>],
    ) -> Result<(), NotColumns>
        ensures { Appends table.now columns.now self.old self.new result }
    {
        append_rows(alloc, &mut self.database, table, columns, &mut self.last)?;
        self.last.count_changes(&mut self.changes);
        Ok(())
    }

    /// Prepares a line, as [`mm_lang::prepare`] reads it, and returns the statement's number: the least free one. Fails as
    /// [`mm_lang::prepare`] does, and with `Memory` if an allocation fails. The last reply is unchanged.
    pub fn prepare(&mut self, alloc: Global, line: &[u8]) -> Result<usize, Refusal>
        ensures { IsPrepared line.now self.old self.new result }
    {
        let statement = Statement::read(alloc, &self.database, line)?;
        let number = add(&mut self.statements, statement)?;
        Ok(number)
    }

    /// Returns the number of holes of a statement, or `None` if no statement has the number.
    pub fn parameters(&self, statement: usize) -> Option<usize>
        ensures { result ≡ parameters_at statement self.now.lines }
    {
        parameters(&self.statements, statement)
    }

    /// Returns the kind of a statement, or `None` if no statement has the number.
    pub fn kind(&self, statement: usize) -> Option<StatementKind>
        ensures { IsKindOf (line_at statement self.now.lines) result }
    {
        kind(&self.statements, statement)
    }

    /// Returns the columns of the rows that a statement returns in the current catalog: none if it returns no rows. Fails with
    /// `NoSuchStatement` if no statement has the number, and with `Memory` if an allocation fails. Reads the statement's line again.
    pub fn statement_columns(
        &self,
        alloc: Global,
        statement: usize,
    ) -> Result<Vec<&Column>, ColumnsError>
        ensures ok { IfOk result (λ found. AreColumnsFound (line_at statement self.now.lines) self.now.state
            (map (λ column. column.now) found.items)) }
        ensures err { IfErr result (LacksColumns (line_at statement self.now.lines)) }
    {
        columns_at(alloc, &self.database, &self.statements, statement)
    }

    /// Runs a statement with a value for each hole, from left to right, and stores the reply. Fails with `NoSuchStatement` if no statement
    /// has the number, and with `WrongNumberOfValues` if the statement has more or fewer holes; nothing changes then.
    pub fn run(&mut self, alloc: Global, statement: usize, values: &[Value]) -> Result<(), Misuse>
        ensures { RunsStatement statement values.now self.old self.new result }
    {
        run_at(
            alloc,
            &mut self.database,
            &mut self.statements,
            &mut self.templates,
            statement,
            values,
            &mut self.last,
        )?;
        self.last.count_changes(&mut self.changes);
        Ok(())
    }

    /// Runs EXPLAIN with the query of a SELECT or an EXPLAIN and a value for each hole, and stores the reply. Fails with `NoSuchStatement`
    /// if no statement has the number, with `NoPlan` if the statement is of another kind, and with `WrongNumberOfValues` if it has more
    /// or fewer holes; nothing changes then. Reads the statement's line again.
    pub fn explain(
        &mut self,
        alloc: Global,
        statement: usize,
        values: &[Value],
    ) -> Result<(), Misuse>
        ensures { ExplainsStatement statement values.now self.old self.new result }
    {
        explain_at(
            alloc,
            &mut self.database,
            &self.statements,
            statement,
            values,
            &mut self.last,
        )?;
        Ok(())
    }

    /// Deletes a statement. Fails with `NoSuchStatement` if no statement has the number. The last reply is unchanged.
    pub fn finalize(&mut self, statement: usize) -> Result<(), Misuse>
        ensures { Finalizes statement self.old self.new result }
    {
        remove(&mut self.statements, statement)
    }

    /// Returns the reply to the last call.
    pub fn reply(&self) -> LastReply<'_>
        ensures { reply_lent result ≡ self.now.reply }
    {
        self.last.lend()
    }

    /// Returns the number of rows that all calls inserted, updated or deleted: the sum of the counts of their replies, modulo 2^64.
    pub fn total_changes(&self) -> u64
        ensures { result ≡ self.now.changes }
    {
        self.changes
    }

    /// Returns the columns of the rows that a line returns in the current catalog: none if it returns no rows. The line may have holes.
    /// Fails as [`mm_lang::prepare`] does, and with `Memory` if an allocation fails.
    pub fn columns(&self, alloc: Global, line: &[u8]) -> Result<Vec<&Column>, Refusal>
        ensures ok { IfOk result (λ found. AreColumnsOf line.now self.now.state (map (λ column. column.now) found.items)) }
        ensures err { IfErr result (λ refusal. (template_of line.now ≡ Err refusal) ⊎ (refusal ≡ Memory)) }
    {
        columns_of_line(alloc, &self.database, line)
    }

    /// Returns the byte offset in a line to show in the message of a refusal: where reading stopped, a literal past its limit, or a name
    /// that does not exist. Otherwise returns 0. The offset is a hint, and at most the length of the line.
    pub fn place_of_refusal(&self, alloc: Global, line: &[u8], refusal: Refusal) -> usize
        ensures { result ≤ length line.now }
    {
        place_of_refusal(alloc, self.database.catalog(), line, refusal)
    }

    /// Releases the latest savepoint with a name, and all savepoints set after it. No row changes. Fails with `Syntax` if the bytes are not
    /// a name, with `NoTransaction` if no transaction is open, and with `NoSuchSavepoint` if the transaction has no savepoint with the
    /// name; nothing changes then. Allocates nothing. The last reply is unchanged.
    pub fn release(&mut self, name: &[u8]) -> Result<(), Refusal>
        ensures { Releases name.now self.old self.new result }
    {
        let name = Name::new(name).ok_or(Refusal::Syntax)?;
        self.database.release(&name)
    }

    /// Returns whether a transaction is open.
    pub fn is_in_transaction(&self) -> bool
        ensures { result ≡ is_some self.now.state.saved }
    {
        self.database.is_in_transaction()
    }

    /// Writes the line that defines a table, an index or a standing query: `TABLE`, `INDEX` or `WATCH`, without its line feed. A dump has
    /// the same line. Fails with `Syntax` if the bytes are not a name, with `NoSuchTable`, `NoSuchIndex` or `NoSuchStandingQuery` if no
    /// object of the kind has the name, and with `Memory` if an allocation fails. Tables, indexes and standing queries may have the same
    /// name.
    pub fn definition(
        &self,
        kind: DefinitionKind,
        name: &[u8],
        bytes: &mut Vec<u8>,
    ) -> Result<(), Refusal>
        requires { bytes.old.items ≡ [] }
        ensures refusal { AnswersDue (definition_refusal kind name.now self.now.state) result }
        ensures text { OnOk result (option_map entry_text (entry_named kind name.now self.now.state) ≡ Some bytes.new.items) }
    {
        add_definition(&self.database, kind, name, bytes)
    }

    /// Appends the next piece of the dump of the database, from a place on: as many whole lines as fit into `room` bytes. Returns the place
    /// after them. Appends no line only at the end of the dump. If a transaction is open, its changes are in the dump. Fails with `Memory`
    /// if the next line cannot be appended: an allocation failed, or the line is longer than `room`.
    pub fn dump(
        &self,
        alloc: Global,
        from: DumpPlace,
        room: usize,
        bytes: &mut Vec<u8>,
    ) -> Result<DumpPlace, Refusal>
        requires { bytes.old.items ≡ [] }
        ensures piece { IfOk result (λ to. IsPiece self.now.state bytes.new.items from to) }
        ensures end { OnOk result (bytes.new.items ≡ [] → dump_rest self.now.state from ≡ []) }
        ensures room { length bytes.new.items ≤ room }
    {
        add_dump(alloc, &self.database, from, room, bytes)
    }
}
