//! The target of an open handle: a session with reusable buffers.
ghost use Rattle.std.specs.Prelude.{◌≡◌, IfErr, List, OnOk, Some, false, true, ℕ};
ghost use Rattle.mmdb_c.specs.Appending.{AppendsColumns};
ghost use Rattle.mmdb_c.specs.Calls.{Counts, Executes, ExplainsCells, FindsPlace, HasPlanAt, InTransaction, Prepares, Queries, Reads};
ghost use Rattle.mmdb_c.specs.Calls.{RefusesCells, ReleasesName, RunsCells, RunsRows, TakesStatement, TellsChanges, TellsColumns};
ghost use Rattle.mmdb_c.specs.Calls.{TellsKind, TellsParameters, TellsStatementColumns, TellsText};
ghost use Rattle.mm_session.specs.Statements.{LacksPlan, line_at};
ghost use Rattle.mmdb_c.specs.Cells.{StandFor};
ghost use Rattle.mmdb_c.specs.Definitions.{TellsDefinition};
ghost use Rattle.mmdb_c.specs.Dumping.{Dumps};
ghost use Rattle.mmdb_c.specs.Loading.{LoadsScript};
ghost use Rattle.mmdb_c.specs.steps.Running.{ExplainsWith, RunsWith};
ghost use Rattle.mmdb_c.specs.Sessions.{new_session};

use crate::cell::{Cell, CellError, read_cells};
use crate::column::{ColumnCell, write_columns};
use crate::copying::copy_front;
use crate::dumping::{DUMP_ROOM, DumpCell};
use crate::kind::{definition_kind, kind_number};
use crate::replies::{count_of, read_rows, write_text};
use crate::status::{COUNT, DONE, FIRST_REFUSAL, MISUSE, ROWS, refusal_of, status_of};
use mm_session::{ColumnArray, ColumnsError, Session};
use mm_value::{Refusal, Value, Watched};
use std::alloc::Global;
use std::marker::Model;
use std::mem::replace;

/// A session and two buffers that calls reuse: one for the values of a run, one for the text of a reply, a definition or a dump. The model
/// is the state of the session.
#[derive(Drop)]
pub(crate) struct Library {
    session: Session,
    values: Vec<Value>,
    text: Vec<u8>,
    /// The number of commands that may have changed the database, modulo 2^64.
    version: u64,
}

impl Model for Library {
    ghost use Rattle.mm_session.specs.Session.{SessionState};

    ghost Value = { SessionState };

    ghost view = { λ l. l.session };
}

impl Library {
    /// Returns a new session. Allocates nothing.
    pub(crate) fn new(alloc: Global) -> Library
        ensures { result ≡ new_session }
    {
        Library {
            session: Session::new(alloc),
            values: Vec::new(alloc),
            text: Vec::new(alloc),
            version: 0,
        }
    }

    /// Executes a line, and returns the status of the reply.
    pub(crate) fn execute(&mut self, alloc: Global, line: &[u8]) -> u8
        ensures { Executes line.now result self.old self.new }
    {
        self.session.execute(alloc, line);
        let status = status_of(&self.session.reply());
        count_version(status, &mut self.version);
        status
    }

    /// Executes the lines of a script up to the first that is refused. Writes the number of lines before it, and returns a status.
    pub(crate) fn load(&mut self, alloc: Global, script: &[u8], lines: &mut usize) -> u8
        ensures { LoadsScript script.now lines.new result self.old self.new }
    {
        match self.session.load(alloc, script) {
            Ok(done) => {
                *lines = done;
                count_load(done, &mut self.version);
                DONE
            }
            Err(error) => {
                *lines = error.lines;
                count_load(error.lines, &mut self.version);
                error.refusal.number()
            }
        }
    }

    /// Inserts the rows of columns into the table with a name, and returns the status of the reply.
    pub(crate) fn append(&mut self, alloc: Global, table: &[u8], columns: &[ColumnArray<'_>]) -> u8
        ensures { AppendsColumns table.now columns.now result self.old self.new }
    {
        match self.session.append(alloc, table, columns) {
            Ok(()) => {
                let status = status_of(&self.session.reply());
                count_version(status, &mut self.version);
                status
            }
            Err(_) => MISUSE,
        }
    }

    /// Prepares a line, writes the number of the statement, and returns a status.
    pub(crate) fn prepare(&mut self, alloc: Global, line: &[u8], number: &mut usize) -> u8
        ensures { Prepares line.now number.old number.new result self.old self.new }
    {
        match self.session.prepare(alloc, line) {
            Ok(made) => {
                *number = made;
                DONE
            }
            Err(refusal) => refusal.number(),
        }
    }

    /// Writes the number of holes of a statement, and returns a status.
    pub(crate) fn parameters(&mut self, number: usize, count: &mut usize) -> u8
        ensures { TellsParameters number count.old count.new result self.old self.new }
    {
        match self.session.parameters(number) {
            Some(parameters) => {
                *count = parameters;
                DONE
            }
            None => MISUSE,
        }
    }

    /// Writes the number of a statement's kind, and returns a status.
    pub(crate) fn kind(&mut self, number: usize, kind: &mut u8) -> u8
        ensures { TellsKind number kind.old kind.new result self.old self.new }
    {
        match self.session.kind(number) {
            Some(found) => {
                *kind = kind_number(found);
                DONE
            }
            None => MISUSE,
        }
    }

    /// Runs a statement with the values of cells, and returns the status of the reply.
    pub(crate) fn run(&mut self, alloc: Global, number: usize, cells: &[Cell]) -> u8
        ensures { RunsCells number cells.now result self.old self.new }
    {
        match read_values(alloc, &self.session, number, cells, &mut self.values) {
            Ok(()) => run_values(
                alloc,
                &mut self.session,
                &mut self.version,
                number,
                self.values.as_slice(),
            ),
            Err(status) => status,
        }
    }

    /// Runs a statement with the values of cells, copies rows of the reply, and returns the reply's status.
    pub(crate) fn query(
        &mut self,
        alloc: Global,
        number: usize,
        values: &[Cell],
        cells: &mut [Cell],
        rows: &mut usize,
    ) -> u8
        requires { rows.old ≡ 0 }
        ensures { Queries number values.now cells.old cells.new rows.new result self.old self.new }
    {
        let status = self.run(alloc, number, values);
        if status == ROWS {
            *rows = self.read(0, cells);
        }
        status
    }

    /// Runs a statement with each row of cells up to the first run that fails. Writes the number of runs that succeeded, and returns a
    /// status.
    pub(crate) fn run_many(
        &mut self,
        alloc: Global,
        number: usize,
        cells: &[Cell],
        width: usize,
        runs: &mut usize,
    ) -> u8
        requires { runs.old ≡ 0 }
        ensures { RunsRows number width runs.new cells.now result self.old self.new }
    {
        if width == 0 {
            return MISUSE;
        }
        let mut rest = cells;
        while !rest.is_empty() {
            let (row, behind) = rest.split_at(width.min(rest.len()));
            let status = self.run(alloc, number, row);
            if status >= FIRST_REFUSAL {
                return status;
            }
            *runs += 1;
            rest = behind;
        }
        DONE
    }

    /// Explains the query of a statement with the values of cells, and returns the status of the reply.
    pub(crate) fn explain(&mut self, alloc: Global, number: usize, cells: &[Cell]) -> u8
        ensures { ExplainsCells number cells.now result self.old self.new }
    {
        if !has_plan(&self.session, number) {
            return MISUSE;
        }
        match read_values(alloc, &self.session, number, cells, &mut self.values) {
            Ok(()) => explain_values(alloc, &mut self.session, number, self.values.as_slice()),
            Err(status) => status,
        }
    }

    /// Deletes a statement, and returns a status.
    pub(crate) fn finalize(&mut self, number: usize) -> u8
        ensures { TakesStatement number result self.old self.new }
    {
        match self.session.finalize(number) {
            Ok(()) => DONE,
            Err(_) => MISUSE,
        }
    }

    /// Returns the number of rows that the reply has or counts.
    pub(crate) fn count(&mut self) -> usize
        ensures { Counts result self.old self.new }
    {
        count_of(&self.session.reply())
    }

    /// Copies rows of the reply into cells, and returns the number of rows copied.
    pub(crate) fn read(&mut self, first: usize, cells: &mut [Cell]) -> usize
        ensures { Reads first cells.old cells.new result self.old self.new }
    {
        read_rows(&self.session.reply(), first, cells)
    }

    /// Copies as many bytes of the reply's text as fit, writes its full length, and returns a status.
    pub(crate) fn text(&mut self, alloc: Global, out: &mut [u8], length: &mut usize) -> u8
        ensures { TellsText out.old out.new length.old length.new result self.old self.new }
    {
        let mut bytes = replace(&mut self.text, Vec::new(alloc));
        bytes.clear();
        let mut writer = Watched::new(bytes);
        let written = write_text(&self.session.reply(), &mut writer);
        self.text = writer.into_inner();
        match written {
            Ok(()) => {
                copy_front(self.text.as_slice(), out);
                *length = self.text.len();
                DONE
            }
            Err(_) => Refusal::Memory.number(),
        }
    }

    /// Copies the next piece of the dump, writes its length, and moves the place after it. Returns a status.
    pub(crate) fn dump(
        &mut self,
        alloc: Global,
        place: &mut DumpCell,
        out: &mut [u8],
        length: &mut usize,
    ) -> u8
        ensures { Dumps place.old place.new out.old out.new length.old length.new result self.old self.new }
    {
        if out.len() < DUMP_ROOM || !place.continues(self.version) {
            return MISUSE;
        }
        let mut bytes = replace(&mut self.text, Vec::new(alloc));
        bytes.clear();
        let dumped = self
            .session
            .dump(alloc, place.place(), out.len(), &mut bytes);
        self.text = bytes;
        match dumped {
            Ok(next) => {
                let piece = self.text.as_slice();
                copy_front(piece, out);
                *length = piece.len();
                *place = DumpCell::of(next, self.version);
                DONE
            }
            Err(_) => Refusal::Memory.number(),
        }
    }

    /// Copies as many bytes as fit of the line that defines an object with a name, writes its full length, and returns a status.
    pub(crate) fn definition(
        &mut self,
        alloc: Global,
        kind: u8,
        name: &[u8],
        out: &mut [u8],
        length: &mut usize,
    ) -> u8
        ensures { TellsDefinition kind name.now out.old out.new length.old length.new result self.old self.new }
    {
        let Some(kind) = definition_kind(kind) else {
            return MISUSE;
        };
        let mut bytes = replace(&mut self.text, Vec::new(alloc));
        bytes.clear();
        let written = self.session.definition(kind, name, &mut bytes);
        self.text = bytes;
        match written {
            Ok(()) => {
                let line = self.text.as_slice();
                copy_front(line, out);
                *length = line.len();
                DONE
            }
            Err(refusal) => refusal.number(),
        }
    }

    /// Writes as many columns of the rows that a line returns as fit, and the number of all of them. Returns a status.
    pub(crate) fn columns(
        &mut self,
        alloc: Global,
        line: &[u8],
        cells: &mut [ColumnCell],
        count: &mut usize,
    ) -> u8
        ensures { TellsColumns line.now cells.old cells.new count.old count.new result self.old self.new }
    {
        let columns = match self.session.columns(alloc, line) {
            Ok(columns) => columns,
            Err(refusal) => return refusal.number(),
        };
        write_columns(columns.as_slice(), cells, count);
        DONE
    }

    /// Writes as many columns of the rows that a statement returns as fit, and the number of all of them. Returns a status.
    pub(crate) fn statement_columns(
        &mut self,
        alloc: Global,
        number: usize,
        cells: &mut [ColumnCell],
        count: &mut usize,
    ) -> u8
        ensures { TellsStatementColumns number cells.old cells.new count.old count.new result self.old self.new }
    {
        let columns = match self.session.statement_columns(alloc, number) {
            Ok(columns) => columns,
            Err(ColumnsError::NoSuchStatement) => return MISUSE,
            Err(ColumnsError::Memory) => return Refusal::Memory.number(),
        };
        write_columns(columns.as_slice(), cells, count);
        DONE
    }

    /// Returns the byte offset in a line to show in the message of the refusal with a number: 0 if there is none.
    pub(crate) fn place(&mut self, alloc: Global, line: &[u8], number: u8) -> usize
        ensures { FindsPlace line.now number result self.old self.new }
    {
        match refusal_of(number) {
            Some(refusal) => self.session.place_of_refusal(alloc, line, refusal),
            None => 0,
        }
    }

    /// Returns whether a transaction is open.
    pub(crate) fn is_in_transaction(&mut self) -> bool
        ensures { InTransaction result self.old self.new }
    {
        self.session.is_in_transaction()
    }

    /// Releases the latest savepoint with a name, and returns a status.
    pub(crate) fn release(&mut self, name: &[u8]) -> u8
        ensures { ReleasesName name.now result self.old self.new }
    {
        match self.session.release(name) {
            Ok(()) => DONE,
            Err(refusal) => refusal.number(),
        }
    }

    /// Returns the number of rows that all calls changed.
    pub(crate) fn total_changes(&mut self) -> u64
        ensures { TellsChanges result self.old self.new }
    {
        self.session.total_changes()
    }
}

/// Reads the values of cells for a statement. Fails with the call's status if the statement has another number of holes.
fn read_values(
    alloc: Global,
    session: &Session,
    number: usize,
    cells: &[Cell],
    values: &mut Vec<Value>,
) -> Result<(), u8>
    ensures ok { OnOk result (StandFor cells.now values.new.items) }
    ensures err { IfErr result (λ status. RefusesCells number cells.now status session.now) }
{
    if session.parameters(number) != Some(cells.len()) {
        return Err(MISUSE);
    }
    match read_cells(alloc, cells, values) {
        Ok(()) => Ok(()),
        Err(CellError::NoValue) => Err(MISUSE),
        Err(CellError::Memory) => Err(Refusal::Memory.number()),
    }
}

/// Runs a statement with values, and returns the status of the reply.
fn run_values(
    alloc: Global,
    session: &mut Session,
    version: &mut u64,
    number: usize,
    values: &[Value],
) -> u8
    ensures { RunsWith number values.now result session.old session.new }
{
    let status = match session.run(alloc, number, values) {
        Ok(()) => status_of(&session.reply()),
        Err(_) => MISUSE,
    };
    count_version(status, version);
    status
}

/// Counts a command, unless it is a question or was refused.
fn count_version(status: u8, version: &mut u64) {
    if status == DONE || status == COUNT {
        *version = version.wrapping_add(1);
    }
}

/// Counts a load that executed some lines.
fn count_load(lines: usize, version: &mut u64) {
    if lines > 0 {
        *version = version.wrapping_add(1);
    }
}

/// Explains the query of a statement with values, and returns the status of the reply.
fn explain_values(alloc: Global, session: &mut Session, number: usize, values: &[Value]) -> u8
    ensures { ExplainsWith number values.now result session.old session.new }
{
    match session.explain(alloc, number, values) {
        Ok(()) => status_of(&session.reply()),
        Err(_) => MISUSE,
    }
}

/// Returns whether the statement with a number has a query.
fn has_plan(session: &Session, number: usize) -> bool
    ensures some { result ≡ true → HasPlanAt number session.now }
    ensures none { result ≡ false → (line : List ℕ) → line_at number session.now.lines ≡ Some line → LacksPlan line }
{
    match session.kind(number) {
        Some(kind) => kind.has_plan(),
        None => false,
    }
}
