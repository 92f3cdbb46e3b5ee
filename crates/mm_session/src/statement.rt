//! Prepared statements.
ghost use Rattle.std.specs.Prelude.{◌≡◌, IfErr, IfOk, IfSome, None, Ok, false, length, true};
ghost use Rattle.mm_lang.specs.Answering.{MayLeadTo};
ghost use Rattle.mm_lang.specs.Templates.{holes_of};
ghost use Rattle.mm_query.specs.Machine.{refused_outcome};
ghost use Rattle.mm_query.specs.declared.command.Command.{Command as AnyCommand};
ghost use Rattle.mm_reply.specs.Sinks.{Delivers};
ghost use Rattle.mm_schema.specs.Schema.{Schema};
ghost use Rattle.mm_statement.specs.Holes.{hole_count};
ghost use Rattle.mm_session.specs.Statements.{Explains, Runs};
ghost use Rattle.mm_session.specs.steps.Filled.{IsFilledStatement, RunsCommand};
ghost use Rattle.mm_session.specs.steps.Forms.{IsReadyStatement, ReadsStatement};
ghost use Rattle.mm_session.specs.Kinds.{has_plan};
ghost use Rattle.mm_session.specs.steps.Readings.{is_of_catalog};

use crate::bound_form::{BoundForm, bind_into};
use crate::early_form::bind_template;
use crate::reading::{read_explain, read_filled};
use crate::refilling::refill;
use crate::running::run_form;
use crate::statement_kind::StatementKind;
use mm_lang::{Template, prepare, templates_read_as_lines};
use mm_query::{Reply, RowList};
use mm_reply::{ReplySink, respond};
use mm_statement::Holes;
use mm_txn::Db;
use mm_value::{Refusal, Value};
use std::alloc::Global;

/// A line that was read once, and is run with values.
#[derive(Drop)]
pub(crate) struct Statement {
    /// The line.
    pub(crate) line: Vec<u8>,
    /// The places of its holes.
    pub(crate) holes: Holes,
    /// The kind of its command.
    pub(crate) kind: StatementKind,
    /// The bound form of its command, with the values of the last run, until the catalog changes.
    pub(crate) bound: Option<BoundForm>,
    /// The rows of an INSERT with new values, until it is run.
    pub(crate) rows: Option<RowList>,
}

impl Statement {
    /// Reads a line, and returns its statement. Binds it, unless the catalog refuses it or an allocation for the form fails; it is then
    /// bound when it is run. Fails as [`prepare`] does, and with `Memory` if an allocation fails.
    pub(crate) fn read(alloc: Global, database: &Db, line: &[u8]) -> Result<Statement, Refusal>
        ensures { ReadsStatement database.now.schema line.now result }
    {
        templates_read_as_lines();
        let copy = Vec::from_slice(alloc, line)?;
        let Template { command, holes } = prepare(alloc, line)?;
        let kind = StatementKind::of(&command);
        let places = Holes::of(alloc, &command, holes)?;
        let bound = bind_template(alloc, database, command, &places);
        Ok(Statement {
            line: copy,
            holes: places,
            kind,
            bound,
            rows: None,
        })
    }

    /// Runs the statement with a value for each hole, and passes the reply to a sink. Runs its bound form if it has one, and reads its line
    /// otherwise.
    pub(crate) fn run<S: ReplySink>(
        &mut self,
        alloc: Global,
        database: &mut Db,
        values: &[Value],
        sink: &mut S,
    ) -> S::Taken
        requires can { S.can_take sink.old }
        requires ready { IsReadyStatement database.old.schema self.old }
        requires values { length values.now ≡ hole_count (holes_of self.old.line.items) }
        ensures runs { Delivers S.takes sink.old sink.new result database.new (Runs self.old.line.items values.now database.old) }
        ensures ready { IsReadyStatement database.new.schema self.new }
        ensures line { self.new.line ≡ self.old.line }
        ensures schema { is_of_catalog self.old.kind ≡ false → database.new.schema ≡ database.old.schema }
    {
        match self.fill(alloc, database, values) {
            Ok(true) => self.run_filled(alloc, database, sink),
            Ok(false) => self.run_line(alloc, database, values, sink),
            Err(refusal) => sink.take(Some(Reply::Refused(refusal))),
        }
    }

    /// Runs the bound form, which has values, and passes the reply to a sink. The catalog is unchanged.
    pub(crate) fn run_filled<S: ReplySink>(
        &mut self,
        alloc: Global,
        database: &mut Db,
        sink: &mut S,
    ) -> S::Taken
        requires can { S.can_take sink.old }
        requires runs { (command : AnyCommand) × RunsCommand database.old.schema command self.old }
        ensures delivers { (command : AnyCommand) → RunsCommand database.old.schema command self.old
            → Delivers S.takes sink.old sink.new result database.new (MayLeadTo (Ok command) database.old) }
        ensures schema { database.new.schema ≡ database.old.schema }
        ensures kept { self.new ≡ record self.old { rows = self.new.rows } }
    {
        match &self.bound {
            Some(form) => run_form(alloc, database, form, &mut self.rows, sink),
            None => unreachable!(),
        }
    }

    /// Reads the line again and runs its command. Drops no bound form.
    fn run_line<S: ReplySink>(
        &self,
        alloc: Global,
        database: &mut Db,
        values: &[Value],
        sink: &mut S,
    ) -> S::Taken
        requires can { S.can_take sink.old }
        requires ready { IsReadyStatement database.old.schema self.now }
        requires values { length values.now ≡ hole_count (holes_of self.now.line.items) }
        ensures runs { Delivers S.takes sink.old sink.new result database.new (Runs self.now.line.items values.now database.old) }
        ensures schema { is_of_catalog self.now.kind ≡ false → database.new.schema ≡ database.old.schema }
    {
        let read = read_filled(alloc, self.line.as_slice(), self.holes.count(), values);
        respond(alloc, database, read, sink)
    }

    /// Writes values into the holes of the bound form, and returns whether it did. Reads and binds the line if there is no form. Returns
    /// `false` for a command that has no bound form, and if the values do not fit the form, which is then dropped. Fails if the values or the
    /// catalog refuse the command, or if an allocation fails.
    pub(crate) fn fill(
        &mut self,
        alloc: Global,
        database: &Db,
        values: &[Value],
    ) -> Result<bool, Refusal>
        requires ready { IsReadyStatement database.now.schema self.old }
        requires values { length values.now ≡ hole_count (holes_of self.old.line.items) }
        ensures ready { IsReadyStatement database.now.schema self.new }
        ensures line { self.new.line ≡ self.old.line }
        ensures kind { self.new.kind ≡ self.old.kind }
        ensures filled { IfOk result (λ is_filled. is_filled ≡ true
            → IsFilledStatement database.now.schema self.old.line.items values.now self.new) }
        ensures unbound { IfOk result (λ is_filled. is_filled ≡ false → self.new.bound ≡ None) }
        ensures refused { IfErr result (λ refusal. Runs self.old.line.items values.now database.now (refused_outcome refusal database.now)) }
    {
        self.bind_line(alloc, database, values)?;
        Ok(self.refill(alloc, values))
    }

    /// Writes values into the holes of the bound form, and returns whether it did. Drops the form if they do not fit.
    fn refill(&mut self, alloc: Global, values: &[Value]) -> bool
        requires ready { (schema : Schema) × IsReadyStatement schema self.old }
        requires values { length values.now ≡ hole_count (holes_of self.old.line.items) }
        ensures ready { (schema : Schema) → IsReadyStatement schema self.old → IsReadyStatement schema self.new }
        ensures line { self.new.line ≡ self.old.line }
        ensures kind { self.new.kind ≡ self.old.kind }
        ensures filled { result ≡ true → (schema : Schema) → IsReadyStatement schema self.old
            → IsFilledStatement schema self.old.line.items values.now self.new }
        ensures unbound { result ≡ false → self.new.bound ≡ None }
    {
        let Some(form) = &mut self.bound else {
            return false;
        };
        if refill(alloc, &self.holes, values, form, &mut self.rows) {
            return true;
        }
        drop_form(&mut self.bound);
        false
    }

    /// Reads the line, and binds its command with the values, unless there is a bound form or the command has none. Fails as
    /// [`read_filled`] and [`bind_into`] do.
    fn bind_line(&mut self, alloc: Global, database: &Db, values: &[Value]) -> Result<(), Refusal>
        requires ready { IsReadyStatement database.now.schema self.old }
        requires values { length values.now ≡ hole_count (holes_of self.old.line.items) }
        ensures ready { IsReadyStatement database.now.schema self.new }
        ensures line { self.new.line ≡ self.old.line }
        ensures kind { self.new.kind ≡ self.old.kind }
        ensures refused { IfErr result (λ refusal. Runs self.old.line.items values.now database.now (refused_outcome refusal database.now)) }
    {
        if self.bound.is_some() || !self.kind.has_form() {
            return Ok(());
        }
        self.bind_anew(alloc, database, values)
    }

    /// Reads the line, and binds its command with the values. A separate function, so that a bound form is run without moving commands.
    /// Fails as [`read_filled`] and [`bind_into`] do.
    #[inline(never)]
    fn bind_anew(&mut self, alloc: Global, database: &Db, values: &[Value]) -> Result<(), Refusal>
        requires ready { IsReadyStatement database.now.schema self.old }
        requires values { length values.now ≡ hole_count (holes_of self.old.line.items) }
        ensures ready { IsReadyStatement database.now.schema self.new }
        ensures line { self.new.line ≡ self.old.line }
        ensures kind { self.new.kind ≡ self.old.kind }
        ensures refused { IfErr result (λ refusal. Runs self.old.line.items values.now database.now (refused_outcome refusal database.now)) }
    {
        match read_filled(alloc, self.line.as_slice(), self.holes.count(), values) {
            Ok(command) => bind_into(alloc, database, command, &mut self.bound),
            Err(refusal) => Err(refusal),
        }
    }

    /// Runs EXPLAIN with the statement's query and the holes filled, and passes the reply to a sink. Reads the line again.
    pub(crate) fn explain<S: ReplySink>(
        &self,
        alloc: Global,
        database: &mut Db,
        values: &[Value],
        sink: &mut S,
    ) -> S::Taken
        requires can { S.can_take sink.old }
        requires ready { IsReadyStatement database.old.schema self.now }
        requires plan { has_plan self.now.kind ≡ true }
        requires values { length values.now ≡ hole_count (holes_of self.now.line.items) }
        ensures explains { Delivers S.takes sink.old sink.new result database.new (Explains self.now.line.items values.now database.old) }
        ensures schema { database.new.schema ≡ database.old.schema }
    {
        let read = read_explain(alloc, self.line.as_slice(), values);
        respond(alloc, database, read, sink)
    }
}

/// Drops a bound form. A separate function, so that a form that values fit is not moved.
#[inline(never)]
fn drop_form(form: &mut Option<BoundForm>)
    ensures { form.new ≡ None }
{
    *form = None;
}
