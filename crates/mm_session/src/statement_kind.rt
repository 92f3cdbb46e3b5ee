//! The kinds of statements.
ghost use Rattle.std.specs.Prelude.{◌≡◌};
ghost use Rattle.mm_session.specs.Kinds.{has_plan, kind_of};
ghost use Rattle.mm_session.specs.steps.Readings.{is_of_catalog};

use mm_query::{Command, Definition, Mutation};

/// The kind of a statement: one for each command of the language.
#[derive(Clone, Copy, Debug, Drop, PartialEq, Eq)]
pub enum StatementKind {
    /// An empty line or a comment.
    Nothing,
    /// TABLE.
    Table,
    /// DROP TABLE.
    DropTable,
    /// INDEX.
    Index,
    /// DROP INDEX.
    DropIndex,
    /// WATCH.
    Watch,
    /// UNWATCH.
    Unwatch,
    /// INSERT.
    Insert,
    /// UPDATE.
    Update,
    /// DELETE.
    Delete,
    /// SCAN.
    Scan,
    /// SCAN INDEX.
    ScanIndex,
    /// SELECT.
    Select,
    /// SHOW.
    Show,
    /// EXPLAIN.
    Explain,
    /// TABLES.
    Tables,
    /// BEGIN.
    Begin,
    /// COMMIT.
    Commit,
    /// ROLLBACK.
    Rollback,
    /// SAVEPOINT.
    Savepoint,
    /// ROLLBACK TO.
    RollbackTo,
}

impl StatementKind {
    /// Returns the kind of a command.
    pub(crate) fn of(command: &Command<'_>) -> StatementKind
        ensures { result ≡ kind_of command.now }
    {
        match command {
            Command::Nothing => StatementKind::Nothing,
            Command::Define(definition) => StatementKind::of_definition(definition),
            Command::Change(mutation) => StatementKind::of_change(mutation),
            Command::Scan(_) => StatementKind::Scan,
            Command::ScanIndex(_) => StatementKind::ScanIndex,
            Command::Select(_) => StatementKind::Select,
            Command::Show(_) => StatementKind::Show,
            Command::Explain(_) => StatementKind::Explain,
            Command::Tables => StatementKind::Tables,
            Command::Begin => StatementKind::Begin,
            Command::Commit => StatementKind::Commit,
            Command::Rollback => StatementKind::Rollback,
            Command::Savepoint(_) => StatementKind::Savepoint,
            Command::RollbackTo(_) => StatementKind::RollbackTo,
        }
    }

    /// Returns the kind of a definition.
    fn of_definition(definition: &Definition<'_>) -> StatementKind
        ensures { result ≡ kind_of (Command.Define definition.now) }
    {
        match definition {
            Definition::Table(_) => StatementKind::Table,
            Definition::DropTable(_) => StatementKind::DropTable,
            Definition::Index(_) => StatementKind::Index,
            Definition::DropIndex(_) => StatementKind::DropIndex,
            Definition::Watch(_) => StatementKind::Watch,
            Definition::Unwatch(_) => StatementKind::Unwatch,
        }
    }

    /// Returns the kind of a change of rows.
    fn of_change(mutation: &Mutation<'_>) -> StatementKind
        ensures { result ≡ kind_of (Command.Change mutation.now) }
    {
        match mutation {
            Mutation::Insert { .. } => StatementKind::Insert,
            Mutation::Update { .. } => StatementKind::Update,
            Mutation::Delete { .. } => StatementKind::Delete,
        }
    }

    /// Returns whether statements of this kind change the catalog.
    pub(crate) fn is_of_catalog(self) -> bool
        ensures { result ≡ is_of_catalog self }
    {
        matches!(
            self,
            StatementKind::Table
                | StatementKind::DropTable
                | StatementKind::Index
                | StatementKind::DropIndex
                | StatementKind::Watch
                | StatementKind::Unwatch
        )
    }

    /// Returns whether commands of this kind have a bound form.
    pub(crate) fn has_form(self) -> bool {
        matches!(
            self,
            StatementKind::Select
                | StatementKind::Insert
                | StatementKind::Update
                | StatementKind::Delete
        )
    }

    /// Returns whether statements of this kind have a query, so that `Session::explain` can show its plan.
    pub fn has_plan(self) -> bool
        ensures { result ≡ has_plan self }
    {
        matches!(self, StatementKind::Select | StatementKind::Explain)
    }
}
