//! Which commands are questions.
ghost use Rattle.std.specs.Prelude.{◌≡◌};
ghost use Rattle.mm_txn.specs.Questions.{is_question};

use mm_query::Command;

/// Returns whether a command requests rows, a plan or a listing. Then [`Db::ask`](crate::Db::ask) answers it;
/// [`Db::execute`](crate::Db::execute) executes any other command.
pub fn is_question(command: &Command<'_>) -> bool
    ensures { result ≡ is_question command.now }
{
    match command {
        Command::Scan(_)
        | Command::ScanIndex(_)
        | Command::Select(_)
        | Command::Explain(_)
        | Command::Show(_)
        | Command::Tables => true,
        Command::Nothing
        | Command::Define(_)
        | Command::Change(_)
        | Command::Begin
        | Command::Commit
        | Command::Rollback
        | Command::Savepoint(_)
        | Command::RollbackTo(_) => false,
    }
}
