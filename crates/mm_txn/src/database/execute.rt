//! Commands that are not questions.
ghost use Rattle.std.specs.Prelude.{◌≡◌, MatchResult, None, false};
ghost use Rattle.mm_query.specs.declared.command.Command.TheVariants.{Nothing};
ghost use Rattle.mm_query.specs.declared.reply.Reply.TheVariants.{Count, Done, Refused};
ghost use Rattle.mm_txn.specs.Questions.{is_question};
ghost use Rattle.mm_txn.specs.Reads.{CommandReads};
ghost use Rattle.mm_txn.specs.Steps.{IsStep};

use super::Db;
use mm_query::{Command, Reply};
use mm_value::Refusal;
use std::alloc::Global;

impl Db {
    /// Executes a command that is not a question ([`is_question`](crate::is_question)), and returns its reply: `Done`, `Count` for a change
    /// of rows, or the first refusal that is due; `None` for `Nothing`. A refused command changes nothing. The call is one step of the
    /// machine of row lists, or the reply is `Memory`; `BEGIN`, `COMMIT`, `ROLLBACK` and `ROLLBACK TO` never reply `Memory`. Sets `reads`
    /// to the number of rows that a change of rows read for the lists of standing queries, up to `u64::MAX`: no more than the edited rows
    /// and their matches allow. For other commands `reads` is 0.
    ///
    /// The function of each command documents its refusals.
    pub fn execute(&mut self, alloc: Global, command: Command<'_>, reads: &mut u64) -> Option<Reply>
        requires { is_question command ≡ false }
        ensures step { IsStep command.entry self.old (record { reply = result; state = self.new }) }
        ensures nothing { command.entry ≡ Nothing → result ≡ None }
        ensures reads { CommandReads command.entry self.old reads.new }
    {
        *reads = 0;
        Some(match command {
            Command::Nothing => return None,
            Command::Define(definition) => done(self.define(alloc, definition)),
            Command::Change(mutation) => counted(self.change(alloc, mutation, reads)),
            Command::Begin => done(self.begin()),
            Command::Commit => done(self.commit()),
            Command::Rollback => done(self.rollback()),
            Command::Savepoint(name) => done(self.savepoint(name)),
            Command::RollbackTo(name) => done(self.rollback_to(&name)),
            _ => unreachable!(),
        })
    }
}

/// Returns the reply of a command that only succeeds or fails.
fn done(outcome: Result<(), Refusal>) -> Reply
    ensures { MatchResult outcome (λ _. result ≡ Done) (λ refusal. result ≡ Refused refusal) }
{
    match outcome {
        Ok(()) => Reply::Done,
        Err(refusal) => Reply::Refused(refusal),
    }
}

/// Returns the reply of a command that counts the affected rows.
pub(super) fn counted(outcome: Result<usize, Refusal>) -> Reply
    ensures { MatchResult outcome (λ count. result ≡ Count count) (λ refusal. result ≡ Refused refusal) }
{
    match outcome {
        Ok(count) => Reply::Count(count),
        Err(refusal) => Reply::Refused(refusal),
    }
}
