//! Questions to a database.
ghost use Rattle.std.specs.Prelude.{◌≡◌, IfOk, Some, true};
ghost use Rattle.mm_query.specs.Machine.{conditions, reply_to};
ghost use Rattle.mm_schema.specs.Refused.{AnswersDue, first_refusal};
ghost use Rattle.mm_txn.specs.Answers.{reply_of};
ghost use Rattle.mm_txn.specs.Questions.{is_question};
ghost use Rattle.mm_txn.specs.Reads.{CommandReads};
ghost use Rattle.mm_txn.specs.Steps.{IsStep};

use super::Db;
use crate::answer::Answer;
use crate::rows::Rows;
use mm_query::Command;
use mm_value::Refusal;
use std::alloc::Global;

impl Db {
    /// Answers a question ([`is_question`](crate::is_question)) with its rows, its plan or its listing, or with the first refusal that is
    /// due. No row is copied. The call is one step of the machine of row lists, which changes nothing, or its answer is `Memory`. Sets
    /// `reads` to the number of rows that a query read, up to `u64::MAX`: no more than its plan allows. The rows of `SCAN` and `SCAN INDEX`
    /// are not counted, and no other question reads a row.
    ///
    /// Refusals:
    ///
    /// - `SCAN`: `NoSuchTable` if no table has the name.
    /// - `SCAN INDEX`: `NoSuchIndex` if no index has the name.
    /// - `SELECT`: `NoSuchTable`; `NoSuchColumn` for a column that its table lacks, or a position of ORDER that is 0 or past the fields;
    ///   `AliasTaken` if two tables have one alias; `NoSuchAlias`; `TypeMismatch` if two sides differ in type, or a number is added to a
    ///   text; `TooMany` for more than 4 tables or more than 16 fields, tests or positions; `ResultTooLarge` if more than 1,048,576
    ///   combinations of rows match.
    /// - `EXPLAIN`: those of `SELECT` except `ResultTooLarge`.
    /// - `SHOW`: `NoSuchStandingQuery` if no standing query has the name.
    /// - `TABLES`: none.
    pub fn ask(&self, alloc: Global, question: Command<'_>, reads: &mut u64) -> Answer<'_>
        requires { is_question question ≡ true }
        ensures step { IsStep question.entry self.now (record { reply = Some (reply_of result); state = self.now }) }
        ensures reads { CommandReads question.entry self.now reads.new }
    {
        match self.answer(alloc, question, reads) {
            Ok(answer) => answer,
            Err(refusal) => Answer::Refused(refusal),
        }
    }

    /// Returns the answer to a question, or the first refusal that is due.
    fn answer(
        &self,
        alloc: Global,
        question: Command<'_>,
        reads: &mut u64,
    ) -> Result<Answer<'_>, Refusal>
        requires { is_question question ≡ true }
        ensures due { AnswersDue (first_refusal (conditions question.entry self.now)) result }
        ensures reply { IfOk result (λ answer. reply_to question.entry self.now ≡ Some (reply_of answer)) }
        ensures reads { CommandReads question.entry self.now reads.new }
    {
        *reads = 0;
        match question {
            Command::Scan(table) => Ok(Answer::Rows(Rows::stored(self.scan(&table)?))),
            Command::ScanIndex(index) => {
                Ok(Answer::Rows(Rows::stored(self.scan_index(alloc, &index)?)))
            }
            Command::Select(query) => Ok(Answer::Rows(Rows::shown(self.select(
                alloc, query, reads,
            )?))),
            Command::Explain(query) => Ok(Answer::Steps(self.explain(alloc, query)?)),
            Command::Show(name) => Ok(Answer::Rows(Rows::shown(self.show(alloc, &name)?))),
            Command::Tables => Ok(Answer::Listing(self.tables(alloc)?)),
            _ => unreachable!(),
        }
    }
}
