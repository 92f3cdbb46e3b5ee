//! Appending rows that are passed as columns.
ghost use Rattle.std.specs.Prelude.{◌≡◌, ◌⊎◌, Err, IfOk, OnErr, OnOk};
ghost use Rattle.mm_reply.specs.Sinks.{Delivers};
ghost use Rattle.mm_session.specs.Appending.{AppendsRows, insert_of};
ghost use Rattle.mm_session.specs.ColumnArrays.{AreColumns};
ghost use Rattle.mm_value.specs.declared.refusal.Refusal.TheVariants.{Memory};

use crate::column_array::{ColumnArray, NotColumns, are_columns, rows};
use mm_query::{Command, Mutation, RowList};
use mm_reply::{ReplySink, respond};
use mm_schema::Name;
use mm_txn::Db;
use mm_value::Refusal;
use std::alloc::Global;

/// Executes the INSERT of the rows of columns into a table, and passes the reply to a sink. Fails with `NotColumns` if the arrays are not
/// columns of rows; nothing changes then. The catalog is unchanged.
pub(crate) fn append_rows<S: ReplySink>(
    alloc: Global,
    database: &mut Db,
    table: &[u8],
    columns: &[ColumnArray<'_>],
    sink: &mut S,
) -> Result<S::Taken, NotColumns>
    requires { S.can_take sink.old }
    ensures ok { IfOk result (λ taken. Delivers S.takes sink.old sink.new taken database.new
        (AppendsRows table.now columns.now database.old)) }
    ensures columns { OnOk result (AreColumns columns.now) }
    ensures err { OnErr result ((AreColumns columns.now → ⊥) × (database.new ≡ database.old) × (sink.new ≡ sink.old)) }
    ensures schema { database.new.schema ≡ database.old.schema }
{
    if !are_columns(columns) {
        return Err(NotColumns);
    }
    let read = read_insert(alloc, table, columns);
    Ok(respond(alloc, database, read, sink))
}

/// Returns the INSERT of the rows of columns into a table. Fails with `Syntax` if the bytes of the table's name are not a name, and then as
/// [`rows`] does.
fn read_insert(
    alloc: Global,
    table: &[u8],
    columns: &[ColumnArray<'_>],
) -> Result<Command<'static>, Refusal>
    requires { AreColumns columns.now }
    ensures { (result ≡ insert_of table.now columns.now) ⊎ (result ≡ Err Memory) }
{
    let table = Name::new(table).ok_or(Refusal::Syntax)?;
    let tuples = RowList::new(rows(alloc, columns)?);
    Ok(Command::Change(Mutation::Insert { table, tuples }))
}
