//! A session's database as a source of dumps.
ghost use Rattle.std.specs.Prelude.{◌≡◌, ◌≤◌, ◌++◌, [], IfOk, IsTrue, OnOk, drop, false, length};
ghost use Rattle.mm_dump.specs.Inserts.{put_texts};
ghost use Rattle.mm_dump.specs.Places.{IsPiece, dump_rest};

use mm_dump::{DumpPlace, DumpSource, RowReader, add_piece, add_row_lines};
use mm_partition::RowView;
use mm_query::{BoundQuery, Command};
use mm_schema::{Catalog, Name};
use mm_txn::{Answer, Db, RowReader as LentRows, Rows, StoredRows};
use mm_value::Refusal;
use std::alloc::Global;

/// Appends the next piece of the dump of a database, as [`mm_dump::add_piece`] does.
pub(crate) fn add_dump(
    alloc: Global,
    database: &Db,
    from: DumpPlace,
    room: usize,
    bytes: &mut Vec<u8>,
) -> Result<DumpPlace, Refusal>
    requires { bytes.old.items ≡ [] }
    ensures piece { IfOk result (λ to. IsPiece database.now bytes.new.items from to) }
    ensures end { OnOk result (bytes.new.items ≡ [] → dump_rest database.now from ≡ []) }
    ensures room { length bytes.new.items ≤ room }
{
    add_piece(&Dumped { alloc, database }, from, room, bytes)
}

/// A database that is dumped.
#[derive(Drop)]
struct Dumped<'d> {
    alloc: Global,
    database: &'d Db,
}

impl<'d> DumpSource for Dumped<'d> {
    ghost state = { λ dumped. dumped.database.now };

    fn catalog(&self) -> &Catalog {
        self.database.catalog()
    }

    fn add_rows(&self, table: &Name, row: &mut usize, room: usize, bytes: &mut Vec<u8>) -> bool {
        let mut reads = 0;
        match self
            .database
            .ask(self.alloc, Command::Scan(table.copy()), &mut reads)
        {
            Answer::Rows(rows) => add_rows(table, &rows, row, room, bytes),
            _ => false,
        }
    }

    fn standing_query(&self, name: &Name) -> Option<&BoundQuery> {
        self.database.standing_query(name)
    }
}

/// Appends INSERT lines of rows, as [`DumpSource::add_rows`] does.
fn add_rows(
    table: &Name,
    rows: &Rows<'_>,
    row: &mut usize,
    room: usize,
    bytes: &mut Vec<u8>,
) -> bool
    ensures whole { IsTrue result → bytes.new.items ≡ bytes.old.items ++ put_texts table.now (drop row.old rows.now) }
    ensures part { result ≡ false → bytes.new.items ++ put_texts table.now (drop row.new rows.now)
        ≡ bytes.old.items ++ put_texts table.now (drop row.old rows.now) }
    ensures room { length bytes.old.items ≤ room → length bytes.new.items ≤ room }
{
    if *row >= rows.len() {
        return true;
    }
    match rows.reader() {
        LentRows::Stored(mut rows) => {
            skip(&mut rows, *row);
            add_row_lines(table, &mut TableRows { rows }, row, room, bytes)
        }
        LentRows::Shown(_) => false,
    }
}

/// Skips rows. Requires at least that many rows.
fn skip(rows: &mut StoredRows<'_>, count: usize)
    requires { count ≤ length rows.old }
    ensures { rows.new ≡ drop count rows.old }
{
    for _ in 0..count {
        let _ = rows.next();
    }
}

/// The rows of a table, read without a copy.
#[derive(Drop)]
struct TableRows<'a> {
    rows: StoredRows<'a>,
}

impl<'a> RowReader for TableRows<'a> {
    type Row = RowView<'a>;

    ghost rows = { λ reader. reader.rows };

    fn next(&mut self) -> Option<RowView<'a>> {
        self.rows.next()
    }
}
