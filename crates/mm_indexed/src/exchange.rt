//! Rows that change places in pairs.
ghost use Rattle.std.specs.Prelude.{◌≡◌, ◌<◌, ◌↔◌, length, All, IsTrue};
ghost use Rattle.mm_partition.specs.Places.{slot_at, extent_of, IsLive, IsHidden};
ghost use Rattle.mm_indexed.specs.Exchanges.{AgreeIn, ArePairs, ExchangesAll};

use crate::moves::have_one_value;
use mm_partition::Partitions;
use mm_value::RowRef;

/// A row in use and a hidden row that change places.
#[derive(Clone, Copy)]
pub struct Exchange {
    /// The reference of the row in use, which gets the values of the hidden row.
    pub at: RowRef,
    /// The slot of the hidden row, which gets the values of the row in use.
    pub other: RowRef,
}

/// Exchanges the rows of each pair.
pub fn exchange_rows(rows: &mut Partitions, exchanges: &[Exchange])
    requires { ArePairs (slot_at rows.old) exchanges.now }
    ensures exchanged { ExchangesAll (slot_at rows.old) (slot_at rows.new) exchanges.now }
    ensures room { rows.new.room ≡ rows.old.room }
    ensures extent { extent_of rows.new ≡ extent_of rows.old }
    ensures types { rows.new.types ≡ rows.old.types }
{
    for exchange in exchanges {
        rows.exchange(exchange.at, exchange.other);
    }
}

/// Returns whether the two rows of each pair have the same value in a column.
pub fn agree_in(rows: &Partitions, column: usize, exchanges: &[Exchange]) -> bool
    requires column { column < length rows.now.types }
    requires live { All (λ e. IsLive rows.now e.at) exchanges.now }
    requires hidden { All (λ e. IsHidden rows.now e.other) exchanges.now }
    ensures { IsTrue result ↔ AgreeIn column (slot_at rows.now) exchanges.now }
{
    for exchange in exchanges {
        if !have_one_value(rows, column, exchange.at, exchange.other) {
            return false;
        }
    }
    true
}
