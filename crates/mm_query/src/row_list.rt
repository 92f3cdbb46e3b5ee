//! Lists of rows.
ghost use Rattle.std.specs.Prelude.{◌≡◌};

use mm_value::{Few, Tuple};
use std::marker::Model;

/// A list of rows: the tuples of an INSERT, or the rows of a reply. A single row is stored inline.
#[derive(Debug, Drop)]
pub struct RowList {
    rows: Few<Tuple>,
}

impl Model for RowList {
    ghost use Rattle.std.specs.Prelude.{List};
    ghost use Rattle.mm_value.specs.declared.values.Value.{Value as Val};

    ghost Value = { List (List Val) };

    ghost view = { λ l. l.rows };
}

impl RowList {
    /// Returns the list of these rows in their order. Allocates nothing.
    pub fn new(rows: Few<Tuple>) -> RowList
        ensures { result ≡ rows }
    {
        RowList { rows }
    }

    /// Returns the rows in order.
    pub fn as_slice(&self) -> &[Tuple]
        ensures { result.now ≡ self.now }
    {
        self.rows.as_slice()
    }

    /// Returns the owned rows. Allocates nothing.
    pub fn into_rows(self) -> Few<Tuple>
        ensures { result ≡ self }
    {
        let RowList { rows } = self;
        rows
    }
}
