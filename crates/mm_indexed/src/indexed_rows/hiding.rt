//! Hiding all rows at once.
ghost use Rattle.std.specs.Prelude.{◌≡◌, ◌≢◌, ◌≤◌, length, All, AllPairs, Contains};
ghost use Rattle.mm_value.specs.declared.row_ref.RowRef.{RowRef};
ghost use Rattle.mm_schema.specs.Rows.{most_rows};
ghost use Rattle.mm_partition.specs.Places.{extent_of, IsLive};
ghost use Rattle.mm_indexed.specs.Hiding.{HidesAll};
ghost use Rattle.mm_indexed.specs.Kept.{SameTable};

use crate::indexed_rows::IndexedRows;
use crate::indexes::clear_all;
use mm_partition::Partitions;
use ttree::Iter;

/// Hides the rows of references, one after the other. Requires that these are all rows in use.
fn hide_each(rows: &mut Partitions, refs: Iter<'_>)
    requires live { All (IsLive rows.old) refs }
    requires apart { AllPairs (λ a b. a ≢ b) refs }
    requires all { (at : RowRef) → IsLive rows.old at → Contains refs at }
    ensures hidden { HidesAll rows.old rows.new }
    ensures room { rows.new.room ≡ rows.old.room }
    ensures extent { extent_of rows.new ≡ extent_of rows.old }
    ensures types { rows.new.types ≡ rows.old.types }
{
    for at in refs {
        rows.hide(at);
    }
}

impl IndexedRows {
    /// Hides all rows. They keep their slots. Each index is cleared, without a search. Requires at most 1,048,576 rows.
    pub fn hide_all(&mut self)
        requires { length self.old.refs ≤ most_rows }
        ensures hidden { HidesAll self.old.places self.new.places }
        ensures room { self.new.places.room ≡ self.old.places.room }
        ensures extent { extent_of self.new.places ≡ extent_of self.old.places }
        ensures table { SameTable 0 0 self.old self.new }
    {
        hide_each(&mut self.rows, self.by_key.iter());
        self.rows.have_types();
        self.by_key.clear();
        clear_all(&mut self.indexes);
    }
}
