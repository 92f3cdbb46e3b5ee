//! Rows counted one by one.
ghost use Rattle.std.specs.Prelude.{◌≡◌, ◌+◌, [], ◌∷◌, List, OnOk};
ghost use Rattle.mm_value.specs.declared.values.Value.{Value as AnyValue};
ghost use Rattle.mm_multiset.specs.Counts.{count_in, count_of};

use mm_multiset::Tally;
use mm_value::Row;
use std::alloc::AllocError;

/// Increments the count of a row. Fails with `AllocError` if an allocation fails.
pub(crate) fn count_row(out: &mut Tally, row: Row) -> Result<(), AllocError>
    ensures { OnOk result ((other : List AnyValue) → count_in other out.new.entries ≡ count_in other out.old.entries + count_of other (row ∷ [])) }
{
    out.count_up(row)
}
