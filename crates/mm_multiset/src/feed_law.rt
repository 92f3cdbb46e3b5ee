//! What the changes that are told add up to.
ghost use Rattle.std.specs.Prelude.{◌≡◌, ◌+ℤ◌, pos, Bool, List, Some};
ghost use Rattle.mm_multiset.specs.Counts.{AreTold, Entries, IsUpToDate, count_in, number_in, signed_count};
ghost use Rattle.mm_multiset.specs.declared.signed.Signed.{Signed as Change};
ghost use Rattle.mm_value.specs.declared.values.Value.{Value as Val};
ghost use Rattle.slot_counts.specs.Numbers.{shown_count};

/// Law: if changes were told one after another and none is left, the number of each row is what was told before plus its changes. The call
/// does nothing.
pub fn told_changes_add_up()
    ensures { (distinct : Bool) (before after entries : Entries) (changes : List Change) → AreTold changes before after
        → IsUpToDate (Some (record { distinct = distinct; told = after })) entries
        → (row : List Val) → pos (shown_count distinct (count_in row entries)) ≡ pos (number_in row before) +ℤ signed_count row changes }
{}
