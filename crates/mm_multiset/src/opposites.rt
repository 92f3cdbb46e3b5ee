//! The undo of changes of counts.
ghost use Rattle.std.specs.Prelude.{◌≡◌, neg_ℤ, true, List};
ghost use Rattle.std.specs.List.{AllByRecursion};
ghost use Rattle.mm_multiset.specs.Counts.{AddsAll, Entries, count_in, has_entry, signed_count};
ghost use Rattle.mm_multiset.specs.declared.signed.Signed.{Signed as Change};
ghost use Rattle.mm_value.specs.declared.values.Value.{Value as Val};

/// Law: changes that negate others for each row, in any order, restore every count. Each changed row still has an entry, so undoing needs
/// no capacity.
pub fn counts_are_undone()
    ensures counts { (changes undo : List Change) (old mid new : Entries)
        → ((row : List Val) → signed_count row undo ≡ neg_ℤ (signed_count row changes))
        → AddsAll changes old mid → AddsAll undo mid new → (row : List Val) → count_in row new ≡ count_in row old }
    ensures found { (changes : List Change) (old new : Entries) → AddsAll changes old new
        → AllByRecursion (λ change. has_entry change.row new ≡ true) changes }
    ensures kept { (changes : List Change) (old new : Entries) → AddsAll changes old new
        → (row : List Val) → has_entry row old ≡ true → has_entry row new ≡ true }
{}
