//! Pushes that are repeated after a failed allocation.
ghost use Rattle.std.specs.Prelude.{◌≡◌, ◌++◌, ◌∷◌, [], IfErr, OnErr, OnOk};

use std::alloc::AllocFailed;

/// Appends an item, and tries once more if an allocation fails, as each does in turn when a test runs with failing allocations. Fails with
/// `AllocFailed` if the second allocation fails too; then returns the item in the error, and the items are unchanged.
pub fn put_again<T>(items: &mut Vec<T>, item: T) -> Result<(), AllocFailed<T>>
    ensures ok { OnOk result (items.new.items ≡ items.old.items ++ item ∷ []) }
    ensures err { OnErr result (items.new.items ≡ items.old.items) }
    ensures given_back { IfErr result (λ refused. refused.value ≡ item) }
{
    match items.push(item) {
        Ok(()) => Ok(()),
        Err(refused) => items.push(refused.value),
    }
}
