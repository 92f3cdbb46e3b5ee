//! Laws of the one order of refusals.
ghost use Rattle.std.specs.Prelude.{◌≡◌, ◌<◌, ◌≤◌, true, AllPairs, Contains, [], ◌∷◌, Some, map};
ghost use Rattle.mm_schema.specs.Refused.{Condition, first_refusal, rank};
ghost use Rattle.mm_query.specs.Machine.{conditions};
ghost use Rattle.mm_query.specs.State.{State};
ghost use Rattle.mm_query.specs.declared.command.Command.{Command};
ghost use Rattle.mm_value.specs.Refusals.{refusal_number};
ghost use Rattle.mm_value.specs.declared.refusal.Refusal.{Refusal};
ghost use Rattle.mm_value.specs.declared.refusal.Refusal.TheVariants.{NumberOutOfRange, TextTooLong};
ghost use Rattle.mm_laws.specs.RefusalOrder.{one_order};

/// The ranks of refusals increase strictly along their one order, which has all refusals and ends with 90. The exception is 13: a text past
/// its limit has the rank of a number past its own, which is 12.
pub fn ranks_ascend_along_the_one_order()
    ensures numbers { map refusal_number one_order
        ≡ 10 ∷ 11 ∷ 12 ∷ 50 ∷ 51 ∷ 52 ∷ 53 ∷ 20 ∷ 21 ∷ 22 ∷ 23 ∷ 24 ∷ 25 ∷ 26 ∷ 30 ∷ 31 ∷ 48 ∷ 32 ∷ 40 ∷ 41 ∷ 42 ∷ 43 ∷ 45 ∷ 46 ∷ 47 ∷ 90 ∷ [] }
    ensures ascend { AllPairs (λ earlier later. rank earlier < rank later) one_order }
    ensures texts { rank TextTooLong ≡ rank NumberOutOfRange }
    ensures all { (refusal : Refusal) → Contains (TextTooLong ∷ one_order) refusal }
{}

/// A command is refused exactly if the condition of a refusal holds. Its refusal is then the first in the one order whose condition holds.
pub fn first_refusals_are_answered()
    ensures due { (command : Command) (state : State) (condition : Condition) → Contains (conditions command state) condition → condition.holds ≡ true
        → (answered : Refusal) × (first_refusal (conditions command state) ≡ Some answered) × (rank answered ≤ rank condition.refusal) }
    ensures holds { (command : Command) (state : State) (answered : Refusal) → first_refusal (conditions command state) ≡ Some answered
        → (condition : Condition) × Contains (conditions command state) condition × (condition.holds ≡ true) × (condition.refusal ≡ answered) }
{}
