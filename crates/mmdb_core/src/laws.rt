//! Laws of the definitions that the contract of a run uses.
ghost use Rattle.std.specs.Prelude.{◌≡◌, ◌+◌, ◌<◌, ◌≤◌, ℕ, Bool, true, false, List, [], length, Option, Some, None, Ok, Result, IfSome, IsErrOf};
ghost use Rattle.mm_lang.specs.Answering.{answer, outcome_of};
ghost use Rattle.mm_lang.specs.Reading.{is_nothing, reading, takes_memory};
ghost use Rattle.mm_query.specs.Machine.{back_to, rows_at_latest};
ghost use Rattle.mm_query.specs.State.{Saved, Savepoint, State};
ghost use Rattle.mm_query.specs.Transactions.{is_done_without_memory};
ghost use Rattle.mm_query.specs.declared.command.Command.{Command};
ghost use Rattle.mm_query.specs.declared.command.Command.TheVariants.{Rollback, RollbackTo};
ghost use Rattle.mm_query.specs.declared.reply.Reply.TheVariants.{Done, Refused};
ghost use Rattle.std.specs.List.{list_any};
ghost use Rattle.mm_schema.specs.Name.{same_name};
ghost use Rattle.mm_value.specs.Watched.{inner_of, has_failed};
ghost use Rattle.mm_value.specs.declared.device.Watched.{Watched};
ghost use Rattle.mm_value.specs.declared.refusal.Refusal.TheVariants.{Memory, NoTransaction};
ghost use Rattle.mmdb_core.specs.Run.{Answers, ReachedEnd, TakesWithin};
ghost use Rattle.mmdb_core.specs.declared.limits.Totals.{Totals};

use crate::limits::{Limits, Totals};
use crate::run_error::RunError;
use mm_value::Watched;
use std::io::{Read, Write};

/// If allocations succeed, the reply to a line and the next state follow from its reading. If one fails and the line may allocate, the
/// reply is `error 90` and nothing changes. A line that does not allocate has the same reply in both cases.
pub fn answers_follow_the_choice()
    ensures granted { (line : List ℕ) (state : State) → answer false line state ≡ outcome_of (reading line) state }
    ensures refused { (line : List ℕ) (state : State) → takes_memory line ≡ true
        → answer true line state ≡ record { reply = Some (Refused Memory); state = state } }
    ensures untouched { (line : List ℕ) (state : State) (a b : Bool) → takes_memory line ≡ false
        → answer a line state ≡ answer b line state }
{}

/// Exactly these lines never allocate: lines that are too long, empty lines and comments, BEGIN, COMMIT, ROLLBACK and ROLLBACK TO.
pub fn commands_take_memory()
    ensures long { (line : List ℕ) → 4096 < length line → takes_memory line ≡ false }
    ensures nothing { (line : List ℕ) → is_nothing line ≡ true → takes_memory line ≡ false }
    ensures transactions { (line : List ℕ) (command : Command) → reading line ≡ Ok command → is_done_without_memory command ≡ true
        → takes_memory line ≡ false }
    ensures others { (line : List ℕ) → length line ≤ 4096 → is_nothing line ≡ false
        → ((command : Command) → reading line ≡ Ok command → is_done_without_memory command ≡ false) → takes_memory line ≡ true }
{}

/// In a transaction ROLLBACK is never refused, not even if memory ran out: the rows are those saved at BEGIN, and the catalog is unchanged.
/// Outside a transaction it is refused with `NoTransaction`.
pub fn rollback_is_never_refused()
    ensures done { (line : List ℕ) (state : State) (saved : Saved) (choice : Bool) → reading line ≡ Ok Rollback → state.saved ≡ Some saved
        → answer choice line state
        ≡ record { reply = Some Done; state = record { schema = state.schema; rows = saved.at_begin; queries = state.queries; saved = None } } }
    ensures refused { (line : List ℕ) (state : State) (choice : Bool) → reading line ≡ Ok Rollback → state.saved ≡ None
        → answer choice line state ≡ record { reply = Some (Refused NoTransaction); state = state } }
{}

/// ROLLBACK TO is never refused, not even if memory ran out, if the open transaction has a savepoint with the name. The rows are those
/// saved there, the savepoint and those before it remain, and the catalog is unchanged.
pub fn rollback_to_is_never_refused()
    ensures { (line name : List ℕ) (state : State) (saved : Saved) (choice : Bool) → reading line ≡ Ok (RollbackTo name) → state.saved ≡ Some saved
        → list_any (λ (savepoint : Savepoint). same_name name savepoint.name) saved.savepoints ≡ true
        → let kept = back_to name saved.savepoints in answer choice line state ≡ record {
          reply = Some Done;
          state = record {
            schema = state.schema;
            rows = rows_at_latest kept state.rows;
            queries = state.queries;
            saved = Some (record saved { savepoints = kept });
          };
        } }
{}

/// If the bytes of a reader are known, a run reads at most one byte more than its limit, and that byte only if the input is too long.
pub fn runs_take_within_their_limit<R: Read, W: Write>(
    _before: &Watched<R>,
    _after: &Watched<R>,
    _writer: &Watched<W>,
    _limits: Limits,
    _ended: &Result<Totals, RunError>,
)
    ensures { (input left : List ℕ) → R.remaining (inner_of _before.now) ≡ Some input → R.remaining (inner_of _after.now) ≡ Some left
        → TakesWithin R.remaining _before.now _after.now _limits (IsErrOf _ended.now RunError.TooLong) (has_failed _writer.now ≡ false)
        → length input ≤ length left + (_limits + 1) }
{}

/// If the remaining bytes of the reader are known, a run that reached the end of its input read all of them. They were no more than the
/// limit, and the replies written are those to all of its lines.
pub fn runs_answer_the_whole_input<R: Read>()
    ensures taken { (before after : Watched R) (limit : ℕ) (old new : Option (List ℕ)) (totals : Totals) (input : List ℕ)
        → R.remaining (inner_of before) ≡ Some input → ReachedEnd R.remaining before after limit old new totals
        → R.remaining (inner_of after) ≡ Some [] }
    ensures within { (before after : Watched R) (limit : ℕ) (old new : Option (List ℕ)) (totals : Totals) (input : List ℕ)
        → R.remaining (inner_of before) ≡ Some input → ReachedEnd R.remaining before after limit old new totals
        → length input ≤ limit }
    ensures answered { (before after : Watched R) (limit : ℕ) (old new : Option (List ℕ)) (totals : Totals)
        → ReachedEnd R.remaining before after limit old new totals
        → IfSome (R.remaining (inner_of before)) (λ input. Answers input old new totals) }
{}
