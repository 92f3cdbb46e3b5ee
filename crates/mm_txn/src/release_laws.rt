//! Laws of the release of a savepoint.
ghost use Rattle.std.specs.Prelude.{◌≡◌, ℕ, true, false, List, [], ◌∷◌, ◌++◌, Some, None};
ghost use Rattle.std.specs.List.{list_all};
ghost use Rattle.mm_schema.specs.Name.{same_name};
ghost use Rattle.mm_schema.specs.Refused.{first_refusal};
ghost use Rattle.mm_query.specs.Machine.{after_all, after_savepoint, conditions, lacks_savepoint, step};
ghost use Rattle.mm_query.specs.Standing.{AreBound, HasQueries};
ghost use Rattle.mm_query.specs.State.{State, first_state};
ghost use Rattle.mm_query.specs.Transactions.{leaves_savepoint};
ghost use Rattle.mm_query.specs.declared.command.Command.{Command};
ghost use Rattle.mm_query.specs.declared.command.Command.TheVariants.{Commit, Rollback, RollbackTo, Savepoint};
ghost use Rattle.mm_query.specs.declared.reply.Reply.TheVariants.{Done};
ghost use Rattle.mm_laws.specs.Typing.{IsTyped};
ghost use Rattle.mm_txn.specs.Releasing.{Call, IsSetBefore, after_call, after_calls, after_release};
ghost use Rattle.mm_txn.specs.Releasing.Call.{Release};
ghost use Rattle.mm_value.specs.declared.refusal.Refusal.{Refusal};

use mm_laws::{
    rollback_to_restores_the_rows_at_its_savepoint, transactions_do_what_commands_do,
    transactions_stand_alone,
};

/// A released savepoint leaves no trace. After a successful SAVEPOINT, any commands that keep the savepoint, and its release, the
/// transaction can be rolled back to the same states as before the SAVEPOINT. The release changes no row, and neither the catalog nor the
/// standing queries.
pub fn released_savepoints_leave_no_trace()
    ensures { (name : List ℕ) (commands : List Command) (state : State) → first_refusal (conditions (Savepoint name) state) ≡ None
        → list_all (leaves_savepoint name) commands ≡ true
        → let reached = after_all (Savepoint name ∷ commands) state in after_release name reached ≡ record reached { saved = state.saved } }
{
    rollback_to_restores_the_rows_at_its_savepoint();
}

/// COMMIT and ROLLBACK have the same reply and lead to the same state with and without a release before them. So does ROLLBACK TO a
/// savepoint that was set before the released one, immediately after the release or after any commands that keep the earlier savepoint. An
/// existing savepoint with another name was set before one that is set now.
pub fn rollbacks_after_a_release_restore_the_same_rows()
    ensures commit { (name : List ℕ) (state : State) → step Commit (after_release name state) ≡ step Commit state }
    ensures rollback { (name : List ℕ) (state : State) → step Rollback (after_release name state) ≡ step Rollback state }
    ensures before { (name earlier : List ℕ) (state : State) → lacks_savepoint earlier state ≡ false → same_name earlier name ≡ false
        → IsSetBefore earlier name (after_savepoint name state) }
    ensures due { (name earlier : List ℕ) (state : State) → IsSetBefore earlier name state
        → first_refusal (conditions (RollbackTo earlier) (after_release name state))
        ≡ first_refusal (conditions (RollbackTo earlier) state) }
    ensures rollback_to { (name earlier : List ℕ) (state : State) → IsSetBefore earlier name state
        → first_refusal (conditions (RollbackTo earlier) state) ≡ None
        → step (RollbackTo earlier) (after_release name state) ≡ step (RollbackTo earlier) state }
    ensures later { (name earlier : List ℕ) (commands : List Command) (state : State) → IsSetBefore earlier name state
        → first_refusal (conditions (RollbackTo earlier) state) ≡ None → list_all (leaves_savepoint earlier) commands ≡ true
        → after_all (commands ++ RollbackTo earlier ∷ []) (after_release name state)
        ≡ after_all (commands ++ RollbackTo earlier ∷ []) state }
{
    transactions_do_what_commands_do();
    transactions_stand_alone();
}

/// After the release of the later of two savepoints with one name, ROLLBACK TO that name restores the rows of the earlier one, which
/// remains.
pub fn a_released_name_means_the_earlier_savepoint()
    ensures { (name : List ℕ) (before after : List Command) (state : State) → first_refusal (conditions (Savepoint name) state) ≡ None
        → list_all (leaves_savepoint name) before ≡ true
        → first_refusal (conditions (Savepoint name) (after_all (Savepoint name ∷ before) state)) ≡ None
        → list_all (leaves_savepoint name) after ≡ true
        → let reached = after_all (Savepoint name ∷ before ++ Savepoint name ∷ after) state in
        step (RollbackTo name) (after_release name reached)
        ≡ record { reply = Some Done; state = record reached { rows = state.rows; saved = (step (Savepoint name) state).state.saved } } }
{
    rollback_to_restores_the_rows_at_its_savepoint();
}

/// Commands and releases lead from the first state to no other states than commands alone. So what holds in every state that commands lead
/// to also holds if savepoints are released. A release succeeds if `ROLLBACK TO` with its name would; otherwise the state is unchanged.
pub fn releases_lead_to_no_other_states()
    ensures done { (name : List ℕ) (state : State) → first_refusal (conditions (RollbackTo name) state) ≡ None
        → after_call (Release name) state ≡ after_release name state }
    ensures refused { (name : List ℕ) (refusal : Refusal) (state : State)
        → first_refusal (conditions (RollbackTo name) state) ≡ Some refusal → after_call (Release name) state ≡ state }
    ensures reached { (calls : List Call) → (commands : List Command) × (after_calls calls first_state ≡ after_all commands first_state) }
{}

/// A release keeps what the laws of single commands assume of a state: all rows have the types of their columns, also those that a rollback
/// can restore, and each standing query has its bound query, whose tables and columns exist.
pub fn releases_keep_types_and_standing_queries()
    ensures types { (name : List ℕ) (state : State) → IsTyped state → IsTyped (after_release name state) }
    ensures queries { (name : List ℕ) (state : State) → HasQueries state → HasQueries (after_release name state) }
    ensures bound { (name : List ℕ) (state : State) → AreBound state → AreBound (after_release name state) }
{}
