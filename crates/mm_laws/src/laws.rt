//! Laws of the machine of row lists.
ghost use Rattle.std.specs.Prelude.{◌≡◌, ℕ, true, false, All, List, [], ◌∷◌, ◌++◌, Option, Some, None, IsTrue, IfSome};
ghost use Rattle.std.specs.List.{list_all, list_any};
ghost use Rattle.mm_schema.specs.Instance.{AreInKeyOrder};
ghost use Rattle.mm_schema.specs.Refused.{ascend, first_refusal};
ghost use Rattle.mm_query.specs.Machine.{after_all, conditions, is_of_index, some_lacks_target, step};
ghost use Rattle.mm_query.specs.State.{AreSavedRows, Saved, State, first_state, has_transaction};
ghost use Rattle.mm_query.specs.Transactions.{AreAlike, is_done_alike, is_transaction_control, leaves_savepoint};
ghost use Rattle.mm_query.specs.declared.command.Command.{Command};
ghost use Rattle.mm_query.specs.declared.command.Command.TheVariants.{Begin, Commit, Define, Rollback, RollbackTo, Savepoint};
ghost use Rattle.mm_query.specs.declared.command.Definition.{Definition};
ghost use Rattle.mm_query.specs.declared.reply.Reply.TheVariants.{Refused};
ghost use Rattle.mm_value.specs.declared.refusal.Refusal.TheVariants.{NoTransaction, NotInTransaction, TransactionOpen};

/// The conditions of each command are in the one order of refusals, so the refusal of a command is the first in that order of those that
/// are due.
pub fn conditions_ascend()
    ensures { (command : Command) (state : State) → IsTrue (ascend (conditions command state)) }
{}

/// In every state that commands lead to from the first, each table's rows are strictly in the order of their keys. So no two rows of a
/// table have one key. The same holds of all rows that are saved while a transaction is open.
pub fn rows_stay_in_key_order()
    ensures rows { (commands : List Command) → let reached = after_all commands first_state in AreInKeyOrder reached.schema.tables reached.rows }
    ensures saved { (commands : List Command) → let reached = after_all commands first_state in
        IfSome reached.saved (AreSavedRows (AreInKeyOrder reached.schema.tables)) }
{}

/// In every state that commands lead to from the first, each value of a foreign key is the key of a row of the table that it refers to. The
/// same holds of all rows that are saved while a transaction is open.
pub fn rows_keep_their_targets()
    ensures rows { (commands : List Command) (table : List ℕ) → some_lacks_target table (after_all commands first_state) ≡ false }
    ensures saved { (commands : List Command) (table : List ℕ) → let reached = after_all commands first_state in
        IfSome reached.saved (AreSavedRows (λ rows. some_lacks_target table (record reached { rows = rows }) ≡ false)) }
{}

/// BEGIN inside a transaction is refused with `TransactionOpen`. COMMIT, ROLLBACK, SAVEPOINT and ROLLBACK TO outside one are refused with
/// `NoTransaction`. A change of the catalog inside one is refused with `NotInTransaction`, unless it concerns only an index. Each of these
/// takes precedence over any other refusal.
pub fn transactions_stand_alone()
    ensures begin { (state : State) → has_transaction state ≡ true
        → step Begin state ≡ record { reply = Some (Refused TransactionOpen); state = state } }
    ensures commit { (state : State) → has_transaction state ≡ false
        → step Commit state ≡ record { reply = Some (Refused NoTransaction); state = state } }
    ensures rollback { (state : State) → has_transaction state ≡ false
        → step Rollback state ≡ record { reply = Some (Refused NoTransaction); state = state } }
    ensures savepoint { (name : List ℕ) (state : State) → has_transaction state ≡ false
        → step (Savepoint name) state ≡ record { reply = Some (Refused NoTransaction); state = state } }
    ensures rollback_to { (name : List ℕ) (state : State) → has_transaction state ≡ false
        → step (RollbackTo name) state ≡ record { reply = Some (Refused NoTransaction); state = state } }
    ensures define { (definition : Definition) (state : State) → has_transaction state ≡ true → is_of_index definition ≡ false
        → step (Define definition) state ≡ record { reply = Some (Refused NotInTransaction); state = state } }
{}

/// BEGIN, then any commands none of which begins or ends a transaction, and then ROLLBACK restore the rows and the standing queries at the
/// BEGIN. Of the catalog, at most the indexes change.
pub fn rollback_restores_the_rows_at_begin()
    ensures state { (commands : List Command) (state : State) → has_transaction state ≡ false → list_any is_transaction_control commands ≡ false
        → let reached = after_all (Begin ∷ commands ++ Rollback ∷ []) state in reached ≡ record state { schema = reached.schema } }
    ensures catalog { (commands : List Command) (state : State) → has_transaction state ≡ false → list_any is_transaction_control commands ≡ false
        → AreAlike (after_all (Begin ∷ commands ++ Rollback ∷ []) state).schema state.schema }
{}

/// BEGIN, then any commands none of which begins or ends a transaction, and then COMMIT leave the catalog and the rows from before the
/// COMMIT, and no saved rows.
pub fn commit_keeps_the_rows()
    ensures { (commands : List Command) (state : State) → has_transaction state ≡ false → list_any is_transaction_control commands ≡ false
        → let before = after_all (Begin ∷ commands) state in
        after_all (Begin ∷ commands ++ Commit ∷ []) state ≡ record before { saved = None } }
{}

/// A successful SAVEPOINT, then any commands that keep it, and then ROLLBACK TO its name restore the rows at the SAVEPOINT. The savepoint
/// remains, and later ones are dropped. ROLLBACK TO changes nothing else.
pub fn rollback_to_restores_the_rows_at_its_savepoint()
    ensures { (name : List ℕ) (commands : List Command) (state : State) → first_refusal (conditions (Savepoint name) state) ≡ None
        → list_all (leaves_savepoint name) commands ≡ true
        → after_all (Savepoint name ∷ commands ++ RollbackTo name ∷ []) state
        ≡ record (after_all (Savepoint name ∷ commands) state) { rows = state.rows; saved = (step (Savepoint name) state).state.saved } }
{}

/// Commands do the same in a transaction as outside one, whatever rows are saved. Commands that begin, divide and end no transaction and
/// change nothing in the catalog but indexes have the same replies. They lead to the same catalog and rows, and keep the saved rows.
pub fn transactions_do_what_commands_do()
    ensures replies { (command : Command) (state : State) (saved : Option Saved) → is_done_alike command ≡ true
        → (step command (record state { saved = saved })).reply ≡ (step command state).reply }
    ensures states { (commands : List Command) (state : State) (saved : Option Saved) → list_all is_done_alike commands ≡ true
        → after_all commands (record state { saved = saved }) ≡ record (after_all commands state) { saved = saved } }
{}
