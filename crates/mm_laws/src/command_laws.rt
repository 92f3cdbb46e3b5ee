//! Laws on the groups of commands in the laws of transactions, and on when a transaction is open.
ghost use Rattle.std.specs.Prelude.{◌≡◌, ◌≢◌, ◌⊎◌, ◌↔◌, ◌<◌, ℕ, true, false, Contains, List, [], ◌∷◌, None, length};
ghost use Rattle.std.specs.List.{list_all, list_any};
ghost use Rattle.mm_schema.specs.Instance.{Instance};
ghost use Rattle.mm_schema.specs.Refused.{first_refusal};
ghost use Rattle.mm_schema.specs.declared.index.IndexDef.{IndexDef};
ghost use Rattle.mm_schema.specs.declared.table.TableDef.{TableDef};
ghost use Rattle.mm_query.specs.Machine.{conditions, is_of_index, step};
ghost use Rattle.mm_query.specs.State.{State, first_state, has_transaction, savepoints_of};
ghost use Rattle.mm_query.specs.Transactions.{is_done_alike, is_done_without_memory, is_transaction_control, leaves_savepoint};
ghost use Rattle.mm_query.specs.declared.command.Command.{Command};
ghost use Rattle.mm_query.specs.declared.command.Command.TheVariants.{Begin, Change, Commit, Define, Explain, Nothing, Rollback, RollbackTo, Savepoint, Scan, ScanIndex, Select, Show, Tables};
ghost use Rattle.mm_query.specs.declared.command.Definition.{Definition};
ghost use Rattle.mm_query.specs.declared.command.Definition.TheVariants as define;
ghost use Rattle.mm_query.specs.declared.command.Mutation.{Mutation};
ghost use Rattle.mm_query.specs.declared.command.NamedQuery.{NamedQuery};
ghost use Rattle.mm_query.specs.declared.query.Query.{Query};

/// Exactly three commands begin or end a transaction: BEGIN, COMMIT and ROLLBACK.
pub fn three_commands_control_transactions()
    ensures { (command : Command) → (is_transaction_control command ≡ true) ↔ Contains (Begin ∷ Commit ∷ Rollback ∷ []) command }
{}

/// Exactly four commands do not allocate: BEGIN, COMMIT, ROLLBACK and ROLLBACK TO.
pub fn four_commands_are_done_without_memory()
    ensures { (command : Command) → (is_done_without_memory command ≡ true)
        ↔ (Contains (Begin ∷ Commit ∷ Rollback ∷ []) command ⊎ ((name : List ℕ) × (command ≡ RollbackTo name))) }
{}

/// Exactly two changes of the catalog concern only an index: creating an index and dropping one.
pub fn two_definitions_are_of_indexes()
    ensures { (definition : Definition) → (is_of_index definition ≡ true)
        ↔ (((index : IndexDef) × (definition ≡ define.Index index)) ⊎ ((name : List ℕ) × (definition ≡ define.DropIndex name))) }
{}

/// These commands keep a savepoint with a name: each change of rows, each change of the catalog, each question, an empty line, and a
/// SAVEPOINT with another name. These do not: BEGIN, COMMIT, ROLLBACK, each ROLLBACK TO, and a SAVEPOINT with that name.
pub fn changes_and_questions_leave_a_savepoint()
    ensures changes { (name : List ℕ) (mutation : Mutation) → leaves_savepoint name (Change mutation) ≡ true }
    ensures definitions { (name : List ℕ) (definition : Definition) → leaves_savepoint name (Define definition) ≡ true }
    ensures questions { (name other : List ℕ) (query : Query) → list_all (leaves_savepoint name)
        (Scan other ∷ ScanIndex other ∷ Select query ∷ Explain query ∷ Show other ∷ Tables ∷ []) ≡ true }
    ensures nothing { (name : List ℕ) → leaves_savepoint name Nothing ≡ true }
    ensures another { (name other : List ℕ) → other ≢ name → leaves_savepoint name (Savepoint other) ≡ true }
    ensures same { (name : List ℕ) → leaves_savepoint name (Savepoint name) ≡ false }
    ensures back { (name other : List ℕ) → leaves_savepoint name (RollbackTo other) ≡ false }
    ensures control { (name : List ℕ) → list_any (leaves_savepoint name) (Begin ∷ Commit ∷ Rollback ∷ []) ≡ false }
{}

/// These commands are done alike in a transaction and outside one: each change of rows, creating or dropping an index, each question, and
/// an empty line. These are not: the other changes of the catalog, and BEGIN, COMMIT, ROLLBACK, SAVEPOINT and ROLLBACK TO.
pub fn changes_and_questions_are_done_alike()
    ensures changes { (mutation : Mutation) → is_done_alike (Change mutation) ≡ true }
    ensures indexes { (index : IndexDef) (name : List ℕ)
        → list_all is_done_alike (Define (define.Index index) ∷ Define (define.DropIndex name) ∷ []) ≡ true }
    ensures questions { (name : List ℕ) (query : Query)
        → list_all is_done_alike (Scan name ∷ ScanIndex name ∷ Select query ∷ Explain query ∷ Show name ∷ Tables ∷ []) ≡ true }
    ensures nothing { is_done_alike Nothing ≡ true }
    ensures definitions { (table : TableDef) (name : List ℕ) (watched : NamedQuery) → list_any is_done_alike
        (Define (define.Table table) ∷ Define (define.DropTable name) ∷ Define (define.Watch watched) ∷ Define (define.Unwatch name) ∷ []) ≡ false }
    ensures transactions { (name : List ℕ)
        → list_any is_done_alike (Begin ∷ Commit ∷ Rollback ∷ Savepoint name ∷ RollbackTo name ∷ []) ≡ false }
{}

/// No transaction is open at first. One is open after a BEGIN, and none after a COMMIT or a ROLLBACK. Each other command leaves this
/// unchanged.
pub fn transactions_are_open_from_begin_to_end()
    ensures first { has_transaction first_state ≡ false }
    ensures begin { (state : State) → has_transaction (step Begin state).state ≡ true }
    ensures commit { (state : State) → has_transaction (step Commit state).state ≡ false }
    ensures rollback { (state : State) → has_transaction (step Rollback state).state ≡ false }
    ensures others { (command : Command) (state : State) → is_transaction_control command ≡ false
        → has_transaction (step command state).state ≡ has_transaction state }
{}

/// Nothing refuses a BEGIN outside a transaction, a COMMIT or a ROLLBACK in one, a SAVEPOINT in one that has fewer than 64, or a ROLLBACK
/// TO in one that has a savepoint with its name.
pub fn transactions_are_begun_divided_and_ended()
    ensures begin { (state : State) → has_transaction state ≡ false → first_refusal (conditions Begin state) ≡ None }
    ensures commit { (state : State) → has_transaction state ≡ true → first_refusal (conditions Commit state) ≡ None }
    ensures rollback { (state : State) → has_transaction state ≡ true → first_refusal (conditions Rollback state) ≡ None }
    ensures savepoint { (name : List ℕ) (state : State) → has_transaction state ≡ true → length (savepoints_of state) < 64
        → first_refusal (conditions (Savepoint name) state) ≡ None }
    ensures rollback_to { (name : List ℕ) (rows : Instance) (state : State)
        → Contains (savepoints_of state) (record { name = name; rows = rows }) → first_refusal (conditions (RollbackTo name) state) ≡ None }
{}
