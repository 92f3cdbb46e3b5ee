//! Laws of the columns of the rows that a command returns.
ghost use Rattle.std.specs.Prelude.{◌≡◌, ℕ, false, All, List, None, Some, map};
ghost use Rattle.mm_value.specs.Types.{type_of};
ghost use Rattle.mm_value.specs.declared.values.Value.{Value};
ghost use Rattle.mm_schema.specs.Indexes.{index_named};
ghost use Rattle.mm_schema.specs.Refused.{first_refusal};
ghost use Rattle.mm_schema.specs.Standing.{lacks_standing};
ghost use Rattle.mm_schema.specs.declared.column.Column.{Column};
ghost use Rattle.mm_schema.specs.declared.index.IndexDef.{IndexDef};
ghost use Rattle.mm_schema.specs.declared.table.TableDef.{TableDef};
ghost use Rattle.mm_query.specs.Fields.{FieldName};
ghost use Rattle.mm_query.specs.Machine.{after_all, conditions, step};
ghost use Rattle.mm_query.specs.Resolving.{query_conditions};
ghost use Rattle.mm_query.specs.Standing.{AreBound, HasQueries, after_watch, watch_conditions};
ghost use Rattle.mm_query.specs.State.{State, first_state};
ghost use Rattle.mm_query.specs.declared.command.Command.{Command};
ghost use Rattle.mm_query.specs.declared.command.Command.TheVariants.{Define, Scan, ScanIndex, Select, Show};
ghost use Rattle.mm_query.specs.declared.command.Definition.TheVariants.{Table};
ghost use Rattle.mm_query.specs.declared.query.Query.{Query};
ghost use Rattle.mm_query.specs.declared.reply.Reply.TheVariants.{Rows};
ghost use Rattle.mm_session.specs.Columns.{columns_of};

/// In every reachable state, each row that a command returns has one value for each of the command's columns, in order, and of that
/// column's type.
pub fn rows_have_the_types_of_columns()
    ensures { (commands : List Command) (command : Command) (rows : List (List Value)) → let reached = after_all commands first_state in
        (step command reached).reply ≡ Some (Rows rows)
        → All (λ (row : List Value). map type_of row ≡ map (λ (column : Column). column.col_type) (columns_of command reached)) rows }
{}

/// The columns of a SELECT that the catalog accepts have the names of its fields, in order.
pub fn columns_have_the_names_of_fields()
    ensures { (query : Query) (state : State) → first_refusal (query_conditions query state.schema) ≡ None
        → map (λ (column : Column). column.name) (columns_of (Select query) state) ≡ map (λ (field : FieldName). field.column) query.fields }
{}

/// Right after a successful WATCH, SHOW has the columns of the SELECT of the same query. Each later command keeps them, as long as the
/// standing query exists.
pub fn standing_queries_keep_their_columns()
    ensures watch { (name : List ℕ) (query : Query) (state : State) → HasQueries state → first_refusal (watch_conditions name query state) ≡ None
        → columns_of (Show name) (after_watch name query state) ≡ columns_of (Select query) state }
    ensures step { (name : List ℕ) (command : Command) (state : State) → HasQueries state → AreBound state
        → lacks_standing name state.schema ≡ false → lacks_standing name (step command state).state.schema ≡ false
        → columns_of (Show name) (step command state).state ≡ columns_of (Show name) state }
{}

/// SCAN has the columns of its table, in the order of the definition: right after a TABLE that nothing refuses, those that it names. SCAN
/// INDEX has the columns of the SCAN of the table of its index.
pub fn scans_have_the_columns_of_their_table()
    ensures table { (definition : TableDef) (state : State) → first_refusal (conditions (Define (Table definition)) state) ≡ None
        → columns_of (Scan definition.name) (step (Define (Table definition)) state).state ≡ definition.columns }
    ensures index { (name : List ℕ) (index : IndexDef) (state : State) → index_named name state.schema ≡ Some index
        → columns_of (ScanIndex name) state ≡ columns_of (Scan index.table) state }
{}
