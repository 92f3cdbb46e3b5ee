//! Laws of sequences of calls on a session.
ghost use Rattle.std.specs.Prelude.{◌≡◌, ◌≤◌, ℕ, All, List, [], ◌∷◌, None, Result, Some, codes, count_by, false, length, map, true};
ghost use Rattle.std.specs.List.{AllZip};
ghost use Rattle.mm_value.specs.Literal.{Spells};
ghost use Rattle.mm_value.specs.Types.{type_of};
ghost use Rattle.mm_value.specs.declared.refusal.Refusal.{Refusal as Ref};
ghost use Rattle.mm_value.specs.declared.values.Value.{Value as Val};
ghost use Rattle.mm_schema.specs.declared.column.Column.{Column as Col};
ghost use Rattle.mm_query.specs.Machine.{after_all};
ghost use Rattle.mm_query.specs.State.{first_state};
ghost use Rattle.mm_query.specs.declared.command.Command.{Command};
ghost use Rattle.mm_query.specs.declared.reply.Reply.TheVariants.{Refused, Rows};
ghost use Rattle.mm_lang.specs.Reading.{is_nothing, reading};
ghost use Rattle.mm_lang.specs.Tokens.{is_hole, tokens};
ghost use Rattle.mm_statement.specs.Texts.{filled_line, keeps_signs};
ghost use Rattle.mm_txn.specs.Releasing.{Call, after_calls};
ghost use Rattle.mm_session.specs.Appending.{AppendsAt, insert_of};
ghost use Rattle.mm_session.specs.Calls.{AreDoneBy, LeadTo, SessionCall, first_session};
ghost use Rattle.mm_session.specs.Calls.SessionCall.{Execute};
ghost use Rattle.mm_session.specs.Columns.{AreColumnsOf};
ghost use Rattle.mm_session.specs.Loading.{Loads, lines_tried};
ghost use Rattle.mm_session.specs.Session.{AnswersLine, RunsAt, SessionState};
ghost use Rattle.mm_session.specs.Statements.{AreColumnsFound, line_at, parameters_at};
ghost use Rattle.mm_session.specs.declared.column_array.ColumnArray.{ColumnArray};
ghost use Rattle.mm_session.specs.declared.loading.LoadError.{LoadError as Stop};

use mm_lang::templates_read_as_lines;
use mm_txn::releases_lead_to_no_other_states;

/// The state of a session is the state after its calls on the database, in order: each call on the session ran its command or its release,
/// or nothing. A new session reaches no other states than commands do. A call whose reply is a refusal does not change the state.
pub fn calls_lead_to_states_of_commands()
    ensures states { (calls : List SessionCall) (old new : SessionState) → LeadTo calls old new
        → (done : List Call) × AreDoneBy calls old done new × (new.state ≡ after_calls done old.state) }
    ensures reached { (calls : List SessionCall) (new : SessionState) → LeadTo calls first_session new
        → (commands : List Command) × (new.state ≡ after_all commands first_state) }
    ensures refused_line { (line : List ℕ) (old new : SessionState) (refusal : Ref) → AnswersLine line old new
        → new.reply ≡ Some (Refused refusal) → new.state ≡ old.state }
    ensures refused_append { (table : List ℕ) (columns : List ColumnArray) (old new : SessionState) (refusal : Ref)
        → AppendsAt table columns old new → new.reply ≡ Some (Refused refusal) → new.state ≡ old.state }
    ensures refused_run { (number : ℕ) (values : List Val) (old new : SessionState) (refusal : Ref) → RunsAt number values old new
        → new.reply ≡ Some (Refused refusal) → new.state ≡ old.state }
{
    releases_lead_to_no_other_states();
}

/// A load of a script has the effect on a session of executing its lines one after another, up to the first that is refused.
pub fn loads_execute_lines()
    ensures { (script : List ℕ) (old new : SessionState) (result : Result ℕ Stop) → Loads script old new result
        → LeadTo (map Execute (lines_tried script result)) old new }
{}

/// Appending rows has the effect of a line that reads as the INSERT of these rows, in the same state: the same reply, the same new state and
/// the same count. If the rows are refused, it has the effect of a line that is refused in the same way.
pub fn appends_answer_as_their_lines()
    ensures { (table line : List ℕ) (columns : List ColumnArray) (old new : SessionState) → reading line ≡ insert_of table columns
        → AppendsAt table columns old new → AnswersLine line old new }
{}

/// After any calls, each row of the reply to a line, or to a run of a statement, has one value of the type of each column of the
/// line or of the statement, in order, and no more values. The line of a statement may have holes.
pub fn rows_of_calls_have_the_types_of_columns()
    ensures lines { (calls : List SessionCall) (old new : SessionState) (line : List ℕ) (columns : List Col) (rows : List (List Val))
        → LeadTo calls first_session old → AreColumnsOf line old.state columns → AnswersLine line old new → new.reply ≡ Some (Rows rows)
        → All (λ (row : List Val). map type_of row ≡ map (λ (column : Col). column.col_type) columns) rows }
    ensures statements { (calls : List SessionCall) (old new : SessionState) (number : ℕ) (values : List Val) (columns : List Col)
        (rows : List (List Val)) → LeadTo calls first_session old → AreColumnsFound (line_at number old.lines) old.state columns
        → RunsAt number values old new → new.reply ≡ Some (Rows rows)
        → All (λ (row : List Val). map type_of row ≡ map (λ (column : Col). column.col_type) columns) rows }
{
    calls_lead_to_states_of_commands();
    templates_read_as_lines();
}

/// A run of a statement has the effect of its line with literals of the values in place of its holes, in the same state: the same reply,
/// the same new state and the same count. This holds if the line with the literals is not longer than 4,096 bytes, and no literal with a
/// minus follows the sign of a shift.
pub fn statements_answer_as_their_lines()
    ensures { (number : ℕ) (line : List ℕ) (texts : List (List ℕ)) (values : List Val) (old new : SessionState)
        → line_at number old.lines ≡ Some line → AllZip Spells texts values → keeps_signs (tokens line) texts ≡ true
        → length (filled_line line texts) ≤ 4096 → RunsAt number values old new → AnswersLine (filled_line line texts) old new }
{}

/// A statement takes a value for each `?` of its line outside texts. A worked example has a `?` in a text and two outside.
pub fn parameters_are_the_holes_of_a_line()
    ensures holes { (number : ℕ) (line : List ℕ) (session : SessionState) → line_at number session.lines ≡ Some line → is_nothing line ≡ false
        → parameters_at number session.lines ≡ Some (count_by is_hole (tokens line)) }
    ensures example { parameters_at 1 (None ∷ Some (codes "INSERT t ('?', ?, ?)") ∷ []) ≡ Some 2 }
    ensures none { parameters_at 0 (None ∷ Some (codes "INSERT t ('?', ?, ?)") ∷ []) ≡ None }
{}
