//! Laws of the rows that calls read into cells, and of the runs that they make.
ghost use Rattle.std.specs.Prelude.{◌≡◌, ◌≤◌, ◌<◌, ◌⊎◌, ℕ, List, [], ◌∷◌, drop, length, take};
ghost use Rattle.mm_value.specs.declared.values.Value.{Value};
ghost use Rattle.mm_session.specs.Calls.{LeadTo, SessionCall};
ghost use Rattle.mm_session.specs.Calls.SessionCall.{Append, Execute, Finalize, Prepare, Release};
ghost use Rattle.mm_session.specs.Session.{SessionState};
ghost use Rattle.mm_session.specs.declared.column_array.ColumnArray.{ColumnArray};
ghost use Rattle.mmdb_c.specs.Appending.{AppendsColumns};
ghost use Rattle.mmdb_c.specs.Calls.{Executes, ExplainsCells, Prepares, ReleasesName, RunsCells, RunsRows, TakesStatement};
ghost use Rattle.mmdb_c.specs.Cells.{StandFor};
ghost use Rattle.mmdb_c.specs.Loading.{LoadsScript};
ghost use Rattle.mmdb_c.specs.Replies.{ReadsRows};
ghost use Rattle.mmdb_c.specs.Statuses.{done, first_refusal_number};
ghost use Rattle.mmdb_c.specs.declared.cell.Cell.{Cell};

/// Worked examples of a reply with three rows of two values. From the second row on, 5 cells take two rows, and the last cell is unchanged;
/// 3 cells take one row; 1 cell takes none. From the end on there is no row.
pub fn whole_rows_are_read()
    ensures two { (a b c d e f : Value) (old new : List Cell) (count : ℕ) → length old ≡ 5 → length new ≡ 5
        → ReadsRows ((a ∷ b ∷ []) ∷ (c ∷ d ∷ []) ∷ (e ∷ f ∷ []) ∷ []) 1 old new count
        → (count ≡ 2) × StandFor (take 4 new) (c ∷ d ∷ e ∷ f ∷ []) × (drop 4 new ≡ drop 4 old) }
    ensures one { (a b c d e f : Value) (old new : List Cell) (count : ℕ) → length old ≡ 3 → length new ≡ 3
        → ReadsRows ((a ∷ b ∷ []) ∷ (c ∷ d ∷ []) ∷ (e ∷ f ∷ []) ∷ []) 1 old new count
        → (count ≡ 1) × StandFor (take 2 new) (c ∷ d ∷ []) × (drop 2 new ≡ drop 2 old) }
    ensures none { (a b c d e f : Value) (old new : List Cell) (count : ℕ) → length old ≡ 1 → length new ≡ 1
        → ReadsRows ((a ∷ b ∷ []) ∷ (c ∷ d ∷ []) ∷ (e ∷ f ∷ []) ∷ []) 1 old new count → (count ≡ 0) × (new ≡ old) }
    ensures past { (a b c d e f : Value) (old new : List Cell) (count : ℕ)
        → ReadsRows ((a ∷ b ∷ []) ∷ (c ∷ d ∷ []) ∷ (e ∷ f ∷ []) ∷ []) 3 old new count → (count ≡ 0) × (new ≡ old) }
{}

/// Worked examples of 3 cells in rows of 2. If all runs are done, there are two: with the first two cells, and then with the last one. If
/// one fails, the runs before it are counted. Without cells there is no run.
pub fn rows_of_cells_are_run_in_order()
    ensures all { (number : ℕ) (a b c : Cell) (count : ℕ) (old new : SessionState) → RunsRows number 2 count (a ∷ b ∷ c ∷ []) done old new
        → (between : SessionState) × (first : ℕ) × (second : ℕ) × (count ≡ 2) × (first < first_refusal_number) × (second < first_refusal_number)
        × RunsCells number (a ∷ b ∷ []) first old between × RunsCells number (c ∷ []) second between new }
    ensures stopped { (number : ℕ) (a b c : Cell) (count status : ℕ) (old new : SessionState) → RunsRows number 2 count (a ∷ b ∷ c ∷ []) status old new
        → first_refusal_number ≤ status → ((count ≡ 0) × RunsCells number (a ∷ b ∷ []) status old new)
        ⊎ ((count ≡ 1) × (between : SessionState) × (first : ℕ) × (first < first_refusal_number)
        × RunsCells number (a ∷ b ∷ []) first old between × RunsCells number (c ∷ []) status between new) }
    ensures none { (number count status : ℕ) (old new : SessionState) → RunsRows number 2 count [] status old new
        → (count ≡ 0) × (status ≡ done) × (new ≡ old) }
{}

/// The effect of a call of C on a session is that of calls on the session: the call of the same name, a run for each row of cells, an
/// execution for each line of a script, or no call if a cell is refused.
pub fn calls_of_c_are_calls_on_a_session()
    ensures execute { (line : List ℕ) (status : ℕ) (old new : SessionState) → Executes line status old new → LeadTo (Execute line ∷ []) old new }
    ensures load { (script : List ℕ) (lines status : ℕ) (old new : SessionState) → LoadsScript script lines status old new
        → (calls : List SessionCall) × LeadTo calls old new }
    ensures append { (table : List ℕ) (columns : List ColumnArray) (status : ℕ) (old new : SessionState)
        → AppendsColumns table columns status old new → LeadTo (Append table columns ∷ []) old new }
    ensures prepare { (line : List ℕ) (number_old number_new status : ℕ) (old new : SessionState)
        → Prepares line number_old number_new status old new → LeadTo (Prepare line ∷ []) old new }
    ensures run { (number : ℕ) (cells : List Cell) (status : ℕ) (old new : SessionState) → RunsCells number cells status old new
        → (calls : List SessionCall) × LeadTo calls old new }
    ensures run_many { (number width count : ℕ) (cells : List Cell) (status : ℕ) (old new : SessionState)
        → RunsRows number width count cells status old new → (calls : List SessionCall) × LeadTo calls old new }
    ensures explain { (number : ℕ) (cells : List Cell) (status : ℕ) (old new : SessionState) → ExplainsCells number cells status old new
        → (calls : List SessionCall) × LeadTo calls old new }
    ensures finalize { (number status : ℕ) (old new : SessionState) → TakesStatement number status old new → LeadTo (Finalize number ∷ []) old new }
    ensures release { (name : List ℕ) (status : ℕ) (old new : SessionState) → ReleasesName name status old new
        → LeadTo (Release name ∷ []) old new }
{}
