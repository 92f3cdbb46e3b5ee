//! Laws of dumps.
ghost use Rattle.std.specs.Prelude.{◌≡◌, ◌≤◌, ◌++◌, ◌∷◌, ℕ, [], All, List, None, Ok, false, length, map};
ghost use Rattle.std.specs.List.{flat_map};
ghost use Rattle.mm_value.specs.declared.values.Value.{Value as Val};
ghost use Rattle.mm_schema.specs.declared.index.IndexDef.{IndexDef};
ghost use Rattle.mm_schema.specs.declared.table.TableDef.{TableDef};
ghost use Rattle.mm_query.specs.Machine.{after_all, step};
ghost use Rattle.mm_query.specs.Resolving.{exceeds_query_limits};
ghost use Rattle.mm_query.specs.State.{State, first_state};
ghost use Rattle.mm_query.specs.declared.command.Command.{Command};
ghost use Rattle.mm_query.specs.declared.command.Command.TheVariants.{Define};
ghost use Rattle.mm_query.specs.declared.command.Definition.TheVariants.{Watch as Create};
ghost use Rattle.mm_query.specs.declared.query.Query.{Query as AnyQuery};
ghost use Rattle.mm_lang.specs.Lines.{lines_of};
ghost use Rattle.mm_lang.specs.Reading.{reading};
ghost use Rattle.mm_lang.specs.Templates.{template_of};
ghost use Rattle.mm_dump.specs.DumpText.{dump_text};
ghost use Rattle.mm_dump.specs.Dumps.{AreGroups, FitsIfMany, Groups, IsDump, IsPrintableState, after_lines, script_of};
ghost use Rattle.mm_dump.specs.Entries.{Entry, FitsLine, HasShortAliases, Index, IsPrintable, Rows, Table, Watch, entry_command, entry_text};
ghost use Rattle.mm_dump.specs.Inserts.{put_texts};
ghost use Rattle.mm_dump.specs.Places.{ArePieces, dump_rest, dump_start};
ghost use Rattle.mm_dump.specs.Texts.{insert_text, watch_text};
ghost use Rattle.mm_dump.specs.Writable.{IsWritable, IsWritableState};
ghost use Rattle.mm_dump.specs.declared.place.DumpPlace.{DumpPlace as Place};

use mm_lang::definitions_are_listed_as_written;
use mm_laws::rows_keep_their_targets;

/// Each line of a dump reads as the command of its entry.
pub fn entries_read_as_commands()
    ensures { (entry : Entry) → IsPrintable entry → FitsLine entry → reading (entry_text entry) ≡ Ok (entry_command entry) }
{
    definitions_are_listed_as_written();
}

/// A dump restores. From each state that commands lead to, the commands of its dump lead from the first state to the same state, outside a
/// transaction: to the same tables with their indexes, the same rows, and the same standing queries. Rows may be divided into any groups.
pub fn dumps_restore()
    ensures { (commands : List Command) (entries : List Entry) → let state = after_all commands first_state in
        IsDump state entries → after_all (map entry_command entries) first_state ≡ record state { saved = None } }
{
    rows_keep_their_targets();
}

/// Lines that restore: the lines of a dump, read one after another in the empty database where no allocation fails, lead to the dumped
/// state, outside a transaction.
pub fn dumped_lines_restore()
    ensures { (commands : List Command) (entries : List Entry) → let state = after_all commands first_state in
        IsDump state entries → All IsPrintable entries → All FitsLine entries
        → after_lines (map entry_text entries) first_state ≡ record state { saved = None } }
{
    entries_read_as_commands();
    dumps_restore();
}

/// Scripts that restore: the bytes of a dump, as the input of the empty database where no allocation fails, lead to the dumped state,
/// outside a transaction.
pub fn dumped_scripts_restore()
    ensures lines { (entries : List Entry) → All IsPrintable entries → lines_of (script_of entries) ≡ map entry_text entries }
    ensures state { (commands : List Command) (entries : List Entry) → let state = after_all commands first_state in
        IsDump state entries → All IsPrintable entries → All FitsLine entries
        → after_lines (lines_of (script_of entries)) first_state ≡ record state { saved = None } }
{
    dumped_lines_restore();
}

/// A table of at most 16 columns fits a line, and so do an index, a row of at most 16 values, and a standing query within the limits of
/// queries whose aliases have at most 6 bytes.
pub fn entries_fit_lines()
    ensures tables { (definition : TableDef) → IsPrintable (Table definition) → length definition.columns ≤ 16 → FitsLine (Table definition) }
    ensures indexes { (index : IndexDef) → IsPrintable (Index index) → FitsLine (Index index) }
    ensures rows { (table : List ℕ) (row : List Val) → IsPrintable (Rows table (row ∷ [])) → length row ≤ 16 → FitsLine (Rows table (row ∷ [])) }
    ensures queries { (name : List ℕ) (query : AnyQuery) → IsPrintable (Watch name query) → exceeds_query_limits query ≡ false → HasShortAliases query
        → FitsLine (Watch name query) }
{}

/// All entries of a dump are printable, if all names of the dumped state are names and all of its values can be stored.
pub fn printable_states_have_printable_dumps()
    ensures { (commands : List Command) (entries : List Entry) → let state = after_all commands first_state in
        IsPrintableState state → IsDump state entries → All IsPrintable entries }
{
    rows_keep_their_targets();
}

/// Rows that are put one after another are the INSERT lines of groups of these rows. Each line of several rows has at most 4,096 bytes. So
/// has each line of one row, if each row alone fits a line.
pub fn rows_are_put_in_lines()
    ensures groups { (table : List ℕ) (rows : List (List Val)) → (groups : Groups) × AreGroups rows groups × All (FitsIfMany table) groups
        × (put_texts table rows ≡ flat_map (λ (group : List (List Val)). insert_text table group ++ 10 ∷ []) groups) }
    ensures fit { (table : List ℕ) (rows : List (List Val)) (groups : Groups) → AreGroups rows groups → All (FitsIfMany table) groups
        → All (λ (row : List Val). FitsLine (Rows table (row ∷ []))) rows → All (λ (group : List (List Val)). FitsLine (Rows table group)) groups }
{}

/// The WATCH of a dump is shortest: no line that reads as the WATCH of a query has fewer bytes.
pub fn watch_lines_are_shortest()
    ensures { (line name : List ℕ) (query : AnyQuery) → reading line ≡ Ok (Define (Create (record { name = name; query = query })))
        → length (watch_text name query) ≤ length line }
{}

/// Each line, perhaps with holes, reads as a command that can be written.
pub fn lines_read_as_writable_commands()
    ensures lines { (line : List ℕ) (command : Command) → reading line ≡ Ok command → IsWritable command }
    ensures templates { (line : List ℕ) (command : Command) → template_of line ≡ Ok command → IsWritable command }
{}

/// Commands that can be written lead to states that can be written, from the first state, and after any other commands from a state that
/// can be written.
pub fn writable_commands_lead_to_writable_states()
    ensures first { IsWritableState first_state }
    ensures step { (commands : List Command) (command : Command) → let state = after_all commands first_state in
        IsWritable command → IsWritableState state → IsWritableState (step command state).state }
    ensures all { (commands : List Command) → All IsWritable commands → IsWritableState (after_all commands first_state) }
{}

/// The bytes of `dump_text` are those of a dump. All its entries are printable and fit lines, if the state can be written.
pub fn written_bytes_are_a_dump()
    ensures { (commands : List Command) → let state = after_all commands first_state in
        (entries : List Entry) × IsDump state entries × (dump_text state ≡ script_of entries)
        × (IsWritableState state → All IsPrintable entries × All FitsLine entries) }
{
    rows_keep_their_targets();
}

/// The bytes of `dump_text`, as the input of the empty database where no allocation fails, lead to the dumped state, outside a transaction,
/// if the state can be written or lines lead to it.
pub fn written_dumps_restore()
    ensures state { (commands : List Command) → let state = after_all commands first_state in
        IsWritableState state → after_lines (lines_of (dump_text state)) first_state ≡ record state { saved = None } }
    ensures lines { (lines : List (List ℕ)) → let state = after_lines lines first_state in
        after_lines (lines_of (dump_text state)) first_state ≡ record state { saved = None } }
{
    written_bytes_are_a_dump();
    lines_read_as_writable_commands();
    writable_commands_lead_to_writable_states();
    dumped_scripts_restore();
}

/// From the start of a dump on, all of `dump_text` remains. Pieces that lead, one after another, from the start to a place where nothing
/// remains are `dump_text`.
pub fn pieces_are_the_dump()
    ensures start { (state : State) → dump_rest state dump_start ≡ dump_text state }
    ensures pieces { (state : State) (pieces : List (List ℕ)) (place : Place) → ArePieces state pieces dump_start place → dump_rest state place ≡ []
        → flat_map (λ (piece : List ℕ). piece) pieces ≡ dump_text state }
{}

/// Pieces that lead, one after another, from the start of a dump to a place where nothing remains restore: as the input of the empty
/// database where no allocation fails, they lead to the dumped state, outside a transaction, if lines lead to it.
pub fn pieces_restore()
    ensures { (lines pieces : List (List ℕ)) (place : Place) → let state = after_lines lines first_state in
        ArePieces state pieces dump_start place → dump_rest state place ≡ []
        → after_lines (lines_of (flat_map (λ (piece : List ℕ). piece) pieces)) first_state ≡ record state { saved = None } }
{
    pieces_are_the_dump();
    written_dumps_restore();
}
