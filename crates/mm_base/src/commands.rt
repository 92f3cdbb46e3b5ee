//! The edits of a command, made or refused, and the undo of a log.
ghost use Rattle.std.specs.Prelude.{◌≡◌, ◌+◌, ◌<◌, ◌≤◌, ◌++◌, ℕ, All, Some, None, cond, length, map, take, slice_set, OnOk, OnErr};
ghost use Rattle.std.specs.Result.{result_err};
ghost use Rattle.mm_indexed.specs.Index.{EachTurns};
ghost use Rattle.mm_schema.specs.Refused.{first_refusal};
ghost use Rattle.mm_schema.specs.Rows.{table_rows_conditions};
ghost use Rattle.mm_tables.specs.Commands.{after, IsCommand};
ghost use Rattle.mm_tables.specs.Tables.{HasRoomFor, HoldsAt, KeepsOthers, at_mark, extents_of, key_in, keys_of, logged, shape_of, slots_in, state_of};
ghost use Rattle.mm_value.specs.declared.refusal.Refusal.TheVariants as refusals;
ghost use Rattle.mm_base.specs.Bases.{AreLawful, rows_made, rows_now};
ghost use Rattle.mm_base.specs.Joined.{IsJoined, KeepsSize};

use crate::links::retie_undone_all;
use crate::whole::{are_small, has_too_many};
use mm_link::Link;
use mm_tables::{Edit, Tables};
use mm_value::Refusal;

/// The conditions by which foreign keys refuse a command.
#[derive(Clone, Copy)]
pub struct Orphans {
    /// A new row refers to no row.
    pub lacks: bool,
    /// A referenced row is deleted or gets another key.
    pub leaves: bool,
}

/// Returns the first refusal that is due if no two rows have one key.
fn refusal_of(orphans: Orphans, full: bool) -> Option<Refusal>
    ensures { result ≡ cond orphans.lacks (Some refusals.NoTargetRow) (cond orphans.leaves (Some refusals.RowIsReferenced)
        (cond full (Some refusals.TableFull) None)) }
{
    if orphans.lacks {
        return Some(Refusal::NoTargetRow);
    }
    if orphans.leaves {
        return Some(Refusal::RowIsReferenced);
    }
    if full {
        return Some(Refusal::TableFull);
    }
    None
}

/// Makes the edits of a command in a table. Fails with the first refusal that is due; then tables and log are as before.
pub fn change(
    tables: &mut Tables,
    table: usize,
    edits: &[Edit],
    orphans: Orphans,
) -> Result<(), Refusal>
    requires lawful { AreLawful (keys_of tables.old.tables) (state_of tables.old.tables) }
    requires within { table < length tables.old.tables }
    requires command { IsCommand (key_in tables.old.tables table) edits.now (slots_in tables.old.tables table) }
    requires capacity { HoldsAt (HasRoomFor edits.now) tables.old.tables table }
    requires log_room { length edits.now ≤ tables.old.log_room }
    ensures due { result_err result ≡ first_refusal (table_rows_conditions (key_in tables.old.tables table)
        (rows_made tables.old table edits.now) orphans.lacks orphans.leaves) }
    ensures lawful { AreLawful (keys_of tables.new.tables) (state_of tables.new.tables) }
    ensures rows { OnOk result (rows_now tables.new ≡ slice_set (rows_now tables.old) table (rows_made tables.old table edits.now)) }
    ensures made { OnOk result (state_of tables.new.tables
        ≡ slice_set (state_of tables.old.tables) table (after edits.now (slots_in tables.old.tables table))) }
    ensures log { OnOk result (tables.new.log ≡ tables.old.log ++ map (logged table) edits.now) }
    ensures others { OnOk result (KeepsOthers table tables.old.tables tables.new.tables) }
    ensures log_room { OnOk result (tables.old.log_room ≤ tables.new.log_room + length edits.now) }
    ensures refused { OnErr result (state_of tables.new.tables ≡ state_of tables.old.tables) }
    ensures old_log { OnErr result (tables.new.log ≡ tables.old.log) }
    ensures marks { (earlier : ℕ) → earlier ≤ length tables.old.log → at_mark tables.new earlier ≡ at_mark tables.old earlier }
    ensures shapes { map shape_of tables.new.tables ≡ map shape_of tables.old.tables }
    ensures extents { extents_of tables.new.tables ≡ extents_of tables.old.tables }
{
    let mark = tables.mark();
    if !tables.make(mark, table, edits) {
        return Err(Refusal::DuplicateKey);
    }
    are_small(tables, table);
    let full = has_too_many(tables, table);
    if let Some(refusal) = refusal_of(orphans, full) {
        tables.revert(mark);
        return Err(refusal);
    }
    Ok(())
}

/// Undoes all edits of the log after a mark, newest first, and updates the ties after each.
pub fn undo(tables: &mut Tables, links: &mut Vec<Link>, mark: usize)
    requires mark { mark ≤ length tables.old.log }
    requires joined { All (IsJoined tables.old.tables tables.old.log) links.old.items }
    ensures state { state_of tables.new.tables ≡ at_mark tables.old mark }
    ensures log { tables.new.log ≡ take mark tables.old.log }
    ensures marks { (earlier : ℕ) → earlier ≤ mark → at_mark tables.new earlier ≡ at_mark tables.old earlier }
    ensures shapes { map shape_of tables.new.tables ≡ map shape_of tables.old.tables }
    ensures extents { extents_of tables.new.tables ≡ extents_of tables.old.tables }
    ensures joined { All (IsJoined tables.new.tables tables.new.log) links.new.items }
    ensures links { EachTurns KeepsSize links.old.items links.new.items }
{
    while tables.mark() > mark {
        tables.is_logged();
        let undone = tables.undo_last();
        retie_undone_all(links, tables, undone.table as usize, undone.edit);
    }
}
