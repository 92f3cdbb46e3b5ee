//! The checks of foreign keys before a command's edits are made.
ghost use Rattle.std.specs.Prelude.{◌≡◌, All};
ghost use Rattle.std.specs.Bool.{OnFalse};
ghost use Rattle.std.specs.List.{list_any};
ghost use Rattle.mm_partition.specs.Places.{slot_at};
ghost use Rattle.mm_indexed.specs.RowLists.{rows_of};
ghost use Rattle.mm_indexed.specs.Twins.{AreApart};
ghost use Rattle.mm_link.specs.Edited.{coming};
ghost use Rattle.mm_link.specs.Links.{Follows, HasTargetRow};
ghost use Rattle.mm_link.specs.Targets.{SparesReferred, pair_of};
ghost use Rattle.mm_schema.specs.References.{lacks_target_row, loses_target};
ghost use Rattle.mm_tables.specs.Commands.{IsCommand};
ghost use Rattle.mm_tables.specs.Edits.{Fits};
ghost use Rattle.mm_tables.specs.Tables.{key_in, keys_of, slots_in, state_of};
ghost use Rattle.mm_base.specs.Bases.{AreLawful};
ghost use Rattle.mm_base.specs.Joined.{IsJoined};
ghost use Rattle.mm_base.specs.Orphans.{BringsTargets, SparesAll, brings_orphan as brings, leaves_orphan as leaves};

use crate::whole::lawful_rows;
use mm_indexed::IndexedRows;
use mm_link::Link;
use mm_tables::{Edit, Tables};

/// Returns whether some new row of a table's edits refers to no row.
pub fn bring_orphans(links: &[Link], tables: &Tables, table: usize, edits: &[Edit]) -> bool
    requires lawful { AreLawful (keys_of tables.now.tables) (state_of tables.now.tables) }
    requires joined { All (IsJoined tables.now.tables tables.now.log) links.now }
    requires command { IsCommand (key_in tables.now.tables table) edits.now (slots_in tables.now.tables table) }
    ensures rows { result ≡ list_any (λ link. brings tables.now.tables table edits.now link.reference) links.now }
    ensures found { OnFalse result (All (BringsTargets tables.now.tables table edits.now) links.now) }
{
    for link in links {
        if brings_orphan(link, tables, table, edits) {
            return true;
        }
    }
    false
}

/// Returns whether some new row of a table's edits refers to no row by a link.
fn brings_orphan(link: &Link, tables: &Tables, table: usize, edits: &[Edit]) -> bool
    requires lawful { AreLawful (keys_of tables.now.tables) (state_of tables.now.tables) }
    requires joined { IsJoined tables.now.tables tables.now.log link.now }
    requires command { IsCommand (key_in tables.now.tables table) edits.now (slots_in tables.now.tables table) }
    ensures rows { result ≡ brings tables.now.tables table edits.now link.now.reference }
    ensures found { OnFalse result (BringsTargets tables.now.tables table edits.now link.now) }
{
    if link.reference.from != table {
        return false;
    }
    let from = lawful_rows(tables, table);
    let to = lawful_rows(tables, link.reference.to);
    brings_any_orphan(link, from, to, edits)
}

/// Returns whether one of these edits of the referring table has a new row that refers to no row.
fn brings_any_orphan(link: &Link, from: &IndexedRows, to: &IndexedRows, edits: &[Edit]) -> bool
    requires follows { Follows link.now.reference.column to.now.key (slot_at from.now.places) (slot_at to.now.places) link.now.ties }
    requires fits { All (Fits from.now.key (slot_at from.now.places)) edits.now }
    ensures rows { result ≡ list_any (λ e. list_any (lacks_target_row link.now.reference.column to.now.key (rows_of to.now))
        (coming (slot_at from.now.places) e)) edits.now }
    ensures found { OnFalse result (All (λ e. All (HasTargetRow link.now.reference.column to.now.key (slot_at to.now.places))
        (coming (slot_at from.now.places) e)) edits.now) }
{
    for edit in edits {
        if link.brings_orphan(from, to, *edit) {
            return true;
        }
    }
    false
}

/// Returns whether an edit of a table deletes a referenced row or changes its key.
pub fn leave_orphans(links: &[Link], tables: &Tables, table: usize, edits: &[Edit]) -> bool
    requires lawful { AreLawful (keys_of tables.now.tables) (state_of tables.now.tables) }
    requires joined { All (IsJoined tables.now.tables tables.now.log) links.now }
    requires command { IsCommand (key_in tables.now.tables table) edits.now (slots_in tables.now.tables table) }
    ensures rows { result ≡ list_any (λ link. leaves tables.now.tables table edits.now link.reference) links.now }
    ensures found { OnFalse result (All (SparesAll tables.now.tables table edits.now) links.now) }
{
    for link in links {
        if leaves_orphan(link, tables, table, edits) {
            return true;
        }
    }
    false
}

/// Returns whether an edit of a table deletes a row that is referenced by a link, or changes its key.
fn leaves_orphan(link: &Link, tables: &Tables, table: usize, edits: &[Edit]) -> bool
    requires lawful { AreLawful (keys_of tables.now.tables) (state_of tables.now.tables) }
    requires joined { IsJoined tables.now.tables tables.now.log link.now }
    requires command { IsCommand (key_in tables.now.tables table) edits.now (slots_in tables.now.tables table) }
    ensures rows { result ≡ leaves tables.now.tables table edits.now link.now.reference }
    ensures found { OnFalse result (SparesAll tables.now.tables table edits.now link.now) }
{
    if link.reference.to == table {
        let from = lawful_rows(tables, link.reference.from);
        let to = lawful_rows(tables, link.reference.to);
        return leaves_any_orphan(link, from, to, edits);
    }
    false
}

/// Returns whether one of these edits of the target table deletes a referenced row or changes its key.
fn leaves_any_orphan(link: &Link, from: &IndexedRows, to: &IndexedRows, edits: &[Edit]) -> bool
    requires follows { Follows link.now.reference.column to.now.key (slot_at from.now.places) (slot_at to.now.places) link.now.ties }
    requires fits { All (Fits to.now.key (slot_at to.now.places)) edits.now }
    requires apart { AreApart to.now.key (slot_at to.now.places) }
    ensures rows { result ≡ list_any (λ e. loses_target link.now.reference.column to.now.key (rows_of from.now)
        (pair_of (slot_at to.now.places) e).0 (pair_of (slot_at to.now.places) e).1) edits.now }
    ensures found { OnFalse result (All (SparesReferred link.now.reference.column to.now.key (slot_at from.now.places)
        (slot_at to.now.places)) edits.now) }
{
    for edit in edits {
        if link.leaves_orphan(from, to, *edit) {
            return true;
        }
    }
    false
}
