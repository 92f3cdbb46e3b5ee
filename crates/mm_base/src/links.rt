//! The foreign keys of all tables, and their ties.
ghost use Rattle.std.specs.Prelude.{◌≡◌, ◌==◌, ◌<◌, ℕ, All, Contains, List, filter, length, map, not, IfOk, OnOk};
ghost use Rattle.std.specs.List.{list_any};
ghost use Rattle.mm_indexed.specs.Index.{EachTurns};
ghost use Rattle.mm_link.specs.Grown.{HasGrown, HasMovedUp};
ghost use Rattle.mm_link.specs.declared.link.Link.{Link as Tied};
ghost use Rattle.mm_tables.specs.Tables.{key_in, slots_in};
ghost use Rattle.mm_link.specs.Links.{RefersTo};
ghost use Rattle.mm_row_order.specs.Refs.{HasRow, row_at};
ghost use Rattle.mm_base.specs.Columns.{differs_in_target, same_column, same_reference};
ghost use Rattle.mm_base.specs.Joined.{BehindEdits, BehindUndo, GrownTo, HasFollowed, IsBehindIn, IsJoined, IsReady};

use crate::whole::read;
use mm_link::Link;
use mm_schema::Reference;
use mm_tables::{Edit, Tables};
use mm_value::RowRef;
use std::alloc::{AllocError, Global};

/// Returns links for new references, with no slot tied. Fails with `AllocError` if an allocation fails.
pub fn new_links(
    alloc: Global,
    tables: &Tables,
    references: &[Reference],
) -> Result<Vec<Link>, AllocError>
    requires { All (λ reference. reference.to < length tables.now.tables) references.now }
    ensures references { IfOk result (λ links. map (λ link. link.reference) links.items ≡ references.now) }
    ensures ready { IfOk result (λ links. All (IsReady tables.now.tables) links.items) }
{
    let mut links = Vec::new(alloc);
    for reference in references {
        let extent = read(tables, reference.to).extent();
        links.push(Link::new(alloc, *reference, extent)?)?;
    }
    Ok(links)
}

/// Drops the links of a table, to which no link refers, and moves the places of later tables forward.
pub fn drop_links(links: &mut Vec<Link>, table: usize)
    ensures { (kept : List Tied) × (kept ≡ filter (λ link. not (link.reference.from == table)) links.old.items)
        × EachTurns (HasMovedUp table) kept links.new.items }
{
    links.retain(|link| link.reference.from != table);
    for link in links.iter_mut() {
        link.move_up(table);
    }
}

/// Reserves entries and counts for `extent` slots of a table in each link. Fails with `AllocError` if an allocation fails. In any case each
/// slot is tied as before.
pub fn reserve_all(
    alloc: Global,
    links: &mut Vec<Link>,
    table: usize,
    extent: usize,
) -> Result<(), AllocError>
    ensures grown { EachTurns HasGrown links.old.items links.new.items }
    ensures room { OnOk result (EachTurns (GrownTo table extent) links.old.items links.new.items) }
{
    for link in links.iter_mut() {
        link.reserve(alloc, table, extent)?;
    }
    Ok(())
}

/// Updates the links of a table after the edits of a command.
pub fn retie_all(links: &mut Vec<Link>, tables: &Tables, table: usize, edits: &[Edit])
    requires { All (IsBehindIn (BehindEdits tables.now.tables edits.now) table tables.now.tables tables.now.log) links.old.items }
    ensures { EachTurns (HasFollowed tables.now.tables tables.now.log) links.old.items links.new.items }
{
    for link in links.iter_mut() {
        retie(link, tables, table, edits);
    }
}

/// Updates a link after the edits of a command, if it is of the table.
fn retie(link: &mut Link, tables: &Tables, table: usize, edits: &[Edit])
    requires { IsBehindIn (BehindEdits tables.now.tables edits.now) table tables.now.tables tables.now.log link.old }
    ensures { HasFollowed tables.now.tables tables.now.log link.old link.new }
{
    if link.reference.from == table {
        let from = read(tables, table);
        let to = read(tables, link.reference.to);
        link.retie(from, to, edits);
    }
}

/// Updates the links of a table after the undo of an edit.
pub fn retie_undone_all(links: &mut Vec<Link>, tables: &Tables, table: usize, edit: Edit)
    requires { All (IsBehindIn (BehindUndo tables.now.tables edit) table tables.now.tables tables.now.log) links.old.items }
    ensures { EachTurns (HasFollowed tables.now.tables tables.now.log) links.old.items links.new.items }
{
    for link in links.iter_mut() {
        retie_undone(link, tables, table, edit);
    }
}

/// Updates a link after the undo of an edit, if it is of the table.
fn retie_undone(link: &mut Link, tables: &Tables, table: usize, edit: Edit)
    requires { IsBehindIn (BehindUndo tables.now.tables edit) table tables.now.tables tables.now.log link.old }
    ensures { HasFollowed tables.now.tables tables.now.log link.old link.new }
{
    if link.reference.from == table {
        let from = read(tables, table);
        let to = read(tables, link.reference.to);
        link.retie_undone(from, to, edit);
    }
}

/// Returns whether a link has the column of a reference.
fn has_column(link: &Link, reference: Reference) -> bool
    ensures { result ≡ same_column reference link.now.reference }
{
    reference.from == link.reference.from && reference.column == link.reference.column
}

/// Returns whether a link is of a reference.
fn is_reference(link: &Link, reference: Reference) -> bool
    ensures { result ≡ same_reference reference link.now.reference }
{
    has_column(link, reference) && reference.to == link.reference.to
}

/// Returns whether a link has the column of a reference and refers to another table.
fn leads_elsewhere(link: &Link, reference: Reference) -> bool
    ensures { result ≡ differs_in_target reference link.now.reference }
{
    has_column(link, reference) && reference.to != link.reference.to
}

/// Returns whether one of the links is of a reference.
pub fn has_reference(links: &[Link], reference: Reference) -> bool
    ensures { result ≡ list_any (λ link. same_reference reference link.reference) links.now }
{
    links.iter().any(|link| is_reference(link, reference))
}

/// Returns whether one of the links has the column of a reference and refers to another table.
pub fn has_other_target(links: &[Link], reference: Reference) -> bool
    ensures { result ≡ list_any (λ link. differs_in_target reference link.reference) links.now }
{
    links.iter().any(|link| leads_elsewhere(link, reference))
}

/// Returns the row that a row in use refers to by a column.
pub fn follow(links: &[Link], tables: &Tables, table: usize, column: usize, at: RowRef) -> RowRef
    requires joined { All (IsJoined tables.now.tables tables.now.log) links.now }
    requires refers { (to : ℕ) × Contains (map (λ link. link.reference) links.now) (record { from = table; column = column; to = to }) }
    requires live { HasRow (slots_in tables.now.tables table) at }
    ensures { (to : ℕ) × Contains (map (λ link. link.reference) links.now) (record { from = table; column = column; to = to })
        × RefersTo column (key_in tables.now.tables to) (slots_in tables.now.tables to) (row_at (slots_in tables.now.tables table) at) result }
{
    for link in links {
        let Reference { from, to, .. } = link.reference;
        if from == table && link.reference.column == column {
            let source = read(tables, from);
            let target = read(tables, to);
            return link.follow(source, target, at);
        }
    }
    unreachable!()
}
