//! The place in a line to show in an error message.
ghost use Rattle.std.specs.Prelude.{◌≤◌, length};

use mm_lang::{PlacedName, names_in, place_of_limit, place_of_syntax_error};
use mm_schema::{Catalog, NameRef};
use mm_value::Refusal;
use std::alloc::Global;

/// Returns the byte offset in a line to show in the message of a refusal: where reading stopped, a literal past its limit, or a name that
/// does not exist. Otherwise returns 0. The offset is a hint, and at most the length of the line.
pub(crate) fn place_of_refusal(
    alloc: Global,
    catalog: &Catalog,
    line: &[u8],
    refusal: Refusal,
) -> usize
    ensures { result ≤ length line.now }
{
    match refusal {
        Refusal::Syntax => place_of_syntax_error(alloc, line),
        Refusal::NumberOutOfRange | Refusal::TextTooLong => place_of_limit(alloc, line),
        Refusal::NoSuchTable
        | Refusal::NoSuchColumn
        | Refusal::NoSuchIndex
        | Refusal::NoSuchStandingQuery
        | Refusal::NoSuchAlias
        | Refusal::NoSuchSavepoint => place_of_unknown_name(alloc, catalog, line),
        _ => 0,
    }
}

/// Returns the place of the first name of a line that is neither in the catalog nor an alias of the line, or 0. Skips the name that INDEX
/// or WATCH creates, and all names of TABLE except those after REF.
fn place_of_unknown_name(alloc: Global, catalog: &Catalog, line: &[u8]) -> usize
    ensures { result ≤ length line.now }
{
    let Ok(names) = names_in(alloc, line) else {
        return 0;
    };
    for found in names.as_slice() {
        let is_known = is_made(line, found.place)
            || is_in_catalog(catalog, &found.name)
            || is_alias(line, names.as_slice(), &found.name);
        if !is_known {
            return found.place.min(line.len());
        }
    }
    0
}

/// Returns whether the line creates the name at a place: a name directly after INDEX or WATCH, or a name of a TABLE that is not after REF.
fn is_made(line: &[u8], place: usize) -> bool {
    let front = line[..place.min(line.len())].trim_ascii();
    let is_of_table = line.trim_ascii_start().starts_with(b"TABLE") && !front.ends_with(b"REF");
    is_of_table || front == b"INDEX".as_slice() || front == b"WATCH".as_slice()
}

/// Returns whether a table, a column, an index or a standing query has the name.
fn is_in_catalog(catalog: &Catalog, name: &NameRef<'_>) -> bool {
    let is_of_table = catalog.tables().iter().any(|table| {
        let definition = &table.definition;
        *name == definition.name.as_ref()
            || definition
                .columns
                .as_slice()
                .iter()
                .any(|column| *name == column.name.as_ref())
            || table
                .indexes
                .as_slice()
                .iter()
                .any(|index| *name == index.name.as_ref())
    });
    is_of_table
        || catalog
            .standing()
            .iter()
            .any(|query| *name == query.name.as_ref())
}

/// Returns whether the name follows another name somewhere in the line, as an alias follows its table.
fn is_alias(line: &[u8], names: &[PlacedName<'_>], name: &NameRef<'_>) -> bool {
    names.windows(2).any(|pair| match pair {
        [before, after] => *name == after.name && are_neighbours(line, before, after),
        _ => false,
    })
}

/// Returns whether there are only blanks between two names.
fn are_neighbours(line: &[u8], before: &PlacedName<'_>, after: &PlacedName<'_>) -> bool {
    let end = before.place.saturating_add(before.name.bytes().len());
    line.get(end..after.place)
        .is_some_and(|gap| gap.iter().all(|byte| matches!(byte, b' ' | b'\t')))
}
