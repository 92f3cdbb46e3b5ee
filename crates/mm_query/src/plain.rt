//! Evaluation of a query on each combination of rows.
ghost use Rattle.std.specs.Prelude.{◌≡◌, ◌≤◌, ◌++◌, ◌∷◌, [], length, map, IfOk, OnErr, OnOk};
ghost use Rattle.mm_schema.specs.Refused.{AnswersDue, first_refusal};
ghost use Rattle.mm_schema.specs.Rows.{most_rows};
ghost use Rattle.mm_query.specs.Queries.{bag_of, rows_read, size_conditions};
ghost use Rattle.mm_query.specs.Walk.{found_behind};

use crate::bound_query::BoundQuery;
use crate::combination::{none_fails, values_of};
use mm_schema::MAX_ROWS;
use mm_value::{Refusal, Row};
use std::alloc::{AllocError, Global};
use std::marker::Model;

/// The maximum number of combinations that match a query, equal to the maximum number of rows of a table.
pub const MAX_COMBINATIONS: usize = MAX_ROWS;

/// The rows of each table of FROM.
#[derive(Drop)]
pub struct PlainRows<'a> {
    lists: Vec<&'a [Row]>,
}

impl<'a> Model for PlainRows<'a> {
    ghost use Rattle.std.specs.Prelude.{List, map};
    ghost use Rattle.mm_value.specs.declared.values.Value.{Value as Val};

    ghost Value = { List (List (List Val)) };

    ghost view = { λ p. map (λ rows. rows.now) p.lists.items };
}

impl<'a> PlainRows<'a> {
    /// Returns an empty list of tables. Allocates nothing.
    pub fn new(alloc: Global) -> PlainRows<'a>
        ensures { result ≡ [] }
    {
        PlainRows {
            lists: Vec::new(alloc),
        }
    }

    /// Appends the rows of the next table of FROM. Fails with `AllocError` if an allocation fails; nothing changes then.
    pub fn add(&mut self, rows: &'a [Row]) -> Result<(), AllocError>
        ensures ok { OnOk result (self.new ≡ self.old ++ rows.now ∷ []) }
        ensures err { OnErr result (self.new ≡ self.old) }
    {
        self.lists.push(rows)?;
        Ok(())
    }
}

/// Returns the projected rows of the combinations that match a query, in the order of the cross product. The combinations of a table's
/// first row precede those of its second row, and so on. Fails with `ResultTooLarge` if more than 1,048,576 combinations match. May instead
/// fail with `Memory`. Tests every combination, so it is meant for small tables and for checking other evaluations. Stores one combination
/// at a time.
pub fn plain_eval(alloc: Global, query: &BoundQuery, rows: &PlainRows) -> Result<Vec<Row>, Refusal>
    ensures due { AnswersDue (first_refusal (size_conditions (bag_of query.now rows.now))) result }
    ensures ok { IfOk result (λ found. found.items ≡ bag_of query.now rows.now) }
{
    let lists = rows.lists.as_slice();
    let mut chosen = Vec::with_capacity(alloc, lists.len())?;
    let mut found = Vec::new(alloc);
    walk(alloc, query, lists, &mut chosen, &mut found)?;
    Ok(found)
}

/// Appends the projected rows of the matching combinations of the chosen rows with one row of each list. Restores `chosen` on success.
fn walk<'a>(
    alloc: Global,
    query: &BoundQuery,
    lists: &[&'a [Row]],
    chosen: &mut Vec<Option<&'a Row>>,
    found: &mut Vec<Row>,
) -> Result<(), Refusal>
    requires { length found.old.items ≤ most_rows }
    ensures due { AnswersDue (first_refusal (size_conditions
        (found.old.items ++ found_behind query.now (rows_read (λ row. row.now) chosen.old.items) (map (λ rows. rows.now) lists.now)))) result }
    ensures ok { OnOk result (found.new.items ≡ found.old.items ++ found_behind query.now (rows_read (λ row. row.now) chosen.old.items) (map (λ rows. rows.now) lists.now)) }
    ensures same { OnOk result (chosen.new.items ≡ chosen.old.items) }
{
    let Some((rows, rest)) = lists.split_first() else {
        return add_fitting(alloc, query, chosen, found);
    };
    let rows: &'a [Row] = *rows;
    for row in rows {
        chosen.push(Some(row))?;
        walk(alloc, query, rest, chosen, found)?;
        chosen.pop();
    }
    Ok(())
}

/// Appends the projected row of a combination if it matches.
fn add_fitting(
    alloc: Global,
    query: &BoundQuery,
    chosen: &[Option<&Row>],
    found: &mut Vec<Row>,
) -> Result<(), Refusal>
    requires { length found.old.items ≤ most_rows }
    ensures due { AnswersDue (first_refusal (size_conditions (found.old.items ++ found_behind query.now (rows_read (λ row. row.now) chosen.now) []))) result }
    ensures ok { OnOk result (found.new.items ≡ found.old.items ++ found_behind query.now (rows_read (λ row. row.now) chosen.now) []) }
{
    if !none_fails(query.atoms.as_slice(), chosen) {
        return Ok(());
    }
    if found.len() >= MAX_COMBINATIONS {
        return Err(Refusal::ResultTooLarge);
    }
    found.push(values_of(alloc, query.fields.as_slice(), chosen)?)?;
    Ok(())
}
