//! The sorted rows of a result.
ghost use Rattle.std.specs.Prelude.{◌≡◌, ◌++◌, ◌*◌, ◌<◌, All, IfOk, IsPermutation, OnErr, OnOk, Some, length, map, slice_get, take};
ghost use Rattle.std.specs.List.{dedup};
ghost use Rattle.std.specs.List.Sorted.{IsSorted};
ghost use Rattle.mm_query.specs.Queries.{same_row};
ghost use Rattle.mm_value.specs.Views.{value_of};
ghost use Rattle.mm_templist.specs.Pieces.{pieces};
ghost use Rattle.mm_templist.specs.Runs.{referred, run_from};
ghost use Rattle.mm_templist.specs.Shown.{HasPrefix, in_shown_order, placed_cmp, placed_row};

use crate::row_order::{compare_by_columns, compare_values, leading_prefix};
use mm_query::RowBuffer;
use mm_value::ValueRef;
use smallvec::SmallVec;
use std::alloc::{AllocError, Global};
use std::cmp::Ordering;
use std::marker::Model;

/// The rows of a result in order. Their values are references to where they are stored.
///
/// No row has an allocation of its own: the values of all rows are in one vector, in the order in which they were read. Only the positions
/// of the rows in it are sorted. The positions of up to four rows are stored inline.
#[derive(Drop)]
pub struct ShownRows<'s> {
    /// The number of values of each row.
    width: usize,
    /// The values of all rows, row by row, in the order in which the rows were added.
    values: Vec<ValueRef<'s>>,
    /// The position of each row, in the order of the result.
    places: Places,
}

/// A row: the position where its values begin, and the prefix of the value by which the row is sorted first.
#[derive(Clone, Copy, Default)]
struct Placed {
    prefix: u64,
    start: usize,
}

/// The positions of rows.
type Places = SmallVec<Placed, 4>;

impl<'s> Model for ShownRows<'s> {
    ghost use Rattle.std.specs.Prelude.{List, map};
    ghost use Rattle.mm_value.specs.declared.values.Value.{Value as Val};
    ghost use Rattle.mm_templist.specs.Runs.{run_from};

    ghost Value = { List (List Val) };

    ghost view = { λ s. map (λ placed. run_from s.width s.values.items placed.start) s.places.items };
}

impl<'s> ShownRows<'s> {
    /// Returns `count` rows of this width, whose values are row by row in `values`. The rows are sorted by their values in the columns of
    /// `order`, and then as whole rows. With `distinct`, equal rows are returned once. Fails with `AllocError` if an allocation fails.
    pub fn sorted(
        alloc: Global,
        values: Vec<ValueRef<'s>>,
        width: usize,
        count: usize,
        distinct: bool,
        order: &[usize],
    ) -> Result<ShownRows<'s>, AllocError>
        requires { length values.items ≡ count * width }
        ensures { IfOk result (λ rows. rows ≡ in_shown_order distinct order.now (pieces width count (referred values.entry.items))) }
    {
        let refs = values.as_slice();
        let mut places = placed_rows(alloc, refs, width, count, order)?;
        sort_places(&mut places, refs, width, order);
        if distinct {
            drop_equal_neighbours(&mut places, refs, width);
        }
        Ok(ShownRows {
            width,
            values,
            places,
        })
    }

    /// Returns the number of rows.
    pub fn len(&self) -> usize
        ensures { result ≡ length self.now }
    {
        self.places.len()
    }

    /// Returns the values of the row at a position, from 0.
    pub fn row(&self, i: usize) -> &[ValueRef<'s>]
        requires { i < length self.now }
        ensures { slice_get self.now i ≡ Some (map value_of result.now) }
    {
        run_from(self.values.as_slice(), self.places[i].start, self.width)
    }

    /// Appends copies of the rows, in order, to a buffer. Fails with `AllocError` if an allocation fails; then the previous rows of the
    /// buffer are unchanged, and some of these rows may follow them.
    pub fn copy_into(&self, alloc: Global, buffer: &mut RowBuffer) -> Result<(), AllocError>
        ensures ok { OnOk result (buffer.new ≡ buffer.old ++ self.now) }
        ensures err { OnErr result (take (length buffer.old) buffer.new ≡ buffer.old) }
    {
        for i in 0..self.len() {
            buffer.push(alloc, self.row(i))?;
        }
        Ok(())
    }
}

/// Returns `width` values from a position on, or as many as there are. Accepts any position, since the sort must be able to compare any
/// two.
fn run_from<'v, 's>(values: &'v [ValueRef<'s>], start: usize, width: usize) -> &'v [ValueRef<'s>]
    ensures { referred result.now ≡ run_from width values.now start }
{
    let rest = &values[start.min(values.len())..];
    &rest[..width.min(rest.len())]
}

/// Returns the positions of `count` rows whose values are row by row in `values`. Fails with `AllocError` if an allocation fails.
fn placed_rows(
    alloc: Global,
    values: &[ValueRef<'_>],
    width: usize,
    count: usize,
    order: &[usize],
) -> Result<Places, AllocError>
    requires { length values.now ≡ count * width }
    ensures rows { IfOk result (λ places. map (placed_row width values.now) places.items ≡ pieces width count (referred values.now)) }
    ensures prefixes { IfOk result (λ places. All (HasPrefix order.now width values.now) places.items) }
{
    let mut places = SmallVec::with_capacity(alloc, count)?;
    for i in 0..count {
        let start = i * width;
        let prefix = leading_prefix(order, run_from(values, start, width));
        places.push(Placed { prefix, start })?;
    }
    Ok(places)
}

/// Compares the rows at two positions. Most differ in their prefixes, so that their values need not be read.
fn compare_placed(
    values: &[ValueRef<'_>],
    width: usize,
    order: &[usize],
    a: &Placed,
    b: &Placed,
) -> Ordering
    ensures { result ≡ placed_cmp order.now width values.now a.now b.now }
{
    match a.prefix.cmp(&b.prefix) {
        Ordering::Equal => {
            let left = run_from(values, a.start, width);
            compare_by_columns(order, left, run_from(values, b.start, width))
        }
        ordering => ordering,
    }
}

/// Sorts positions by their rows. Allocates nothing. Makes O(n log n) comparisons for n positions.
fn sort_places(places: &mut Places, values: &[ValueRef<'_>], width: usize, order: &[usize])
    ensures permutation { IsPermutation places.old.items places.new.items }
    ensures sorted { IsSorted (placed_cmp order.now width values.now) places.new.items }
{
    places.sort_unstable_by(|a, b| compare_placed(values, width, order, a, b));
}

/// Returns whether the rows at two positions are equal.
fn are_equal(values: &[ValueRef<'_>], width: usize, a: &Placed, b: &Placed) -> bool
    ensures { result ≡ same_row (placed_row width values.now a.now) (placed_row width values.now b.now) }
{
    let left = run_from(values, a.start, width);
    compare_values(left, run_from(values, b.start, width)).is_eq()
}

/// Removes each position whose row equals the row before it.
fn drop_equal_neighbours(places: &mut Places, values: &[ValueRef<'_>], width: usize)
    ensures { places.new.items ≡ dedup (λ a b. same_row (placed_row width values.now a) (placed_row width values.now b)) places.old.items }
{
    places.dedup_by(|later, kept| are_equal(values, width, later, kept));
}
