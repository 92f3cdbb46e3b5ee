//! Each allocation of a call fails in turn. Then everything that the call could have changed is as before, and the call succeeds when it is
//! repeated.
//!
//! One allocation fails in each run, or it and all later ones until a line is written, since some calls try again. If it is before or after
//! the call, the test ends, since other runs fail those of the call. A selection or a join is part of the run of a plan, and is tested with
//! that.
ghost use Rattle.std.specs.Prelude.{◌≤◌};

mod lists;
mod plans;
mod runs;

use mm_query::{Atom, BoundQuery, FieldPlace, ShortList};
use mm_value::{AsValue, Few, Row, Value, compare};
use std::alloc::{AllocError, Global};
use std::io;

/// Writes that an allocation of a call failed and the call is repeated. A run with failed allocations looks for this line.
fn asked_again(rt: &impl Print) -> io::Result<()> {
    rt.println("refused")
}

/// Returns the query with two fields and these atoms.
fn query_of<const N: usize>(
    alloc: Global,
    fields: [FieldPlace; 2],
    atoms: [Atom<FieldPlace>; N],
) -> Result<BoundQuery, AllocError>
    requires { N ≤ 16 }
{
    let fields = fields.to_vec(alloc)?;
    let atoms = Vec::from_array(alloc, atoms)?;
    Ok(BoundQuery {
        distinct: false,
        fields: ShortList::from_vec(fields),
        from: Few::from_vec(Vec::new(alloc)),
        atoms: ShortList::from_vec(atoms),
        order: ShortList::from_vec(Vec::new(alloc)),
    })
}

/// Returns whether rows are these pairs of integers, in this order.
fn are_pairs(rows: &[Row], pairs: &[(i64, i64)]) -> bool {
    for (row, (first, second)) in rows.iter().zip(pairs) {
        let [left, right] = row.values() else {
            return false;
        };
        if !is_number(left, *first) || !is_number(right, *second) {
            return false;
        }
    }
    rows.len() == pairs.len()
}

fn is_number<V: AsValue>(value: &V, number: i64) -> bool {
    compare(value, &Value::Int(number)).is_eq()
}
