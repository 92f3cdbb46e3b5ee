//! Measures the search for inequalities that prove that a row cannot change a query's result.
use crate::report::{Pass, print};
use mm_query::{Atom, BoundQuery, Comparison, FieldPlace, FromItem, Operand, ShortList};
use mm_relevance::irrelevant;
use mm_schema::Name;
use mm_value::{Few, Row, Value};
use std::alloc::Global;
use std::time::Instant;

/// The number of searches for each row.
const TIMES: usize = 100_000;

/// The number of columns in a ring of equalities.
const RING: usize = 16;

/// Searches for a row that may match and for one that cannot, with two atoms and with a ring of sixteen equalities.
pub(crate) fn measure(rt: &HostRuntime) -> anyhow::Result<()> {
    time_two_atoms(rt, "relevant", 1)?;
    time_two_atoms(rt, "irrelevant", 7)?;
    let round = 1 - RING as i64;
    time_ring(rt, "relevant", round)?;
    time_ring(rt, "irrelevant", round - 1)
}

fn time_two_atoms(rt: &HostRuntime, row: &str, key: i64) -> anyhow::Result<()> {
    let bound = narrow(rt.alloc())?;
    time(rt, "two_atoms", row, &bound, key)
}

fn time_ring(rt: &HostRuntime, row: &str, last: i64) -> anyhow::Result<()> {
    let bound = ring(rt.alloc(), last)?;
    time(rt, "ring", row, &bound, 1)
}

fn time(
    rt: &HostRuntime,
    query: &str,
    row: &str,
    bound: &BoundQuery,
    key: i64,
) -> anyhow::Result<()> {
    let alloc = rt.alloc();
    let asked = row_of(alloc, key)?;
    let start = Instant::now(rt)?;
    let mut edges = 0usize;
    for _ in 0..TIMES {
        edges = edges.wrapping_add(edges_for(alloc, bound, &asked)?);
    }
    let pass = Pass::new(query, row, TIMES);
    print(rt, &pass, start.elapsed(rt)?, edges)?;
    Ok(())
}

/// Returns the number of edges of the cycle of a row.
fn edges_for(alloc: Global, query: &BoundQuery, row: &Row) -> anyhow::Result<usize> {
    match irrelevant(alloc, query, 0, row)? {
        Some(cycle) => Ok(cycle.edges.len()),
        None => Ok(0),
    }
}

/// Returns `a.c0 < b.c0 AND b.c0 < 3`: an atom between two rows, and a narrow range of the second.
fn narrow(alloc: Global) -> anyhow::Result<BoundQuery> {
    let mut atoms = Vec::with_capacity(alloc, 2)?;
    atoms.push(Atom {
        left: field(0, 0),
        comparison: Comparison::Less,
        right: Operand::Column(field(1, 0)),
    })?;
    atoms.push(Atom {
        left: field(1, 0),
        comparison: Comparison::Less,
        right: Operand::Literal(Value::Int(3)),
    })?;
    query(alloc, atoms)
}

/// Returns `b.c0 = b.c1 + 1 AND b.c1 = b.c2 + 1 AND .. AND b.c15 = b.c0 + last`. It can hold only if the numbers add up to 0.
fn ring(alloc: Global, last: i64) -> anyhow::Result<BoundQuery> {
    let mut atoms = Vec::with_capacity(alloc, RING)?;
    for column in 0..RING {
        let added = if column + 1 < RING { 1 } else { last };
        atoms.push(Atom {
            left: field(1, column),
            comparison: Comparison::Equal,
            right: Operand::Shifted(field(1, (column + 1) % RING), added),
        })?;
    }
    query(alloc, atoms)
}

fn field(place: usize, column: usize) -> FieldPlace {
    FieldPlace { place, column }
}

/// Returns a query over two tables.
fn query(alloc: Global, atoms: Vec<Atom<FieldPlace>>) -> anyhow::Result<BoundQuery> {
    let Some(name) = Name::new(b"t") else {
        return Err(anyhow::Error::msg("no name"));
    };
    let mut from = Vec::with_capacity(alloc, 2)?;
    from.push(FromItem {
        table: name.copy(),
        alias: name.copy(),
    })?;
    from.push(FromItem {
        table: name.copy(),
        alias: name,
    })?;
    Ok(BoundQuery {
        distinct: false,
        fields: ShortList::from_vec(Vec::new(alloc)),
        from: Few::from_vec(from),
        atoms: ShortList::from_vec(atoms),
        order: ShortList::from_vec(Vec::new(alloc)),
    })
}

/// Returns a row of one number.
fn row_of(alloc: Global, number: i64) -> anyhow::Result<Row> {
    let mut values = Vec::with_capacity(alloc, 1)?;
    values.push(Value::Int(number))?;
    Ok(Row::new(values))
}
