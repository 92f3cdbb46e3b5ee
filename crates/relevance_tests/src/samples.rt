//! Queries and rows for tests.
use mm_query::{Atom, BoundQuery, Comparison, FieldPlace, FromItem, Operand, ShortList};
use mm_relevance::CycleEdge;
use mm_schema::Name;
use mm_value::{Few, Refusal, Row, Text, Value};
use std::alloc::Global;

/// Returns a column of the row at a place.
pub fn field(place: usize, column: usize) -> FieldPlace {
    FieldPlace { place, column }
}

/// Returns the lower edge of an atom.
pub fn lower(conjunct: usize) -> CycleEdge {
    CycleEdge {
        conjunct,
        upper: false,
    }
}

/// Returns an atom.
pub fn atom(
    left: FieldPlace,
    comparison: Comparison,
    right: Operand<FieldPlace>,
) -> Atom<FieldPlace> {
    Atom {
        left,
        comparison,
        right,
    }
}

/// Returns a query over `tables` tables with these atoms. Fails with `Memory` if an allocation fails.
pub fn query(
    alloc: Global,
    tables: usize,
    atoms: Vec<Atom<FieldPlace>>,
) -> Result<BoundQuery, Refusal> {
    let name = Name::new(b"t").ok_or(Refusal::Syntax)?;
    let mut from = Vec::new(alloc);
    for _ in 0..tables {
        from.push(FromItem {
            table: name.copy(),
            alias: name.copy(),
        })?;
    }
    Ok(BoundQuery {
        distinct: false,
        fields: ShortList::from_vec(Vec::new(alloc)),
        from: Few::from_vec(from),
        atoms: ShortList::from_vec(atoms),
        order: ShortList::from_vec(Vec::new(alloc)),
    })
}

/// Returns a row of two values. Fails with `Memory` if an allocation fails.
pub fn row(alloc: Global, key: i64, value: Value) -> Result<Row, Refusal> {
    let mut values = Vec::with_capacity(alloc, 2)?;
    values.push(Value::Int(key))?;
    values.push(value)?;
    Ok(Row::new(values))
}

/// `a.k < b.v AND b.v < 5`
pub fn between(alloc: Global) -> Result<BoundQuery, Refusal> {
    let mut atoms = Vec::new(alloc);
    atoms.push(atom(field(0, 1), Comparison::Less, Operand::Column(field(1, 1))))?;
    atoms.push(atom(
        field(1, 1),
        Comparison::Less,
        Operand::Literal(Value::Int(5)),
    ))?;
    query(alloc, 2, atoms)
}

/// `b.v <= c.k AND c.k <= b.v - 1`
pub fn never(alloc: Global) -> Result<BoundQuery, Refusal> {
    let mut atoms = Vec::new(alloc);
    atoms.push(atom(
        field(1, 1),
        Comparison::LessOrEqual,
        Operand::Column(field(2, 1)),
    ))?;
    atoms.push(atom(
        field(2, 1),
        Comparison::LessOrEqual,
        Operand::Shifted(field(1, 1), -1),
    ))?;
    query(alloc, 3, atoms)
}

/// Returns a text.
pub fn text(alloc: Global, bytes: &[u8]) -> Result<Value, Refusal> {
    Ok(Value::Text(Text::new(alloc, bytes)?))
}

/// `a.v = 'ann'`
pub fn is_ann(alloc: Global) -> Result<BoundQuery, Refusal> {
    let mut atoms = Vec::new(alloc);
    atoms.push(atom(
        field(0, 1),
        Comparison::Equal,
        Operand::Literal(text(alloc, b"ann")?),
    ))?;
    query(alloc, 2, atoms)
}
