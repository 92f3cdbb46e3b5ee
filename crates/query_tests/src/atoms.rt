//! The atoms of queries.
use mm_query::{Atom, Comparison, FieldPlace, Operand};
use mm_value::Value;

/// The key of the row of a query's first table.
pub const OUTER_KEY: FieldPlace = FieldPlace {
    place: 0,
    column: 0,
};

/// The value of the row of a query's first table.
pub const OUTER_VALUE: FieldPlace = FieldPlace {
    place: 0,
    column: 1,
};

/// The key of the row of a query's second table.
pub const INNER_KEY: FieldPlace = FieldPlace {
    place: 1,
    column: 0,
};

/// The value of the row of a query's second table.
pub const INNER_VALUE: FieldPlace = FieldPlace {
    place: 1,
    column: 1,
};

/// Returns the atom that compares a column with a number.
pub fn compared(column: FieldPlace, comparison: Comparison, number: i64) -> Atom<FieldPlace> {
    Atom {
        left: column,
        comparison,
        right: Operand::Literal(Value::Int(number)),
    }
}

/// Returns the atom that is true if the key of the first table is 7.
pub fn is_seven() -> Atom<FieldPlace> {
    compared(OUTER_KEY, Comparison::Equal, 7)
}

/// Returns the atom that compares a column with another one.
pub fn stands(column: FieldPlace, comparison: Comparison, other: FieldPlace) -> Atom<FieldPlace> {
    Atom {
        left: column,
        comparison,
        right: Operand::Column(other),
    }
}

/// Returns the atom that is true if two columns are equal.
pub fn equal(column: FieldPlace, other: FieldPlace) -> Atom<FieldPlace> {
    stands(column, Comparison::Equal, other)
}

/// Returns the atom that is true if a column is the sum of another one and a number.
pub fn equal_sum(column: FieldPlace, other: FieldPlace, number: i64) -> Atom<FieldPlace> {
    Atom {
        left: column,
        comparison: Comparison::Equal,
        right: Operand::Shifted(other, number),
    }
}
