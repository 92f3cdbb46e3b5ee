//! Values and rows: their order, their text in both directions, and the refusals of commands.
#![tactic(auto)]

mod as_row;
mod as_value;
mod col_type;
mod device;
mod equality;
mod few;
mod literals;
mod prefix;
mod printed;
mod refusal;
mod row;
mod row_ref;
mod short_text;
mod tuple;
mod value_ref;
mod values;

pub use as_row::AsRow;
pub use as_value::AsValue;
pub use col_type::ColType;
pub use device::{MAX_RETRIES, Watched, WriteError, put_all};
pub use equality::equality_is_exact;
pub use few::{Few, FewIntoIter};
pub use literals::{literals_are_exact, read_int, read_literal};
pub use prefix::{order_prefix, prefixes_keep_order};
pub use printed::write_row;
pub use refusal::Refusal;
pub use row::Row;
pub use row_ref::RowRef;
pub use short_text::{MAX_TEXT_BYTES, Text};
pub use tuple::Tuple;
pub use value_ref::ValueRef;
pub use values::{Value, compare, hash64, orders_are_total};
