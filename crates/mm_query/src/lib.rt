//! Commands, replies, and the machine of row lists that defines their meaning.
#![tactic(auto)]

mod atom;
mod bind;
mod bound_query;
mod combination;
mod command;
mod faults;
mod item_list;
mod laws;
mod listing;
mod place;
mod plain;
mod plan_line;
mod query;
mod reply;
mod row_buffer;
mod row_list;
mod scope;
mod short_list;
mod update;

pub use atom::{Assignment, Atom, Comparison, Operand};
pub use bind::{BoundChange, bind_change};
pub use bound_query::{Bound, BoundQuery, FieldPlace, bind_query};
pub use combination::{none_fails, values_of};
pub use command::{Command, Definition, Mutation, NamedQuery};
pub use item_list::ItemList;
pub use laws::tests_are_atoms;
pub use listing::{ListedQuery, ListedTable, Listing};
pub use place::MAX_TESTS;
pub use plain::{MAX_COMBINATIONS, PlainRows, plain_eval};
pub use plan_line::{JoinEquality, PlanLine};
pub use query::{FieldName, FromItem, Query};
pub use reply::Reply;
pub use row_buffer::RowBuffer;
pub use row_list::RowList;
pub use scope::{MAX_FROM, MAX_PARTS};
pub use short_list::ShortList;
pub use update::updated_row;
