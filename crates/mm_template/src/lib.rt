//! Lines cut into their templates and the values of their literals.
#![tactic(auto)]

mod cutter;
mod law;
mod piece;

pub use cutter::Cutter;
pub use law::cut_lines_read_as_fillings;
