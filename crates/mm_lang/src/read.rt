//! Parsing of lines.

pub(crate) mod atoms;
pub(crate) mod columns;
pub(crate) mod hole;
pub(crate) mod keyword;
pub(crate) mod lookahead;
pub(crate) mod phrase;
pub(crate) mod places;
pub(crate) mod reader;
pub(crate) mod reading;
pub(crate) mod select;
pub(crate) mod template;
pub(crate) mod token;
pub(crate) mod tuples;
