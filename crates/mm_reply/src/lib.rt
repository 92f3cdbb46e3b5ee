//! Commands executed with a sink for their replies: a sink takes a reply, or stored rows without a copy. A writer is a sink.
#![tactic(auto)]

mod bound_change;
mod responding;
mod sink;
mod writing;

pub use bound_change::run_bound_change;
pub use responding::respond;
pub use sink::ReplySink;
